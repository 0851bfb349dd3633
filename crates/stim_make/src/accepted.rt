// A setup that is accepted: the datagrams are made for one.
ghost use Rattle.std.specs.Prelude.{◌≡◌, Ok};
ghost use Rattle.setup.specs.Setup.{ruling_on};

use setup::Setup;

#[derive(Clone, Copy)]
pub(crate) struct AcceptedSetup {
    pub(crate) setup: Setup,
    ghost ruled: { ruling_on setup ≡ Ok tt },
}
