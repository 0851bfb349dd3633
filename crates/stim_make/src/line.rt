// The line under way.
ghost use Rattle.std.specs.Prelude.{◌≤◌};

// So many bytes of a line are kept, one more than a line may have.
pub(crate) const KEPT: usize = 513;

// Its number, and its first bytes. One with 513 is too long, and what comes behind those of it isn't kept.
// An array, since the program allocates nothing: its memory is fixed.
#[derive(Clone, Copy)]
pub(crate) struct Line {
    pub(crate) number: u64,
    pub(crate) used: usize,
    pub(crate) bytes: [u8; KEPT],
    ghost kept: { used ≤ 513 },
}
