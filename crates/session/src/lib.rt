#![tactic(auto)]
// A session, and opening one (01, The scan; What is turned down, 4 to 9).
ghost use Rattle.std.specs.Prelude.{◌≡◌, take};
ghost use Rattle.session.specs.Session.{session_with, fresh_of, opening};

use history::History;
use refusals::Refusal;
use setup::Setup;

// What is kept from call to call.
#[derive(Clone, Copy)]
pub struct Session {
    pub setup: Setup,
    // The bytes held and how many they are: at most 64, kept without a heap, with zeros behind them that refusal 10 asks for.
    pub held: [u8; 64],
    pub count: usize,
    // how many bytes were passed over, and how many were fed
    pub passed: u64,
    pub fed: u64,
    pub history: History,
}

// What opening gives back: the ruling on the setup, and a fresh session. It stands beside the ruling since a refused opening gives back a session of zeros
// (01, What is turned down).
#[derive(Clone, Copy)]
pub struct Opened {
    pub answer: Result<(), Refusal>,
    pub session: Session,
}

// A session of its parts, that holds the undecided bytes, of which at most 64 are kept.
pub fn session_with(
    setup: Setup,
    history: History,
    passed: u64,
    fed: u64,
    undecided: &[u8],
) -> Session
    ensures { result ≡ session_with setup history passed fed (take 64 undecided.now) }
{
    let mut held = [0u8; 64];
    let count = byte_slices::copy(undecided, &mut held);
    Session {
        setup: setup,
        held: held,
        count: count,
        passed: passed,
        fed: fed,
        history: history,
    }
}

// A session that holds nothing and has counted nothing.
#[tactic(auto, unfolding(crate::specs::Session::fresh_of))]
fn fresh(setup: Setup) -> Session
    ensures { result ≡ fresh_of setup }
{
    let history = history::no_history();
    session_with(setup, history, 0, 0, &[])
}

// A fresh session of a setup, or what refuses the setup, 4 to 9, with a session of zeros.
#[tactic(auto, unfolding(crate::specs::Session::opening))]
pub fn open(setup: Setup) -> Opened
    ensures { result ≡ opening setup }
{
    let answer = setup::judge(setup);
    let session = match answer {
        Ok(()) => fresh(setup),
        Err(_) => fresh(Setup::zeros()),
    };
    Opened {
        answer: answer,
        session: session,
    }
}
