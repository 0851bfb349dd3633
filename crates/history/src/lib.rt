#![tactic(auto)]
// What a session keeps of the datagrams handed out, and what one more does to it (01, Status, doubles, gaps; Totals; 02, 2.5).
ghost use Rattle.std.specs.Prelude.{◌≡◌};
ghost use Rattle.history.specs.History.{no_history, awaits_first, gap_next, advanced};

use doubt::GyroDoubt;
use gaps::{Datagrams, Gap};
use motion::Axes;
use setup::Rate;

// The greatest number of 64 bits.
const GREATEST_COUNT: u64 = 18446744073709551615;

// What a session keeps of the datagrams handed out, beside the bytes and counts of the scan.
#[derive(Clone, Copy, Debug, PartialEq, Eq)]
pub struct History {
    // how many there were
    pub datagrams: Datagrams,
    // the counter of the last one
    pub previous: u8,
    pub axes: Axes,
    // the sums and marks beside the gyro's axes
    pub doubt: GyroDoubt,
}

// A history without any datagram.
pub fn no_history() -> History
    ensures { result ≡ no_history }
{
    let axes = motion::no_axes();
    let doubt = doubt::no_doubt();
    History {
        datagrams: Datagrams(0),
        previous: 0,
        axes: axes,
        doubt: doubt,
    }
}

// Whether the next datagram counts as a first one: none was handed out before it.
pub fn awaits_first(history: History) -> bool
    ensures { result ≡ awaits_first history }
{
    history.datagrams.0 == 0
}

// What lies in front of the next datagram, of its counter (01, Status, doubles, gaps).
pub fn gap_before(rate: Rate, history: History, counter: u8) -> Gap
    ensures { result ≡ gap_next rate history counter }
{
    gaps::gap_between(rate, awaits_first(history), history.previous, counter)
}

// The history behind the next datagram, of its readings, statuses and counter; `kept`: which groups keep totals (01, Totals; 02, 2.5).
pub fn advance(
    rate: Rate,
    kept: [bool; 3],
    history: History,
    readings: [[i32; 3]; 3],
    statuses: [u8; 3],
    counter: u8,
) -> History
    ensures { result ≡ advanced rate kept history readings statuses counter }
{
    let handed = history.datagrams.0;
    if GREATEST_COUNT <= handed {
        return history;
    }
    let before = history.axes;
    let gyro = before.gyro;
    let doubt_before = history.doubt;
    let first = awaits_first(history);
    let after = motion::step(kept, before, readings, statuses);
    let doubt_after = doubt::step(
        rate,
        kept[0],
        gyro,
        doubt_before,
        statuses[0],
        first,
        history.previous,
        counter,
    );
    History {
        datagrams: Datagrams(handed + 1),
        previous: counter,
        axes: after,
        doubt: doubt_after,
    }
}
