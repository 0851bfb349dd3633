#![tactic(auto)]
// What lies between two datagrams (01, Status, doubles, gaps).
ghost use Rattle.std.specs.Prelude.{◌≡◌, ◌<◌};
ghost use Rattle.gaps.specs.Gaps.{elapsed, gap_with, missed_after, gap_between};

use setup::Rate;

// A count of internal samples, 2,000 a second.
#[derive(Clone, Copy, Debug, PartialEq, Eq)]
pub struct Samples(pub u32);

// A count of datagrams.
#[derive(Clone, Copy, Debug, PartialEq, Eq)]
pub struct Datagrams(pub u64);

// What lies between two datagrams. No Option: off step is an answer of its own, and shows as `?`.
#[derive(Clone, Copy, Debug, PartialEq, Eq)]
pub enum Gap {
    Missed(Datagrams),
    OffStep,
}

// The internal samples from one counter to the next, 1 to 256 (01, Status, doubles, gaps).
pub fn elapsed(previous: u8, counter: u8) -> Samples
    ensures { result ≡ elapsed previous counter }
{
    let d = (counter as u32 + 256 - previous as u32) % 256;
    if d == 0 {
        return Samples(256);
    }
    Samples(d)
}

// The datagrams missed in `gone` samples, with one datagram every `step` samples.
fn missed(step: Samples, gone: Samples) -> Gap
    requires { (0 < step.0) × (0 < gone.0) }
    ensures { result ≡ gap_with (missed_after step gone) }
{
    let s = step.0;
    let d = gone.0;
    if d % s == 0 {
        return Gap::Missed(Datagrams((d / s - 1) as u64));
    }
    Gap::OffStep
}

// What lies between the datagram before and one with this counter; `first`: whether it counts as a first one (01, Status, doubles, gaps).
pub fn gap_between(rate: Rate, first: bool, previous: u8, counter: u8) -> Gap
    ensures { result ≡ gap_between rate first previous counter }
{
    if first {
        return Gap::Missed(Datagrams(0));
    }
    let gone = elapsed(previous, counter);
    match rate {
        Rate::ExternalTrigger => Gap::Missed(Datagrams(0)),
        Rate::Hertz125 => missed(Samples(16), gone),
        Rate::Hertz250 => missed(Samples(8), gone),
        Rate::Hertz500 => missed(Samples(4), gone),
        Rate::Hertz1000 => missed(Samples(2), gone),
        Rate::Hertz2000 => missed(Samples(1), gone),
    }
}
