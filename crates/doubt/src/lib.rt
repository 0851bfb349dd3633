#![tactic(auto)]
// Totals that may have slipped: what is kept of each gyro axis beside its total, and what one more datagram does to it (02, 2.5).
ghost use Rattle.std.specs.Prelude.{◌≡◌, eqb, leb};
ghost use Rattle.setup.specs.Setup.{hertz};
ghost use Rattle.doubt.specs.Doubt.{added, greatest_sum, sum_with, marks, fit_doubt, unfit_doubt, doubt_step, no_gyro_doubt, gyro_step, marks_of};

use gaps::Samples;
use groups::PerAxis;
use motion::GroupAxes;
use setup::Rate;

// A sum stops here.
const GREATEST_SUM: u64 = 65535;

// The most internal samples from one fit datagram to the next in which a gyro turns by less than half the folding range.
const MOST_SAMPLES: u32 = 16;

// What is kept of a gyro axis beside its total: the internal samples since its last fit datagram, and whether its total is doubtful.
#[derive(Clone, Copy, Debug, PartialEq, Eq)]
pub struct AxisDoubt {
    pub samples: Samples,
    pub marked: bool,
}

pub type GyroDoubt = PerAxis<AxisDoubt>;

// Whether the total of each gyro axis is doubtful, as it comes back with a datagram.
pub type GyroMarks = PerAxis<bool>;

// What is kept of axes to which no fit datagram came.
pub fn no_doubt() -> GyroDoubt
    ensures { result ≡ no_gyro_doubt }
{
    PerAxis::each(AxisDoubt {
        samples: Samples(0),
        marked: false,
    })
}

// The internal samples that a datagram adds: those since the one before, none for a first one.
fn added(first: bool, previous: u8, counter: u8) -> Samples
    ensures { result ≡ added first previous counter }
{
    if first {
        return Samples(0);
    }
    gaps::elapsed(previous, counter)
}

// Whether so many samples are a sum that can be kept (02, 2.5).
pub fn fits_sum(samples: Samples) -> bool
    ensures { result ≡ leb samples.0 greatest_sum }
{
    (samples.0 as u64) <= GREATEST_SUM
}

// A sum with d more samples.
fn sum_with(sum: Samples, d: Samples) -> Samples
    ensures { result ≡ sum_with sum d }
{
    let more = (sum.0 as u64) + (d.0 as u64);
    if more < GREATEST_SUM {
        return Samples(more as u32);
    }
    Samples(GREATEST_SUM as u32)
}

// Whether a rate is external trigger.
fn is_trigger(rate: Rate) -> bool
    ensures { result ≡ eqb (hertz rate) 0 }
{
    rate == Rate::ExternalTrigger
}

// Whether a fit datagram behind an earlier one marks the total, of the sum with its own samples.
fn marks(rate: Rate, sum: Samples) -> bool
    ensures { result ≡ marks (hertz rate) sum }
{
    (MOST_SAMPLES < sum.0) | is_trigger(rate)
}

// A fit datagram on an axis; `begun`: whether a fit one came before it. It and d aren't kept with the sum, so they stay arguments.
fn fit_doubt(rate: Rate, begun: bool, doubt: AxisDoubt, d: Samples) -> AxisDoubt
    ensures { result ≡ fit_doubt (hertz rate) begun doubt d }
{
    let before = doubt.samples;
    let marked = doubt.marked;
    let sum = sum_with(before, d);
    let behind = Samples(0);
    AxisDoubt {
        samples: behind,
        marked: marked | (begun & marks(rate, sum)),
    }
}

// An unfit datagram on an axis: it adds its samples once the axis has begun.
fn unfit_doubt(begun: bool, doubt: AxisDoubt, d: Samples) -> AxisDoubt
    ensures { result ≡ unfit_doubt begun doubt d }
{
    if !begun {
        return doubt;
    }
    let before = doubt.samples;
    let marked = doubt.marked;
    AxisDoubt {
        samples: sum_with(before, d),
        marked: marked,
    }
}

// One datagram on one axis, by whether it leaves the axis fit.
fn axis_step(rate: Rate, begun: bool, fit: bool, doubt: AxisDoubt, d: Samples) -> AxisDoubt
    ensures { result ≡ doubt_step (hertz rate) begun fit doubt d }
{
    if fit {
        return fit_doubt(rate, begun, doubt, d);
    }
    unfit_doubt(begun, doubt, d)
}

// One datagram on the gyro's axes, of its status byte and its counter; `kept`: whether the gyro keeps totals, `axes`: its axes before the datagram,
// `first`: whether it counts as a first one, `previous`: the counter of the one before (02, 2.5).
#[tactic(auto, unfolding(crate::specs::Doubt::gyro_step, crate::specs::Doubt::kept_doubt))]
pub fn step(
    rate: Rate,
    kept: bool,
    axes: GroupAxes,
    doubt: GyroDoubt,
    status: u8,
    first: bool,
    previous: u8,
    counter: u8,
) -> GyroDoubt
    ensures { result ≡ gyro_step (hertz rate) kept axes doubt status (added first previous counter) }
{
    if !kept {
        return doubt;
    }
    let d = added(first, previous, counter);
    let seen = axes.zip(PerAxis::of(motion::fit_axes(status)));
    doubt.map_with(seen, |doubt, (axis, fit)| {
        axis_step(rate, axis.begun, fit, doubt, d)
    })
}

// The marks, as they come back with a datagram (02, 2.5).
#[tactic(auto, unfolding(crate::specs::Doubt::marks_of))]
pub fn marks_of(doubt: GyroDoubt) -> GyroMarks
    ensures { result ≡ marks_of doubt }
{
    doubt.map(|axis| axis.marked)
}
