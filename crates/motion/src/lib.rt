#![tactic(auto)]
// What the fields of a datagram mean: status, fitness and judgement, totals (01, Status, doubles, gaps; Totals; 02, 2.2, 2.3).
ghost use Rattle.std.specs.Prelude.{◌≡◌, ℕ, ◌^◌, ◌≤◌, pos, ◌+ℤ◌, ◌==◌, unsigned_abs};
ghost use Rattle.integers.specs.Ranges.{within};
ghost use Rattle.setup.specs.Setup.{unit_number};
ghost use Rattle.motion.specs.Status.{named, named_axes, fit_axes, flagged};
ghost use Rattle.motion.specs.Judgements.{judgement_of, group_judgements, judgements_of};
ghost use Rattle.motion.specs.Totals.{greatest_total, difference, fit_step, kept_step, no_axes, kept_by, group_step, stepped};
ghost use Rattle.motion.specs.Totals.{total_of, group_totals, totals_of};

use groups::{PerAxis, PerGroup};
use setup::{Row, Unit, Units};

// The greatest size of a total, 2^53: up to it every total is a double (01, Totals).
const GREATEST_TOTAL: u64 = 9007199254740992;

// What is kept of an axis: whether a fit datagram came, the last fit reading and the total. No Option: a session that is given may hold a total that has
// not begun, and 10 turns it down (01, What is turned down).
#[derive(Clone, Copy, Debug, PartialEq, Eq)]
pub struct Axis {
    pub begun: bool,
    pub last: i32,
    pub total: i64,
}

pub type GroupAxes = PerAxis<Axis>;

pub type Axes = PerGroup<GroupAxes>;

// A total as it comes back with a datagram. No Option: 13 judges the steps of a total that has not begun too (01, What is turned down).
#[derive(Clone, Copy, Debug, PartialEq, Eq)]
pub struct Total {
    pub begun: bool,
    pub steps: i64,
}

pub type GroupTotals = PerAxis<Total>;

pub type Totals = PerGroup<GroupTotals>;

// The judgement of an axis by its group's status byte (02, 2.3).
#[derive(Clone, Copy, Debug, PartialEq, Eq)]
pub enum Judgement {
    Fit,
    // bit 7
    Integrity,
    // bit 6
    StartUp,
    // bit 3: measurement error
    Error,
    // bit 4
    Overload,
}

pub type GroupJudgements = PerAxis<Judgement>;

pub type Judgements = PerGroup<GroupJudgements>;

// Which of X, Y and Z are named by bits 3 and 4 of a status byte, where these are set (02, 2.2).
fn named_axes(status: u8) -> PerAxis<bool>
    ensures { result ≡ named_axes status }
{
    let none_flagged = flagged_channels(status) == 0;
    PerAxis {
        x: (status / 1 % 2 == 1) | none_flagged,
        y: (status / 2 % 2 == 1) | none_flagged,
        z: (status / 4 % 2 == 1) | none_flagged,
    }
}

// Which of X, Y and Z a group's status byte leaves fit (01, Status, doubles, gaps; 02, 2.2).
pub fn fit_axes(status: u8) -> [bool; 3]
    ensures { result ≡ fit_axes status }
{
    let integrity_or_start_up = (status / 128 % 2 == 1) | (status / 64 % 2 == 1);
    let error_or_overload = (status / 8 % 2 == 1) | (status / 16 % 2 == 1);
    let named = named_axes(status);
    [
        !(integrity_or_start_up | (error_or_overload & named.x)),
        !(integrity_or_start_up | (error_or_overload & named.y)),
        !(integrity_or_start_up | (error_or_overload & named.z)),
    ]
}

// The judgement of an axis; `is_named`: whether bits 3 and 4 name it (02, 2.3).
fn judge_axis(status: u8, is_named: bool) -> Judgement
    ensures { (axis : ℕ) → is_named ≡ named status axis → result ≡ judgement_of status axis }
{
    let integrity = status / 128 % 2 == 1;
    let start_up = status / 64 % 2 == 1;
    let error = (status / 8 % 2 == 1) & is_named;
    let overload = (status / 16 % 2 == 1) & is_named;
    if integrity {
        return Judgement::Integrity;
    }
    if start_up {
        return Judgement::StartUp;
    }
    if error {
        return Judgement::Error;
    }
    if overload {
        return Judgement::Overload;
    }
    Judgement::Fit
}

// The judgements of a group by its status byte.
fn group_judgements(status: u8) -> GroupJudgements
    ensures { result ≡ group_judgements status }
{
    named_axes(status).map(|is_named| judge_axis(status, is_named))
}

// The judgements of all axes by the status bytes of the groups, as they come back with a datagram (02, 2.3).
#[tactic(auto, unfolding(crate::specs::Judgements::judgements_of))]
pub fn judgements_of(statuses: [u8; 3]) -> Judgements
    ensures { result ≡ judgements_of statuses }
{
    PerGroup::of(statuses).map(group_judgements)
}

// How many channels a status byte flags (01, Status, doubles, gaps).
pub fn flagged_channels(status: u8) -> u32
    ensures { result ≡ flagged status }
{
    u32::count_ones((status % 8) as u32)
}

// Whether a unit is integrated.
fn is_integrated(unit: Unit) -> bool
    ensures { result ≡ (unit_number unit == 3) }
{
    unit == Unit::Integrated
}

// Which groups keep totals: those that are carried and set to integrated (01, Totals).
#[tactic(auto, unfolding(crate::specs::Totals::kept_by))]
pub fn kept_groups(row: Row, units: Units) -> [bool; 3]
    ensures { result ≡ kept_by row units }
{
    [
        is_integrated(units.gyro),
        row.acceleration & is_integrated(units.accelerometer),
        row.inclination & is_integrated(units.inclinometer),
    ]
}

// Nine axes to which no fit datagram came.
pub fn no_axes() -> Axes
    ensures { result ≡ no_axes }
{
    PerGroup::each(PerAxis::each(Axis {
        begun: false,
        last: 0,
        total: 0,
    }))
}

// Whether a total is at most 2^53 in size (01, Totals).
pub fn fits_total(steps: i64) -> bool
    ensures { result ≡ within greatest_total steps }
{
    integers::is_within(steps, GREATEST_TOTAL)
}

// x + 2^31, how far x lies above the least i32: by the sign of x, so that no sum leaves 32 bits.
fn above_least(x: i32) -> u32
    ensures { pos result ≡ x +ℤ pos 2147483648 }
{
    if x < 0 {
        (x + 2147483647 + 1) as u32
    } else {
        (x as u32) + 2147483648
    }
}

// The difference of two readings modulo 2^24, in -8388608 .. 8388607. No number in it is wider than 32 bits (02, 2.4).
fn difference(new: i32, old: i32) -> i32
    ensures { result ≡ difference new old }
{
    let d = std::num::wrapping_sub_u32(above_least(new), above_least(old)) % 16777216;
    if d < 8388608 {
        d as i32
    } else {
        (d as i32) - 16777216
    }
}

// A fit reading on one axis.
fn fit_step(axis: Axis, reading: i32) -> Axis
    requires { unsigned_abs axis.total ≤ 2 ^ 53 }
    ensures { result ≡ fit_step axis reading }
{
    let begun = axis.begun;
    if begun {
        let last = axis.last;
        let total = axis.total;
        let sum = total + (difference(reading, last) as i64);
        Axis {
            begun: true,
            last: reading,
            total: sum,
        }
    } else {
        Axis {
            begun: true,
            last: reading,
            total: 0,
        }
    }
}

// One datagram on one axis, where the axis keeps a total.
fn kept_step(kept: bool, axis: Axis, fit: bool, reading: i32) -> Axis
    ensures { result ≡ kept_step kept axis (record { fit = fit; reading = reading }) }
{
    let total = axis.total;
    let counts = kept & fits_total(total);
    if !(counts & fit) {
        return axis;
    }
    fit_step(axis, reading)
}

// One datagram on the axes of one group; those of a group that keeps no totals stay as they are.
#[tactic(auto, unfolding(crate::specs::Totals::group_step, crate::specs::Totals::kept_step))]
fn group_step(kept: bool, axes: GroupAxes, readings: [i32; 3], status: u8) -> GroupAxes
    ensures { result ≡ group_step kept axes readings status }
{
    if !kept {
        return axes;
    }
    let seen = PerAxis::of(fit_axes(status)).zip(PerAxis::of(readings));
    axes.map_with(seen, |axis, (fit, reading)| {
        kept_step(kept, axis, fit, reading)
    })
}

// One datagram on all axes; `kept`: which groups keep totals (01, Totals).
#[tactic(auto, unfolding(crate::specs::Totals::stepped))]
pub fn step(kept: [bool; 3], axes: Axes, readings: [[i32; 3]; 3], statuses: [u8; 3]) -> Axes
    ensures { result ≡ stepped kept axes readings statuses }
{
    let seen = PerGroup::of(readings).zip(PerGroup::of(statuses));
    let before = PerGroup::of(kept).zip(axes);
    before.map_with(seen, |(kept, axes), (readings, status)| {
        group_step(kept, axes, readings, status)
    })
}

// The total of one axis.
fn total_of(axis: Axis) -> Total
    ensures { result ≡ total_of axis }
{
    Total {
        begun: axis.begun,
        steps: axis.total,
    }
}

// The totals of one group.
fn group_totals(axes: GroupAxes) -> GroupTotals
    ensures { result ≡ group_totals axes }
{
    axes.map(total_of)
}

// The totals of all axes, as they come back with a datagram (01, Totals).
#[tactic(auto, unfolding(crate::specs::Totals::totals_of))]
pub fn totals_of(axes: Axes) -> Totals
    ensures { result ≡ totals_of axes }
{
    axes.map(group_totals)
}
