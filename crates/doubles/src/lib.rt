#![tactic(auto)]
// Readings and totals as doubles, each exactly over 2^shift (01, Status, doubles, gaps; Totals).
ghost use Rattle.std.specs.Prelude.{◌≡◌, ◌≤◌, ◌^◌, pos, nat_abs};
ghost use Rattle.std.specs.Float.{binary64};
ghost use Rattle.std.specs.Float.Ieee.{of_int};
ghost use Rattle.doubles.specs.Doubles.{quotient, known_shift, values_in, values_of, group_values};
ghost use Rattle.doubles.specs.Doubles.{total_double, group_doubles, total_doubles};

use groups::{PerAxis, PerGroup};
use motion::{Axes, Axis, GroupAxes};
use setup::{Shifts, Unit, Units};

// The three values of a group, X, Y and Z, by its unit. Each case has them, since 01 asks for four cases of three doubles (its last section).
#[derive(Clone, Copy, Debug, PartialEq)]
pub enum Values {
    Instantaneous(f64, f64, f64),
    Incremental(f64, f64, f64),
    Average(f64, f64, f64),
    Integrated(f64, f64, f64),
}

pub type GroupValues = PerGroup<Values>;

// The totals of one datagram as doubles. Flat, since a struct of doubles alone is asked for (01, Totals).
#[derive(Clone, Copy, Debug, PartialEq)]
pub struct TotalDoubles {
    pub gyro_x: f64,
    pub gyro_y: f64,
    pub gyro_z: f64,
    pub accelerometer_x: f64,
    pub accelerometer_y: f64,
    pub accelerometer_z: f64,
    pub inclinometer_x: f64,
    pub inclinometer_y: f64,
    pub inclinometer_z: f64,
}

// Those of one group.
type GroupDoubles = PerAxis<f64>;

// 2^shift as a double; a shift above 31 counts as 0.
#[tactic(auto, unfolding(crate::specs::Doubles::known_shift))]
fn power(shift: u16) -> f64
    ensures { result ≡ of_int binary64 (pos (2 ^ known_shift shift)) }
{
    let known = if shift > 31 { 0 } else { shift };
    (1u32 << known) as f64
}

// n / 2^shift, exactly.
fn over_power(n: i64, shift: u16) -> f64
    requires { nat_abs n ≤ 2 ^ 53 }
    ensures { result ≡ quotient n (known_shift shift) }
{
    (n as f64) / power(shift)
}

// Three doubles in a unit.
#[tactic(auto, unfolding(crate::specs::Doubles::values_in))]
fn values_in(unit: Unit, x: f64, y: f64, z: f64) -> Values
    ensures { result ≡ values_in unit x y z }
{
    match unit {
        Unit::Instantaneous => Values::Instantaneous(x, y, z),
        Unit::Incremental => Values::Incremental(x, y, z),
        Unit::Average => Values::Average(x, y, z),
        Unit::Integrated => Values::Integrated(x, y, z),
    }
}

// The values of one group.
#[tactic(auto, unfolding(crate::specs::Doubles::values_of))]
fn values_of(unit: Unit, shift: u16, readings: [i32; 3]) -> Values
    ensures { result ≡ values_of unit shift readings }
{
    let doubles = PerAxis::of(readings).map(|reading| over_power(reading as i64, shift));
    values_in(unit, doubles.x, doubles.y, doubles.z)
}

// The values of the three groups, each double exactly reading / 2^shift (01, Status, doubles, gaps).
#[tactic(auto, unfolding(crate::specs::Doubles::group_values))]
pub fn group_values(units: Units, shifts: Shifts, readings: [[i32; 3]; 3]) -> GroupValues
    ensures { result ≡ group_values units shifts readings }
{
    // written out, since by zip and map_with the check doesn't find the proof
    PerGroup {
        gyro: values_of(units.gyro, shifts.gyro, readings[0]),
        accelerometer: values_of(units.accelerometer, shifts.accelerometer, readings[1]),
        inclinometer: values_of(units.inclinometer, shifts.inclinometer, readings[2]),
    }
}

// total / 2^shift, exactly.
fn total_double(axis: Axis, shift: u16) -> f64
    ensures { result ≡ total_double axis shift }
{
    let total = axis.total;
    if motion::fits_total(total) {
        over_power(total, shift)
    } else {
        0.0
    }
}

// The totals of one group as doubles.
#[tactic(auto, unfolding(crate::specs::Doubles::group_doubles))]
fn group_doubles(axes: GroupAxes, shift: u16) -> GroupDoubles
    ensures { result ≡ group_doubles axes shift }
{
    axes.map(|axis| total_double(axis, shift))
}

// The totals of all axes as doubles (01, Totals).
#[tactic(auto, unfolding(crate::specs::Doubles::total_doubles, crate::specs::Doubles::group_doubles))]
pub fn total_doubles(shifts: Shifts, axes: Axes) -> TotalDoubles
    ensures { result ≡ total_doubles shifts axes }
{
    let doubles = axes.map_with(shifts, group_doubles);
    TotalDoubles {
        gyro_x: doubles.gyro.x,
        gyro_y: doubles.gyro.y,
        gyro_z: doubles.gyro.z,
        accelerometer_x: doubles.accelerometer.x,
        accelerometer_y: doubles.accelerometer.y,
        accelerometer_z: doubles.accelerometer.z,
        inclinometer_x: doubles.inclinometer.x,
        inclinometer_y: doubles.inclinometer.y,
        inclinometer_z: doubles.inclinometer.z,
    }
}
