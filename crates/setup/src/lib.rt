#![tactic(auto)]
// The setup of a sensor: its values and the layout of its datagrams (01, The setup line, Layout by identifier).
ghost use Rattle.std.specs.Prelude.{◌≡◌};
ghost use Rattle.setup.specs.Layout.{row_with, row_at, groups_of};
ghost use Rattle.setup.specs.Setup.{any_above, stray_group, stray, ruling_on, zero_setup};
ghost use Rattle.setup.specs.Sensor.{rate_by, unit_by, units_by, shifts_by, terminated_by, description_of};

use groups::PerGroup;
use refusals::Refusal;

// What a datagram carries beside the gyro group, the counter and the latency (01, Layout by identifier).
#[derive(Clone, Copy, Debug, PartialEq, Eq)]
pub struct Row {
    pub acceleration: bool,
    pub inclination: bool,
    pub temperatures: bool,
    pub aux: bool,
}

// The output unit of a group.
#[derive(Clone, Copy, Debug, PartialEq, Eq)]
pub enum Unit {
    Instantaneous,
    Incremental,
    Average,
    Integrated,
}

// The sample rate.
#[derive(Clone, Copy, Debug, PartialEq, Eq)]
pub enum Rate {
    ExternalTrigger,
    Hertz125,
    Hertz250,
    Hertz500,
    Hertz1000,
    Hertz2000,
}

pub type Units = PerGroup<Unit>;

pub type Shifts = PerGroup<u16>;

// What an accepted setup says of its sensor.
#[derive(Clone, Copy, Debug, PartialEq, Eq)]
pub struct Sensor {
    pub identifier: u8,
    pub row: Row,
    // 0x0D 0x0A follow the check
    pub terminated: bool,
    pub rate: Rate,
    pub units: Units,
    pub shifts: Shifts,
}

// A setup as values. The numbers are wide enough for every field of a line, so that each reaches its check unnarrowed.
#[derive(Clone, Copy, Debug, Default, PartialEq, Eq)]
pub struct Setup {
    pub rate: u16,
    pub identifier: u8,
    pub termination: u16,
    // gyro, accelerometer, inclinometer
    pub units: [u16; 3],
    pub shifts: [u16; 3],
}

impl Setup {
    // A setup of zeros, which is refused.
    pub fn zeros() -> Setup
        ensures { result ≡ zero_setup }
    {
        Setup::default()
    }
}

// A row by the place of its identifier in a range of the table: 0 the gyro alone, 1 with acceleration, 2 with inclination, 3 with both.
fn row_with(groups: u8, temperatures: bool, aux: bool) -> Row
    ensures { result ≡ row_with groups temperatures aux }
{
    Row {
        acceleration: groups % 2 == 1,
        inclination: groups / 2 % 2 == 1,
        temperatures: temperatures,
        aux: aux,
    }
}

// What a datagram of an identifier carries, none for one that isn't in the table.
#[tactic(auto, unfolding(crate::specs::Layout::row_at), using(crate::proofs::Ranges::groups, crate::proofs::Ranges::groups_aux, crate::proofs::Ranges::warm, crate::proofs::Ranges::warm_aux, crate::proofs::Ranges::unlisted))]
pub fn row_of(identifier: u8) -> Option<Row>
    ensures { result ≡ row_at identifier }
{
    match identifier {
        0x90..=0x93 => Some(row_with(identifier - 0x90, false, false)),
        0x94 => Some(row_with(0, true, false)),
        0x98..=0x9B => Some(row_with(identifier - 0x98, false, true)),
        0x9C => Some(row_with(0, true, true)),
        0xA5..=0xA7 => Some(row_with(identifier - 0xA4, true, false)),
        0xAD..=0xAF => Some(row_with(identifier - 0xAC, true, true)),
        _ => None,
    }
}

impl TryFrom<u16> for Rate {
    type Error = Refusal;

    ghost try_from_gives = { λ number r. r ≡ rate_by number };

    #[tactic(auto, unfolding(crate::specs::Sensor::rate_of))]
    fn try_from(number: u16) -> Result<Rate, Refusal> {
        match number {
            0 => Ok(Rate::ExternalTrigger),
            125 => Ok(Rate::Hertz125),
            250 => Ok(Rate::Hertz250),
            500 => Ok(Rate::Hertz500),
            1000 => Ok(Rate::Hertz1000),
            2000 => Ok(Rate::Hertz2000),
            _ => Err(Refusal::RateUnknown),
        }
    }
}

impl TryFrom<u16> for Unit {
    type Error = Refusal;

    ghost try_from_gives = { λ number r. r ≡ unit_by number };

    #[tactic(auto, unfolding(crate::specs::Sensor::unit_of))]
    fn try_from(number: u16) -> Result<Unit, Refusal> {
        match number {
            0 => Ok(Unit::Instantaneous),
            1 => Ok(Unit::Incremental),
            2 => Ok(Unit::Average),
            3 => Ok(Unit::Integrated),
            _ => Err(Refusal::UnitTooGreat),
        }
    }
}

// The units of the groups, in the order gyro, accelerometer, inclinometer.
fn units_of(numbers: [u16; 3]) -> Result<Units, Refusal>
    ensures { result ≡ units_by numbers }
{
    let gyro = Unit::try_from(numbers[0])?;
    let accelerometer = Unit::try_from(numbers[1])?;
    let inclinometer = Unit::try_from(numbers[2])?;
    Ok(PerGroup {
        gyro: gyro,
        accelerometer: accelerometer,
        inclinometer: inclinometer,
    })
}

// Their shifts.
fn shifts_of(numbers: [u16; 3]) -> Result<Shifts, Refusal>
    ensures { result ≡ shifts_by numbers }
{
    if any_above(31, numbers) {
        return Err(Refusal::ShiftTooGreat);
    }
    Ok(PerGroup::of(numbers))
}

// Whether the ending follows the check.
fn is_terminated(termination: u16) -> Result<bool, Refusal>
    ensures { result ≡ terminated_by termination }
{
    match termination {
        0 => Ok(false),
        1 => Ok(true),
        _ => Err(Refusal::TerminationUnknown),
    }
}

fn any_above(limit: u16, numbers: [u16; 3]) -> bool
    ensures { result ≡ any_above limit numbers }
{
    (limit < numbers[0]) | (limit < numbers[1]) | (limit < numbers[2])
}

// Which groups a row carries: gyro, accelerometer, inclinometer.
fn groups_of(row: Row) -> [bool; 3]
    ensures { result ≡ groups_of row }
{
    [true, row.acceleration, row.inclination]
}

fn stray_group(carried: bool, unit: u16, shift: u16) -> bool
    ensures { result ≡ stray_group carried unit shift }
{
    !carried & ((unit != 0) | (shift != 0))
}

fn stray(carried: [bool; 3], units: [u16; 3], shifts: [u16; 3]) -> bool
    ensures { result ≡ stray carried units shifts }
{
    stray_group(carried[0], units[0], shifts[0])
        | stray_group(carried[1], units[1], shifts[1])
        | stray_group(carried[2], units[2], shifts[2])
}

// The sensor that a setup describes, or what refuses the setup: 4 to 9 in checking order.
#[tactic(auto, using(crate::proofs::Sensors::described_in_turn))]
pub fn describe(setup: Setup) -> Result<Sensor, Refusal>
    ensures { result ≡ description_of setup }
{
    let rate = Rate::try_from(setup.rate)?;
    let row = row_of(setup.identifier).ok_or(Refusal::IdentifierUnknown)?;
    let terminated = is_terminated(setup.termination)?;
    let units = units_of(setup.units)?;
    let shifts = shifts_of(setup.shifts)?;
    if stray(groups_of(row), setup.units, setup.shifts) {
        return Err(Refusal::GroupNotCarried);
    }
    Ok(Sensor {
        identifier: setup.identifier,
        row: row,
        terminated: terminated,
        rate: rate,
        units: units,
        shifts: shifts,
    })
}

// Whether a setup given as values is accepted, or what refuses it.
#[tactic(auto, using(crate::proofs::Sensors::ruled_as_described))]
pub fn judge(setup: Setup) -> Result<(), Refusal>
    ensures { result ≡ ruling_on setup }
{
    describe(setup)?;
    Ok(())
}
