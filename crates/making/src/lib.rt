#![tactic(auto)]
// Datagrams written from values (02, 2.1).
ghost use Rattle.std.specs.Prelude.{◌≡◌, [], ◌∷◌, ◌+◌, ◌≤◌, length, take};
ghost use Rattle.integers.specs.Buffers.{Put};
ghost use Rattle.integers.specs.Bytes.{signed, unsigned, in_bytes, value_bytes};
ghost use Rattle.integers.specs.Ranges.{is_zero, fits};
ghost use Rattle.crc.specs.Check.{check32};
ghost use Rattle.setup.specs.Layout.{aux, bytes, parts_of, layout_of, length_in};
ghost use Rattle.made_datagram.specs.Making.{given, parts_with, datagram_in, part_outside, outside_in, made_answer, made_buffer};
ghost use Rattle.making.specs.Writing.{size_of, axes_outside, axes_bytes, aux_bytes, groups_outside, groups_bytes, temperatures_outside, temperatures_bytes, ending_bytes, answer_by, buffer_of};

use made_datagram::Values;
use refusals::Refusal;
use setup::{Row, Setup};

// Bytes of the check and of the ending.
const CHECK: usize = 4;

const ENDING: usize = 2;

// z is 0. `integers::is_zero` takes an i64, and with a cast its call is no plainer.
fn is_zero(z: i32) -> bool
    ensures { result ≡ is_zero z }
{
    z == 0
}

// z is in the width of a reading.
#[tactic(auto, unfolding(integers::specs::Ranges::fits))]
fn fits_reading(z: i32) -> bool
    ensures { result ≡ fits signed 3 z }
{
    integers::fits_reading(z)
}

// z is in the width of a temperature.
#[tactic(auto, unfolding(integers::specs::Ranges::fits))]
fn fits_temperature(z: i32) -> bool
    ensures { result ≡ fits signed 2 z }
{
    (-32768..=32767).contains(&z)
}

// What an axis of a group or of a temperature set is; AUX is as wide as a reading. `wire` has one of its own: one for both would be public.
#[derive(Clone, Copy)]
enum Width {
    Temperature,
    Reading,
}

// z is in the width of an axis.
fn fits_axis(z: i32, width: Width) -> bool
    ensures { result ≡ fits signed (size_of width) z }
{
    match width {
        Width::Temperature => fits_temperature(z),
        Width::Reading => fits_reading(z),
    }
}

// z is in the width of a status or of the counter. Each width has its range in a function of its own, which is as short as a call of one for all.
#[tactic(auto, unfolding(integers::specs::Ranges::fits))]
fn fits_byte(z: i32) -> bool
    ensures { result ≡ fits unsigned 1 z }
{
    (0..=255).contains(&z)
}

// z is in the width of the latency.
#[tactic(auto, unfolding(integers::specs::Ranges::fits))]
fn fits_latency(z: i32) -> bool
    ensures { result ≡ fits unsigned 2 z }
{
    (0..=65535).contains(&z)
}

// A value of a group or a temperature set is outside its width, or not 0 where that isn't carried.
fn axes_outside(carried: bool, width: Width, row: [i32; 3], status: i32) -> bool
    ensures { result ≡ axes_outside carried (size_of width) row status }
{
    if carried {
        return !fits_axis(row[0], width)
            | !fits_axis(row[1], width)
            | !fits_axis(row[2], width)
            | !fits_byte(status);
    }
    !is_zero(row[0]) | !is_zero(row[1]) | !is_zero(row[2]) | !is_zero(status)
}

// The same of AUX.
fn aux_outside(carried: bool, value: i32, status: i32) -> bool
    ensures { result ≡ part_outside carried aux (value ∷ status ∷ []) }
{
    if carried {
        return !fits_reading(value) | !fits_byte(status);
    }
    !is_zero(value) | !is_zero(status)
}

// Of the three groups.
fn groups_outside(row: Row, readings: [[i32; 3]; 3], statuses: [i32; 3]) -> bool
    ensures { result ≡ groups_outside row readings statuses }
{
    axes_outside(true, Width::Reading, readings[0], statuses[0])
        | axes_outside(row.acceleration, Width::Reading, readings[1], statuses[1])
        | axes_outside(row.inclination, Width::Reading, readings[2], statuses[2])
}

// Of the three temperature sets.
fn temperatures_outside(row: Row, values: Values) -> bool
    ensures { result ≡ temperatures_outside row values }
{
    let gyro = values.gyro_temperatures;
    let accelerometer = values.accelerometer_temperatures;
    let inclinometer = values.inclinometer_temperatures;
    let statuses = values.temperature_statuses;
    axes_outside(row.temperatures, Width::Temperature, gyro, statuses[0])
        | axes_outside(
            row.temperatures & row.acceleration,
            Width::Temperature,
            accelerometer,
            statuses[1],
        )
        | axes_outside(
            row.temperatures & row.inclination,
            Width::Temperature,
            inclinometer,
            statuses[2],
        )
}

// 15: a value is outside its field's width, or not 0 in a part that isn't carried.
fn values_outside(row: Row, readings: [[i32; 3]; 3], values: Values) -> bool
    ensures { result ≡ outside_in (parts_of row) (given 0 readings values) }
{
    let statuses = values.statuses;
    groups_outside(row, readings, statuses)
        | temperatures_outside(row, values)
        | aux_outside(row.aux, values.aux, values.aux_status)
        | !fits_byte(values.counter)
        | !fits_latency(values.latency)
}

// A value in a field of one, two or three bytes: the last of its four. Where the next field begins comes back.
// The buffer and the place stay two arguments here and below: each promise, `Put`, tells of the buffer and of both places.
fn put_value(buffer: &mut [u8], at: usize, width: usize, z: i32) -> usize
    requires { (1 ≤ width) × (width ≤ 3) × (at + width ≤ length buffer.old) }
    ensures { Put buffer.old at (value_bytes width z) buffer.new result }
{
    let end = at + width;
    let sent = z.to_be_bytes();
    buffer[at..end].copy_from_slice(&sent[4 - width..]);
    end
}

// X, Y, Z and the status of a group or a temperature set, if it is carried. The width is a number, since put_value counts with it.
fn put_axes(
    buffer: &mut [u8],
    at: usize,
    carried: bool,
    width: usize,
    row: [i32; 3],
    status: i32,
) -> usize
    requires le_width { (2 ≤ width) × (width ≤ 3) }
    requires status_in_bounds { at + length (axes_bytes carried width row status) ≤ length buffer.old }
    ensures { Put buffer.old at (axes_bytes carried width row status) buffer.new result }
{
    if !carried {
        return at;
    }
    let second = put_value(buffer, at, width, row[0]);
    let third = put_value(buffer, second, width, row[1]);
    let last = put_value(buffer, third, width, row[2]);
    put_value(buffer, last, 1, status)
}

// AUX and its status, if it is carried.
fn put_aux(buffer: &mut [u8], at: usize, carried: bool, value: i32, status: i32) -> usize
    requires { at + length (aux_bytes carried value status) ≤ length buffer.old }
    ensures { Put buffer.old at (aux_bytes carried value status) buffer.new result }
{
    if !carried {
        return at;
    }
    let second = put_value(buffer, at, 3, value);
    put_value(buffer, second, 1, status)
}

// The groups that are carried.
fn put_groups(
    buffer: &mut [u8],
    at: usize,
    row: Row,
    readings: [[i32; 3]; 3],
    statuses: [i32; 3],
) -> usize
    requires { at + length (groups_bytes row readings statuses) ≤ length buffer.old }
    ensures { Put buffer.old at (groups_bytes row readings statuses) buffer.new result }
{
    let second = put_axes(buffer, at, true, 3, readings[0], statuses[0]);
    let third = put_axes(
        buffer,
        second,
        row.acceleration,
        3,
        readings[1],
        statuses[1],
    );
    put_axes(buffer, third, row.inclination, 3, readings[2], statuses[2])
}

// Their temperature sets, where temperatures are carried.
fn put_temperatures(buffer: &mut [u8], at: usize, row: Row, values: Values) -> usize
    requires { at + length (temperatures_bytes row values) ≤ length buffer.old }
    ensures { Put buffer.old at (temperatures_bytes row values) buffer.new result }
{
    let gyro = values.gyro_temperatures;
    let accelerometer = values.accelerometer_temperatures;
    let inclinometer = values.inclinometer_temperatures;
    let statuses = values.temperature_statuses;
    let with_acceleration = row.temperatures & row.acceleration;
    let with_inclination = row.temperatures & row.inclination;
    let second = put_axes(buffer, at, row.temperatures, 2, gyro, statuses[0]);
    let third = put_axes(
        buffer,
        second,
        with_acceleration,
        2,
        accelerometer,
        statuses[1],
    );
    put_axes(
        buffer,
        third,
        with_inclination,
        2,
        inclinometer,
        statuses[2],
    )
}

// All that stands before the check; where that begins comes back.
fn put_parts(
    buffer: &mut [u8],
    identifier: u8,
    row: Row,
    readings: [[i32; 3]; 3],
    values: Values,
) -> usize
    requires { bytes (parts_of row) ≤ length buffer.old }
    ensures { Put buffer.old 0 (parts_with (given identifier readings values) (parts_of row)) buffer.new result }
{
    let statuses = values.statuses;
    let groups = put_value(buffer, 0, 1, identifier as i32);
    let temperatures = put_groups(buffer, groups, row, readings, statuses);
    let aux = put_temperatures(buffer, temperatures, row, values);
    let counter = put_aux(buffer, aux, row.aux, values.aux, values.aux_status);
    let latency = put_value(buffer, counter, 1, values.counter);
    put_value(buffer, latency, 2, values.latency)
}

// The check of the bytes before a place, at that place.
fn put_check(buffer: &mut [u8], at: usize) -> usize
    requires { at + 4 ≤ length buffer.old }
    ensures { Put buffer.old at (in_bytes 4 (check32 (take at buffer.old))) buffer.new result }
{
    let check = crc::crc32(&buffer[..at]);
    let sent = check.to_be_bytes();
    let end = at + CHECK;
    buffer[at..end].copy_from_slice(&sent);
    end
}

// 0x0D 0x0A, or nothing.
fn put_ending(buffer: &mut [u8], at: usize, terminated: bool) -> usize
    requires { at + length (ending_bytes terminated) ≤ length buffer.old }
    ensures { Put buffer.old at (ending_bytes terminated) buffer.new result }
{
    if !terminated {
        return at;
    }
    buffer[at] = 0x0D;
    buffer[at + 1] = 0x0A;
    at + ENDING
}

// The whole datagram at the front of a buffer that has room for it; its length comes back.
fn put_datagram(
    buffer: &mut [u8],
    identifier: u8,
    row: Row,
    terminated: bool,
    readings: [[i32; 3]; 3],
    values: Values,
) -> usize
    requires { length_in (layout_of row terminated) ≤ length buffer.old }
    ensures { Put buffer.old 0 (datagram_in (layout_of row terminated) (given identifier readings values)) buffer.new result }
{
    let check = put_parts(buffer, identifier, row, readings, values);
    let ending = put_check(buffer, check);
    put_ending(buffer, ending, terminated)
}

// Writes the datagram of a sensor; only 15 and 16 are left to refuse it. Readings and values come here as `write_datagram` is given them, the readings as a
// grid (01, its last section).
fn write_by(
    buffer: &mut [u8],
    identifier: u8,
    row: Row,
    terminated: bool,
    readings: [[i32; 3]; 3],
    values: Values,
) -> Result<usize, Refusal>
    ensures answer { result ≡ answer_by buffer.old identifier (layout_of row terminated) readings values }
    ensures written { buffer.new ≡ buffer_of buffer.old identifier (layout_of row terminated) readings values }
{
    if values_outside(row, readings, values) {
        return Err(Refusal::DatagramOutside);
    }
    if buffer.len() < wire::length_of(row, terminated) {
        return Err(Refusal::DatagramRoom);
    }
    Ok(put_datagram(buffer, identifier, row, terminated, readings, values))
}

// Writes the datagram of a setup with these values at the front of a buffer: 4 to 9, then 15, then 16 refuse it, and nothing is written then.
#[tactic(auto, using(crate::proofs::MadeAnswers::made_in_turn, crate::proofs::MadeAnswers::buffer_in_turn))]
pub fn write_datagram(
    buffer: &mut [u8],
    setup: Setup,
    readings: [[i32; 3]; 3],
    values: Values,
) -> Result<usize, Refusal>
    ensures answer { result ≡ made_answer buffer.old setup readings values }
    ensures written { buffer.new ≡ made_buffer buffer.old setup readings values }
{
    let sensor = setup::describe(setup)?;
    write_by(
        buffer,
        sensor.identifier,
        sensor.row,
        sensor.terminated,
        readings,
        values,
    )
}
