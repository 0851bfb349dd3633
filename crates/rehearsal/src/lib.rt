#![tactic(auto)]
// The line that says what a datagram is to carry (02, 2.1).
ghost use Rattle.std.specs.Prelude.{◌≡◌, ◌&&◌, ◌<◌, min, eqb, pos, neg_ℤ, length, get_or};
ghost use Rattle.setup_line.specs.SetupLine.{fields_of, decimal_value};
ghost use Rattle.rehearsal.specs.RehearsalLine.{digits_written, number_written, field_written, number_value, nearest, value_at, axes_at, readings_in, values_in, all_written, rehearsal_of};

use made_datagram::Values;

// Why a line says nothing: it has over 512 bytes; it has neither 25 nor 39 fields; a field is no whole number.
#[derive(Clone, Copy, Debug, PartialEq, Eq)]
pub enum Fault {
    TooLong,
    OtherCount,
    NoNumber,
}

fn digits_written(text: &[u8]) -> bool
    ensures { result ≡ digits_written text.now }
{
    let n = text.len();
    let first = integers::byte_or_zero(text, 0);
    (1 <= n) & setup_line::all_digits(text) & ((n == 1) | (first != 0x30))
}

fn number_written(text: &[u8]) -> bool
    ensures { result ≡ number_written text.now }
{
    if text.len() == 0 {
        return false;
    }
    if text[0] == 0x2D {
        let first = integers::byte_or_zero(&text[1..], 0);
        return digits_written(&text[1..]) & (first != 0x30);
    }
    digits_written(text)
}

fn field_written(text: &[u8]) -> bool
    ensures { result ≡ field_written text.now }
{
    (text.len() == 0) | number_written(text)
}

// `?` as the field k: only missed, the fourth, may be it.
fn is_unknown(text: &[u8], k: usize) -> bool
    ensures { result ≡ (eqb k 3 && eqb (length text.now) 1 && eqb (get_or text.now 0 0) 0x3F) }
{
    let n = text.len();
    let first = integers::byte_or_zero(text, 0);
    (k == 3) & (n == 1) & (first == 0x3F)
}

// Whether each of the fields of a line is written as it should be.
fn all_written(line: &[u8]) -> bool
    ensures { result ≡ all_written 0 (fields_of line.now) }
{
    line.split(|b| *b == b',')
        .enumerate()
        .all(|(k, text)| field_written(text) | is_unknown(text, k))
}

// Whether a line says what a datagram is to carry.
#[tactic(auto, unfolding(crate::specs::RehearsalLine::rehearsal_of))]
pub fn judge_line(line: &[u8]) -> Result<(), Fault>
    ensures { result ≡ rehearsal_of line.now }
{
    if 512 < line.len() {
        return Err(Fault::TooLong);
    }
    let count = setup_line::field_count(line);
    if !((count == 25) | (count == 39)) {
        return Err(Fault::OtherCount);
    }
    if !all_written(line) {
        return Err(Fault::NoNumber);
    }
    Ok(())
}

// The number that digits write, 2^32 where it is larger.
fn magnitude_written(text: &[u8]) -> u64
    ensures { result ≡ min (decimal_value text.now) 4294967296 }
{
    let mut number: u64 = 0;
    for b in text {
        number = (number * 10 + u64::from(setup_line::digit_value(*b))).min(4294967296);
    }
    number
}

fn nearest_positive(size: u64) -> i32
    ensures { result ≡ nearest (pos size) }
{
    i32::try_from(size).unwrap_or(i32::MAX)
}

fn nearest_negative(size: u64) -> i32
    ensures { result ≡ nearest (neg_ℤ (pos size)) }
{
    i32::try_from(size).map_or(i32::MIN, |fitting| -fitting)
}

// The number that a text writes, 0 where it writes none; the nearest that 32 bits hold.
fn value_of(text: &[u8]) -> i32
    ensures { result ≡ nearest (number_value text.now) }
{
    if !number_written(text) {
        return 0;
    }
    if text[0] == 0x2D {
        return nearest_negative(magnitude_written(&text[1..]));
    }
    nearest_positive(magnitude_written(text))
}

fn value_at(line: &[u8], k: usize) -> i32
    ensures { result ≡ value_at line.now k }
{
    value_of(setup_line::field(line, k))
}

// X, Y, Z from the field k on.
fn axes_at(line: &[u8], k: usize) -> [i32; 3]
    requires { k < 39 }
    ensures { result ≡ axes_at line.now k }
{
    [
        value_at(line, k),
        value_at(line, k + 1),
        value_at(line, k + 2),
    ]
}

// The readings of a line, gyro, accelerometer, inclinometer.
pub fn readings_of(line: &[u8]) -> [[i32; 3]; 3]
    ensures { result ≡ readings_in line.now }
{
    [axes_at(line, 4), axes_at(line, 11), axes_at(line, 18)]
}

// What a line says beside the readings.
pub fn values_of(line: &[u8]) -> Values
    ensures { result ≡ values_in line.now }
{
    Values {
        statuses: [value_at(line, 7), value_at(line, 14), value_at(line, 21)],
        gyro_temperatures: axes_at(line, 25),
        accelerometer_temperatures: axes_at(line, 29),
        inclinometer_temperatures: axes_at(line, 33),
        temperature_statuses: [value_at(line, 28), value_at(line, 32), value_at(line, 36)],
        aux: value_at(line, 37),
        aux_status: value_at(line, 38),
        counter: value_at(line, 1),
        latency: value_at(line, 2),
    }
}
