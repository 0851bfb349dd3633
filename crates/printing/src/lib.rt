#![tactic(auto)]
// A total or a reading over 2^shift in decimals, written into a lent buffer (02, 2.6).
ghost use Rattle.std.specs.Prelude.{◌≡◌, ◌+◌, ◌*◌, ◌/◌, ◌%◌, ◌^◌, ◌<◌, ◌≤◌, length};
ghost use Rattle.integers.specs.Buffers.{Put};
ghost use Rattle.shown_line.specs.Decimal.{digits};
ghost use Rattle.printed_value.specs.PrintedValue.{nearest_even, last_digits, behind_whole, printed_answer, printed_buffer};
ghost use Rattle.printed_value.specs.Prints.{minus_text};
ghost use Rattle.printing.specs.Writing.{fraction_length, text_of, room_answer, room_buffer};

use refusals::Refusal;

// What is printed but for the sign: the whole part, and the digits behind the point as a number.
#[derive(Clone, Copy)]
struct Rounded {
    whole: u64,
    fraction: u64,
}

fn power_of_two(shift: u16) -> u64
    requires { shift ≤ 31 }
    ensures { result ≡ 2 ^ shift }
{
    1u64 << shift
}

fn power_of_ten(places: u16) -> u64
    requires { places ≤ 9 }
    ensures { result ≡ 10 ^ places }
{
    10u64.pow(u32::from(places))
}

// a / b to the nearest whole number, a half to the even one.
fn nearest(a: u64, b: u64) -> u64
    requires { (0 < b) × (b ≤ 2 ^ 31) × (a < 2 ^ 62) }
    ensures { result ≡ nearest_even a b }
{
    let quotient = a / b;
    let twice = a % b * 2;
    if (b < twice) | ((twice == b) & (quotient % 2 == 1)) {
        quotient + 1
    } else {
        quotient
    }
}

// size / 2^shift rounded to so many places. Whole units are left aside two by two: what is left fits 64 bits when scaled, and is rounded as all of it would
// be, since an even number added changes neither the remainder nor which neighbour is even.
fn round_size(size: u64, shift: u16, places: u16) -> Rounded
    requires { (size ≤ 2 ^ 53) × (shift ≤ 31) × (places ≤ 9) }
    ensures { (result.whole ≡ nearest_even (size * 10 ^ places) (2 ^ shift) / 10 ^ places) × (result.fraction ≡ nearest_even (size * 10 ^ places) (2 ^ shift) % 10 ^ places) }
{
    let unit = power_of_two(shift);
    let scale = power_of_ten(places);
    let pair = unit * 2;
    let rest = size % pair;
    let last = nearest(rest * scale, unit);
    let whole = size / pair * 2 + last / scale;
    let fraction = last % scale;
    Rounded {
        whole: whole,
        fraction: fraction,
    }
}

// How many digits a number has; 0 has one, as 1 has.
fn digit_count(n: u64) -> usize
    ensures { result ≡ length (digits n) }
{
    n.max(1).ilog10() as usize + 1
}

// The last k digits of a number, zeros included.
fn put_last(buffer: &mut [u8], at: usize, k: usize, n: u64) -> usize
    requires { at + k ≤ length buffer.old }
    ensures { Put buffer.old at (last_digits k n) buffer.new result }
{
    let mut left = n;
    for place in (at..at + k).rev() {
        buffer[place] = b'0' + (left % 10) as u8;
        left /= 10;
    }
    at + k
}

// `-`, or nothing.
fn put_minus(buffer: &mut [u8], minus: bool) -> usize
    requires { length (minus_text minus) ≤ length buffer.old }
    ensures { Put buffer.old 0 (minus_text minus) buffer.new result }
{
    if minus {
        buffer[0] = 0x2D;
        return 1;
    }
    0
}

// The point and the digits behind it, or nothing.
fn put_fraction(buffer: &mut [u8], at: usize, places: u16, fraction: u64) -> usize
    requires { at + length (behind_whole places fraction) ≤ length buffer.old }
    ensures { Put buffer.old at (behind_whole places fraction) buffer.new result }
{
    if places == 0 {
        return at;
    }
    buffer[at] = 0x2E;
    put_last(buffer, at + 1, places as usize, fraction)
}

// The text at the front of a buffer with room for it, where the whole part has so many digits.
fn put_text(buffer: &mut [u8], minus: bool, rounded: Rounded, count: usize, places: u16) -> usize
    requires { (count ≡ length (digits rounded.whole)) × (length (text_of minus rounded.whole rounded.fraction places) ≤ length buffer.old) }
    ensures { Put buffer.old 0 (text_of minus rounded.whole rounded.fraction places) buffer.new result }
{
    let at = put_minus(buffer, minus);
    let point = put_last(buffer, at, count, rounded.whole);
    put_fraction(buffer, point, places, rounded.fraction)
}

// How many bytes stand before the whole part, and behind it.
fn minus_length(minus: bool) -> usize
    ensures { result ≡ length (minus_text minus) }
{
    if minus { 1 } else { 0 }
}

fn fraction_length(places: u16) -> usize
    ensures { result ≡ fraction_length places }
{
    if places == 0 { 0 } else { places as usize + 1 }
}

// Prints a rounded value with its sign; only 19 is left to refuse it.
fn print_rounded(
    buffer: &mut [u8],
    minus: bool,
    rounded: Rounded,
    places: u16,
) -> Result<usize, Refusal>
    ensures answer { result ≡ room_answer buffer.old (text_of minus rounded.whole rounded.fraction places) }
    ensures written { buffer.new ≡ room_buffer buffer.old (text_of minus rounded.whole rounded.fraction places) }
{
    let count = digit_count(rounded.whole);
    if buffer.len() < minus_length(minus) + count + fraction_length(places) {
        return Err(Refusal::ValueRoom);
    }
    Ok(put_text(buffer, minus, rounded, count, places))
}

// Prints number / 2^shift with so many places at the front of a buffer and tells how many bytes it wrote: 17, then 18, then 19 refuse it, and nothing is
// written then.
pub fn print_value(
    buffer: &mut [u8],
    number: i64,
    shift: u16,
    places: u16,
) -> Result<usize, Refusal>
    ensures answer { result ≡ printed_answer buffer.old number shift places }
    ensures written { buffer.new ≡ printed_buffer buffer.old number shift places }
{
    let out_of_range = (9 < places) | (31 < shift);
    let beyond = !motion::fits_total(number);
    if out_of_range {
        return Err(Refusal::PlacesOrShift);
    }
    if beyond {
        return Err(Refusal::NumberTooGreat);
    }
    let rounded = round_size(integers::magnitude(number), shift, places);
    let nonzero = (0 < rounded.whole) | (0 < rounded.fraction);
    print_rounded(buffer, (number < 0) & nonzero, rounded, places)
}
