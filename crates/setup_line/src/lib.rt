#![tactic(auto)]
// The line that writes a setup down (01, The setup line).
ghost use Rattle.std.specs.Prelude.{◌≡◌, true, ◌≤◌, ◌<◌, length};
ghost use Rattle.setup_line.specs.SetupLine.{fields_of, field_at, is_hex_digit, digit_value, all_digits, decimal_written, identifier_written, decimal_value, identifier_value, three_written, three_values, line_written, setup_written, accepted_setup, line_read, line_end};

use refusals::Refusal;
use setup::Setup;

// What a line gives back: the ruling, and the setup that it writes. It stands beside the ruling since a refused line gives back a setup of zeros (01,
// What is turned down).
#[derive(Clone, Copy, Debug, PartialEq, Eq)]
pub struct LineRead {
    pub answer: Result<(), Refusal>,
    pub setup: Setup,
}

// The field k of a line, counted from 0; empty where the line has fewer.
pub fn field(line: &[u8], k: usize) -> &[u8]
    ensures { result.now ≡ field_at line.now k }
{
    line.split(|b| *b == b',').nth(k).unwrap_or(&[])
}

// How many fields a line has.
pub fn field_count(line: &[u8]) -> usize
    ensures { result ≡ length (fields_of line.now) }
{
    line.iter().filter(|b| **b == b',').count() + 1
}

fn is_hex_digit(b: u8) -> bool
    ensures { result ≡ is_hex_digit b }
{
    b.is_ascii_digit() | (b'A'..=b'F').contains(&b)
}

// The value of a digit 0 to 9 or A to F; 0 for any other byte.
pub fn digit_value(b: u8) -> u8
    ensures { result ≡ digit_value b }
{
    match b {
        b'0'..=b'9' => b - b'0',
        b'A'..=b'F' => b - b'A' + 10,
        _ => 0,
    }
}

// Whether every byte is a digit 0 to 9.
pub fn all_digits(text: &[u8]) -> bool
    ensures { result ≡ all_digits text.now }
{
    text.iter().all(|b| b.is_ascii_digit())
}

fn decimal_written(text: &[u8]) -> bool
    ensures { result ≡ decimal_written text.now }
{
    let n = text.len();
    if n == 0 {
        return false;
    }
    (1 <= n) & (n <= 4) & all_digits(text) & ((n == 1) | (text[0] != 0x30))
}

fn identifier_written(text: &[u8]) -> bool
    ensures { result ≡ identifier_written text.now }
{
    if text.len() != 2 {
        return false;
    }
    is_hex_digit(text[0]) & is_hex_digit(text[1])
}

// The number that up to four digits write.
fn decimal_value(text: &[u8]) -> u16
    requires { length text.now ≤ 4 }
    ensures { result ≡ decimal_value text.now }
{
    let mut number = 0;
    for b in text {
        number = number * 10 + u16::from(digit_value(*b));
    }
    number
}

fn identifier_value(text: &[u8]) -> u8
    requires { length text.now ≡ 2 }
    ensures { result ≡ identifier_value text.now }
{
    digit_value(text[0]) * 16 + digit_value(text[1])
}

fn decimal_field(line: &[u8], k: usize) -> bool
    ensures { result ≡ decimal_written (field_at line.now k) }
{
    decimal_written(field(line, k))
}

// Whether the three fields from k on are decimal.
fn three_written(line: &[u8], k: usize) -> bool
    requires { k < 9 }
    ensures { result ≡ three_written line.now k }
{
    decimal_field(line, k) & decimal_field(line, k + 1) & decimal_field(line, k + 2)
}

// Whether every field of a line is written as it should be.
fn line_written(line: &[u8]) -> bool
    ensures { result ≡ line_written line.now }
{
    let identifier = identifier_written(field(line, 1));
    decimal_field(line, 0)
        & identifier
        & decimal_field(line, 2)
        & three_written(line, 3)
        & three_written(line, 6)
}

fn number_at(line: &[u8], k: usize) -> u16
    requires { decimal_written (field_at line.now k) ≡ true }
    ensures { result ≡ decimal_value (field_at line.now k) }
{
    decimal_value(field(line, k))
}

fn three_values(line: &[u8], k: usize) -> [u16; 3]
    requires { (k < 9) × (three_written line.now k ≡ true) }
    ensures { result ≡ three_values line.now k }
{
    [
        number_at(line, k),
        number_at(line, k + 1),
        number_at(line, k + 2),
    ]
}

// The setup that a well written line writes.
fn setup_written(line: &[u8]) -> Setup
    requires { line_written line.now ≡ true }
    ensures { result ≡ setup_written line.now }
{
    Setup {
        rate: number_at(line, 0),
        identifier: identifier_value(field(line, 1)),
        termination: number_at(line, 2),
        units: three_values(line, 3),
        shifts: three_values(line, 6),
    }
}

// The setup that a line writes, or what refuses the line: 1 to 9 in checking order.
#[tactic(auto, using(crate::proofs::LineAnswers::accepted_in_turn))]
fn accepted_setup(line: &[u8]) -> Result<Setup, Refusal>
    ensures { result ≡ accepted_setup line.now }
{
    let n = line.len();
    if (n == 0) | (64 < n) {
        return Err(Refusal::LineLength);
    }
    if field_count(line) != 9 {
        return Err(Refusal::FieldCount);
    }
    if !line_written(line) {
        return Err(Refusal::FieldForm);
    }
    let setup = setup_written(line);
    setup::judge(setup)?;
    Ok(setup)
}

// The same, with what a refused line gives back: zeros.
#[tactic(auto, using(crate::proofs::LineAnswers::read_as_accepted))]
pub fn read_line(line: &[u8]) -> LineRead
    ensures { result ≡ line_read line.now }
{
    match accepted_setup(line) {
        Ok(setup) => LineRead {
            answer: Ok(()),
            setup: setup,
        },
        Err(refusal) => LineRead {
            answer: Err(refusal),
            setup: Setup::zeros(),
        },
    }
}

// Where the first line of bytes ends: at its 0x0A, or with the bytes.
pub fn line_end(bytes: &[u8]) -> usize
    ensures { result ≡ line_end bytes.now }
{
    bytes
        .iter()
        .position(|b| *b == b'\n')
        .unwrap_or(bytes.len())
}
