#![tactic(auto)]
// Runs cases of the building blocks, as `probe` does of the calls that a user makes. Each line of standard input is a case: its kind, what
// must come out, and what goes in, parted by single spaces. It is written back behind `ok`, or behind `WRONG` if something else came out.
//     check HEX HEX          the check of bytes, with the zero bytes that aren't sent
//     mpeg2 HEX HEX          CRC-32/MPEG-2 of bytes
//     accepts A I T HEX      whether (1) or not (0) bytes are an acceptable datagram of identifier I with termination T
//     decodes I READINGS STATUSES COUNTER LATENCY HEX
//     fit STATUS XYZ COUNT   which axes a status leaves fit (1), and how many channels it flags
//     judged STATUS XYZ      the judgement of each axis by a status: 0 fit, 1 integrity, 2 start-up, 3 error, 4 overload
//     gap RATE FIRST PREVIOUS COUNTER MISSED     the datagrams missed, or `?`
ghost use Rattle.std.specs.Prelude.{◌≡◌, ◌≤◌, length};

use gaps::Gap;
use motion::{GroupJudgements, Judgement};
use refusals::Refusal;
use setup::{Rate, Row, Sensor, Setup};
use std::io;
use std::io::Write;

// What follows the first k words, nothing where there are no more. The bound keeps k + 1 from wrapping; a narrower type would be cast where words are counted.
fn rest_at(given: &[u8], k: usize) -> &[u8]
    requires { k ≤ 100 }
{
    given.splitn(k + 1, |b| *b == b' ').nth(k).unwrap_or(b"")
}

// The value of a hexadecimal digit, and some value of any other byte.
fn digit_value(b: u8) -> u8
    ensures { result ≤ 15 }
{
    if b < 0x40 { b % 16 } else { (b % 8 + 9) % 16 }
}

// The decimal number at the front.
fn decimal_of(rest: &[u8]) -> u64 {
    rest.iter().take_while(|b| b.is_ascii_digit()).fold(
        0,
        |number, b| number % 1000000000000000000 * 10 + digit_value(*b) as u64,
    )
}

// The hexadecimal number at the front, up to the next space.
fn hexadecimal_of(rest: &[u8]) -> u64 {
    rest.iter().take_while(|b| **b != b' ').fold(
        0,
        |number, b| number % 1152921504606846976 * 16 + digit_value(*b) as u64,
    )
}

// Bytes in an array, since a program for tests needs no heap, with how many there are.
#[derive(Clone, Copy)]
struct Bytes {
    bytes: [u8; 256],
    count: usize,
}

// The bytes that the word k and what follows it write by pairs of hexadecimal digits, 256 at most.
fn bytes_at(given: &[u8], k: usize) -> Bytes
    requires { k ≤ 100 }
    ensures { (result.count ≤ 256) × (length result.bytes ≡ 256) }
{
    let (pairs, _) = rest_at(given, k).as_chunks::<2>();
    let mut bytes = [0u8; 256];
    for (byte, pair) in bytes.iter_mut().zip(pairs) {
        *byte = digit_value(pair[0]) * 16 + digit_value(pair[1]);
    }
    Bytes {
        bytes: bytes,
        count: pairs.len().min(256),
    }
}

fn value_at(given: &[u8], k: usize) -> u16
    requires { k ≤ 100 }
{
    (decimal_of(rest_at(given, k)) % 65536) as u16
}

fn check_case(given: &[u8]) -> bool {
    let checked = bytes_at(given, 2);
    let count = checked.count;
    crc::crc32(&checked.bytes[..count]) as u64 == hexadecimal_of(rest_at(given, 1))
}

fn mpeg2_case(given: &[u8]) -> bool {
    let checked = bytes_at(given, 2);
    let count = checked.count;
    crc::crc32_mpeg2(&checked.bytes[..count]) as u64 == hexadecimal_of(rest_at(given, 1))
}

// The number at the word k, `-` before a negative one.
fn signed_at(given: &[u8], k: usize) -> i64
    requires { k ≤ 100 }
{
    let rest = rest_at(given, k);
    match rest.strip_prefix(b"-") {
        Some(digits) => 0 - (decimal_of(digits) % 9223372036854775808) as i64,
        None => (decimal_of(rest) % 9223372036854775808) as i64,
    }
}

// What a setup of these says, its groups unset.
fn described_by(identifier: u8, termination: u16, rate: u16) -> Result<Sensor, Refusal> {
    setup::describe(Setup {
        rate: rate,
        identifier: identifier,
        termination: termination,
        units: [0; 3],
        shifts: [0; 3],
    })
}

fn accepts_case(given: &[u8]) -> bool {
    let described = described_by((value_at(given, 2) % 256) as u8, value_at(given, 3), 0);
    let datagram = bytes_at(given, 4);
    let count = datagram.count;
    let bytes = &datagram.bytes[..count];
    let expected = value_at(given, 1) == 1;
    match described {
        Ok(sensor) => {
            let row = sensor.row;
            acceptance::is_acceptable(sensor.identifier, row, sensor.terminated, bytes) == expected
        }
        Err(_) => !expected,
    }
}

fn same_reading(reading: i32, given: &[u8], k: usize) -> bool
    requires { k ≤ 100 }
{
    reading as i64 == signed_at(given, k)
}

// Whether a row of readings is what the words from k on say.
fn same_row(row: [i32; 3], given: &[u8], k: usize) -> bool
    requires { k ≤ 8 }
{
    same_reading(row[0], given, k)
        & same_reading(row[1], given, k + 1)
        & same_reading(row[2], given, k + 2)
}

fn same_statuses(given: &[u8], statuses: [u8; 3]) -> bool {
    (statuses[0] as u16 == value_at(given, 11))
        & (statuses[1] as u16 == value_at(given, 12))
        & (statuses[2] as u16 == value_at(given, 13))
}

fn same_contents(given: &[u8], row: Row, bytes: &[u8]) -> bool {
    let grid = wire::readings(row, bytes);
    let statuses = wire::statuses(row, bytes);
    same_row(grid[0], given, 2)
        & same_row(grid[1], given, 5)
        & same_row(grid[2], given, 8)
        & same_statuses(given, statuses)
        & (wire::counter(row, bytes) as u16 == value_at(given, 14))
        & (wire::latency(row, bytes) == value_at(given, 15))
}

fn decodes_case(given: &[u8]) -> bool {
    let datagram = bytes_at(given, 16);
    let count = datagram.count;
    let listing = setup::row_of((value_at(given, 1) % 256) as u8);
    match listing {
        Some(row) => same_contents(given, row, &datagram.bytes[..count]),
        None => false,
    }
}

fn one_if(set: bool, weight: u32) -> u32
    requires { weight ≤ 100 }
    ensures { result ≤ 100 }
{
    if set { weight } else { 0 }
}

fn fit_case(given: &[u8]) -> bool {
    let status = (value_at(given, 1) % 256) as u8;
    let fit = motion::fit_axes(status);
    let axes = one_if(fit[0], 100) + one_if(fit[1], 10) + one_if(fit[2], 1);
    (axes == value_at(given, 2) as u32)
        & (motion::flagged_channels(status) == value_at(given, 3) as u32)
}

// The place of a judgement in the order of 02, 2.3.
fn place_of(judgement: Judgement) -> u32
    ensures { result ≤ 4 }
{
    match judgement {
        Judgement::Fit => 0,
        Judgement::Integrity => 1,
        Judgement::StartUp => 2,
        Judgement::Error => 3,
        Judgement::Overload => 4,
    }
}

fn same_judgements(group: GroupJudgements, digits: u32) -> bool {
    place_of(group.x) * 100 + place_of(group.y) * 10 + place_of(group.z) == digits
}

fn judged_case(given: &[u8]) -> bool {
    let status = (value_at(given, 1) % 256) as u8;
    let digits = value_at(given, 2) as u32;
    motion::judgements_of([status; 3])
        .map(|group| same_judgements(group, digits))
        .all()
}

fn same_gap(given: &[u8], rate: Rate) -> bool {
    let previous = (value_at(given, 3) % 256) as u8;
    let counter = (value_at(given, 4) % 256) as u8;
    let gap = gaps::gap_between(rate, value_at(given, 2) == 1, previous, counter);
    let rest = rest_at(given, 5);
    let Some(first) = rest.first() else {
        return false;
    };
    match gap {
        Gap::Missed(count) => (*first != b'?') & (count.0 == decimal_of(rest)),
        Gap::OffStep => *first == b'?',
    }
}

fn gap_case(given: &[u8]) -> bool {
    let described = described_by(0x90, 0, value_at(given, 1));
    match described {
        Ok(sensor) => {
            let rate = sensor.rate;
            same_gap(given, rate)
        }
        Err(_) => false,
    }
}

// Whether a case comes out as it says: one arm for each kind, each with its call.
fn passes(given: &[u8]) -> bool {
    match given.first() {
        Some(b'c') => check_case(given),
        Some(b'm') => mpeg2_case(given),
        Some(b'a') => accepts_case(given),
        Some(b'd') => decodes_case(given),
        Some(b'f') => fit_case(given),
        Some(b'j') => judged_case(given),
        Some(b'g') => gap_case(given),
        _ => false,
    }
}

fn run<W: Write>(writer: &mut W, given: &[u8]) -> io::Result<()> {
    if passes(given) {
        writer.write_all(b"ok ")?;
    } else {
        writer.write_all(b"WRONG ")?;
    }
    writer.write_all(given)?;
    writer.write_all(b"\n")
}

// Runs the lines that end; a last one without 0x0A is no case.
fn run_all<W: Write>(writer: &mut W, text: &[u8]) -> io::Result<()> {
    for line in text.split_inclusive(|b| *b == b'\n') {
        if let Some(given) = line.strip_suffix(b"\n") {
            run(writer, given)?;
        }
    }
    Ok(())
}

fn main(rt: HostRuntime) -> io::Result<()> {
    let mut buffer = console::large_buffer();
    let count = console::read_full(&mut rt.stdin(), &mut buffer)?;
    run_all(&mut rt.stdout(), &buffer[..count])
}
