#![tactic(auto)]
// A text line, by which groups and totals are shown, written into a lent buffer (01, The text line).
ghost use Rattle.std.specs.Prelude.{◌≡◌, ◌∷◌, ◌+◌, ◌<◌, ◌≤◌, length};
ghost use Rattle.shown_line.specs.Decimal.{digits, decimal, last_three};
ghost use Rattle.integers.specs.Buffers.{Put};
ghost use Rattle.shown_line.specs.Putting.{behind, heading_text, room_answer, room_buffer};
ghost use Rattle.shown_line.specs.ShownLine.{shown_if, missed_field, axis_fields, total_field, total_fields, group_fields, groups_fields, shown_text};
ghost use Rattle.shown_line.specs.ShownLine.{row_fits, readings_fit, total_within, group_within, totals_within, outside};
ghost use Rattle.shown_line.specs.ShownLine.{shown_answer, shown_buffer, longest_line};
ghost use Rattle.shown_line.proofs.Longest.{MissedFits};

use gaps::{Datagrams, Gap};
use motion::{GroupTotals, Total, Totals};
use refusals::Refusal;
use shown_line::Shown;

// What a line says of a datagram: its ordinal from 1, its counter and latency, what lies before it, and what it says of each group.
#[derive(Clone, Copy, Debug, PartialEq, Eq)]
pub struct LineValues {
    pub ordinal: Datagrams,
    pub counter: u8,
    pub latency: u16,
    pub gap: Gap,
    // gyro, accelerometer, inclinometer
    pub readings: [[i32; 3]; 3],
    pub statuses: [u8; 3],
    pub totals: Totals,
}

// The last three digits of a number, zeros included. The buffer and the place stay two arguments here and below: each promise, `Put`, tells of the buffer
// and of both places.
fn put_three(buffer: &mut [u8], at: usize, n: u32) -> usize
    requires { at + 3 ≤ length buffer.old }
    ensures { Put buffer.old at (last_three n) buffer.new result }
{
    buffer[at] = 0x30 + (n / 100 % 10) as u8;
    buffer[at + 1] = 0x30 + (n / 10 % 10) as u8;
    buffer[at + 2] = 0x30 + (n % 10) as u8;
    at + 3
}

// The digits of a number below 1000.
fn put_small(buffer: &mut [u8], at: usize, n: u32) -> usize
    requires { (n < 1000) × (at + length (digits n) ≤ length buffer.old) }
    ensures { Put buffer.old at (digits n) buffer.new result }
{
    if n < 10 {
        buffer[at] = 0x30 + n as u8;
        return at + 1;
    }
    if n < 100 {
        buffer[at] = 0x30 + (n / 10) as u8;
        buffer[at + 1] = 0x30 + (n % 10) as u8;
        return at + 2;
    }
    put_three(buffer, at, n)
}

// The digits of a number below a million, and below a thousand million: three more behind those of its thousands. Two functions, since one for both would
// have to be told which it calls.
fn put_million(buffer: &mut [u8], at: usize, n: u32) -> usize
    requires { (n < 1000000) × (at + length (digits n) ≤ length buffer.old) }
    ensures { Put buffer.old at (digits n) buffer.new result }
{
    if n < 1000 {
        return put_small(buffer, at, n);
    }
    let end = put_small(buffer, at, n / 1000);
    put_three(buffer, end, n % 1000)
}

fn put_billion(buffer: &mut [u8], at: usize, n: u32) -> usize
    requires { (n < 1000000000) × (at + length (digits n) ≤ length buffer.old) }
    ensures { Put buffer.old at (digits n) buffer.new result }
{
    if n < 1000000 {
        return put_million(buffer, at, n);
    }
    let end = put_million(buffer, at, n / 1000);
    put_three(buffer, end, n % 1000)
}

// The digits of a number. Most are below a thousand million, so that none but a long one calls itself.
fn put_digits(buffer: &mut [u8], at: usize, n: u64) -> usize
    requires { at + length (digits n) ≤ length buffer.old }
    ensures { Put buffer.old at (digits n) buffer.new result }
{
    if n < 1000000000 {
        return put_billion(buffer, at, n as u32);
    }
    let end = put_digits(buffer, at, n / 1000);
    put_three(buffer, end, (n % 1000) as u32)
}

fn put_decimal(buffer: &mut [u8], at: usize, z: i64) -> usize
    requires { at + length (decimal z) ≤ length buffer.old }
    ensures { Put buffer.old at (decimal z) buffer.new result }
{
    let size = integers::magnitude(z);
    if z < 0 {
        buffer[at] = 0x2D;
        return put_digits(buffer, at + 1, size);
    }
    put_digits(buffer, at, size)
}

// A comma and an unsigned field.
fn put_unsigned(buffer: &mut [u8], at: usize, shown: bool, n: u64) -> usize
    requires { at + length (0x2C ∷ shown_if shown (digits n)) ≤ length buffer.old }
    ensures { Put buffer.old at (0x2C ∷ shown_if shown (digits n)) buffer.new result }
{
    buffer[at] = 0x2C;
    if shown {
        return put_digits(buffer, at + 1, n);
    }
    at + 1
}

// A comma and a signed field.
fn put_signed(buffer: &mut [u8], at: usize, shown: bool, z: i64) -> usize
    requires { at + length (0x2C ∷ shown_if shown (decimal z)) ≤ length buffer.old }
    ensures { Put buffer.old at (0x2C ∷ shown_if shown (decimal z)) buffer.new result }
{
    buffer[at] = 0x2C;
    if shown {
        return put_decimal(buffer, at + 1, z);
    }
    at + 1
}

// A comma and what was missed, or `?` off step.
fn put_missed(buffer: &mut [u8], at: usize, gap: Gap) -> usize
    requires { at + length (0x2C ∷ missed_field gap) ≤ length buffer.old }
    ensures { Put buffer.old at (0x2C ∷ missed_field gap) buffer.new result }
{
    match gap {
        Gap::Missed(count) => put_unsigned(buffer, at, true, count.0),
        Gap::OffStep => {
            buffer[at] = 0x2C;
            buffer[at + 1] = 0x3F;
            at + 2
        }
    }
}

fn put_heading(buffer: &mut [u8], values: LineValues) -> usize
    requires { length (heading_text values.ordinal.0 values.counter values.latency values.gap) ≤ length buffer.old }
    ensures { Put buffer.old 0 (heading_text values.ordinal.0 values.counter values.latency values.gap) buffer.new result }
{
    let ordinal = put_digits(buffer, 0, values.ordinal.0);
    let counter = put_unsigned(buffer, ordinal, true, values.counter as u64);
    let latency = put_unsigned(buffer, counter, true, values.latency as u64);
    let gap = values.gap;
    put_missed(buffer, latency, gap)
}

// X, Y and Z of a group.
fn put_axes(buffer: &mut [u8], at: usize, carried: bool, row: [i32; 3]) -> usize
    requires { at + length (behind (axis_fields carried row)) ≤ length buffer.old }
    ensures { Put buffer.old at (behind (axis_fields carried row)) buffer.new result }
{
    let x = put_signed(buffer, at, carried, row[0] as i64);
    let y = put_signed(buffer, x, carried, row[1] as i64);
    put_signed(buffer, y, carried, row[2] as i64)
}

fn put_total(buffer: &mut [u8], at: usize, kept: bool, total: Total) -> usize
    requires { at + length (0x2C ∷ total_field kept total) ≤ length buffer.old }
    ensures { Put buffer.old at (0x2C ∷ total_field kept total) buffer.new result }
{
    let begun = total.begun;
    let steps = total.steps;
    put_signed(buffer, at, kept & begun, steps)
}

fn put_totals(buffer: &mut [u8], at: usize, kept: bool, totals: GroupTotals) -> usize
    requires { at + length (behind (total_fields kept totals)) ≤ length buffer.old }
    ensures { Put buffer.old at (behind (total_fields kept totals)) buffer.new result }
{
    let x = put_total(buffer, at, kept, totals.x);
    let y = put_total(buffer, x, kept, totals.y);
    put_total(buffer, y, kept, totals.z)
}

// The fields of a group: what they are made of comes from three places, so it stays apart.
fn put_group(
    buffer: &mut [u8],
    at: usize,
    carried: bool,
    kept: bool,
    row: [i32; 3],
    status: u8,
    totals: GroupTotals,
) -> usize
    requires { at + length (behind (group_fields carried kept row status totals)) ≤ length buffer.old }
    ensures { Put buffer.old at (behind (group_fields carried kept row status totals)) buffer.new result }
{
    let axes = put_axes(buffer, at, carried, row);
    let end = put_unsigned(buffer, axes, carried, status as u64);
    put_totals(buffer, end, carried & kept, totals)
}

fn put_groups(
    buffer: &mut [u8],
    at: usize,
    carried: [bool; 3],
    kept: [bool; 3],
    readings: [[i32; 3]; 3],
    statuses: [u8; 3],
    totals: Totals,
) -> usize
    requires { at + length (behind (groups_fields carried kept readings statuses totals)) ≤ length buffer.old }
    ensures { Put buffer.old at (behind (groups_fields carried kept readings statuses totals)) buffer.new result }
{
    let first = put_group(
        buffer,
        at,
        carried[0],
        kept[0],
        readings[0],
        statuses[0],
        totals.gyro,
    );
    let second = put_group(
        buffer,
        first,
        carried[1],
        kept[1],
        readings[1],
        statuses[1],
        totals.accelerometer,
    );
    put_group(
        buffer,
        second,
        carried[2],
        kept[2],
        readings[2],
        statuses[2],
        totals.inclinometer,
    )
}

// The line at the front of a buffer with room for it.
fn put_line(buffer: &mut [u8], shown: Shown, values: LineValues) -> usize
    requires { length (shown_text shown values.ordinal.0 values.counter values.latency values.gap values.readings values.statuses values.totals) ≤ length buffer.old }
    ensures { Put buffer.old 0 (shown_text shown values.ordinal.0 values.counter values.latency values.gap values.readings values.statuses values.totals) buffer.new result }
{
    let carried = shown.carried;
    let kept = shown.kept;
    let at = put_heading(buffer, values);
    let end = put_groups(
        buffer,
        at,
        carried,
        kept,
        values.readings,
        values.statuses,
        values.totals,
    );
    buffer[end] = 0x0A;
    end + 1
}

fn row_fits(row: [i32; 3]) -> bool
    ensures { result ≡ row_fits row }
{
    integers::fits_reading(row[0]) & integers::fits_reading(row[1]) & integers::fits_reading(row[2])
}

fn readings_fit(readings: [[i32; 3]; 3]) -> bool
    ensures { result ≡ readings_fit readings }
{
    row_fits(readings[0]) & row_fits(readings[1]) & row_fits(readings[2])
}

fn total_within(total: Total) -> bool
    ensures { result ≡ total_within total }
{
    motion::fits_total(total.steps)
}

fn group_within(totals: GroupTotals) -> bool
    ensures { result ≡ group_within totals }
{
    totals.map(total_within).all()
}

#[tactic(auto, unfolding(shown_line::specs::ShownLine::totals_within))]
fn totals_within(totals: Totals) -> bool
    ensures { result ≡ totals_within totals }
{
    totals.map(group_within).all()
}

fn outside(values: LineValues) -> bool
    ensures { result ≡ outside values.ordinal.0 values.readings values.totals }
{
    !readings_fit(values.readings) | !totals_within(values.totals) | (values.ordinal.0 == 0)
}

// A whole line copied into a buffer, unless the buffer is shorter.
fn copy_line(buffer: &mut [u8], line: &[u8]) -> Result<usize, Refusal>
    ensures answer { result ≡ room_answer buffer.old line.now }
    ensures written { buffer.new ≡ room_buffer buffer.old line.now }
{
    if buffer.len() < line.len() {
        return Err(Refusal::LineRoom);
    }
    Ok(byte_slices::copy(line, buffer))
}

// A line for a buffer that may be too short for it: written elsewhere first, in an array, since nothing here has a heap.
fn write_apart(buffer: &mut [u8], shown: Shown, values: LineValues) -> Result<usize, Refusal>
    requires { length (shown_text shown values.ordinal.0 values.counter values.latency values.gap values.readings values.statuses values.totals) ≤ longest_line }
    ensures answer { result ≡ room_answer buffer.old (shown_text shown values.ordinal.0 values.counter values.latency values.gap values.readings values.statuses values.totals) }
    ensures written { buffer.new ≡ room_buffer buffer.old (shown_text shown values.ordinal.0 values.counter values.latency values.gap values.readings values.statuses values.totals) }
{
    let mut line: [u8; 307] = [0; 307];
    let n = put_line(&mut line, shown, values);
    copy_line(buffer, &line[..n])
}

// No line that is written is longer, so a buffer of this size is never too short.
pub fn longest_line() -> usize
    ensures { result ≡ longest_line }
{
    307
}

// A count that is told is one of 64 bits: only the contract says something.
fn fits_count(gap: Gap)
    ensures { MissedFits gap }
{
    match gap {
        Gap::Missed(_) => {}
        Gap::OffStep => {}
    }
}

// Writes the line at the front of the buffer and tells how many bytes it has, or refuses by 13 or 14 and writes nothing.
pub fn write_shown(buffer: &mut [u8], shown: Shown, values: LineValues) -> Result<usize, Refusal>
    ensures answer { result ≡ shown_answer buffer.old shown values.ordinal.0 values.counter values.latency values.gap values.readings values.statuses values.totals }
    ensures written { buffer.new ≡ shown_buffer buffer.old shown values.ordinal.0 values.counter values.latency values.gap values.readings values.statuses values.totals }
{
    if outside(values) {
        return Err(Refusal::LineOutside);
    }
    fits_count(values.gap);
    if buffer.len() < longest_line() {
        return write_apart(buffer, shown, values);
    }
    Ok(put_line(buffer, shown, values))
}
