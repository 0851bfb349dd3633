#![tactic(auto)]
// What stands in a datagram: its fields, their places and its length (01, Layout by identifier).
ghost use Rattle.std.specs.Prelude.{◌≡◌, cond, [], ◌∷◌, map, ◌≤◌, drop};
ghost use Rattle.integers.specs.Bytes.{signed_bytes};
ghost use Rattle.setup.specs.Layout.{aux, counter, widths, bytes, parts_of, layout_of, length_in, placed};
ghost use Rattle.wire.specs.Fields.{groups, temperature_sets, window, signed_field, axes, contents_of, besides_readings};
ghost use Rattle.wire.specs.Places.{groups_end, temperatures_end, fields_at, byte_at, bytes_at, size_of};

use setup::Row;

// What stands in a datagram beside its readings; 0 for what it doesn't carry.
#[derive(Clone, Copy)]
pub struct Fields {
    // gyro, accelerometer, inclinometer
    pub statuses: [u8; 3],
    // X, Y, Z
    pub gyro_temperatures: [i32; 3],
    pub accelerometer_temperatures: [i32; 3],
    pub inclinometer_temperatures: [i32; 3],
    pub temperature_statuses: [u8; 3],
    pub aux: i32,
    pub aux_status: u8,
    pub counter: u8,
    pub latency: u16,
}

// Bytes of the identifier, a group, a temperature set, AUX, the counter, the latency, the check and the ending. No place is above 255.
const IDENTIFIER: u8 = 1;

const GROUP: u8 = 10;

const TEMPERATURES: u8 = 7;

const AUX: u8 = 4;

const COUNTER: u8 = 1;

const LATENCY: u8 = 2;

const CHECK: u8 = 4;

const ENDING: u8 = 2;

// A place or a size, 0 for what isn't carried, as the rules' `placed` has it.
fn if_carried(carried: bool, bytes: u8) -> u8
    ensures { (result ≡ cond carried bytes 0) × (result ≤ bytes) }
{
    if carried { bytes } else { 0 }
}

// Where the groups begin.
fn group_places(row: Row) -> [u8; 3]
    ensures { result ≡ map (placed (parts_of row)) groups }
{
    let second = IDENTIFIER + GROUP;
    let third = second + if_carried(row.acceleration, GROUP);
    [
        IDENTIFIER,
        if_carried(row.acceleration, second),
        if_carried(row.inclination, third),
    ]
}

// Where the groups end.
fn groups_end(row: Row) -> u8
    ensures { result ≡ groups_end row }
{
    IDENTIFIER + GROUP + if_carried(row.acceleration, GROUP) + if_carried(row.inclination, GROUP)
}

// Where the temperature sets begin.
fn temperature_places(row: Row) -> [u8; 3]
    ensures { result ≡ map (placed (parts_of row)) temperature_sets }
{
    let first = groups_end(row);
    let second = first + TEMPERATURES;
    let third = second + if_carried(row.acceleration, TEMPERATURES);
    [
        if_carried(row.temperatures, first),
        if_carried(row.temperatures & row.acceleration, second),
        if_carried(row.temperatures & row.inclination, third),
    ]
}

// Where the temperature sets end.
fn temperatures_end(row: Row) -> u8
    ensures { result ≡ temperatures_end row }
{
    let sets = TEMPERATURES
        + if_carried(row.acceleration, TEMPERATURES)
        + if_carried(row.inclination, TEMPERATURES);
    groups_end(row) + if_carried(row.temperatures, sets)
}

fn aux_place(row: Row) -> u8
    ensures { result ≡ placed (parts_of row) aux }
{
    if_carried(row.aux, temperatures_end(row))
}

fn counter_place(row: Row) -> u8
    ensures { result ≡ placed (parts_of row) counter }
{
    temperatures_end(row) + if_carried(row.aux, AUX)
}

// Where the check stands: behind the latency.
pub fn check_place(row: Row) -> usize
    ensures { result ≡ bytes (parts_of row) }
{
    (counter_place(row) + COUNTER + LATENCY) as usize
}

// The length L of a datagram.
pub fn length_of(row: Row, terminated: bool) -> usize
    ensures { result ≡ length_in (layout_of row terminated) }
{
    check_place(row) + (CHECK + if_carried(terminated, ENDING)) as usize
}

// The bytes from a place on.
fn bytes_from(s: &[u8], at: usize) -> &[u8]
    ensures { result.now ≡ drop at s.now }
{
    s.get(at..).unwrap_or(&[])
}

// N bytes from a place on; bytes beyond the end read as 0.
fn window<const N: usize>(s: &[u8], at: usize) -> [u8; N]
    ensures { result ≡ window N at s.now }
{
    let rest = bytes_from(s, at);
    match rest.first_chunk::<N>() {
        Some(bytes) => *bytes,
        None => {
            let mut bytes = [0; N];
            bytes[..rest.len()].copy_from_slice(rest);
            bytes
        }
    }
}

// How many bytes a signed number has: two, or three, as AUX too.
#[derive(Clone, Copy)]
enum Width {
    Temperature,
    Reading,
}

fn size_of(width: Width) -> u8
    ensures { result ≡ size_of width }
{
    match width {
        Width::Temperature => 2,
        Width::Reading => 3,
    }
}

fn signed_at(s: &[u8], at: usize, width: Width) -> i32
    ensures { result ≡ signed_bytes (window (size_of width) at s.now) }
{
    match width {
        Width::Temperature => {
            let [first, second] = window::<2>(s, at);
            integers::temperature_of(first, second)
        }
        Width::Reading => {
            let [first, second, third] = window::<3>(s, at);
            integers::reading_of(first, second, third)
        }
    }
}

// X, Y, Z of a group, or of a temperature set, at its place; 0 for one that isn't carried, whose place is 0.
fn axes_at(s: &[u8], place: u8, width: Width) -> [i32; 3]
    ensures { result ≡ axes (fields_at (size_of width ∷ size_of width ∷ size_of width ∷ 1 ∷ []) place s.now) }
{
    if place == 0 {
        return [0, 0, 0];
    }
    let size = size_of(width) as usize;
    let x = place as usize;
    let y = x + size;
    let z = y + size;
    [
        signed_at(s, x, width),
        signed_at(s, y, width),
        signed_at(s, z, width),
    ]
}

fn aux_at(s: &[u8], place: u8) -> i32
    ensures { result ≡ signed_field (fields_at (widths aux) place s.now) 0 }
{
    if place == 0 {
        return 0;
    }
    signed_at(s, place as usize, Width::Reading)
}

// The byte `skipped` bytes into a part; 0 for one that isn't carried.
fn byte_at(s: &[u8], place: u8, skipped: u8) -> u8
    ensures { result ≡ byte_at skipped place s.now }
{
    if place == 0 {
        return 0;
    }
    integers::byte_or_zero(s, place as usize + skipped as usize)
}

fn bytes_at(s: &[u8], places: [u8; 3], skipped: u8) -> [u8; 3]
    ensures { result ≡ bytes_at skipped places s.now }
{
    places.map(|place| byte_at(s, place, skipped))
}

// The readings, three groups by three axes.
pub fn readings(row: Row, s: &[u8]) -> [[i32; 3]; 3]
    ensures { result ≡ (contents_of row s.now).readings }
{
    let places = group_places(row);
    [
        axes_at(s, places[0], Width::Reading),
        axes_at(s, places[1], Width::Reading),
        axes_at(s, places[2], Width::Reading),
    ]
}

// The status bytes of the groups, which stand last in them.
pub fn statuses(row: Row, s: &[u8]) -> [u8; 3]
    ensures { result ≡ (contents_of row s.now).statuses }
{
    bytes_at(s, group_places(row), GROUP - 1)
}

pub fn counter(row: Row, s: &[u8]) -> u8
    ensures { result ≡ (contents_of row s.now).counter }
{
    byte_at(s, counter_place(row), 0)
}

// The latency in microseconds.
pub fn latency(row: Row, s: &[u8]) -> u16
    ensures { result ≡ (contents_of row s.now).latency }
{
    let [first, second] = window::<2>(s, (counter_place(row) + COUNTER) as usize);
    integers::unsigned_of(first, second)
}

// All fields but the readings.
pub fn fields_of(row: Row, s: &[u8]) -> Fields
    ensures { result ≡ besides_readings (contents_of row s.now) }
{
    let places = temperature_places(row);
    let aux = aux_place(row);
    Fields {
        statuses: statuses(row, s),
        gyro_temperatures: axes_at(s, places[0], Width::Temperature),
        accelerometer_temperatures: axes_at(s, places[1], Width::Temperature),
        inclinometer_temperatures: axes_at(s, places[2], Width::Temperature),
        temperature_statuses: bytes_at(s, places, TEMPERATURES - 1),
        aux: aux_at(s, aux),
        aux_status: byte_at(s, aux, AUX - 1),
        counter: counter(row, s),
        latency: latency(row, s),
    }
}
