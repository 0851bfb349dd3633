// What a record gives a call: the values at its places. Numbers have their least significant byte first.
ghost use Rattle.std.specs.Prelude.{◌≡◌, ◌+◌, ◌≤◌};
ghost use Rattle.wire.specs.Fields.{window};
ghost use Rattle.gaps.specs.Gaps.{datagrams};
ghost use Rattle.probe.specs.Records.{byte_at, short_at, word_at, long_at, signed_word_at, signed_long_at, mark_at};
ghost use Rattle.probe.specs.Records.{three_at, setup_in, axis_at, group_axes_at, doubt_at, gyro_doubt_in, history_in, session_in};
ghost use Rattle.probe.specs.Records.{gap_in, row_at, grid_at, statuses_in, total_at, group_totals_at, totals_in};
ghost use Rattle.probe.specs.Records.{values_in};

use doubt::{AxisDoubt, GyroDoubt};
use gaps::{Datagrams, Gap, Samples};
use history::History;
use integers::byte_or_zero;
use made_datagram::Values;
use motion::{Axes, Axis, GroupAxes, GroupTotals, Total, Totals};
use session::Session;
use setup::Setup;
use std::array;

// So many bytes a session takes.
pub(crate) const SESSION_SIZE: usize = 246;

// So many bytes from a place on. The bound, here and below, keeps a place from wrapping; a narrower type would be cast at each use.
fn bytes_at<const N: usize>(s: &[u8], at: usize) -> [u8; N]
    requires { at + N ≤ 6000 }
    ensures { result ≡ window N at s.now }
{
    array::from_fn(|k| byte_or_zero(s, at + k))
}

// The numbers at a place, each type by its own conversion.
fn u16_at(s: &[u8], i: usize) -> u16
    requires { i ≤ 5000 }
    ensures { result ≡ short_at s.now i }
{
    u16::from_le_bytes(bytes_at(s, i))
}

fn u32_at(s: &[u8], i: usize) -> u32
    requires { i ≤ 5000 }
    ensures { result ≡ word_at s.now i }
{
    u32::from_le_bytes(bytes_at(s, i))
}

fn u64_at(s: &[u8], i: usize) -> u64
    requires { i ≤ 5000 }
    ensures { result ≡ long_at s.now i }
{
    u64::from_le_bytes(bytes_at(s, i))
}

fn i32_at(s: &[u8], i: usize) -> i32
    requires { i ≤ 5000 }
    ensures { result ≡ signed_word_at s.now i }
{
    u32_at(s, i).cast_signed()
}

fn i64_at(s: &[u8], i: usize) -> i64
    requires { i ≤ 5000 }
    ensures { result ≡ signed_long_at s.now i }
{
    u64_at(s, i).cast_signed()
}

fn mark_at(s: &[u8], i: usize) -> bool
    ensures { result ≡ mark_at s.now i }
{
    byte_or_zero(s, i) == 1
}

fn three_at(s: &[u8], i: usize) -> [u16; 3]
    requires { i ≤ 4980 }
    ensures { result ≡ three_at s.now i }
{
    [u16_at(s, i), u16_at(s, i + 2), u16_at(s, i + 4)]
}

// How many bytes follow the head of a record. Each value that the program takes from a record has a function of its own, here and below: its contract says
// where the value stands.
pub(crate) fn size_of(head: &[u8]) -> u16
    ensures { result ≡ short_at head.now 1 }
{
    u16_at(head, 1)
}

// The setup of a record.
pub(crate) fn setup_of(s: &[u8]) -> Setup
    ensures { result ≡ setup_in s.now }
{
    let units = three_at(s, 5);
    let shifts = three_at(s, 11);
    Setup {
        rate: u16_at(s, 0),
        identifier: byte_or_zero(s, 2),
        termination: u16_at(s, 3),
        units: units,
        shifts: shifts,
    }
}

fn axis_at(s: &[u8], i: usize) -> Axis
    requires { i ≤ 4000 }
    ensures { result ≡ axis_at s.now i }
{
    Axis {
        begun: mark_at(s, i),
        last: i32_at(s, i + 1),
        total: i64_at(s, i + 5),
    }
}

fn group_axes_at(s: &[u8], i: usize) -> GroupAxes
    requires { i ≤ 3000 }
    ensures { result ≡ group_axes_at s.now i }
{
    GroupAxes {
        x: axis_at(s, i),
        y: axis_at(s, i + 13),
        z: axis_at(s, i + 26),
    }
}

// The sum and the mark of a gyro axis.
fn doubt_at(s: &[u8], i: usize) -> AxisDoubt
    requires { i ≤ 4000 }
    ensures { result ≡ doubt_at s.now i }
{
    AxisDoubt {
        samples: Samples(u32_at(s, i)),
        marked: mark_at(s, i + 4),
    }
}

fn gyro_doubt_of(s: &[u8]) -> GyroDoubt
    ensures { result ≡ gyro_doubt_in s.now }
{
    GyroDoubt {
        x: doubt_at(s, 231),
        y: doubt_at(s, 236),
        z: doubt_at(s, 241),
    }
}

fn history_of(s: &[u8]) -> History
    ensures { result ≡ history_in s.now }
{
    let axes = Axes {
        gyro: group_axes_at(s, 114),
        accelerometer: group_axes_at(s, 153),
        inclinometer: group_axes_at(s, 192),
    };
    let doubt = gyro_doubt_of(s);
    History {
        datagrams: Datagrams(u64_at(s, 89)),
        previous: byte_or_zero(s, 113),
        axes: axes,
        doubt: doubt,
    }
}

// The session of a record.
pub(crate) fn session_of(s: &[u8]) -> Session
    ensures { result ≡ session_in s.now }
{
    let setup = setup_of(s);
    let held = bytes_at(s, 17);
    let history = history_of(s);
    Session {
        setup: setup,
        held: held,
        count: u64_at(s, 81) as usize,
        passed: u64_at(s, 97),
        fed: u64_at(s, 105),
        history: history,
    }
}

// What a line is written from.
pub(crate) fn ordinal_of(s: &[u8]) -> Datagrams
    ensures { result ≡ datagrams (long_at s.now 17) }
{
    Datagrams(u64_at(s, 17))
}

pub(crate) fn counter_of(s: &[u8]) -> u8
    ensures { result ≡ byte_at s.now 25 }
{
    byte_or_zero(s, 25)
}

pub(crate) fn latency_of(s: &[u8]) -> u16
    ensures { result ≡ short_at s.now 26 }
{
    u16_at(s, 26)
}

pub(crate) fn gap_of(s: &[u8]) -> Gap
    ensures { result ≡ gap_in s.now }
{
    if mark_at(s, 28) {
        return Gap::OffStep;
    }
    Gap::Missed(Datagrams(u64_at(s, 29)))
}

fn row_at(s: &[u8], i: usize) -> [i32; 3]
    requires { i ≤ 4000 }
    ensures { result ≡ row_at s.now i }
{
    [i32_at(s, i), i32_at(s, i + 4), i32_at(s, i + 8)]
}

// Three rows of readings.
fn grid_at(s: &[u8], i: usize) -> [[i32; 3]; 3]
    requires { i ≤ 3000 }
    ensures { result ≡ grid_at s.now i }
{
    [row_at(s, i), row_at(s, i + 12), row_at(s, i + 24)]
}

// The readings of a text line.
pub(crate) fn grid_of(s: &[u8]) -> [[i32; 3]; 3]
    ensures { result ≡ grid_at s.now 37 }
{
    grid_at(s, 37)
}

pub(crate) fn statuses_of(s: &[u8]) -> [u8; 3]
    ensures { result ≡ statuses_in s.now }
{
    bytes_at(s, 73)
}

fn total_at(s: &[u8], i: usize) -> Total
    requires { i ≤ 4000 }
    ensures { result ≡ total_at s.now i }
{
    Total {
        begun: mark_at(s, i),
        steps: i64_at(s, i + 1),
    }
}

fn group_totals_at(s: &[u8], i: usize) -> GroupTotals
    requires { i ≤ 3000 }
    ensures { result ≡ group_totals_at s.now i }
{
    GroupTotals {
        x: total_at(s, i),
        y: total_at(s, i + 9),
        z: total_at(s, i + 18),
    }
}

pub(crate) fn totals_of(s: &[u8]) -> Totals
    ensures { result ≡ totals_in s.now }
{
    Totals {
        gyro: group_totals_at(s, 76),
        accelerometer: group_totals_at(s, 103),
        inclinometer: group_totals_at(s, 130),
    }
}

// The length of the buffer to lend for a line, and the byte that fills it.
pub(crate) fn room_of(s: &[u8]) -> u16
    ensures { result ≡ short_at s.now 157 }
{
    u16_at(s, 157)
}

pub(crate) fn fill_of(s: &[u8]) -> u8
    ensures { result ≡ byte_at s.now 159 }
{
    byte_or_zero(s, 159)
}

// What a datagram is written from: its readings, and the other values.
pub(crate) fn made_grid_of(s: &[u8]) -> [[i32; 3]; 3]
    ensures { result ≡ grid_at s.now 17 }
{
    grid_at(s, 17)
}

pub(crate) fn values_of(s: &[u8]) -> Values
    ensures { result ≡ values_in s.now }
{
    let statuses = row_at(s, 53);
    let gyro = row_at(s, 65);
    let accelerometer = row_at(s, 77);
    let inclinometer = row_at(s, 89);
    let temperature_statuses = row_at(s, 101);
    Values {
        statuses: statuses,
        gyro_temperatures: gyro,
        accelerometer_temperatures: accelerometer,
        inclinometer_temperatures: inclinometer,
        temperature_statuses: temperature_statuses,
        aux: i32_at(s, 113),
        aux_status: i32_at(s, 117),
        counter: i32_at(s, 121),
        latency: i32_at(s, 125),
    }
}

// The length of the buffer to lend for it, and the byte that fills it.
pub(crate) fn made_room_of(s: &[u8]) -> u16
    ensures { result ≡ short_at s.now 129 }
{
    u16_at(s, 129)
}

pub(crate) fn made_fill_of(s: &[u8]) -> u8
    ensures { result ≡ byte_at s.now 131 }
{
    byte_or_zero(s, 131)
}

// What a value is printed from.
pub(crate) fn number_of(s: &[u8]) -> i64
    ensures { result ≡ signed_long_at s.now 0 }
{
    i64_at(s, 0)
}

pub(crate) fn shift_of(s: &[u8]) -> u16
    ensures { result ≡ short_at s.now 8 }
{
    u16_at(s, 8)
}

pub(crate) fn places_of(s: &[u8]) -> u16
    ensures { result ≡ short_at s.now 10 }
{
    u16_at(s, 10)
}

// The length of the buffer to lend for it, and the byte that fills it.
pub(crate) fn value_room_of(s: &[u8]) -> u16
    ensures { result ≡ short_at s.now 12 }
{
    u16_at(s, 12)
}

pub(crate) fn value_fill_of(s: &[u8]) -> u8
    ensures { result ≡ byte_at s.now 14 }
{
    byte_or_zero(s, 14)
}

// The same for the lines of a whole piece, behind the session.
pub(crate) fn lines_room_of(s: &[u8]) -> u32
    ensures { result ≡ word_at s.now 246 }
{
    u32_at(s, SESSION_SIZE)
}

pub(crate) fn lines_fill_of(s: &[u8]) -> u8
    ensures { result ≡ byte_at s.now 250 }
{
    byte_or_zero(s, SESSION_SIZE + 4)
}
