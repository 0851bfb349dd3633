#![tactic(auto)]
// Whether feeding turns down a session or a piece (01, What is turned down, 10 to 12; 02, 2.5).
ghost use Rattle.std.specs.Prelude.{◌≡◌, ◌&&◌, ◌+◌, ◌*◌, ◌≤◌, eqb, leb, length, take, drop};
ghost use Rattle.setup.specs.Setup.{ruling_on};
ghost use Rattle.setup.specs.Sensor.{sensor_of};
ghost use Rattle.scan.specs.OneLength.{held_rule};
ghost use Rattle.search.specs.Search.{limits_of};
ghost use Rattle.admission.specs.Admission.{all_zero, axis_right, group_right, axes_right, doubt_right, gyro_doubt_right, kept_right_by, is_sound, admission_of};

use doubt::{AxisDoubt, GyroDoubt};
use gaps::Datagrams;
use groups::PerGroup;
use history::History;
use motion::{Axes, Axis, GroupAxes};
use refusals::Refusal;
use session::Session;
use setup::Sensor;

// The most bytes of a piece and of a session, 2^34 (01, What is turned down, 10 to 12).
const PIECE_LIMIT: usize = 4096;

const SESSION_LIMIT: u64 = 17179869184;

// Whether the bytes behind a place are all zero.
fn zeros_behind(bytes: [u8; 64], place: usize) -> bool
    requires { place ≤ 64 }
    ensures { result ≡ all_zero (drop place bytes) }
{
    bytes[place..].iter().all(|b| *b == 0)
}

// Whether the held bytes are there, keep the scan's rule and have zeros behind them.
#[tactic(auto, using(crate::proofs::Soundness::held_rule_lem))]
fn held_right(identifier: u8, size: usize, held: [u8; 64], count: usize) -> bool
    ensures { result ≡ ((leb count (length held) && held_rule identifier size (take count held)) && all_zero (drop count held)) }
{
    if 64 < count {
        return false;
    }
    let zeros = zeros_behind(held, count);
    ((count == 0) | ((held[0] == identifier) & (count < size))) & zeros
}

// Whether the byte sum is right and not above the session's limit. Counts above that are turned down before they are multiplied.
fn counts_right(size: u64, session: &Session) -> bool
    requires { (18 ≤ size) × (size ≤ 65) × (session.now.count ≤ 64) }
    ensures { result ≡ (eqb (size * session.now.history.datagrams.0 + session.now.passed + session.now.count) session.now.fed && leb session.now.fed (limits_of session.now.setup).session) }
{
    let datagrams = session.history.datagrams.0;
    let passed = session.passed;
    let fed = session.fed;
    if SESSION_LIMIT < datagrams {
        return false;
    }
    if SESSION_LIMIT < passed {
        return false;
    }
    (size * datagrams + passed + (session.count as u64) == fed) & (fed <= SESSION_LIMIT)
}

// Whether an axis is one that so many datagrams can leave; `first`: whether the next one counts as a first one. `first` and `datagrams` are handed down as
// they are: a struct of the two would only be taken apart here.
fn axis_right(kept: bool, first: bool, datagrams: Datagrams, axis: Axis) -> bool
    ensures { result ≡ axis_right kept first datagrams.0 axis }
{
    let begun = axis.begun;
    let last = axis.last;
    let total = axis.total;
    let small = integers::is_within(total, datagrams.0.saturating_mul(8388608));
    let fits = integers::fits_reading(last);
    let unread = integers::is_zero(last as i64);
    let unmoved = integers::is_zero(total);
    small & (fits & (((kept & begun) | (!begun & (unread & unmoved))) & !(first & begun)))
}

// The same of the three axes of a group.
#[tactic(auto, unfolding(crate::specs::Admission::group_right))]
fn group_right(kept: bool, first: bool, datagrams: Datagrams, group: GroupAxes) -> bool
    ensures { result ≡ group_right kept first datagrams.0 group }
{
    group
        .map(|axis| axis_right(kept, first, datagrams, axis))
        .all()
}

// And of the nine.
#[tactic(auto, unfolding(crate::specs::Admission::axes_right))]
fn axes_right(kept: [bool; 3], first: bool, datagrams: Datagrams, axes: Axes) -> bool
    ensures { result ≡ axes_right kept first datagrams.0 axes }
{
    axes.map_with(PerGroup::of(kept), |group, kept| {
        group_right(kept, first, datagrams, group)
    })
    .all()
}

// Whether the sum and the mark of a gyro axis are right; `going`: whether the axis keeps a total and has begun.
#[tactic(auto, unfolding(crate::specs::Admission::doubt_right))]
fn doubt_right(going: bool, doubt: AxisDoubt) -> bool
    ensures { result ≡ doubt_right going doubt }
{
    let samples = doubt.samples;
    let marked = doubt.marked;
    let fits = doubt::fits_sum(samples);
    fits & (going | ((samples.0 == 0) & !marked))
}

// The same of the gyro's axes.
#[tactic(auto, unfolding(crate::specs::Admission::gyro_doubt_right))]
fn gyro_doubt_right(kept: bool, axes: GroupAxes, doubt: GyroDoubt) -> bool
    ensures { result ≡ gyro_doubt_right kept axes doubt }
{
    axes.map_with(doubt, |axis, doubt| doubt_right(kept & axis.begun, doubt))
        .all()
}

// Whether all is right that is kept of the datagrams handed out; `kept`: which groups keep totals.
#[tactic(auto, unfolding(crate::specs::Admission::kept_right_by))]
fn history_right(kept: [bool; 3], history: History) -> bool
    ensures { result ≡ kept_right_by kept history }
{
    let datagrams = history.datagrams;
    let axes = history.axes;
    let gyro = axes.gyro;
    let doubt = history.doubt;
    let first = history::awaits_first(history);
    let axes_pass = axes_right(kept, first, datagrams, axes);
    let doubt_passes = gyro_doubt_right(kept[0], gyro, doubt);
    axes_pass & doubt_passes
}

// Whether feeding doesn't turn down by 10 a session whose setup describes this sensor.
#[tactic(auto, using(crate::proofs::Soundness::size_range))]
fn sound_by(sensor: Sensor, session: Session) -> bool
    requires { (ruling_on session.setup ≡ Ok tt) × (sensor ≡ sensor_of session.setup) }
    ensures { result ≡ is_sound session }
{
    let held = session.held;
    let count = session.count;
    let history = session.history;
    let row = sensor.row;
    let units = sensor.units;
    let size = wire::length_of(row, sensor.terminated);
    if !held_right(sensor.identifier, size, held, count) {
        return false;
    }
    if !counts_right(size as u64, &session) {
        return false;
    }
    let kept = motion::kept_groups(row, units);
    history_right(kept, history)
}

// Whether a session whose setup describes this sensor may be fed a piece of so many bytes.
#[tactic(auto, unfolding(crate::specs::Admission::admission_of, crate::specs::Admission::piece_ruling), using(crate::proofs::Soundness::sound_facts))]
fn admit_by(sensor: Sensor, session: Session, length: usize) -> Result<Sensor, Refusal>
    requires { (ruling_on session.setup ≡ Ok tt) × (sensor ≡ sensor_of session.setup) }
    ensures { result ≡ admission_of session length }
{
    if !sound_by(sensor, session) {
        return Err(Refusal::SessionUnsound);
    }
    if PIECE_LIMIT < length {
        return Err(Refusal::PieceTooLong);
    }
    if SESSION_LIMIT < session.fed + (length as u64) {
        return Err(Refusal::StreamTooLong);
    }
    Ok(sensor)
}

// The sensor of a session that may be fed a piece of so many bytes: 10, 11 or 12 turns it down (01, What is turned down).
#[tactic(auto, using(crate::proofs::PieceRulings::admitted_in_turn))]
pub fn admit(session: Session, length: usize) -> Result<Sensor, Refusal>
    ensures { result ≡ admission_of session length }
{
    let sensor = setup::describe(session.setup).map_err(|_| Refusal::SessionUnsound)?;
    admit_by(sensor, session, length)
}
