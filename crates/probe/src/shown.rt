// The answers as text on standard output. Each word is written by itself, behind a space: numbers in decimal, bytes in hexadecimal.
// These functions give back only whether the writes failed, and no contract speaks of what is written; that each is safe and ends is proved.
use doubles::{GroupValues, TotalDoubles, Values};
use doubt::{AxisDoubt, GyroDoubt, GyroMarks};
use feeding::{Answer, Datagram};
use gaps::Gap;
use groups::{PerAxis, PerGroup};
use motion::{
    Axes, Axis, GroupAxes, GroupJudgements, GroupTotals, Judgement, Judgements, Total, Totals,
};
use refusals::Refusal;
use rehearsal::Fault;
use session::Session;
use setup::Setup;
use std::io;
use std::io::Write;
use wire::Fields;

pub(crate) fn put_text<W: Write>(writer: &mut W, text: &[u8]) -> io::Result<()> {
    writer.write_all(text)
}

pub(crate) fn end_line<W: Write>(writer: &mut W) -> io::Result<()> {
    put_text(writer, b"\n")
}

pub(crate) fn put_number<W: Write>(writer: &mut W, n: u64) -> io::Result<()> {
    write!(writer, " {n}")
}

fn put_signed<W: Write>(writer: &mut W, z: i64) -> io::Result<()> {
    write!(writer, " {z}")
}

// 1 for a mark.
fn put_mark<W: Write>(writer: &mut W, mark: bool) -> io::Result<()> {
    put_number(writer, mark as u64)
}

// What is so of each axis, and of each group, in order.
fn put_each_axis<W: Write, T: Copy, F: Fn(&mut W, T) -> io::Result<()>>(
    writer: &mut W,
    three: PerAxis<T>,
    put: F,
) -> io::Result<()>
    requires { F.IsAlwaysCallable put }
{
    put(writer, three.x)?;
    put(writer, three.y)?;
    put(writer, three.z)
}

fn put_each_group<W: Write, T: Copy, F: Fn(&mut W, T) -> io::Result<()>>(
    writer: &mut W,
    three: PerGroup<T>,
    put: F,
) -> io::Result<()>
    requires { F.IsAlwaysCallable put }
{
    put(writer, three.gyro)?;
    put(writer, three.accelerometer)?;
    put(writer, three.inclinometer)
}

// Bytes, two digits each.
fn put_byte<W: Write>(writer: &mut W, b: u8) -> io::Result<()> {
    write!(writer, "{b:02x}")
}

pub(crate) fn put_bytes<W: Write>(writer: &mut W, bytes: &[u8]) -> io::Result<()> {
    put_text(writer, b" ")?;
    for b in bytes {
        put_byte(writer, *b)?;
    }
    Ok(())
}

// The bits of a double, all ones for one that is no number.
fn bits_of(x: f64) -> u64 {
    if x.is_nan() { u64::MAX } else { x.to_bits() }
}

fn put_double<W: Write>(writer: &mut W, x: f64) -> io::Result<()> {
    let bits = bits_of(x);
    write!(writer, " {bits:x}")
}

fn put_doubles<W: Write>(writer: &mut W, x: f64, y: f64, z: f64) -> io::Result<()> {
    put_double(writer, x)?;
    put_double(writer, y)?;
    put_double(writer, z)
}

fn put_three<W: Write>(writer: &mut W, numbers: [u64; 3]) -> io::Result<()> {
    for n in numbers {
        put_number(writer, n)?;
    }
    Ok(())
}

fn put_judgement<W: Write>(writer: &mut W, judgement: Judgement) -> io::Result<()> {
    match judgement {
        Judgement::Fit => put_text(writer, b" fit"),
        Judgement::Integrity => put_text(writer, b" integrity"),
        Judgement::StartUp => put_text(writer, b" start-up"),
        Judgement::Error => put_text(writer, b" error"),
        Judgement::Overload => put_text(writer, b" overload"),
    }
}

fn put_group_judgements<W: Write>(writer: &mut W, judgements: GroupJudgements) -> io::Result<()> {
    put_each_axis(writer, judgements, put_judgement)
}

fn put_judgements<W: Write>(writer: &mut W, judgements: Judgements) -> io::Result<()> {
    put_each_group(writer, judgements, put_group_judgements)
}

fn put_row<W: Write>(writer: &mut W, row: [i32; 3]) -> io::Result<()> {
    for z in row {
        put_signed(writer, z as i64)?;
    }
    Ok(())
}

pub(crate) fn put_setup<W: Write>(writer: &mut W, setup: Setup) -> io::Result<()> {
    put_number(writer, setup.rate as u64)?;
    put_number(writer, setup.identifier as u64)?;
    put_number(writer, setup.termination as u64)?;
    put_three(writer, setup.units.map(u64::from))?;
    put_three(writer, setup.shifts.map(u64::from))
}

fn put_axis<W: Write>(writer: &mut W, axis: Axis) -> io::Result<()> {
    put_mark(writer, axis.begun)?;
    put_signed(writer, axis.last as i64)?;
    put_signed(writer, axis.total)
}

fn put_group_axes<W: Write>(writer: &mut W, axes: GroupAxes) -> io::Result<()> {
    put_each_axis(writer, axes, put_axis)
}

fn put_axes<W: Write>(writer: &mut W, axes: Axes) -> io::Result<()> {
    put_each_group(writer, axes, put_group_axes)
}

fn put_doubt<W: Write>(writer: &mut W, doubt: AxisDoubt) -> io::Result<()> {
    put_number(writer, doubt.samples.0 as u64)?;
    put_mark(writer, doubt.marked)
}

fn put_gyro_doubt<W: Write>(writer: &mut W, doubt: GyroDoubt) -> io::Result<()> {
    put_each_axis(writer, doubt, put_doubt)
}

// A line with every field of a session.
pub(crate) fn put_session<W: Write>(writer: &mut W, session: Session) -> io::Result<()> {
    let held = session.held;
    let history = session.history;
    put_text(writer, b"session")?;
    put_setup(writer, session.setup)?;
    put_bytes(writer, &held[..])?;
    put_number(writer, session.count as u64)?;
    put_number(writer, history.datagrams.0)?;
    put_number(writer, session.passed)?;
    put_number(writer, session.fed)?;
    put_number(writer, history.previous as u64)?;
    put_axes(writer, history.axes)?;
    put_gyro_doubt(writer, history.doubt)?;
    end_line(writer)
}

// The unit of a group and its three doubles.
fn put_unit<W: Write>(writer: &mut W, unit: u64, x: f64, y: f64, z: f64) -> io::Result<()> {
    put_number(writer, unit)?;
    put_doubles(writer, x, y, z)
}

fn put_values<W: Write>(writer: &mut W, values: Values) -> io::Result<()> {
    match values {
        Values::Instantaneous(x, y, z) => put_unit(writer, 0, x, y, z),
        Values::Incremental(x, y, z) => put_unit(writer, 1, x, y, z),
        Values::Average(x, y, z) => put_unit(writer, 2, x, y, z),
        Values::Integrated(x, y, z) => put_unit(writer, 3, x, y, z),
    }
}

fn put_group_values<W: Write>(writer: &mut W, values: GroupValues) -> io::Result<()> {
    put_each_group(writer, values, put_values)
}

fn put_gap<W: Write>(writer: &mut W, gap: Gap) -> io::Result<()> {
    match gap {
        Gap::Missed(count) => put_number(writer, count.0),
        Gap::OffStep => put_text(writer, b" ?"),
    }
}

fn put_total<W: Write>(writer: &mut W, total: Total) -> io::Result<()> {
    put_mark(writer, total.begun)?;
    put_signed(writer, total.steps)
}

fn put_group_totals<W: Write>(writer: &mut W, totals: GroupTotals) -> io::Result<()> {
    put_each_axis(writer, totals, put_total)
}

fn put_totals<W: Write>(writer: &mut W, totals: Totals) -> io::Result<()> {
    put_each_group(writer, totals, put_group_totals)
}

fn put_total_doubles<W: Write>(writer: &mut W, doubles: TotalDoubles) -> io::Result<()> {
    put_doubles(writer, doubles.gyro_x, doubles.gyro_y, doubles.gyro_z)?;
    put_doubles(
        writer,
        doubles.accelerometer_x,
        doubles.accelerometer_y,
        doubles.accelerometer_z,
    )?;
    put_doubles(
        writer,
        doubles.inclinometer_x,
        doubles.inclinometer_y,
        doubles.inclinometer_z,
    )
}

fn put_fields<W: Write>(writer: &mut W, fields: Fields) -> io::Result<()> {
    let statuses = fields.statuses;
    let gyro = fields.gyro_temperatures;
    let accelerometer = fields.accelerometer_temperatures;
    let inclinometer = fields.inclinometer_temperatures;
    let temperature_statuses = fields.temperature_statuses;
    put_three(writer, statuses.map(u64::from))?;
    put_row(writer, gyro)?;
    put_row(writer, accelerometer)?;
    put_row(writer, inclinometer)?;
    put_three(writer, temperature_statuses.map(u64::from))?;
    put_signed(writer, fields.aux as i64)?;
    put_number(writer, fields.aux_status as u64)?;
    put_number(writer, fields.counter as u64)?;
    put_number(writer, fields.latency as u64)
}

fn put_readings<W: Write>(writer: &mut W, datagram: Datagram) -> io::Result<()> {
    let gyro = datagram.gyro;
    let accelerometer = datagram.accelerometer;
    let inclinometer = datagram.inclinometer;
    put_row(writer, gyro)?;
    put_row(writer, accelerometer)?;
    put_row(writer, inclinometer)
}

fn put_marks<W: Write>(writer: &mut W, marks: GyroMarks) -> io::Result<()> {
    put_each_axis(writer, marks, put_mark)
}

// A line with every field of a datagram.
pub(crate) fn put_datagram<W: Write>(writer: &mut W, datagram: Datagram) -> io::Result<()> {
    let flagged = datagram.flagged;
    let gap = datagram.gap;
    put_text(writer, b"datagram")?;
    put_readings(writer, datagram)?;
    put_fields(writer, datagram.fields)?;
    put_three(writer, flagged.map(u64::from))?;
    put_judgements(writer, datagram.judgements)?;
    put_group_values(writer, datagram.values)?;
    put_gap(writer, gap)?;
    put_totals(writer, datagram.totals)?;
    put_total_doubles(writer, datagram.doubles)?;
    put_marks(writer, datagram.doubtful)?;
    end_line(writer)
}

fn put_refused<W: Write>(writer: &mut W, refusal: Refusal) -> io::Result<()> {
    put_text(writer, b" refused")?;
    put_number(writer, refusal.number() as u64)
}

pub(crate) fn put_ruling<W: Write>(writer: &mut W, ruling: Result<(), Refusal>) -> io::Result<()> {
    match ruling {
        Ok(()) => put_text(writer, b" accepted"),
        Err(refusal) => put_refused(writer, refusal),
    }
}

pub(crate) fn put_answer<W: Write>(writer: &mut W, answer: Answer) -> io::Result<()> {
    match answer {
        Answer::Datagram => put_text(writer, b" datagram"),
        Answer::Waiting => put_text(writer, b" waiting"),
        Answer::Refused(refusal) => put_refused(writer, refusal),
    }
}

// How many bytes were written, or what refused them.
pub(crate) fn put_written<W: Write>(
    writer: &mut W,
    written: Result<usize, Refusal>,
) -> io::Result<()> {
    match written {
        Ok(count) => {
            put_text(writer, b" written")?;
            put_number(writer, count as u64)
        }
        Err(refusal) => put_refused(writer, refusal),
    }
}

// Whether a rehearsal line says what a datagram is to carry.
pub(crate) fn put_rehearsed<W: Write>(
    writer: &mut W,
    rehearsed: Result<(), Fault>,
) -> io::Result<()> {
    match rehearsed {
        Ok(()) => put_text(writer, b" values"),
        Err(Fault::TooLong) => put_text(writer, b" too long"),
        Err(Fault::OtherCount) => put_text(writer, b" other count"),
        Err(Fault::NoNumber) => put_text(writer, b" no number"),
    }
}

pub(crate) fn put_grid<W: Write>(writer: &mut W, readings: [[i32; 3]; 3]) -> io::Result<()> {
    for row in readings {
        put_row(writer, row)?;
    }
    Ok(())
}

// The values of a datagram beside its readings.
pub(crate) fn put_given<W: Write>(writer: &mut W, values: made_datagram::Values) -> io::Result<()> {
    let statuses = values.statuses;
    let gyro = values.gyro_temperatures;
    let accelerometer = values.accelerometer_temperatures;
    let inclinometer = values.inclinometer_temperatures;
    let temperature_statuses = values.temperature_statuses;
    put_row(writer, statuses)?;
    put_row(writer, gyro)?;
    put_row(writer, accelerometer)?;
    put_row(writer, inclinometer)?;
    put_row(writer, temperature_statuses)?;
    put_signed(writer, values.aux as i64)?;
    put_signed(writer, values.aux_status as i64)?;
    put_signed(writer, values.counter as i64)?;
    put_signed(writer, values.latency as i64)
}
