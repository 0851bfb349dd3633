#![tactic(auto)]
// A datagram as it comes back with an answer, and what stands in its place where none is handed out (01, The scan; Status, doubles, gaps; Totals; 02, 2.3, 2.5).
ghost use Rattle.std.specs.Prelude.{◌≡◌};
ghost use Rattle.motion.specs.Totals.{no_axes, totals_of};
ghost use Rattle.feeding.specs.Feed.{datagram_with, no_fields, all_fit, no_values, no_doubles, no_marks, no_datagram};
ghost use Rattle.feeding.specs.CallParts.{contents_with};

use doubles::{TotalDoubles, Values};
use doubt::GyroMarks;
use feeding::Datagram;
use gaps::{Datagrams, Gap};
use groups::{PerAxis, PerGroup};
use history::History;
use motion::{Judgement, Judgements, Total, Totals};
use setup::Sensor;
use wire::Fields;

// A datagram as it comes back, of its readings and its other fields; `gap`: what lies before it, `history`: that behind it.
pub fn datagram_of(
    sensor: Sensor,
    gap: Gap,
    readings: [[i32; 3]; 3],
    fields: Fields,
    history: History,
) -> Datagram
    ensures { result ≡ datagram_with sensor gap (contents_with readings fields) history }
{
    let statuses = fields.statuses;
    Datagram {
        gyro: readings[0],
        accelerometer: readings[1],
        inclinometer: readings[2],
        fields: fields,
        flagged: [
            motion::flagged_channels(statuses[0]),
            motion::flagged_channels(statuses[1]),
            motion::flagged_channels(statuses[2]),
        ],
        judgements: motion::judgements_of(statuses),
        values: doubles::group_values(sensor.units, sensor.shifts, readings),
        gap: gap,
        totals: motion::totals_of(history.axes),
        doubles: doubles::total_doubles(sensor.shifts, history.axes),
        doubtful: doubt::marks_of(history.doubt),
    }
}

// The fields where no datagram is handed out: zeros.
fn no_fields() -> Fields
    ensures { result ≡ no_fields }
{
    Fields {
        statuses: [0; 3],
        gyro_temperatures: [0; 3],
        accelerometer_temperatures: [0; 3],
        inclinometer_temperatures: [0; 3],
        temperature_statuses: [0; 3],
        aux: 0,
        aux_status: 0,
        counter: 0,
        latency: 0,
    }
}

// The judgements there: fit for every axis.
fn all_fit() -> Judgements
    ensures { result ≡ all_fit }
{
    PerGroup::each(PerAxis::each(Judgement::Fit))
}

// The values of a group there: zeros in unit 0.
fn no_values() -> Values
    ensures { result ≡ no_values }
{
    Values::Instantaneous(0.0, 0.0, 0.0)
}

// The totals there, none of which has begun.
#[tactic(auto, unfolding(motion::specs::Totals::totals_of))]
fn no_totals() -> Totals
    ensures { result ≡ totals_of no_axes }
{
    PerGroup::each(PerAxis::each(Total {
        begun: false,
        steps: 0,
    }))
}

// The totals there as doubles.
fn no_doubles() -> TotalDoubles
    ensures { result ≡ no_doubles }
{
    TotalDoubles {
        gyro_x: 0.0,
        gyro_y: 0.0,
        gyro_z: 0.0,
        accelerometer_x: 0.0,
        accelerometer_y: 0.0,
        accelerometer_z: 0.0,
        inclinometer_x: 0.0,
        inclinometer_y: 0.0,
        inclinometer_z: 0.0,
    }
}

// The marks there: none.
fn no_marks() -> GyroMarks
    ensures { result ≡ no_marks }
{
    PerAxis::each(false)
}

// What comes back in a datagram's place where none is handed out.
#[tactic(auto, unfolding(feeding::specs::Feed::no_datagram))]
pub fn no_datagram() -> Datagram
    ensures { result ≡ no_datagram }
{
    Datagram {
        gyro: [0; 3],
        accelerometer: [0; 3],
        inclinometer: [0; 3],
        fields: no_fields(),
        flagged: [0; 3],
        judgements: all_fit(),
        values: PerGroup::each(no_values()),
        gap: Gap::Missed(Datagrams(0)),
        totals: no_totals(),
        doubles: no_doubles(),
        doubtful: no_marks(),
    }
}
