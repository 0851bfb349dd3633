#![tactic(auto)]
// The text line of a datagram under a setup, written into a lent buffer (01, The text line).
ghost use Rattle.std.specs.Prelude.{◌≡◌};
ghost use Rattle.text.specs.TextLine.{shown_of, line_answer, line_buffer};

use refusals::Refusal;
use setup::{Row, Setup, Units};
use shown_line::Shown;
use text_line::LineValues;

// What is shown of a sensor, by what its datagrams carry and the units of the groups.
pub fn shown_of(row: Row, units: Units) -> Shown
    ensures { result ≡ shown_of row units }
{
    let carried = [true, row.acceleration, row.inclination];
    let kept = motion::kept_groups(row, units);
    Shown {
        carried: carried,
        kept: kept,
    }
}

// Writes the line of what a setup shows, as `text_line::write_shown` does, after the setup itself, which 4 to 9 refuse.
#[tactic(auto, using(crate::proofs::Answers::line_in_turn, crate::proofs::Answers::buffer_in_turn))]
pub fn write_line(buffer: &mut [u8], setup: Setup, values: LineValues) -> Result<usize, Refusal>
    ensures answer { result ≡ line_answer buffer.old setup values.ordinal.0 values.counter values.latency values.gap values.readings values.statuses values.totals }
    ensures written { buffer.new ≡ line_buffer buffer.old setup values.ordinal.0 values.counter values.latency values.gap values.readings values.statuses values.totals }
{
    let sensor = setup::describe(setup)?;
    let shown = shown_of(sensor.row, sensor.units);
    text_line::write_shown(buffer, shown, values)
}
