#![tactic(auto)]
// Answers records of calls, so that every field of every answer can be compared with what another program expects. Standard input is a
// row of records: a byte for the kind, two bytes for the length of what follows, then that. Numbers have their least significant byte
// first, signed ones are two's complement. The kinds, with the place of each value:
//     1, a setup to judge and to open: the setup (0)
//     2, a call of feed: the session (0), the piece behind it
//     3, a text line: the setup (0), ordinal (17), counter (25), latency (26), 1 for off step (28), missed (29), nine readings (37), three
//        statuses (73), nine totals (76) of a begun mark and a value, the buffer's length (157), the byte that fills it (159)
//     4, a setup line: its bytes (0)
//     5, a whole piece at once: the session (0), behind it the buffer's length (0), the byte that fills it (4), the piece (5)
//     6, a datagram to write: the setup (0), nine readings (17), three statuses (53), nine temperatures (65), three temperature statuses (101),
//        AUX (113), its status (117), counter (121), latency (125), the buffer's length (129), the byte that fills it (131)
//     7, a rehearsal line: its bytes (0)
//     8, a value to print: the number (0), shift (8), places (10), the buffer's length (12), the byte that fills it (14)
// A setup is rate, identifier (one byte), termination, three units and three shifts. A session is the setup (0), held bytes (17), their
// count (81), datagrams (89), bytes passed over (97), bytes fed (105), the previous counter (113), nine axes (114) of a begun mark, a last
// reading and a total, three gyro axes (231) of a sum and a mark. A truncated record ends the program.
mod given;
mod shown;

ghost use Rattle.std.specs.Prelude.{◌≡◌, ◌≤◌, length};

use given::{
    SESSION_SIZE, counter_of, fill_of, gap_of, grid_of, latency_of, lines_fill_of, lines_room_of,
    made_fill_of, made_grid_of, made_room_of, number_of, ordinal_of, places_of, room_of,
    session_of, setup_of, shift_of, size_of, statuses_of, totals_of, value_fill_of, value_room_of,
    values_of,
};
use refusals::Refusal;
use shown::{
    end_line, put_answer, put_bytes, put_datagram, put_given, put_grid, put_number, put_rehearsed,
    put_ruling, put_session, put_setup, put_text, put_written,
};
use std::io;
use std::io::{BufWriter, Read, Write};
use text_line::LineValues;
use whole_piece::Batch;

// A setup: what judging it answers, and what opening does.
fn setup_record<W: Write>(writer: &mut W, s: &[u8]) -> io::Result<()> {
    let setup = setup_of(s);
    let opened = session::open(setup);
    let answer = opened.answer;
    put_text(writer, b" setup")?;
    put_ruling(writer, setup::judge(setup))?;
    put_ruling(writer, answer)?;
    end_line(writer)?;
    put_session(writer, opened.session)
}

// A call of feed.
fn feed_record<W: Write>(writer: &mut W, s: &[u8]) -> io::Result<()> {
    if s.len() < SESSION_SIZE {
        return Ok(());
    }
    let reply = receiver::feed(session_of(s), &s[SESSION_SIZE..]);
    let answer = reply.answer;
    put_text(writer, b" feed")?;
    put_answer(writer, answer)?;
    put_number(writer, reply.taken as u64)?;
    end_line(writer)?;
    put_session(writer, reply.session)?;
    put_datagram(writer, reply.datagram)
}

fn write_given(buffer: &mut [u8], s: &[u8]) -> Result<usize, Refusal> {
    let values = LineValues {
        ordinal: ordinal_of(s),
        counter: counter_of(s),
        latency: latency_of(s),
        gap: gap_of(s),
        readings: grid_of(s),
        statuses: statuses_of(s),
        totals: totals_of(s),
    };
    text::write_line(buffer, setup_of(s), values)
}

// An array with the same byte at each place.
fn filled<const N: usize>(fill: u8) -> [u8; N]
    ensures { N ≡ length result }
{
    [fill; N]
}

// A text line, with all of the buffer behind the answer.
fn line_record<W: Write>(writer: &mut W, s: &[u8]) -> io::Result<()> {
    let room = (room_of(s) % 401) as usize;
    let mut buffer = filled::<400>(fill_of(s));
    let written = write_given(&mut buffer[..room], s);
    put_text(writer, b" line")?;
    put_written(writer, written)?;
    put_bytes(writer, &buffer[..room])?;
    end_line(writer)
}

// A setup line: the answer, and the setup that it gives back.
fn setup_line_record<W: Write>(writer: &mut W, s: &[u8]) -> io::Result<()> {
    let read = setup_line::read_line(s);
    let answer = read.answer;
    put_text(writer, b" read")?;
    put_ruling(writer, answer)?;
    end_line(writer)?;
    put_text(writer, b"setup")?;
    put_setup(writer, read.setup)?;
    end_line(writer)
}

// How many bytes at the front are this byte.
fn equal_bytes(bytes: &[u8], byte: u8) -> usize
    ensures { result ≤ length bytes.now }
{
    bytes.iter().take_while(|b| **b == byte).count()
}

// How many bytes an answer says are written, at most all of the buffer.
fn written_of(received: Result<usize, Refusal>, room: usize) -> usize
    ensures { result ≤ room }
{
    received.unwrap_or(0).min(room)
}

// The bytes behind the lines: how many are as they were filled, and what follows these.
fn put_rest<W: Write>(writer: &mut W, bytes: &[u8], fill: u8) -> io::Result<()> {
    let count = equal_bytes(bytes, fill);
    put_text(writer, b"rest")?;
    put_number(writer, count as u64)?;
    put_bytes(writer, &bytes[count..])?;
    end_line(writer)
}

// The lines as they stand in the buffer, and the rest.
fn put_lines<W: Write>(writer: &mut W, buffer: &[u8], used: usize, fill: u8) -> io::Result<()>
    requires { used ≤ length buffer.now }
{
    put_text(writer, &buffer[..used])?;
    put_rest(writer, &buffer[used..], fill)
}

fn put_batch<W: Write>(writer: &mut W, batch: Batch, buffer: &[u8], fill: u8) -> io::Result<()> {
    let answer = batch.answer;
    put_written(writer, answer)?;
    end_line(writer)?;
    put_session(writer, batch.session)?;
    put_lines(writer, buffer, written_of(answer, buffer.len()), fill)
}

// A whole piece at once, with all of the buffer behind the answer.
fn lines_record<W: Write>(writer: &mut W, s: &[u8]) -> io::Result<()> {
    if s.len() < SESSION_SIZE + 5 {
        return Ok(());
    }
    let room = (lines_room_of(s) % 72002) as usize;
    let fill = lines_fill_of(s);
    let mut buffer = filled::<72001>(fill);
    let batch = lines::receive_lines(session_of(s), &s[SESSION_SIZE + 5..], &mut buffer[..room]);
    put_text(writer, b" lines")?;
    put_batch(writer, batch, &buffer[..room], fill)
}

fn make_given(buffer: &mut [u8], s: &[u8]) -> Result<usize, Refusal> {
    let setup = setup_of(s);
    let grid = made_grid_of(s);
    let values = values_of(s);
    making::write_datagram(buffer, setup, grid, values)
}

// A datagram, with all of the buffer behind the answer.
fn made_record<W: Write>(writer: &mut W, s: &[u8]) -> io::Result<()> {
    let room = (made_room_of(s) % 401) as usize;
    let mut buffer = filled::<400>(made_fill_of(s));
    let made = make_given(&mut buffer[..room], s);
    put_text(writer, b" made")?;
    put_written(writer, made)?;
    put_bytes(writer, &buffer[..room])?;
    end_line(writer)
}

// A rehearsal line: whether it is written as it should be, and then its values.
fn rehearsal_record<W: Write>(writer: &mut W, s: &[u8]) -> io::Result<()> {
    let rehearsed = rehearsal::judge_line(s);
    put_text(writer, b" rehearsal")?;
    put_rehearsed(writer, rehearsed)?;
    if rehearsed.is_ok() {
        put_grid(writer, rehearsal::readings_of(s))?;
        put_given(writer, rehearsal::values_of(s))?;
    }
    end_line(writer)
}

// A value, with all of the buffer behind the answer.
fn value_record<W: Write>(writer: &mut W, s: &[u8]) -> io::Result<()> {
    let room = (value_room_of(s) % 401) as usize;
    let mut buffer = filled::<400>(value_fill_of(s));
    let printed = printing::print_value(
        &mut buffer[..room],
        number_of(s),
        shift_of(s),
        places_of(s),
    );
    put_text(writer, b" value")?;
    put_written(writer, printed)?;
    put_bytes(writer, &buffer[..room])?;
    end_line(writer)
}

// One arm for each kind of record, each with its call.
fn answer_record<W: Write>(writer: &mut W, number: u64, kind: u8, s: &[u8]) -> io::Result<()> {
    put_text(writer, b"record")?;
    put_number(writer, number)?;
    match kind {
        1 => setup_record(writer, s),
        2 => feed_record(writer, s),
        3 => line_record(writer, s),
        4 => setup_line_record(writer, s),
        5 => lines_record(writer, s),
        6 => made_record(writer, s),
        7 => rehearsal_record(writer, s),
        8 => value_record(writer, s),
        _ => end_line(writer),
    }
}

// Reads a record and answers it; whether there was a whole one.
fn next_record<R: Read, W: Write>(reader: &mut R, writer: &mut W, number: u64) -> io::Result<bool> {
    let mut head = [0u8; 3];
    let begun = console::read_full(reader, &mut head)?;
    let size = size_of(&head) as usize;
    let mut payload = console::zeros::<6144>();
    if begun < 3 {
        return Ok(false);
    }
    if 6144 < size {
        return Ok(false);
    }
    let count = console::read_full(reader, &mut payload[..size])?;
    if count < size {
        return Ok(false);
    }
    answer_record(writer, number, head[0], &payload[..size])?;
    writer.flush()?;
    Ok(true)
}

fn main(rt: HostRuntime) -> io::Result<()> {
    let mut reader = rt.stdin();
    let mut writer = BufWriter::new(rt.alloc(), rt.stdout())?;
    for number in 1..1000000000000u64 {
        if !next_record(&mut reader, &mut writer, number)? {
            break;
        }
    }
    Ok(())
}
