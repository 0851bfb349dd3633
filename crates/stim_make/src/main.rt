#![tactic(auto)]
// Datagrams made here (02, 2.1): standard input is a setup line and then rehearsal lines, standard output a datagram for each. What is turned down of a
// line is said on standard error, with the line's number.
mod accepted;
mod line;

ghost use Rattle.std.specs.Prelude.{◌≡◌, true, ◌++◌, ◌+◌, ◌≤◌, length, take, IfOk, IfSome};
ghost use Rattle.refusals.specs.Refusals.{number_of};
ghost use Rattle.setup_line.specs.SetupLine.{line_read, line_end};
ghost use Rattle.made_datagram.specs.Making.{outside};
ghost use Rattle.rehearsal.specs.RehearsalLine.{readings_in, values_in, rehearsal_of};
ghost use Rattle.stim_make.specs.MadeLines.{next_number, line_of, Keeps, datagram_of, datagrams_in, with_text, IsTaken, AreFed, LiesBehind};

use accepted::AcceptedSetup;
use console::Stop;
use line::{KEPT, Line};
use refusals::Refusal;
use rehearsal::Fault;
use setup::Setup;
use std::io::{Read, Write};

// No datagram is longer.
const ENOUGH: usize = 65;

// The most bytes of one read, and room for the datagrams of many lines.
const ROOM: usize = 65536;

// What bytes that were taken leave: how many they are, the line under way, and how many bytes of datagrams stand at the front of the buffer.
#[derive(Clone, Copy)]
struct Taken {
    taken: usize,
    line: Line,
    made: usize,
}

// The setup line, and if its end came, where the rehearsal lines lie in the input buffer.
#[derive(Clone, Copy)]
struct FirstLine {
    line: Line,
    behind: Option<Behind>,
}

// The bytes of the buffer from one place to another.
#[derive(Clone, Copy)]
struct Behind {
    from: usize,
    filled: usize,
}

// A line that has no bytes yet.
fn begun(number: u64) -> Line
    ensures { (result.used ≡ 0) × (result.number ≡ number) }
{
    Line {
        number: number,
        used: 0,
        bytes: [0; KEPT],
    }
}

// The number of the next line.
fn next_number(number: u64) -> u64
    ensures { result ≡ next_number number }
{
    if number < 18446744073709551615 {
        number + 1
    } else {
        number
    }
}

// The line with more bytes, as many as are kept.
fn keep(line: Line, more: &[u8]) -> Line
    ensures { (result.number ≡ line.number) × Keeps result (line_of line ++ more.now) }
{
    let mut bytes = line.bytes;
    let count = more.len().min(KEPT - line.used);
    let used = line.used + count;
    bytes[line.used..used].copy_from_slice(&more[..count]);
    Line {
        number: line.number,
        used: used,
        bytes: bytes,
    }
}

// Says on standard error which line is turned down.
fn tell_line<E: Write>(errors: &mut E, number: u64) {
    let _ = write!(errors, "line {number}: ");
}

// What refuses it, by its number.
fn tell_refusal<E: Write>(errors: &mut E, number: u64, refusal: Refusal) {
    tell_line(errors, number);
    let _ = writeln!(errors, "{refusal}");
}

// Says that the setup line is refused. Only the contract speaks of the line.
fn refuse_setup<E: Write>(errors: &mut E, line: &[u8], refusal: Refusal)
    requires { (line_read line.now).answer ≡ Err refusal }
{
    tell_refusal(errors, 1, refusal);
}

// Says that the values of a line are refused by 15. Only the contract speaks of setup and line.
fn refuse_values<E: Write>(errors: &mut E, setup: Setup, line: &[u8], number: u64, refusal: Refusal)
    requires { (rehearsal_of line.now ≡ Ok tt) × (outside setup (readings_in line.now) (values_in line.now) ≡ true) × (number_of refusal ≡ 15) }
{
    tell_refusal(errors, number, refusal);
}

// Says what a line has that is no rehearsal line. Only the contract speaks of the line.
fn refuse_line<E: Write>(errors: &mut E, line: &[u8], number: u64, fault: Fault)
    requires { rehearsal_of line.now ≡ Err fault }
{
    tell_line(errors, number);
    // the text and its 0x0A in one write
    let _ = errors.write_all(match fault {
        Fault::TooLong => b"longer than 512 bytes\n",
        Fault::OtherCount => b"neither 25 nor 39 fields\n",
        Fault::NoNumber => b"a field is no whole number\n",
    });
}

// Writes out the datagrams of bytes behind a line's first ones. Only the contract speaks of setup, line and bytes.
fn write_datagrams<W: Write>(
    writer: &mut W,
    accepted: AcceptedSetup,
    line: Line,
    bytes: &[u8],
    datagrams: &[u8],
) -> Result<(), Stop>
    requires { datagrams.now ≡ datagrams_in accepted.setup (line_of line) bytes.now }
{
    console::write_out(writer, datagrams)
}

// Puts the datagram of a rehearsal line at the front of the buffer: how many bytes it has, 0 where the values are refused. The buffer is the part of one
// that is left, so that no type has its length.
fn put_datagram<E: Write>(
    errors: &mut E,
    accepted: AcceptedSetup,
    line: &[u8],
    number: u64,
    output: &mut [u8],
) -> usize
    requires { (rehearsal_of line.now ≡ Ok tt) × (65 ≤ length output.old) }
    ensures answer { result ≡ length (datagram_of accepted.setup line.now) }
    ensures written { output.new ≡ with_text (datagram_of accepted.setup line.now) output.old }
{
    let readings = rehearsal::readings_of(line);
    let values = rehearsal::values_of(line);
    let made = making::write_datagram(output, accepted.setup, readings, values);
    match made {
        Ok(count) => count,
        Err(refusal) => {
            refuse_values(errors, accepted.setup, line, number, refusal);
            0
        }
    }
}

// The same of any line.
fn make_line<E: Write>(
    errors: &mut E,
    accepted: AcceptedSetup,
    line: &[u8],
    number: u64,
    output: &mut [u8],
) -> usize
    requires { 65 ≤ length output.old }
    ensures answer { result ≡ length (datagram_of accepted.setup line.now) }
    ensures written { output.new ≡ with_text (datagram_of accepted.setup line.now) output.old }
{
    match rehearsal::judge_line(line) {
        Ok(()) => put_datagram(errors, accepted, line, number, output),
        Err(fault) => {
            refuse_line(errors, line, number, fault);
            0
        }
    }
}

// Takes the bytes of a line and the 0x0A behind them, which makes its datagram.
fn take_line<E: Write>(
    errors: &mut E,
    accepted: AcceptedSetup,
    start: Line,
    bytes: &[u8],
    output: &mut [u8],
) -> Taken
    requires { 65 ≤ length output.old }
    ensures { IsTaken accepted.setup start bytes.now output.old output.new result }
{
    let end = setup_line::line_end(bytes);
    let line = keep(start, &bytes[..end]);
    if end == bytes.len() {
        return Taken {
            taken: end,
            line: line,
            made: 0,
        };
    }
    let used = line.used;
    let kept = line.bytes;
    let made = make_line(errors, accepted, &kept[..used], line.number, output);
    let next = end + 1;
    Taken {
        taken: next,
        line: begun(next_number(line.number)),
        made: made,
    }
}

// Takes bytes line by line, whose datagrams come one behind the other into the buffer, until all are taken or another datagram may find no room.
fn gather<E: Write>(
    errors: &mut E,
    accepted: AcceptedSetup,
    start: Line,
    bytes: &[u8],
    output: &mut [u8],
) -> Taken
    requires { 65 ≤ length output.old }
    ensures { IsTaken accepted.setup start bytes.now output.old output.new result }
{
    // a `while`, since a line takes as many bytes as it has
    let mut line = start;
    let mut at: usize = 0;
    let mut made: usize = 0;
    while at < bytes.len() && ENOUGH <= output.len() - made {
        let step = take_line(errors, accepted, line, &bytes[at..], &mut output[made..]);
        line = step.line;
        made += step.made;
        at += step.taken;
    }
    Taken {
        taken: at,
        line: line,
        made: made,
    }
}

// Takes bytes and writes out their datagrams, as many at once as the buffer has room for: the line under way behind them.
fn feed_bytes<W: Write, E: Write>(
    writer: &mut W,
    errors: &mut E,
    accepted: AcceptedSetup,
    start: Line,
    bytes: &[u8],
    output: &mut [u8; ROOM],
) -> Result<Line, Stop>
    ensures { IfOk result (λ line. AreFed start bytes.now line) }
{
    // a `while`, since each turn goes as far as the buffer had room
    let mut line = start;
    let mut at: usize = 0;
    while at < bytes.len() {
        let gathered = gather(errors, accepted, line, &bytes[at..], &mut output[..]);
        let end = at + gathered.taken;
        let made = gathered.made;
        write_datagrams(writer, accepted, line, &bytes[at..end], &output[..made])?;
        line = gathered.line;
        at = end;
    }
    Ok(line)
}

// Makes the datagram of a last line without 0x0A, if it has a byte.
fn finish<W: Write, E: Write>(
    writer: &mut W,
    errors: &mut E,
    accepted: AcceptedSetup,
    line: Line,
    output: &mut [u8; ROOM],
) -> Result<(), Stop> {
    if 0 < line.used {
        feed_bytes(writer, errors, accepted, line, b"\n", output)?;
    }
    Ok(())
}

// Takes what each read gives, until the input ends: no input has as many reads as are counted.
fn receive_rest<R: Read, W: Write, E: Write>(
    reader: &mut R,
    writer: &mut W,
    errors: &mut E,
    accepted: AcceptedSetup,
    start: Line,
    input: &mut [u8; ROOM],
    output: &mut [u8; ROOM],
) -> Result<(), Stop> {
    let mut line = start;
    for _ in 0..u64::MAX {
        let count = console::read_some(reader, &mut input[..])?;
        if count == 0 {
            return finish(writer, errors, accepted, line, output);
        }
        line = feed_bytes(writer, errors, accepted, line, &input[..count], output)?;
    }
    Ok(())
}

// Takes the bytes that came with the setup line's end, and then the rest. Only the contract speaks of the setup line.
fn receive<R: Read, W: Write, E: Write>(
    reader: &mut R,
    writer: &mut W,
    errors: &mut E,
    accepted: AcceptedSetup,
    line: &[u8],
    input: &mut [u8; ROOM],
    output: &mut [u8; ROOM],
    from: usize,
    filled: usize,
) -> Result<(), Stop>
    requires line_value { ((line_read line.now).answer ≡ Ok tt) × (accepted.setup ≡ (line_read line.now).setup) }
    requires from_value { (from ≡ line_end (take filled input.old) + 1) × (from ≤ filled) × (filled ≤ length input.old) }
{
    let line = feed_bytes(
        writer,
        errors,
        accepted,
        begun(2),
        &input[from..filled],
        output,
    )?;
    receive_rest(reader, writer, errors, accepted, line, input, output)
}

// Reads until the first line is known: its 0x0A came, or 65 bytes, or the input ended.
fn read_first_line<R: Read>(reader: &mut R, input: &mut [u8; ROOM]) -> Result<FirstLine, Stop>
    ensures { IfOk result (λ first. IfSome first.behind (LiesBehind input.new)) }
{
    // a `while`, since each read decides how many bytes the line has
    let mut line = begun(1);
    while line.used < 65 {
        let count = console::read_some(reader, &mut input[..])?;
        if count == 0 {
            break;
        }
        let bytes = &input[..count];
        let end = setup_line::line_end(bytes);
        line = keep(line, &bytes[..end]);
        if end < count {
            let behind = Behind {
                from: end + 1,
                filled: count,
            };
            return Ok(FirstLine {
                line: line,
                behind: Some(behind),
            });
        }
    }
    Ok(FirstLine {
        line: line,
        behind: None,
    })
}

// Judges the setup line and takes what comes behind it. Reader, writers and buffers stay arguments, so that each function shows which of them it touches.
fn run<R: Read, W: Write, E: Write>(
    reader: &mut R,
    writer: &mut W,
    errors: &mut E,
    input: &mut [u8; ROOM],
    output: &mut [u8; ROOM],
) -> Result<(), Stop> {
    let first = read_first_line(reader, input)?;
    let line = first.line;
    let used = line.used;
    let bytes = line.bytes;
    let read = setup_line::read_line(&bytes[..used]);
    let setup = read.setup;
    let answer = read.answer;
    if let Err(refusal) = answer {
        refuse_setup(errors, &bytes[..used], refusal);
        return Ok(());
    }
    let Some(behind) = first.behind else {
        return Ok(());
    };
    let accepted = AcceptedSetup { setup: setup };
    receive(
        reader,
        writer,
        errors,
        accepted,
        &bytes[..used],
        input,
        output,
        behind.from,
        behind.filled,
    )
}

fn main(rt: HostRuntime) {
    let mut errors = rt.stderr();
    let mut input = console::large_buffer();
    let mut output = console::large_buffer();
    let ran = run(
        &mut rt.stdin(),
        &mut rt.stdout(),
        &mut errors,
        &mut input,
        &mut output,
    );
    if let Err(stop) = ran {
        console::tell_stop(&mut errors, stop);
    }
}
