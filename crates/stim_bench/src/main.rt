#![tactic(auto)]
// The bench program (01, The text line): standard input is a setup line and then the stream, standard output a text line for each datagram.
ghost use Rattle.std.specs.Prelude.{◌≡◌, ◌+◌, ◌-◌, ◌≤◌, ◌<◌, length, take, IfOk};
ghost use Rattle.setup_line.specs.SetupLine.{line_read};
ghost use Rattle.search.specs.Search.{limits_of};
ghost use Rattle.admission.specs.Admission.{piece_ruling};
ghost use Rattle.whole_piece.specs.Lines.{lines_in, enough};
ghost use Rattle.stim_bench.specs.Bench.{first_line, Opens, Feedable, HasLeft, fed_with, part_lines, with_text, IsGathered};

use console::Stop;
use refusals::Refusal;
use session::Session;
use setup::Setup;
use std::io::{Read, Write};

// The most bytes of a piece and of a session, 2^34 (01, What is turned down, 11 and 12).
const PIECE_LIMIT: usize = 4096;

const SESSION_LIMIT: u64 = 17179869184;

// So many bytes have room for the lines of any piece.
const ENOUGH: usize = 72000;

// The most bytes of one read.
const READ: usize = 65536;

// Room for the lines of several parts.
const ROOM: usize = 131072;

// What a part that was fed leaves: the session, and how many bytes of lines stand at the front of the buffer.
#[derive(Clone, Copy)]
struct PartFed {
    session: Session,
    used: usize,
}

// The same of the first bytes of some that are to be fed, and how many bytes those are.
#[derive(Clone, Copy)]
struct Gathered {
    session: Session,
    taken: usize,
    used: usize,
}

// Prints what refuses something: `refused ` and its number.
fn print_refusal<W: Write>(writer: &mut W, refusal: Refusal) -> Result<(), Stop> {
    writeln!(writer, "{refusal}").map_err(Stop::Writing)
}

// Writes out the lines of bytes that a session is fed. Only the contract speaks of session and bytes.
fn write_lines<W: Write>(
    writer: &mut W,
    session: Session,
    bytes: &[u8],
    lines: &[u8],
) -> Result<(), Stop>
    requires { lines.now ≡ lines_in session bytes.now }
{
    console::write_out(writer, lines)
}

// Feeds a part that nothing refuses: its lines come to the front of the buffer.
fn feed_part(session: Session, part: &[u8], output: &mut [u8]) -> PartFed
    requires { Feedable session (length part.now) × (length part.now ≤ (limits_of session.setup).piece) × (enough ≤ length output.old) }
    ensures answer { result ≡ part_lines session part.now }
    ensures written { output.new ≡ with_text (lines_in session part.now) output.old }
{
    let batch = lines::receive_lines(session, part, output);
    let answer = batch.answer;
    let next = batch.session;
    match answer {
        Ok(count) => PartFed {
            session: next,
            used: count,
        },
        Err(_) => PartFed {
            session: session,
            used: 0,
        },
    }
}

// Feeds bytes in parts, whose lines come one behind the other into the buffer, until all are fed or another part's lines may find no room.
fn gather(start: Session, bytes: &[u8], output: &mut [u8]) -> Gathered
    requires { Feedable start (length bytes.now) × (enough ≤ length output.old) }
    ensures { IsGathered start bytes.now output.old output.new result }
{
    let mut session = start;
    let mut taken: usize = 0;
    let mut used: usize = 0;
    for part in bytes.chunks(PIECE_LIMIT) {
        if output.len() - used < ENOUGH {
            break;
        }
        let fed = feed_part(session, part, &mut output[used..]);
        session = fed.session;
        used += fed.used;
        taken += part.len();
    }
    Gathered {
        session: session,
        taken: taken,
        used: used,
    }
}

// Feeds bytes and writes out their lines, as many at once as the buffer has room for: the session behind them.
fn feed_bytes<W: Write>(
    writer: &mut W,
    start: Session,
    bytes: &[u8],
    output: &mut [u8; ROOM],
) -> Result<Session, Stop>
    requires { Feedable start (length bytes.now) }
    ensures { IfOk result (λ behind. behind ≡ fed_with start bytes.now) }
{
    // a `while`, since each turn goes as far as the buffer had room
    let mut session = start;
    let mut at: usize = 0;
    while at < bytes.len() {
        let gathered = gather(session, &bytes[at..], &mut output[..]);
        let end = at + gathered.taken;
        let used = gathered.used;
        write_lines(writer, session, &bytes[at..end], &output[..used])?;
        session = gathered.session;
        at = end;
    }
    Ok(session)
}

// Prints that a piece of so many bytes more is refused. Only the contract speaks of session and length.
fn refuse_piece<W: Write>(
    writer: &mut W,
    session: Session,
    length: usize,
    refusal: Refusal,
) -> Result<(), Stop>
    requires { piece_ruling session length ≡ Err refusal }
{
    print_refusal(writer, refusal)
}

// Feeds what each read gives, until the input ends or one byte more comes than a session takes.
fn receive_rest<R: Read, W: Write>(
    reader: &mut R,
    writer: &mut W,
    start: Session,
    input: &mut [u8; READ],
    output: &mut [u8; ROOM],
    allowed: u64,
) -> Result<(), Stop>
    requires { HasLeft start allowed }
{
    // a `loop`, which ends with the input or with the bytes that are left
    let mut session = start;
    let mut left = allowed;
    loop {
        let count = console::read_some(reader, &mut input[..])?;
        if count == 0 {
            return Ok(());
        }
        let fed = left.min(count as u64) as usize;
        session = feed_bytes(writer, session, &input[..fed], output)?;
        if fed < count {
            return refuse_piece(writer, session, 1, Refusal::StreamTooLong);
        }
        left -= count as u64;
    }
}

// Receives the stream, whose first bytes lie in the input buffer already: a session's bytes, and one more is refused.
fn receive<R: Read, W: Write>(
    reader: &mut R,
    writer: &mut W,
    start: Session,
    input: &mut [u8; READ],
    output: &mut [u8; ROOM],
    from: usize,
    filled: usize,
) -> Result<(), Stop>
    requires from_le_filled { (from ≤ filled) × (filled ≤ length input.old) × (filled ≤ (limits_of start.setup).session) }
    requires opens { Opens (take filled input.old) start from }
{
    let session = feed_bytes(writer, start, &input[from..filled], output)?;
    let left = SESSION_LIMIT - (filled - from) as u64;
    receive_rest(reader, writer, session, input, output, left)
}

// Reads until the first line is known: its 0x0A came, or 65 bytes, or the input ended. How many bytes came.
fn read_first_bytes<R: Read>(reader: &mut R, input: &mut [u8; READ]) -> Result<usize, Stop>
    ensures { IfOk result (λ filled. filled ≤ length input.new) }
{
    // a `while`, since each read decides how far the next turn begins
    let mut filled: usize = 0;
    while filled < 65 {
        let count = console::read_some(reader, &mut input[filled..])?;
        filled += count;
        if count == 0 || setup_line::line_end(&input[..filled]) < filled {
            return Ok(filled);
        }
    }
    Ok(filled)
}

// Prints that the first line of the input is refused. Only the contract speaks of the bytes.
fn refuse_line<W: Write>(writer: &mut W, bytes: &[u8], refusal: Refusal) -> Result<(), Stop>
    requires { (line_read (first_line bytes.now)).answer ≡ Err refusal }
{
    print_refusal(writer, refusal)
}

// Judges the first line and receives what comes behind it: nothing, where the input ended without the line's 0x0A. Reader, writer and buffers stay
// arguments, so that each function shows which of them it touches.
fn run<R: Read, W: Write>(
    reader: &mut R,
    writer: &mut W,
    input: &mut [u8; READ],
    output: &mut [u8; ROOM],
) -> Result<(), Stop> {
    let filled = read_first_bytes(reader, input)?;
    let bytes = &input[..filled];
    let end = setup_line::line_end(bytes);
    let line = setup_line::read_line(&bytes[..end]);
    let setup = line.setup;
    let answer = line.answer;
    if let Err(refusal) = answer {
        return refuse_line(writer, bytes, refusal);
    }
    if end == filled {
        return Ok(());
    }
    let opened = session::open(setup);
    let session = opened.session;
    receive(reader, writer, session, input, output, end + 1, filled)
}

fn main(rt: HostRuntime) {
    let mut input = console::large_buffer();
    let mut output = console::zeros::<ROOM>();
    let ran = run(&mut rt.stdin(), &mut rt.stdout(), &mut input, &mut output);
    if let Err(stop) = ran {
        console::tell_stop(&mut rt.stderr(), stop);
    }
}
