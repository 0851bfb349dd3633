#![tactic(auto)]
// What the programs share of reading and writing: over any reader and writer, so that a contract can say which bytes came and went.
ghost use Rattle.std.specs.Prelude.{◌≡◌, EachIndex, slice_index, ◌≤◌, ◌<◌, length, take, IfOk, OnOk};
ghost use Rattle.std.specs.Io.KnownBytes.{Consumes, IsAtEnd, Appends};
ghost use Rattle.console.specs.Stops.{IsUnread};

use std::io;
use std::io::{ErrorKind, Read, Write};

// Why a program ends before its input does: a read failed, or a write did.
#[derive(Drop)]
pub enum Stop {
    Reading(io::Error),
    Writing(io::Error),
}

// As many zeros as an array has places.
pub fn zeros<const N: usize>() -> [u8; N]
    ensures length { N ≡ length result }
    ensures zeros { EachIndex result (λ k. slice_index result k ≡ 0) }
{
    [0; N]
}

// 65,536 zeros, for a loop that moves much data.
pub fn large_buffer() -> [u8; 65536]
    ensures length { 65536 ≡ length result }
    ensures zeros { EachIndex result (λ k. slice_index result k ≡ 0) }
{
    zeros()
}

// Reads until the buffer is full or the input ends, and gives how many bytes it put at the front of the buffer: a short read isn't the end. The
// first read that fails ends it. On an empty buffer it makes no call.
pub fn read_full<R: Read>(reader: &mut R, buffer: &mut [u8]) -> io::Result<usize>
    ensures bound { IfOk result (λ n. n ≤ length buffer.new) }
    ensures bytes { IfOk result (λ n. Consumes (R.remaining reader.old) (R.remaining reader.new) (take n buffer.new)) }
    ensures end { IfOk result (λ n. n < length buffer.new → IsAtEnd (R.remaining reader.new)) }
{
    // a `while`, since each read decides how far the next turn begins; `read_exact` would take a short input for an error
    let mut done: usize = 0;
    while done < buffer.len() {
        let count = reader.read(&mut buffer[done..])?;
        if count == 0 {
            return Ok(done);
        }
        done += count;
    }
    Ok(done)
}

// One read: how many bytes came to the front of the buffer, none at the end of the input.
pub fn read_some<R: Read>(reader: &mut R, buffer: &mut [u8]) -> Result<usize, Stop>
    ensures bound { IfOk result (λ n. n ≤ length buffer.new) }
    ensures bytes { IfOk result (λ n. Consumes (R.remaining reader.old) (R.remaining reader.new) (take n buffer.new)) }
    ensures end { IfOk result (λ n. n ≡ 0 → 0 < length buffer.new → IsAtEnd (R.remaining reader.new)) }
{
    reader.read(buffer).map_err(Stop::Reading)
}

// Writes all of the bytes out.
pub fn write_out<W: Write>(writer: &mut W, bytes: &[u8]) -> Result<(), Stop>
    ensures { OnOk result (Appends (W.contents writer.old) (W.contents writer.new) bytes.now) }
{
    writer.write_all(bytes).map_err(Stop::Writing)
}

// Says on standard error why a program ends. Where nobody reads standard output any more it ends without a word.
pub fn tell_stop<E: Write>(errors: &mut E, stop: Stop)
    ensures { IsUnread stop → errors.new ≡ errors.old }
{
    match stop {
        Stop::Reading(error) => {
            let _ = writeln!(errors, "standard input: {error}");
        }
        Stop::Writing(error) => {
            if error.kind() != ErrorKind::BrokenPipe {
                let _ = errors.write_all(b"standard output takes nothing more\n");
            }
        }
    }
}
