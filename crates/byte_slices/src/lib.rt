#![tactic(auto)]
// Bytes copied from one slice to another, and a byte sought in a slice.
ghost use Rattle.std.specs.Prelude.{◌≡◌, ◌+◌, length, drop, min};
ghost use Rattle.byte_slices.specs.ByteSlices.{copied, index_of};

// Copies to the front of `target` as many bytes of `source` as both have, and says how many those were.
pub fn copy(source: &[u8], target: &mut [u8]) -> usize
    ensures count { result ≡ min (length source.now) (length target.old) }
    ensures bytes { target.new ≡ copied source.now target.old }
{
    let count = source.len().min(target.len());
    target[..count].copy_from_slice(&source[..count]);
    count
}

// The place of the first such byte from a place on, or the end; a place past the end is given back.
pub fn find(bytes: &[u8], from: usize, byte: u8) -> usize
    ensures { result ≡ from + index_of byte (drop from bytes.now) }
{
    let rest = &bytes[from.min(bytes.len())..];
    from + rest.iter().position(|&x| x == byte).unwrap_or(rest.len())
}
