#![tactic(auto)]
// Where the first datagram of a setup lies in bytes (01, The scan).
ghost use Rattle.std.specs.Prelude.{◌≡◌, ◌+◌, ◌≤◌, ltb, length, drop};
ghost use Rattle.byte_slices.specs.ByteSlices.{index_of};
ghost use Rattle.setup.specs.Layout.{layout_of};
ghost use Rattle.acceptance.specs.Acceptable.{acceptable_in};
ghost use Rattle.scan.specs.Scan.{first};
ghost use Rattle.search.specs.Search.{size_in, verdict_in, place_of};

use setup::Sensor;

// Where a scan that stops at its first datagram ends: where a complete one begins and how many bytes it has,
// or from where on the bytes are undecided. No Option: both cases tell a place.
#[derive(Clone, Copy, Debug, PartialEq, Eq)]
pub enum Place {
    Complete(usize, usize),
    Undecided(usize),
}

// The length of the sensor's datagrams.
fn size_of(sensor: Sensor) -> usize
    ensures { result ≡ size_in sensor }
{
    let row = sensor.row;
    wire::length_of(row, sensor.terminated)
}

// Whether bytes are an acceptable datagram of the sensor.
fn is_datagram(sensor: Sensor, s: &[u8]) -> bool
    ensures { result ≡ acceptable_in sensor.identifier (layout_of sensor.row sensor.terminated) s.now }
{
    let row = sensor.row;
    acceptance::is_acceptable(sensor.identifier, row, sensor.terminated, s)
}

// How many bytes are looked at together.
const TOGETHER: usize = 16;

// Whether a byte stands among sixteen, which the compiler looks at all at once.
fn is_near(byte: u8, group: &[u8; TOGETHER]) -> bool
    ensures { result ≡ ltb (index_of byte group.now) 16 }
{
    group.contains(&byte)
}

// A place from `from` on, up to which the byte doesn't stand: where it stands among the next sixteen, or fewer are left.
fn near_place(byte: u8, bytes: &[u8], from: usize) -> usize
    requires { from ≤ length bytes.now }
    ensures { (result ≤ length bytes.now) × (result + index_of byte (drop result bytes.now) ≡ from + index_of byte (drop from bytes.now)) }
{
    let (groups, _) = bytes[from..].as_chunks::<TOGETHER>();
    let far = groups
        .iter()
        .position(|group| is_near(byte, group))
        .unwrap_or(groups.len());
    from + far * TOGETHER
}

// The place where the byte stands first from `from` on, or the end.
fn next_place(byte: u8, bytes: &[u8], from: usize) -> usize
    requires { from ≤ length bytes.now }
    ensures { result ≡ from + index_of byte (drop from bytes.now) }
{
    let near = near_place(byte, bytes, from);
    byte_slices::find(bytes, near, byte)
}

// The scan of bytes up to their first datagram (01, The scan).
pub fn find(sensor: Sensor, bytes: &[u8]) -> Place
    ensures { result ≡ place_of (first (verdict_in sensor) bytes.now) }
{
    let identifier = sensor.identifier;
    let size = size_of(sensor);
    // No `for` or chain: the step is one byte, or the way to the next identifier.
    let mut i = 0;
    while i < bytes.len() {
        if bytes[i] == identifier {
            if bytes.len() - i < size {
                return Place::Undecided(i);
            }
            let end = i + size;
            if is_datagram(sensor, &bytes[i..end]) {
                return Place::Complete(i, size);
            }
            i += 1;
        } else {
            i = next_place(identifier, bytes, i + 1);
        }
    }
    Place::Undecided(i)
}
