#![tactic(auto)]
// The special datagrams: which kind begins with a byte, how long it is, whether bytes are one (02, 2.7; 001, 5.5.1 to 5.5.5).
ghost use Rattle.std.specs.Prelude.{◌≡◌, ◌||◌, [], ◌∷◌, ◌+◌, ◌≤◌, eqb, length, take, drop};
ghost use Rattle.integers.specs.Bytes.{big_endian};
ghost use Rattle.crc.specs.Check.{stim300, check_of};
ghost use Rattle.setup.specs.Layout.{sum, check_bytes};
ghost use Rattle.acceptance.specs.Acceptable.{same};
ghost use Rattle.special.specs.Special.{fields_of, length_found, kind_at, is_special};

// Which kind a datagram is.
#[derive(Clone, Copy)]
pub enum Kind {
    Normal,
    PartNumber,
    SerialNumber,
    Configuration,
    BiasTrim,
    ExtendedError,
}

// The length of the special datagram that begins with a byte, if it begins one (001, 5.5.1 to 5.5.5).
pub fn length_of(byte: u8) -> Option<usize>
    ensures { result ≡ length_found byte }
{
    match byte {
        0xB1 | 0xB5 => Some(20),
        0xB3 | 0xB7 => Some(22),
        0xBC => Some(26),
        0xBD => Some(28),
        0xD1 => Some(40),
        0xD2 => Some(42),
        0xBE => Some(21),
        0xBF => Some(23),
        _ => None,
    }
}

// The kind that begins with a byte; one that begins no special datagram can begin a Normal Mode one only (001, 5.5.1 to 5.5.5).
pub fn kind_of(byte: u8) -> Kind
    ensures { result ≡ kind_at byte }
{
    match byte {
        0xB1 | 0xB3 => Kind::PartNumber,
        0xB5 | 0xB7 => Kind::SerialNumber,
        0xBC | 0xBD => Kind::Configuration,
        0xD1 | 0xD2 => Kind::BiasTrim,
        0xBE | 0xBF => Kind::ExtendedError,
        _ => Kind::Normal,
    }
}

// The bytes before the check: the identifier and the fields of a kind.
fn check_place(kind: Kind) -> usize
    ensures { result ≡ 1 + sum (fields_of kind) }
{
    match kind {
        Kind::Normal => 1,
        Kind::PartNumber => 16,
        Kind::SerialNumber => 16,
        Kind::Configuration => 22,
        Kind::BiasTrim => 36,
        Kind::ExtendedError => 17,
    }
}

// The bytes from `end` on, behind the check, are 0x0D 0x0A or none; which of the two, the length has said already.
fn ending_right(end: usize, s: &[u8]) -> bool
    requires { end ≤ length s.now }
    ensures { result ≡ (same (drop end s.now) [] || same (drop end s.now) (0x0D ∷ 0x0A ∷ [])) }
{
    matches!(&s[end..], [] | [0x0D, 0x0A])
}

// The four bytes at `place` are the check of those before them (01, The check).
fn check_right(place: usize, s: &[u8]) -> bool
    requires { place + 4 ≤ length s.now }
    ensures { result ≡ eqb (big_endian (take (check_bytes stim300) (drop place s.now))) (check_of stim300 (take place s.now)) }
{
    let sent = integers::four_bytes_of(s[place], s[place + 1], s[place + 2], s[place + 3]);
    sent == crc::crc32(&s[..place])
}

// Whether bytes are a special datagram. What is cheap is tested before the check is computed (02, 2.7).
pub fn is_special(s: &[u8]) -> bool
    ensures { result ≡ is_special s.now }
{
    // By its place and not by `first`, since must-fail/special_by_second_byte takes the byte of another place.
    let Some(&first) = s.get(0) else {
        return false;
    };
    if length_of(first) != Some(s.len()) {
        return false;
    }
    let place = check_place(kind_of(first));
    ending_right(place + 4, s) && check_right(place, s)
}
