#![tactic(auto)]
// The values of bytes, and tests on whole numbers, for the crates above.
ghost use Rattle.std.specs.Prelude.{◌≡◌, [], ◌∷◌, nat_abs, get_or};
ghost use Rattle.integers.specs.Bytes.{big_endian, signed_bytes};
ghost use Rattle.integers.specs.Ranges.{is_zero, within, in_reading};

// Two bytes as an unsigned number, as the latency is sent.
#[tactic(auto, using(crate::proofs::Bytes::big_endian_two))]
pub fn unsigned_of(first: u8, second: u8) -> u16
    ensures { result ≡ big_endian (first ∷ second ∷ []) }
{
    u16::from_be_bytes([first, second])
}

// Two bytes as a two's complement number, as a temperature is sent.
#[tactic(auto, using(crate::proofs::Bytes::signed_two))]
pub fn temperature_of(first: u8, second: u8) -> i32
    ensures { result ≡ signed_bytes (first ∷ second ∷ []) }
{
    i16::from_be_bytes([first, second]) as i32
}

// Four bytes as an unsigned number, as the check is sent.
#[tactic(auto, using(crate::proofs::Bytes::big_endian_four))]
pub fn four_bytes_of(first: u8, second: u8, third: u8, fourth: u8) -> u32
    ensures { result ≡ big_endian (first ∷ second ∷ third ∷ fourth ∷ []) }
{
    u32::from_be_bytes([first, second, third, fourth])
}

// Three bytes as a two's complement number, as a reading is sent: the upper three of four, shifted down with their sign.
#[tactic(auto, using(crate::proofs::Bytes::signed_three))]
pub fn reading_of(first: u8, second: u8, third: u8) -> i32
    ensures { result ≡ signed_bytes (first ∷ second ∷ third ∷ []) }
{
    i32::from_be_bytes([first, second, third, 0]) >> 8
}

// z is 0.
pub fn is_zero(z: i64) -> bool
    ensures { result ≡ is_zero z }
{
    z == 0
}

// The size of z. That of -2^63 is 2^63, which an i64 doesn't hold.
pub fn magnitude(z: i64) -> u64
    ensures { result ≡ nat_abs z }
{
    z.unsigned_abs()
}

// z is at most `limit` in size, for every limit.
pub fn is_within(z: i64, limit: u64) -> bool
    ensures { result ≡ within limit z }
{
    magnitude(z) <= limit
}

// z is in the 24 bits of a reading.
pub fn fits_reading(z: i32) -> bool
    ensures { result ≡ in_reading z }
{
    (-8388608..=8388607).contains(&z)
}

// The byte at a place, 0 beyond the end.
pub fn byte_or_zero(s: &[u8], place: usize) -> u8
    ensures { result ≡ get_or s.now place 0 }
{
    s.get(place).copied().unwrap_or(0)
}
