#![tactic(auto)]
// The check of a datagram (01, The check), four bytes at a time, and CRC-32/MPEG-2, a byte at a time.
// `crc32` keeps a register of 64 bits, whose remainder is the check's: 32 shifts of it are four look-ups that do not wait for each other.
ghost use Rattle.std.specs.Prelude.{◌≡◌, ℕ, [], ◌∷◌, ◌*◌, ◌%◌, ◌^◌, ◌<◌, length};
ghost use Rattle.crc.specs.Check.{mpeg2, shift, shifts, byte_step, register, covered, check_of, check32};
ghost use Rattle.crc.specs.Wide.{wide_polynomial, remainder};

const START: u32 = 0xFFFFFFFF;

// A register of the check, and what a shift makes of it.
// Each type has its own `one_shift`: the operations of one for both, as methods of the trait, would be no shorter.
trait Register: Copy {
    ghost width: { ℕ };

    ghost polynomial: { ℕ };

    ghost number: { Self → ℕ };

    fn one_shift(self) -> Self
        ensures { number result ≡ shift width polynomial (number self) };
}

impl Register for u32 {
    ghost width = { 32 };

    ghost polynomial = { 0x04C11DB7 };

    ghost number = { λ n. n };

    fn one_shift(self) -> u32 {
        if self < 0x80000000 {
            self << 1
        } else {
            (self << 1) ^ 0x04C11DB7
        }
    }
}

impl Register for u64 {
    ghost width = { 64 };

    ghost polynomial = { wide_polynomial };

    ghost number = { λ n. n };

    fn one_shift(self) -> u64 {
        if self < 0x8000000000000000 {
            self << 1
        } else {
            (self << 1) ^ 0x490D678D
        }
    }
}

// The compiler makes a look-up in a table of this loop.
fn eight_shifts<R: Register>(c: R) -> R
    ensures { R.number result ≡ shifts R.width R.polynomial 8 (R.number c) }
{
    let mut x = c;
    for _ in 0..8u32 {
        x = x.one_shift();
    }
    x
}

fn byte_step(c: u32, byte: u8) -> u32
    ensures { result ≡ byte_step 32 0x04C11DB7 c byte }
{
    eight_shifts(c ^ ((byte as u32) << 24))
}

// CRC-32/MPEG-2: the check without zero bytes, for which a check value is published.
pub fn crc32_mpeg2(s: &[u8]) -> u32
    ensures { result ≡ check_of mpeg2 s.now }
{
    let mut check = START;
    for &byte in s {
        check = byte_step(check, byte);
    }
    check
}

// The eight shifts of the lowest byte of c, put at the top.
fn lowest_byte(c: u64) -> u64
    ensures { result ≡ shifts 64 wide_polynomial 8 (c % 2 ^ 8 * 2 ^ 56) }
{
    eight_shifts(c << 56)
}

fn word_shifts(c: u64) -> u64
    ensures { result ≡ shifts 64 wide_polynomial 32 c }
{
    let low = lowest_byte(c >> 32) ^ (lowest_byte(c >> 40) << 8);
    let high = (lowest_byte(c >> 48) << 16) ^ (lowest_byte(c >> 56) << 24);
    (c << 32) ^ (low ^ high)
}

// The register after four bytes: they are added to it, and 32 shifts follow.
fn word_step(c: u64, first: u8, second: u8, third: u8, fourth: u8) -> u64
    ensures { remainder result ≡ register 32 0x04C11DB7 (remainder c) (first ∷ second ∷ third ∷ fourth ∷ []) }
{
    word_shifts(c ^ u32::from_be_bytes([first, second, third, fourth]) as u64)
}

fn remainder_of(c: u64) -> u32
    ensures { result ≡ remainder c }
{
    let halfway = eight_shifts(eight_shifts((c >> 32) as u32));
    eight_shifts(eight_shifts(halfway)) ^ ((c % 0x100000000) as u32)
}

// The register after the last bytes, fewer than four, and the zero bytes.
fn last_step(c: u64, rest: &[u8]) -> u64
    requires { length rest.now < 4 }
    ensures { remainder result ≡ register 32 0x04C11DB7 (remainder c) (covered 4 rest.now) }
{
    if rest.is_empty() {
        return c;
    }
    let second = integers::byte_or_zero(rest, 1);
    let third = integers::byte_or_zero(rest, 2);
    word_step(c, rest[0], second, third, 0)
}

// The check of the bytes that stand before it in a datagram (01, The check).
pub fn crc32(s: &[u8]) -> u32
    ensures { result ≡ check32 s.now }
{
    let (words, rest) = s.as_chunks::<4>();
    let mut check = START as u64;
    for &[first, second, third, fourth] in words {
        check = word_step(check, first, second, third, fourth);
    }
    remainder_of(last_step(check, rest))
}
