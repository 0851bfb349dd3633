#![tactic(auto)]
// Whether bytes are an acceptable datagram (01, The check, The scan).
ghost use Rattle.std.specs.Prelude.{◌≡◌, false, ◌≤◌, length};
ghost use Rattle.setup.specs.Layout.{layout_of, length_in};
ghost use Rattle.acceptance.specs.Acceptable.{check_right, ending_right, acceptable_in};

use setup::Row;

// The bytes behind the check are right: 0x0D 0x0A, or none.
fn ending_right(row: Row, terminated: bool, s: &[u8]) -> bool
    requires { length s.now ≡ length_in (layout_of row terminated) }
    ensures { result ≡ ending_right (layout_of row terminated) s.now }
{
    if terminated {
        let place = wire::length_of(row, false);
        (s[place] == 0x0D) & (s[place + 1] == 0x0A)
    } else {
        true
    }
}

// The bytes of the check are the check of those before them; the ending doesn't matter here.
fn check_right(row: Row, s: &[u8]) -> bool
    requires { length_in (layout_of row false) ≤ length s.now }
    ensures { result ≡ check_right (layout_of row false) s.now }
{
    let place = wire::check_place(row);
    let sent = integers::four_bytes_of(s[place], s[place + 1], s[place + 2], s[place + 3]);
    sent == crc::crc32(&s[..place])
}

// Whether bytes are an acceptable datagram. What is cheap is tested before the check is computed.
pub fn is_acceptable(identifier: u8, row: Row, terminated: bool, s: &[u8]) -> bool
    ensures { result ≡ acceptable_in identifier (layout_of row terminated) s.now }
{
    if s.len() != wire::length_of(row, terminated) {
        return false;
    }
    if (s[0] != identifier) | !ending_right(row, terminated, s) {
        return false;
    }
    check_right(row, s)
}
