#![tactic(auto)]
// The check for Rust, which times it (timing/crc).
ghost use Rattle.std.specs.Prelude.{◌≡◌};
ghost use Rattle.crc.specs.Check.{check32};

#[unsafe(no_mangle)]
pub extern "C" fn nalvezik_crc32(s: &[u8]) -> u32
    ensures { result ≡ check32 s.now }
{
    crc::crc32(s)
}
