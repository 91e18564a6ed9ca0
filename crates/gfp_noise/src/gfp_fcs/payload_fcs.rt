//! The frame check sequence as a number.
ghost use Rattle.std.specs.Prelude.{◌≡◌};
ghost use Rattle.std.specs.Int.{to_be_bytes, w32};
ghost use Rattle.check_crc32.specs.Crc32.{fcs_of};

/// The frame check sequence of octets, its most significant octet first.
pub fn fcs(info: &[u8]) -> u32
    ensures { to_be_bytes w32 result ≡ fcs_of info.now }
{
    u32::from_be_bytes(check_crc32::fcs(info))
}
