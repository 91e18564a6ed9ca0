//! Halves of octets, and the check of a control packet over them; begin with `crc8`. The crate also holds the
//! words for the lock of a line on the multiframe (G.707), which member_path meets: no code of this crate
//! keeps one.
#![tactic(auto)]

ghost use Rattle.std.specs.Prelude.{◌≡◌, ◌+◌, ◌*◌, ◌/◌, ◌%◌, ◌<◌, Bool, List, All};
ghost use Rattle.check_remainder.specs.Bits.{bits};
ghost use Rattle.check_remainder.specs.Remainder.{IsRemainder};
ghost use Rattle.check_remainder.specs.DivisionTable.{nibble_bits};
ghost use Rattle.check_nibbles.specs.NibbleCheck.{crc8_lower, crc8_of};

use check_remainder::remainder_of_nibbles;

/// The remainders of the nibbles by `x^8 + x^2 + x + 1`.
const CRC8: [u32; 16] = [
    0x00, 0x07, 0x0e, 0x09, 0x1c, 0x1b, 0x12, 0x15, 0x38, 0x3f, 0x36, 0x31, 0x24, 0x23, 0x2a, 0x2d,
];

/// The upper half of an octet.
pub fn nibble_hi(o: u8) -> u8
    ensures { result ≡ o / 16 }
{
    o >> 4
}

/// The lower half of an octet.
pub fn nibble_lo(o: u8) -> u8
    ensures { result ≡ o % 16 }
{
    o & 0xf
}

/// The octet of two halves.
pub fn join_nibbles(hi: u8, lo: u8) -> u8
    requires hi { hi < 16 }
    requires lo { lo < 16 }
    ensures { result ≡ 16 * hi + lo }
{
    hi << 4 | lo
}

/// The CRC-8 of a control packet, over the fourteen nibbles before it: their remainder by `x^8 + x^2 + x + 1`.
pub fn crc8(nibbles: &[u8; 14]) -> u8
    requires { All (λ nibble. nibble < 16) nibbles.now }
    ensures remainder { IsRemainder crc8_lower (nibble_bits nibbles.now) (bits 8 result) }
    ensures only { (rest : List Bool) → IsRemainder crc8_lower (nibble_bits nibbles.now) rest →
        rest ≡ bits 8 result }
    ensures value { result ≡ crc8_of nibbles.now }
{
    remainder_of_nibbles::<8>(&CRC8, nibbles) as u8
}
