//! The check of 32 bits over octets (CRC-32), in either order of bits, as a definition with its laws, and the
//! code that makes it. Begin with `fcs`; what it computes is in `specs/Crc32.antt`. `check_law` says that it is
//! a remainder, and by what it differs after bit errors. Where a check stands in a frame is not said here.
#![tactic(auto)]

mod crc32_tables;
mod frame_check;

ghost use Rattle.std.specs.Prelude.{◌≡◌, ◌<◌, ◌≤◌, ℕ, Bool, true, List, [], ◌∷◌, length, replicate, All};
ghost use Rattle.check_remainder.specs.Bits.{xors};
ghost use Rattle.check_remainder.specs.Remainder.{add_front, remainder};
ghost use Rattle.check_crc32.specs.Crc32.{crc32, check_bits, most_first, least_first, fcs_of, fcs_in};

pub use frame_check::{ethernet_fcs, fcs};

/// A check has four octets. Of at least 32 bits it is the remainder, with the first 32 bits inverted before and the
/// remainder after. Where bits of what it is over are turned over, it differs by the remainder of a list with a 1 at
/// each place where one is.
pub fn check_law()
    ensures size { (octets : List ℕ) → length (fcs_of octets) ≡ 4 }
    ensures octets { (octets : List ℕ) → All (λ octet. octet < 256) (fcs_of octets) }
    ensures inverted { (bits : List Bool) → 32 ≤ length bits → check_bits bits
        ≡ xors (replicate 32 true) (remainder crc32 (add_front (replicate 32 true) bits)) }
    ensures differs { (bits flips : List Bool) → length bits ≡ length flips →
        check_bits (xors bits flips) ≡ xors (check_bits bits) (remainder crc32 flips) }
{}

/// Worked: the checks of the digits 1 to 9, in ASCII. That of Ethernet is cbf43926, its least significant octet first.
pub fn worked_law()
    ensures most { fcs_in most_first
        (0x31 ∷ 0x32 ∷ 0x33 ∷ 0x34 ∷ 0x35 ∷ 0x36 ∷ 0x37 ∷ 0x38 ∷ 0x39 ∷ [])
        ≡ 0xfc ∷ 0x89 ∷ 0x19 ∷ 0x18 ∷ [] }
    ensures least { fcs_in least_first
        (0x31 ∷ 0x32 ∷ 0x33 ∷ 0x34 ∷ 0x35 ∷ 0x36 ∷ 0x37 ∷ 0x38 ∷ 0x39 ∷ [])
        ≡ 0x26 ∷ 0x39 ∷ 0xf4 ∷ 0xcb ∷ [] }
{}
