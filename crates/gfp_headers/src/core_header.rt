//! The core header, written and read as one word of 32 bits.

ghost use Rattle.std.specs.Prelude.{◌≡◌, ◌≢◌, ◌↔◌, ℕ, IfSome, IfNone, IsTrue};
ghost use Rattle.law_model.specs.Common.{hec_of, core_header, head, IsPli};

use check_hec16::{hec, hec_ok};

// What a core header is combined with by exclusive or, its first octet most significant.
const MASK: u32 = 0xb6ab_31e0;

/// The core header of an area of `pli` octets, as it is sent (G.7041, PLI and cHEC).
#[inline]
pub fn core_bytes(pli: u16) -> [u8; 4]
    ensures { result ≡ core_header pli }
{
    let header = (u32::from(pli) * (1 << 16) + u32::from(hec(pli))) ^ MASK;
    // In this order LLVM makes one exchange of the octets.
    header.swap_bytes().to_le_bytes()
}

/// The PLI of a core header as it was sent, or `None` where these octets are no core header.
#[inline]
pub fn read_core(octets: &[u8; 4]) -> Option<u16>
    ensures value { result ≡ head octets.now }
    ensures some { IfSome result (λ pli. IsPli pli × (core_header pli ≡ octets.now)) }
    ensures none { IfNone result ((pli : ℕ) → IsPli pli → core_header pli ≢ octets.now) }
{
    let header = u32::from_be_bytes(*octets) ^ MASK;
    let pli = (header >> 16) as u16;
    if is_core(pli, (header % (1 << 16)) as u16) {
        Some(pli)
    } else {
        None
    }
}

/// Whether a header may have this PLI, and this is its check.
#[inline]
fn is_core(pli: u16, check: u16) -> bool
    ensures { IsTrue result ↔ (IsPli pli × (check ≡ hec_of pli)) }
{
    (pli == 0 || pli >= 4) && hec_ok(pli, check)
}
