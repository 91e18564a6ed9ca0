//! The core header from which four octets differ in at most one bit.

ghost use Rattle.std.specs.Prelude.{◌≡◌, ◌-◌, ◌<◌, ◌⊎◌, ◌≤◌, ◌++◌, ◌∷◌, true, false, replicate, IfSome};
ghost use Rattle.gfp_model.specs.fcs_model.Flips.{flipped};
ghost use Rattle.gfp_model.specs.fcs_model.NearHeader.{near};

use gfp_headers::read_core;

/// The PLI of the core header that four octets are, or else from which they differ in one bit.
pub(crate) fn read_near(octets: &[u8; 4]) -> Option<u16>
    ensures value { result ≡ near octets.now }
    ensures some { IfSome result (λ pli. (pli ≡ 0) ⊎ (4 ≤ pli)) }
{
    if let Some(pli) = read_core(octets) {
        return Some(pli);
    }
    for place in 0..32u32 {
        if let Some(pli) = read_core(&turned(octets, place)) {
            return Some(pli);
        }
    }
    None
}

/// These octets with one bit turned over, which has its place from the last one.
fn turned(octets: &[u8; 4], place: u32) -> [u8; 4]
    requires { place < 32 }
    ensures { result ≡ flipped
        (replicate (31 - place) false ++ true ∷ replicate place false) octets.now }
{
    (u32::from_be_bytes(*octets) ^ (1 << place)).to_be_bytes()
}
