//! Client frames with a frame check sequence (FCS) after them, as a stream with noise has them: the FCS as a
//! number, the encoder that writes their stream, and the receiver, which corrects core headers with one wrong
//! bit. What a frame is on the stream, and what comes of one, stands in gfp_model's `specs/fcs_model/Fcs.antt`;
//! which frames get through in spite of bit errors, in `flip_law`. Begin with `FcsEncoder` and `FcsDelineator`,
//! which takes a stream as one first segment.

ghost use Rattle.std.specs.Prelude.{◌≡◌, ◌<◌, ℕ, List, ◌∷◌, ◌++◌, length, replicate, true, false};
ghost use Rattle.gfp_model.specs.fcs_model.Fcs.{fcs_header, fcs_outcome, dropping};

mod fcs_delineator;
mod fcs_encoder;
mod payload_fcs;

pub use fcs_delineator::{FcsDelineator, FcsStep};
pub use fcs_encoder::FcsEncoder;
pub use gfp_model::fcs_model::FcsWhy;
pub use law_model::TypeFault;

/// Worked: what each cause tells of an area.
pub fn cause_law()
    ensures unsettled { (area : List ℕ) → fcs_outcome false area ≡ dropping FcsWhy.Unsettled }
    ensures too_long { (area : List ℕ) → 9608 < length area →
        fcs_outcome true area ≡ dropping (FcsWhy.TooLong (length area)) }
    ensures header { fcs_outcome true (0x10 ∷ 0x01 ∷ replicate 10 0)
        ≡ dropping (FcsWhy.Header (TypeFault.Check 0 0x1352)) }
    ensures short { fcs_outcome true (fcs_header ++ replicate 7 0) ≡ dropping (FcsWhy.Short 11) }
    ensures fcs { fcs_outcome true (fcs_header ++ replicate 8 0)
        ≡ dropping (FcsWhy.Fcs 0 0x38fb2284) }
{}
