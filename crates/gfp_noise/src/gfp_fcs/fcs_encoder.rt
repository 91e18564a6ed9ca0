//! The stream of frames with an FCS, frame by frame.
ghost use Rattle.std.specs.Prelude.{◌≡◌, ℕ, ◌+◌, ◌≤◌, List, [], ◌∷◌, ◌++◌, length, take};
ghost use Rattle.law_model.specs.Common.{longest_frame};
ghost use Rattle.gfp_model.specs.fcs_model.Fcs.{fcs_area};
ghost use Rattle.gfp_noise.specs.flip_law.FlippedStream.{fcs_stream};
ghost use Rattle.gfp_noise.specs.gfp_fcs.Encoder.{EncoderStands};

use gfp_headers::{core_bytes, type_bytes_fcs};
use gfp_scramble::Scrambler;
use std::marker::Model;

/// Writes frames with an FCS as they are on the stream, whose areas are scrambled as one list. The idles
/// before the first frame are the caller's.
#[derive(Clone, Copy, Debug)]
pub struct FcsEncoder {
    /// Of all areas so far.
    scrambler: Scrambler,
}

impl Model for FcsEncoder {
    ghost use Rattle.gfp_scramble.specs.Scrambler.{Scrambling};

    ghost Value = { Scrambling };

    ghost view = { λ encoder. encoder.scrambler };

    ghost inverse = { λ scrambling. record { scrambler = scrambling } };
}

impl FcsEncoder {
    /// An encoder that has written nothing.
    pub fn new() -> FcsEncoder
        ensures { EncoderStands result [] }
    {
        FcsEncoder {
            scrambler: Scrambler::new(),
        }
    }

    /// Writes the next frame, of 64 to 9,600 octets: its core header, and scrambled its type header, its
    /// octets and its FCS. Answers how many octets these are, which is twelve more than the frame has.
    pub fn frame(&mut self, f: &[u8], out: &mut [u8]) -> usize
        requires least { 64 ≤ length f.now }
        requires most { length f.now ≤ longest_frame }
        requires room { length f.now + 12 ≤ length out.old }
        ensures count { result ≡ length f.now + 12 }
        ensures stands { (frames : List (List ℕ)) → EncoderStands self.old frames →
            EncoderStands self.new (frames ++ f.now ∷ []) }
        ensures octets { (frames : List (List ℕ)) → EncoderStands self.old frames →
            fcs_stream (frames ++ f.now ∷ []) ≡ fcs_stream frames ++ take result out.new }
    {
        let size = f.len() + 8;
        let (head, behind) = out.split_at_mut(4);
        head.copy_from_slice(&core_bytes(size as u16));
        let (area, _) = behind.split_at_mut(size);
        put_area(f, area);
        self.scrambler.area(area);
        size + 4
    }
}

/// Puts the area of a frame together, as it is before scrambling.
fn put_area(f: &[u8], area: &mut [u8])
    requires { length area.old ≡ length f.now + 8 }
    ensures { area.new ≡ fcs_area f.now }
{
    let (head, behind) = area.split_at_mut(4);
    head.copy_from_slice(&type_bytes_fcs());
    let (octets, check) = behind.split_at_mut(f.len());
    octets.copy_from_slice(f);
    check.copy_from_slice(&check_crc32::fcs(f));
}
