//! The stream of frames, and its bits that are turned over.
ghost use Rattle.std.specs.Prelude.{◌≡◌, ℕ, List, [], ◌∷◌, ◌++◌, length, All, IfOk, OnOk, fold};
ghost use Rattle.gfp_noise.specs.flip_law.FlipPlaces.{turned, LiesIn};
ghost use Rattle.gfp_noise.specs.flip_law.FlippedStream.{fcs_stream, IsFrame};
ghost use Rattle.gfp_noise.specs.gfp_fcs.Encoder.{EncoderStands};

use crate::gfp_fcs::FcsEncoder;
use gfp_headers::core_bytes;
use gfp_model::fcs_model::Flip;
use law_model::Octets;
use std::alloc::{AllocError, Global};

/// How many octets a frame has on the stream at most.
const PIECE_ROOM: usize = 9_612;

/// Begins a stream with two idles.
#[tactic(auto, using(crate::proofs::FlippedFcsStreamLaws::idles))]
fn put_idles(stream: &mut Vec<u8>) -> Result<(), AllocError>
    requires { stream.old.items ≡ [] }
    ensures { OnOk result (stream.new.items ≡ fcs_stream []) }
{
    let idle = core_bytes(0);
    stream.extend_from_slice(&idle)?;
    stream.extend_from_slice(&idle)?;
    Ok(())
}

/// Adds a frame to a stream.
fn put_frame(encoder: &mut FcsEncoder, frame: &[u8], stream: &mut Vec<u8>) -> Result<(), AllocError>
    requires { IsFrame frame.now }
    ensures stands { (frames : List (List ℕ)) → EncoderStands encoder.old frames →
        EncoderStands encoder.new (frames ++ frame.now ∷ []) }
    ensures octets { (frames : List (List ℕ)) → EncoderStands encoder.old frames →
        stream.old.items ≡ fcs_stream frames →
        OnOk result (stream.new.items ≡ fcs_stream (frames ++ frame.now ∷ [])) }
{
    let mut piece = [0u8; PIECE_ROOM];
    let end = encoder.frame(frame, &mut piece);
    stream.extend_from_slice(&piece[..end])?;
    Ok(())
}

/// The stream of frames.
pub(super) fn stream_of(alloc: Global, frames: &[Octets]) -> Result<Vec<u8>, AllocError>
    requires { All IsFrame frames.now }
    ensures { IfOk result (λ stream. stream.items ≡ fcs_stream frames.now) }
{
    let mut stream = Vec::new(alloc);
    put_idles(&mut stream)?;
    let mut encoder = FcsEncoder::new();
    for frame in frames {
        put_frame(&mut encoder, frame.0.as_slice(), &mut stream)?;
    }
    Ok(stream)
}

/// Turns over one bit.
fn turn(stream: &mut [u8], flip: Flip)
    requires { LiesIn (length stream.old) flip }
    ensures { stream.new ≡ turned stream.old flip }
{
    let place = flip.place as usize;
    stream[place] ^= 1 << (7 - flip.bit);
}

/// Turns over bits, one after another.
pub(super) fn turn_all(stream: &mut [u8], flips: &[Flip])
    requires { All (LiesIn (length stream.old)) flips.now }
    ensures { stream.new ≡ fold turned stream.old flips.now }
{
    for flip in flips {
        turn(stream, *flip);
    }
}
