//! The GFP frames of a walk's client, as they are before scrambling, are written as a capture: each accepted
//! frame that the taken rows carry, with the row of its last octet, or a prefix of that if a write fails. No
//! turn is made here, and no frame is copied. Begin with `write_gfp`; `carried_law` says which frames these
//! are, and that their core headers are the stream's, but for B6 AB 31 E0.

ghost use Rattle.std.specs.Prelude.{◌≡◌, List, map, length, take, drop, Contains};
ghost use Rattle.law_model.specs.Common.{Piece, frames_by, stream_of, StreamRow, octets_of_rows, Extent, extents};
ghost use Rattle.text_captures.specs.capture_file.WrittenCapture.{RowFrame};
ghost use Rattle.text_captures.specs.capture_file.GfpInCapture.{with_pattern, gfp_octets};
ghost use Rattle.fate_walks.specs.walk_gfp.CarriedInRows.{carried_frames};

mod gfp_records;

pub use gfp_records::write_gfp;

/// The frames that rows carry are those whose pieces end by the place at which the rows end, in order and
/// each once; and the GFP frame of a frame has the core header that the stream has at the place of its piece,
/// but for B6 AB 31 E0.
pub fn carried_law()
    ensures frames { (pieces : List Piece) (rows : List StreamRow) →
        map (λ (own : RowFrame). own.frame) (carried_frames pieces rows)
        ≡ frames_by (length (octets_of_rows rows)) pieces }
    ensures header { (pieces : List Piece) (extent : Extent) →
        Contains (extents 0 pieces) extent →
        with_pattern (take 4 (gfp_octets extent.frame))
        ≡ take 4 (drop extent.from (stream_of pieces)) }
{}
