//! Laws of a stream of frames with FCS with single bit errors: header correction reads each core header,
//! descrambling makes of one error two at most, the FCS finds it, and the frames that get through are just
//! those that none touches. There is no code here. Begin with `flip_law`, or with `place_law` if errors are
//! told by place.

ghost use Rattle.std.specs.Prelude.{◌==◌, slice_index_or, ◌≡◌, ◌≢◌, ◌↔◌, ◌<◌, ℕ, ◌+◌, ◌*◌, ◌≤◌, ◌++◌, Bool, false};
ghost use Rattle.std.specs.Prelude.{List, [], true, length, take, drop, replicate, All, Some, None};
ghost use Rattle.law_model.specs.Common.{core_header, IsPli, pli_of, count, IsFixed, descrambled, xors};
ghost use Rattle.gfp_model.specs.fcs_model.Flips.{flipped};
ghost use Rattle.std.specs.List.{fold, list_any};
ghost use Rattle.gfp_model.specs.declared.fcs_model.Flip.{Flip};
ghost use Rattle.gfp_noise.specs.flip_law.FlipPlaces.{at, LiesIn, IsRising, turned, flips_of};
ghost use Rattle.gfp_model.specs.fcs_model.NearHeader.{near, IsNear, check_of};
ghost use Rattle.check_crc32.specs.Crc32.{fcs_of};
ghost use Rattle.gfp_model.specs.fcs_model.Fcs.{fcs_header, fcs_type_fault, fcs_area, delivery, fcs_outcome, frame_in};
ghost use Rattle.gfp_noise.specs.flip_law.SingleFlip.{IsOneOrTwo};
ghost use Rattle.gfp_noise.specs.flip_law.FlippedStream.{worked_frames, one_flip, fcs_stream, IsFrame};
ghost use Rattle.gfp_noise.specs.flip_law.FlippedStream.{fcs_delivered, window, AreFew};
ghost use Rattle.gfp_noise.specs.flip_law.FlippedStream.{clear};

/// Four octets are read as a header exactly where they differ from it in at most one bit.
pub fn near_law()
    ensures flipped { (pli : ℕ) (flips : List Bool) → IsPli pli → length flips ≡ 32 →
        count flips ≤ 1 → near (flipped flips (core_header pli)) ≡ Some pli }
    ensures read { (octets : List ℕ) (pli : ℕ) → length octets ≡ 4 → All (λ o. o < 256) octets →
        (near octets ≡ Some pli) ↔ IsNear octets pli }
    ensures fixed { (octets : List ℕ) (pli : ℕ) → length octets ≡ 4 →
        All (λ o. o < 256) octets →
        (near octets ≡ Some pli)
        ↔ (IsPli pli × IsFixed (pli_of octets) (check_of octets) pli) }
    ensures once { (word check right other : ℕ) → IsFixed word check right →
        IsFixed word check other → other ≡ right }
{}

/// Descrambling is linear. Where there is no flip in an area and in the 43 area bits before it, there is none in the
/// descrambled area; where there is one, and the area has at least 43 bits, one bit of it is turned over, or two that
/// are 43 places apart.
pub fn window_law()
    ensures linear { (bits flips : List Bool) →
        descrambled (xors bits flips) ≡ xors (descrambled bits) (descrambled flips) }
    ensures none { (before area : List Bool) → count (window before area) ≡ 0 →
        drop (length before) (descrambled (before ++ area)) ≡ replicate (length area) false }
    ensures one { (before area : List Bool) → 43 ≤ length area →
        count (window before area) ≡ 1 →
        IsOneOrTwo (drop (length before) (descrambled (before ++ area))) }
{}

/// One flip in octets with their FCS behind them, or two that are 43 places apart, are found.
pub fn fcs_law()
    ensures { (frame : List ℕ) (first second : List Bool) → length first ≡ 8 * length frame →
        length second ≡ 32 → IsOneOrTwo (first ++ second) →
        flipped second (fcs_of frame) ≢ fcs_of (flipped first frame) }
{}

/// A frame comes through as it is sent, and with one bit of its descrambled area turned over, or two that are 43
/// places apart, it is dropped.
pub fn area_law()
    ensures header { (octets : List ℕ) → length octets ≡ 4 → All (λ o. o < 256) octets →
        (fcs_type_fault octets ≡ None) ↔ (octets ≡ fcs_header) }
    ensures delivered { (frame : List ℕ) → IsFrame frame →
        fcs_outcome true (fcs_area frame) ≡ delivery frame }
    ensures dropped { (frame : List ℕ) (flips : List Bool) → IsFrame frame →
        length flips ≡ 8 * (length frame + 8) → IsOneOrTwo flips →
        frame_in (fcs_outcome true (flipped flips (fcs_area frame))) ≡ [] }
{}

/// Where the first eight octets of the stream have no flip, each other core header has at most one, and each area
/// with the 43 area bits before it has at most one, the frames delivered are, in order and each once, exactly those
/// whose area and the 43 area bits before it have none.
pub fn flip_law()
    ensures { (frames : List (List ℕ)) (flips : List Bool) → All IsFrame frames →
        length flips ≡ 8 * length (fcs_stream frames) → take 64 flips ≡ replicate 64 false →
        AreFew [] (drop 64 flips) frames →
        fcs_delivered (flipped flips (fcs_stream frames)) ≡ clear [] (drop 64 flips) frames }
{}

/// The same where each flip is told by the place of an octet and of a bit in it. Where these rise strictly, a bit is
/// turned over exactly where there is a flip at its place.
pub fn place_law()
    ensures delivered { (frames : List (List ℕ)) (flips : List Flip) (all : List Bool) →
        All IsFrame frames → All (LiesIn (length (fcs_stream frames))) flips →
        all ≡ flips_of (length (fcs_stream frames)) flips → take 64 all ≡ replicate 64 false →
        AreFew [] (drop 64 all) frames →
        fcs_delivered (fold turned (fcs_stream frames) flips) ≡ clear [] (drop 64 all) frames }
    ensures places { (octets place least : ℕ) (flips : List Flip) → All (LiesIn octets) flips →
        IsRising least flips → slice_index_or (flips_of octets flips) place false
        ≡ list_any (λ flip. at flip == place) flips }
{}

/// Worked: of three frames of 64 zero octets, one flip in a core header stops none, one in an area stops that frame,
/// and one in the last bit of an area stops the next one too.
pub fn worked_law()
    ensures in_header { fcs_delivered (flipped (one_flip 8 0) (fcs_stream worked_frames))
        ≡ replicate 3 (replicate 64 0) }
    ensures in_area { fcs_delivered (flipped (one_flip 120 0) (fcs_stream worked_frames))
        ≡ replicate 2 (replicate 64 0) }
    ensures at_end { fcs_delivered (flipped (one_flip 159 7) (fcs_stream worked_frames))
        ≡ replicate 1 (replicate 64 0) }
{}
