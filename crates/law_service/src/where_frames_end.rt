//! Where an accepted frame ends on the stream is settled when it lands: behind all that was begun by then and the
//! accepted frames that wait.

ghost use Rattle.std.specs.Prelude.{◌≡◌, ℕ, ◌+◌, ◌<◌, ◌≤◌, List, map, length, slice_get, Some};
ghost use Rattle.law_model.specs.Common.{Extent, client, size_of, Leg, IsSound, size};
ghost use Rattle.law_walk.specs.Common.{accepted_frames, session_extents, session_pieces, place_after};
ghost use Rattle.law_service.specs.FrameEnds.{Placed, placed_frames};

/// Where an accepted frame ends is settled when it lands: behind all that was begun by then and the accepted
/// frames that wait. So the frames on the stream have the places that were told as they landed, in item
/// order; none begins before its tick; and one that isn't begun by the end would end behind all pieces. A
/// frame takes eight octets more than it has.
pub fn place_law()
    ensures frame { (frame : List ℕ) → size_of (client frame) ≡ length frame + 8 }
    ensures accepted { (leg : Leg) → IsSound leg →
        map (λ (placed : Placed). placed.frame) (placed_frames leg) ≡ accepted_frames leg }
    ensures settled { (leg : Leg) (n : ℕ) (placed : Placed) (extent : Extent) →
        slice_get (placed_frames leg) n ≡ Some placed → slice_get (session_extents leg) n ≡ Some extent →
        (extent.frame ≡ placed.frame) × (extent.to ≡ placed.to) }
    ensures begins { (leg : Leg) (n : ℕ) (placed : Placed) (extent : Extent) →
        slice_get (placed_frames leg) n ≡ Some placed → slice_get (session_extents leg) n ≡ Some extent →
        place_after leg placed.due ≤ extent.from }
    ensures waits { (leg : Leg) (n : ℕ) (placed : Placed) →
        slice_get (placed_frames leg) n ≡ Some placed →
        length (session_extents leg) ≤ n → size (session_pieces leg) < placed.to }
{}
