//! The frames that a walk delivers, beside those that were accepted.

ghost use Rattle.std.specs.Prelude.{◌≡◌, ℕ, ◌+◌, ◌≤◌, List, ◌++◌, map, length, take, drop, Option};
ghost use Rattle.std.specs.List.{range_with_len};
ghost use Rattle.law_model.specs.Common.{Leg, IsSound, frames_by, StreamRow, deliver, row_at, Counts};
ghost use Rattle.law_model.specs.Common.{walked, longest_frame};
ghost use Rattle.law_model.specs.members.Damage.{carried};
ghost use Rattle.law_walk.specs.Walk.{CanWalk, IsWalked, popped_cells};
ghost use Rattle.law_walk.specs.DeliveredFrames.{delivered_of, IsReceived};
ghost use Rattle.law_walk.specs.Promise.{accepted_frames, session_pieces, place_after, HasNoFailure, drained};

/// The frames of the rows that were taken: what a sink makes of them by the cells that were popped is what
/// the rows of the session give, more rows add frames and change none of those before, and no sound leg
/// gives more than 7,488,000,000,000 frames, one for four octets of 128 lines of VC-4 in 100,000,000 ticks.
pub fn frames_law()
    ensures received { (leg : Leg) (s : Counts) (n : ℕ)
        (receive : Option (List ℕ) → StreamRow) → CanWalk leg → IsWalked leg s → IsReceived receive → n ≤ s.rows →
        deliver longest_frame (map (λ t. receive
        (row_at leg.config.options leg.config.size (popped_cells leg s.lines) t)) (range_with_len 0 n))
        ≡ delivered_of leg n }
    ensures few { (leg : Leg) (rows : ℕ) → IsSound leg → rows ≤ leg.config.ticks →
        length (delivered_of leg rows) ≤ 7488000000000 }
    ensures grows { (leg : Leg) (n more : ℕ) → delivered_of leg (n + more)
        ≡ delivered_of leg n
        ++ drop (length (delivered_of leg n)) (delivered_of leg (n + more)) }
{}

/// Without a failure no frame is lost, whatever lines are added and removed and whatever events are tried in
/// whatever order: the frames delivered are the accepted ones whose piece ends in the rows that were taken,
/// the first ones in item order; and after a drain all that the ticks carry.
pub fn delivery_law()
    ensures carried { (leg : Leg) (rows : ℕ) → IsSound leg → HasNoFailure leg →
        rows ≤ leg.config.ticks →
        delivered_of leg rows ≡ frames_by (place_after leg rows) (session_pieces leg) }
    ensures first { (leg : Leg) (rows : ℕ) → IsSound leg → HasNoFailure leg →
        rows ≤ leg.config.ticks → delivered_of leg rows
        ≡ take (length (delivered_of leg rows)) (accepted_frames leg) }
    ensures walked { (leg : Leg) (s : Counts) → IsSound leg → HasNoFailure leg →
        IsWalked leg s → delivered_of leg s.rows
        ≡ frames_by (place_after leg s.rows) (session_pieces leg) }
    ensures drained { (leg : Leg) (s : Counts) → IsSound leg → HasNoFailure leg →
        IsWalked leg s → delivered_of leg (drained leg s).rows
        ≡ frames_by (place_after leg leg.config.ticks) (session_pieces leg) }
{}
