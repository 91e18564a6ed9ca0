//! A client that keeps to a bucket: none of its frames is refused, none waits longer than a bound, and the backlog
//! has one too.

ghost use Rattle.std.specs.Prelude.{◌≡◌, ℕ, ◌+◌, ◌*◌, ◌<◌, ◌≤◌, slice_get, Some, None};
ghost use Rattle.law_model.specs.Common.{Leg, DueFrame, scenario_by};
ghost use Rattle.law_walk.specs.Common.{Numbered, IsOfferAt, refusal_at, place_after, session_of};
ghost use Rattle.law_service.specs.Bucket.{Bucket, KeepsTo, LiesIn, stream_at};
ghost use Rattle.law_service.specs.FrameEnds.{filled, Placed, placed_frames};

/// A client keeps to a bucket while some members at least carry payload: they carry its rate, and the queue has
/// room for its burst. Then none of its frames is refused; what waits and what is left of what was begun are at
/// most a burst and eight octets; and each frame lies in as many rows from its tick on as carry so much. What
/// fails and comes back meanwhile counts by the number of members alone.
pub fn bucket_law()
    ensures accepted { (bucket : Bucket) (leg : Leg) (from members count : ℕ) (item : Numbered)
        (offer : DueFrame) → KeepsTo bucket leg from members → IsOfferAt leg.items count item offer →
        from ≤ offer.due → offer.due < leg.config.ticks → refusal_at leg item ≡ None }
    ensures backlog { (bucket : Bucket) (leg : Leg) (from members t : ℕ) →
        KeepsTo bucket leg from members →
        from ≤ t → t < leg.config.ticks → filled (stream_at (scenario_by leg) (session_of leg) t)
        ≤ place_after leg t + (bucket.burst + 8) }
    ensures delay { (bucket : Bucket) (leg : Leg) (from members n rows : ℕ) (placed : Placed) →
        KeepsTo bucket leg from members → slice_get (placed_frames leg) n ≡ Some placed →
        from ≤ placed.due → bucket.burst + 8 ≤ leg.config.size * members * rows →
        placed.due + rows ≤ leg.config.ticks → LiesIn leg n placed.due (placed.due + rows) }
{}
