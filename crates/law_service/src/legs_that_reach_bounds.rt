//! Legs that meet what the laws of place, bucket, twins and clock ask for, and that reach their bounds.

ghost use Rattle.std.specs.Prelude.{◌≡◌, [], ◌∷◌, map};
ghost use Rattle.law_model.specs.Common.{IsSound};
ghost use Rattle.law_walk.specs.Common.{session_extents, place_after, failing_leg};
ghost use Rattle.fate_engine.specs.Common.{sides};
ghost use Rattle.law_service.specs.Bucket.{KeepsTo};
ghost use Rattle.law_service.specs.ClockedWalk.{HasNoSlip, LagsEnough, timed_leg};
ghost use Rattle.law_service.specs.Twins.{with_delays};
ghost use Rattle.law_service.specs.WorkedServiceLegs.{queued_leg, told_ends, full_bucket, full_leg, fills};

/// Legs that meet what these laws ask for.
pub fn met_law()
    ensures queued { IsSound queued_leg }
    ensures full { IsSound full_leg }
    ensures keeps { KeepsTo full_bucket full_leg 40 1 }
    ensures twin { IsSound (with_delays failing_leg (15 ∷ []) 7) }
    ensures timed { IsSound timed_leg }
    ensures even { HasNoSlip timed_leg }
    ensures lags { LagsEnough timed_leg }
{}

/// These legs, computed. In one three frames wait behind the first two idles; a fourth comes behind them; and
/// the fifth behind the idles that fill the first row that carries payload. In the other a client fills its
/// bucket: with each of two ticks a burst and eight octets are left behind the place that the rows have
/// reached, and the last frame of each fills the second row from its tick on to its end.
pub fn worked_law()
    ensures told { told_ends queued_leg
        ≡ (0, 80) ∷ (0, 153) ∷ (0, 227) ∷ (40, 299) ∷ (41, 837) ∷ [] }
    ensures sides { sides (session_extents queued_leg)
        ≡ (8, 80) ∷ (80, 153) ∷ (153, 227) ∷ (227, 299) ∷ (759, 837) ∷ [] }
    ensures fills { fills full_leg (40 ∷ 41 ∷ []) ≡ (0, 1512) ∷ (756, 2268) ∷ [] }
    ensures ends { sides (session_extents full_leg) ≡ (8, 760) ∷ (760, 1512) ∷ (1512, 2268) ∷ [] }
    ensures rows { map (place_after full_leg) (41 ∷ 42 ∷ 43 ∷ []) ≡ 756 ∷ 1512 ∷ 2268 ∷ [] }
{}
