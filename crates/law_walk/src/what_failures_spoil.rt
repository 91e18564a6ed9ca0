//! Which rows are whole in spite of failures, and which frames are lost with the others.

ghost use Rattle.std.specs.Prelude.{◌≡◌, ◌↔◌, ℕ, suc, true, false, ◌+◌, ◌<◌, ◌≤◌, List, [], ◌++◌, map, length};
ghost use Rattle.std.specs.Prelude.{slice_index_or, All};
ghost use Rattle.law_model.specs.Common.{Leg, IsSound, DueFrame, offers_of, scenario_by, frames_by, segments};
ghost use Rattle.law_model.specs.Common.{Extent, Lost, is_frame_lost, IsPlaceOfPiece, frames_kept, is_whole_row};
ghost use Rattle.law_model.specs.Common.{Counts, lock_of, walked};
ghost use Rattle.law_model.specs.declared.window_types.Window.{Window};
ghost use Rattle.law_model.specs.members.Damage.{carried};
ghost use Rattle.law_session.specs.ReturnedCells.{AreWhole};
ghost use Rattle.law_walk.specs.Walk.{session_of, IsWalked};
ghost use Rattle.law_walk.specs.DeliveredFrames.{session_rows, delivered_of};
ghost use Rattle.law_walk.specs.Promise.{accepted_frames, session_pieces, session_extents, session_waiting};
ghost use Rattle.law_walk.specs.Promise.{place_after, IsClear, FailsAlone, row_from, AreWholeBefore};
ghost use Rattle.law_walk.specs.Promise.{ConfirmsTrue};

/// Which rows a failure leaves whole; and while it has spoiled none, no frame is lost: just those are
/// delivered whose last octet the rows carry.
pub fn clear_law()
    ensures clear { (windows : List Window) (from end : ℕ) → IsClear windows from end →
        AreWhole (carried windows) from end }
    ensures whole { (leg : Leg) (t : ℕ) → 0 < length leg.config.windows →
        ((line : ℕ) → line < length leg.config.windows →
        IsClear (slice_index_or leg.config.windows line []) (row_from t) (t + 1)) →
        is_whole_row (scenario_by leg) (session_of leg) t ≡ true }
    ensures starts { (leg : Leg) (rows : ℕ) → AreWholeBefore leg rows →
        ConfirmsTrue leg rows }
    ensures before { (leg : Leg) (rows : ℕ) → IsSound leg → rows ≤ leg.config.ticks →
        AreWholeBefore leg rows →
        delivered_of leg rows ≡ frames_by (place_after leg rows) (session_pieces leg) }
{}

/// With `sink infers` a failure of one line alone costs little. Where the other lines have no failure from the
/// packet on that governs row t, the line has none from the multiframe of container t - 2 on, and no change was
/// made since a packet of the line could be read, the row is whole. So a failure that stands alone spoils no row
/// from 17 after its end on.
pub fn near_law()
    ensures near { (leg : Leg) (line t : ℕ) → IsSound leg → leg.config.options.infers ≡ true →
        24 ≤ t →
        FailsAlone leg line t → IsClear (slice_index_or leg.config.windows line []) (lock_of t) (t + 1) →
        is_whole_row (scenario_by leg) (session_of leg) t ≡ true }
    ensures behind { (leg : Leg) (line end t : ℕ) → IsSound leg →
        leg.config.options.infers ≡ true → 24 ≤ t →
        FailsAlone leg line t → IsClear (slice_index_or leg.config.windows line []) end (t + 1) → end + 17 ≤ t →
        is_whole_row (scenario_by leg) (session_of leg) t ≡ true }
{}

/// With failures: where each place that is confirmed first after a break is that of a piece, the frames
/// delivered are those of the pieces that the taken rows carry whole and that aren't lost, in order and each
/// once; a frame is lost in the four ways alone. The frames of the pieces, and then those that still wait,
/// are the accepted frames of the leg in item order.
pub fn failure_law()
    ensures kept { (leg : Leg) (rows : ℕ) → IsSound leg → rows ≤ leg.config.ticks →
        ConfirmsTrue leg rows →
        delivered_of leg rows ≡ frames_kept (session_pieces leg) (session_rows leg rows) }
    ensures walked { (leg : Leg) (s : Counts) → IsSound leg → IsWalked leg s →
        ConfirmsTrue leg s.rows → delivered_of leg s.rows
        ≡ frames_kept (session_pieces leg) (session_rows leg s.rows) }
    ensures accepted { (leg : Leg) → IsSound leg →
        map (λ (extent : Extent). extent.frame) (session_extents leg) ++ session_waiting leg
        ≡ accepted_frames leg }
    ensures ways { (leg : Leg) (rows : ℕ) → All (λ (frame : Extent).
        (is_frame_lost (segments (session_rows leg rows)) (session_extents leg) frame ≡ true)
        ↔ Lost (segments (session_rows leg rows)) (session_extents leg) frame)
        (session_extents leg) }
{}

/// When what is confirmed first after each break is sure to be the place of a piece: where each row that
/// isn't whole ends at such a place; so where no frame has come before the last row that isn't whole has
/// ended, since the stream has only idles there.
pub fn start_law()
    ensures aligned { (leg : Leg) (rows : ℕ) → IsSound leg →
        rows ≤ leg.config.ticks → ((t : ℕ) → t < rows →
        is_whole_row (scenario_by leg) (session_of leg) t ≡ false →
        IsPlaceOfPiece (session_pieces leg) (place_after leg (suc t))) →
        ConfirmsTrue leg rows }
    ensures quiet { (leg : Leg) (rows from : ℕ) → IsSound leg →
        rows ≤ leg.config.ticks → from ≤ leg.config.ticks →
        All (λ (offer : DueFrame). from ≤ offer.due) (offers_of leg.items) →
        ((t : ℕ) → from ≤ t → t < rows →
        is_whole_row (scenario_by leg) (session_of leg) t ≡ true) →
        ConfirmsTrue leg rows }
{}
