//! The report of a walk, and that it is one and the same once all rows are taken.

ghost use Rattle.std.specs.Prelude.{◌≡◌, ◌+◌, ◌<◌, ◌≤◌, length};
ghost use Rattle.law_model.specs.Common.{Leg, IsSound, DueCommand, DueFrame, Counts, in_inbox};
ghost use Rattle.law_progress.specs.Progress.{SomeProgress};
ghost use Rattle.law_walk.specs.Walk.{walk_plan, CanWalk, IsWalked};
ghost use Rattle.law_walk.specs.WalkRings.{inbox};
ghost use Rattle.law_walk.specs.WalkReport.{report_of, final_report};
ghost use Rattle.law_walk.specs.Promise.{numbered, accepted_frames, drained};
ghost use Rattle.law_walk.specs.LandedOfLeg.{Numbered, landed_items, IsOfferAt, IsOrderAt, refusal_at, refused_by};
ghost use Rattle.law_walk.specs.LandedOfLeg.{refusals_of, IsPlaced, totals_of, with_frame_told, with_command_told};

/// What an item that lands adds to the refusals and the totals.
pub fn report_law()
    ensures frame { (leg : Leg) (s : Counts) (item : Numbered) (offer : DueFrame) →
        IsOfferAt leg.items s.frames item offer →
        IsPlaced item.number (refused_by item.number (refusal_at leg item))
        (refusals_of leg s) (refusals_of leg (record s { frames = s.frames + 1 })) }
    ensures command { (leg : Leg) (s : Counts) (item : Numbered) (order : DueCommand) →
        IsOrderAt leg.items s.commands item order →
        IsPlaced item.number (refused_by item.number (refusal_at leg item))
        (refusals_of leg s) (refusals_of leg (record s { commands = s.commands + 1 })) }
    ensures frame_totals { (leg : Leg) (s : Counts) (item : Numbered) (offer : DueFrame) →
        IsOfferAt leg.items s.frames item offer →
        totals_of leg (record s { frames = s.frames + 1 })
        ≡ with_frame_told (refusal_at leg item) (totals_of leg s) }
    ensures command_totals { (leg : Leg) (s : Counts) (item : Numbered) (order : DueCommand) →
        IsOrderAt leg.items s.commands item order →
        totals_of leg (record s { commands = s.commands + 1 })
        ≡ with_command_told (refusal_at leg item) (totals_of leg s) }
{}

/// A walk is never stuck, and takes no row before its tick: where rows are left, some event moves or a Take
/// pops a cell; the inbox never holds more return cells than the lag; and rounds end with all rows taken,
/// within a bound. Then all ticks are made and all items have landed, and the report is one and the same,
/// whatever was tried before.
pub fn drain_law()
    ensures moves { (leg : Leg) (s : Counts) → CanWalk leg → IsWalked leg s →
        s.rows < leg.config.ticks → SomeProgress (walk_plan leg) s }
    ensures inbox { (leg : Leg) (s : Counts) → CanWalk leg → IsWalked leg s →
        in_inbox (walk_plan leg) s ≤ leg.config.lag }
    ensures within { (leg : Leg) (s : Counts) → CanWalk leg → IsWalked leg s →
        (s.rows ≤ s.ticks) × (s.ticks ≤ leg.config.ticks) }
    ensures drained { (leg : Leg) (s : Counts) → CanWalk leg → IsWalked leg s →
        (drained leg s).rows ≡ leg.config.ticks }
    ensures ticks { (leg : Leg) (s : Counts) → IsSound leg → IsWalked leg s →
        (drained leg s).ticks ≡ leg.config.ticks }
    ensures landed { (leg : Leg) (s : Counts) → IsSound leg → IsWalked leg s →
        landed_items leg (drained leg s) ≡ numbered 0 leg.items }
    ensures accepted { (leg : Leg) (s : Counts) → IsSound leg → IsWalked leg s →
        (totals_of leg (drained leg s)).frames ≡ length (accepted_frames leg) }
    ensures report { (leg : Leg) (s : Counts) → IsSound leg → IsWalked leg s →
        report_of leg (drained leg s) ≡ final_report leg }
{}
