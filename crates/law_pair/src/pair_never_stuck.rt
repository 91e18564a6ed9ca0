//! A pair in numbers is never stuck, and goes in each way as a walk.

ghost use Rattle.std.specs.Prelude.{◌≡◌, ℕ, ◌+◌, ◌<◌, ◌≤◌, true, false, List, Some, None, ◌-◌, ◌*◌, ◌/◌, ◌%◌};
ghost use Rattle.law_model.specs.Common.{Told, used_in};
ghost use Rattle.law_model.specs.declared.script_types.Script.{Script};
ghost use Rattle.law_model.specs.declared.walk_events.StallCause.{StallCause};
ghost use Rattle.law_model.specs.session.Scenario.{packets_in};
ghost use Rattle.law_progress.specs.Progress.{IsReached};
ghost use Rattle.law_pair.specs.declared.pair_events.Way.{Way};
ghost use Rattle.law_pair.specs.declared.pair_events.PairEvent.{PairEvent};
ghost use Rattle.law_pair.specs.declared.pair_events.PairEvent.TheVariants.{Tick};
ghost use Rattle.law_pair.specs.WorkedPairCounts.{there_taken};
ghost use Rattle.law_pair.specs.PairCounts.{PairPlan, PairCounts, plan_on, counts_on, pair_step, pair_drain};
ghost use Rattle.law_pair.specs.PairCounts.{pair_bound, pair_begin, pair_run, pair_round, is_over};
ghost use Rattle.law_pair.specs.PairNeverStuck.{IsPairPlan, IsPairReached, SomePairProgress, IsOpen, IsStill};
ghost use Rattle.law_walk.specs.Common.{IsWalked, delivered_of, report_of, final_report};
ghost use Rattle.law_pair.specs.PairWalk.{pair_plan, pair_drained, IsPairWalked};
ghost use Rattle.law_pair.specs.Pair.{IsPair, way_telling, way_of};

/// A pair in numbers, where delays, slips and lag fit the rings, and after any list of its events: what it
/// did in each way a walk of that way can do, and each return packet that is ended has come; both ways have
/// made as many ticks; a tick that begins a packet tells a return packet that was said, and no more of these
/// wait to be told than the lag; where rows are left in some way, some event moves, or a Take pops a cell;
/// and rounds end with all rows of both ways taken, within a bound, so that a round that is made before
/// changes nothing of that. A stalled event changes nothing, but that a Take keeps the cells which it popped.
pub fn pair_law()
    ensures begins { (pair : PairPlan) → IsPairReached pair (pair_begin pair) }
    ensures steps { (pair : PairPlan) (s : PairCounts) (event : PairEvent) →
        IsPairReached pair s → IsPairReached pair (pair_step pair s event).counts }
    ensures walks { (pair : PairPlan) (s : PairCounts) (way : Way) → IsPairPlan pair →
        IsPairReached pair s → IsReached (plan_on pair way) (counts_on s way) }
    ensures backs { (pair : PairPlan) (s : PairCounts) (way : Way) → IsPairPlan pair →
        IsPairReached pair s → (counts_on s way).backs ≡ packets_in (counts_on s way).rows }
    ensures together { (pair : PairPlan) (s : PairCounts) → IsPairPlan pair →
        IsPairReached pair s → s.there.ticks ≡ s.back.ticks }
    ensures told { (pair : PairPlan) (s : PairCounts) (way : Way) →
        (pair_step pair s Tick).cause ≡ None → (counts_on s way).ticks % 16 ≡ 8 →
        pair.lag ≤ (counts_on s way).ticks / 16 →
        16 * ((counts_on s way).ticks / 16 - pair.lag) + 23 < (counts_on s way).rows }
    ensures waits { (pair : PairPlan) (s : PairCounts) (way : Way) → IsPairPlan pair →
        IsPairReached pair s → packets_in (counts_on s way).rows
        - used_in pair.lag (counts_on s way).ticks ≤ pair.lag }
    ensures moves { (pair : PairPlan) (s : PairCounts) → IsPairPlan pair →
        IsPairReached pair s → IsOpen pair s → SomePairProgress pair s }
    ensures ends { (pair : PairPlan) (s : PairCounts) (way : Way) → IsPairPlan pair →
        IsPairReached pair s →
        (counts_on (pair_drain (pair_bound pair) pair s) way).rows ≡ (plan_on pair way).ticks }
    ensures stalls { (pair : PairPlan) (s : PairCounts) (event : PairEvent)
        (cause : Way × StallCause) → (pair_step pair s event).cause ≡ Some cause →
        IsStill pair s event }
    ensures turns { (pair : PairPlan) (s : PairCounts) → IsPairPlan pair →
        IsPairReached pair s → is_over pair s ≡ false →
        pair_drain (pair_bound pair) pair (pair_run pair s (pair_round pair))
        ≡ pair_drain (pair_bound pair) pair s }
    ensures stops { (pair : PairPlan) (s : PairCounts) (k : ℕ) → is_over pair s ≡ true →
        pair_drain k pair s ≡ s }
    ensures drains { (pair : PairPlan) (s : PairCounts) (k : ℕ) → IsPairReached pair s →
        IsPairReached pair (pair_drain k pair s) }
{}

/// The walk of a pair of scripts, whatever events were tried in whatever order: each way walks as a session
/// with twice the lag; after a drain all its rows are taken, and its report is one and the same; and what it
/// delivers by its rows and what its report tells doesn't depend on what its packets tell. So what is proved
/// of the walks of a leg holds for each way.
pub fn walk_law()
    ensures plan { (there back : Script) → IsPair there back → IsPairPlan (pair_plan there back) }
    ensures there { (there back : Script) (s : PairCounts) → IsPair there back →
        IsPairWalked there back s → IsWalked (way_of there back) s.there }
    ensures back { (there back : Script) (s : PairCounts) → IsPair there back →
        IsPairWalked there back s → IsWalked (way_of back there) s.back }
    ensures there_taken { (there back : Script) (s : PairCounts) → IsPair there back →
        IsPairWalked there back s →
        (pair_drained there back s).there.rows ≡ there.config.ticks }
    ensures back_taken { (there back : Script) (s : PairCounts) → IsPair there back →
        IsPairWalked there back s →
        (pair_drained there back s).back.rows ≡ back.config.ticks }
    ensures there_report { (there back : Script) (s : PairCounts) → IsPair there back →
        IsPairWalked there back s → report_of (way_of there back) (pair_drained there back s).there
        ≡ final_report (way_of there back) }
    ensures back_report { (there back : Script) (s : PairCounts) → IsPair there back →
        IsPairWalked there back s → report_of (way_of back there) (pair_drained there back s).back
        ≡ final_report (way_of back there) }
    ensures delivered { (script other : Script) (tells : List Told) (rows : ℕ) →
        delivered_of (way_telling script other tells) rows
        ≡ delivered_of (way_of script other) rows }
    ensures told { (script other : Script) (tells : List Told) →
        final_report (way_telling script other tells) ≡ final_report (way_of script other) }
{}
