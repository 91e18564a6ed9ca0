//! Worked pairs, computed.

ghost use Rattle.std.specs.Prelude.{◌≡◌, Some, [], ◌∷◌, take};
ghost use Rattle.law_model.specs.declared.walk_events.StallCause.TheVariants.{NotDue, Held, BackMissing};
ghost use Rattle.law_pair.specs.declared.pair_events.PairEvent.TheVariants.{Item, Tick};
ghost use Rattle.law_pair.specs.declared.pair_events.Way.TheVariants.{There, Back};
ghost use Rattle.law_progress.specs.WorkedPlans.{two_items};
ghost use Rattle.law_pair.specs.WorkedPairCounts.{two_ways, pair_cause, all_ticked, there_taken, drained_from};
ghost use Rattle.law_pair.specs.WorkedPairCounts.{both_done};
ghost use Rattle.law_walk.specs.Common.{delivered_of};
ghost use Rattle.law_pair.specs.WorkedPairScripts.{worked_there, worked_back, failing_back, first_tells, one_frame};
ghost use Rattle.law_pair.specs.Pair.{IsPair, way_config, way_tells, way_of};

/// Worked pairs, computed: a return packet of the way there is lost where no line of the way back has the
/// packet that carries it; what the first packets tell; and a frame that is delivered there.
pub fn worked_law()
    ensures pair { IsPair worked_there worked_back }
    ensures failing { IsPair worked_there failing_back }
    ensures none_lost { (way_config worked_there worked_back).lost ≡ [] }
    ensures lost { (way_config worked_there failing_back).lost ≡ (0, 1) ∷ [] }
    ensures tells { take 2 (way_tells worked_there worked_back) ≡ first_tells }
    ensures delivered { delivered_of (way_of worked_there worked_back) 57 ≡ one_frame }
{}

/// Worked pairs in numbers, computed. A tick stalls for the way there first: a return packet of each way has
/// to be said before the packet is begun that carries it. A command that is due lands before a frame that
/// isn't, though it is the later item. And a pair that drains.
pub fn counts_law()
    ensures missing_there { pair_cause (two_ways [] []) all_ticked Tick
        ≡ Some (There, BackMissing 0) }
    ensures missing_back { pair_cause (two_ways [] []) there_taken Tick
        ≡ Some (Back, BackMissing 0) }
    ensures held { pair_cause (two_ways [] two_items) [] Tick ≡ Some (Back, Held 1) }
    ensures not_due { pair_cause (two_ways two_items []) (Item There ∷ []) (Item There)
        ≡ Some (There, NotDue 5) }
    ensures drained { drained_from (two_ways two_items two_items) ≡ both_done }
{}
