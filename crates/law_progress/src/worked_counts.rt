//! Worked walks in numbers, computed.

ghost use Rattle.std.specs.Prelude.{◌≡◌, [], replicate, Some};
ghost use Rattle.law_model.specs.Common.{walked};
ghost use Rattle.law_model.specs.declared.walk_events.Event.TheVariants.{Accept, Tick, Carry, Back, Take};
ghost use Rattle.law_model.specs.declared.walk_events.StallCause.TheVariants.{NotDue, Held, TxFull, BackMissing};
ghost use Rattle.law_model.specs.declared.walk_events.StallCause.TheVariants.{RxFull, BackEmpty, Waiting};
ghost use Rattle.law_progress.specs.Progress.{IsPlan};
ghost use Rattle.law_progress.specs.WorkedPlans.{one_line, two_items, cause_after, one_carried, all_done};

/// Worked walks, computed: one line, its stalls, and a walk that drains.
pub fn worked_law()
    ensures plan { IsPlan (one_line 1 two_items) }
    ensures rx_full { cause_after (one_line 1 []) one_carried (Carry 0) ≡ Some (RxFull 0) }
    ensures back_missing { cause_after (one_line 1 []) one_carried Tick ≡ Some (BackMissing 0) }
    ensures back_empty { cause_after (one_line 1 []) one_carried Back ≡ Some BackEmpty }
    ensures tx_full { cause_after (one_line 2 []) (replicate 32 Tick) Tick ≡ Some (TxFull 0) }
    ensures waiting { cause_after (one_line 2 []) [] Take ≡ Some (Waiting 0) }
    ensures held { cause_after (one_line 1 two_items) [] Tick ≡ Some (Held 1) }
    ensures not_due { cause_after (one_line 1 two_items) [] Accept ≡ Some (NotDue 5) }
    ensures drained { walked (one_line 1 two_items) [] ≡ all_done }
{}
