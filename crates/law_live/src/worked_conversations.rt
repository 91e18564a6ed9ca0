//! Worked conversations, computed.

ghost use Rattle.std.specs.Prelude.{◌≡◌, [], ◌∷◌};
ghost use Rattle.law_model.specs.Common.{begin};
ghost use Rattle.law_model.specs.declared.script_types.EventLine.TheVariants.{Client, Operator, Round};
ghost use Rattle.law_live.specs.Common.{CanSayAll, counted, counts_from, events_by, live_from, rounds_from};
ghost use Rattle.law_live.specs.WorkedSayings.{cut_and_mended, delayed_plan, delayed_talk, dues_after, idle_plan};
ghost use Rattle.law_live.specs.WorkedSayings.{idle_talk, known_failures, least_plan, lines_with};
ghost use Rattle.law_live.specs.WorkedSayings.{one_cut, short_talk, three_ticks, two_lines, window, windows_after};

/// Worked conversations, computed. A cut and a mend in one tick leave no window, and a failure that isn't over
/// ends now; an item is due when it is said. At the least lag some rounds make no tick: 41 ticks take 43, and
/// 101 take 106. Behind a delay of five ticks five rows are still to come.
pub fn worked_law()
    ensures said { CanSayAll 60 (lines_with ([] ∷ [])) three_ticks }
    ensures one_cut { windows_after ([] ∷ []) one_cut ≡ (window 103 112 0 ∷ []) ∷ [] }
    ensures dues { dues_after ([] ∷ []) one_cut ≡ 0 ∷ 100 ∷ 103 ∷ 137 ∷ 138 ∷ [] }
    ensures cut_and_mended { windows_after ([] ∷ []) cut_and_mended ≡ (window 51 60 0 ∷ []) ∷ [] }
    ensures two_lines { windows_after known_failures two_lines
        ≡ (window 316 317 0 ∷ []) ∷ (window 300 310 2 ∷ window 310 316 0 ∷ []) ∷ [] }
    ensures passed { (live_from (lines_with known_failures) two_lines).passed ≡ 326 }
    ensures long { counted Round 1000001 ≡ Round 1000000 ∷ Round 1 ∷ [] }
    ensures events { events_by 43 (live_from (lines_with ([] ∷ [])) short_talk)
        ≡ Round 43 ∷ Client 1 ∷ Operator 1 ∷ [] }
    ensures none { events_by 0 (lines_with ([] ∷ [])) ≡ Client 1 ∷ Operator 1 ∷ [] }
    ensures rounds { rounds_from least_plan (begin least_plan) short_talk ≡ 43 }
    ensures ticks { (counts_from least_plan (begin least_plan) short_talk).ticks ≡ 41 }
    ensures rows { (counts_from least_plan (begin least_plan) short_talk).rows ≡ 41 }
    ensures idle_rounds { rounds_from idle_plan (begin idle_plan) idle_talk ≡ 106 }
    ensures idle_ticks { (counts_from idle_plan (begin idle_plan) idle_talk).ticks ≡ 101 }
    ensures delayed_ticks { (counts_from delayed_plan (begin delayed_plan) delayed_talk).ticks ≡ 106 }
    ensures delayed_rows { (counts_from delayed_plan (begin delayed_plan) delayed_talk).rows ≡ 101 }
{}
