//! Worked conversations with both ways, computed.

ghost use Rattle.std.specs.Prelude.{◌≡◌, [], ◌∷◌, ◌++◌, Some, codes};
ghost use Rattle.member_cells.specs.declared.containers_and_cells.BackCell.TheVariants.{Lost};
ghost use Rattle.law_pair.specs.declared.pair_events.Way.TheVariants.{There, Back};
ghost use Rattle.law_pair.specs.WorkedPairCounts.{two_ways};
ghost use Rattle.law_live.specs.Common.{both_pass, step_made, way_told};
ghost use Rattle.law_live.specs.WorkedSayings.{window};
ghost use Rattle.law_live.specs.WorkedPairSayings.{answers_each, cell_each, cut_back, cut_for_a_tick, dues_each};
ghost use Rattle.law_live.specs.WorkedPairSayings.{frames_and_queues, lost_each, nine_passed, plain_text};
ghost use Rattle.law_live.specs.WorkedPairSayings.{script_each, three_refusals, three_refused};
ghost use Rattle.law_live.specs.WorkedPairSayings.{ticks_after, turns_of};

/// Worked conversations with both ways, computed. A cut back is a window back alone; and it costs There return packets
/// 1 to 3, since packets 2 to 4 of Back can't be read: so the decision step 3 of There finds none. A cut of one tick
/// costs two of them. Items are numbered by way. The decision steps of both ways stand before the queues, There first,
/// and how many ticks have passed stands last. At the least lag each round makes a tick.
pub fn both_worked_law()
    ensures windows { (script_each 100 Back cut_back).config.windows ≡ (window 40 70 0 ∷ []) ∷ [] }
    ensures none { (script_each 100 There cut_back).config.windows ≡ [] ∷ [] }
    ensures lost { lost_each 100 There cut_back ≡ (1, 4) ∷ [] }
    ensures kept { lost_each 100 Back cut_back ≡ [] }
    ensures found { cell_each 100 There cut_back 3 ≡ Some Lost }
    ensures tick { (script_each 200 Back cut_for_a_tick).config.windows
        ≡ (window 100 101 0 ∷ []) ∷ [] }
    ensures two { lost_each 200 There cut_for_a_tick ≡ (4, 6) ∷ [] }
    ensures dues { dues_each 200 There cut_for_a_tick ≡ 0 ∷ 101 ∷ [] }
    ensures refused { answers_each 9 three_refused ≡ three_refusals }
    ensures order { answers_each 9 (both_pass 9 ∷ [])
        ≡ way_told There (step_made 0) ∷ way_told Back (step_made 0) ∷ nine_passed }
    ensures refused_text { plain_text (three_refusals ++ nine_passed)
        ≡ codes "refused back 0 not in\n"
        ++ codes "refused there 0 length 1\n" ++ codes "refused back 1 unknown\n"
        ++ codes "now 9\n" }
    ensures texts { plain_text frames_and_queues ≡ codes "got there 57 aa\n"
        ++ codes "got back 57 bb\n" ++ codes "queue there 1\n" ++ codes "queue back 1\n"
        ++ codes "now 57\n" }
    ensures turns { turns_of 41 (two_ways [] []) ≡ 41 }
    ensures rows { (ticks_after (two_ways [] []) (both_pass 41 ∷ [])).back.rows ≡ 41 }
{}
