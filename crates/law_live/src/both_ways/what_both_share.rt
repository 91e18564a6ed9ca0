//! What comes later in either way changes nothing of what was answered.

ghost use Rattle.std.specs.Prelude.{◌≡◌, ℕ, ◌+◌, ◌*◌, ◌<◌, ◌≤◌, List};
ghost use Rattle.law_model.specs.Common.{scenario_by, steps_in, telling_at};
ghost use Rattle.law_model.specs.declared.script_types.Config.{Config};
ghost use Rattle.law_model.specs.declared.script_types.Script.{Script};
ghost use Rattle.law_walk.specs.Common.{cell_taken, said_packet, sent_at, table_in};
ghost use Rattle.law_pair.specs.declared.pair_events.Way.{Way};
ghost use Rattle.law_live.specs.Common.{ArePairs, PairSaying, both_passed, leg_on, pair_answers, pair_counts};
ghost use Rattle.law_live.specs.Common.{waiting_at};

/// Two pairs of scripts in which the same was said so far, whatever comes later in either way of each: their counts
/// are the same, and all answers; and of each way the containers and return cells so far, the tables, what is told to
/// the other way, the return packets, and how many frames wait. A return packet of a way needs containers of the other
/// way, and these are made: the decision step in frame 16 j + 8 needs none behind 16 j + 7.
pub fn both_later_law()
    ensures counts { (there back : Config) (said : List PairSaying) (one other a b : Script) →
        ArePairs there back said one other a b →
        pair_counts one other said ≡ pair_counts a b said }
    ensures answers { (there back : Config) (said : List PairSaying) (one other a b : Script) →
        ArePairs there back said one other a b →
        pair_answers one other said ≡ pair_answers a b said }
    ensures cells { (there back : Config) (said : List PairSaying) (one other a b : Script)
        (way : Way) (j : ℕ) → ArePairs there back said one other a b →
        j < steps_in (both_passed there said) →
        cell_taken (leg_on one other way) j ≡ cell_taken (leg_on a b way) j }
    ensures tables { (there back : Config) (said : List PairSaying) (one other a b : Script)
        (way : Way) (j : ℕ) → ArePairs there back said one other a b →
        j < steps_in (both_passed there said) →
        table_in (leg_on one other way) (16 * j + 9) ≡ table_in (leg_on a b way) (16 * j + 9) }
    ensures tells { (there back : Config) (said : List PairSaying) (one other a b : Script)
        (way : Way) (j : ℕ) → ArePairs there back said one other a b →
        j < steps_in (both_passed there said) →
        telling_at (scenario_by (leg_on one other way)) j
        ≡ telling_at (scenario_by (leg_on a b way)) j }
    ensures packets { (there back : Config) (said : List PairSaying) (one other a b : Script)
        (way : Way) (k : ℕ) → ArePairs there back said one other a b →
        16 * k + 24 ≤ both_passed there said →
        said_packet (leg_on one other way) k ≡ said_packet (leg_on a b way) k }
    ensures sent { (there back : Config) (said : List PairSaying) (one other a b : Script)
        (way : Way) (line t : ℕ) → ArePairs there back said one other a b →
        line < (leg_on one other way).config.lines → t < both_passed there said →
        sent_at (leg_on one other way) line t ≡ sent_at (leg_on a b way) line t }
    ensures waiting { (there back : Config) (said : List PairSaying) (one other a b : Script)
        (way : Way) (t : ℕ) → ArePairs there back said one other a b →
        t ≤ both_passed there said →
        waiting_at (leg_on one other way) t ≡ waiting_at (leg_on a b way) t }
{}
