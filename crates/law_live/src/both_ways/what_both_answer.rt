//! What the answers of a pair tell of its two sessions.

ghost use Rattle.std.specs.Prelude.{◌≡◌, ℕ, List, ◌++◌};
ghost use Rattle.std.specs.List.{range_with_len};
ghost use Rattle.law_model.specs.Common.{steps_in};
ghost use Rattle.law_model.specs.declared.script_types.Config.{Config};
ghost use Rattle.law_model.specs.declared.script_types.Script.{Script};
ghost use Rattle.law_walk.specs.Common.{delivered_of, numbered, refusals_among, walk_plan};
ghost use Rattle.law_pair.specs.declared.pair_events.Way.{Way};
ghost use Rattle.law_pair.specs.Common.{IsPair, counts_on, pair_plan};
ghost use Rattle.law_live.specs.Common.{IsPairSaid, PairAgrees, PairSaying, Rises, Telling, answers_on, both_from};
ghost use Rattle.law_live.specs.Common.{config_on, frames_got, items_refused};
ghost use Rattle.law_live.specs.Common.{leg_on, live_of, pair_answers, pair_answers_from};
ghost use Rattle.law_live.specs.Common.{pair_answers_text, pair_counts, pair_times, said_on, steps_made};

/// More that is said adds answers behind those before. Of each way they tell the frames that its rows deliver, in
/// order and each once, each decision step once, and, where the pair agrees with what was said, just those items
/// that are refused, in order. The ticks that are told with them never fall, over both ways together.
pub fn both_answer_law()
    ensures more { (one other : Script) (said more : List PairSaying) →
        pair_answers one other (said ++ more)
        ≡ pair_answers one other said
        ++ pair_answers_from one other (pair_counts one other said) more }
    ensures text { (one other : Script) (said more : List PairSaying)
        (tells : Way → Telling) →
        pair_answers_text tells (pair_answers one other (said ++ more))
        ≡ pair_answers_text tells (pair_answers one other said)
        ++ pair_answers_text tells (pair_answers_from one other (pair_counts one other said) more) }
    ensures counts { (one other : Script) (said more : List PairSaying) →
        pair_counts one other (said ++ more)
        ≡ both_from (pair_plan one other) (pair_counts one other said) more }
    ensures got { (one other : Script) (said : List PairSaying) (way : Way) →
        frames_got (answers_on way (pair_answers one other said))
        ≡ delivered_of (leg_on one other way) (counts_on (pair_counts one other said) way).rows }
    ensures steps { (one other : Script) (said : List PairSaying) (way : Way) →
        steps_made (answers_on way (pair_answers one other said))
        ≡ range_with_len 0 (steps_in (counts_on (pair_counts one other said) way).ticks) }
    ensures times { (one other : Script) (said more : List PairSaying) → IsPair one other →
        Rises (pair_counts one other said).there.ticks
        (pair_counts one other (said ++ more)).there.ticks
        (pair_times (pair_answers_from one other (pair_counts one other said) more)) }
    ensures refused { (there back : Config) (said : List PairSaying) (one other : Script)
        (way : Way) → IsPair one other → IsPairSaid there back said →
        PairAgrees there back said one other →
        items_refused (answers_on way (pair_answers one other said))
        ≡ refusals_among (leg_on one other way)
        (numbered 0 (live_of (config_on there back way) (said_on way said)).items) }
{}
