//! What the answers of a conversation tell of its session.

ghost use Rattle.std.specs.Prelude.{◌≡◌, List, ◌++◌};
ghost use Rattle.std.specs.List.{range_with_len};
ghost use Rattle.law_model.specs.Common.{IsSound, Leg, steps_in};
ghost use Rattle.law_model.specs.declared.script_types.Config.{Config};
ghost use Rattle.law_walk.specs.Common.{delivered_of, numbered, refusals_among};
ghost use Rattle.law_live.specs.Common.{Agrees, IsWellSaid, Rises, Saying, answers, answers_from, frames_got};
ghost use Rattle.law_live.specs.Common.{items_refused, live_counts, live_of, steps_made, times_told};

/// Of any leg the answers tell the frames that its rows deliver, in order and each once, and each decision step once;
/// and the ticks that are told with them lie between those made before and those made behind, and never fall. Of
/// a leg that agrees with what was said these are the ticks that have passed, and the answers tell just those
/// items that are refused, in order.
pub fn answer_law()
    ensures got { (leg : Leg) (said : List Saying) →
        frames_got (answers leg said) ≡ delivered_of leg (live_counts leg said).rows }
    ensures steps { (leg : Leg) (said : List Saying) → steps_made (answers leg said)
        ≡ range_with_len 0 (steps_in (live_counts leg said).ticks) }
    ensures times { (leg : Leg) (said more : List Saying) →
        Rises (live_counts leg said).ticks (live_counts leg (said ++ more)).ticks
        (times_told (answers_from leg (live_counts leg said) more)) }
    ensures between { (config : Config) (said more : List Saying) (leg : Leg) → IsSound leg →
        IsWellSaid config (said ++ more) → Agrees config (live_of config (said ++ more)) leg →
        Rises (live_of config said).passed (live_of config (said ++ more)).passed
        (times_told (answers_from leg (live_counts leg said) more)) }
    ensures refused { (config : Config) (said : List Saying) (leg : Leg) → IsSound leg →
        IsWellSaid config said → Agrees config (live_of config said) leg →
        items_refused (answers leg said)
        ≡ refusals_among leg (numbered 0 (live_of config said).items) }
{}
