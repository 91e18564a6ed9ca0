//! What was answered stands, whatever is said later.

ghost use Rattle.std.specs.Prelude.{◌≡◌, ◌+◌, List, ◌++◌};
ghost use Rattle.law_model.specs.Common.{Leg};
ghost use Rattle.law_walk.specs.Common.{walk_plan};
ghost use Rattle.law_live.specs.Common.{Saying, Telling, answers, answers_from, answers_text, counts_from, live_counts};
ghost use Rattle.law_live.specs.Common.{rounds_from, rounds_of};

/// More that is said adds answers and their lines behind those before, whatever is told of steps and passes; and
/// counts and rounds go on.
pub fn grow_law()
    ensures answers { (leg : Leg) (said more : List Saying) →
        answers leg (said ++ more)
        ≡ answers leg said ++ answers_from leg (live_counts leg said) more }
    ensures text { (leg : Leg) (said more : List Saying) (tells : Telling) →
        answers_text tells (answers leg (said ++ more))
        ≡ answers_text tells (answers leg said)
        ++ answers_text tells (answers_from leg (live_counts leg said) more) }
    ensures counts { (leg : Leg) (said more : List Saying) →
        live_counts leg (said ++ more) ≡ counts_from (walk_plan leg) (live_counts leg said) more }
    ensures rounds { (leg : Leg) (said more : List Saying) →
        rounds_of leg (said ++ more)
        ≡ rounds_of leg said + rounds_from (walk_plan leg) (live_counts leg said) more }
{}
