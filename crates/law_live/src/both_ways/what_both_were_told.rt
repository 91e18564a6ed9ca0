//! What was said to a pair, and how its counts stand beside it.

ghost use Rattle.std.specs.Prelude.{◌≡◌, ℕ, suc, ◌+◌, ◌<◌, ◌≤◌, List, [], ◌∷◌, ◌++◌, slice_get, Some, None};
ghost use Rattle.law_model.specs.Common.{held};
ghost use Rattle.law_model.specs.declared.script_types.ItemKind.{ItemKind};
ghost use Rattle.law_model.specs.declared.script_types.Config.{Config};
ghost use Rattle.law_model.specs.declared.script_types.Script.{Script};
ghost use Rattle.law_pair.specs.declared.pair_events.Way.{Way};
ghost use Rattle.law_pair.specs.declared.pair_events.Way.TheVariants.{There, Back};
ghost use Rattle.law_pair.specs.Common.{IsPair, IsPairWalked, PairCounts, PairPlan, counts_on, pair_bound, pair_plan};
ghost use Rattle.law_pair.specs.Common.{plan_on};
ghost use Rattle.law_live.specs.Common.{IsPairNetwork, IsPairSaid, PairAgrees, PairSaying, both_pass, commands_in};
ghost use Rattle.law_live.specs.Common.{config_on, frames_in, live_of, pair_counts, said_on, script_on};
ghost use Rattle.law_live.specs.Common.{after_turns, both_passed, item_at, lands_on, leg_on, turn_both, turns_until};

/// What is well said to a pair makes two scripts that are one. They agree with what was said, and with each beginning
/// of it; and so does a pair that agrees with more. As many ticks have passed in both ways.
pub fn both_said_law()
    ensures more { (way : Way) (said more : List PairSaying) →
        said_on way (said ++ more) ≡ said_on way said ++ said_on way more }
    ensures passed { (there back : Config) (said : List PairSaying) →
        (live_of there (said_on There said)).passed ≡ (live_of back (said_on Back said)).passed }
    ensures pair { (there back : Config) (said : List PairSaying) → IsPairNetwork there back →
        IsPairSaid there back said →
        IsPair (script_on there There said) (script_on back Back said) }
    ensures own { (there back : Config) (said : List PairSaying) →
        PairAgrees there back said (script_on there There said) (script_on back Back said) }
    ensures less { (there back : Config) (said more : List PairSaying) (one other : Script) →
        IsPairSaid there back (said ++ more) → PairAgrees there back (said ++ more) one other →
        PairAgrees there back said one other }
    ensures begins { (there back : Config) (said more : List PairSaying) →
        IsPairSaid there back (said ++ more) → PairAgrees there back said
        (script_on there There (said ++ more)) (script_on back Back (said ++ more)) }
{}

/// In each pair that agrees with what was said its events lead to the counts, so each way goes as a walk of its
/// session. As many ticks are made as have passed, and each pass makes just its own; and each item has landed.
pub fn both_pass_law()
    ensures walked { (one other : Script) (said : List PairSaying) →
        IsPairWalked one other (pair_counts one other said) }
    ensures ticks { (there back : Config) (said : List PairSaying) (one other : Script)
        (way : Way) → IsPair one other → IsPairSaid there back said →
        PairAgrees there back said one other →
        (counts_on (pair_counts one other said) way).ticks
        ≡ (live_of (config_on there back way) (said_on way said)).passed }
    ensures pass { (there back : Config) (said : List PairSaying) (k : ℕ) (one other : Script) →
        IsPair one other → IsPairSaid there back (said ++ both_pass k ∷ []) →
        PairAgrees there back (said ++ both_pass k ∷ []) one other →
        (pair_counts one other (said ++ both_pass k ∷ [])).there.ticks
        ≡ (pair_counts one other said).there.ticks + k }
    ensures frames { (there back : Config) (said : List PairSaying) (one other : Script)
        (way : Way) → IsPair one other → IsPairSaid there back said →
        PairAgrees there back said one other →
        (counts_on (pair_counts one other said) way).frames
        ≡ frames_in (live_of (config_on there back way) (said_on way said)) }
    ensures commands { (there back : Config) (said : List PairSaying) (one other : Script)
        (way : Way) →
        IsPair one other → IsPairSaid there back said → PairAgrees there back said one other →
        (counts_on (pair_counts one other said) way).commands
        ≡ commands_in (live_of (config_on there back way) (said_on way said)) }
{}

/// What a loop over the rounds of a pass needs, in each pair that agrees with it. While it isn't over ticks are left, a
/// round is one of those that are left, and no item of either way holds a tick; and then none is left. Where an item
/// is said, it is the next one of its way, and due now.
pub fn both_turn_law()
    ensures left { (there back : Config) (said : List PairSaying) (k : ℕ) (one other : Script) →
        IsPair one other → IsPairSaid there back (said ++ both_pass k ∷ []) →
        PairAgrees there back (said ++ both_pass k ∷ []) one other →
        both_passed there said + k ≤ one.config.ticks }
    ensures turn { (there back : Config) (said : List PairSaying) (k n : ℕ) (one other : Script) →
        IsPair one other → IsPairSaid there back (said ++ both_pass k ∷ []) →
        PairAgrees there back (said ++ both_pass k ∷ []) one other →
        (let plan = pair_plan one other in
        let s = after_turns n plan (pair_counts one other said) in
        let until = both_passed there said + k in s.there.ticks < until →
        turns_until (pair_bound plan) plan until s
        ≡ suc (turns_until (pair_bound plan) plan until (turn_both plan s))) }
    ensures over { (pair : PairPlan) (s : PairCounts) (k until : ℕ) → until ≤ s.there.ticks →
        turns_until k pair until s ≡ 0 }
    ensures free { (there back : Config) (said : List PairSaying) (k n : ℕ) (one other : Script)
        (way : Way) →
        IsPair one other → IsPairSaid there back (said ++ both_pass k ∷ []) →
        PairAgrees there back (said ++ both_pass k ∷ []) one other →
        (let plan = pair_plan one other in
        let s = counts_on (after_turns n plan (pair_counts one other said)) way in
        s.ticks < both_passed there said + k →
        held s.ticks s.frames s.commands 0 (plan_on plan way).items ≡ None) }
    ensures next { (there back : Config) (said : List PairSaying) (kind : ItemKind)
        (one other : Script) (way : Way) →
        IsPair one other → IsPairSaid there back (said ++ lands_on way kind ∷ []) →
        PairAgrees there back (said ++ lands_on way kind ∷ []) one other →
        (let s = counts_on (pair_counts one other said) way in
        slice_get (leg_on one other way).items (s.frames + s.commands)
        ≡ Some (item_at s.ticks kind)) }
{}
