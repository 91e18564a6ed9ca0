//! How the counts of a conversation stand beside what was said.

ghost use Rattle.std.specs.Prelude.{◌≡◌, ℕ, ◌+◌, ◌-◌, ◌<◌, ◌≤◌, suc, List, [], ◌∷◌, ◌++◌, length};
ghost use Rattle.std.specs.Prelude.{take, slice_get, Some, None};
ghost use Rattle.law_model.specs.Common.{Counts, IsSound, Leg, Plan, bound, held, offers_of, orders_of};
ghost use Rattle.law_model.specs.declared.script_types.Config.{Config};
ghost use Rattle.law_model.specs.declared.script_types.ItemKind.{ItemKind};
ghost use Rattle.law_progress.specs.Progress.{made};
ghost use Rattle.law_walk.specs.Common.{IsWalked, walk_plan};
ghost use Rattle.law_live.specs.Common.{Agrees, IsWellSaid, Saying, after_rounds, commands_in, frames_in, item_at};
ghost use Rattle.law_live.specs.Common.{lands, live_counts, live_of, live_round, passes, rounds_until};

/// In each leg that agrees with what was said: as many ticks are made as have passed, and each pass makes just
/// its own; and each item has landed, in order. Where an item is said, it is the leg's next one, and due now;
/// and while ticks pass no item holds one.
pub fn pass_law()
    ensures walked { (leg : Leg) (said : List Saying) → IsWalked leg (live_counts leg said) }
    ensures ticks { (config : Config) (said : List Saying) (leg : Leg) → IsSound leg →
        IsWellSaid config said → Agrees config (live_of config said) leg →
        (live_counts leg said).ticks ≡ (live_of config said).passed }
    ensures pass { (config : Config) (said : List Saying) (k : ℕ) (leg : Leg) → IsSound leg →
        IsWellSaid config (said ++ passes k ∷ []) →
        Agrees config (live_of config (said ++ passes k ∷ [])) leg →
        (live_counts leg (said ++ passes k ∷ [])).ticks ≡ (live_counts leg said).ticks + k }
    ensures frames { (config : Config) (said : List Saying) (leg : Leg) → IsSound leg →
        IsWellSaid config said → Agrees config (live_of config said) leg →
        (live_counts leg said).frames ≡ frames_in (live_of config said) }
    ensures commands { (config : Config) (said : List Saying) (leg : Leg) → IsSound leg →
        IsWellSaid config said → Agrees config (live_of config said) leg →
        (live_counts leg said).commands ≡ commands_in (live_of config said) }
    ensures next { (config : Config) (said : List Saying) (kind : ItemKind) (leg : Leg) →
        IsSound leg → IsWellSaid config (said ++ lands kind ∷ []) →
        Agrees config (live_of config (said ++ lands kind ∷ [])) leg →
        (let s = live_counts leg said in
        slice_get leg.items (s.frames + s.commands) ≡ Some (item_at s.ticks kind)) }
    ensures offers { (config : Config) (said : List Saying) (leg : Leg) → IsSound leg →
        IsWellSaid config said → Agrees config (live_of config said) leg →
        (let s = live_counts leg said in
        length (offers_of (take (s.frames + s.commands) leg.items)) ≡ s.frames) }
    ensures orders { (config : Config) (said : List Saying) (leg : Leg) → IsSound leg →
        IsWellSaid config said → Agrees config (live_of config said) leg →
        (let s = live_counts leg said in
        length (orders_of (take (s.frames + s.commands) leg.items)) ≡ s.commands) }
    ensures free { (config : Config) (said : List Saying) (k n : ℕ) (leg : Leg) → IsSound leg →
        IsWellSaid config (said ++ passes k ∷ []) →
        Agrees config (live_of config (said ++ passes k ∷ [])) leg →
        (let s = after_rounds n (walk_plan leg) (live_counts leg said) in
        s.ticks < (live_of config said).passed + k →
        held s.ticks s.frames s.commands 0 (walk_plan leg).items ≡ None) }
{}

/// What a loop over the rounds of a pass needs, in each leg that agrees with it. While it isn't over ticks are
/// left, a round is one of those that are left, and a measure falls; and then none is left.
pub fn turn_law()
    ensures left { (config : Config) (said : List Saying) (k : ℕ) (leg : Leg) → IsSound leg →
        IsWellSaid config (said ++ passes k ∷ []) →
        Agrees config (live_of config (said ++ passes k ∷ [])) leg →
        (live_of config said).passed + k ≤ leg.config.ticks }
    ensures turn { (config : Config) (said : List Saying) (k n : ℕ) (leg : Leg) → IsSound leg →
        IsWellSaid config (said ++ passes k ∷ []) →
        Agrees config (live_of config (said ++ passes k ∷ [])) leg →
        (let plan = walk_plan leg in let s = after_rounds n plan (live_counts leg said) in
        let until = (live_of config said).passed + k in s.ticks < until →
        rounds_until (bound plan) plan until s
        ≡ suc (rounds_until (bound plan) plan until (live_round plan s))) }
    ensures less { (config : Config) (said : List Saying) (k n : ℕ) (leg : Leg) → IsSound leg →
        IsWellSaid config (said ++ passes k ∷ []) →
        Agrees config (live_of config (said ++ passes k ∷ [])) leg →
        (let plan = walk_plan leg in let s = after_rounds n plan (live_counts leg said) in
        s.ticks < (live_of config said).passed + k →
        bound plan - made (live_round plan s) < bound plan - made s) }
    ensures over { (plan : Plan) (s : Counts) (k until : ℕ) → until ≤ s.ticks →
        rounds_until k plan until s ≡ 0 }
{}
