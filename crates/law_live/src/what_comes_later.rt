//! What comes later changes nothing of what was answered.

ghost use Rattle.std.specs.Prelude.{◌≡◌, ℕ, ◌+◌, ◌*◌, ◌<◌, ◌≤◌, List};
ghost use Rattle.law_model.specs.Common.{IsSound, Leg, steps_in};
ghost use Rattle.law_model.specs.declared.script_types.Config.{Config};
ghost use Rattle.law_walk.specs.Common.{cell_taken, table_in};
ghost use Rattle.law_live.specs.Common.{Agrees, IsWellSaid, Saying, answers, live_counts, live_of, rounds_of};
ghost use Rattle.law_live.specs.Common.{waiting_at};

/// Two legs in which the same was said so far, whatever comes later in each: their counts are the same, and the
/// rounds that led to them; so are all answers; so are the return cells that their decision steps took, and the tables
/// that these left; and so is how many frames waited once some ticks were made.
pub fn later_law()
    ensures counts { (config : Config) (said : List Saying) (leg other : Leg) → IsSound leg →
        IsSound other → IsWellSaid config said → Agrees config (live_of config said) leg →
        Agrees config (live_of config said) other → live_counts leg said ≡ live_counts other said }
    ensures rounds { (config : Config) (said : List Saying) (leg other : Leg) → IsSound leg →
        IsSound other → IsWellSaid config said → Agrees config (live_of config said) leg →
        Agrees config (live_of config said) other → rounds_of leg said ≡ rounds_of other said }
    ensures answers { (config : Config) (said : List Saying) (leg other : Leg) → IsSound leg →
        IsSound other → IsWellSaid config said → Agrees config (live_of config said) leg →
        Agrees config (live_of config said) other → answers leg said ≡ answers other said }
    ensures cells { (config : Config) (said : List Saying) (j : ℕ) (leg other : Leg) → IsSound leg →
        IsSound other → IsWellSaid config said → Agrees config (live_of config said) leg →
        Agrees config (live_of config said) other → j < steps_in (live_of config said).passed →
        cell_taken leg j ≡ cell_taken other j }
    ensures tables { (config : Config) (said : List Saying) (j : ℕ) (leg other : Leg) →
        IsSound leg →
        IsSound other → IsWellSaid config said → Agrees config (live_of config said) leg →
        Agrees config (live_of config said) other → j < steps_in (live_of config said).passed →
        table_in leg (16 * j + 9) ≡ table_in other (16 * j + 9) }
    ensures waiting { (config : Config) (said : List Saying) (t : ℕ) (leg other : Leg) → IsSound leg →
        IsSound other → IsWellSaid config said → Agrees config (live_of config said) leg →
        Agrees config (live_of config said) other → t ≤ (live_of config said).passed →
        waiting_at leg t ≡ waiting_at other t }
{}
