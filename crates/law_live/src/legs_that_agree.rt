//! Which legs agree with what was said so far.

ghost use Rattle.std.specs.Prelude.{ℕ, ◌≤◌, List, ◌++◌};
ghost use Rattle.law_model.specs.Common.{Leg};
ghost use Rattle.law_model.specs.declared.script_types.Config.{Config};
ghost use Rattle.law_live.specs.Common.{Agrees, CanSayAll, LineCourse, IsSameBelow, Saying, leg_said, live_of};
ghost use Rattle.law_live.specs.Common.{opened, windows_by};

/// The leg of what was said agrees with it; and a leg that agrees with more agrees with less. So the leg of a
/// whole conversation agrees with each beginning of it. And a failure that isn't over may as well end at any
/// later tick.
pub fn agree_law()
    ensures own { (config : Config) (said : List Saying) →
        Agrees config (live_of config said) (leg_said config said) }
    ensures less { (config : Config) (said more : List Saying) (leg : Leg) →
        CanSayAll config.ticks (opened config) (said ++ more) →
        Agrees config (live_of config (said ++ more)) leg →
        Agrees config (live_of config said) leg }
    ensures begins { (config : Config) (said more : List Saying) →
        CanSayAll config.ticks (opened config) (said ++ more) →
        Agrees config (live_of config said) (leg_said config (said ++ more)) }
    ensures open { (passed more : ℕ) (course : LineCourse) → passed ≤ more →
        IsSameBelow passed (windows_by more course) (windows_by passed course) }
{}
