//! A conversation is a walk of its script.

ghost use Rattle.std.specs.Prelude.{◌≡◌, List};
ghost use Rattle.law_model.specs.Common.{IsNetwork, leg_of, walked};
ghost use Rattle.law_model.specs.declared.script_types.Config.{Config};
ghost use Rattle.law_walk.specs.Common.{landed_items, numbered, report_of, walk_plan};
ghost use Rattle.law_live.specs.Common.{IsWellSaid, Saying, leg_said, live_counts, script_said, report_said};

/// The event lines of the script give the very counts of the conversation, where all its items have landed. So
/// a walk of the script reports the frames that were answered, in order; then the items that were refused; and
/// then the totals.
pub fn script_law()
    ensures counts { (config : Config) (said : List Saying) → IsNetwork config →
        IsWellSaid config said → (let script = script_said config said in
        walked (walk_plan (leg_of script)) script.events
        ≡ live_counts (leg_said config said) said) }
    ensures landed { (config : Config) (said : List Saying) → IsNetwork config →
        IsWellSaid config said → (let leg = leg_said config said in
        landed_items leg (live_counts leg said) ≡ numbered 0 leg.items) }
    ensures text { (config : Config) (said : List Saying) → IsNetwork config →
        IsWellSaid config said → (let script = script_said config said in
        report_of (leg_of script) (walked (walk_plan (leg_of script)) script.events)
        ≡ report_said (leg_said config said) said) }
{}
