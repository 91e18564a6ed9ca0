//! What is well said over a network makes a script that can be walked.

ghost use Rattle.std.specs.Prelude.{◌≡◌, ℕ, ◌-◌, ◌<◌, ◌≤◌, List, All, length, map, slice_index_or};
ghost use Rattle.law_model.specs.Common.{AreWindows, HasFailures, IsNetwork, IsSound, IsValid, leg_of};
ghost use Rattle.law_model.specs.declared.script_types.Config.{Config};
ghost use Rattle.law_model.specs.declared.window_types.Window.{Window};
ghost use Rattle.law_live.specs.Common.{IsWellSaid, Saying, course_at, leg_said, live_of, script_said};

/// The failures that are said live lie behind those that were known, and have no slip, so the rings fit as
/// before; and no due tick falls. So the leg of what was said is sound, and its script is valid. No more ticks
/// pass than there are, and the lines are those of the configuration, each with failures that scripts may have:
/// where the last of them has ended, all have.
pub fn said_law()
    ensures sound { (config : Config) (said : List Saying) → IsNetwork config →
        IsWellSaid config said → IsSound (leg_said config said) }
    ensures valid { (config : Config) (said : List Saying) → IsNetwork config →
        IsWellSaid config said → IsValid (script_said config said) }
    ensures leg { (config : Config) (said : List Saying) →
        leg_of (script_said config said) ≡ leg_said config said }
    ensures passed { (config : Config) (said : List Saying) → IsNetwork config →
        IsWellSaid config said → (live_of config said).passed ≤ config.ticks }
    ensures lines { (config : Config) (said : List Saying) → IsNetwork config →
        IsWellSaid config said → length (live_of config said).courses ≡ config.lines }
    ensures failures { (config : Config) (said : List Saying) (m : ℕ) → IsNetwork config →
        IsWellSaid config said → m < length (live_of config said).courses →
        HasFailures config.ticks (course_at (live_of config said) m).windows }
    ensures last { (from n : ℕ) (windows : List Window) → AreWindows from windows →
        slice_index_or (map (λ (window : Window). window.end) windows) (length windows - 1) 0 ≤ n →
        All (λ (window : Window). window.end ≤ n) windows }
{}
