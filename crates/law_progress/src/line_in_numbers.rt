//! A line of a walk, in numbers.

ghost use Rattle.std.specs.Prelude.{ℕ, ◌<◌, List, length};
ghost use Rattle.law_model.specs.Common.{Container, slip_of, IsLine, path_of, plan_of};
ghost use Rattle.law_model.specs.declared.window_types.Window.{Window};
ghost use Rattle.law_model.specs.declared.window_types.Carried.{Carried};
ghost use Rattle.law_model.specs.declared.script_types.Config.{Config};
ghost use Rattle.law_model.specs.declared.script_types.Item.{Item};
ghost use Rattle.law_model.specs.members.Damage.{carried};
ghost use Rattle.law_progress.specs.Progress.{IsPath, IsPlan};
ghost use Rattle.law_progress.specs.AskedOfLines.{IsDecided, CanRun};

/// The lines of a script in numbers. What their cells decide is what has a verdict; with the slip of its
/// windows a line is a path of `progress_law`; and delays, slips and a lag that pass the tests of a script are
/// all that its walk needs.
pub fn line_law()
    ensures decided { (carries : ℕ → Carried) (containers : List Container) (delay y t : ℕ) →
        t < length containers → IsDecided carries delay containers y t }
    ensures paths { (windows : List Window) (containers : List Container) (delay : ℕ) →
        IsLine windows containers →
        IsPath (length containers) (slip_of windows) (path_of (carried windows) delay containers) }
    ensures plans { (config : Config) (items : List Item) (sent : List (List Container)) →
        CanRun config items sent → IsPlan (plan_of config items sent) }
{}
