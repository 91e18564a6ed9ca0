//! That no receive ring is too short. There is no code here.
ghost use Rattle.std.specs.Prelude.{◌≡◌, ℕ, ◌+◌, ◌-◌, ◌<◌, ◌≤◌, List, length, slice_index_or};
ghost use Rattle.law_model.specs.Common.{Container, Counts, LineCounts, LinePath, FitsRing, greatest, greatest_slip};
ghost use Rattle.law_model.specs.Common.{in_receive, plan_of};
ghost use Rattle.law_model.specs.declared.script_types.Config.{Config};
ghost use Rattle.law_model.specs.declared.script_types.Item.{Item};
ghost use Rattle.law_progress.specs.Progress.{IsReached};
ghost use Rattle.law_progress.specs.AskedOfLines.{CanRun};
ghost use Rattle.thread_session.specs.session_parts.LinesOpened.{slots_of};
ghost use Rattle.thread_session.specs.session_parts.ShortRings.{IsLineAt, IsWaitedFor};

/// A receive ring holds what its line is ahead of the slowest one, and one cell more. So none holds up what the sink
/// waits for: while a line has carried all that was made, and its cells don't decide the next row, the ring of each
/// line holds no more than what it is ahead, and has a slot free, unless the line has carried more than was made. This
/// is of all counts that events can lead to.
pub fn slots_law()
    ensures enough { (config : Config) (m : ℕ) → FitsRing config → m < length config.delays →
        greatest config.delays - slice_index_or config.delays m 0
        + greatest_slip config.windows + 1 ≤ slots_of config m }
    ensures held { (config : Config) (items : List Item) (sent : List (List Container)) →
        CanRun config items sent → (s : Counts) → IsReached (plan_of config items sent) s →
        s.rows < config.ticks → (a b : ℕ) (path : LinePath) (line : LineCounts) →
        IsWaitedFor a (plan_of config items sent) s →
        IsLineAt b path line (plan_of config items sent) s → line.carried ≤ s.ticks →
        in_receive path line ≤ greatest config.delays - slice_index_or config.delays b 0
        + greatest_slip config.windows }
{}
