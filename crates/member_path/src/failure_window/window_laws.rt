//! What the definitions of windows mean, apart from how they are computed.
ghost use Rattle.std.specs.Prelude.{◌≡◌, ◌↔◌, ℕ, ◌-◌, ◌<◌, ◌≤◌, false, List, ◌++◌, length, Contains, sum_by, None};
ghost use Rattle.law_model.specs.Common.{is_damaged, AreWindows, slip_of};
ghost use Rattle.law_model.specs.declared.window_types.Window.{Window};
ghost use Rattle.law_model.specs.members.Damage.{carried};
ghost use Rattle.member_path.specs.failure_window.FaultOfList.{window_fault};
ghost use Rattle.member_path.specs.failure_window.NearWindows.{IsRun};
ghost use Rattle.member_path.specs.failure_window.OpenWindows.{CanClose, closed_at, failure, last_end, opened_at};

use law_model::Carried;

/// A list has no fault exactly where its windows stand in order, apart, and each of them gives a sign before
/// containers vanish.
pub fn fault_law()
    ensures { (windows : List Window) → (window_fault windows ≡ None) ↔ AreWindows 0 windows }
{}

/// A container arrives exactly where no window names it. In a list without a fault the last `slip` containers
/// of each window vanish, and those before them fail.
pub fn damage_law()
    ensures whole { (windows : List Window) (t : ℕ) →
        (carried windows t ≡ Carried.Whole) ↔ (is_damaged windows t ≡ false) }
    ensures fails { (windows : List Window) (window : Window) (t : ℕ) →
        AreWindows 0 windows → Contains windows window →
        window.first ≤ t → t < window.end - window.slip → carried windows t ≡ Carried.Fails }
    ensures vanishes { (windows : List Window) (window : Window) (t : ℕ) →
        AreWindows 0 windows → Contains windows window →
        window.end - window.slip ≤ t → t < window.end → carried windows t ≡ Carried.Vanishes }
{}

/// The slip of a list is the greatest sum of slips over its runs of windows each near the one before.
pub fn slip_law()
    ensures most { (before run later : List Window) → IsRun run →
        sum_by (λ window. window.slip) run ≤ slip_of (before ++ (run ++ later)) }
    ensures reached { (windows : List Window) →
        (before : List Window) × (run : List Window) × (later : List Window) ×
        (windows ≡ before ++ (run ++ later)) × IsRun run ×
        (slip_of windows ≡ sum_by (λ window. window.slip) run) }
{}

/// From the first container of a window that is opened on, containers fail as long as the line lasts; else
/// nothing changes. The list stays without a fault, and the slip of the line the same.
pub fn open_law()
    ensures before { (windows : List Window) (first total t : ℕ) → t < first →
        carried (opened_at windows first total) t ≡ carried windows t }
    ensures fails { (windows : List Window) (first total t : ℕ) → AreWindows 0 windows →
        last_end windows ≤ first → first ≤ t → t < total →
        carried (opened_at windows first total) t ≡ Carried.Fails }
    ensures beyond { (windows : List Window) (first total t : ℕ) → total ≤ t →
        carried (opened_at windows first total) t ≡ carried windows t }
    ensures apart { (windows : List Window) (first total : ℕ) → AreWindows 0 windows →
        last_end windows ≤ first → first < total → AreWindows 0 (opened_at windows first total) }
    ensures slip { (windows : List Window) (first total : ℕ) →
        slip_of (opened_at windows first total) ≡ slip_of windows }
    ensures runs { (windows : List Window) (first total n : ℕ) → first ≤ n → n < total →
        CanClose (opened_at windows first total) n }
{}

/// Below the container at which a window is closed nothing changes, and from there on containers arrive. What was
/// opened and is closed is the window between, if that has a container.
pub fn close_law()
    ensures before { (windows : List Window) (end t : ℕ) → CanClose windows end → t < end →
        carried (closed_at windows end) t ≡ carried windows t }
    ensures whole { (windows : List Window) (end t : ℕ) → AreWindows 0 windows →
        CanClose windows end → end ≤ t → carried (closed_at windows end) t ≡ Carried.Whole }
    ensures apart { (windows : List Window) (end : ℕ) → AreWindows 0 windows →
        CanClose windows end → AreWindows 0 (closed_at windows end) }
    ensures slip { (windows : List Window) (end : ℕ) → CanClose windows end →
        slip_of (closed_at windows end) ≡ slip_of windows }
    ensures last { (windows : List Window) (end : ℕ) → AreWindows 0 windows →
        CanClose windows end → last_end (closed_at windows end) ≤ end }
    ensures count { (windows : List Window) (end : ℕ) →
        length (closed_at windows end) ≤ length windows }
    ensures opened { (windows : List Window) (first total end : ℕ) →
        closed_at (opened_at windows first total) end ≡ windows ++ failure first end }
{}
