//! What the cells of a path are, carry by carry, and which windows they depend on.
ghost use Rattle.std.specs.Prelude.{◌≡◌, ℕ, suc, ◌+◌, ◌-◌, ◌<◌, ◌≤◌, min, List, [], ◌∷◌, ◌++◌, length, slice_get, Some};
ghost use Rattle.law_model.specs.Common.{Container, cells_of, cells};
ghost use Rattle.law_model.specs.declared.window_types.Carried.{Carried};
ghost use Rattle.law_model.specs.declared.window_types.Window.{Window};
ghost use Rattle.law_model.specs.members.Damage.{carried};
ghost use Rattle.member_path.specs.failure_window.AgreeingWindows.{AgreeBelow};
ghost use Rattle.member_path.specs.path_delay.CallsOnDelayedLine.{Calls, path_cells, with_windows};

use member_cells::Cell;

/// Carry `i` gives nothing before the delay is filled, then what comes of container `i - delay`, then the
/// end, and then nothing. Containers that are pushed later change no earlier carry.
pub fn carry_law()
    ensures filling { (carries : ℕ → Carried) (delay total i : ℕ) (containers : List Container) →
        i < delay → cells carries delay total containers (suc i)
        ≡ cells carries delay total containers i }
    ensures next { (carries : ℕ → Carried) (delay total i : ℕ) (containers : List Container)
        (container : Container) → delay ≤ i → i - delay < total →
        slice_get containers (i - delay) ≡ Some container →
        cells carries delay total containers (suc i)
        ≡ cells carries delay total containers i ++ cells_of (carries (i - delay)) container }
    ensures end { (carries : ℕ → Carried) (delay i : ℕ) (containers : List Container) →
        i ≡ delay + length containers → cells carries delay (length containers) containers (suc i)
        ≡ cells carries delay (length containers) containers i ++ Cell.End ∷ [] }
    ensures over { (carries : ℕ → Carried) (delay i : ℕ) (containers : List Container) →
        delay + length containers < i → cells carries delay (length containers) containers (suc i)
        ≡ cells carries delay (length containers) containers i }
    ensures later { (carries : ℕ → Carried) (delay total i : ℕ) (containers more : List Container) →
        i ≤ delay + length containers →
        cells carries delay total (containers ++ more) i
        ≡ cells carries delay total containers i }
{}

/// The cells of a path depend on what comes of the containers that have come out of the line, and on no others.
/// So whatever is said later of those from some number on, a line to which none of them was pushed has given the
/// same cells.
pub fn agree_law()
    ensures cells { (windows others : List Window) (delay total i n : ℕ)
        (containers : List Container) →
        AgreeBelow windows others n → min (i - delay) (length containers) ≤ n →
        cells (carried windows) delay total containers i
        ≡ cells (carried others) delay total containers i }
    ensures path { (calls : Calls) (others : List Window) (n : ℕ) →
        AgreeBelow calls.windows others n → length calls.containers ≤ n →
        path_cells (with_windows calls others) ≡ path_cells calls }
{}
