//! Laws of what lands and of what comes, over the definitions alone.

ghost use Rattle.std.specs.Prelude.{◌≡◌, ℕ, ◌≤◌, [], ◌∷◌, ◌++◌, List, Option, None, length, is_some};
ghost use Rattle.law_model.specs.Common.{BackCell, used_in};
ghost use Rattle.law_model.specs.declared.item_refusals.Refusal.{Refusal};
ghost use Rattle.terminal_source.specs.source_core.Terminal.{needed_at};
ghost use Rattle.law_walk.specs.Common.{IsPlaced};
ghost use Rattle.terminal_group.specs.ReturnInbox.{Inbox, told_taken, with_come, cell_for, rest_for, HasCome, Takes};
ghost use Rattle.terminal_group.specs.Source.{missing_by};

/// The refusal of an item has one place among those of others. The inbox holds what has come, in its order: a
/// cell more is put behind, a tick takes the first one where it needs one, and what ticks have taken stays
/// the same whatever comes later.
pub fn source_law()
    ensures placed { (number : ℕ) (put was now other : List (ℕ × Refusal)) →
        IsPlaced number put was now → IsPlaced number put was other → now ≡ other }
    ensures comes { (inbox : Inbox) (received : List BackCell) (used : ℕ) (cell : BackCell) →
        HasCome inbox received used →
        HasCome (with_come inbox cell) (received ++ cell ∷ []) used }
    ensures takes { (inbox next : Inbox) (received : List BackCell) (lag ticks : ℕ)
        (cell : Option BackCell) → HasCome inbox received (used_in lag ticks) →
        missing_by (needed_at lag ticks) inbox.cells ≡ None →
        cell ≡ cell_for (is_some (needed_at lag ticks)) inbox.cells →
        next ≡ record inbox {
          cells = rest_for (is_some (needed_at lag ticks)) inbox.cells;
        } →
        Takes inbox next received lag ticks cell }
    ensures stays { (lost : List (ℕ × ℕ)) (lag ticks : ℕ) (received more : List BackCell) →
        used_in lag ticks ≤ length received →
        told_taken lost lag ticks (received ++ more) ≡ told_taken lost lag ticks received }
{}
