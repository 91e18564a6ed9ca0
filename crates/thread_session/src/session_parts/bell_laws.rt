//! That no ring is lost, of a model of bells. There is no code here.
ghost use Rattle.std.specs.Prelude.{◌≡◌, ℕ, List, ◌∷◌, ◌++◌};
ghost use Rattle.thread_session.specs.session_parts.Bells.{BellNow, BellStep, bell_after, waiting, waiting_for_behind};
ghost use Rattle.thread_session.specs.session_parts.Bells.{asleep, rung, moves, rings, rings_from_behind};
ghost use Rattle.thread_session.specs.session_parts.Bells.{HaveNoNote, AreHeard, at_rest, late_move};
ghost use Rattle.thread_session.specs.session_parts.Bells.{late_note, late_hearing};

/// No ring is lost, of steps at a bell in whatever order. An owner takes note, then looks whether it can go on, and
/// then waits. If it sleeps, nobody has rung since its note; so whoever moved what it waits for after its look has
/// still to ring, and once that rings the owner doesn't sleep, whatever else is done. The same holds of those
/// behind it, if it began to hear them before its look. This is of the steps that `Bell` says of itself, which no
/// clause ties to its atomic words.
pub fn bell_law()
    ensures asleep { (bell : BellNow) (between since first later : List BellStep) (who : ℕ) →
        HaveNoNote between → HaveNoNote since → since ≡ first ++ moves who ∷ later →
        (bell_after bell (waiting between since)).word ≡ asleep →
        (rest more : List BellStep) → later ≡ rest ++ rings who ∷ more → ⊥ }
    ensures rung { (bell : BellNow) (between since rest more : List BellStep) (who : ℕ) →
        HaveNoNote between → HaveNoNote since → since ≡ rest ++ rings who ∷ more →
        (bell_after bell (waiting between since)).word ≡ rung }
    ensures behind { (bell : BellNow) (between since rest more : List BellStep) (who : ℕ) →
        HaveNoNote between → HaveNoNote since → AreHeard between → AreHeard since →
        since ≡ rest ++ rings_from_behind who ∷ more →
        (bell_after bell (waiting_for_behind between since)).word ≡ rung }
    ensures worked { (bell_after at_rest late_move).word ≡ rung }
    ensures looked_first { (bell_after at_rest late_note).word ≡ asleep }
    ensures heard_late { (bell_after at_rest late_hearing).word ≡ asleep }
{}
