//! Worked rows, computed.

ghost use Rattle.std.specs.Prelude.{◌≡◌, true, false, [], ◌∷◌, Some, None};
ghost use Rattle.law_model.specs.Common.{Eos, active};
ghost use Rattle.member_cells.specs.declared.control_word.Ctrl.TheVariants.{Add, Norm, Idle, Dnu};
ghost use Rattle.law_row.specs.ComputedRows.{sent, active_read, all_but, carriers_after, beside_idle};
ghost use Rattle.law_row.specs.ComputedRows.{beside_unused, both_carrying};

/// Worked rows, computed: the last line in NORM sends EOS, and the lines that carry payload come in the order of SQ.
/// A sink that goes on takes silent lines for lines that carry payload where as many do as the packets that it reads
/// say, however many are silent: not after a change, and not beside a silent line that was in DNU. An IDLE line isn't
/// silent.
pub fn worked_law()
    ensures sent { sent ≡ (Dnu, 1) ∷ (Add, 3) ∷ (Eos, 2) ∷ (Norm, 0) ∷ (Idle, 255) ∷ [] }
    ensures active { active_read (all_but 5) ≡ 3 ∷ 2 ∷ [] }
    ensures one_lost { active_read (all_but 2) ≡ 3 ∷ [] }
    ensures goes_on { carriers_after true 2 false beside_idle ≡ Some (0 ∷ 1 ∷ []) }
    ensures two { carriers_after true 3 false both_carrying ≡ Some (0 ∷ 1 ∷ 2 ∷ []) }
    ensures fewer { carriers_after true 2 false both_carrying ≡ None }
    ensures stops { carriers_after false 2 false beside_idle ≡ None }
    ensures changed { carriers_after true 2 true beside_idle ≡ None }
    ensures unused { carriers_after true 2 false beside_unused ≡ None }
{}
