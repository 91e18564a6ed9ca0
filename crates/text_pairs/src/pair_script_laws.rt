//! What the definition of the language means, apart from how it computes.
ghost use Rattle.std.specs.Prelude.{◌≡◌, ◌↔◌, ℕ, List, Ok, Err};
ghost use Rattle.std.specs.Str.Lines.{lines};
ghost use Rattle.text_lines.specs.FirstFault.{IsFirstFault};
ghost use Rattle.text_scripts.specs.declared.script_read.script_fault.LineFault.{LineFault};
ghost use Rattle.text_scripts.specs.declared.script_read.script_fault.ScriptFault.TheVariants.{Line};
ghost use Rattle.law_pair.specs.Common.{IsPair};
ghost use Rattle.text_pairs.specs.declared.script_pair.PairFault.{PairFault};
ghost use Rattle.text_pairs.specs.declared.script_pair.ScriptPair.{ScriptPair};
ghost use Rattle.text_pairs.specs.PairTextLines.{of_script, no_division, nothing_said, pair_lines};
ghost use Rattle.text_pairs.specs.PairOfText.{pair_of};

/// A text has the fault of a line exactly where that line is faulty after lines none of which is, or where no line is
/// faulty and one is missing at the end: a line of the configuration of either script, or the one that divides.
pub fn fault_law()
    ensures line { (text : List ℕ) (number : ℕ) (fault : LineFault) →
        (pair_of text ≡ Err (PairFault.Script (Line number fault)))
        ↔ IsFirstFault pair_lines 1 nothing_said (lines text) number (of_script fault) }
    ensures undivided { (text : List ℕ) (number : ℕ) →
        (pair_of text ≡ Err (PairFault.Undivided number))
        ↔ IsFirstFault pair_lines 1 nothing_said (lines text) number no_division }
{}

/// A text that says two scripts, however long, says a pair: each of them can be walked, neither loses return packets by
/// itself or has event lines, their lags are the same and at most 256, and their ticks are the same.
pub fn valid_law()
    ensures { (text : List ℕ) (pair : ScriptPair) → pair_of text ≡ Ok pair →
        IsPair pair.there pair.back }
{}
