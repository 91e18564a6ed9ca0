//! What the definition of the language means, apart from how it computes.
ghost use Rattle.std.specs.Prelude.{◌≡◌, ◌↔◌, ℕ, List, Ok, Err};
ghost use Rattle.std.specs.Str.Lines.{lines};
ghost use Rattle.law_model.specs.Common.{IsValid, HasFewLosses};
ghost use Rattle.law_model.specs.declared.script_types.Script.{Script};
ghost use Rattle.text_lines.specs.FirstFault.{IsFirstFault};
ghost use Rattle.text_scripts.specs.declared.script_read.script_fault.LineFault.{LineFault};
ghost use Rattle.text_scripts.specs.declared.script_read.script_fault.ScriptFault.TheVariants.{Line};
ghost use Rattle.text_scripts.specs.script_read.Statements.{at_first};
ghost use Rattle.text_scripts.specs.script_read.Script.{script_of, script_lines, IsScriptOf};
ghost use Rattle.text_scripts.specs.script_read.Written.{AreFormed, all_written};

/// A text has the fault of a line exactly where that line is faulty after lines none of which is, or where no
/// line is faulty and the configuration isn't whole at the end. It is a script exactly where no line is
/// faulty, the configuration is whole, and slips, spread and lag have no fault.
pub fn fault_law()
    ensures line { (text : List ℕ) (number : ℕ) (fault : LineFault) →
        (script_of text ≡ Err (Line number fault))
        ↔ IsFirstFault script_lines 1 at_first (lines text) number fault }
    ensures script { (text : List ℕ) (script : Script) →
        (script_of text ≡ Ok script) ↔ IsScriptOf (lines text) script }
{}

/// A text is a script exactly where each of its lines `stream` has its form and ranges, with END at most the script's
/// ticks, and a text of the same lines with each stream written out, as the lines that the command `stream` of its
/// words writes, is that script, however long both are. Each has at most 268,435,456 items, as `valid_law` has it.
pub fn stream_law()
    ensures same { (text other : List ℕ) (script : Script) →
        lines other ≡ all_written (lines text) →
        (script_of text ≡ Ok script)
        ↔ (AreFormed script.config.ticks (lines text) × (script_of other ≡ Ok script)) }
{}

/// A text that is a script, however long, says one that can be walked: its numbers are in their ranges, its windows
/// and items in order, and its rings and lag fit. It has at most 256 return windows.
pub fn valid_law()
    ensures valid { (text : List ℕ) (script : Script) → script_of text ≡ Ok script →
        IsValid script }
    ensures few_lost { (text : List ℕ) (script : Script) → script_of text ≡ Ok script →
        HasFewLosses script }
{}
