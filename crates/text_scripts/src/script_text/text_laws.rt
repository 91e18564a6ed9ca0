//! What the text of a script says.
ghost use Rattle.std.specs.Prelude.{◌≡◌, ℕ, List, Ok, []};
ghost use Rattle.law_model.specs.Common.{IsValid, HasFewLosses};
ghost use Rattle.law_model.specs.declared.script_types.Script.{Script};
ghost use Rattle.text_scripts.specs.script_read.Script.{script_of};
ghost use Rattle.text_scripts.specs.script_text.ScriptText.{script_text};

/// The text of a script without event lines is read as that script, if it meets what each that was read does; so the
/// text of each such script that was read is. How long the texts are isn't looked at.
pub fn read_law()
    ensures read { (script : Script) → IsValid script → HasFewLosses script → script.events ≡ [] →
        script_of (script_text script) ≡ Ok script }
    ensures again { (text : List ℕ) (script : Script) → script_of text ≡ Ok script → script.events ≡ [] →
        script_of (script_text script) ≡ Ok script }
{}
