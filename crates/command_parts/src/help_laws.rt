//! What helps say of the words that a line may begin with.
ghost use Rattle.std.specs.Prelude.{◌≡◌, Some};
ghost use Rattle.text_scripts.specs.declared.script_read.script_keyword.Keyword.{Keyword};
ghost use Rattle.text_scripts.specs.script_read.Statements.{keyword_of};
ghost use Rattle.command_parts.specs.ScriptHelpTexts.{keyword_text};

/// The word that a help has for a keyword is one that is read as it.
pub fn keyword_law()
    ensures { (keyword : Keyword) → keyword_of (keyword_text keyword) ≡ Some keyword }
{}
