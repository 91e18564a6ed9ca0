//! The promise of the whole in one law: from the octets of a script to the text that is written of it. There
//! is no code here. Begin at `headline_law`.
#![tactic(auto)]

ghost use Rattle.std.specs.Prelude.{◌≡◌, ℕ, ◌≤◌, List, [], length, Ok};
ghost use Rattle.law_model.specs.Common.{longest_input, leg_of};
ghost use Rattle.law_model.specs.declared.script_types.Script.{Script};
ghost use Rattle.text_scripts.specs.script_read.Script.{script_of};
ghost use Rattle.law_walk.specs.Common.{final_report};
ghost use Rattle.law_headline.specs.WalkTexts.{walk_text};
ghost use Rattle.law_headline.specs.Headline.{IsWalkHeadline, IsRunHeadline};

/// Of each text of at most 67,108,864 octets that is a script, `walk` writes the got lines of just those
/// accepted frames that the taken rows carry whole and that aren't lost to a failure, in item order and each
/// once; then the lines of the refused items among those that have landed; and then the line of totals. `run`
/// writes the same of all rows and all items, and so does `walk` where the script has no event lines.
/// `IsHeadline` says it in full, with its one premise.
pub fn headline_law()
    ensures walk { (text : List ℕ) (script : Script) → length text ≤ longest_input →
        script_of text ≡ Ok script → IsWalkHeadline text (walk_text script) }
    ensures run { (text : List ℕ) (script : Script) → length text ≤ longest_input →
        script_of text ≡ Ok script → IsRunHeadline text (final_report (leg_of script)) }
    ensures same { (text : List ℕ) (script : Script) → length text ≤ longest_input →
        script_of text ≡ Ok script → script.events ≡ [] →
        walk_text script ≡ final_report (leg_of script) }
{}
