//! What comes of two scripts in one text, for two sessions that carry each other's return packets: the reports of
//! both ways, and the script of each way by itself. Nothing of a pair's events stands here; that is in `pair_engine`.
//! Begin with `write_pair`; what a text says is read by `text_pairs`, and `one_way_law` says what the script of a way
//! is worth.
#![tactic(auto)]

mod pair_report;
mod script_of_way;

ghost use Rattle.std.specs.Prelude.{◌≡◌, ℕ, ◌≤◌, List, [], length, Ok};
ghost use Rattle.law_model.specs.Common.{longest_input, leg_of, scenario_by, scenario_of, HasFewLosses, IsValid};
ghost use Rattle.law_model.specs.Common.{table_of};
ghost use Rattle.law_model.specs.declared.script_types.Script.{Script};
ghost use Rattle.law_walk.specs.Common.{session_of, session_rows};
ghost use Rattle.law_headline.specs.WalkTexts.{walk_text};
ghost use Rattle.law_pair.specs.Common.{telling_of, way_of};
ghost use Rattle.law_pair.specs.declared.pair_events.Way.{Way};
ghost use Rattle.text_pairs.specs.declared.script_pair.ScriptPair.{ScriptPair};
ghost use Rattle.text_pairs.specs.PairOfText.{pair_of};
ghost use Rattle.text_pairs.specs.ReportsOfWays.{text_on, way_text};
ghost use Rattle.pair_walk.specs.OneWay.{one_way_of, way_script_of};
ghost use Rattle.pair_walk.specs.Headline.{IsPairHeadline};

pub use pair_report::write_pair;
pub use script_of_way::way_script;

/// Of each text of at most 67,108,864 octets that says two scripts, the report of the way there has the got lines of
/// just those accepted frames of the first script that the rows carry whole and that aren't lost to a failure of its
/// lines, in item order and each once; then the lines of its refused items; and then its line of totals. The report of
/// the way back has the same of the second script. `IsHeadline` says it in full, with the one premise of each way.
pub fn headline_law()
    ensures { (text : List ℕ) (pair : ScriptPair) → length text ≤ longest_input →
        pair_of text ≡ Ok pair →
        IsPairHeadline text (way_text pair.there pair.back) (way_text pair.back pair.there) }
{}

/// Of each text that says two scripts, the script of one way can be walked, and `walk` writes of it what `pair` writes
/// of this way. Its scenario is that of the way but for what the packets tell, so its return cells, its tables, the
/// octets that its stream carries and which of its rows are whole are the same.
pub fn one_way_law()
    ensures valid { (text : List ℕ) (pair : ScriptPair) (way : Way) (script : Script) →
        pair_of text ≡ Ok pair → way_script_of way pair ≡ Ok script → IsValid script }
    ensures few_lost { (pair : ScriptPair) (way : Way) (script : Script) →
        way_script_of way pair ≡ Ok script → HasFewLosses script }
    ensures walk { (text : List ℕ) (pair : ScriptPair) (way : Way) (script : Script) →
        pair_of text ≡ Ok pair → way_script_of way pair ≡ Ok script →
        walk_text script ≡ text_on way pair }
    ensures told { (script other : Script) → scenario_of (one_way_of script other)
        ≡ telling_of (scenario_by (way_of script other)) [] }
    ensures cells { (script other : Script) →
        session_of (leg_of (one_way_of script other)) ≡ session_of (way_of script other) }
    ensures tables { (script other : Script) (j : ℕ) →
        table_of (scenario_of (one_way_of script other))
        (session_of (leg_of (one_way_of script other))) j
        ≡ table_of (scenario_by (way_of script other)) (session_of (way_of script other)) j }
    ensures rows { (script other : Script) (n : ℕ) →
        session_rows (leg_of (one_way_of script other)) n ≡ session_rows (way_of script other) n }
{}
