//! What the definitions of live texts of both ways mean, apart from how they compute.
ghost use Rattle.std.specs.Prelude.{◌≡◌, ◌↔◌, ◌≤◌, ℕ, ◌+◌, List, [], ◌∷◌, ◌++◌, length, map, None, Err};
ghost use Rattle.std.specs.Str.Lines.{lines};
ghost use Rattle.text_lines.specs.WordsOfLine.{words};
ghost use Rattle.text_lines.specs.Language.{said_by};
ghost use Rattle.text_lines.specs.FirstFault.{IsFirstFault};
ghost use Rattle.law_model.specs.Common.{longest_input};
ghost use Rattle.law_pair.specs.Common.{IsPair};
ghost use Rattle.pair_live.specs.PairLines.{PairWrong, nothing_said, pair_lines, pair_line_fault, pair_opening_fault};
ghost use Rattle.pair_live.specs.PairSayingsOfLines.{AgreesWith, AreFine, line_pair_saying, pair_said_in};
ghost use Rattle.pair_live.specs.PairSayingsOfLines.{pair_sayings, pair_with_line, scripts_of_live};
ghost use Rattle.pair_live.specs.WorkedPairTexts.{fault_behind, fault_in, word_texts, word_faults, order_texts};
ghost use Rattle.pair_live.specs.WorkedPairTexts.{order_faults, opening_texts, opening_faults};
ghost use Rattle.pair_live.specs.WorkedPairTexts.{cut_back_lines, cut_back_scripts};

/// A text has the fault of a line exactly where that line is faulty after lines none of which is, or where no line is
/// faulty and at the end the configuration isn't whole, no line divides the scripts, or they don't fit together.
pub fn pair_fault_law()
    ensures { (text : List ℕ) (number : ℕ) (wrong : PairWrong) →
        (said_by pair_lines text ≡ Err (number, wrong))
        ↔ IsFirstFault pair_lines 1 nothing_said (lines text) number wrong }
{}

/// The scripts of live lines without a fault are a pair: each can be walked, neither loses return packets by itself or
/// has event lines, their lags are the same and at most 256, and their ticks are the same.
pub fn pair_valid_law()
    ensures { (ls : List (List ℕ)) → length ls ≤ longest_input → AreFine nothing_said ls →
        pair_opening_fault (pair_said_in ls) ≡ None →
        IsPair (scripts_of_live ls).there (scripts_of_live ls).back }
{}

/// Lines of which none is faulty say what happens so that it can happen, over configurations of a pair, and leave both
/// ways just as they then stand; and lines are fine where those before the last are, and the last is behind them.
pub fn pair_said_law()
    ensures agrees { (ls : List (List ℕ)) → AreFine nothing_said ls → length ls ≤ longest_input →
        AgreesWith (pair_said_in ls) (pair_sayings ls) (pair_said_in ls).live }
    ensures more { (ls : List (List ℕ)) (line : List ℕ) → AreFine nothing_said ls →
        pair_line_fault (pair_said_in ls) (words line) ≡ None → AreFine nothing_said (ls ++ line ∷ []) }
    ensures less { (ls : List (List ℕ)) (line : List ℕ) → AreFine nothing_said (ls ++ line ∷ []) →
        AreFine nothing_said ls × (pair_line_fault (pair_said_in ls) (words line) ≡ None) }
    ensures next { (ls : List (List ℕ)) (line : List ℕ) →
        pair_said_in (ls ++ line ∷ []) ≡ pair_with_line (length ls + 1) (pair_said_in ls) line }
    ensures sayings { (ls : List (List ℕ)) (line : List ℕ) →
        pair_sayings (ls ++ line ∷ []) ≡ pair_sayings ls ++ line_pair_saying line }
{}

/// Texts worked by hand. The first faults of nineteen: of words, which name a way and are counted with it; of what was
/// said before, each way by itself; and of two configurations. And the scripts of one: each has the items of its way,
/// and a line that was cut back for a tick has a failure of one container.
pub fn pair_text_worked_law()
    ensures words { map fault_behind word_texts ≡ word_faults }
    ensures order { map fault_behind order_texts ≡ order_faults }
    ensures opening { map fault_in opening_texts ≡ opening_faults }
    ensures scripts { scripts_of_live cut_back_lines ≡ cut_back_scripts }
{}
