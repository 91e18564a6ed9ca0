//! What the definitions of live texts mean, apart from how they compute.
ghost use Rattle.std.specs.Prelude.{◌≡◌, ◌↔◌, ◌≤◌, ℕ, ◌+◌, List, [], ◌∷◌, ◌++◌, length, None, Some, Ok, Err};
ghost use Rattle.std.specs.Prelude.{map, replicate};
ghost use Rattle.std.specs.Str.Lines.{lines};
ghost use Rattle.text_lines.specs.Language.{said_by};
ghost use Rattle.text_lines.specs.FirstFault.{IsFirstFault};
ghost use Rattle.law_model.specs.Common.{IsValid, HasFewLosses, leg_of, longest_input};
ghost use Rattle.text_lines.specs.WordsOfLine.{words};
ghost use Rattle.text_lines.specs.declared.text_faults.LineKind.TheVariants.{Order, Word};
ghost use Rattle.law_model.specs.declared.script_types.Script.{Script};
ghost use Rattle.text_live.specs.LiveLines.{LineWrong, nothing_said, live_lines, line_fault, opening_fault, of_live};
ghost use Rattle.text_live.specs.LiveScript.{script_of_live, script_in};
ghost use Rattle.text_live.specs.Sayings.{AgreesWith, AreFine, leg_in, line_saying, said_in, said_with_line, sayings};
ghost use Rattle.law_live.specs.Common.{answers};
ghost use Rattle.text_live.specs.WorkedLiveTexts.{frame_lines, frame_script, cut_lines, cut_script};
ghost use Rattle.text_live.specs.WorkedLiveTexts.{refused_answers, refused_lines};
ghost use Rattle.text_live.specs.WorkedLiveTexts.{begun_lines, lone_words, lone_faults, faults_behind};
ghost use Rattle.text_live.specs.LiveHelpTexts.{live_kind};

/// A text has the fault of a line exactly where that line is faulty after lines none of which is, or where no line is
/// faulty and the configuration isn't whole, or doesn't fit, at the end.
pub fn fault_law()
    ensures { (text : List ℕ) (number : ℕ) (wrong : LineWrong) →
        (said_by live_lines text ≡ Err (number, wrong))
        ↔ IsFirstFault live_lines 1 nothing_said (lines text) number wrong }
{}

/// The script of live lines without a fault can be walked, whatever number of rounds it says: its numbers are in their
/// ranges, its failures and items in order, and its rings and lag fit.
pub fn valid_law()
    ensures valid { (rounds : ℕ) (ls : List (List ℕ)) (script : Script) →
        length ls ≤ longest_input →
        script_of_live rounds ls ≡ Ok script → IsValid script }
    ensures few_lost { (rounds : ℕ) (ls : List (List ℕ)) (script : Script) →
        script_of_live rounds ls ≡ Ok script → HasFewLosses script }
{}

/// Lines of which none is faulty say what happens so that it can happen, over a configuration that can be walked, and
/// leave it just as it then stands. Their script is that of their leg; and lines are fine where those before the last
/// are, and the last is behind them.
pub fn said_law()
    ensures agrees { (ls : List (List ℕ)) → AreFine nothing_said ls → length ls ≤ longest_input →
        AgreesWith (said_in ls) (sayings ls) (said_in ls).live }
    ensures more { (ls : List (List ℕ)) (line : List ℕ) → AreFine nothing_said ls →
        line_fault (said_in ls) (words line) ≡ None → AreFine nothing_said (ls ++ line ∷ []) }
    ensures less { (ls : List (List ℕ)) (line : List ℕ) → AreFine nothing_said (ls ++ line ∷ []) →
        AreFine nothing_said ls × (line_fault (said_in ls) (words line) ≡ None) }
    ensures next { (ls : List (List ℕ)) (line : List ℕ) →
        said_in (ls ++ line ∷ []) ≡ said_with_line (length ls + 1) (said_in ls) line }
    ensures sayings { (ls : List (List ℕ)) (line : List ℕ) →
        sayings (ls ++ line ∷ []) ≡ sayings ls ++ line_saying line }
    ensures leg { (rounds : ℕ) (ls : List (List ℕ)) (script : Script) →
        script_of_live rounds ls ≡ Ok script → leg_of script ≡ leg_in ls }
    ensures script { (rounds : ℕ) (ls : List (List ℕ)) → AreFine nothing_said ls →
        opening_fault (said_in ls).live (said_in ls).settings ≡ None →
        script_of_live rounds ls ≡ Ok (script_in rounds (said_in ls)) }
{}

/// Texts worked by hand. The scripts of two: a frame that is sent in tick 40, and lines that are cut and mended, of
/// which two failures damage no container. And the answers to a third: items of both kinds count together from 0,
/// and each that is refused is told by its number, with the cause. Behind a live line, the lines that stand before
/// the live ones have a fault of kind `order`, and a live word alone and a word of no line here one of kind `word`.
pub fn worked_law()
    ensures frame { script_of_live 43 frame_lines ≡ Ok frame_script }
    ensures cuts { script_of_live 326 cut_lines ≡ Ok cut_script }
    ensures refused { answers (leg_in refused_lines) (sayings refused_lines) ≡ refused_answers }
    ensures behind { faults_behind begun_lines lone_words
        ≡ map (λ fault. Some (of_live fault)) lone_faults }
    ensures kinds { map live_kind lone_faults ≡ replicate 12 Order ++ replicate 8 Word }
{}
