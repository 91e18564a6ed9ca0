//! What a conversation with a pair is worth.
ghost use Rattle.std.specs.Prelude.{◌≡◌, List, ℕ, ◌≤◌, ◌++◌, length, None};
ghost use Rattle.law_model.specs.Common.{longest_input};
ghost use Rattle.command_parts.specs.Dialogue.{course_of, nothing_heard, talk_of};
ghost use Rattle.walk_live.specs.declared.asked.Asked.{Asked};
ghost use Rattle.pair_live.specs.PairDialogue.{lines_answered, pair_dialogue};
ghost use Rattle.pair_live.specs.PairHeadline.{IsLivePairHeadline, IsPairWalkOf};
ghost use Rattle.pair_live.specs.PairLines.{nothing_said, pair_opening_fault};
ghost use Rattle.pair_live.specs.PairSayingsOfLines.{AreFine, pair_said_in};

/// What is said to octets are the answers to the lines that were heard, of the two scripts of which these say all. None
/// of them is faulty; by `dialogue_law` they are the whole lines so far, but for the one at which the conversation
/// ended, where it did, and those behind it. What was answered stands, whatever lines follow in either way: the answers
/// to more lines begin with it. Afterwards the two scripts are a pair, of which `pair` writes, of each way, the frames
/// that were answered first, and some more where rows were left; and just the items that were refused. And the headline
/// holds of what was answered of each way, in each conversation that comes to its end.
pub fn live_pair_law()
    ensures answers { (asked : Asked) (octets : List ℕ) →
        (let heard = (course_of octets (nothing_heard (pair_dialogue asked))).heard in
        heard.said ≡ lines_answered asked heard.lines) }
    ensures fine { (asked : Asked) (octets : List ℕ) →
        AreFine nothing_said (course_of octets (nothing_heard (pair_dialogue asked))).heard.lines }
    ensures grows { (asked : Asked) (ls more : List (List ℕ)) →
        AreFine nothing_said (ls ++ more) → length (ls ++ more) ≤ longest_input →
        (rest : List ℕ) × (lines_answered asked (ls ++ more) ≡ lines_answered asked ls ++ rest) }
    ensures walk { (ls : List (List ℕ)) → length ls ≤ longest_input → AreFine nothing_said ls →
        pair_opening_fault (pair_said_in ls) ≡ None → IsPairWalkOf ls }
    ensures headline { (asked : Asked) (text : List ℕ) →
        ((talk_of (pair_dialogue asked)).in_all text).end ≡ None →
        IsLivePairHeadline asked text ((talk_of (pair_dialogue asked)).in_all text).text }
{}
