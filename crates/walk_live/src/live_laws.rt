//! What a conversation is worth.
ghost use Rattle.std.specs.Prelude.{◌≡◌, List, ℕ, ◌≤◌, ◌++◌, length, None};
ghost use Rattle.law_model.specs.Common.{longest_input};
ghost use Rattle.law_model.specs.declared.script_types.Script.{Script};
ghost use Rattle.text_live.specs.LiveLines.{nothing_said, opening_fault};
ghost use Rattle.text_live.specs.Sayings.{AreFine, leg_in, said_in, sayings};
ghost use Rattle.command_parts.specs.Dialogue.{course_of, nothing_heard, talk_of};
ghost use Rattle.walk_live.specs.LiveReplies.{answered, live_dialogue};
ghost use Rattle.walk_live.specs.Headline.{IsLiveHeadline, IsWalkOf};
ghost use Rattle.walk_live.specs.declared.asked.Asked.{Asked};

/// What is said to octets are the answers to the lines that were heard, of the session of which these say all. None of
/// them is faulty; by `dialogue_law` they are the whole lines so far, but for the one at which the conversation ended,
/// where it did, and those behind it. What was answered stands, whatever lines follow: the answers to more lines begin
/// with it. Afterwards there is a script that can be walked, of which a walk writes the same frames, refused items and
/// totals. So the headline holds of each conversation that comes to its end.
pub fn live_law()
    ensures answers { (asked : Asked) (octets : List ℕ) →
        (let heard = (course_of octets (nothing_heard (live_dialogue asked))).heard in
        heard.said ≡ answered asked (leg_in heard.lines) (sayings heard.lines)) }
    ensures fine { (asked : Asked) (octets : List ℕ) →
        AreFine nothing_said (course_of octets (nothing_heard (live_dialogue asked))).heard.lines }
    ensures grows { (asked : Asked) (ls more : List (List ℕ)) →
        AreFine nothing_said (ls ++ more) → length (ls ++ more) ≤ longest_input →
        (rest : List ℕ) × (answered asked (leg_in (ls ++ more)) (sayings (ls ++ more))
        ≡ answered asked (leg_in ls) (sayings ls) ++ rest) }
    ensures walk { (ls : List (List ℕ)) → length ls ≤ longest_input → AreFine nothing_said ls →
        opening_fault (said_in ls).live (said_in ls).settings ≡ None →
        (script : Script) × IsWalkOf ls script }
    ensures headline { (asked : Asked) (text : List ℕ) →
        ((talk_of (live_dialogue asked)).in_all text).end ≡ None →
        IsLiveHeadline asked text ((talk_of (live_dialogue asked)).in_all text).text }
{}
