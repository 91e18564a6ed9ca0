//! What a dialogue says is a conversation, and it is said to the lines of the octets.
ghost use Rattle.std.specs.Prelude.{◌≡◌, ℕ, List, ◌++◌, None};
ghost use Rattle.std.specs.Str.Lines.{lines};
ghost use Rattle.command_parts.specs.Talk.{IsTalk};
ghost use Rattle.command_parts.specs.Dialogue.{Dialogue, course_of, last_line, nothing_heard, talk_of, IsParting};

/// Whatever is replied to lines: what was said to octets stands, and what ended the conversation has ended it,
/// whatever octets follow; and the end of the input takes nothing back. What was heard are the lines of the octets: all
/// but the one at which it stands, where nothing ended it, and else the first of them. Where nothing ends it, what is
/// said in all is said to all lines and then to the end.
pub fn dialogue_law()
    ensures talk { (dialogue : Dialogue) → IsTalk (talk_of dialogue) }
    ensures heard { (dialogue : Dialogue) (octets : List ℕ) →
        (let course = course_of octets (nothing_heard dialogue) in course.end ≡ None →
        lines octets ≡ course.heard.lines ++ last_line course.line) }
    ensures first { (dialogue : Dialogue) (octets : List ℕ) →
        (let course = course_of octets (nothing_heard dialogue) in
        (rest : List (List ℕ)) × (lines octets ≡ course.heard.lines ++ rest)) }
    ensures closed { (dialogue : Dialogue) (octets : List ℕ) →
        ((talk_of dialogue).in_all octets).end ≡ None →
        IsParting dialogue (lines octets) ((talk_of dialogue).in_all octets) }
{}
