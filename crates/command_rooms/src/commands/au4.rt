//! `au4`: numbered VC-4s are carried over a link of AU-4 frames, and a line is written of each that comes whole.
ghost use Rattle.std.specs.Prelude.{◌≡◌, ℕ, List, Ok, None, map, string_bytes};
ghost use Rattle.command_parts.specs.Task.{reads, writes};
ghost use Rattle.command_parts.specs.Ends.{lent};
ghost use Rattle.command_parts.specs.Gives.{GivesAlone};
ghost use Rattle.member_au4.specs.declared.au4_link.au4_draft.Link.{Link};
ghost use Rattle.member_au4.specs.au4_link.Link.{link_of};
ghost use Rattle.member_au4.specs.au4_link.Carried.{carried_text};
ghost use Rattle.command_rooms.specs.commands.Au4.{au4_words, au4_answer};

use crate::walk_command::WalkCommand;
use command_parts::{Ran, Stop, faulty_line, read_input};
use member_au4::au4_link::{read_link, write_link};
use octet_io::{ByteSink, ByteSource};
use std::alloc::Global;
use text_lines::TextFault;
use walk_engine::walk_core::Walk;

/// The words `au4`.
pub fn words(words: &[String]) -> Option<WalkCommand>
    ensures { result ≡ au4_words (map string_bytes words.now) }
{
    match words {
        [word] if word.as_str() == "au4" => Some(WalkCommand::Au4),
        _ => None,
    }
}

/// Reads what the pointers of a link do, and writes what comes of numbered VC-4s on it.
pub fn au4<S: ByteSource, K: ByteSink>(
    alloc: Global,
    script: &mut S,
    out: &mut K,
) -> Result<Ran<Option<Walk>>, Stop>
    ensures { GivesAlone (lent S.left S.faults script.old script.new)
        (lent K.written K.faults out.old out.new)
        (reads au4_answer) (λ walk. walk ≡ None) result }
{
    let text = match read_input(alloc, script) {
        Ok(text) => text,
        Err(stop) => return Err(stop),
    };
    let link = match read_link(alloc, text.as_slice()) {
        Ok(link) => link,
        Err(TextFault::Memory) => return Err(Stop::Memory),
        Err(TextFault::Line { number, fault }) => {
            return Err(Stop::Refused(faulty_line(number, fault)));
        }
    };
    let written = write_link(&link, out);
    Ok(Ran {
        made: None,
        written,
    })
}

/// Of each text that says a link, what is written is a line for each VC-4 that a sink gives of the frames that a
/// source sends with the numbered VC-4s, and the counts; which these are, `au4_link::text_law` of `member_au4` says.
pub fn au4_law()
    ensures { (text : List ℕ) (link : Link) → link_of text ≡ Ok link →
        au4_answer text ≡ writes (carried_text link) }
{}
