//! The program as a call: words, an input and two outputs in, a status and a walk out.
ghost use Rattle.std.specs.Prelude.{◌≡◌, ◌≢◌, List, ℕ, IfSome, Some, None};
ghost use Rattle.law_model.specs.Common.{Appends};
ghost use Rattle.law_headline.specs.Headline.{IsWalkHeadline};
ghost use Rattle.walk_live.specs.Headline.{IsLiveHeadline};
ghost use Rattle.walk_live.specs.declared.asked.Asked.{Asked};
ghost use Rattle.pair_live.specs.PairHeadline.{IsLivePairHeadline};
ghost use Rattle.command_parts.specs.Status.{HasRunAt};
ghost use Rattle.command_parts.specs.Ends.{Ends, lent};
ghost use Rattle.command_rooms.specs.declared.walk_command.WalkCommand.TheVariants.{Live, LivePair};
ghost use Rattle.command_rooms.specs.declared.walk_command.WalkCommand.TheVariants.{Pair};
ghost use Rattle.command_walk.specs.commands.Pair.{TellsPair};
ghost use Rattle.command_rooms.specs.CommandOfWords.{command_in};
ghost use Rattle.command_walk.specs.WordsOfCommands.{task_of, HandsBack, RunsScript};

use crate::command_of_words::{no_command, run};
use crate::walk_end::{WalkEnd, end_of};
use command_parts::Stop;
use command_words::{WordFault, read_words};
use octet_io::{ByteSink, ByteSource};
use std::alloc::Global;

/// Runs the command that the words say: what each reads and writes stands at its name in `WalkCommand`, and exactly
/// in the definition of its answer.
///
/// The status is 2 where the words are no command, 3 where the input can't be read, 8 where it, or the script that
/// `stream`, `pair there` or `pair back` would write, has more than 67,108,864 octets, 5 where one of its lines is faulty, or of a capture its head or
/// a record, 6 where a script's slips, spread or lag don't fit, it has no line of the number that `h4` is
/// told, or two scripts don't go together,
/// 4 where an output can't be written, 7 where memory is short, and else 0. Of those that hold the first in
/// this order is told; want of memory may come in the place of any but 2, before anything is written. A note
/// says on `notes` what went wrong. After a fault nothing more is written but that note. At each status but 0
/// and 4 nothing is written on `out`, but of `live` and `live pair`: there 8 comes where a line has more than
/// 262,144 octets, or more comes behind line 67,108,864; what comes first in the text is told, and what is
/// answered to the lines before stands.
pub fn walk_top<S: ByteSource, K: ByteSink, E: ByteSink>(
    alloc: Global,
    words: &[String],
    script: &mut S,
    out: &mut K,
    notes: &mut E,
) -> WalkEnd
    // By the status: what was read, what of it is answered, what is written of that and where, and which call
    // failed. What a command answers is one definition a command, and `task_of` names it by the words. What
    // an end says stands fact by fact in `end_law`.
    ensures ends { Ends (lent S.left S.faults script.old script.new)
        (lent K.written K.faults out.old out.new) (lent E.written E.faults notes.old notes.new)
        (task_of words.now) result.status }

    // The headline, of a source that tells its octets: what is written of a script is, in order and each
    // once, exactly those accepted frames that the taken rows carry and that aren't lost, as got lines; then
    // the refused items and the totals.
    ensures headline { IfSome (command_in words.now) (λ command. RunsScript command →
        result.status ≡ 0 → IfSome (S.left script.old) (λ text. (written : List ℕ)
        × Appends K.written K.faults out.old out.new written × IsWalkHeadline text written)) }

    // That of a pair: what is written on `out` is the headline of the way there, and what is written on
    // `notes` that of the way back.
    ensures ways { command_in words.now ≡ Some Pair → result.status ≡ 0 → IfSome (S.left script.old)
        (TellsPair (lent K.written K.faults out.old out.new)
        (lent E.written E.faults notes.old notes.new)) }

    // That of a conversation: what is written are the answers to the lines of its text, and then the totals;
    // and afterwards there is a script of which a walk writes the same frames, refused items and totals, so
    // that the headline holds of them.
    ensures live { (asked : Asked) → command_in words.now ≡ Some (Live asked) → result.status ≡ 0 →
        IfSome (S.left script.old) (λ text. (written : List ℕ)
        × Appends K.written K.faults out.old out.new written × IsLiveHeadline asked text written) }

    // That of a conversation of both ways: what is written are the answers to the lines of its text, and then the
    // totals of each way; and afterwards there are two scripts that make a pair, of which `pair` writes, of each
    // way, first the frames that were told, and the same refused items; and the headline holds of what was told
    // of each way.
    ensures live_pair { (asked : Asked) → command_in words.now ≡ Some (LivePair asked) → result.status ≡ 0 →
        IfSome (S.left script.old) (λ text. (written : List ℕ)
        × Appends K.written K.faults out.old out.new written × IsLivePairHeadline asked text written) }

    // The walk that is handed back has made all events of its script, also where a write failed.
    ensures handed { IfSome (command_in words.now) (λ command. HasRunAt result.status →
        HandsBack (lent S.left S.faults script.old script.new) result.walk command) }
    ensures kept { result.status ≢ 0 → result.status ≢ 4 → result.walk ≡ None }
{
    match read_words(alloc, words) {
        Ok(command) => end_of(run(alloc, command, script, out, notes), notes),
        Err(WordFault::Usage) => no_command(notes),
        Err(WordFault::Memory) => end_of(Err(Stop::Memory), notes),
    }
}
