//! An input that is answered line by line, as it comes.
ghost use Rattle.std.specs.Prelude.{◌≡◌, ◌⊎◌, ℕ, ◌+◌, ◌<◌, ◌≤◌, List, length, drop, IsErr};
ghost use Rattle.std.specs.Prelude.{IfOk, IfErr, OnOk, OnErr, None, false};
ghost use Rattle.text_lines.specs.Cut.{Lacks};
ghost use Rattle.command_parts.specs.Talk.{Said};
ghost use Rattle.command_parts.specs.Dialogue.{Heard, reply_to, last_reply, is_long, course_of, said_by, closed};
ghost use Rattle.command_parts.specs.Dialogue.{nothing_heard, parting, talk_of};
ghost use Rattle.command_parts.specs.Conversation.{IsSaid, IsWritten, IsCutShort, Listens, Stands, StandsSomewhere};
ghost use Rattle.command_parts.specs.Conversation.{HasHeard, HasHeardLines, StopsHearing, StopsSaying, StopsSaid};
ghost use Rattle.command_parts.specs.Replies.{CanReply, HasHeardSome};
ghost use Rattle.command_parts.specs.Ends.{lent};
ghost use Rattle.command_parts.specs.Gives.{GivesTalk};

use crate::intake::Intake;
use crate::stop_and_status::{Ran, Stop};
use octet_io::{ByteSink, ByteSource, Failed};
use std::alloc::Global;
use text_got::TextBlock;
use text_lines::{cut, without_return};

/// The most octets of a line without its LF.
const LONGEST_LINE: usize = 262_144;

/// The most lines of an input.
const MOST_INPUT_LINES: u32 = 67_108_864;

/// Replies to the lines of an input, each once it is whole. Memory may be short only before anything was said.
pub trait Talker: Drop {
    ghost use Rattle.std.specs.Prelude.{◌≡◌, ℕ, List, ◌++◌, Ok, OnOk, IfErr};
    ghost use Rattle.command_parts.specs.Dialogue.{Dialogue, Heard, heard_more, reply_to, last_reply};
    ghost use Rattle.command_parts.specs.Replies.{CanReply, HasHeardSome, HasReplied, StopsReply};

    /// What it replies, from its start on.
    ghost dialogue: { Self → Dialogue };

    /// It was made by its calls, and has heard this and replied to it.
    ghost Hears: { Self → Heard → Type 0 };

    /// Replies to a line, which is given without its end. What is said waits in `block`, or goes out where it is much.
    fn reply<K: ByteSink>(
        &mut self,
        alloc: Global,
        line: &[u8],
        block: &mut TextBlock,
        out: &mut K,
    ) -> Result<(), Stop>
        requires { CanReply Hears self.old line.now }
        ensures hears { (heard : Heard) (text : List ℕ) → Hears self.old heard →
            reply_to heard line.now ≡ Ok text →
            OnOk result (Hears self.new (heard_more heard line.now text)) }
        ensures replied { (heard : Heard) → Hears self.old heard →
            OnOk result (HasReplied K.written K.faults out.old out.new block.old block.new
            (reply_to heard line.now)) }
        ensures stopped { (heard : Heard) → Hears self.old heard →
            IfErr result (StopsReply K.written K.faults out.old out.new block.old block.new heard
            (reply_to heard line.now)) };

    /// Replies to the end of the input.
    fn finish<K: ByteSink>(
        &mut self,
        alloc: Global,
        block: &mut TextBlock,
        out: &mut K,
    ) -> Result<(), Stop>
        requires { HasHeardSome Hears self.old }
        ensures replied { (heard : Heard) → Hears self.old heard →
            OnOk result (HasReplied K.written K.faults out.old out.new block.old block.new
            (last_reply heard)) }
        ensures stopped { (heard : Heard) → Hears self.old heard →
            IfErr result (StopsReply K.written K.faults out.old out.new block.old block.new heard
            (last_reply heard)) };
}

/// One who talks, and the number of lines that it has heard.
#[derive(Drop)]
pub(crate) struct Listener<T> {
    talker: T,
    lines: u32,
}

impl<T: Talker> Listener<T> {
    /// Whether the next line would have too many octets, or be one too many.
    fn is_long(&self, line: &[u8]) -> bool
        ensures long { (heard : Heard) → Listens T.Hears self.now heard →
            result ≡ is_long heard line.now }
        ensures fits { result ≡ false →
            (length line.now ≤ 262144) × (self.now.lines < 67108864) }
    {
        line.len() > LONGEST_LINE || self.lines >= MOST_INPUT_LINES
    }

    /// Hears a line without its end.
    fn hear<K: ByteSink>(
        &mut self,
        alloc: Global,
        line: &[u8],
        block: &mut TextBlock,
        out: &mut K,
    ) -> Result<(), Stop>
        requires can { CanReply T.Hears self.old.talker line.now }
        requires few { self.old.lines < 67108864 }
        ensures more { OnOk result (self.new.lines ≡ self.old.lines + 1) }
        ensures heard { (first : K) (earlier : List ℕ) (heard : Heard) →
            Stands T.Hears K.written K.faults first earlier self.old out.old block.old heard →
            OnOk result (HasHeard T.Hears K.written K.faults first earlier self.new out.new
            block.new heard line.now) }
        ensures stopped { (first : K) (earlier : List ℕ) (heard : Heard) →
            Stands T.Hears K.written K.faults first earlier self.old out.old block.old heard →
            IfErr result (StopsHearing K.written K.faults first earlier out.new block.new heard
            (reply_to heard line.now)) }
    {
        match self.talker.reply(alloc, line, block, out) {
            Ok(()) => {
                self.lines += 1;
                Ok(())
            }
            Err(stop) => Err(stop),
        }
    }

    /// Hears that the input has come to its end.
    fn hear_end<K: ByteSink>(
        &mut self,
        alloc: Global,
        block: &mut TextBlock,
        out: &mut K,
    ) -> Result<(), Stop>
        requires { HasHeardSome T.Hears self.old.talker }
        ensures whole { (first : K) (earlier : List ℕ) (heard : Heard) →
            Stands T.Hears K.written K.faults first earlier self.old out.old block.old heard →
            OnOk result ((parting heard (last_reply heard)).end ≡ None) }
        ensures said { (first : K) (earlier : List ℕ) (heard : Heard) →
            Stands T.Hears K.written K.faults first earlier self.old out.old block.old heard →
            OnOk result (IsSaid K.written K.faults first earlier out.new block.new
            (parting heard (last_reply heard)).text) }
        ensures stopped { (first : K) (earlier : List ℕ) (heard : Heard) →
            Stands T.Hears K.written K.faults first earlier self.old out.old block.old heard →
            IfErr result (StopsSaying K.written K.faults first earlier out.new block.new
            (parting heard (last_reply heard))) }
    {
        match self.talker.finish(alloc, block, out) {
            Ok(()) => Ok(()),
            Err(stop) => Err(stop),
        }
    }
}

/// Hears the whole lines at the front of octets, and answers how many octets they have with their LFs.
fn hear_lines<T: Talker, K: ByteSink>(
    listener: &mut Listener<T>,
    alloc: Global,
    octets: &[u8],
    block: &mut TextBlock,
    out: &mut K,
) -> Result<usize, Stop>
    requires { StandsSomewhere T.Hears K.written K.faults listener.old out.old block.old }
    ensures within { IfOk result (λ n. n ≤ length octets.now) }
    ensures moves { IfOk result
        (λ n. (n ≡ 0) ⊎ (listener.old.lines < listener.new.lines)) }
    ensures rises { IfOk result (λ _. listener.old.lines ≤ listener.new.lines) }
    ensures few { IfOk result (λ _.
        listener.old.lines ≤ 67108864 → listener.new.lines ≤ 67108864) }
    ensures lacks { IfOk result (λ n. Lacks 10 (drop n octets.now)) }
    ensures short { IfOk result (λ n. length octets.now ≤ n + 262144) }
    ensures few_behind { IfOk result
        (λ n. (n ≡ length octets.now) ⊎ (listener.new.lines < 67108864)) }
    ensures heard { (first : K) (earlier : List ℕ) (heard : Heard) →
        Stands T.Hears K.written K.faults first earlier listener.old out.old block.old heard →
        IfOk result (λ n. HasHeardLines T.Hears K.written K.faults first earlier listener.new
        out.new block.new heard octets.now (drop n octets.now)) }
    ensures stopped { (first : K) (earlier : List ℕ) (heard : Heard) →
        Stands T.Hears K.written K.faults first earlier listener.old out.old block.old heard →
        IfErr result (StopsSaying K.written K.faults first earlier out.new block.new
        (said_by (course_of octets.now heard))) }
{
    let mut rest = octets;
    while let Some((line, later)) = cut(rest, b'\n') {
        if listener.is_long(line) {
            return Err(Stop::TooLong);
        }
        match listener.hear(alloc, without_return(line), block, out) {
            Ok(()) => rest = later,
            Err(stop) => return Err(stop),
        }
    }
    if !rest.is_empty() && listener.is_long(rest) {
        return Err(Stop::TooLong);
    }
    Ok(octets.len() - rest.len())
}

/// Replies to what is left at the end of an input, a line without its LF, where there is one.
fn hear_rest<T: Talker, K: ByteSink>(
    listener: &mut Listener<T>,
    alloc: Global,
    rest: &[u8],
    block: &mut TextBlock,
    out: &mut K,
) -> Result<(), Stop>
    requires stands { StandsSomewhere T.Hears K.written K.faults listener.old out.old block.old }
    requires lacks { Lacks 10 rest.now }
    requires short { length rest.now ≤ 262144 }
    requires few { (0 ≡ length rest.now) ⊎ (listener.old.lines < 67108864) }
    ensures whole { (first : K) (earlier : List ℕ) (heard : Heard) →
        Stands T.Hears K.written K.faults first earlier listener.old out.old block.old heard →
        OnOk result ((closed heard rest.now).end ≡ None) }
    ensures said { (first : K) (earlier : List ℕ) (heard : Heard) →
        Stands T.Hears K.written K.faults first earlier listener.old out.old block.old heard →
        OnOk result (IsSaid K.written K.faults first earlier out.new block.new
        (closed heard rest.now).text) }
    ensures stopped { (first : K) (earlier : List ℕ) (heard : Heard) →
        Stands T.Hears K.written K.faults first earlier listener.old out.old block.old heard →
        IfErr result (StopsSaying K.written K.faults first earlier out.new block.new
        (closed heard rest.now)) }
{
    if rest.is_empty() {
        return listener.hear_end(alloc, block, out);
    }
    match listener.hear(alloc, rest, block, out) {
        Ok(()) => listener.hear_end(alloc, block, out),
        Err(stop) => Err(stop),
    }
}

/// Puts what was said before a conversation stopped.
fn stopped<K: ByteSink>(stop: Stop, block: &mut TextBlock, out: &mut K) -> Result<Ran<()>, Stop>
    ensures cut { (first : K) (earlier : List ℕ) (is : Said) →
        StopsSaying K.written K.faults first earlier out.old block.old is stop →
        IfOk result (λ own. IsErr own.written
        × IsCutShort K.written K.faults first earlier out.new is.text) }
    ensures stops { (first : K) (earlier : List ℕ) (is : Said) →
        StopsSaying K.written K.faults first earlier out.old block.old is stop →
        IfErr result (StopsSaid K.written K.faults first earlier out.new is) }
{
    match stop {
        Stop::Write => Ok(Ran {
            made: (),
            written: Err(Failed),
        }),
        Stop::Memory => Err(Stop::Memory),
        stop => match block.put(out) {
            Ok(()) => Err(stop),
            Err(Failed) => Ok(Ran {
                made: (),
                written: Err(Failed),
            }),
        },
    }
}

/// Ends a conversation whose input has come to its end.
fn close<T: Talker, K: ByteSink>(
    listener: &mut Listener<T>,
    alloc: Global,
    rest: &[u8],
    block: &mut TextBlock,
    out: &mut K,
) -> Result<Ran<()>, Stop>
    requires stands { StandsSomewhere T.Hears K.written K.faults listener.old out.old block.old }
    requires lacks { Lacks 10 rest.now }
    requires short { length rest.now ≤ 262144 }
    requires few { (0 ≡ length rest.now) ⊎ (listener.old.lines < 67108864) }
    ensures whole { (first : K) (earlier : List ℕ) (heard : Heard) →
        Stands T.Hears K.written K.faults first earlier listener.old out.old block.old heard →
        IfOk result (λ own. OnOk own.written ((closed heard rest.now).end ≡ None
        × IsWritten K.written K.faults first earlier out.new (closed heard rest.now).text)) }
    ensures cut { (first : K) (earlier : List ℕ) (heard : Heard) →
        Stands T.Hears K.written K.faults first earlier listener.old out.old block.old heard →
        IfOk result (λ own. OnErr own.written
        (IsCutShort K.written K.faults first earlier out.new (closed heard rest.now).text)) }
    ensures stops { (first : K) (earlier : List ℕ) (heard : Heard) →
        Stands T.Hears K.written K.faults first earlier listener.old out.old block.old heard →
        IfErr result (StopsSaid K.written K.faults first earlier out.new (closed heard rest.now)) }
{
    match hear_rest(listener, alloc, rest, block, out) {
        Ok(()) => Ok(Ran {
            made: (),
            written: block.put(out),
        }),
        Err(stop) => stopped(stop, block, out),
    }
}

/// Answers an input line by line: what is replied to the whole lines that have come is put on `out` before more is
/// read. A line of more than 262,144 octets is too long, also while its LF hasn't come, and so is what comes
/// behind line 67,108,864. A put that fails ends it at once.
pub fn talk<T: Talker, S: ByteSource, K: ByteSink>(
    alloc: Global,
    talker: T,
    source: &mut S,
    out: &mut K,
) -> Result<Ran<()>, Stop>
    requires { T.Hears talker (nothing_heard (T.dialogue talker)) }
    ensures { GivesTalk (lent S.left S.faults source.old source.new)
        (lent K.written K.faults out.old out.new) (talk_of (T.dialogue talker))
        (λ _. Unit {0}) result }
{
    let mut listener = Listener { talker, lines: 0 };
    let mut intake = Intake::new();
    let mut block = TextBlock::new();
    loop {
        let n = match intake.take_quiet(source, &block) {
            Ok(n) => n,
            Err(Failed) => return Err(Stop::Read),
        };
        if n == 0 {
            return close(&mut listener, alloc, intake.octets(), &mut block, out);
        }
        match hear_lines(&mut listener, alloc, intake.octets(), &mut block, out) {
            Ok(heard) => intake.let_go(heard),
            Err(stop) => return stopped(stop, &mut block, out),
        }
        match block.put(out) {
            Ok(()) => {}
            Err(Failed) => {
                return Ok(Ran {
                    made: (),
                    written: Err(Failed),
                });
            }
        }
    }
}
