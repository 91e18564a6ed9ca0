//! Replies to the lines of a live text.
ghost use Rattle.std.specs.Prelude.{◌≡◌, List, ℕ, None, OnOk, OnErr};
ghost use Rattle.command_parts.specs.Ends.{lent};
ghost use Rattle.command_parts.specs.Gives.{GivesTalk};
ghost use Rattle.command_parts.specs.Dialogue.{talk_of};
ghost use Rattle.walk_live.specs.declared.asked.Asked.{Asked};
ghost use Rattle.walk_live.specs.LiveTexts.{dialogue_of};
ghost use Rattle.walk_live.specs.Answering.{CanBeThere, IsThere};

use crate::answerer::Answerer;
use crate::asked::Asked;
use command_parts::{Ran, Stop, Talker, talk};
use octet_io::{ByteSink, ByteSource, Failed};
use std::alloc::{AllocError, Global};
use text_got::TextBlock;

/// Reads a live text, and has what answers it from its first live line on.
#[derive(Drop)]
struct LiveTalker<W: Answerer> {
    /// What is told of decision steps and passes.
    tells: Asked,
    reader: W::Reader,
    own: Option<W>,
}

/// Makes what answers, where there is nothing.
fn open<W: Answerer>(
    alloc: Global,
    tells: Asked,
    reader: &mut W::Reader,
    own: &mut Option<W>,
) -> Result<(), AllocError>
    requires { (ls : List (List ℕ)) × CanBeThere W.HasAnswered W.Waits own.old reader.old tells ls }
    ensures opens { (ls : List (List ℕ)) →
        CanBeThere W.HasAnswered W.Waits own.old reader.old tells ls →
        OnOk result (IsThere W.HasAnswered own.new tells ls) }
    ensures reads { (ls : List (List ℕ)) → W.HasRead reader.old ls → W.HasRead reader.new ls }
    ensures says { (says : W.Line) (ls : List (List ℕ)) (line : List ℕ) →
        W.Says reader.old says ls line → W.Says reader.new says ls line }
    ensures short { OnErr result (own.old ≡ None) }
{
    if own.is_some() {
        return Ok(());
    }
    match W::open(alloc, reader, tells) {
        Ok(new) => {
            *own = Some(new);
            Ok(())
        }
        Err(AllocError) => Err(AllocError),
    }
}

impl<W: Answerer> Talker for LiveTalker<W> {
    ghost use Rattle.walk_live.specs.LiveTexts.{dialogue_of};
    ghost use Rattle.walk_live.specs.Answering.{IsTalking};

    ghost dialogue = { λ talker. dialogue_of W.text talker.tells };

    ghost Hears = { λ talker heard.
        IsTalking W.text W.HasRead W.HasAnswered talker.tells talker.reader talker.own heard };

    fn reply<K: ByteSink>(
        &mut self,
        alloc: Global,
        line: &[u8],
        block: &mut TextBlock,
        out: &mut K,
    ) -> Result<(), Stop> {
        let says = match W::read(&mut self.reader, line) {
            Ok(Some(says)) => says,
            Ok(None) => return Ok(()),
            Err(stop) => return Err(stop),
        };
        match open(alloc, self.tells, &mut self.reader, &mut self.own) {
            Ok(()) => {}
            Err(AllocError) => return Err(Stop::Memory),
        }
        let Some(own) = &mut self.own else {
            unreachable!();
        };
        match own.say(says, &self.reader, block, out) {
            Ok(()) => Ok(()),
            Err(Failed) => Err(Stop::Write),
        }
    }

    fn finish<K: ByteSink>(
        &mut self,
        alloc: Global,
        block: &mut TextBlock,
        out: &mut K,
    ) -> Result<(), Stop> {
        match W::end(&mut self.reader) {
            Ok(()) => {}
            Err(why) => return Err(why),
        }
        match open(alloc, self.tells, &mut self.reader, &mut self.own) {
            Ok(()) => {}
            Err(AllocError) => return Err(Stop::Memory),
        }
        let Some(own) = &self.own else {
            unreachable!();
        };
        match own.say_last(block, out) {
            Ok(()) => Ok(()),
            Err(Failed) => Err(Stop::Write),
        }
    }
}

/// Answers a live text, with what is asked for of its decision steps and passes. A line is answered once its LF has
/// come, and what is answered to the lines that have come is put on `out` before more is read. Want of memory is
/// told only before anything is written.
pub fn converse<W: Answerer, S: ByteSource, K: ByteSink>(
    alloc: Global,
    tells: Asked,
    source: &mut S,
    out: &mut K,
) -> Result<Ran<()>, Stop>
    ensures { GivesTalk (lent S.left S.faults source.old source.new)
        (lent K.written K.faults out.old out.new) (talk_of (dialogue_of W.text tells))
        (λ _. Unit {0}) result }
{
    match W::new_reader(alloc) {
        Ok(reader) => talk(
            alloc,
            LiveTalker::<W> {
                tells,
                reader,
                own: None,
            },
            source,
            out,
        ),
        Err(AllocError) => Err(Stop::Memory),
    }
}
