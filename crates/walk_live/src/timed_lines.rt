//! Frames that come out are written as lines with the ticks made by then.
ghost use Rattle.std.specs.Prelude.{◌≡◌, ◌+◌, ◌*◌, ◌≤◌, ℕ, List, [], ◌∷◌, ◌++◌, OnOk, OnErr};
ghost use Rattle.std.specs.Prelude.{codes, decimal, length, take};
ghost use Rattle.hex.specs.Hex.{encode_lower};
ghost use Rattle.law_model.specs.Common.{AppendsPart, longest_frame};
ghost use Rattle.text_got.specs.TextSoFar.{Holds};
ghost use Rattle.walk_live.specs.TimedWriting.{HasTimed, block_of, got_words, out_of, timed_start, worded_text};
ghost use Rattle.walk_live.specs.TimedWriting.{worded_texts};

use law_model::FrameOut;
use octet_io::{ByteSink, Failed};
use text_got::TextBlock;
use text_report::{GOT_ROOM, TextCursor};

/// Room for the first words of a line, in octets.
const HEAD_ROOM: usize = 24;

/// Whose frames are told: those of a walk, or those of a way of a pair.
#[derive(Clone, Copy, Debug, PartialEq, Eq)]
pub enum Whose {
    /// Of a walk.
    Walk,
    /// Of the way there.
    There,
    /// Of the way back.
    Back,
}

/// Writes the line of each frame that it is given, with the ticks that are made, in a block that is lent. After a write
/// that failed it writes nothing more.
#[derive(Drop)]
pub struct TimedLines<'a, K> {
    /// Where lines are put where many wait.
    pub out: &'a mut K,
    /// Where they wait.
    pub block: &'a mut TextBlock,
    /// Whose frames they are.
    pub whose: Whose,
    /// How many ticks are made.
    pub ticks: u32,
    /// Whether a write has failed.
    pub failed: bool,
}

impl<'a, K: ByteSink> TimedLines<'a, K> {
    /// Writes lines with this number of ticks, behind what waits in `block`.
    pub fn new(
        whose: Whose,
        ticks: u32,
        block: &'a mut TextBlock,
        out: &'a mut K,
    ) -> TimedLines<'a, K>
        ensures out { out_of result ≡ out.entry.ghost_name }
        ensures block { block_of result ≡ block.entry.ghost_name }
        ensures fresh { HasTimed K.written K.faults result
            (timed_start K.written K.faults out.old (out_of result) (block_of result) ticks)
            (block.old ∷ got_words whose ∷ []) }
    {
        TimedLines {
            out,
            block,
            whose,
            ticks,
            failed: false,
        }
    }

    /// Whether no write has failed.
    pub fn end(&self) -> Result<(), Failed>
        ensures ok { (first : K) (out block ticks : ℕ) (waited words : List ℕ)
            (frames : List (List ℕ)) → HasTimed K.written K.faults self.now
            (timed_start K.written K.faults first out block ticks) (waited ∷ words ∷ frames) →
            OnOk result (Holds K.written K.faults first self.now.out.now self.now.block.now
            (waited ++ worded_texts words ticks frames)) }
        ensures err { (first : K) (out block ticks : ℕ) (waited words : List ℕ)
            (frames : List (List ℕ)) → HasTimed K.written K.faults self.now
            (timed_start K.written K.faults first out block ticks) (waited ∷ words ∷ frames) →
            OnErr result (AppendsPart K.written K.faults first self.now.out.now
            (waited ++ worded_texts words ticks frames)) }
    {
        if self.failed { Err(Failed) } else { Ok(()) }
    }
}

impl<'a, K: ByteSink> FrameOut for TimedLines<'a, K> {
    ghost use Rattle.walk_live.specs.TimedWriting.{HasTimed};

    ghost stands_for = { λ lines start frames. HasTimed K.written K.faults lines start frames };

    fn frame(&mut self, frame: &[u8]) {
        if self.failed {
            return;
        }
        match add_timed(self.whose, self.ticks, frame, self.block, self.out) {
            Ok(()) => {}
            Err(Failed) => self.failed = true,
        }
    }
}

/// Adds the line of a frame, and puts what waits where it is much.
fn add_timed<K: ByteSink>(
    whose: Whose,
    ticks: u32,
    frame: &[u8],
    block: &mut TextBlock,
    out: &mut K,
) -> Result<(), Failed>
    requires { length frame.now ≤ longest_frame }
    ensures ok { OnOk result (Holds K.written K.faults out.old out.new block.new
        (block.old ++ worded_text (got_words whose) ticks frame.now)) }
    ensures err { OnErr result (AppendsPart K.written K.faults out.old out.new
        (block.old ++ worded_text (got_words whose) ticks frame.now)) }
{
    let mut head = [0u8; HEAD_ROOM];
    let end = head_text(whose, ticks, &mut head);
    match block.add(&head[..end], out) {
        Ok(()) => {}
        Err(Failed) => return Err(Failed),
    }
    let mut rest = [0u8; GOT_ROOM];
    let end = rest_text(frame, &mut rest);
    block.add(&rest[..end], out)
}

/// The first words of the line of a frame.
fn first_words(whose: Whose) -> &'static [u8]
    ensures words { result.now ≡ got_words whose }
    ensures short { length result.now ≤ 10 }
{
    match whose {
        Whose::Walk => b"got ",
        Whose::There => b"got there ",
        Whose::Back => b"got back ",
    }
}

/// Writes the words of a line that stand before the digits of its frame.
fn head_text(whose: Whose, ticks: u32, out: &mut [u8]) -> usize
    requires room { 24 ≤ length out.old }
    ensures within { result ≤ 24 }
    ensures text { take result out.new ≡ got_words whose ++ decimal ticks ++ codes " " }
{
    let mut line = TextCursor::new(out);
    line.number(first_words(whose), ticks);
    line.text(b" ");
    line.end()
}

/// Writes the digits of a frame, and the end of its line.
fn rest_text(frame: &[u8], out: &mut [u8]) -> usize
    requires room { 2 * length frame.now + 1 ≤ length out.old }
    ensures within { result ≡ 2 * length frame.now + 1 }
    ensures text { take result out.new ≡ encode_lower frame.now ++ codes "\n" }
{
    let mut line = TextCursor::new(out);
    line.hex(frame);
    line.text(b"\n");
    line.end()
}
