//! Frames are written as lines of text, which wait in a block that is lent.
ghost use Rattle.std.specs.Prelude.{◌≡◌, ℕ, List, [], OnOk, OnErr};
ghost use Rattle.law_model.specs.Common.{Appends, AppendsPart};
ghost use Rattle.text_got.specs.TextSoFar.{start_at};
ghost use Rattle.text_got.specs.LentText.{HasText, name_of};

use crate::text_block::TextBlock;
use law_model::FrameOut;
use octet_io::{ByteSink, Failed};

/// Writes the line of each frame that it is given. After a write that failed it writes nothing more.
pub struct LentGotLines<'a, K> {
    out: &'a mut K,
    block: &'a mut TextBlock,
    failed: bool,
}

impl<'a, K: ByteSink> LentGotLines<'a, K> {
    /// Nothing was written, and nothing waits.
    pub fn new(out: &'a mut K, block: &'a mut TextBlock) -> LentGotLines<'a, K>
        ensures name { name_of result ≡ out.entry.ghost_name }
        ensures fresh { HasText K.written K.faults result
            (start_at K.written K.faults out.old (name_of result)) [] }
    {
        block.clear();
        LentGotLines {
            out,
            block,
            failed: false,
        }
    }

    /// Writes what waits. Answers where the lines were written, and whether all of them were.
    pub fn finish(self) -> (&'a mut K, Result<(), Failed>)
        ensures name { result.0.ghost_name ≡ name_of self.entry }
        ensures ok { (first : K) (text : List ℕ) → HasText K.written K.faults self.entry
            (start_at K.written K.faults first (name_of self.entry)) text →
            OnOk result.1 (Appends K.written K.faults first result.0.now text) }
        ensures err { (first : K) (text : List ℕ) → HasText K.written K.faults self.entry
            (start_at K.written K.faults first (name_of self.entry)) text →
            OnErr result.1 (AppendsPart K.written K.faults first result.0.now text) }
    {
        let LentGotLines { out, block, failed } = self;
        if failed {
            return (out, Err(Failed));
        }
        let end = block.put(out);
        (out, end)
    }
}

impl<'a, K: ByteSink> FrameOut for LentGotLines<'a, K> {
    ghost use Rattle.text_report.specs.ReportLines.{got_texts};
    ghost use Rattle.text_got.specs.LentText.{HasText};

    ghost stands_for = { λ got start frames.
        HasText K.written K.faults got start (got_texts frames) };

    fn frame(&mut self, frame: &[u8]) {
        if self.failed {
            return;
        }
        match self.block.add_got(frame, self.out) {
            Ok(()) => {}
            Err(Failed) => self.failed = true,
        }
    }
}
