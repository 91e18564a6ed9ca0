//! Frames are written as lines of text.
ghost use Rattle.std.specs.Prelude.{◌≡◌, ◌≤◌, ℕ, Bool, List, [], ◌++◌, length, false, OnOk, OnErr};
ghost use Rattle.hex.specs.Hex.{encode_lower};
ghost use Rattle.law_model.specs.Common.{Appends, AppendsPart, Start, longest_frame, longest_got_line};
ghost use Rattle.text_got.specs.TextSoFar.{HasText, GivesUp, name_of, has_failed, start_at};

use crate::text_block::TextBlock;
use law_model::{FrameOut, LONGEST_FRAME};
use octet_io::{ByteSink, Failed};

/// Frames go out on something that may fail.
pub trait MayFail: FrameOut {
    ghost has_failed: { Self → Bool };

    /// Whether something failed.
    fn failed(&self) -> bool
        ensures { result ≡ has_failed self.now };
}

/// Writes the line of each frame that it is given, and other lines. After a write that failed it writes nothing more.
pub struct GotLines<'a, K> {
    out: &'a mut K,
    block: TextBlock,
    failed: bool,
}

impl<'a, K: ByteSink> GotLines<'a, K> {
    /// Nothing was written.
    pub fn new(out: &'a mut K) -> GotLines<'a, K>
        ensures name { name_of result ≡ out.entry.ghost_name }
        ensures fresh { HasText K.written K.faults result
            (start_at K.written K.faults out.old (name_of result)) [] }
        ensures whole { has_failed result ≡ false }
    {
        GotLines {
            out,
            block: TextBlock::new(),
            failed: false,
        }
    }

    /// Writes a line of at most 19,205 octets.
    pub fn line(&mut self, text: &[u8])
        requires { length text.now ≤ longest_got_line }
        ensures { (start : Start) (before : List ℕ) →
            HasText K.written K.faults self.old start before →
            HasText K.written K.faults self.new start (before ++ text.now) }
    {
        if self.failed {
            return;
        }
        match self.block.add(text, self.out) {
            Ok(()) => {}
            Err(Failed) => self.failed = true,
        }
    }

    /// Writes the digits of at most 9,600 octets.
    fn digits(&mut self, octets: &[u8])
        requires { length octets.now ≤ longest_frame }
        ensures { (start : Start) (before : List ℕ) →
            HasText K.written K.faults self.old start before →
            HasText K.written K.faults self.new start (before ++ encode_lower octets.now) }
    {
        if self.failed {
            return;
        }
        match self.block.add_hex(octets, self.out) {
            Ok(()) => {}
            Err(Failed) => self.failed = true,
        }
    }

    /// Writes octets in hexadecimal digits, two lower-case digits each.
    pub fn hex(&mut self, octets: &[u8])
        ensures { (start : Start) (before : List ℕ) →
            HasText K.written K.faults self.old start before →
            HasText K.written K.faults self.new start (before ++ encode_lower octets.now) }
    {
        let mut at = 0;
        while at < octets.len() {
            let end = octets.len().min(at + LONGEST_FRAME);
            self.digits(&octets[at..end]);
            at = end;
        }
    }

    /// Writes what waits. Answers where the lines were written, and whether all of them were.
    pub fn finish(self) -> (&'a mut K, Result<(), Failed>)
        ensures name { result.0.ghost_name ≡ name_of self.entry }
        ensures ok { (first : K) (text : List ℕ) → HasText K.written K.faults self.entry
            (start_at K.written K.faults first (name_of self.entry)) text →
            OnOk result.1 (Appends K.written K.faults first result.0.now text) }
        ensures err { (first : K) (text : List ℕ) → HasText K.written K.faults self.entry
            (start_at K.written K.faults first (name_of self.entry)) text →
            OnErr result.1 (AppendsPart K.written K.faults first result.0.now text) }
    {
        let GotLines {
            out,
            mut block,
            failed,
        } = self;
        if failed {
            return (out, Err(Failed));
        }
        let end = block.put(out);
        (out, end)
    }

    /// Writes nothing more. Answers where the lines were written.
    pub fn abandon(self) -> &'a mut K
        ensures name { result.ghost_name ≡ name_of self.entry }
        ensures gives_up { (first : K) (text : List ℕ) → HasText K.written K.faults self.entry
            (start_at K.written K.faults first (name_of self.entry)) text → GivesUp
            (has_failed self.entry) K.written K.faults first result.now text }
    {
        let GotLines {
            out,
            block: _,
            failed: _,
        } = self;
        out
    }
}

impl<'a, K: ByteSink> FrameOut for GotLines<'a, K> {
    ghost use Rattle.text_report.specs.ReportLines.{got_texts};
    ghost use Rattle.text_got.specs.TextSoFar.{HasText};

    ghost stands_for = { λ got start frames.
        HasText K.written K.faults got start (got_texts frames) };

    fn frame(&mut self, frame: &[u8]) {
        if self.failed {
            return;
        }
        match self.block.add_got(frame, self.out) {
            Ok(()) => {}
            Err(Failed) => self.failed = true,
        }
    }
}

impl<'a, K: ByteSink> MayFail for GotLines<'a, K> {
    ghost has_failed = { λ got. got.failed };

    fn failed(&self) -> bool {
        self.failed
    }
}
