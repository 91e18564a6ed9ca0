//! Lines of text that wait in a block, so that many of them go out in one call.
ghost use Rattle.std.specs.Prelude.{◌≡◌, ◌≤◌, [], ◌++◌, length, OnOk, OnErr};
ghost use Rattle.hex.specs.Hex.{encode_lower};
ghost use Rattle.law_model.specs.Common.{Appends, AppendsPart, longest_frame, longest_got_line};
ghost use Rattle.text_report.specs.ReportLines.{got_text};
ghost use Rattle.text_got.specs.TextSoFar.{Holds};

use octet_io::{ByteSink, Failed, put_all};
use std::marker::Model;
use text_hex::encode;
use text_report::{GOT_ROOM, got_line};

/// How many octets wait at least when a block goes out.
const MUCH: usize = 65_536;

/// Lines that wait to be put, which go out together once they are much.
#[derive(Drop)]
pub struct TextBlock {
    /// The lines stand at the front.
    octets: [u8; MUCH + GOT_ROOM],
    /// How many octets wait.
    len: usize,
}

impl Model for TextBlock {
    ghost use Rattle.std.specs.Prelude.{ℕ, List, ◌<◌, take};

    ghost Value = { List ℕ };

    ghost view = { λ block. take block.len block.octets };

    ghost invariant = { λ block. block.len < 65536 };
}

impl TextBlock {
    /// A block in which nothing waits.
    pub fn new() -> TextBlock
        ensures { result ≡ [] }
    {
        TextBlock {
            octets: [0; MUCH + GOT_ROOM],
            len: 0,
        }
    }

    /// Lets go what waits.
    pub fn clear(&mut self)
        ensures { self.new ≡ [] }
    {
        self.len = 0;
    }

    /// Adds the line of a delivered frame, and puts what waits where it is much.
    pub(crate) fn add_got<K: ByteSink>(&mut self, frame: &[u8], out: &mut K) -> Result<(), Failed>
        requires { length frame.now ≤ longest_frame }
        ensures ok { let text = self.old ++ got_text frame.now in
            OnOk result (Holds K.written K.faults out.old out.new self.new text) }
        ensures err { let text = self.old ++ got_text frame.now in
            OnErr result (AppendsPart K.written K.faults out.old out.new text) }
    {
        let end = self.len + got_line(frame, &mut self.octets[self.len..]);
        if end < MUCH {
            self.len = end;
            return Ok(());
        }
        self.len = 0;
        put_all(out, &self.octets[..end])
    }

    /// Adds a line, and puts what waits where it is much.
    pub fn add<K: ByteSink>(&mut self, line: &[u8], out: &mut K) -> Result<(), Failed>
        requires { length line.now ≤ longest_got_line }
        ensures ok { let text = self.old ++ line.now in
            OnOk result (Holds K.written K.faults out.old out.new self.new text) }
        ensures err { let text = self.old ++ line.now in
            OnErr result (AppendsPart K.written K.faults out.old out.new text) }
    {
        let end = self.len + line.len();
        self.octets[self.len..end].copy_from_slice(line);
        if end < MUCH {
            self.len = end;
            return Ok(());
        }
        self.len = 0;
        put_all(out, &self.octets[..end])
    }

    /// Adds the digits of octets, and puts what waits where it is much.
    pub(crate) fn add_hex<K: ByteSink>(&mut self, octets: &[u8], out: &mut K) -> Result<(), Failed>
        requires { length octets.now ≤ longest_frame }
        ensures ok { let text = self.old ++ encode_lower octets.now in
            OnOk result (Holds K.written K.faults out.old out.new self.new text) }
        ensures err { let text = self.old ++ encode_lower octets.now in
            OnErr result (AppendsPart K.written K.faults out.old out.new text) }
    {
        let end = self.len + 2 * octets.len();
        encode(octets, &mut self.octets[self.len..end]);
        if end < MUCH {
            self.len = end;
            return Ok(());
        }
        self.len = 0;
        put_all(out, &self.octets[..end])
    }

    /// Puts all that waits. After it nothing waits, also where the put failed.
    pub fn put<K: ByteSink>(&mut self, out: &mut K) -> Result<(), Failed>
        ensures ok { OnOk result (Appends K.written K.faults out.old out.new self.old) }
        ensures err { OnErr result (AppendsPart K.written K.faults out.old out.new self.old) }
        ensures empty { self.new ≡ [] }
    {
        let end = self.len;
        self.len = 0;
        put_all(out, &self.octets[..end])
    }
}
