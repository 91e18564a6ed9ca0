//! Delivered frames are written as the records of a capture.
ghost use Rattle.std.specs.Prelude.{◌≡◌, ◌<◌, ◌+◌, ◌*◌, ◌/◌, ◌%◌, ℕ, List, [], ◌++◌, OnOk, OnErr};
ghost use Rattle.std.specs.Int.{to_le_bytes};
ghost use Rattle.law_model.specs.Common.{Start, Appends, AppendsPart};
ghost use Rattle.text_got.specs.TextSoFar.{HasText, start_at};
ghost use Rattle.text_captures.specs.capture_file.WrittenCapture.{RowFrame, record_head, ethernet_capture};
ghost use Rattle.text_captures.specs.capture_file.CaptureSoFar.{HasCapture, name_of, row_at};

use law_model::FrameOut;
use octet_io::{ByteSink, Failed};
use text_got::GotLines;

/// The head of a capture of Ethernet frames that end with an FCS.
static ETHERNET_HEAD: [u8; 24] = [
    0xd4, 0xc3, 0xb2, 0xa1, 0x02, 0x00, 0x04, 0x00, 0x00, 0x00, 0x00, 0x00, 0x00, 0x00, 0x00, 0x00,
    0xff, 0xff, 0x00, 0x00, 0x01, 0x00, 0x00, 0x24,
];

/// Writes the head of a record, of a frame of a row.
pub(super) fn add_head<K: ByteSink>(row: u32, octets: u32, got: &mut GotLines<K>)
    ensures { (start : Start) (before : List ℕ) → HasText K.written K.faults got.old start before →
        HasText K.written K.faults got.new start (before ++ record_head row octets) }
{
    let time = 125 * u64::from(row);
    got.line(&((time / 1_000_000) as u32).to_le_bytes());
    got.line(&((time % 1_000_000) as u32).to_le_bytes());
    got.line(&octets.to_le_bytes());
    got.line(&octets.to_le_bytes());
}

/// Writes a record of each frame that it is given, with the time of the row that is being taken. After a
/// write that failed it writes nothing more.
pub struct CaptureOut<'a, K> {
    got: GotLines<'a, K>,
    row: u32,
}

impl<'a, K: ByteSink> CaptureOut<'a, K> {
    /// The head of a capture is written, or waits.
    pub fn new(out: &'a mut K) -> CaptureOut<'a, K>
        ensures name { name_of result ≡ out.entry.ghost_name }
        ensures fresh { HasCapture K.written K.faults result
            (start_at K.written K.faults out.old (name_of result)) [] }
    {
        let mut got = GotLines::new(out);
        got.line(&ETHERNET_HEAD);
        CaptureOut { got, row: 0 }
    }

    /// The row of this number is taken next.
    pub fn begin_row(&mut self, row: u32)
        ensures row { row_at self.new ≡ row }
        ensures kept { (start : Start) (frames : List RowFrame) →
            HasCapture K.written K.faults self.old start frames →
            HasCapture K.written K.faults self.new start frames }
    {
        self.row = row;
    }

    /// Writes what waits. Answers where the capture was written, and whether all of it was.
    pub fn finish(self) -> (&'a mut K, Result<(), Failed>)
        ensures name { result.0.ghost_name ≡ name_of self.entry }
        ensures ok { (first : K) (frames : List RowFrame) →
            HasCapture K.written K.faults self.entry
            (start_at K.written K.faults first (name_of self.entry)) frames →
            OnOk result.1 (Appends K.written K.faults first result.0.now
            (ethernet_capture frames)) }
        ensures err { (first : K) (frames : List RowFrame) →
            HasCapture K.written K.faults self.entry
            (start_at K.written K.faults first (name_of self.entry)) frames →
            OnErr result.1 (AppendsPart K.written K.faults first result.0.now
            (ethernet_capture frames)) }
    {
        let CaptureOut { got, row: _ } = self;
        got.finish()
    }
}

impl<'a, K: ByteSink> FrameOut for CaptureOut<'a, K> {
    ghost use Rattle.text_captures.specs.capture_file.CaptureSoFar.{AddsRow};

    ghost stands_for = { λ out start frames. AddsRow K.written K.faults out start frames };

    fn frame(&mut self, frame: &[u8]) {
        add_head(self.row, frame.len() as u32, &mut self.got);
        self.got.line(frame);
    }
}
