//! GFP frames that hold client frames are written as the records of a capture.
ghost use Rattle.std.specs.Prelude.{◌≡◌, ◌≤◌, ◌+◌, ℕ, List, [], ◌∷◌, ◌++◌, length, OnOk, OnErr};
ghost use Rattle.law_model.specs.Common.{Start, Appends, AppendsPart, longest_frame, type_header};
ghost use Rattle.text_got.specs.TextSoFar.{HasText, start_at};
ghost use Rattle.text_captures.specs.capture_file.WrittenCapture.{RowFrame};
ghost use Rattle.text_captures.specs.capture_file.GfpInCapture.{plain_header, gfp_capture};
ghost use Rattle.text_captures.specs.capture_file.CaptureSoFar.{HasGfp, gfp_name_of};

use crate::capture_file::capture_out::add_head;
use check_hec16::hec;
use gfp_headers::type_bytes;
use octet_io::{ByteSink, Failed};
use text_got::GotLines;

/// The head of a capture of GFP frames.
static GFP_HEAD: [u8; 24] = [
    0xd4, 0xc3, 0xb2, 0xa1, 0x02, 0x00, 0x04, 0x00, 0x00, 0x00, 0x00, 0x00, 0x00, 0x00, 0x00, 0x00,
    0xff, 0xff, 0x00, 0x00, 0xab, 0x00, 0x00, 0x00,
];

/// The octets of a type header.
const TYPE: u16 = 4;

/// The octets of both headers.
const HEADERS: u32 = 8;

/// Writes PLI, its check and the type header in front of a client frame of so many octets.
fn add_headers<K: ByteSink>(octets: u16, got: &mut GotLines<K>)
    requires { octets ≤ longest_frame }
    ensures { (start : Start) (before : List ℕ) → HasText K.written K.faults got.old start before →
        HasText K.written K.faults got.new start
        (before ++ (plain_header (4 + octets) ++ type_header)) }
{
    let pli = TYPE + octets;
    got.line(&pli.to_be_bytes());
    got.line(&hec(pli).to_be_bytes());
    got.line(&type_bytes());
}

/// Writes a record of the GFP frame of each client frame that it is given. After a write that failed it writes
/// nothing more.
pub struct GfpOut<'a, K> {
    got: GotLines<'a, K>,
}

impl<'a, K: ByteSink> GfpOut<'a, K> {
    /// The head of a capture is written, or waits.
    pub fn new(out: &'a mut K) -> GfpOut<'a, K>
        ensures name { gfp_name_of result ≡ out.entry.ghost_name }
        ensures fresh { HasGfp K.written K.faults result
            (start_at K.written K.faults out.old (gfp_name_of result)) [] }
    {
        let mut got = GotLines::new(out);
        got.line(&GFP_HEAD);
        GfpOut { got }
    }

    /// Writes the record of a client frame of at most 9,600 octets, whose last octet a row carries.
    pub fn frame(&mut self, row: u32, frame: &[u8])
        requires { length frame.now ≤ longest_frame }
        ensures { (start : Start) (frames : List RowFrame) →
            HasGfp K.written K.faults self.old start frames → HasGfp K.written K.faults self.new
            start (frames ++ record { row = row; frame = frame.now } ∷ []) }
    {
        add_head(row, HEADERS + frame.len() as u32, &mut self.got);
        add_headers(frame.len() as u16, &mut self.got);
        self.got.line(frame);
    }

    /// Writes what waits. Answers where the capture was written, and whether all of it was.
    pub fn finish(self) -> (&'a mut K, Result<(), Failed>)
        ensures name { result.0.ghost_name ≡ gfp_name_of self.entry }
        ensures ok { (first : K) (frames : List RowFrame) → HasGfp K.written K.faults self.entry
            (start_at K.written K.faults first (gfp_name_of self.entry)) frames →
            OnOk result.1 (Appends K.written K.faults first result.0.now (gfp_capture frames)) }
        ensures err { (first : K) (frames : List RowFrame) → HasGfp K.written K.faults self.entry
            (start_at K.written K.faults first (gfp_name_of self.entry)) frames →
            OnErr result.1 (AppendsPart K.written K.faults first result.0.now
            (gfp_capture frames)) }
    {
        let GfpOut { got } = self;
        got.finish()
    }
}
