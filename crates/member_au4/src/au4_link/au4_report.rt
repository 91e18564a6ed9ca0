//! What comes of a link, as lines.
ghost use Rattle.std.specs.Prelude.{◌≡◌, ◌≤◌, length, take};
ghost use Rattle.member_au4.specs.au4_link.LinkReportText.{end_text};

use crate::au4_link::text_of_vc::vc_line;
use crate::au4_pointer::VcOut;
use octet_io::ByteSink;
use text_got::GotLines;
use text_report::TextCursor;

/// Room for the line of a VC-4.
const VC_ROOM: usize = 64;

/// Room for the last line.
pub(super) const END_ROOM: usize = 128;

/// What became of VC-4s.
#[derive(Clone, Copy)]
pub(super) struct Au4Counts {
    /// The frames of the link.
    pub frames: u64,
    /// How many began.
    pub begun: u64,
    /// How many came whole.
    pub back: u64,
    /// How many a new pointer cut.
    pub cut: u64,
}

/// Writes the line of each VC-4 that it is given, and counts them. After a write that failed it writes nothing more.
pub(super) struct VcTexts<'a, K> {
    pub lines: GotLines<'a, K>,
    pub back: u64,
}

impl<'a, K: ByteSink> VcOut for VcTexts<'a, K> {
    ghost use Rattle.member_au4.specs.au4_link.LinkReportText.{HasVcs};

    ghost stands_for = { λ out start vcs.
        HasVcs K.written K.faults out.lines out.back start vcs };

    fn vc(&mut self, vc: &[u8; 2349]) {
        let mut line = [0u8; VC_ROOM];
        let end = vc_line(vc, &mut line);
        self.lines.line(&line[..end]);
        self.back = self.back.wrapping_add(1);
    }
}

/// Puts the last line together.
pub(super) fn end_line(counts: Au4Counts, out: &mut [u8]) -> usize
    requires { 128 ≤ length out.old }
    ensures within { result ≤ 128 }
    ensures line { take result out.new
        ≡ end_text counts.frames counts.begun counts.back counts.cut }
{
    let mut line = TextCursor::new(out);
    line.text(b"au4 frames ");
    line.decimal(counts.frames);
    line.text(b" begun ");
    line.decimal(counts.begun);
    line.text(b" back ");
    line.decimal(counts.back);
    line.text(b" cut ");
    line.decimal(counts.cut);
    line.text(b"\n");
    line.end()
}
