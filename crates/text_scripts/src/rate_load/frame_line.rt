//! The line of a frame.
ghost use Rattle.std.specs.Prelude.{◌≡◌, ◌≤◌, ◌+◌, ◌*◌, length, take};
ghost use Rattle.text_scripts.specs.rate_load.RateTexts.{start_of, line_of};

use text_report::TextCursor;

/// Begins a line: all that stands before the octets.
pub(super) fn line_start(due: u32, out: &mut [u8]) -> usize
    requires room { 64 ≤ length out.old }
    ensures short { result ≤ 64 }
    ensures within { result ≤ length out.new }
    ensures start { take result out.new ≡ start_of due }
{
    let mut line = TextCursor::new(out);
    line.text(b"frame ");
    line.decimal(u64::from(due));
    line.text(b" ");
    line.end()
}

/// The line of a frame.
pub(super) fn frame_line(due: u32, frame: &[u8], out: &mut [u8]) -> usize
    requires room { 2 * length frame.now + 64 ≤ length out.old }
    ensures within { result ≤ length out.new }
    ensures line { take result out.new ≡ line_of (record { due = due; octets = frame.now }) }
{
    let mut line = TextCursor::new(out);
    line.text(b"frame ");
    line.decimal(u64::from(due));
    line.text(b" ");
    line.hex(frame);
    line.text(b"\n");
    line.end()
}
