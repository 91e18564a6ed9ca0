//! The lines of what came of a plan.
ghost use Rattle.std.specs.Prelude.{◌≡◌, ◌+◌, ◌*◌, ◌≤◌, length, take};
ghost use Rattle.law_model.specs.Common.{longest_frame};
ghost use Rattle.gfp_channels.specs.channel_link.ChannelReportText.{got_front, frame_end, refused_text, counts_text};

use gfp_model::linear_model::ChannelFault;
use law_model::LONGEST_FRAME;
use text_report::TextCursor;

/// Room for a line other than that of a frame.
pub(super) const LINE_ROOM: usize = 128;

/// Room for the octets of a frame in its line.
pub(super) const FRAME_ROOM: usize = 2 * LONGEST_FRAME + 1;

/// What became of frames.
#[derive(Clone, Copy)]
pub(super) struct ChannelCounts {
    /// How many were accepted.
    pub accepted: u64,
    /// How many were refused.
    pub refused: u64,
    /// How many were delivered.
    pub got: u64,
}

/// Puts the first part of the line of a delivered frame together, up to its octets.
pub(super) fn got_head(cid: u8, out: &mut [u8]) -> usize
    requires { 128 ≤ length out.old }
    ensures within { result ≤ 128 }
    ensures line { take result out.new ≡ got_front cid }
{
    let mut line = TextCursor::new(out);
    line.text(b"got ");
    line.decimal(cid);
    line.text(b" ");
    line.end()
}

/// Puts the rest of that line together.
pub(super) fn got_tail(frame: &[u8], out: &mut [u8]) -> usize
    requires short { length frame.now ≤ longest_frame }
    requires room { 2 * longest_frame + 1 ≤ length out.old }
    ensures within { result ≤ 2 * longest_frame + 1 }
    ensures line { take result out.new ≡ frame_end frame.now }
{
    let mut line = TextCursor::new(out);
    line.hex(frame);
    line.text(b"\n");
    line.end()
}

/// Puts the line of a refused frame together, by its place among all that were offered.
pub(super) fn refused_line(item: u64, why: ChannelFault, out: &mut [u8]) -> usize
    requires { 128 ≤ length out.old }
    ensures within { result ≤ 128 }
    ensures line { take result out.new ≡ refused_text item why }
{
    let mut line = TextCursor::new(out);
    line.text(b"refused ");
    line.decimal(item);
    match why {
        ChannelFault::Unknown { .. } => line.text(b" unknown"),
        ChannelFault::Length { n } => {
            line.text(b" length ");
            line.decimal(n);
        }
        ChannelFault::QueueFull { .. } => line.text(b" queue"),
    }
    line.text(b"\n");
    line.end()
}

/// Puts the last line together.
pub(super) fn end_line(counts: ChannelCounts, out: &mut [u8]) -> usize
    requires { 128 ≤ length out.old }
    ensures within { result ≤ 128 }
    ensures line { take result out.new
        ≡ counts_text counts.accepted counts.refused counts.got }
{
    let mut line = TextCursor::new(out);
    line.text(b"channels frames ");
    line.decimal(counts.accepted);
    line.text(b" refused ");
    line.decimal(counts.refused);
    line.text(b" got ");
    line.decimal(counts.got);
    line.text(b"\n");
    line.end()
}
