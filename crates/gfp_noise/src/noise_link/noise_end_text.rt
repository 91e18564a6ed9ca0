//! The last line of a noise's text.
ghost use Rattle.std.specs.Prelude.{◌≡◌, ◌≤◌, length, take};
ghost use Rattle.gfp_noise.specs.noise_link.NoiseReportText.{counts_text};

use text_report::TextCursor;

/// Room for the last line.
pub(super) const END_ROOM: usize = 128;

/// What became of frames.
#[derive(Clone, Copy)]
pub(super) struct NoiseCounts {
    /// How many were sent.
    pub frames: u64,
    /// How many bits of their stream were turned over.
    pub flips: u64,
    /// How many were delivered.
    pub got: u64,
    /// How many were dropped.
    pub dropped: u64,
}

/// Puts the last line together.
pub(super) fn end_line(counts: NoiseCounts, out: &mut [u8]) -> usize
    requires { 128 ≤ length out.old }
    ensures within { result ≤ 128 }
    ensures line { take result out.new
        ≡ counts_text counts.frames counts.flips counts.got counts.dropped }
{
    let mut line = TextCursor::new(out);
    line.text(b"noise frames ");
    line.decimal(counts.frames);
    line.text(b" flips ");
    line.decimal(counts.flips);
    line.text(b" got ");
    line.decimal(counts.got);
    line.text(b" dropped ");
    line.decimal(counts.dropped);
    line.text(b"\n");
    line.end()
}
