//! Frames are counted, and written as lines of text.

use law_model::FrameOut;
use octet_io::ByteSink;
use text_got::LentGotLines;

/// Counts the frames that it is given, and writes none.
#[derive(Drop)]
pub(crate) struct CountOut {
    pub(crate) count: u64,
}

impl FrameOut for CountOut {
    ghost use Rattle.std.specs.Prelude.{◌≡◌};
    ghost use Rattle.thread_sink.specs.Told.{count_of};

    ghost stands_for = { λ out start frames. out.count ≡ count_of frames };

    fn frame(&mut self, _frame: &[u8]) {
        self.count = self.count.saturating_add(1);
    }
}

/// Writes the line of each frame that it is given, and counts them. After a write that failed it goes on counting.
pub(crate) struct ToldOut<'a, K> {
    pub(crate) lines: LentGotLines<'a, K>,
    pub(crate) counted: CountOut,
}

impl<'a, K: ByteSink> FrameOut for ToldOut<'a, K> {
    ghost use Rattle.std.specs.Prelude.{◌≡◌};
    ghost use Rattle.text_report.specs.ReportLines.{got_texts};
    ghost use Rattle.text_got.specs.LentText.{HasText};
    ghost use Rattle.thread_sink.specs.Told.{count_of};

    ghost stands_for = { λ told start frames.
        HasText K.written K.faults told.lines start (got_texts frames)
        × (told.counted.count ≡ count_of frames) };

    fn frame(&mut self, frame: &[u8]) {
        self.counted.frame(frame);
        self.lines.frame(frame);
    }
}
