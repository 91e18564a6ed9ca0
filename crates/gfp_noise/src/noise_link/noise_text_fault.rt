//! What can be wrong with a line of a noise's text alone, and what is said of how to write it.

use text_help::OwnFault;
use text_report::TextCursor;

/// A flip doesn't turn over a bit behind that of the flip before. What is told is the flip before.
#[derive(Clone, Copy, Debug, PartialEq, Eq)]
pub struct NotRising {
    /// The place of its octet.
    pub place: u64,
    /// Its place in this octet.
    pub bit: u64,
}

impl OwnFault for NotRising {
    ghost use Rattle.gfp_noise.specs.noise_link.Helps.{rising_text};

    ghost told = { rising_text };

    fn help(self, out: &mut [u8]) -> usize {
        let mut line = TextCursor::new(out);
        line.text(b"flips rise by place and then by bit; the one before is ");
        line.decimal(self.place);
        line.text(b" ");
        line.decimal(self.bit);
        line.end()
    }
}
