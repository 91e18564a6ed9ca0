//! What can be wrong with a line of a link's text alone, and what is said of how to write it.

use text_help::OwnFault;
use text_report::TextCursor;

/// The line names a frame below the fourth after this one, the last that was named.
#[derive(Clone, Copy, Debug, PartialEq, Eq)]
pub struct Early {
    /// The frame.
    pub frame: u32,
}

impl OwnFault for Early {
    ghost use Rattle.member_au4.specs.au4_link.Helps.{early_text};

    ghost told = { early_text };

    fn help(self, out: &mut [u8]) -> usize {
        let mut line = TextCursor::new(out);
        line.text(b"after frame ");
        line.decimal(u64::from(self.frame));
        line.text(b" the next one is ");
        line.decimal(u64::from(self.frame) + 4);
        line.text(b" at least");
        line.end()
    }
}
