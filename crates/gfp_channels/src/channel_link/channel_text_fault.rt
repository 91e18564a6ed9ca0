//! What can be wrong with a line of a text of channels alone, and what is said of how to write it.

use text_help::{OwnFault, number_help};

/// A cut begins before the end of the one before it, which is this place.
#[derive(Clone, Copy, Debug, PartialEq, Eq)]
pub struct Overlap {
    /// The place.
    pub end: u64,
}

impl OwnFault for Overlap {
    ghost use Rattle.gfp_channels.specs.channel_link.Helps.{overlap_text};

    ghost told = { overlap_text };

    fn help(self, out: &mut [u8]) -> usize {
        number_help(b"the cut before ends at ", self.end, out)
    }
}
