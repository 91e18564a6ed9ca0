//! The words that may begin a line.
ghost use Rattle.std.specs.Prelude.{◌≡◌};
ghost use Rattle.gfp_noise.specs.noise_link.NoiseTextLines.{keyword_of};

use text_help::LineWords;
use text_lines::spells;

/// The words that may begin a line, in the order of a text.
#[derive(Clone, Copy, Debug, PartialEq, Eq)]
pub enum NoiseKeyword {
    /// A frame.
    Frame,
    /// A bit of the stream that is turned over.
    Flip,
}

impl NoiseKeyword {
    /// The keyword that a word is.
    pub(super) fn of(word: &[u8]) -> Option<NoiseKeyword>
        ensures { result ≡ keyword_of word.now }
    {
        if spells(word, b"frame") {
            Some(NoiseKeyword::Frame)
        } else if spells(word, b"flip") {
            Some(NoiseKeyword::Flip)
        } else {
            None
        }
    }
}

impl LineWords for NoiseKeyword {
    ghost use Rattle.std.specs.Prelude.{codes};
    ghost use Rattle.gfp_noise.specs.noise_link.Helps.{keyword_text};

    ghost text = { keyword_text };

    ghost all = { codes "frame, flip" };

    fn word(self) -> &'static [u8] {
        match self {
            NoiseKeyword::Frame => b"frame",
            NoiseKeyword::Flip => b"flip",
        }
    }

    fn all_words() -> &'static [u8] {
        b"frame, flip"
    }
}
