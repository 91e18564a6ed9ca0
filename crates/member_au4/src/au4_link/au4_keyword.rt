//! The words that may begin a line.
ghost use Rattle.std.specs.Prelude.{◌≡◌};
ghost use Rattle.member_au4.specs.au4_link.LinkTextLines.{keyword_of};

use text_help::LineWords;
use text_lines::spells;

/// The words that may begin a line, in the order of a text.
#[derive(Clone, Copy, Debug, PartialEq, Eq)]
pub enum Au4Keyword {
    /// The value at which the first part begins.
    Start,
    /// The number of frames.
    Frames,
    /// The value of a frame rises.
    Up,
    /// The value of a frame falls.
    Down,
    /// A part begins.
    New,
}

impl Au4Keyword {
    /// The keyword that a word is.
    pub(super) fn of(word: &[u8]) -> Option<Au4Keyword>
        ensures { result ≡ keyword_of word.now }
    {
        if spells(word, b"start") {
            Some(Au4Keyword::Start)
        } else if spells(word, b"frames") {
            Some(Au4Keyword::Frames)
        } else if spells(word, b"up") {
            Some(Au4Keyword::Up)
        } else if spells(word, b"down") {
            Some(Au4Keyword::Down)
        } else if spells(word, b"new") {
            Some(Au4Keyword::New)
        } else {
            None
        }
    }
}

impl LineWords for Au4Keyword {
    ghost use Rattle.std.specs.Prelude.{codes};
    ghost use Rattle.member_au4.specs.au4_link.Helps.{keyword_text};

    ghost text = { keyword_text };

    ghost all = { codes "start, frames, up, down, new" };

    fn word(self) -> &'static [u8] {
        match self {
            Au4Keyword::Start => b"start",
            Au4Keyword::Frames => b"frames",
            Au4Keyword::Up => b"up",
            Au4Keyword::Down => b"down",
            Au4Keyword::New => b"new",
        }
    }

    fn all_words() -> &'static [u8] {
        b"start, frames, up, down, new"
    }
}
