//! The words that may begin a line.
ghost use Rattle.std.specs.Prelude.{◌≡◌};
ghost use Rattle.gfp_channels.specs.channel_link.ChannelTextLines.{keyword_of};

use text_help::LineWords;
use text_lines::spells;

/// The words that may begin a line, in the order of a text.
#[derive(Clone, Copy, Debug, PartialEq, Eq)]
pub enum ChannelKeyword {
    /// The number of channels.
    Channels,
    /// The number of octets of the stream.
    Octets,
    /// A frame of a channel.
    Frame,
    /// Octets that don't arrive.
    Cut,
}

impl ChannelKeyword {
    /// The keyword that a word is.
    pub(super) fn of(word: &[u8]) -> Option<ChannelKeyword>
        ensures { result ≡ keyword_of word.now }
    {
        if spells(word, b"channels") {
            Some(ChannelKeyword::Channels)
        } else if spells(word, b"octets") {
            Some(ChannelKeyword::Octets)
        } else if spells(word, b"frame") {
            Some(ChannelKeyword::Frame)
        } else if spells(word, b"cut") {
            Some(ChannelKeyword::Cut)
        } else {
            None
        }
    }
}

impl LineWords for ChannelKeyword {
    ghost use Rattle.std.specs.Prelude.{codes};
    ghost use Rattle.gfp_channels.specs.channel_link.Helps.{keyword_text};

    ghost text = { keyword_text };

    ghost all = { codes "channels, octets, frame, cut" };

    fn word(self) -> &'static [u8] {
        match self {
            ChannelKeyword::Channels => b"channels",
            ChannelKeyword::Octets => b"octets",
            ChannelKeyword::Frame => b"frame",
            ChannelKeyword::Cut => b"cut",
        }
    }

    fn all_words() -> &'static [u8] {
        b"channels, octets, frame, cut"
    }
}
