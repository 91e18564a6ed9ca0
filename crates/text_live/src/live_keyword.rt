//! The words that may begin a line of a live text.
ghost use Rattle.std.specs.Prelude.{◌≡◌};
ghost use Rattle.text_live.specs.LiveLines.{option_part, earlier_part, live_keyword, first_of};

use text_lines::spells;

/// The parts of a script that stand before the live lines.
#[derive(Clone, Copy, Debug)]
pub enum EarlierPart {
    /// The configuration, with the options.
    Configuration,
    /// Failures of lines, and losses of the return path.
    Windows,
}

/// The words that begin a live line.
#[derive(Clone, Copy, Debug)]
pub enum LiveKeyword {
    /// The client sends a frame.
    Frame,
    /// The operator adds a line.
    Add,
    /// The operator removes a line.
    Remove,
    /// A failure of a line begins.
    Cut,
    /// It ends.
    Mend,
    /// Ticks pass.
    Pass,
}

/// What a line is by its first word.
#[derive(Clone, Copy)]
pub enum FirstWord {
    /// A line of a script that stands before the live lines.
    Earlier(EarlierPart),
    /// A live line.
    Live(LiveKeyword),
    /// None that stands in a live text.
    Other,
}

/// The part of options and windows that a first word is of.
fn option_part(word: &[u8]) -> Option<EarlierPart>
    ensures { result ≡ option_part word.now }
{
    if spells(word, b"sink") {
        Some(EarlierPart::Configuration)
    } else if spells(word, b"holdoff") {
        Some(EarlierPart::Configuration)
    } else if spells(word, b"restore") {
        Some(EarlierPart::Configuration)
    } else if spells(word, b"statuses") {
        Some(EarlierPart::Configuration)
    } else if spells(word, b"fail") {
        Some(EarlierPart::Windows)
    } else if spells(word, b"lost") {
        Some(EarlierPart::Windows)
    } else {
        None
    }
}

/// The part of a script that a first word is of.
fn earlier_part(word: &[u8]) -> Option<EarlierPart>
    ensures { result ≡ earlier_part word.now }
{
    if spells(word, b"container") {
        Some(EarlierPart::Configuration)
    } else if spells(word, b"lines") {
        Some(EarlierPart::Configuration)
    } else if spells(word, b"delays") {
        Some(EarlierPart::Configuration)
    } else if spells(word, b"ring") {
        Some(EarlierPart::Configuration)
    } else if spells(word, b"lag") {
        Some(EarlierPart::Configuration)
    } else if spells(word, b"ticks") {
        Some(EarlierPart::Configuration)
    } else {
        option_part(word)
    }
}

impl LiveKeyword {
    /// The keyword that a word is.
    fn of(word: &[u8]) -> Option<LiveKeyword>
        ensures { result ≡ live_keyword word.now }
    {
        if spells(word, b"frame") {
            Some(LiveKeyword::Frame)
        } else if spells(word, b"add") {
            Some(LiveKeyword::Add)
        } else if spells(word, b"remove") {
            Some(LiveKeyword::Remove)
        } else if spells(word, b"cut") {
            Some(LiveKeyword::Cut)
        } else if spells(word, b"mend") {
            Some(LiveKeyword::Mend)
        } else if spells(word, b"pass") {
            Some(LiveKeyword::Pass)
        } else {
            None
        }
    }
}

impl FirstWord {
    /// What a line is that a word begins.
    pub fn of(word: &[u8]) -> FirstWord
        ensures { result ≡ first_of word.now }
    {
        if let Some(part) = earlier_part(word) {
            return FirstWord::Earlier(part);
        }
        match LiveKeyword::of(word) {
            Some(keyword) => FirstWord::Live(keyword),
            None => FirstWord::Other,
        }
    }
}
