//! The words that may begin a line, and the place of each in the order of a script.
ghost use Rattle.std.specs.Prelude.{◌≡◌, None, Some};
ghost use Rattle.text_scripts.specs.script_read.Statements.{keyword_of, option_keyword, item_keyword};
ghost use Rattle.text_scripts.specs.script_read.Statements.{event_keyword, place};
ghost use Rattle.text_scripts.specs.script_read.Statements.{awaited, part_of, begun_at};

use text_lines::spells;

/// The words that may begin a line, in the order of a script.
#[derive(Clone, Copy, Debug)]
pub enum Keyword {
    /// The container of the group.
    Container,
    /// The number of lines.
    Lines,
    /// The delay of each line.
    Delays,
    /// The size of a receive ring.
    Ring,
    /// The lag.
    Lag,
    /// The number of ticks.
    Ticks,
    /// What the sink does without some control packets.
    Sink,
    /// The hold-off.
    Holdoff,
    /// The wait to restore.
    Restore,
    /// How many return packets tell all statuses.
    Statuses,
    /// A window of a line.
    Fail,
    /// A return window.
    Lost,
    /// A frame.
    Frame,
    /// Frames at a rate.
    Stream,
    /// The addition of a line.
    Add,
    /// The removal of a line.
    Remove,
    /// Frames land.
    Client,
    /// Commands land.
    Operator,
    /// Ticks are made.
    Tick,
    /// A line carries.
    Carry,
    /// Return packets come.
    Back,
    /// Rows are taken.
    Take,
    /// Rounds are made.
    Round,
    /// Rounds are made until all rows are taken.
    Drain,
}

impl Keyword {
    /// The keyword that a word is. That of a frame is tried first, since most lines have it.
    pub(super) fn of(word: &[u8]) -> Option<Keyword>
        ensures { result ≡ keyword_of word.now }
    {
        if spells(word, b"frame") {
            Some(Keyword::Frame)
        } else if spells(word, b"container") {
            Some(Keyword::Container)
        } else if spells(word, b"lines") {
            Some(Keyword::Lines)
        } else if spells(word, b"delays") {
            Some(Keyword::Delays)
        } else if spells(word, b"ring") {
            Some(Keyword::Ring)
        } else if spells(word, b"lag") {
            Some(Keyword::Lag)
        } else if spells(word, b"ticks") {
            Some(Keyword::Ticks)
        } else {
            Keyword::of_option(word)
        }
    }

    /// The keyword of an option, a window, an item or an event line that a word is.
    fn of_option(word: &[u8]) -> Option<Keyword>
        ensures { result ≡ option_keyword word.now }
    {
        if spells(word, b"sink") {
            Some(Keyword::Sink)
        } else if spells(word, b"holdoff") {
            Some(Keyword::Holdoff)
        } else if spells(word, b"restore") {
            Some(Keyword::Restore)
        } else if spells(word, b"statuses") {
            Some(Keyword::Statuses)
        } else {
            Keyword::of_item(word)
        }
    }

    /// The keyword of a window, an item or an event line that a word is.
    fn of_item(word: &[u8]) -> Option<Keyword>
        ensures { result ≡ item_keyword word.now }
    {
        if spells(word, b"fail") {
            Some(Keyword::Fail)
        } else if spells(word, b"lost") {
            Some(Keyword::Lost)
        } else if spells(word, b"frame") {
            Some(Keyword::Frame)
        } else if spells(word, b"stream") {
            Some(Keyword::Stream)
        } else if spells(word, b"add") {
            Some(Keyword::Add)
        } else if spells(word, b"remove") {
            Some(Keyword::Remove)
        } else {
            Keyword::of_event(word)
        }
    }

    /// The keyword of an event line that a word is.
    fn of_event(word: &[u8]) -> Option<Keyword>
        ensures { result ≡ event_keyword word.now }
    {
        if spells(word, b"client") {
            Some(Keyword::Client)
        } else if spells(word, b"operator") {
            Some(Keyword::Operator)
        } else if spells(word, b"tick") {
            Some(Keyword::Tick)
        } else if spells(word, b"carry") {
            Some(Keyword::Carry)
        } else if spells(word, b"back") {
            Some(Keyword::Back)
        } else if spells(word, b"take") {
            Some(Keyword::Take)
        } else if spells(word, b"round") {
            Some(Keyword::Round)
        } else if spells(word, b"drain") {
            Some(Keyword::Drain)
        } else {
            None
        }
    }

    /// Its place: 0 to 5 are the lines of the configuration, 6 is that of options, which are of the configuration
    /// too, 7 of windows, 8 of items, 9 of event lines.
    pub(super) fn place(self) -> u8
        ensures { result ≡ place self }
    {
        match self {
            Keyword::Container => 0,
            Keyword::Lines => 1,
            Keyword::Delays => 2,
            Keyword::Ring => 3,
            Keyword::Lag => 4,
            Keyword::Ticks => 5,
            Keyword::Sink | Keyword::Holdoff | Keyword::Restore | Keyword::Statuses => 6,
            Keyword::Fail | Keyword::Lost => 7,
            Keyword::Frame | Keyword::Stream | Keyword::Add | Keyword::Remove => 8,
            Keyword::Client
            | Keyword::Operator
            | Keyword::Tick
            | Keyword::Carry
            | Keyword::Back
            | Keyword::Take
            | Keyword::Round
            | Keyword::Drain => 9,
        }
    }
}

/// The parts of a script, in their order.
#[derive(Clone, Copy, Debug)]
pub enum Part {
    /// The configuration, with the options.
    Configuration,
    /// Failures of lines, and losses of the return path.
    Windows,
    /// Frames and commands.
    Items,
    /// Event lines.
    Events,
}

/// The line of the configuration that has to stand where `next` is the next place.
pub(super) fn awaited(next: u8) -> Keyword
    ensures { result ≡ awaited next }
{
    if next <= 1 {
        Keyword::Lines
    } else if next == 2 {
        Keyword::Delays
    } else if next == 3 {
        Keyword::Ring
    } else if next == 4 {
        Keyword::Lag
    } else {
        Keyword::Ticks
    }
}

/// The part of a place.
pub(super) fn part_of(at: u8) -> Part
    ensures { result ≡ part_of at }
{
    if at <= 6 {
        Part::Configuration
    } else if at == 7 {
        Part::Windows
    } else if at == 8 {
        Part::Items
    } else {
        Part::Events
    }
}

/// The part that has begun where `next` is the next place: behind the configuration that of windows, even where none
/// stands.
pub(super) fn begun_at(next: u8) -> Part
    ensures { result ≡ begun_at next }
{
    part_of(next.max(7))
}
