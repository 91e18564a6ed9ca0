//! What a line of a live text of both ways says.
ghost use Rattle.std.specs.Prelude.{◌≡◌, ℕ, List};
ghost use Rattle.text_live.specs.LiveReaderStands.{told_line};
ghost use Rattle.pair_live.specs.PairReaderStands.{told_pair_line, told_of_way};

use law_pair::Way;
use text_live::LiveLine;

/// What a line says.
#[derive(Clone, Copy, Debug)]
pub enum LivePairLine {
    /// Nothing: it has no words, or is a comment.
    Blank,
    /// Something of the configurations, a failure that is known before, or that the second script begins.
    Setting,
    /// The client of a way sends the frame whose octets the reader has.
    Frame(Way),
    /// The operator of a way adds a line to its group.
    Add(Way, u8),
    /// The operator of a way removes a line from its group.
    Remove(Way, u8),
    /// The containers of a line of a way that are made from now on are damaged.
    Cut(Way, u8),
    /// Those that are made from now on are not.
    Mend(Way, u8),
    /// So many ticks pass in both ways.
    Pass(u32),
}

impl LivePairLine {
    /// What a line says of a way.
    pub(crate) fn of_way(way: Way, line: LiveLine) -> LivePairLine
        ensures { (octets : List ℕ) →
            told_pair_line octets result ≡ told_of_way way (told_line octets line) }
    {
        match line {
            LiveLine::Blank => LivePairLine::Blank,
            LiveLine::Setting => LivePairLine::Setting,
            LiveLine::Frame => LivePairLine::Frame(way),
            LiveLine::Add(line) => LivePairLine::Add(way, line),
            LiveLine::Remove(line) => LivePairLine::Remove(way, line),
            LiveLine::Cut(line) => LivePairLine::Cut(way, line),
            LiveLine::Mend(line) => LivePairLine::Mend(way, line),
            LiveLine::Pass(ticks) => LivePairLine::Pass(ticks),
        }
    }
}
