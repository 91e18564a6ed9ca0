//! Two scripts, and what can be wrong with a text that is to say two.

use law_model::Script;
use law_pair::Way;
use text_scripts::script_read::ScriptFault;

/// The scripts of two sessions, one each way.
#[derive(Drop)]
pub struct ScriptPair {
    /// That of the way there, which stands first.
    pub there: Script,
    /// That of the way back.
    pub back: Script,
}

/// Why a text doesn't say two scripts that fit together. Its lines are counted from 1, over both scripts.
#[derive(Clone, Copy, Debug)]
pub enum PairFault {
    /// A line of one of the scripts has a fault, or memory is short.
    Script(ScriptFault),
    /// No line divides the text, and the one behind its last line has this number.
    Undivided { number: u32 },
    /// The slips, the spread or the lag of the script of a way don't fit.
    Limit { way: Way, fault: ScriptFault },
    /// The script of a way has return windows; where both have, it is the way there.
    Lost { way: Way },
    /// The script of a way has event lines; where both have, it is the way there.
    Events { way: Way },
    /// The lags differ, or are above 256. The delays and slips of both scripts need at least so much.
    Lag { there: u16, back: u16, least: u32 },
    /// The numbers of ticks differ.
    Ticks { there: u32, back: u32 },
    /// The script of one way alone would have more than 256 return windows: so many.
    Runs { runs: u32 },
}
