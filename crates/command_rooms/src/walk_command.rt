//! What the program is told to do, and the words of each command.

use crate::commands::words_of_pairs::{live_pair_words, one_way_words, pair_words};
use crate::commands::{
    au4, capture, channels, check, decode, fates, frames, gfp, h4, live, make, noise, service,
    stream, trace, walk,
};
use command_words::FromWords;
use law_pair::Way;
use law_rates::Rate;
use walk_live::Asked;

/// What the program is told to do.
#[derive(Clone, Copy, Debug, PartialEq, Eq)]
pub enum WalkCommand {
    /// `walk`: make the walk of a script.
    Walk,
    /// `trace`: the same, and write a line for each decision step.
    Trace,
    /// `fates`: make the walk of a script, and write what became of each frame.
    Fates,
    /// `check`: make the walk of a script, and write what in it is unused, idle, early or refused.
    Check,
    /// `h4`: make the walk of a script, and write the H4 octets that its source sends on a line, 0 to 127.
    H4 { line: u8 },
    /// `service`: make the walk of a script, and write what it was worth to its client, by stretches of 1 to
    /// 100,000,000 ticks.
    Service { interval: u32 },
    /// `capture`: make the walk of a script, and write a capture of the frames that it delivers.
    Capture,
    /// `gfp`: make the walk of a script, and write a capture of the GFP frames of its client.
    Gfp,
    /// `frames`: write the lines of a script for the frames of a capture.
    Frames,
    /// `decode`: write the control packets in H4 octets.
    Decode,
    /// `noise`: send frames with an FCS, and write those that get through with bits turned over.
    Noise,
    /// `au4`: carry numbered VC-4s over a link of AU-4 frames.
    Au4,
    /// `channels`: send frames of clients that share a stream by channel numbers, and write those that get through.
    Channels,
    /// `pair`: make the sessions of two scripts, which carry each other's return packets.
    Pair,
    /// `pair there`, `pair back`: write the script of one way of two scripts.
    OneWay { way: Way },
    /// `live`: answer a live text as it comes; `live trace`: with a line for each decision step; `live told`: with
    /// one for each line of the group whose code is another one than before, and how many frames wait.
    Live { tells: Asked },
    /// `live pair`, `live pair trace`, `live pair told`: the same of a live text of both ways.
    LivePair { tells: Asked },
    /// `make`: make the walk of the load of a number, of 1 to 64 lines and 1 to 1,000,000 ticks.
    Make { number: u64, lines: u8, ticks: u32 },
    /// `stream`: write the script lines of a client that sends at a rate.
    Stream(Rate),
}

impl FromWords for WalkCommand {
    ghost use Rattle.command_rooms.specs.CommandOfWords.{command_of};

    ghost named = { λ words. command_of words };

    fn from_words(words: &[String]) -> Option<WalkCommand> {
        walk::words(words)
            .or(trace::words(words))
            .or(fates::words(words))
            .or(check::words(words))
            .or(h4::words(words))
            .or(service::words(words))
            .or(capture::words(words))
            .or(gfp::words(words))
            .or(frames::words(words))
            .or(decode::words(words))
            .or(noise::words(words))
            .or(au4::words(words))
            .or(channels::words(words))
            .or(pair_words(words))
            .or(one_way_words(words))
            .or(live::words(words))
            .or(live_pair_words(words))
            .or(make::words(words))
            .or(stream::words(words))
    }
}
