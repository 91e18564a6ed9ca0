//! The commands of the program, a line for each.

use crate::{run, watch};
use command_words::FromWords;

/// What the program is told to do.
#[derive(Clone, Copy, Debug, PartialEq, Eq)]
pub enum RunCommand {
    /// `run`: run the session of a script with 1 to 64 line workers.
    Run { workers: u8 },
    /// `watch`: the same, with the alarms of its lines.
    Watch { workers: u8 },
}

impl FromWords for RunCommand {
    ghost use Rattle.command_run.specs.Commands.{command_of};

    ghost named = { λ words. command_of words };

    fn from_words(words: &[String]) -> Option<RunCommand> {
        run::words(words).or(watch::words(words))
    }
}
