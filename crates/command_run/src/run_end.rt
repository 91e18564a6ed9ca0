//! How a command ends.
ghost use Rattle.std.specs.Prelude.{◌≡◌, ◌≢◌, None};
ghost use Rattle.command_parts.specs.Ends.{lent};
ghost use Rattle.command_parts.specs.Gives.{IsEnd};
ghost use Rattle.command_run.specs.HandedSession.{ended_of};

use command_parts::{Ran, Stop, tell};
use octet_io::{ByteSink, Failed};
use thread_session::session_run::Ended;

/// How a call of the program ended.
#[derive(Drop)]
pub struct RunEnd {
    /// The exit status.
    pub status: u8,
    /// The session that was run, at the statuses 0 and 4.
    pub ended: Option<Ended>,
}

/// How the program ends with what a command gives. A write that failed, and why a command stopped before it wrote
/// anything, is said on `notes`.
pub fn end_of<E: ByteSink>(ran: Result<Ran<Ended>, Stop>, notes: &mut E) -> RunEnd
    ensures end { IsEnd (lent E.written E.faults notes.old notes.new) ran result.status }
    ensures ended { result.ended ≡ ended_of ran }
    ensures kept { result.status ≢ 0 → result.status ≢ 4 → result.ended ≡ None }
{
    match ran {
        Ok(own) => match own.written {
            Ok(()) => RunEnd {
                status: 0,
                ended: Some(own.made),
            },
            Err(Failed) => RunEnd {
                status: tell(&Stop::Write, notes),
                ended: Some(own.made),
            },
        },
        Err(stop) => RunEnd {
            status: tell(&stop, notes),
            ended: None,
        },
    }
}
