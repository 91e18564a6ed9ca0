//! How a command ends.
ghost use Rattle.std.specs.Prelude.{◌≡◌, ◌≢◌, None};
ghost use Rattle.command_parts.specs.Ends.{lent};
ghost use Rattle.command_parts.specs.Gives.{IsEnd};
ghost use Rattle.command_rooms.specs.HandedWalk.{walk_of};

use command_parts::{Ran, Stop, tell};
use octet_io::{ByteSink, Failed};
use walk_engine::walk_core::Walk;

/// How a call of the program ended.
#[derive(Drop)]
pub struct WalkEnd {
    /// The exit status.
    pub status: u8,
    /// The walk that was made: of `walk`, `trace`, `fates`, `check`, `h4`, `service`, `capture`, `gfp` and `make` at
    /// the statuses 0 and 4. That of `live` or `live pair` isn't handed back.
    pub walk: Option<Walk>,
}

/// How the program ends with what a command gives. A write that failed, and why a command stopped before it wrote
/// anything, is said on `notes`.
pub fn end_of<E: ByteSink>(ran: Result<Ran<Option<Walk>>, Stop>, notes: &mut E) -> WalkEnd
    ensures end { IsEnd (lent E.written E.faults notes.old notes.new) ran result.status }
    ensures walk { result.walk ≡ walk_of ran }
    ensures kept { result.status ≢ 0 → result.status ≢ 4 → result.walk ≡ None }
{
    match ran {
        Ok(own) => match own.written {
            Ok(()) => WalkEnd {
                status: 0,
                walk: own.made,
            },
            Err(Failed) => WalkEnd {
                status: tell(&Stop::Write, notes),
                walk: own.made,
            },
        },
        Err(stop) => WalkEnd {
            status: tell(&stop, notes),
            walk: None,
        },
    }
}
