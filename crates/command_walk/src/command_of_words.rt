//! What each command of the program runs, and the usage, a line for each.

ghost use Rattle.std.specs.Prelude.{◌≡◌, None};
ghost use Rattle.law_model.specs.Common.{Tells};
ghost use Rattle.command_parts.specs.Ends.{lent};
ghost use Rattle.command_rooms.specs.CommandOfWords.{Fits};
ghost use Rattle.command_walk.specs.GivesByTask.{GivesFor};
ghost use Rattle.command_walk.specs.WordsOfCommands.{task_at, usage, HandsBack};

use crate::commands::live_pair::live_pair;
use crate::commands::one_way::one_way;
use crate::commands::pair::pair;
use crate::walk_end::WalkEnd;
use command_parts::{Ran, Stop, tell_usage};
use command_rooms::{
    WalkCommand, au4, capture, channels, check, decode, fates, frames, gfp, h4, live, make, noise,
    service, stream, trace, walk,
};
use octet_io::{ByteSink, ByteSource};
use std::alloc::Global;
use walk_engine::walk_core::Walk;

/// Runs a command. Where it stops before it has written anything, it is the caller who tells.
pub(crate) fn run<S: ByteSource, K: ByteSink, E: ByteSink>(
    alloc: Global,
    command: WalkCommand,
    script: &mut S,
    out: &mut K,
    notes: &mut E,
) -> Result<Ran<Option<Walk>>, Stop>
    requires { Fits command }
    ensures { GivesFor (lent S.left S.faults script.old script.new)
        (lent K.written K.faults out.old out.new) (lent E.written E.faults notes.old notes.new)
        (task_at command)
        (λ walk. HandsBack (lent S.left S.faults script.old script.new) walk command) result }
{
    match command {
        WalkCommand::Walk => walk(alloc, script, out),
        WalkCommand::Trace => trace(alloc, script, out, notes),
        WalkCommand::Fates => fates(alloc, script, out),
        WalkCommand::Check => check(alloc, script, out),
        WalkCommand::H4 { line } => h4(alloc, line, script, out),
        WalkCommand::Service { interval } => service(alloc, interval, script, out),
        WalkCommand::Capture => capture(alloc, script, out),
        WalkCommand::Gfp => gfp(alloc, script, out),
        WalkCommand::Frames => frames(alloc, script, out),
        WalkCommand::Decode => decode(alloc, script, out),
        WalkCommand::Noise => noise(alloc, script, out),
        WalkCommand::Au4 => au4(alloc, script, out),
        WalkCommand::Channels => channels(alloc, script, out),
        WalkCommand::Pair => pair(alloc, script, out, notes),
        WalkCommand::OneWay { way } => one_way(alloc, way, script, out),
        WalkCommand::Live { tells } => live(alloc, tells, script, out),
        WalkCommand::LivePair { tells } => live_pair(alloc, tells, script, out),
        WalkCommand::Make {
            number,
            lines,
            ticks,
        } => make(alloc, number, lines, ticks, out),
        WalkCommand::Stream(rate) => stream(&rate, out),
    }
}

/// Says on `notes` which commands the program has.
pub(crate) fn no_command<E: ByteSink>(notes: &mut E) -> WalkEnd
    ensures status { result.status ≡ 2 }
    ensures walk { result.walk ≡ None }
    ensures told { Tells E.written E.faults notes.old notes.new usage }
{
    let text =
        b"usage: vcat_walk walk, trace, fates, check, h4 LINE, service INTERVAL, capture, gfp, frames, decode, noise, \
        au4, channels, pair, pair there, pair back, live, live trace, live told, live pair, live pair trace, \
        live pair told, make NUMBER LINES TICKS, or stream OCTETS MBITS FIRST END NUMBER\n";
    let status = tell_usage(text, notes);
    WalkEnd { status, walk: None }
}
