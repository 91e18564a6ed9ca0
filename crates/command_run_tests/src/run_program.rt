//! The program of runs as a call that rows are tried on.

use crate::gate_door::Door;
use command_rows::{Called, Ends, Turns, wrong_of};
use command_run::run_top;
use std::alloc::Global;
use std::sync::Wait;
use std::thread::Threads;

/// Calls `run_top`.
fn run<R: Threads + Wait + Sync>(
    rt: &R,
    alloc: Global,
    words: &[String],
    ends: &mut Ends,
    meets: bool,
) -> Called {
    let door = Door::new(meets);
    let Ends { source, out, notes } = ends;
    let end = run_top(rt, alloc, words, source, out, notes, &door);
    Called {
        status: end.status,
        is_handed: end.ended.is_some(),
        missed: door.missed(),
    }
}

/// Tries rows on it: the first answer that is not the wanted one.
pub fn wrong_run_of<R: Threads + Wait + Sync>(
    rt: &R,
    alloc: Global,
    all: &[(Turns, &str, &str)],
) -> String {
    let call = |alloc: Global, words: &[String], ends: &mut Ends, meets: bool| {
        run(rt, alloc, words, ends, meets)
    };
    wrong_of(alloc, &call, all)
}
