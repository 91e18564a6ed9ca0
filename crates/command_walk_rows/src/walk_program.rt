//! The program of walks as a call that rows are tried on.

use command_rows::{Called, Ends, Turns, wrong_of};
use command_walk::walk_top;
use std::alloc::Global;

/// Calls `walk_top`, which has no workers.
fn walk(alloc: Global, words: &[String], ends: &mut Ends) -> Called {
    let Ends { source, out, notes } = ends;
    let end = walk_top(alloc, words, source, out, notes);
    Called {
        status: end.status,
        is_handed: end.walk.is_some(),
        missed: false,
    }
}

/// Tries rows on it: the first answer that is not the wanted one.
pub fn wrong_walk_of(alloc: Global, all: &[(Turns, &str, &str)]) -> String {
    let call = |alloc: Global, words: &[String], ends: &mut Ends, _meets: bool| {
        walk(alloc, words, ends)
    };
    wrong_of(alloc, &call, all)
}
