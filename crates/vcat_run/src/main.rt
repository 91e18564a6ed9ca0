//! The program `vcat_run`: it hands its words, standard input and both outputs to `run_top`, which runs the script
//! of a group on threads.
#![tactic(auto)]

use command_parts::{NO_MEMORY, given_words};
use command_run::run_top;
use octet_io::{StdSink, StdSource};
use std::mem::ManuallyDrop;
use std::process::ExitCode;
use thread_rings::OpenGate;

fn main(rt: HostRuntime) -> ExitCode {
    let Ok(words) = given_words(&rt) else {
        return ExitCode::from(NO_MEMORY);
    };
    let mut script = StdSource::new(rt.stdin());
    let mut out = StdSink::new(rt.stdout());
    let mut notes = StdSink::new(rt.stderr());
    let end = run_top(
        &rt,
        rt.alloc(),
        words.as_slice(),
        &mut script,
        &mut out,
        &mut notes,
        &OpenGate,
    );
    let status = end.status;
    // The program ends, which gives back all memory at once: the frames of a script aren't let go one by one.
    let _session = ManuallyDrop::new(end);
    ExitCode::from(status)
}
