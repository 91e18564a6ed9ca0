//! Tests of the program of runs by its call: words, inputs and faults at each call, whether a session is handed back, and
//! workers that run beside each other. Nothing is here but tests. Begin with `run_and_watch`; `try_rows` of `command_rows`
//! says what a row is.
#![tactic(auto)]

#[cfg(test)]
mod gate_door;
#[cfg(test)]
mod run_and_watch;
#[cfg(test)]
mod run_program;
#[cfg(test)]
mod words_of_commands;
