//! Tests of the program of walks. They are of words, inputs and faults at each call, and of whether a walk is handed
//! back. Nothing is here but tests. Begin with `walk_commands`; `try_rows` of `command_rows` says what a row is.
#![tactic(auto)]

#[cfg(test)]
mod option_rows;
#[cfg(test)]
mod script_rows;
#[cfg(test)]
mod sink_rows;
#[cfg(test)]
mod stream_rows;
#[cfg(test)]
mod walk_commands;
#[cfg(test)]
mod words_of_commands;
