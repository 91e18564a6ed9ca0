//! Tests of conversations, pairs and links. They call the program of walks: with live texts, with two scripts, and
//! with texts of noise, channels and AU-4. Nothing is here but tests. Begin with `live_rows`; `try_rows` of
//! `command_rows` says what a row is.
#![tactic(auto)]

#[cfg(test)]
mod au4_command;
#[cfg(test)]
mod channels_command;
#[cfg(test)]
mod live_pair_rows;
#[cfg(test)]
mod live_rows;
#[cfg(test)]
mod noise_command;
#[cfg(test)]
mod pair_command;
