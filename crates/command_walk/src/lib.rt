//! The program `vcat_walk` as a call.
//!
//! It has all commands that need one thread alone, and the program itself only makes its input and outputs and hands
//! them over. What the words say, and the rooms of the commands that make no pair, are in `command_rooms`. Those of
//! both ways have their rooms here, a module for the run of each and one of specs/ for what it means: they run a pair
//! of scripts, write the script of one way, and answer a live text of both ways as it comes. Begin with `walk_top`: it
//! answers how the task ended that the words are, the headline, and the walk that was made.
#![tactic(auto)]

mod command_of_words;
mod commands;
mod top_call;
mod walk_end;

pub use command_rooms::{
    WalkCommand, agree_law, au4_law, capture_law, capture_read_law, channels_law, h4_law,
    noise_law, starts_law,
};
pub use top_call::walk_top;
pub use walk_end::WalkEnd;
