//! The program `vcat_run` as a call: it runs the script of a group on threads, and watches its lines if this is
//! wanted. The program itself only makes its input and outputs and hands them over. Begin with `run_top`: it
//! answers how the task ended that the words are, the headline, and the session that was run. No clause here
//! knows how a stream is scrambled.
#![tactic(auto)]

mod command_of_words;
mod run;
mod run_end;
mod top_call;
mod watch;

pub use command_of_words::RunCommand;
pub use run_end::RunEnd;
pub use top_call::run_top;
