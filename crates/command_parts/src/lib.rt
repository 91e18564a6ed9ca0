//! What the commands of the programs have in common: the words after a program's name, an input that is read
//! whole or line by line, why a command stops, its exit status and what is said of that on notes, and the end
//! of a report. What a command means is a `Task` of specs/, and how it ends is `Ends`, which `end_law` says
//! fact by fact. Which command is run, and how, is the programs' own. An input may also be a conversation:
//! `talk` answers it line by line as it comes, with a `Talker`, whose replies are a `Dialogue` of specs/. Begin
//! with `Stop`, `read_whole_script` and `tell`. Two things may be built upon: what is wrong with an input comes
//! before what is wrong with its lines, but in a conversation; and no clause says that `given_words` gives the
//! words of the command line.
#![tactic(auto)]

mod conversation;
mod dialogue_laws;
mod end_laws;
mod fault_notes;
mod help_laws;
mod input_by_lines;
mod intake;
mod program_words;
mod refusal_of_line;
mod refusal_of_script;
mod report_end;
mod script_helps;
mod script_of_input;
mod stop_and_status;
mod whole_input;

pub use conversation::{Talker, talk};
pub use dialogue_laws::dialogue_law;
pub use end_laws::{end_law, input_law, made_law, talk_end_law};
pub use help_laws::keyword_law;
pub use input_by_lines::{PieceReader, read_pieces};
pub use program_words::{NO_MEMORY, given_words};
pub use refusal_of_line::{faulty_line, line_fault};
pub use refusal_of_script::{script_refusal, stop_of};
pub use report_end::write_rest;
pub use script_of_input::read_whole_script;
pub use stop_and_status::{Fault, Ran, Refusal, Stop, tell, tell_usage};
pub use whole_input::{MOST, read_input};
