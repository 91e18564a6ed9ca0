//! What is said of how to write a line that is faulty, in any language of lines.
//!
//! Each text is put together at the front of a slice that the caller gives, and nothing is written to an
//! output here. What a language alone has to say stands with its commands. Begin with `line_help`.
#![tactic(auto)]

mod field_helps;

pub use field_helps::{
    LineWords, OwnFault, count_help, field_help, line_help, missing_help, number_help, order_help,
};
