//! A session of a group on threads: the client, the operator, the source and the line threads each by itself,
//! and the sink on the thread that calls. That threads have their turns, and that a session ends, is not said
//! here. Begin with `session_run::run_session`; `session_parts` has the parts that need no group.
//!
//! - `session_parts`: the parts of a session that need no group: the workers of lines are dealt to line threads
//!   and come back; the sink is a duty of the calling thread; threads come back with evidence that their flags
//!   were stored, and sleep at their bells while they can't go on; and the ends of rings are laid beside each
//!   other at the end.
//! - `session_run`: a session of a group on threads: the client, the operator, the source and the lines each by
//!   itself, and the sink on the thread that calls.
#![tactic(auto)]

pub mod session_parts;
pub mod session_run;
