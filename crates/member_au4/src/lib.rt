//! VC-4s through AU-4 frames (G.707): the pointers of source and sink, and the text that says what the
//! pointers of a link do. A group and its members have no part in it. Begin with `au4_pointer::PointerSource`
//! and `au4_pointer::PointerSink`, and for the command with `au4_link`.
//!
//! - `au4_pointer`: AU-4 pointers (G.707): a stream of VC-4s in AU-4 frames, sent with pointers that stay,
//!   move or begin anew, and the sink that reads the pointers and gives the VC-4s that come whole.
//! - `au4_link`: a link of AU-4 frames: what a text says that its pointers do, and the lines of what comes of
//!   numbered VC-4s on it.
#![tactic(auto)]

pub mod au4_link;
pub mod au4_pointer;
