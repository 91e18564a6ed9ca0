//! AU-4 pointers (G.707): a stream of VC-4s in AU-4 frames, sent with pointers that stay, move or begin anew,
//! and the sink that reads the pointers and gives the VC-4s that come whole. A frame is counted from pointer to
//! pointer. Begin with `PointerSource` and `PointerSink`; `pointer_law` says what comes of all that a source
//! sends, `place_law` and `wait_law` the rules of pointers, and `relay` is both in one call. How words are
//! read, each by itself and exactly, is this project's own. No call takes memory. Groups of lines and
//! text are not here.

mod au_frame;
mod copy_and_zero;
mod pointer_laws;
mod pointer_relay;
mod pointer_sink;
mod pointer_source;

pub use au_frame::{Action, AuFrame, VC};
pub use pointer_laws::{
    count_law, data_law, growing_law, place_law, pointer_law, refused_law, sending_law, wait_law,
    worked_law,
};
pub use pointer_relay::relay;
pub use pointer_sink::{PointerSink, PointerWordFault, VcOut};
pub use pointer_source::{PointerFault, PointerSource, VcFeed};
