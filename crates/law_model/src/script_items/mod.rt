//! The items of a script, by their numbers from 0.

mod item_list;
mod streams;

pub use item_list::{FrameRoom, ItemHead, ItemList, ItemSort, Lent};
pub use streams::{Place, Stream, Streams};
