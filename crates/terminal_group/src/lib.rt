//! The source side of a group, whatever engine moves it: its terminal, what of its items lands next, what was
//! refused, why no tick comes, and which return cells have come that no decision step has taken. Begin with
//! `CountedSource`, which keeps no items, and `Landing`, which has all of them from the beginning.
//! `source_law`: a refusal has one place, and ticks take what has come in its order. Where its frames go, and
//! when an engine ticks, is not said here.
#![tactic(auto)]

mod bare_list;
mod counted_source;
mod group_laws;
mod item_ref;
mod landed_counts;
mod landed_items;
mod landing_order;
mod refusal_codes;
mod refused_items;
mod return_inbox;

pub use counted_source::CountedSource;
pub use group_laws::source_law;
pub use item_ref::{ItemRef, lent_item};
pub use landed_counts::LandedCounts;
pub use landed_items::Landing;
pub use refused_items::Refusals;
pub use return_inbox::Inbox;
