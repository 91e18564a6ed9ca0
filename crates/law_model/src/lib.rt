//! The definitions that the contracts of a session speak of, and the types that they name. `ItemList` is the items of a
//! script, of which a line of traffic is many that nobody keeps: it finds and draws one by its number. `FrameOut` is
//! what a session gives its frames to. Begin with `specs/session/Scenario.antt`: the other definitions of a session are
//! recursions over a scenario; for items with `specs/session/Items.antt`. proofs/ has lemmas of headers, areas,
//! scrambling, streams, packets and paths that the proofs of other crates use.
#![tactic(auto)]

mod control_packet;
mod frame_faults;
mod frame_out;
mod item_refusals;
mod lcas_states;
mod limits;
mod script_items;
mod script_types;
mod session_totals;
mod walk_events;
mod window_types;

pub use control_packet::{Packet, PacketFault};
pub use frame_faults::{TypeFault, Why};
pub use frame_out::{FrameOut, Silent};
pub use item_refusals::{AcceptFault, CommandFault, Refusal};
pub use lcas_states::{Command, Member, SinkState, SourceState, Standing};
pub use limits::{
    LARGEST_RING, LONGEST_DELAY, LONGEST_FRAME, LONGEST_HOLDOFF, LONGEST_LAG, LONGEST_OFFER,
    LONGEST_RESTORE, LONGEST_SLIP, MOST_COUNT, MOST_DRAWN_TICKS, MOST_ITEMS, MOST_LINES,
    MOST_PACKETS, MOST_TICKS, MOST_WINDOWS,
};
pub use script_items::{FrameRoom, ItemHead, ItemList, ItemSort, Lent, Place, Stream, Streams};
pub use script_types::{
    Config, Delays, EventLine, EventList, Item, ItemKind, LostList, Octets, Options, Script,
    WindowList, WindowLists,
};
pub use session_totals::Totals;
pub use walk_events::{Event, StallCause};
pub use window_types::{Carried, Window};
