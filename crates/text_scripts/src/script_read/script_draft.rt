//! What a line of a script says, and what its lines so far say.

use law_model::{Config, Delays, EventLine, EventList, Item, ItemList, Window};
use law_rates::Rate;

/// What a line says.
#[derive(Drop)]
pub(super) enum Statement {
    /// Nothing: it has no words, or is a comment.
    Nothing,
    /// The payload octets of a container.
    Container(u16),
    /// The number of lines of the group.
    Lines(u8),
    /// The delay of each.
    Delays(Delays),
    /// The cells that a receive ring holds.
    Ring(u16),
    /// The lag in packets.
    Lag(u16),
    /// The number of ticks.
    Ticks(u32),
    /// Whether the sink goes on without some control packets.
    Sink(bool),
    /// The hold-off in packets.
    Holdoff(u16),
    /// The wait to restore in packets.
    Restore(u16),
    /// How many return packets tell all statuses.
    Statuses(u8),
    /// A window of a line.
    Fail(u8, Window),
    /// A return window, from a packet up to another.
    Lost(u32, u32),
    /// An item.
    Item(Item),
    /// Frames at a rate, each of which is an item.
    Stream(Rate),
    /// An event line.
    Event(EventLine),
}

/// The number of the line that begins with each word of the configuration and of options, or 0 where none stands.
#[derive(Clone, Copy)]
pub(super) struct Standing {
    /// Of `container`.
    pub container: u32,
    /// Of `lines`.
    pub lines: u32,
    /// Of `delays`.
    pub delays: u32,
    /// Of `ring`.
    pub ring: u32,
    /// Of `lag`.
    pub lag: u32,
    /// Of `ticks`.
    pub ticks: u32,
    /// Of `sink`.
    pub sink: u32,
    /// Of `holdoff`.
    pub holdoff: u32,
    /// Of `restore`.
    pub restore: u32,
    /// Of `statuses`.
    pub statuses: u32,
}

/// What the lines of a script so far say.
#[derive(Drop)]
pub(super) struct Draft {
    /// The place in the order of a script from which the next line may stand.
    pub next: u8,
    /// The network.
    pub config: Config,
    /// The items.
    pub items: ItemList,
    /// The event lines.
    pub events: EventList,
    /// The due tick of the last frame.
    pub frame_due: u32,
    /// The due tick of the last command.
    pub command_due: u32,
    /// The lines of the configuration and the options that stand.
    pub standing: Standing,
}
