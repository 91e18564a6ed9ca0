//! What a script says: the network's configuration and failures, what lands at which tick, and the events of
//! a walk. Each list is a type of its own, which contracts see as the list.

ghost use Rattle.std.specs.Prelude.{◌≡◌};
ghost use Rattle.law_model.specs.session.Options.{default_options};

use crate::script_items::ItemList;
use crate::window_types::Window;
use std::marker::Model;

/// Octets.
#[derive(Drop)]
pub struct Octets(pub Vec<u8>);

impl Model for Octets {
    ghost use Rattle.std.specs.Prelude.{ℕ, List};

    ghost Value = { List ℕ };

    ghost view = { λ octets. octets.0.items };
}

/// The delay of each line.
#[derive(Drop)]
pub struct Delays(pub Vec<u16>);

impl Model for Delays {
    ghost use Rattle.std.specs.Prelude.{ℕ, List};

    ghost Value = { List ℕ };

    ghost view = { λ delays. delays.0.items };
}

/// The windows of a line.
#[derive(Drop)]
pub struct WindowList(pub Vec<Window>);

impl Model for WindowList {
    ghost use Rattle.std.specs.Prelude.{List};
    ghost use Rattle.law_model.specs.declared.window_types.Window.{Window};

    ghost Value = { List Window };

    ghost view = { λ windows. windows.0.items };
}

/// The windows of each line.
#[derive(Drop)]
pub struct WindowLists(pub Vec<WindowList>);

impl Model for WindowLists {
    ghost use Rattle.std.specs.Prelude.{List};
    ghost use Rattle.law_model.specs.declared.window_types.Window.{Window};

    ghost Value = { List (List Window) };

    ghost view = { λ lists. lists.0.items };
}

/// The return windows.
#[derive(Drop)]
pub struct LostList(pub Vec<(u32, u32)>);

impl Model for LostList {
    ghost use Rattle.std.specs.Prelude.{ℕ, List};

    ghost Value = { List (ℕ × ℕ) };

    ghost view = { λ lost. lost.0.items };
}

/// What an event line tries, and how often.
#[derive(Clone, Copy, Debug, PartialEq, Eq)]
pub enum EventLine {
    /// The next frame lands.
    Client(u32),
    /// The next command lands.
    Operator(u32),
    /// The source makes a container for each line.
    Tick(u32),
    /// A line, by number from 0, carries a container.
    Carry(u8, u32),
    /// A return packet comes to the source.
    Back(u32),
    /// The sink takes a row.
    Take(u32),
    /// All frames and commands that are due land; then a tick, a carry of each line, a return packet and a row are
    /// tried once each.
    Round(u32),
    /// Rounds until all rows are taken.
    Drain,
}

/// The event lines of a script.
#[derive(Drop)]
pub struct EventList(pub Vec<EventLine>);

impl Model for EventList {
    ghost use Rattle.std.specs.Prelude.{List};
    ghost use Rattle.law_model.specs.declared.script_types.EventLine.{EventLine};

    ghost Value = { List EventLine };

    ghost view = { λ events. events.0.items };
}

/// Whether the sink goes on without some control packets, when a member goes out of use and comes back, and how many
/// return packets tell all statuses: what the options of a script set. Timers are counted in packets of 16 ticks, so
/// in 2 ms.
#[derive(Clone, Copy, Debug, PartialEq, Eq)]
pub struct Options {
    /// Where a packet of a line that carries payload can't be read, the sink goes on if what each line said last and
    /// the number of active members leave one answer to which lines carry payload. Else it stops.
    pub infers: bool,
    /// The hold-off, up to 5,000 packets: a line that is up goes down only with one more packet in turn than this
    /// that couldn't be read.
    pub holdoff: u16,
    /// The wait to restore, up to 62,500 packets: a line that is down comes up only with one more packet in turn
    /// than this that could be read. For it packets before packet 0 count as read.
    pub restore: u16,
    /// How many return packets tell all statuses, eight each: 16, or 32 as G.707 has it for 256 members.
    pub statuses: u8,
}

/// The options of a script without option lines: the sink stops, no timer runs, and all statuses are told by 16 return
/// packets.
impl Default for Options {
    ghost is_default = { λ options. options ≡ default_options };

    fn default() -> Options {
        Options {
            infers: false,
            holdoff: 0,
            restore: 0,
            statuses: 16,
        }
    }
}

/// What a script configures: members are numbered from 0 as lines, and time is counted in ticks of 125 microseconds.
#[derive(Drop)]
pub struct Config {
    /// The number of lines, 1 to 128.
    pub lines: u8,
    /// The delay of each line in ticks, up to 2,047.
    pub delays: Delays,
    /// The failures of each line.
    pub windows: WindowLists,
    /// The return packets that are lost: from a number on and before another.
    pub lost: LostList,
    /// The cells that a receive ring holds, 1 to 2,048.
    pub ring: u16,
    /// The packets between a return packet and the decision step that takes it, 1 to 512.
    pub lag: u16,
    /// The ticks of the session, 1 to 100,000,000.
    pub ticks: u32,
    /// The payload octets of a container: 2,340 of a VC-4, 756 of a VC-3.
    pub size: u16,
    /// The timers of the members, and how statuses are told.
    pub options: Options,
}

/// What an item is.
#[derive(Drop)]
pub enum ItemKind {
    /// The client sends an Ethernet frame.
    Frame(Octets),
    /// The operator adds a line to the group.
    Add(u8),
    /// The operator removes a line from the group.
    Remove(u8),
}

/// What lands once a number of ticks is made.
#[derive(Drop)]
pub struct Item {
    /// That number of ticks.
    pub due: u32,
    /// What lands.
    pub kind: ItemKind,
}

/// A script.
#[derive(Drop)]
pub struct Script {
    /// The network.
    pub config: Config,
    /// What lands, numbered from 0.
    pub items: ItemList,
    /// The events of a walk; where there are none, the walk drains.
    pub events: EventList,
}
