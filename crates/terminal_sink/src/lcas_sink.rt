//! The sink's side of LCAS (G.7042): what it tells the source of the control packets that it read, and which lines
//! carry payload by them. Begin with `SinkTable`; `rows_law`: further rows change no return packet of those before.
//! Which packets are read, and which rows of payload are whole, is not said here. That the sink answers a change by
//! RS-Ack as an echo of the change bit, that timers count packets, and when the sink goes on without a packet, is
//! this project's own.

ghost use Rattle.std.specs.Prelude.{◌≡◌, ℕ, ◌+◌, ◌*◌, ◌<◌, ◌≤◌, [], ◌∷◌, ◌++◌, List, length, not};
ghost use Rattle.std.specs.Prelude.{if◌then◌else◌, IfSome};
ghost use Rattle.std.specs.Option.{option_copied};
ghost use Rattle.law_model.specs.Common.{IsOptions, Row, leader, ack_by, return_of, state_next, sink_state};
ghost use Rattle.law_model.specs.declared.script_types.Options.{Options};
ghost use Rattle.terminal_sink.specs.member_watch.Watches.{AreWatched, is_changed, is_told, mst_by};
ghost use Rattle.member_rows.specs.vcat_interleave.MemberPayloads.{AreLines};
ghost use Rattle.terminal_sink.specs.lcas_sink.SinkStates.{SinkTableStands, state_at, state_after, last_carriers};
ghost use Rattle.law_model.specs.Common.{most_lines};

use crate::known_carriers::known_carriers;
use crate::line_list::LineList;
use crate::member_watch::{MemberWatch, is_member};
pub use law_model::SinkState;
use law_model::{MOST_LINES, Options, Packet};
use member_cells::Ctrl;
use std::marker::Model;

/// What a sink knows of the lines of a group after some rows of control packets (G.7042).
#[derive(Clone, Copy)]
pub struct SinkTable {
    lines: u8,
    options: Options,
    /// How many rows were taken.
    taken: u32,
    /// The change bit of the last packet that led a row.
    ack: bool,
    states: [SinkState; MOST_LINES],
    watches: [MemberWatch; MOST_LINES],
    /// The lines that carry payload by the last row, where that is known.
    carriers: Option<LineList>,
}

impl Model for SinkTable {
    ghost use Rattle.std.specs.Prelude.{◌≡◌, ◌≤◌, ℕ, IfSome};
    ghost use Rattle.law_model.specs.Common.{IsOptions, most_lines};
    ghost use Rattle.member_rows.specs.vcat_interleave.MemberPayloads.{AreLines};
    ghost use Rattle.law_model.specs.declared.lcas_states.SinkState.TheVariants.{Idle};
    ghost use Rattle.terminal_sink.specs.lcas_sink.SinkStates.{Sink, state_at};

    ghost Value = { Sink };

    ghost view = { λ table. record {
      lines = table.lines;
      options = table.options;
      taken = table.taken;
      ack = table.ack;
      states = table.states;
      watches = table.watches;
      carriers = table.carriers;
    } };

    ghost invariant = { λ table. (table.lines ≤ most_lines) × IsOptions table.options
        × ((line : ℕ) → table.lines ≤ line → state_at table.states line ≡ Idle)
        × IfSome table.carriers (AreLines table.lines) };

    ghost inverse = { λ sink. record {
      lines = sink.lines;
      options = sink.options;
      taken = sink.taken;
      ack = sink.ack;
      states = sink.states;
      watches = sink.watches;
      carriers = sink.carriers;
    } };
}

impl SinkTable {
    /// The table of a group of `lines` lines, up to 128, of which no packet was read. By `options` a line goes down
    /// and comes up, all statuses are told, and the sink goes on or stops where a packet is missing.
    pub fn new(lines: u8, options: Options) -> SinkTable
        requires lines { lines ≤ most_lines }
        requires options { IsOptions options }
        ensures lines { result.lines ≡ lines }
        ensures options { result.options ≡ options }
        ensures stands { SinkTableStands result [] }
    {
        SinkTable {
            lines,
            options,
            taken: 0,
            ack: false,
            states: all_idle(),
            watches: all_unread(options),
            carriers: None,
        }
    }

    /// Takes the next row: of each line the packet that was read, or none. Gives the return packet that tells
    /// of it: the change bit of the last packet that was read, taken from the least line of its row, and the
    /// statuses of a group of eight sequence numbers, each group in its turn. A status is OK where some line is up by
    /// the timers and said this number last as a member, and no change was read since.
    pub fn packet_row(&mut self, row: &[Option<Packet>]) -> Packet
        requires few { self.old.taken < 4294967295 }
        requires lines { length row.now ≡ self.old.lines }
        ensures lines { self.new.lines ≡ self.old.lines }
        ensures options { self.new.options ≡ self.old.options }
        ensures taken { self.new.taken ≡ self.old.taken + 1 }
        ensures stands { (rows : List Row) → SinkTableStands self.old rows →
            SinkTableStands self.new (rows ++ row.now ∷ []) }
        ensures packet { (rows : List Row) → SinkTableStands self.old rows →
            result ≡ return_of self.old.options (rows ++ row.now ∷ []) (length rows) }
    {
        let ack = ack_after(self.ack, row);
        let changed = ack != self.ack;
        self.ack = ack;
        take_packets(&mut self.states, row);
        watch_packets(&mut self.watches, row, changed, self.options);
        self.carriers = known_carriers(row, &self.states, &self.watches, self.options);
        let group = (self.taken % u32::from(self.options.statuses)) as u8;
        self.taken += 1;
        Packet {
            mst: member_status(&self.watches[..row.len()], 8 * group),
            rs_ack: ack,
            chg: false,
            sq: 255,
            mfi2: (self.taken % 256) as u8,
            ctrl: Ctrl::Idle,
            gid: false,
            act: 0,
        }
    }

    /// The lines that carry payload by the last row that was taken, in the order of their sequence numbers; `None`
    /// where they aren't known, or no row was taken.
    pub fn carriers(&self) -> Option<&[u8]>
        ensures exact { (rows : List Row) → SinkTableStands self.now rows →
            option_copied result ≡ last_carriers self.now.options rows }
        ensures lines { IfSome result (λ carriers. AreLines self.now.lines carriers.now) }
        ensures few { IfSome result (λ carriers. length carriers.now ≤ most_lines) }
    {
        match &self.carriers {
            Some(carriers) => Some(carriers.as_slice()),
            None => None,
        }
    }

    /// The state of a line: idle at first and after a packet that says IDLE; fine after another packet;
    /// failed where its packet could not be read, unless it is idle.
    pub fn state(&self, line: u8) -> SinkState
        ensures { (rows : List Row) → SinkTableStands self.now rows →
            result ≡ sink_state rows line }
    {
        if usize::from(line) < MOST_LINES {
            self.states[usize::from(line)]
        } else {
            SinkState::Idle
        }
    }
}

/// What was told of a row stands: further rows change no return packet of those before.
pub fn rows_law()
    ensures { (options : Options) (rows more : List Row) (k : ℕ) → k < length rows →
        return_of options (rows ++ more) k ≡ return_of options rows k }
{}

/// No line is a member.
fn all_idle() -> [SinkState; MOST_LINES]
    ensures { (line : ℕ) → state_at result line ≡ SinkState.Idle }
{
    [SinkState::Idle; MOST_LINES]
}

/// No packet of a line has come.
fn all_unread(options: Options) -> [MemberWatch; MOST_LINES]
    requires { IsOptions options }
    ensures { AreWatched options [] most_lines result }
{
    [MemberWatch::new(options); MOST_LINES]
}

/// The change bit to acknowledge after a row.
fn ack_after(ack: bool, row: &[Option<Packet>]) -> bool
    ensures { result ≡ ack_by ack (leader row.now) }
{
    match leader(row) {
        Some(packet) => packet.chg,
        None => ack,
    }
}

/// The packet of the least line of which one was read.
fn leader(row: &[Option<Packet>]) -> Option<Packet>
    ensures { result ≡ leader row.now }
{
    for packet in row {
        if packet.is_some() {
            return *packet;
        }
    }
    None
}

/// Goes on with the state of each line of a row.
fn take_packets(states: &mut [SinkState], row: &[Option<Packet>])
    requires { length row.now ≤ length states.old }
    ensures { (line : ℕ) → state_at states.new line ≡ state_after states.old row.now line }
{
    for (line, packet) in row.iter().enumerate() {
        states[line] = state_next(states[line], packet);
    }
}

/// The state of a line after its next packet.
fn state_next(state: SinkState, packet: &Option<Packet>) -> SinkState
    ensures { result ≡ state_next state packet.now }
{
    match (packet, state) {
        (Some(packet), _) if is_member(packet.ctrl) => SinkState::Fine,
        (Some(_), _) | (None, SinkState::Idle) => SinkState::Idle,
        (None, SinkState::Fine | SinkState::Failed) => SinkState::Failed,
    }
}

/// Goes on with the timers and the last word of each line of a row. `changed` says whether a change was read in it.
fn watch_packets(
    watches: &mut [MemberWatch],
    row: &[Option<Packet>],
    changed: bool,
    options: Options,
)
    requires lines { length row.now ≤ length watches.old }
    requires options { IsOptions options }
    ensures { (rows : List Row) → AreWatched options rows (length row.now) watches.old →
        changed ≡ is_changed rows row.now →
        AreWatched options (rows ++ row.now ∷ []) (length row.now) watches.new }
{
    for (line, packet) in row.iter().enumerate() {
        watches[line] = watches[line].next(packet, changed, options);
    }
}

/// The octet of the eight statuses from a sequence number on: OK is 0, and the first one stands in the most
/// significant bit.
fn member_status(watches: &[MemberWatch], first: u8) -> u8
    requires { first ≤ 248 }
    ensures { result ≡ mst_by watches.now first }
{
    let mut mst = 0;
    for place in 0..8 {
        mst = 2 * mst + status_bit(watches, first + place);
    }
    mst
}

/// The bit that says the status of a sequence number.
fn status_bit(watches: &[MemberWatch], sq: u8) -> u8
    ensures { result ≡ (if not (is_told watches.now sq) then 1 else 0) }
{
    if is_told(watches, sq) { 0 } else { 1 }
}

/// Whether some line is up and said this sequence number last.
fn is_told(watches: &[MemberWatch], sq: u8) -> bool
    ensures { result ≡ is_told watches.now sq }
{
    watches.iter().any(|watch| watch.says(sq))
}
