//! Which lines carry payload, where that is known: by the packets that were read, or, where the sink goes on
//! without some, also by what silent lines said last.

ghost use Rattle.std.specs.Prelude.{◌≡◌, ℕ, ◌≤◌, List, [], ◌∷◌, ◌++◌, length, take, IfSome};
ghost use Rattle.law_model.specs.Common.{Row, carriers_of, sink_state, most_lines};
ghost use Rattle.member_rows.specs.vcat_interleave.MemberPayloads.{AreLines};
ghost use Rattle.terminal_sink.specs.member_watch.Watches.{AreWatched};
ghost use Rattle.terminal_sink.specs.known_carriers.Supposed.{norm_at, supposed_by, supposed_packets, is_worded};
ghost use Rattle.terminal_sink.specs.known_carriers.Supposed.{are_all_worded, inferred_by};
ghost use Rattle.terminal_sink.specs.lcas_sink.SinkStates.{state_at};

use crate::active_lines::{find_active, leading_act};
use crate::line_list::LineList;
use crate::member_watch::MemberWatch;
use law_model::{MOST_LINES, Options, Packet, SinkState};
use member_cells::Ctrl;

/// A packet of a line that carries payload at a sequence number.
fn norm_at(sq: u8) -> Packet
    ensures { result ≡ norm_at sq }
{
    Packet {
        mst: 0,
        rs_ack: false,
        chg: false,
        sq,
        mfi2: 0,
        ctrl: Ctrl::Norm,
        gid: false,
        act: 0,
    }
}

/// The packet that is supposed of a line by its state and its watch: a failed line carries payload at the number
/// that it said last, whatever it was then.
fn supposed(packet: &Option<Packet>, state: SinkState, watch: &MemberWatch) -> Option<Packet>
    ensures { result ≡ supposed_by state watch.now packet.now }
{
    match state {
        SinkState::Failed => watch.said().map(norm_at),
        SinkState::Idle | SinkState::Fine => *packet,
    }
}

/// The packets that are supposed of the lines of a row.
fn supposed_row(
    row: &[Option<Packet>],
    states: &[SinkState],
    watches: &[MemberWatch],
) -> [Option<Packet>; MOST_LINES]
    requires lines { length row.now ≤ most_lines }
    requires states { length row.now ≤ length states.now }
    requires watches { length row.now ≤ length watches.now }
    ensures { take (length row.now) result ≡ supposed_packets states.now watches.now row.now }
{
    let mut packets = [None; MOST_LINES];
    for (line, packet) in row.iter().enumerate() {
        packets[line] = supposed(packet, states[line], &watches[line]);
    }
    packets
}

/// Whether a line isn't failed, or said a number last that counts.
fn is_worded(state: SinkState, watch: &MemberWatch) -> bool
    ensures { result ≡ is_worded state watch.now }
{
    !matches!(state, SinkState::Failed) || watch.said().is_some()
}

/// The same of each of some first lines.
fn are_worded(states: &[SinkState], watches: &[MemberWatch], lines: usize) -> bool
    requires states { lines ≤ length states.now }
    requires watches { lines ≤ length watches.now }
    ensures { result ≡ are_all_worded states.now watches.now lines }
{
    for line in 0..lines {
        if !is_worded(states[line], &watches[line]) {
            return false;
        }
    }
    true
}

/// The lines that read and failed lines say together, where the sink goes on, these number an ACT, and what each
/// failed line said last counts. The states and the watches are those after the row.
fn inferred(
    row: &[Option<Packet>],
    states: &[SinkState],
    watches: &[MemberWatch],
    options: Options,
    act: u8,
) -> Option<LineList>
    requires lines { length row.now ≤ most_lines }
    requires states { length row.now ≤ length states.now }
    requires watches { length row.now ≤ length watches.now }
    ensures inferred { result ≡ inferred_by options states.now watches.now row.now act }
    ensures lines { IfSome result (AreLines (length row.now)) }
{
    if !options.infers || !are_worded(states, watches, row.len()) {
        return None;
    }
    let supposed = find_active(&supposed_row(row, states, watches)[..row.len()]);
    if supposed.len() == usize::from(act) {
        Some(supposed)
    } else {
        None
    }
}

/// The lines that carry payload by a row, where that is known: those that its packets say, where they number the
/// ACT of the leader, else those that can be inferred. The states and the watches are those after the row.
pub(crate) fn known_carriers(
    row: &[Option<Packet>],
    states: &[SinkState],
    watches: &[MemberWatch],
    options: Options,
) -> Option<LineList>
    requires lines { length row.now ≤ most_lines }
    requires states { length row.now ≤ length states.now }
    requires watches { length row.now ≤ length watches.now }
    ensures known { (rows : List Row) →
        ((line : ℕ) → state_at states.now line ≡ sink_state (rows ++ row.now ∷ []) line) →
        AreWatched options (rows ++ row.now ∷ []) (length row.now) watches.now →
        result ≡ carriers_of options (rows ++ row.now ∷ []) (length rows) }
    ensures lines { IfSome result (AreLines (length row.now)) }
{
    let Some(act) = leading_act(row) else {
        return None;
    };
    let active = find_active(row);
    if active.len() == usize::from(act) {
        Some(active)
    } else {
        inferred(row, states, watches, options, act)
    }
}
