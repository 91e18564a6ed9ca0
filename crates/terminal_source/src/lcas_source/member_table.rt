//! The lines that have a sequence number, and what a decision step does with them.

ghost use Rattle.std.specs.Prelude.{◌≡◌, ◌+◌, ◌/◌, ◌%◌, ◌^◌, ◌==◌, ◌<◌, ◌≤◌, ◌&&◌, not, length, count_by, map, filter};
ghost use Rattle.std.specs.Prelude.{drop, position, Some, None, IfSome, IfNone};
ghost use Rattle.std.specs.List.{list_any};
ghost use Rattle.std.specs.Bool.{OnTrue, OnFalse};
ghost use Rattle.law_model.specs.Common.{is_adding, is_normal, is_ok, is_fail, admit, turn, turned, take_out, exchange};
ghost use Rattle.law_model.specs.Common.{kept_in, keep, none_kept, oks_in, place_in, ctrl_by, state_by, state_without};
ghost use Rattle.law_model.specs.Common.{state_in, most_lines};
ghost use Rattle.law_model.specs.declared.lcas_states.Member.{Member};
ghost use Rattle.terminal_source.specs.lcas_source.Exchange.{taken_out};

use arrayvec::ArrayVec;
use law_model::{MOST_LINES, Member, SourceState, Standing};
use member_cells::Ctrl;
use member_rows::lcas_packet::Packet;
use std::marker::Model;

/// The statuses of the sequence numbers: OK, FAIL, or none where it is not known.
type Statuses = [Option<bool>; MOST_LINES];

/// The groups of eight statuses that lines can have.
const GROUPS: usize = MOST_LINES / 8;

/// The lines that have a sequence number, in its order, and what is known of the last change.
#[derive(Drop)]
pub struct LineTable {
    members: ArrayVec<Member, MOST_LINES>,
    leaving: Option<u8>,
    changes: u32,
    acknowledged: bool,
    statuses: Statuses,
}

impl Model for LineTable {
    ghost use Rattle.law_model.specs.Common.{Table};

    ghost Value = { Table };

    ghost view = { λ table. record {
      order = table.members.items;
      leaving = table.leaving;
      count = table.changes;
      acknowledged = table.acknowledged;
      statuses = table.statuses;
    } };
}

impl LineTable {
    ghost use Rattle.law_model.specs.Common.{first_table, changed, heard, told_on, carried_out, exchange, exchanged};
    ghost use Rattle.law_model.specs.Common.{kept_of, told_by, active, place_in, state_of};
    ghost use Rattle.law_model.specs.declared.lcas_states.Command.TheVariants.{Add as add, Remove as remove};

    /// The table before the first step.
    pub fn new() -> LineTable
        ensures { result ≡ first_table }
    {
        LineTable {
            members: ArrayVec::new(),
            leaving: None,
            changes: 0,
            acknowledged: true,
            statuses: unknown(),
        }
    }

    /// Takes what a return packet says, where it acknowledges the last change. A group is of eight statuses.
    pub fn hear(&mut self, group: usize, packet: &Packet)
        ensures { self.new ≡ heard group (Some (told_by packet.now)) self.old }
    {
        if packet.rs_ack == (self.changes % 2 == 1) {
            keep(&mut self.statuses, group, packet.mst);
            self.acknowledged = true;
            self.leaving = None;
        }
    }

    /// Gives each line the standing that its status demands.
    pub fn settle(&mut self)
        ensures { self.new ≡ told_on self.old }
    {
        admit(&mut self.members, &self.statuses);
        turned(&mut self.members, &self.statuses);
    }

    /// Adds a line.
    pub fn add(&mut self, line: u8)
        requires room { length self.old.order < most_lines }
        requires count { self.old.count < 4294967295 }
        ensures { self.new ≡ carried_out (add line) self.old }
    {
        self.members.push(Member {
            line,
            standing: Standing::Add,
        });
        self.begin_change();
    }

    /// Removes a line.
    pub fn remove(&mut self, line: u8)
        requires { self.old.count < 4294967295 }
        ensures { self.new ≡ carried_out (remove line) self.old }
    {
        without_line(&mut self.members, line);
        self.leaving = Some(line);
        self.begin_change();
    }

    /// Brings a later line in ADD that has OK before the first one, where that has FAIL.
    pub fn exchange(&mut self)
        requires { self.old.count < 4294967295 }
        ensures { self.new ≡ exchanged (exchange (kept_of self.old) 0 self.old.order) self.old }
    {
        if exchange(&mut self.members, &self.statuses) {
            self.begin_change();
        }
    }

    /// Whether the last change is acknowledged.
    pub(crate) fn is_acknowledged(&self) -> bool
        ensures { result ≡ self.now.acknowledged }
    {
        self.acknowledged
    }

    /// The number of changes, modulo 2.
    pub(crate) fn change_bit(&self) -> bool
        ensures { result ≡ (self.now.count % 2 == 1) }
    {
        self.changes % 2 == 1
    }

    /// The control word and the sequence number that the packet of a line says.
    pub fn place(&self, line: u8) -> (Ctrl, u8)
        ensures ctrl { result.0 ≡ (place_in self.now.order 0 line).ctrl }
        ensures sq { result.1 ≡ (place_in self.now.order 0 line).sq }
    {
        place_in(&self.members, line)
    }

    /// How many lines carry payload.
    pub(crate) fn active_count(&self) -> u8
        ensures { result ≡ length (active self.now) }
    {
        active_count(&self.members)
    }

    /// The lines that carry payload, in the order of their sequence numbers.
    pub fn active(&self) -> ArrayVec<u8, MOST_LINES>
        ensures { result.items ≡ active self.now }
    {
        active(&self.members)
    }

    /// The state of a line.
    pub fn state(&self, line: u8) -> SourceState
        ensures { result ≡ state_of self.now line }
    {
        state_in(&self.members, self.leaving, line)
    }

    /// A change begins: it is not acknowledged, and no status is known.
    fn begin_change(&mut self)
        requires { self.old.count < 4294967295 }
        ensures { self.new ≡ changed self.old.order self.old.leaving self.old }
    {
        self.changes += 1;
        self.acknowledged = false;
        self.statuses = unknown();
    }
}

/// The control word and the sequence number that the packet of a line says.
fn place_in(members: &[Member], line: u8) -> (Ctrl, u8)
    requires { length members.now ≤ most_lines }
    ensures ctrl { result.0 ≡ (place_in members.now 0 line).ctrl }
    ensures sq { result.1 ≡ (place_in members.now 0 line).sq }
{
    for (sq, member) in members.iter().enumerate() {
        if member.line == line {
            let ctrl = ctrl_by(member.standing, any_normal(&members[sq + 1..]));
            return (ctrl, sq as u8);
        }
    }
    (Ctrl::Idle, 255)
}

/// The control word of a standing, and of whether a line of a greater sequence number is in NORM.
fn ctrl_by(standing: Standing, more: bool) -> Ctrl
    ensures { result ≡ ctrl_by standing more }
{
    match standing {
        Standing::Add => Ctrl::Add,
        Standing::Norm if more => Ctrl::Norm,
        Standing::Norm => Ctrl::Eos,
        Standing::Dnu => Ctrl::Dnu,
    }
}

/// The state of a line, of which none or one other leaves.
fn state_in(members: &[Member], leaving: Option<u8>, line: u8) -> SourceState
    ensures { result ≡ state_in members.now leaving line }
{
    for member in members {
        if member.line == line {
            return state_by(member.standing);
        }
    }
    state_without(leaving, line)
}

/// The state of a line that has no sequence number.
fn state_without(leaving: Option<u8>, line: u8) -> SourceState
    ensures { result ≡ state_without leaving line }
{
    match leaving {
        Some(leaving) if leaving == line => SourceState::Remove,
        Some(_) | None => SourceState::Idle,
    }
}

/// The state of a standing.
fn state_by(standing: Standing) -> SourceState
    ensures { result ≡ state_by standing }
{
    match standing {
        Standing::Add => SourceState::Add,
        Standing::Norm => SourceState::Norm,
        Standing::Dnu => SourceState::Dnu,
    }
}

/// Whether some line is in NORM.
fn any_normal(members: &[Member]) -> bool
    ensures { result ≡ list_any is_normal members.now }
{
    members.iter().any(is_normal)
}

/// How many lines are in NORM.
fn active_count(members: &[Member]) -> u8
    requires { length members.now ≤ most_lines }
    ensures { result ≡ count_by is_normal members.now }
{
    members.iter().filter(|member| is_normal(member)).count() as u8
}

/// The lines in NORM.
fn active(members: &[Member]) -> ArrayVec<u8, MOST_LINES>
    requires { length members.now ≤ most_lines }
    ensures { result.items ≡ map (λ member. member.line) (filter is_normal members.now) }
{
    let mut lines = ArrayVec::new();
    for member in members {
        if is_normal(member) {
            lines.push(member.line);
        }
    }
    lines
}

/// Whether a line is in NORM.
fn is_normal(member: &Member) -> bool
    ensures { result ≡ is_normal member.now }
{
    matches!(member.standing, Standing::Norm)
}

/// Takes a line out of the order.
fn without_line(members: &mut ArrayVec<Member, MOST_LINES>, line: u8)
    ensures { members.new.items ≡ filter (λ member. not (member.line == line)) members.old.items }
{
    members.retain(|member| member.line != line);
}

/// No status is known.
fn unknown() -> Statuses
    ensures { result ≡ none_kept }
{
    [None; MOST_LINES]
}

/// Whether a line is in ADD.
fn is_adding(member: &Member) -> bool
    ensures { result ≡ is_adding member.now }
{
    matches!(member.standing, Standing::Add)
}

/// Whether a status is OK.
fn is_ok(status: Option<bool>) -> bool
    ensures { result ≡ is_ok status }
{
    matches!(status, Some(true))
}

/// Whether a line is in ADD and has OK.
fn is_confirmed(member: &Member, status: Option<bool>) -> bool
    ensures { result ≡ (is_adding member.now && is_ok status) }
{
    is_adding(member) && is_ok(status)
}

/// While the first line in ADD has OK, it becomes NORM.
fn admit(members: &mut [Member], statuses: &Statuses)
    requires { length members.old ≤ most_lines }
    ensures { members.new ≡ admit (kept_in statuses.now) 0 members.old }
{
    for (sq, member) in members.iter_mut().enumerate() {
        if is_adding(member) {
            if !is_ok(statuses[sq]) {
                return;
            }
            member.standing = Standing::Norm;
        }
    }
}

/// Each line in NORM with FAIL becomes DNU, and each one in DNU with OK becomes NORM.
fn turned(members: &mut [Member], statuses: &Statuses)
    requires { length members.old ≤ most_lines }
    ensures { members.new ≡ turned (kept_in statuses.now) 0 members.old }
{
    for (sq, member) in members.iter_mut().enumerate() {
        member.standing = turn(member.standing, statuses[sq]);
    }
}

/// The standing that a status gives a line.
fn turn(standing: Standing, status: Option<bool>) -> Standing
    ensures { result ≡ turn status standing }
{
    match (standing, status) {
        (Standing::Norm | Standing::Dnu, Some(true)) => Standing::Norm,
        (Standing::Norm | Standing::Dnu, Some(false)) => Standing::Dnu,
        (standing, _) => standing,
    }
}

/// The eight statuses that a packet says take the place of those of their group. There may be more
/// groups than lines can have: of what says statuses of no line nothing is kept.
fn keep(statuses: &mut Statuses, group: usize, mst: u8)
    ensures { statuses.new ≡ keep group (oks_in mst) 0 statuses.old }
{
    if group < GROUPS {
        statuses[8 * group..8 * group + 8].copy_from_slice(&statuses_in(mst));
    }
}

/// The statuses that an octet of member status says, that of the least sequence number first.
fn statuses_in(mst: u8) -> [Option<bool>; 8]
    ensures { result ≡ map Some (oks_in mst) }
{
    [
        status_at(mst, 7),
        status_at(mst, 6),
        status_at(mst, 5),
        status_at(mst, 4),
        status_at(mst, 3),
        status_at(mst, 2),
        status_at(mst, 1),
        status_at(mst, 0),
    ]
}

/// The status that a bit of member status says: OK is 0.
fn status_at(mst: u8, bit: u32) -> Option<bool>
    requires { bit < 8 }
    ensures { result ≡ Some (not (mst / 2 ^ bit % 2 == 1)) }
{
    Some((mst >> bit) % 2 == 0)
}

/// Where the first line in ADD has FAIL and a later one has OK, the first such later line is taken out and
/// put before it. Says whether there was such a line.
fn exchange(members: &mut ArrayVec<Member, MOST_LINES>, statuses: &Statuses) -> bool
    ensures made { OnTrue result (exchange (kept_in statuses.now) 0 members.old.items
        ≡ Some members.new.items) }
    ensures none { OnFalse result (exchange (kept_in statuses.now) 0 members.old.items ≡ None) }
    ensures stays { OnFalse result (members.new ≡ members.old) }
{
    let Some(first) = first_adding(members) else {
        return false;
    };
    if !is_fail(statuses[first]) {
        return false;
    }
    let Some(later) = first_confirmed(members, first + 1, statuses) else {
        return false;
    };
    let member = members.remove(later);
    members.insert(first, member);
    true
}

/// Whether a status is FAIL.
fn is_fail(status: Option<bool>) -> bool
    ensures { result ≡ is_fail status }
{
    matches!(status, Some(false))
}

/// The first line in ADD.
fn first_adding(members: &[Member]) -> Option<usize>
    ensures { result ≡ position is_adding members.now }
{
    members.iter().position(is_adding)
}

/// The first line from a place on that is in ADD and has OK.
fn first_confirmed(members: &[Member], from: usize, statuses: &Statuses) -> Option<usize>
    requires { length members.now ≤ most_lines }
    ensures found { IfSome result (λ sq. (member : Member) →
        take_out (kept_in statuses.now) from (drop from members.now)
        ≡ taken_out members.now from sq member) }
    ensures within { IfSome result (λ sq. (from ≤ sq) × (sq < length members.now)) }
    ensures none { IfNone result (take_out (kept_in statuses.now) from (drop from members.now)
        ≡ None) }
{
    for sq in from..members.len() {
        if is_confirmed(&members[sq], statuses[sq]) {
            return Some(sq);
        }
    }
    None
}
