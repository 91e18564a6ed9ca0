//! A small script by hand, over real rings.
ghost use Rattle.std.specs.Prelude.{◌≡◌, length, IfOk};
ghost use Rattle.law_model.specs.Common.{IsValid};
ghost use Rattle.terminal_group.specs.Item.{bare_items};
ghost use Rattle.thread_group.specs.Group.{items_of};
ghost use Rattle.thread_group.specs.GroupRings.{AreUnused};

use law_model::{FrameRoom, Script};
use member_cells::{BackCell, Container};
use std::alloc::{AllocError, Global};
use terminal_group::lent_item;
use text_scripts::script_read::read_script;
use thread_group::{GroupState, SubmitFault, TickAnswer};
use thread_rings::{LineEnds, RingIn, RingOut, back_ring, line_rings};

/// The ends of a number of send rings.
fn send_rings(
    alloc: Global,
    lines: u8,
) -> Result<(Vec<RingOut<Container>>, Vec<RingIn<Container>>), AllocError>
    ensures count { IfOk result (λ rings. length rings.0.items ≡ lines) }
    ensures unused { IfOk result (λ rings. AreUnused rings.0.items) }
{
    let mut tx = Vec::new(alloc);
    let mut outs = Vec::new(alloc);
    for _ in 0..lines {
        let LineEnds {
            tx: end,
            tx_out,
            rx: _,
            rx_out: _,
        } = line_rings(alloc, 1)?;
        tx.push(end)?;
        outs.push(tx_out)?;
    }
    Ok((tx, outs))
}

/// A group of a script, and the far ends of its rings.
#[derive(Drop)]
struct Group {
    script: Script,
    room: FrameRoom,
    state: GroupState,
    back: RingOut<BackCell>,
    outs: Vec<RingIn<Container>>,
    ghost items: { items_of state ≡ bare_items script.items },
}

/// A group of a script, with room for so many entries of the journal and so many octets of frames.
fn group_of(alloc: Global, script: Script, entries: u32, bytes: u64) -> Result<Group, AllocError>
    requires { IsValid script }
{
    let room = FrameRoom::new(alloc)?;
    let (tx, outs) = send_rings(alloc, script.config.lines)?;
    let (back, back_in) = back_ring(alloc)?;
    let state = GroupState::new(alloc, &script, entries, bytes, tx, back_in)?;
    Ok(Group {
        script,
        room,
        state,
        back,
        outs,
    })
}

/// The group of a text.
fn group_in(alloc: Global, text: &str, entries: u32, bytes: u64) -> Option<Group> {
    if text.len() > 1000 {
        return None;
    }
    match read_script(alloc, text.as_bytes()) {
        Ok(script) => group_of(alloc, script, entries, bytes).ok(),
        Err(_) => None,
    }
}

/// What so many ticks are answered, if it is the same each time.
fn ticked(group: &mut GroupState, times: u32) -> Option<TickAnswer>
    ensures { items_of group.new ≡ items_of group.old }
{
    let first = group.tick();
    for _ in 1..times {
        if group.tick() != first {
            return None;
        }
    }
    Some(first)
}

/// What the item of this number is answered, where there is one.
fn submitted(group: &mut Group, number: u32) -> Option<Result<(), SubmitFault>> {
    if number >= group.script.items.len() {
        return None;
    }
    let lent = group.script.items.lend(number, &mut group.room);
    Some(group.state.submit(number, lent_item(lent, &group.room)))
}

/// Brings a return packet, where there is room for it.
fn bring(back: &mut RingOut<BackCell>) {
    if back.ready() {
        back.push(BackCell::Packet([1; 16]));
    }
}

/// Appends the answer to the item of this number, to so many ticks, or, where a return packet comes, what is counted so
/// far and the first two refusals.
fn tell(group: &mut Group, step: &str, number: u32, told: &mut String) -> Result<(), AllocError> {
    match step {
        "item" => write!(told, "{:?}", submitted(group, number)),
        "tick" => write!(told, "{:?}", ticked(&mut group.state, number)),
        _ => {
            bring(&mut group.back);
            let mut refusals = group.state.refusals();
            let (first, second) = (refusals.next(), refusals.next());
            write!(told, "{:?} {first:?} {second:?}", group.state.totals())
        }
    }
}

/// Whether a step is answered as a row says.
fn is_answered(alloc: Global, group: &mut Group, row: &str) -> bool {
    let (step, wanted) = row.split_once(" => ").unwrap_or((row, "a row"));
    let (step, number) = step.split_once(' ').unwrap_or((step, ""));
    let mut told = String::new(alloc);
    let _ = tell(group, step, number.parse::<u32>().unwrap_or(0), &mut told);
    told.as_str() == wanted
}

/// The first row that is answered otherwise.
fn first_wrong(alloc: Global, group: Option<Group>, rows: &'static str) -> Option<&'static str> {
    let Some(mut group) = group else {
        return Some("a group");
    };
    for row in rows.lines() {
        if !is_answered(alloc, &mut group, row) {
            return Some(row);
        }
    }
    None
}

/// A command and a frame that the journal has room for.
const LANDING: &str = "lines 1\ndelays 0\nring 1\nlag 1\nticks 41\nlost 0 1\nadd 0 0\nadd 0 0\n\
    frame 5 \
    0707070707070707070707070707070707070707070707070707070707070707\
    0707070707070707070707070707070707070707070707070707070707070707\n";

/// What is due lands before a tick.
const LANDED: &str = "\
    item 2 => Some(Err(Early { now: 0 }))\n\
    item 1 => Some(Err(NotNext { next: Some(0) }))\n\
    tick 1 => Some(Held { item: 0 })\n\
    item 0 => Some(Ok(()))\n\
    tick 1 => Some(Held { item: 1 })\n\
    item 1 => Some(Err(Command(AlreadyIn)))\n\
    item 1 => Some(Err(NotNext { next: None }))\n\
    tick 5 => Some(Ticked)\n\
    tick 1 => Some(Held { item: 2 })\n\
    item 2 => Some(Ok(()))\n\
    tick 19 => Some(Ticked)\n\
    tick 2 => Some(BackMissing { packet: 0 })\n\
    back => Totals { ticks: 24, taken: 0, frames: 1, commands: 1, refused: 1, got: 0 } \
        Some((1, Command(AlreadyIn))) None\n\
    tick 8 => Some(Ticked)\n\
    tick 2 => Some(TxFull { line: 0 })\n\
    back => Totals { ticks: 32, taken: 0, frames: 1, commands: 1, refused: 1, got: 0 } \
        Some((1, Command(AlreadyIn))) None";

/// A frame and a command whose journal has one entry, and an octet too few for the frame.
const FULL: &str = "lines 1\ndelays 0\nring 1\nlag 1\nticks 1\nframe 0 \
    0707070707070707070707070707070707070707070707070707070707070707\
    0707070707070707070707070707070707070707070707070707070707070707\nadd 0 0\n";

/// The frame waits for room.
const WAITING: &str = "\
    item 0 => Some(Err(JournalFull { entries: 1, bytes: 63 }))\n\
    item 1 => Some(Ok(()))\n\
    item 0 => Some(Err(JournalFull { entries: 0, bytes: 63 }))\n\
    tick 1 => Some(Held { item: 0 })";

/// A short frame, and commands.
const SHORT: &str = "lines 1\ndelays 0\nring 1\nlag 1\nticks 1\nframe 0 07\nadd 0 0\nadd 0 0\n";

/// The source refuses before a full journal does.
const REFUSED: &str = "\
    item 1 => Some(Ok(()))\n\
    item 2 => Some(Err(Command(AlreadyIn)))\n\
    tick 1 => Some(Held { item: 0 })\n\
    item 0 => Some(Err(Frame(Length { n: 1 })))\n\
    item 3 => None\n\
    tick 1 => Some(Ticked)\n\
    back => Totals { ticks: 1, taken: 0, frames: 0, commands: 1, refused: 2, got: 0 } \
        Some((0, Frame(Length { n: 1 }))) Some((2, Command(AlreadyIn)))";

#[test]
fn what_is_due_lands_or_is_refused(rt: HostRuntime) {
    let alloc = rt.alloc();
    let wrong = [
        first_wrong(alloc, group_in(alloc, LANDING, 2, 64), LANDED),
        first_wrong(alloc, group_in(alloc, FULL, 1, 63), WAITING),
        first_wrong(alloc, group_in(alloc, SHORT, 1, 63), REFUSED),
    ];
    assert_eq!(rt; wrong, [None; 3]);
}
