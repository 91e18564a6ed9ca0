//! Drawn courses of a source: what the packets of its table say, and what the frames of its terminal hold, as digests
//! that another program has found. Worked courses are among the rows of `command_walk_tests`.

ghost use Rattle.std.specs.Prelude.{◌≡◌, ◌+◌, ◌%◌, ◌<◌, length, IfSome};
ghost use Rattle.terminal_source.specs.source_core.Terminal.{SameKind};

use member_cells::{BackCell, Ctrl, HeldContainer, blank_boxes};
use member_rows::lcas_packet::Packet;
use std::alloc::Global;
use terminal_source::lcas_source::{CommandFault, SourceTable};
use terminal_source::source_core::SourceCore;

/// Draws of a generator of 64 bits, and a digest of what is seen.
#[derive(Drop)]
struct Draws {
    state: u64,
    sum: u64,
}

impl Draws {
    /// Draws of a number.
    fn of(state: u64) -> Draws {
        Draws { state, sum: 0 }
    }

    fn below(&mut self, n: u16) -> u16
        requires { 0 < n }
        ensures { result < n }
    {
        self.state = self
            .state
            .wrapping_mul(6_364_136_223_846_793_005)
            .wrapping_add(1_442_695_040_888_963_407);
        ((self.state >> 33) % u64::from(n)) as u16
    }

    /// Goes on with the digest.
    fn see(&mut self, n: u8) {
        self.sum = self.sum.wrapping_mul(31).wrapping_add(u64::from(n));
    }
}

/// The return packet that says this member status and this RS-Ack.
fn back(mst: u8, rs_ack: bool) -> BackCell {
    let packet = Packet {
        mst,
        rs_ack,
        chg: false,
        sq: 255,
        mfi2: 0,
        ctrl: Ctrl::Idle,
        gid: false,
        act: 0,
    };
    BackCell::Packet(packet.nibbles())
}

/// A command that is drawn, and how it is answered.
fn ask(draws: &mut Draws, table: &mut SourceTable) -> u8
    ensures { table.new.steps ≡ table.old.steps }
{
    let adds = draws.below(3) > 0;
    let line = draws.below(26) as u8;
    let answer = if adds {
        table.add(line)
    } else {
        table.remove(line)
    };
    match answer {
        Ok(()) => 0,
        Err(CommandFault::UnknownLine { .. }) => 1,
        Err(CommandFault::AlreadyIn) => 2,
        Err(CommandFault::NotIn) => 3,
        Err(CommandFault::TooManyPending { .. }) => 4,
    }
}

/// A return cell that is drawn, where the table's change bit is this.
fn cell(draws: &mut Draws, chg: bool) -> Option<BackCell> {
    let kind = draws.below(8);
    if kind == 0 {
        return None;
    }
    if kind == 1 {
        return Some(BackCell::Lost);
    }
    let mst = draws.below(255) as u8;
    let rs_ack = if draws.below(4) > 0 { chg } else { !chg };
    match back(mst, rs_ack) {
        // A number that is no nibble.
        BackCell::Packet(mut nibbles) if kind == 2 => {
            nibbles[12] = 16;
            Some(BackCell::Packet(nibbles))
        }
        cell => Some(cell),
    }
}

/// Goes on with a digest of what the packets of 24 lines say, and gives their change bit.
fn see_packets(draws: &mut Draws, table: &SourceTable) -> bool
    requires { 0 < table.now.steps }
{
    let first = table.packet(0);
    draws.see(u8::from(first.chg));
    draws.see(first.act);
    for line in 0..24 {
        let packet = table.packet(line);
        draws.see(packet.ctrl.code());
        draws.see(packet.sq);
    }
    first.chg
}

/// The digests of four hundred steps of twenty-four lines, after each fifty.
fn drawn_table() -> [u64; 8] {
    let mut draws = Draws::of(7);
    let mut table = SourceTable::new(24, 16);
    let mut chg = false;
    let mut sums = [0; 8];
    for step in 0..400usize {
        if draws.below(5) == 0 {
            let asked = ask(&mut draws, &mut table);
            draws.see(asked);
        }
        table.decide(cell(&mut draws, chg));
        chg = see_packets(&mut draws, &table);
        sums[step / 50] = draws.sum;
    }
    sums
}

/// Four hundred steps, whose digests another program has found.
#[test]
fn packets_of_a_table(rt: HostRuntime) {
    let digests = [
        12_623_802_893_827_361_614,
        7_182_069_404_687_115_738,
        15_216_215_860_832_197_499,
        7_203_910_142_382_186_676,
        10_308_447_038_577_744_894,
        5_425_546_910_549_275_549,
        334_643_379_268_468_692,
        14_997_702_163_969_560_106,
    ];
    assert_eq!(rt; drawn_table(), digests);
}

/// Makes a frame, with the return cell that it needs.
fn tick(core: &mut SourceCore, cells: &[BackCell], out: &mut [Box<HeldContainer>])
    requires places { length out.old ≡ core.old.lines }
    requires few { core.old.ticks < 1000000 }
    ensures ticks { core.new.ticks ≡ core.old.ticks + 1 }
    ensures kind { SameKind core.new core.old }
{
    let cell = match core.needs_back() {
        Some(k) => match cells.get(k as usize) {
            Some(cell) => Some(*cell),
            None => Some(BackCell::Lost),
        },
        None => None,
    };
    core.tick(cell, out);
}

/// A source of six lines, of which the first four are added.
fn source(alloc: Global) -> Option<SourceCore>
    ensures lines { IfSome result (λ core. core.lines ≡ 6) }
    ensures ticks { IfSome result (λ core. core.ticks ≡ 0) }
{
    let mut core = SourceCore::new(alloc, 6, 2, 756, 16).ok()?;
    for line in 0..4 {
        let _ = core.add(line);
    }
    Some(core)
}

/// The return packet of a sink that reads the packets of six lines but one, where status goes in groups of eight.
fn answer(table: &SourceTable, group: u8, silent: u8) -> BackCell
    requires { 0 < table.now.steps }
{
    let mut mst = 0xff;
    let mut rs_ack = false;
    for line in 0..6 {
        let packet = table.packet(line);
        if silent != line {
            rs_ack = packet.chg;
            if packet.ctrl != Ctrl::Idle && packet.sq / 8 == group {
                mst &= !(0x80 >> (packet.sq % 8));
            }
        }
    }
    back(mst, rs_ack)
}

/// Keeps the return packet of a sink that a drawn line is not read at, if at any, or none, where a decision step was
/// made before the last frame.
fn hear(draws: &mut Draws, core: &SourceCore, cells: &mut [BackCell; 80])
    requires { core.now.ticks % 16 ≡ 9 }
{
    let lost = draws.below(8) == 0;
    let silent = draws.below(18) as u8;
    let k = core.ticks() / 16;
    if let Some(cell) = cells.get_mut(k as usize) {
        if !lost {
            *cell = answer(core.table(), (k % 16) as u8, silent);
        }
    }
}

/// What lands before a frame, where anything is drawn to: a frame of the client, a command.
fn land(draws: &mut Draws, core: &mut SourceCore)
    ensures ticks { core.new.ticks ≡ core.old.ticks }
    ensures kind { SameKind core.new core.old }
{
    if draws.below(3) == 0 {
        land_frame(draws, core);
    }
    if draws.below(120) == 0 {
        let adds = draws.below(3) > 0;
        let line = draws.below(7) as u8;
        let answer = if adds {
            core.add(line)
        } else {
            core.remove(line)
        };
        draws.see(u8::from(answer.is_ok()));
    }
}

/// A frame of drawn octets.
fn land_frame(draws: &mut Draws, core: &mut SourceCore)
    ensures ticks { core.new.ticks ≡ core.old.ticks }
    ensures kind { SameKind core.new core.old }
{
    let mut frame = [0; 1600];
    let len = usize::from(draws.below(1500)) + 60;
    for octet in &mut frame {
        *octet = draws.below(256) as u8;
    }
    draws.see(u8::from(core.accept(&frame[..len]).is_ok()));
}

/// Goes on with a digest of a frame.
fn see_frame(draws: &mut Draws, out: &[Box<HeldContainer>]) {
    for place in out {
        let container = place.container();
        draws.see(container.h4);
        for octet in &container.payload[..760] {
            draws.see(*octet);
        }
    }
}

/// The digests of twelve hundred frames, after each two hundred.
fn drawn_frames(core: &mut SourceCore, out: &mut [Box<HeldContainer>]) -> [u64; 6]
    requires lines { core.old.lines ≡ 6 }
    requires places { length out.old ≡ 6 }
    requires none { core.old.ticks ≡ 0 }
{
    let mut draws = Draws::of(5);
    let mut cells = [BackCell::Lost; 80];
    let mut sums = [0; 6];
    for t in 0..1200usize {
        land(&mut draws, core);
        tick(core, &cells, out);
        if t % 16 == 8 {
            hear(&mut draws, core, &mut cells);
        }
        see_frame(&mut draws, out);
        sums[t / 200] = draws.sum;
    }
    sums
}

/// Twelve hundred frames of six lines, whose digests another program has found.
#[test]
fn frames_of_a_terminal(rt: HostRuntime) {
    let sums = match (source(rt.alloc()), blank_boxes(rt.alloc(), 6)) {
        (Some(mut core), Ok(mut out)) => drawn_frames(&mut core, &mut out),
        _ => [0; 6],
    };
    let digests = [
        1_968_506_556_928_311_926,
        1_045_169_976_846_713_160,
        4_123_169_019_416_405_505,
        14_792_680_169_118_880_569,
        11_463_284_530_136_696_199,
        10_275_626_585_195_555_367,
    ];
    assert_eq!(rt; sums, digests);
}
