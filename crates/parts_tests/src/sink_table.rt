//! Rows of packets that three lines carry, what is told of them, and the states and the lines in use after each.

ghost use Rattle.std.specs.Prelude.{◌≡◌, ◌+◌, ◌≤◌};

use law_model::{Options, Packet};
use member_cells::Ctrl;
use std::alloc::Global;
use terminal_sink::lcas_sink::{SinkState, SinkTable};

/// Rows: the ACT of the packets, and the packet of each of three lines, which is `-` for none, and else a
/// letter for its control word, its sequence number, and its change bit; then the member statuses and the
/// acknowledgement that are told of them, the states of the first two lines after it, which are `i` for Idle,
/// `f` for Fine and `x` for Failed, and the lines that carry payload after it, or `?` where they aren't
/// known. `*` stands for anything. The status of a line is told in every sixteenth packet.
const LISTED: &str = "\
    0 - - - => ff - ii *\n\
    0 - d9- - => bf - if *\n\
    0 i9+ d9- - => ff + if *\n\
    0 - - - => ff + ix *\n\
    0 a0+ - - => ff + fx *\n\
    0 - d9- - => ff - xf *\n\
    0 i9+ i9+ - => ff + ii *\n\
    9 TIMES 0 a0+ - - => ff + fi *\n\
    0 a0+ - - => 7f + fi *";

/// Rows of a table that tells all statuses in 32 packets: the line that isn't read last is held.
const HELD: &str = "\
    0 a0+ - - => 7f + fi *\n\
    31 TIMES 0 a0+ - - => ff + fi *\n\
    0 - - - => 7f + xi *";

/// Rows of a line that is up after sixteen packets in turn.
const RESTORED: &str = "\
    0 - - - => ff - ii *\n\
    15 TIMES 0 a0+ - - => ff + fi *\n\
    0 a0+ - - => 7f + fi *";

/// The same rows, where it is up after one more.
const DOWN: &str = "\
    0 - - - => ff - ii *\n\
    16 TIMES 0 a0+ - - => ff + fi *";

/// Rows after the last of which a line is held, and has another change bit to answer than the one that it said.
const CHANGED: &str = "\
    0 a0+ - - => 7f + fi *\n\
    15 TIMES 0 a0+ - - => ff + fi *\n\
    0 - d9- - => ff - xf *";

/// Rows of a sink that goes on. Silent lines were read since the change or not, are as many as ACT wants or not, and
/// were last in NORM, ADD or DNU.
const GOING_ON: &str = "\
    0 - - - => * * * ?\n\
    2 e1+ n0+ i9+ => * * * 10\n\
    2 e1+ - i9+ => * * * 10\n\
    2 - - i9+ => * * * 10\n\
    2 - - - => * * * ?\n\
    2 n0- - i9- => * * * ?\n\
    2 n0- e1- i9- => * * * 01\n\
    1 e0- - i9- => * * * 0\n\
    2 - - i9- => * * * 01\n\
    3 n0- - i9- => * * * ?\n\
    2 n0+ e1+ a2+ => * * * 01\n\
    2 n0+ e1+ - => * * * 01\n\
    3 n0+ n1+ - => * * * 012\n\
    3 n0+ - - => * * * 012\n\
    2 n0+ e1+ d2+ => * * * 01\n\
    2 n0+ - - => * * * ?";

/// Rows of a sink that stops.
const STOPPING: &str = "\
    2 e1+ n0+ i9+ => * * * 10\n\
    2 e1+ - i9+ => * * * ?\n\
    1 e0+ - i9+ => * * * 0";

/// Hold-off, wait to restore, how many packets tell all statuses, whether the sink goes on, and rows.
const COURSES: [(u16, u16, u8, bool, &str); 7] = [
    (0, 0, 16, false, LISTED),
    (1, 0, 32, false, HELD),
    (0, 15, 16, false, RESTORED),
    (0, 16, 16, false, DOWN),
    (5, 0, 16, false, CHANGED),
    (0, 0, 16, true, GOING_ON),
    (0, 0, 16, false, STOPPING),
];

/// The packet of a word.
fn packet(word: &str, act: u8) -> Option<Packet> {
    let [letter, sq, chg] = word.as_bytes() else {
        return None;
    };
    let ctrl = match letter {
        b'a' => Ctrl::Add,
        b'n' => Ctrl::Norm,
        b'e' => Ctrl::Eos,
        b'd' => Ctrl::Dnu,
        _ => Ctrl::Idle,
    };
    Some(Packet {
        mst: 0,
        rs_ack: false,
        chg: *chg == b'+',
        sq: *sq % 16,
        mfi2: 0,
        ctrl,
        gid: true,
        act,
    })
}

/// The letter of a state.
fn letter(state: SinkState) -> char {
    match state {
        SinkState::Idle => 'i',
        SinkState::Fine => 'f',
        SinkState::Failed => 'x',
    }
}

/// What is said of the lines that carry payload.
fn say_carriers(said: &mut String, carriers: Option<&[u8]>) {
    match carriers {
        Some(lines) => {
            for line in lines {
                let _ = write!(said, "{line}");
            }
        }
        None => {
            let _ = said.push('?');
        }
    }
}

/// The packets of three words behind that of their ACT.
fn packets(given: &str) -> [Option<Packet>; 3] {
    let mut words = given.split(' ');
    let act = words.next().unwrap_or("").parse::<u8>().unwrap_or(0) % 16;
    let mut packets = [None; 3];
    for (place, word) in packets.iter_mut().zip(words) {
        *place = packet(word, act);
    }
    packets
}

/// Whether a table that told a packet is as is wanted.
fn is_wanted(alloc: Global, table: &SinkTable, told: &Packet, wanted: &str) -> bool {
    let mut said = String::new(alloc);
    let (mst, ack) = (told.mst, if told.rs_ack { '+' } else { '-' });
    let (first, second) = (letter(table.state(0)), letter(table.state(1)));
    let _ = write!(&mut said, "{mst:02x} {ack} {first}{second} ");
    say_carriers(&mut said, table.carriers());
    let mut is_wanted = true;
    for (said, wanted) in said.split(' ').zip(wanted.split(' ')) {
        is_wanted = is_wanted && (wanted == "*" || said == wanted);
    }
    is_wanted
}

/// Takes a row. Tells whether what is told of it, and what the table is after it, are those that are listed, and the
/// packet that is told has this number and says nothing else.
fn is_right(alloc: Global, table: &mut SinkTable, row: &str, mfi2: u8) -> bool
    requires lines { table.old.lines ≡ 3 }
    requires few { table.old.taken ≤ 100 }
    ensures lines { table.new.lines ≡ 3 }
    ensures taken { table.new.taken ≡ table.old.taken + 1 }
{
    let (given, wanted) = row.split_once(" => ").unwrap_or((row, "a row"));
    let told = table.packet_row(&packets(given));
    let rest = Packet {
        mst: told.mst,
        rs_ack: told.rs_ack,
        chg: false,
        sq: 255,
        mfi2,
        ctrl: Ctrl::Idle,
        gid: false,
        act: 0,
    };
    told == rest && is_wanted(alloc, table, &told, wanted)
}

/// The first row that is not right.
fn first_wrong(alloc: Global, table: &mut SinkTable, rows: &'static str) -> Option<&'static str>
    requires lines { table.old.lines ≡ 3 }
    requires few { table.old.taken ≡ 0 }
{
    let mut taken = 0u8;
    for row in rows.lines() {
        let (count, row) = row.split_once(" TIMES ").unwrap_or(("1", row));
        for _ in 0..count.parse::<u8>().unwrap_or(1) {
            if taken > 99 || !is_right(alloc, table, row, taken + 1) {
                return Some(row);
            }
            taken += 1;
        }
    }
    None
}

/// The first row of all courses that is not right.
fn first_wrong_of_all(alloc: Global) -> Option<&'static str> {
    for (holdoff, restore, statuses, infers, rows) in &COURSES {
        let options = Options {
            infers: *infers,
            holdoff: *holdoff % 5000,
            restore: *restore % 5000,
            statuses: if *statuses == 32 { 32 } else { 16 },
        };
        let mut table = SinkTable::new(3, options);
        let wrong = first_wrong(alloc, &mut table, *rows);
        if wrong.is_some() {
            return wrong;
        }
    }
    None
}

#[test]
fn rows_of_packets(rt: HostRuntime) {
    assert_eq!(rt; first_wrong_of_all(rt.alloc()), None);
}
