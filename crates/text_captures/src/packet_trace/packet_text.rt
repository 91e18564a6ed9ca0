//! The lines of a decoding and of a trace, each put together in a slice with room for it. Each answers its length.
ghost use Rattle.std.specs.Prelude.{◌≡◌, ◌+◌, ◌*◌, ◌%◌, ◌==◌, ◌≤◌, ◌<◌, ◌++◌, length, take, Ok, Err};
ghost use Rattle.text_report.specs.TextCursor.{Extends, HasTextRoom};
ghost use Rattle.law_model.specs.Common.{found_text, end_text, ctrl_text, bit_text, nibble_text, place_in, most_lines};
ghost use Rattle.text_captures.specs.packet_trace.StepText.{back_text, place_text, place_texts, step_text};

use member_cells::{BackCell, Ctrl};
use member_rows::lcas_packet::{Packet, PacketFault};
use terminal_source::lcas_source::SourceTable;
use text_report::TextCursor;

/// Room for a line of a decoding, in octets.
pub const FOUND_ROOM: usize = 128;

/// Room for a line of a trace of up to 128 lines, in octets.
pub const TRACE_ROOM: usize = 2048;

/// The word of a control code.
fn ctrl_word(ctrl: Ctrl) -> &'static [u8]
    ensures word { result.now ≡ ctrl_text ctrl }
    ensures short { length result.now ≤ 5 }
{
    match ctrl {
        Ctrl::Fixed => b"fixed",
        Ctrl::Add => b"add",
        Ctrl::Norm => b"norm",
        Ctrl::Eos => b"eos",
        Ctrl::Idle => b"idle",
        Ctrl::Dnu => b"dnu",
    }
}

/// The digit of a bit.
fn bit_digit(bit: bool) -> &'static [u8]
    ensures digit { result.now ≡ bit_text bit }
    ensures one { length result.now ≡ 1 }
{
    if bit { b"1" } else { b"0" }
}

/// Adds text, and the digit of a bit behind it.
fn add_bit(line: &mut TextCursor, before: &[u8], bit: bool)
    requires { HasTextRoom line.old (length before.now + 1) }
    ensures text { Extends line.old line.new (before.now ++ bit_text bit) }
    ensures end { line.new.at ≡ line.old.at + length before.now + 1 }
{
    line.text(before);
    line.text(bit_digit(bit));
}

/// Adds the digit of a nibble.
fn add_nibble(line: &mut TextCursor, nibble: u8)
    requires { HasTextRoom line.old 1 }
    ensures text { Extends line.old line.new (nibble_text nibble) }
    ensures end { line.new.at ≡ line.old.at + 1 }
{
    let mut digits = [0; 2];
    TextCursor::new(&mut digits).hex(&[nibble]);
    line.text(&digits[1..]);
}

/// Writes the line of a control packet at a place.
fn packet_line(place: u64, packet: &Packet, out: &mut [u8]) -> usize
    requires { 128 ≤ length out.old }
    ensures within { result ≤ 128 }
    ensures line { take result out.new ≡ found_text place (Ok packet.now) }
{
    let mut line = TextCursor::new(out);
    line.number(b"at ", place);
    line.text(b" ");
    line.text(ctrl_word(packet.ctrl));
    line.number(b" sq ", packet.sq);
    add_bit(&mut line, b" gid ", packet.gid);
    line.number(b" act ", packet.act);
    add_bit(&mut line, b" chg ", packet.chg);
    line.text(b" mst ");
    line.hex(&[packet.mst]);
    add_bit(&mut line, b" ack ", packet.rs_ack);
    line.text(b"\n");
    line.end()
}

/// Writes the line of what is wrong with a control packet at a place.
fn fault_line(place: u64, fault: PacketFault, out: &mut [u8]) -> usize
    requires { 128 ≤ length out.old }
    ensures within { result ≤ 128 }
    ensures line { take result out.new ≡ found_text place (Err fault) }
{
    let mut line = TextCursor::new(out);
    line.number(b"at ", place);
    match fault {
        PacketFault::Crc { said, found } => {
            line.text(b" crc said ");
            line.hex(&[said]);
            line.text(b" found ");
            line.hex(&[found]);
        }
        PacketFault::Ctrl { code } => {
            line.text(b" ctrl ");
            add_nibble(&mut line, code);
        }
    }
    line.text(b"\n");
    line.end()
}

/// Writes the line of what an `H4Decoder` found at a place: the parts of a packet, or what is wrong with one.
pub fn found_line(place: u64, found: Result<Packet, PacketFault>, out: &mut [u8]) -> usize
    requires { 128 ≤ length out.old }
    ensures within { result ≤ 128 }
    ensures line { take result out.new ≡ found_text place found }
{
    match found {
        Ok(packet) => packet_line(place, &packet, out),
        Err(fault) => fault_line(place, fault, out),
    }
}

/// Writes the last line of a decoding: how many octets were given, and how many packets were found.
pub fn end_line(octets: usize, packets: u64, out: &mut [u8]) -> usize
    requires { 128 ≤ length out.old }
    ensures within { result ≤ 128 }
    ensures line { take result out.new ≡ end_text octets packets }
{
    let mut line = TextCursor::new(out);
    line.number(b"end octets ", octets);
    line.number(b" packets ", packets);
    line.text(b"\n");
    line.end()
}

/// Adds what a return cell says.
fn add_back(line: &mut TextCursor, back: Option<BackCell>)
    requires { HasTextRoom line.old 4 }
    ensures text { Extends line.old line.new (back_text back) }
    ensures end { line.new.at ≡ line.old.at + 4 }
{
    match back {
        None => line.text(b"none"),
        Some(BackCell::Lost) => line.text(b"lost"),
        Some(BackCell::Packet(nibbles)) => {
            add_nibble(line, nibbles[0]);
            add_nibble(line, nibbles[1]);
            add_bit(line, b"/", nibbles[2] % 2 == 1);
        }
    }
}

/// Adds the code and the SQ of a line.
fn add_place(line: &mut TextCursor, table: &SourceTable, member: u8)
    requires room { HasTextRoom line.old 10 }
    requires steps { 0 < table.now.steps }
    ensures text { Extends line.old line.new
        (place_text (place_in table.now.source.table.order 0 member)) }
    ensures end { line.new.at ≤ line.old.at + 10 }
{
    let packet = table.packet(member);
    line.text(b" ");
    line.text(ctrl_word(packet.ctrl));
    line.number(b":", packet.sq);
}

/// Adds the code and the SQ of each line.
fn add_places(line: &mut TextCursor, table: &SourceTable, lines: u8)
    requires room { HasTextRoom line.old (10 * lines) }
    requires steps { 0 < table.now.steps }
    ensures text { Extends line.old line.new (place_texts table.now.source.table lines) }
    ensures end { line.new.at ≤ line.old.at + 10 * lines }
{
    for member in 0..lines {
        add_place(line, table, member);
    }
}

/// Writes the line of a decision step of the source, which left this table of `lines` lines: the number of
/// the step, which is that of the packets that are sent from it on; the change bit and the number of active
/// lines that these say; the return cell that it took; and the code and the SQ of each line.
pub fn trace_line(
    packet: u32,
    back: Option<BackCell>,
    table: &SourceTable,
    lines: u8,
    out: &mut [u8],
) -> usize
    requires room { 2048 ≤ length out.old }
    requires lines { lines ≤ most_lines }
    requires steps { 0 < table.now.steps }
    ensures within { result ≤ 2048 }
    ensures line { take result out.new ≡ step_text packet back table.now.source.table lines }
{
    let group = table.packet(0);
    let mut line = TextCursor::new(out);
    line.number(b"packet ", packet);
    add_bit(&mut line, b" chg ", group.chg);
    line.number(b" act ", group.act);
    line.text(b" back ");
    add_back(&mut line, back);
    add_places(&mut line, table, lines);
    line.text(b"\n");
    line.end()
}
