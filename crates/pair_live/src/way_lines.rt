//! The lines of a way of a pair: those of a walk, with the word of the way behind their first word.
ghost use Rattle.std.specs.Prelude.{◌≡◌, ◌<◌, ◌≤◌, ◌++◌, OnOk, OnErr, codes, length, drop};
ghost use Rattle.law_model.specs.Common.{AppendsPart, most_lines};
ghost use Rattle.law_pair.specs.declared.pair_events.Way.TheVariants.{There as THERE, Back as BACK};
ghost use Rattle.law_live.specs.Common.{refused_way_text, total_way_text, way_word};
ghost use Rattle.text_got.specs.TextSoFar.{Holds};
ghost use Rattle.walk_live.specs.TimedWriting.{got_words};
ghost use Rattle.pair_live.specs.PairReplies.{queue_lines_on, step_way_text};

use law_model::{Refusal, Totals};
use octet_io::{ByteSink, Failed};
use pair_engine::Way;
use terminal_source::lcas_source::SourceTable;
use text_captures::packet_trace::{TRACE_ROOM, trace_line};
use text_got::TextBlock;
use text_report::{REFUSED_ROOM, TOTAL_ROOM, refused_line, total_line};
use walk_engine::walk_core::StepNote;
use walk_live::{Asked, Whose, tell_number};

/// Whose the frames of a way are.
pub(crate) fn whose(way: Way) -> Whose
    ensures { got_words result ≡ codes "got " ++ way_word way ++ codes " " }
{
    match way {
        Way::There => Whose::There,
        Way::Back => Whose::Back,
    }
}

/// The first words of the line of a refused item.
fn refused_words(way: Way) -> &'static [u8]
    ensures words { result.now ≡ codes "refused " ++ way_word way ++ codes " " }
    ensures short { length result.now ≤ 14 }
{
    match way {
        Way::There => b"refused there ",
        Way::Back => b"refused back ",
    }
}

/// Those of the line of a decision step.
fn packet_words(way: Way) -> &'static [u8]
    ensures words { result.now ≡ codes "packet " ++ way_word way ++ codes " " }
    ensures short { length result.now ≤ 14 }
{
    match way {
        Way::There => b"packet there ",
        Way::Back => b"packet back ",
    }
}

/// Those of the line of a member.
pub(crate) fn member_words(way: Way) -> &'static [u8]
    ensures words { result.now ≡ codes "member " ++ way_word way ++ codes " " }
    ensures short { length result.now ≤ 13 }
{
    match way {
        Way::There => b"member there ",
        Way::Back => b"member back ",
    }
}

/// Those of the line of how many frames wait.
fn queue_words(way: Way) -> &'static [u8]
    ensures words { result.now ≡ codes "queue " ++ way_word way ++ codes " " }
    ensures short { length result.now ≤ 12 }
{
    match way {
        Way::There => b"queue there ",
        Way::Back => b"queue back ",
    }
}

/// Those of the line of totals.
fn total_words(way: Way) -> &'static [u8]
    ensures words { result.now ≡ codes "total " ++ way_word way ++ codes " " }
    ensures short { length result.now ≤ 14 }
{
    match way {
        Way::There => b"total there ",
        Way::Back => b"total back ",
    }
}

/// Adds a line, with these first words in place of its first word, which has so many octets with its space.
fn tell_behind<K: ByteSink>(
    words: &[u8],
    word: usize,
    line: &[u8],
    block: &mut TextBlock,
    out: &mut K,
) -> Result<(), Failed>
    requires short { length words.now ≤ 14 }
    requires word { word ≤ length line.now }
    requires line { length line.now ≤ 2048 }
    ensures told { OnOk result (Holds K.written K.faults out.old out.new block.new
        (block.old ++ (words.now ++ drop word line.now))) }
    ensures part { OnErr result (AppendsPart K.written K.faults out.old out.new
        (block.old ++ (words.now ++ drop word line.now))) }
{
    match block.add(words, out) {
        Ok(()) => block.add(&line[word..], out),
        Err(Failed) => Err(Failed),
    }
}

/// Adds the line of a refused item of a way.
pub(crate) fn tell_refused<K: ByteSink>(
    way: Way,
    number: u32,
    why: &Refusal,
    block: &mut TextBlock,
    out: &mut K,
) -> Result<(), Failed>
    ensures told { OnOk result (Holds K.written K.faults out.old out.new block.new
        (block.old ++ refused_way_text way number why.now)) }
    ensures part { OnErr result (AppendsPart K.written K.faults out.old out.new
        (block.old ++ refused_way_text way number why.now)) }
{
    let mut line = [0u8; REFUSED_ROOM];
    let end = refused_line(number, why, &mut line);
    tell_behind(refused_words(way), 8, &line[..end], block, out)
}

/// Adds the line of a decision step of a way, which left this table of so many lines.
pub(crate) fn tell_step<K: ByteSink>(
    way: Way,
    note: StepNote,
    table: &SourceTable,
    lines: u8,
    block: &mut TextBlock,
    out: &mut K,
) -> Result<(), Failed>
    requires lines { lines ≤ most_lines }
    requires steps { 0 < table.now.steps }
    ensures told { OnOk result (Holds K.written K.faults out.old out.new block.new (block.old
        ++ step_way_text way note.packet note.back table.now.source.table lines)) }
    ensures part { OnErr result (AppendsPart K.written K.faults out.old out.new (block.old
        ++ step_way_text way note.packet note.back table.now.source.table lines)) }
{
    let mut line = [0u8; TRACE_ROOM];
    let end = trace_line(note.packet, note.back, table, lines, &mut line);
    tell_behind(packet_words(way), 7, &line[..end], block, out)
}

/// Adds the line of how many frames of a way wait, where that is asked and isn't the number before.
pub(crate) fn tell_queue<K: ByteSink>(
    tells: Asked,
    way: Way,
    before: u16,
    waiting: u16,
    block: &mut TextBlock,
    out: &mut K,
) -> Result<(), Failed>
    ensures told { OnOk result (Holds K.written K.faults out.old out.new block.new
        (block.old ++ queue_lines_on tells way before waiting)) }
    ensures part { OnErr result (AppendsPart K.written K.faults out.old out.new
        (block.old ++ queue_lines_on tells way before waiting)) }
{
    if tells != Asked::Members || waiting == before {
        return Ok(());
    }
    tell_number(queue_words(way), u32::from(waiting), block, out)
}

/// Adds the line of totals of a way.
fn tell_totals<K: ByteSink>(
    way: Way,
    totals: &Totals,
    block: &mut TextBlock,
    out: &mut K,
) -> Result<(), Failed>
    ensures told { OnOk result (Holds K.written K.faults out.old out.new block.new
        (block.old ++ total_way_text way totals.now)) }
    ensures part { OnErr result (AppendsPart K.written K.faults out.old out.new
        (block.old ++ total_way_text way totals.now)) }
{
    let mut line = [0u8; TOTAL_ROOM];
    let end = total_line(totals, &mut line);
    tell_behind(total_words(way), 6, &line[..end], block, out)
}

/// Adds the lines of totals of both ways.
pub(crate) fn tell_both_totals<K: ByteSink>(
    there: &Totals,
    back: &Totals,
    block: &mut TextBlock,
    out: &mut K,
) -> Result<(), Failed>
    ensures told { OnOk result (Holds K.written K.faults out.old out.new block.new (block.old
        ++ (total_way_text THERE there.now ++ total_way_text BACK back.now))) }
    ensures part { OnErr result (AppendsPart K.written K.faults out.old out.new (block.old
        ++ (total_way_text THERE there.now ++ total_way_text BACK back.now))) }
{
    match tell_totals(Way::There, there, block, out) {
        Ok(()) => tell_totals(Way::Back, back, block, out),
        Err(Failed) => Err(Failed),
    }
}
