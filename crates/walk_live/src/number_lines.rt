//! Lines of some words and a number, which wait in a block or go out where it is much.
ghost use Rattle.std.specs.Prelude.{◌≡◌, ◌≤◌, ◌++◌, OnOk, OnErr, codes, decimal, length, take};
ghost use Rattle.law_model.specs.Common.{AppendsPart};
ghost use Rattle.law_live.specs.Common.{now_text};
ghost use Rattle.text_got.specs.TextSoFar.{Holds};

use octet_io::{ByteSink, Failed};
use text_got::TextBlock;
use text_report::TextCursor;

/// Room for a line of some words and a number, in octets.
const NUMBER_ROOM: usize = 24;

/// Adds the line of how many ticks have passed.
pub fn tell_now<K: ByteSink>(ticks: u32, block: &mut TextBlock, out: &mut K) -> Result<(), Failed>
    ensures told { OnOk result (Holds K.written K.faults out.old out.new block.new
        (block.old ++ now_text ticks)) }
    ensures part { OnErr result (AppendsPart K.written K.faults out.old out.new
        (block.old ++ now_text ticks)) }
{
    tell_number(b"now ", ticks, block, out)
}

/// Adds a line of some words and a number.
pub fn tell_number<K: ByteSink>(
    words: &[u8],
    number: u32,
    block: &mut TextBlock,
    out: &mut K,
) -> Result<(), Failed>
    requires { length words.now ≤ 12 }
    ensures told { OnOk result (Holds K.written K.faults out.old out.new block.new
        (block.old ++ (words.now ++ decimal number ++ codes "\n"))) }
    ensures part { OnErr result (AppendsPart K.written K.faults out.old out.new
        (block.old ++ (words.now ++ decimal number ++ codes "\n"))) }
{
    let mut line = [0u8; NUMBER_ROOM];
    let end = number_line(words, number, &mut line);
    block.add(&line[..end], out)
}

/// Writes that line.
fn number_line(words: &[u8], number: u32, out: &mut [u8]) -> usize
    requires short { length words.now ≤ 12 }
    requires room { 24 ≤ length out.old }
    ensures within { result ≤ 24 }
    ensures line { take result out.new ≡ words.now ++ decimal number ++ codes "\n" }
{
    let mut line = TextCursor::new(out);
    line.number(words, number);
    line.text(b"\n");
    line.end()
}
