//! The octets that lines of hexadecimal digits say.
ghost use Rattle.std.specs.Prelude.{◌≡◌, ℕ, ◌≤◌, ◌+◌, ◌*◌, ◌/◌, ◌++◌, List, length, vec_len, Ok, Err, Some, None, IfOk};
ghost use Rattle.std.specs.Prelude.{OnOk, OnErr, vec_capacity};
ghost use Rattle.text_lines.specs.WordsOfLine.{words};
ghost use Rattle.command_rooms.specs.commands.HexText.{hex_text_of, line_octets};
ghost use Rattle.law_model.specs.Common.{longest_input};

use std::alloc::Global;
use text_hex::{NotHex, decode_into};
use text_lines::{first_word, next_line, next_word};

/// Why a text gives no octets.
#[derive(Clone, Copy, Debug, PartialEq, Eq)]
pub enum HexTextFault {
    /// A line is not hexadecimal: the first one, counted from 1.
    Line { number: u64 },
    /// Memory is short.
    Memory,
}

/// Appends the octets of a line, where it is sound. There has to be room for half as many octets as the line
/// has characters.
fn take_line(line: &[u8], octets: &mut Vec<u8>) -> Result<(), NotHex>
    requires room { vec_len octets.old + length line.now / 2 ≤ vec_capacity octets.old }
    ensures ok { OnOk result ((part : List ℕ) × (line_octets (words line.now) ≡ Some part)
        × (octets.new.items ≡ octets.old.items ++ part)) }
    ensures err { OnErr result (line_octets (words line.now) ≡ None) }
    ensures short { OnOk result (2 * vec_len octets.new
        ≤ 2 * vec_len octets.old + length line.now) }
    ensures capacity { vec_capacity octets.old ≤ vec_capacity octets.new }
{
    let Some((word, rest)) = first_word(line) else {
        return Ok(());
    };
    match next_word(rest) {
        Some(_) => Err(NotHex),
        None => decode_into(word, octets),
    }
}

/// The octets that the lines of a text say.
pub fn read_octets(alloc: Global, text: &[u8]) -> Result<Vec<u8>, HexTextFault>
    requires { length text.now ≤ longest_input }
    ensures octets { IfOk result (λ octets. hex_text_of text.now ≡ Ok octets.items) }
    ensures short { IfOk result (λ octets. 2 * vec_len octets ≤ length text.now) }
    ensures line { (number : ℕ) → result ≡ Err (HexTextFault.Line number) →
        hex_text_of text.now ≡ Err number }
{
    let Ok(mut octets) = Vec::with_capacity(alloc, text.len() / 2) else {
        return Err(HexTextFault::Memory);
    };
    let mut rest = text;
    let mut number = 1;
    while let Some((line, behind)) = next_line(rest) {
        rest = behind;
        match take_line(line, &mut octets) {
            Ok(()) => number += 1,
            Err(NotHex) => return Err(HexTextFault::Line { number }),
        }
    }
    Ok(octets)
}
