//! What words of a line say: numbers, and the octets of hexadecimal digits.
ghost use Rattle.std.specs.Prelude.{◌≡◌, ◌≤◌, ◌<◌, length, All, IfSome, IfNone, IfOk, IfErr, true, false, None, Some};
ghost use Rattle.hex.specs.Hex.{decode_of};
ghost use Rattle.text_lines.specs.WordsOfLine.{is_number, number_of, octets_of};
ghost use Rattle.text_lines.specs.Fields.{number_fault, octets_fault, IsFieldStop};

use crate::text_faults::{FieldFault, FieldStop};
use std::alloc::Global;
use text_hex::decode_into;

/// The value of one to ten decimal digits.
fn read_number(word: &[u8]) -> Option<u64>
    ensures some { IfSome result (λ n. (is_number word.now ≡ true) × (n ≡ number_of word.now)) }
    ensures none { IfNone result (is_number word.now ≡ false) }
    ensures small { IfSome result (λ n. n ≤ 9999999999) }
{
    if word.is_empty() || word.len() > 10 {
        return None;
    }
    let mut n = 0u64;
    for c in word {
        if !c.is_ascii_digit() {
            return None;
        }
        n = 10 * n + u64::from(*c - b'0');
    }
    Some(n)
}

/// The value of a number from `least` to `most`, which is word `at` of its line.
pub fn number_within(word: &[u8], at: u64, least: u64, most: u64) -> Result<u64, FieldFault>
    ensures ok { IfOk result (λ n.
        (number_fault at least most word.now ≡ None) × (n ≡ number_of word.now)) }
    ensures fits { IfOk result (λ n. (least ≤ n) × (n ≤ most)) }
    ensures err { IfErr result (λ fault. number_fault at least most word.now ≡ Some fault) }
{
    let Some(n) = read_number(word) else {
        return Err(FieldFault::Number { word: at });
    };
    if n < least || most < n {
        return Err(FieldFault::Range {
            word: at,
            least,
            most,
        });
    }
    Ok(n)
}

/// The octets that hexadecimal digits of either case say, from `least` to `most` of them. They are word `at`
/// of their line.
pub fn octets_within(
    alloc: Global,
    digits: &[u8],
    at: u64,
    least: usize,
    most: usize,
) -> Result<Vec<u8>, FieldStop>
    ensures ok { IfOk result (λ octets.
        (octets_fault at least most (decode_of digits.now) ≡ None)
        × (octets.items ≡ octets_of digits.now)) }
    ensures fits { IfOk result (λ octets.
        (least ≤ length octets.items) × (length octets.items ≤ most)) }
    ensures octets { IfOk result (λ octets. All (λ octet. octet < 256) octets.items) }
    ensures err { IfErr result (λ stop.
        IsFieldStop stop (octets_fault at least most (decode_of digits.now))) }
{
    let mut octets = Vec::with_capacity(alloc, digits.len() / 2)?;
    if decode_into(digits, &mut octets).is_err() {
        return Err(FieldStop::Fault(FieldFault::Hex { word: at }));
    }
    if octets.len() < least || most < octets.len() {
        return Err(FieldStop::Fault(FieldFault::Size {
            word: at,
            least: least as u64,
            most: most as u64,
        }));
    }
    Ok(octets)
}
