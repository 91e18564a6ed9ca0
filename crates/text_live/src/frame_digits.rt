//! The octets of a frame, read into a vector that has room for the longest.
ghost use Rattle.std.specs.Prelude.{◌≡◌, ◌≢◌, ℕ, ◌≤◌, ◌/◌, List, length, true, false, None, Some, Ok};
ghost use Rattle.std.specs.Prelude.{OnOk, IfErr, vec_capacity};
ghost use Rattle.hex.specs.Hex.{decode_of};
ghost use Rattle.text_lines.specs.WordsOfLine.{octets_of};
ghost use Rattle.text_lines.specs.Fields.{octets_fault};
ghost use Rattle.law_model.specs.Common.{longest_offer};

use law_model::LONGEST_OFFER;
use text_hex::decode_into;
use text_lines::FieldFault;

/// Whether a text is pairs of hexadecimal digits.
fn is_hex(text: &[u8]) -> bool
    ensures yes { result ≡ true → (bytes : List ℕ) × (decode_of text.now ≡ Ok bytes) }
    ensures no { result ≡ false → (bytes : List ℕ) → decode_of text.now ≢ Ok bytes }
{
    if text.len() % 2 == 1 {
        return false;
    }
    for c in text {
        if !c.is_ascii_hexdigit() {
            return false;
        }
    }
    true
}

/// What is wrong with digits, which are word `place` of their line, that say more octets than a frame may have.
fn long_fault(digits: &[u8], place: u64) -> FieldFault
    requires { 65536 ≤ length digits.now / 2 }
    ensures { octets_fault place 1 longest_offer (decode_of digits.now) ≡ Some result }
{
    if is_hex(digits) {
        FieldFault::Size {
            word: place,
            least: 1,
            most: LONGEST_OFFER as u64,
        }
    } else {
        FieldFault::Hex { word: place }
    }
}

/// Reads the octets of a frame in the place of those before. Their digits are word `place` of a line.
pub(crate) fn read_octets(digits: &[u8], place: u64, octets: &mut Vec<u8>) -> Result<(), FieldFault>
    requires { longest_offer ≤ vec_capacity octets.old }
    ensures room { longest_offer ≤ vec_capacity octets.new }
    ensures fine { OnOk result
        (octets_fault place 1 longest_offer (decode_of digits.now) ≡ None) }
    ensures octets { OnOk result (octets.new.items ≡ octets_of digits.now) }
    ensures err { IfErr result (λ fault.
        octets_fault place 1 longest_offer (decode_of digits.now) ≡ Some fault) }
{
    if digits.len() / 2 > LONGEST_OFFER {
        return Err(long_fault(digits, place));
    }
    octets.clear();
    if decode_into(digits, octets).is_err() {
        return Err(FieldFault::Hex { word: place });
    }
    if octets.is_empty() {
        return Err(FieldFault::Size {
            word: place,
            least: 1,
            most: LONGEST_OFFER as u64,
        });
    }
    Ok(())
}
