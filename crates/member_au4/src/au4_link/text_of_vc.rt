//! The line of a VC-4, put together in a slice with room for it.
ghost use Rattle.std.specs.Prelude.{◌≡◌, ◌≤◌, length, take, sum};
ghost use Rattle.std.specs.Int.{w64, from_be_bytes};
ghost use Rattle.member_au4.specs.au4_link.VcText.{vc_text};

use text_report::TextCursor;

/// The first eight octets of a VC-4 as a number.
fn number_of(vc: &[u8; 2349]) -> u64
    ensures { result ≡ from_be_bytes w64 (take 8 vc.now) }
{
    u64::from_be_bytes([vc[0], vc[1], vc[2], vc[3], vc[4], vc[5], vc[6], vc[7]])
}

/// The sum of octets.
fn sum_of(octets: &[u8]) -> u64
    requires { length octets.now ≤ 2349 }
    ensures { result ≡ sum octets.now }
{
    octets.iter().map(|&octet| u64::from(octet)).sum()
}

/// Writes the line of a VC-4: its first eight octets as a number, and the sum of all its octets.
pub(super) fn vc_line(vc: &[u8; 2349], out: &mut [u8]) -> usize
    requires { 64 ≤ length out.old }
    ensures within { result ≤ 64 }
    ensures line { take result out.new ≡ vc_text vc.now }
{
    let mut line = TextCursor::new(out);
    line.text(b"vc ");
    line.decimal(number_of(vc));
    line.text(b" sum ");
    line.decimal(sum_of(vc));
    line.text(b"\n");
    line.end()
}
