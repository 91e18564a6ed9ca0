//! Octets of an area: kept, descrambled, or passed over.
ghost use Rattle.std.specs.Prelude.{◌≡◌, ◌+◌, ◌≤◌, length, take, drop};
ghost use Rattle.std.specs.Prelude.{vec_len};
ghost use Rattle.std.specs.Vec.{vec_capacity};
ghost use Rattle.gfp_scramble.specs.Descrambler.{Continues, DescramblesTo};

use gfp_scramble::Descrambler;

/// The octets that settle a descrambler.
const SETTLING: usize = 6;

/// The first four octets.
#[inline]
pub fn first_four(octets: &[u8]) -> [u8; 4]
    requires { 4 ≤ length octets.now }
    ensures { result ≡ take 4 octets.now }
{
    [octets[0], octets[1], octets[2], octets[3]]
}

/// Keeps more octets of an area, descrambled.
#[inline]
pub(crate) fn keep(area: &mut Vec<u8>, descrambler: &mut Descrambler, piece: &[u8])
    requires { vec_len area.old + length piece.now ≤ vec_capacity area.old }
    ensures front { take (vec_len area.old) area.new.items ≡ area.old.items }
    ensures len { vec_len area.new ≡ vec_len area.old + length piece.now }
    ensures capacity { vec_capacity area.old ≤ vec_capacity area.new }
    ensures stands { Continues descrambler.old descrambler.new piece.now }
    ensures kept { DescramblesTo descrambler.old piece.now (drop (vec_len area.old) area.new.items) }
{
    if let [octet] = piece {
        area.push_reserved(descrambler.byte(*octet));
        return;
    }
    let old = area.len();
    match area.extend_from_slice(piece) {
        Ok(()) => {}
        Err(_) => unreachable!(),
    }
    descrambler.area(&mut area[old..]);
}

/// Passes over octets of an area that is dropped. Of many, the descrambler needs the last ones alone.
#[inline]
pub(crate) fn pass_over(descrambler: &mut Descrambler, piece: &[u8])
    ensures { Continues descrambler.old descrambler.new piece.now }
{
    if piece.len() <= SETTLING {
        settle(descrambler, piece);
    } else {
        descrambler.forget();
        settle(descrambler, &piece[piece.len() - SETTLING..]);
    }
}

/// Gives octets to a descrambler and lets go what they are.
#[inline]
fn settle(descrambler: &mut Descrambler, piece: &[u8])
    ensures { Continues descrambler.old descrambler.new piece.now }
{
    for octet in piece {
        let _ = descrambler.byte(*octet);
    }
}
