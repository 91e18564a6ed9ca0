//! The feed of a link: VC-4s in the order of their numbers.
ghost use Rattle.std.specs.Prelude.{◌≡◌, [], length};
ghost use Rattle.member_au4.specs.au4_link.Vcs.{rising, vc_of, IsFed};

use crate::au4_pointer::VcFeed;

/// Writes octets that rise from one on.
fn fill_rising(first: u8, out: &mut [u8])
    ensures { out.new ≡ rising (length out.old) first }
{
    let mut octet = first;
    for i in 0..out.len() {
        out[i] = octet;
        octet = octet.wrapping_add(1);
    }
}

/// Writes the VC-4 of a number.
fn write_vc(number: u64, out: &mut [u8])
    requires { length out.old ≡ 2349 }
    ensures { out.new ≡ vc_of number }
{
    let (head, behind) = out.split_at_mut(8);
    head.copy_from_slice(&number.to_be_bytes());
    fill_rising(((number % 256 + 8) % 256) as u8, behind);
}

/// Feeds VC-4s, each with its number.
#[derive(Drop)]
pub(super) struct NumberedVcs {
    /// The number of the next one, which is how many were asked for.
    pub next: u64,
}

impl NumberedVcs {
    /// None was asked for.
    pub(super) fn new() -> NumberedVcs
        ensures { IsFed result.next [] }
    {
        NumberedVcs { next: 0 }
    }
}

impl VcFeed for NumberedVcs {
    ghost use Rattle.member_au4.specs.au4_link.Vcs.{IsFed};

    ghost stands_for = { λ feed start vcs. IsFed feed.next vcs };

    fn next(&mut self, out: &mut [u8; 2349]) {
        write_vc(self.next, out);
        self.next = self.next.wrapping_add(1);
    }
}
