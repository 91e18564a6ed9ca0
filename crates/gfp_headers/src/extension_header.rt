//! The linear extension header: the number of a channel, a spare octet, and their check.

ghost use Rattle.std.specs.Prelude.{◌≡◌, ◌≢◌, ◌↔◌, MatchOption, IsErr, slice_index};
ghost use Rattle.law_model.specs.Common.{hec_of};
ghost use Rattle.gfp_model.specs.linear_model.ChannelArea.{extension_header, cid_field, cid_check, cid_fault};

use crate::type_header::word;
use check_hec16::hec;
use gfp_model::linear_model::CidFault;

/// The extension header of a channel, as it is before scrambling. Its spare octet is 0.
#[inline]
pub fn extension_bytes(cid: u8) -> [u8; 4]
    ensures { result ≡ extension_header cid }
{
    let check = hec(u16::from(cid) * 256);
    [cid, 0, (check >> 8) as u8, (check % 256) as u8]
}

/// The number of a channel (CID) that an extension header says, or its fault: the check (eHEC) isn't that of CID
/// and the spare octet. The value of the spare octet is no matter.
#[inline]
pub fn read_cid(octets: &[u8; 4]) -> Result<u8, CidFault>
    ensures value { MatchOption (cid_fault octets.now) (result ≡ Ok (slice_index octets.now 0))
        (λ fault. result ≡ Err fault) }
    ensures check { IsErr result ↔ (cid_check octets.now ≢ hec_of (cid_field octets.now)) }
{
    let [cid, spare, c, d] = *octets;
    let said = word(c, d);
    let found = hec(word(cid, spare));
    if said == found {
        Ok(cid)
    } else {
        Err(CidFault { said, found })
    }
}
