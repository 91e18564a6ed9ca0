//! The type header, of which all fields but those of an Ethernet frame are faults.

ghost use Rattle.std.specs.Prelude.{◌≡◌, ◌≢◌, ◌↔◌, ◌≤◌, ℕ, ◌+◌, ◌*◌, MatchOption, IsOk};
ghost use Rattle.law_model.specs.Common.{hec_of, type_header, type_field, type_check, type_fault};
ghost use Rattle.gfp_model.specs.fcs_model.Fcs.{fcs_header, fcs_type_fault};
ghost use Rattle.gfp_model.specs.linear_model.ChannelArea.{linear_header, linear_type_fault};
ghost use Rattle.gfp_headers.specs.TypeField.{header_with, field_fault_with, type_fault_with};

use check_hec16::hec;
use law_model::TypeFault;

/// The type header of an Ethernet frame, as it is before scrambling.
#[inline]
pub fn type_bytes() -> [u8; 4]
    ensures { result ≡ type_header }
{
    [0x00, 0x01, 0x10, 0x21]
}

/// Whether these octets are the type header of an Ethernet frame, and what is wrong with them where they are
/// not: the check (tHEC), or else the first field that differs.
#[inline]
pub fn read_type(octets: &[u8; 4]) -> Result<(), TypeFault>
    ensures value { MatchOption (type_fault octets.now) (result ≡ Ok tt)
        (λ fault. result ≡ Err fault) }
    ensures check { (said found : ℕ) → (result ≡ Err (TypeFault.Check said found)) ↔
        ((said ≡ type_check octets.now) × (found ≡ hec_of (type_field octets.now))
        × (said ≢ found)) }
    ensures ok { IsOk result ↔ (octets.now ≡ type_header) }
{
    // Most are this very header, whose check is known.
    if *octets == type_bytes() {
        return Ok(());
    }
    read_with(octets, 0, 0)
}

/// The type header of an Ethernet frame with an FCS behind it, as it is before scrambling.
#[inline]
pub fn type_bytes_fcs() -> [u8; 4]
    ensures { result ≡ fcs_header }
{
    [0x10, 0x01, 0x13, 0x52]
}

/// Whether these octets are the type header of an Ethernet frame with an FCS behind it, and what is wrong with them
/// where they are not: the check (tHEC), or else the first field that differs. `PayloadFcs` says that there is no FCS.
#[inline]
pub fn read_type_fcs(octets: &[u8; 4]) -> Result<(), TypeFault>
    ensures value { MatchOption (fcs_type_fault octets.now) (result ≡ Ok tt)
        (λ fault. result ≡ Err fault) }
    ensures check { (said found : ℕ) → (result ≡ Err (TypeFault.Check said found)) ↔
        ((said ≡ type_check octets.now) × (found ≡ hec_of (type_field octets.now))
        × (said ≢ found)) }
    ensures ok { IsOk result ↔ (octets.now ≡ fcs_header) }
{
    read_with(octets, 1, 0)
}

/// The type header of an Ethernet frame with a linear extension header, as it is before scrambling.
#[inline]
pub fn type_bytes_linear() -> [u8; 4]
    ensures { result ≡ linear_header }
{
    [0x01, 0x01, 0x23, 0x10]
}

/// Whether these octets are the type header of an Ethernet frame with a linear extension header, and what is wrong with
/// them where they are not: the check (tHEC), or else the first field that differs. `Extension` says that EXI isn't 1.
#[inline]
pub fn read_type_linear(octets: &[u8; 4]) -> Result<(), TypeFault>
    ensures value { MatchOption (linear_type_fault octets.now) (result ≡ Ok tt)
        (λ fault. result ≡ Err fault) }
    ensures check { (said found : ℕ) → (result ≡ Err (TypeFault.Check said found)) ↔
        ((said ≡ type_check octets.now) × (found ≡ hec_of (type_field octets.now))
        × (said ≢ found)) }
    ensures ok { IsOk result ↔ (octets.now ≡ linear_header) }
{
    read_with(octets, 0, 1)
}

/// Whether these octets are the type header of an Ethernet frame with this PFI and this EXI, and what is
/// wrong with them where they are not.
#[inline]
fn read_with(octets: &[u8; 4], pfi: u16, extension: u8) -> Result<(), TypeFault>
    requires pfi { pfi ≤ 1 }
    requires extension { extension ≤ 15 }
    ensures value { MatchOption (type_fault_with pfi extension octets.now) (result ≡ Ok tt)
        (λ fault. result ≡ Err fault) }
    ensures check { (said found : ℕ) → (result ≡ Err (TypeFault.Check said found)) ↔
        ((said ≡ type_check octets.now) × (found ≡ hec_of (type_field octets.now))
        × (said ≢ found)) }
    ensures ok { IsOk result ↔ (octets.now ≡ header_with pfi extension) }
{
    let [a, b, c, d] = *octets;
    let field = word(a, b);
    let said = word(c, d);
    let found = hec(field);
    if said != found {
        return Err(TypeFault::Check { said, found });
    }
    match fault_of_field(field, pfi, extension) {
        None => Ok(()),
        Some(fault) => Err(fault),
    }
}

// The word that two octets are.
#[inline]
pub(crate) fn word(upper: u8, lower: u8) -> u16
    ensures { result ≡ 256 * upper + lower }
{
    u16::from_be_bytes([upper, lower])
}

/// The first field of a type field (PTI, PFI, EXI, UPI) that is not that of an Ethernet frame with this PFI and
/// this EXI.
#[inline]
fn fault_of_field(field: u16, pfi: u16, extension: u8) -> Option<TypeFault>
    ensures { result ≡ field_fault_with pfi extension field }
{
    let pti = (field >> 13) as u8;
    let exi = ((field >> 8) % 16) as u8;
    let upi = (field % 256) as u8;
    if pti != 0 {
        Some(TypeFault::NotClient { pti })
    } else if (field >> 12) % 2 != pfi {
        Some(TypeFault::PayloadFcs)
    } else if exi != extension {
        Some(TypeFault::Extension { exi })
    } else if upi != 1 {
        Some(TypeFault::NotEthernet { upi })
    } else {
        None
    }
}
