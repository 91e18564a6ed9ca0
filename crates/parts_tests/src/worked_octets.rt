//! Worked octets from outside the program: check sums, headers, the codes of control words and the places of cells,
//! and what is told of those that are none.

use check_crc32::{ethernet_fcs, fcs};
use gfp_headers::{
    core_bytes, extension_bytes, read_cid, read_core, read_type, read_type_fcs, read_type_linear,
    type_bytes, type_bytes_fcs, type_bytes_linear,
};
use member_cells::Ctrl;
use member_path::h4_multiframe::MfiLock;
use std::alloc::{AllocError, Global};

/// A word for a call, octets, and the octets that it gives of them.
const MADE: &str = "\
    fcs 313233343536373839 => fc891918\n\
    ethernet 313233343536373839 => 2639f4cb\n\
    ethernet  => 00000000\n\
    core 0000 => b6ab31e0\n\
    core 0004 => b6af7164\n\
    core 0044 => b6ef39a0\n\
    core 2584 => 932f19ff\n\
    plain  => 00011021\n\
    with_fcs  => 10011352\n\
    linear  => 01012310\n\
    extension 00 => 00000000\n\
    extension 01 => 01003331";

/// A word for a call, octets, and what is told of them.
const TOLD: &str = "\
    core b6ab31e0 => Some(0)\n\
    core b6ef39a0 => Some(68)\n\
    core 932f19ff => Some(9604)\n\
    core b6ef39a1 => None\n\
    core b6aa21c1 => None\n\
    core b6a911a2 => None\n\
    core b6a80183 => None\n\
    core b6af7164 => Some(4)\n\
    plain 00011021 => Ok(())\n\
    plain 200116c7 => Err(NotClient { pti: 1 })\n\
    plain ffff1d0f => Err(NotClient { pti: 7 })\n\
    plain 10011352 => Err(PayloadFcs)\n\
    plain 01012310 => Err(Extension { exi: 1 })\n\
    plain 00022042 => Err(NotEthernet { upi: 2 })\n\
    plain 00011020 => Err(Check { said: 4128, found: 4129 })\n\
    plain 20011021 => Err(Check { said: 4129, found: 5831 })\n\
    with_fcs 10011352 => Ok(())\n\
    with_fcs 300115b4 => Err(NotClient { pti: 1 })\n\
    with_fcs 11012063 => Err(Extension { exi: 1 })\n\
    with_fcs 10022331 => Err(NotEthernet { upi: 2 })\n\
    with_fcs 10011353 => Err(Check { said: 4947, found: 4946 })\n\
    with_fcs 00011021 => Err(PayloadFcs)\n\
    with_fcs ffff1d0f => Err(NotClient { pti: 7 })\n\
    linear 01012310 => Ok(())\n\
    linear 210125f6 => Err(NotClient { pti: 1 })\n\
    linear 11012063 => Err(PayloadFcs)\n\
    linear 00011021 => Err(Extension { exi: 0 })\n\
    linear 01021373 => Err(NotEthernet { upi: 2 })\n\
    linear 01012311 => Err(Check { said: 8977, found: 8976 })\n\
    extension 01003331 => Ok(1)\n\
    extension 00011021 => Ok(0)\n\
    extension 01003330 => Err(CidFault { said: 13104, found: 13105 })\n\
    control 00000000 => Some(Fixed)\n\
    control 01000000 => Some(Add)\n\
    control 02000000 => Some(Norm)\n\
    control 03000000 => Some(Eos)\n\
    control 05000000 => Some(Idle)\n\
    control 0f000000 => Some(Dnu)\n\
    control 04000000 => None\n\
    control 06000000 => None\n\
    control 0e000000 => None\n\
    control 10000000 => None\n\
    control ff000000 => None";

/// The octets that a call gives.
fn made(word: &str, octets: &[u8]) -> [u8; 4] {
    match word {
        "fcs" => fcs(octets),
        "ethernet" => ethernet_fcs(octets),
        "plain" => type_bytes(),
        "with_fcs" => type_bytes_fcs(),
        "linear" => type_bytes_linear(),
        _ => match octets {
            [cid] => extension_bytes(*cid),
            [high, low] => core_bytes(u16::from_be_bytes([*high, *low])),
            _ => [0xff; 4],
        },
    }
}

/// Appends what is told of octets.
fn tell(word: &str, octets: &[u8; 4], told: &mut String) -> Result<(), AllocError> {
    match word {
        "core" => write!(told, "{:?}", read_core(octets)),
        "plain" => write!(told, "{:?}", read_type(octets)),
        "with_fcs" => write!(told, "{:?}", read_type_fcs(octets)),
        "linear" => write!(told, "{:?}", read_type_linear(octets)),
        "extension" => write!(told, "{:?}", read_cid(octets)),
        _ => write!(told, "{:?}", Ctrl::of(octets[0])),
    }
}

/// Whether a call gives these octets.
fn is_made(alloc: Global, word: &str, octets: &str, wanted: &str) -> bool {
    match (hex::decode(alloc, octets), hex::decode(alloc, wanted)) {
        (Ok(octets), Ok(wanted)) => wanted.as_slice() == made(word, &octets).as_slice(),
        _ => false,
    }
}

/// Whether this is told of octets.
fn is_told(alloc: Global, word: &str, octets: &str, wanted: &str) -> bool {
    let mut told = String::new(alloc);
    let mut four = [0; 4];
    if hex::decode_to_slice(octets, &mut four).is_ok() {
        let _ = tell(word, &four, &mut told);
    }
    told.as_str() == wanted
}

/// The first row of which something else comes.
fn first_wrong(alloc: Global, rows: &'static str, are_made: bool) -> Option<&'static str> {
    for row in rows.lines() {
        let (call, wanted) = row.split_once(" => ").unwrap_or((row, "a row"));
        let (word, octets) = call.split_once(' ').unwrap_or((call, ""));
        let is_right = if are_made {
            is_made(alloc, word, octets, wanted)
        } else {
            is_told(alloc, word, octets, wanted)
        };
        if !is_right {
            return Some(row);
        }
    }
    None
}

#[test]
fn check_sums_and_headers(rt: HostRuntime) {
    let alloc = rt.alloc();
    let wrong = [
        first_wrong(alloc, MADE, true),
        first_wrong(alloc, TOLD, false),
    ];
    assert_eq!(rt; wrong, [None; 2]);
}

/// Octets H4, with a failure for each space. In turn: none locks but one with MFI1 1 behind one with MFI1 0; a failure
/// unlocks; the second of two begins; another MFI1 than the next one unlocks; the numbers begin again after 4,095;
/// another MFI1 that is 0 unlocks, and begins.
const CELLS: &str = "2132203142f3 5420 3120326020314344f0f102030405060708090a0b0c0d0e0f00017081";

/// Their places, with a line for each failure.
const PLACES: &str = "\
    Unknown Unknown Unknown Locks(561) At(562) At(563) \n\
    Unknown Unknown \n\
    Unknown Unknown Unknown Unknown Unknown Locks(561) Unknown Unknown Unknown Locks(4081) At(4082) At(4083) \
    At(4084) At(4085) At(4086) At(4087) At(4088) At(4089) At(4090) At(4091) At(4092) At(4093) At(4094) At(4095) \
    At(0) At(1) Unknown Locks(1921) \n";

/// The places of those octets.
fn places(alloc: Global) -> String {
    let mut told = String::new(alloc);
    let mut lock = MfiLock::default();
    for run in CELLS.split(' ') {
        if let Ok(octets) = hex::decode(alloc, run) {
            for octet in &octets {
                let place = lock.good(*octet);
                let _ = write!(&mut told, "{place:?} ");
            }
        }
        lock.fail();
        let _ = told.push_str("\n");
    }
    told
}

#[test]
fn places_of_cells(rt: HostRuntime) {
    assert_eq!(rt; places(rt.alloc()).as_str(), PLACES);
}
