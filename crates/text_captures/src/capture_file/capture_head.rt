//! The head of a capture.
ghost use Rattle.std.specs.Prelude.{◌≡◌, ◌≤◌, ◌+◌, length};
ghost use Rattle.text_captures.specs.capture_file.Form.{short_at, number_at, kind_of, is_version, fcs_length};
ghost use Rattle.text_captures.specs.capture_file.Form.{form_with, form_by};
ghost use Rattle.text_captures.specs.capture_file.Form.{form_of};

use crate::capture_file::capture_form::{ByteOrder, Form, HeadFault, TimeUnit};

/// The number that two octets at a place are.
fn short_at(order: ByteOrder, place: usize, octets: &[u8]) -> u16
    requires { place + 2 ≤ length octets.now }
    ensures { result ≡ short_at order place octets.now }
{
    let two = [octets[place], octets[place + 1]];
    match order {
        ByteOrder::LeastFirst => u16::from_le_bytes(two),
        ByteOrder::MostFirst => u16::from_be_bytes(two),
    }
}

/// The number that four octets at a place are.
#[inline]
pub(super) fn number_at(order: ByteOrder, place: usize, octets: &[u8]) -> u32
    requires { place + 4 ≤ length octets.now }
    ensures { result ≡ number_at order place octets.now }
{
    let four = [
        octets[place],
        octets[place + 1],
        octets[place + 2],
        octets[place + 3],
    ];
    match order {
        ByteOrder::LeastFirst => u32::from_le_bytes(four),
        ByteOrder::MostFirst => u32::from_be_bytes(four),
    }
}

/// Which order and which unit the first four octets say.
fn kind_of(magic: u32) -> Option<(ByteOrder, TimeUnit)>
    ensures { result ≡ kind_of magic }
{
    match magic {
        0xd4c3_b2a1 => Some((ByteOrder::LeastFirst, TimeUnit::Microseconds)),
        0xa1b2_c3d4 => Some((ByteOrder::MostFirst, TimeUnit::Microseconds)),
        0x4d3c_b2a1 => Some((ByteOrder::LeastFirst, TimeUnit::Nanoseconds)),
        0xa1b2_3c4d => Some((ByteOrder::MostFirst, TimeUnit::Nanoseconds)),
        _ => None,
    }
}

/// Whether the version is 2.4.
fn is_version(order: ByteOrder, octets: &[u8]) -> bool
    requires { 24 ≤ length octets.now }
    ensures { result ≡ is_version order octets.now }
{
    short_at(order, 4, octets) == 2 && short_at(order, 6, octets) == 4
}

/// The octets of the FCS of each frame, by the last number of a head.
fn fcs_length(field: u32) -> u8
    ensures { result ≡ fcs_length field }
{
    if field / 67_108_864 % 2 == 1 {
        2 * (field / 268_435_456) as u8
    } else {
        0
    }
}

/// What a head says, by its last number.
fn form_with(order: ByteOrder, unit: TimeUnit, field: u32) -> Result<Form, HeadFault>
    ensures { result ≡ form_with order unit field }
{
    let link = (field % 65_536) as u16;
    if link != 1 {
        return Err(HeadFault::Link { link });
    }
    match fcs_length(field) {
        0 => Ok(Form {
            order,
            unit,
            has_fcs: false,
        }),
        4 => Ok(Form {
            order,
            unit,
            has_fcs: true,
        }),
        octets => Err(HeadFault::Fcs { octets }),
    }
}

/// What a head of a kind says.
fn form_by(kind: Option<(ByteOrder, TimeUnit)>, octets: &[u8]) -> Result<Form, HeadFault>
    requires { 24 ≤ length octets.now }
    ensures { result ≡ form_by kind octets.now }
{
    let Some((order, unit)) = kind else {
        return Err(HeadFault::Magic);
    };
    if !is_version(order, octets) {
        return Err(HeadFault::Version);
    }
    form_with(order, unit, number_at(order, 20, octets))
}

/// What the head of a capture says, or the first that is wrong with it.
pub(super) fn read_head(octets: &[u8]) -> Result<Form, HeadFault>
    ensures { result ≡ form_of octets.now }
{
    if octets.len() < 24 {
        return Err(HeadFault::Cut);
    }
    let magic = number_at(ByteOrder::MostFirst, 0, octets);
    if magic == 0x0a0d_0d0a {
        return Err(HeadFault::PcapNg);
    }
    form_by(kind_of(magic), octets)
}
