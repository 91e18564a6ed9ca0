//! The records of a capture, one by one. Nothing is copied.
ghost use Rattle.std.specs.Prelude.{◌≡◌, ◌≤◌, ◌<◌, ◌+◌, length, Some, None, IfSome, IfNone};
ghost use Rattle.text_captures.specs.capture_file.Form.{head_of, first_record};
ghost use Rattle.text_captures.specs.capture_file.Reading.{most_octets, record_fault};

use crate::capture_file::capture_form::{ByteOrder, RecordFault, RecordHead};
use crate::capture_file::capture_head::number_at;
use law_model::MOST_TICKS;

/// A record that stands whole at the front of some octets.
#[derive(Clone, Copy)]
pub(super) struct NextRecord<'a> {
    /// What its head says.
    pub head: RecordHead,
    /// Its octets.
    pub octets: &'a [u8],
    /// What lies behind it.
    pub rest: &'a [u8],
}

/// What the head of a record says.
#[inline]
fn head_of(order: ByteOrder, octets: &[u8]) -> RecordHead
    requires { 16 ≤ length octets.now }
    ensures { result ≡ head_of order octets.now }
{
    RecordHead {
        seconds: number_at(order, 0, octets),
        fraction: number_at(order, 4, octets),
        captured: number_at(order, 8, octets),
        original: number_at(order, 12, octets),
    }
}

/// The record at the front of octets, where one stands there whole.
#[inline]
pub(super) fn next_record<'a>(order: ByteOrder, octets: &'a [u8]) -> Option<NextRecord<'a>>
    ensures some { IfSome result (λ found. first_record order octets.now
        ≡ Some (record { head = found.head; octets = found.octets.now }, found.rest.now)) }
    ensures none { IfNone result (first_record order octets.now ≡ None) }
    ensures size { IfSome result (λ found. length found.octets.now ≡ found.head.captured) }
    ensures moves { IfSome result (λ found. length found.rest.now < length octets.now) }
{
    if octets.len() < 16 {
        return None;
    }
    let head = head_of(order, octets);
    let size = 16 + head.captured as usize;
    if size > octets.len() {
        return None;
    }
    Some(NextRecord {
        head,
        octets: &octets[16..size],
        rest: &octets[size..],
    })
}

/// The most octets that a record may have.
fn most_octets(has_fcs: bool) -> u32
    ensures { result ≡ most_octets has_fcs }
{
    if has_fcs { 65_535 } else { 65_531 }
}

/// What is wrong with a record, whose frame is due in a tick.
#[inline]
pub(super) fn record_fault(has_fcs: bool, head: RecordHead, due: u64) -> Option<RecordFault>
    ensures { result ≡ record_fault has_fcs head due }
{
    if head.captured != head.original {
        return Some(RecordFault::Snapped);
    }
    if head.captured > most_octets(has_fcs) {
        return Some(RecordFault::Length {
            octets: head.captured,
        });
    }
    if due >= MOST_TICKS {
        return Some(RecordFault::Late);
    }
    None
}
