//! A capture is read whole, or up to its first fault.
ghost use Rattle.std.specs.Prelude.{◌≡◌, drop, Ok, Err, IfOk, IfErr};
ghost use Rattle.text_captures.specs.capture_file.Form.{form_of};
ghost use Rattle.text_captures.specs.capture_file.Reading.{frames_of, body_said, capture_said};

use crate::capture_file::capture_form::{CaptureFault, Form, RecordFault};
use crate::capture_file::capture_head::read_head;
use crate::capture_file::capture_record::{next_record, record_fault};
use crate::capture_file::record_clock::Clock;

/// Whether the octets behind a head are sound records; else the first fault.
fn check_records(form: Form, body: &[u8]) -> Result<(), CaptureFault>
    ensures sound { IfOk result (λ u. body_said form body.now ≡ Ok (frames_of form body.now)) }
    ensures fault { IfErr result (λ fault. body_said form body.now ≡ Err fault) }
{
    let mut clock = Clock::new(form.unit);
    let mut number = 0;
    let mut rest = body;
    while let Some(record) = next_record(form.order, rest) {
        rest = record.rest;
        let due = clock.due(record.head);
        if let Some(fault) = record_fault(form.has_fcs, record.head, due) {
            return Err(CaptureFault::Record { number, fault });
        }
        number += 1;
    }
    if rest.is_empty() {
        return Ok(());
    }
    Err(CaptureFault::Record {
        number,
        fault: RecordFault::Cut,
    })
}

/// What the head of a capture says, where the whole capture is sound; else its first fault. Nothing is copied.
pub fn read_capture(octets: &[u8]) -> Result<Form, CaptureFault>
    ensures form { IfOk result (λ form. form_of octets.now ≡ Ok form) }
    ensures sound { IfOk result (λ form.
        capture_said octets.now ≡ Ok (frames_of form (drop 24 octets.now))) }
    ensures fault { IfErr result (λ fault. capture_said octets.now ≡ Err fault) }
{
    match read_head(octets) {
        Ok(form) => match check_records(form, &octets[24..]) {
            Ok(()) => Ok(form),
            Err(fault) => Err(fault),
        },
        Err(fault) => Err(CaptureFault::Head(fault)),
    }
}
