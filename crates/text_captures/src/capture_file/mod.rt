//! Captures of the classic form (pcap) as lists of octets: a head, and then records of frames with their times.
//! One is read in place, whole or up to its first fault; what it says is written as the `frame` lines of a
//! script; and one is written, of Ethernet frames or of the GFP frames that hold them. Captures of the newer
//! form (pcapng) are refused, and no check of a frame is tested. Begin with `read_capture`, and for writing
//! with `CaptureOut`. `written_law`: what is written of frames whose rows never fall is read as these frames;
//! `longest_law`: how long a frame is at most; `gfp_law`: what a GFP frame is in a core header and an area.

ghost use Rattle.std.specs.Prelude.{◌≡◌, ℕ, List, [], ◌∷◌, ◌++◌, length, take, drop, Ok, Err};
ghost use Rattle.std.specs.Prelude.{◌≤◌, ◌<◌, Bool, None, All};
ghost use Rattle.law_model.specs.Common.{core_header, client, area_of, most_ticks};
ghost use Rattle.text_captures.specs.declared.capture_file.capture_form.CaptureFault.{CaptureFault};
ghost use Rattle.text_captures.specs.declared.capture_file.capture_form.RecordFault.{RecordFault};
ghost use Rattle.text_captures.specs.declared.capture_file.capture_form.RecordHead.{RecordHead};
ghost use Rattle.text_captures.specs.capture_file.Reading.{capture_said, DueFrame, client_frame, record_fault};
ghost use Rattle.text_captures.specs.capture_file.WrittenCapture.{RowFrame, ethernet_capture, AreRising, due_frames};
ghost use Rattle.text_captures.specs.capture_file.WrittenCapture.{two_frames};
ghost use Rattle.text_captures.specs.capture_file.GfpInCapture.{plain_header, with_pattern, gfp_octets};

mod capture_fault_note;
mod capture_form;
mod capture_head;
mod capture_out;
mod capture_record;
mod check_capture;
mod frames_as_script;
mod gfp_out;
mod record_clock;

pub use capture_fault_note::fault_note;
pub use capture_form::{
    ByteOrder, CaptureFault, Form, HeadFault, RecordFault, RecordHead, TimeUnit,
};
pub use capture_out::CaptureOut;
pub use check_capture::read_capture;
pub use frames_as_script::write_frames;
pub use gfp_out::GfpOut;

/// A capture that is written of frames whose rows don't fall is read as the frames in it: each is due as many
/// ticks after the first one as its row comes after the row of that.
pub fn written_law()
    ensures { (frames : List RowFrame) → AreRising 0 frames →
        capture_said (ethernet_capture frames) ≡ Ok (due_frames frames) }
{}

/// Each frame of a sound capture has at most 65,535 octets with its FCS, whether that stands in the capture or
/// not; and a record that stands whole, and whose frame has no more of them and is due in time, has no fault.
pub fn longest_law()
    ensures most { (octets : List ℕ) (frames : List DueFrame) → capture_said octets ≡ Ok frames →
        All (λ (own : DueFrame). length own.frame ≤ 65535) frames }
    ensures fits { (has_fcs : Bool) (octets : List ℕ) (head : RecordHead) (due : ℕ) →
        head.captured ≡ length octets → head.original ≡ length octets → due < most_ticks →
        length (client_frame has_fcs octets) ≤ 65535 → record_fault has_fcs head due ≡ None }
{}

/// The GFP frame that holds a client frame begins with what the source sends as the core header of that
/// frame's piece, but for B6 AB 31 E0; behind that it is the payload area of the piece before scrambling.
pub fn gfp_law()
    ensures header { (frame : List ℕ) → with_pattern (take 4 (gfp_octets frame))
        ≡ core_header (length (area_of (client frame))) }
    ensures area { (frame : List ℕ) → drop 4 (gfp_octets frame) ≡ area_of (client frame) }
    ensures worked { plain_header 68 ≡ 0x00 ∷ 0x44 ∷ 0x08 ∷ 0x40 ∷ [] }
{}

/// Worked: two frames of two octets with an FCS, nanoseconds, the most significant octet first; the second
/// one is 250,000 nanoseconds later. An octet more is the start of a record that is cut.
pub fn worked_law()
    ensures said { capture_said two_frames ≡ Ok (record { due = 0; frame = 0xaa ∷ 0xbb ∷ [] }
        ∷ record { due = 2; frame = 0xcc ∷ 0xdd ∷ [] } ∷ []) }
    ensures cut { capture_said (two_frames ++ 0 ∷ []) ≡ Err (CaptureFault.Record 2 RecordFault.Cut) }
{}
