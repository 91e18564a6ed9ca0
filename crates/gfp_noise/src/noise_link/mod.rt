//! Frames with an FCS in a stream with bit errors: what a text says of frames and errors, and the lines of the
//! frames that get through. The language is a table, `noise_table`, and what a text says computes from it,
//! `noise_of`; the reader gives just that, in one pass. How frames are sent and received is in `gfp_fcs`.
//! Begin with `read_noise` and `NoiseRun`; `noise_law` says which frames are delivered if errors are single,
//! and `text_law` what is then written of a text.

ghost use Rattle.std.specs.Prelude.{◌≡◌, ◌↔◌, ℕ, List, Ok, Err};
ghost use Rattle.gfp_noise.specs.declared.noise_link.noise_draft.Noise.{Noise};
ghost use Rattle.gfp_noise.specs.gfp_fcs.Delineator.{fcs_outcomes};
ghost use Rattle.gfp_noise.specs.noise_link.NoiseReportText.{received, delivered, untouched, AreSingle, noise_text};
ghost use Rattle.gfp_noise.specs.noise_link.NoiseReportText.{untouched_text};
ghost use Rattle.std.specs.Str.Lines.{lines};
ghost use Rattle.text_lines.specs.FirstFault.{IsFirstFault};
ghost use Rattle.text_lines.specs.declared.text_faults.LineFault.{LineFault};
ghost use Rattle.gfp_noise.specs.declared.noise_link.noise_keyword.NoiseKeyword.{NoiseKeyword};
ghost use Rattle.gfp_noise.specs.declared.noise_link.noise_text_fault.NotRising.{NotRising};
ghost use Rattle.gfp_noise.specs.noise_link.NoiseTextLines.{noise_lines};
ghost use Rattle.gfp_noise.specs.noise_link.Noise.{noise_of, IsNoise};

mod noise_draft;
mod noise_end_text;
mod noise_keyword;
mod noise_reception;
mod noise_run;
mod noise_text_fault;
mod noisy_stream;
mod read_noise_line;
mod read_noise_text;

pub use noise_draft::{FlipList, FrameList, Noise};
pub use noise_keyword::NoiseKeyword;
pub use noise_run::NoiseRun;
pub use noise_text_fault::NotRising;
pub use read_noise_text::read_noise;

/// A text has the fault of a line exactly where that line is faulty after lines none of which is.
pub fn fault_law()
    ensures { (text : List ℕ) (number : ℕ) (fault : LineFault NoiseKeyword NotRising) →
        (noise_of text ≡ Err (number, fault))
        ↔ IsFirstFault noise_lines 1 noise_lines.first (lines text) number fault }
{}

/// Where the two idles have no flip, each other core header has one at most, and each area with the 43 area
/// bits before it has one at most, the frames that are delivered are, in order and each once, exactly those
/// whose area and the 43 area bits before it have none.
pub fn noise_law()
    ensures { (noise : Noise) → IsNoise noise → AreSingle noise →
        delivered (fcs_outcomes (received noise)) ≡ untouched noise }
{}

/// A text that says frames and flips says frames of 64 to 9,600 octets, and flips of bits of their stream that
/// rise strictly. If they are single as `noise_law` has it, what is written is a line for each frame whose
/// area and the 43 area bits before it have no flip, in order, and the counts.
pub fn text_law()
    ensures valid { (text : List ℕ) (noise : Noise) → noise_of text ≡ Ok noise → IsNoise noise }
    ensures single { (text : List ℕ) (noise : Noise) → noise_of text ≡ Ok noise →
        AreSingle noise → noise_text noise ≡ untouched_text noise }
{}
