//! A link of AU-4 frames: what a text says that its pointers do, and the lines of what comes of numbered
//! VC-4s on it. The language is a table, `link_table`, and what a text says computes from it, `link_of`; the
//! reader gives just that, in one pass, and no action of what it gives is refused. The text of a link is
//! `link_text`. How frames are sent and taken is in `au4_pointer`. Begin with `read_link` and `write_link`;
//! `text_law` says which VC-4s are written.

ghost use Rattle.std.specs.Prelude.{◌≡◌, ◌↔◌, ℕ, List, length, Ok, Err};
ghost use Rattle.std.specs.Str.Lines.{lines};
ghost use Rattle.text_lines.specs.declared.text_faults.LineFault.{LineFault};
ghost use Rattle.member_au4.specs.declared.au4_link.au4_keyword.Au4Keyword.{Au4Keyword};
ghost use Rattle.member_au4.specs.declared.au4_link.au4_text_fault.Early.{Early};
ghost use Rattle.text_lines.specs.FirstFault.{IsFirstFault};
ghost use Rattle.member_au4.specs.au4_link.LinkTextLines.{link_lines};
ghost use Rattle.member_au4.specs.au4_pointer.StreamPart.{AreVcs, whole};
ghost use Rattle.member_au4.specs.au4_pointer.Sink.{given};
ghost use Rattle.member_au4.specs.au4_pointer.SentFrames.{AreTaken};
ghost use Rattle.member_au4.specs.declared.au4_link.au4_draft.Link.{Link};
ghost use Rattle.member_au4.specs.au4_link.Vcs.{first_vcs};
ghost use Rattle.member_au4.specs.au4_link.LinkReportText.{link_text};
ghost use Rattle.member_au4.specs.au4_link.Carried.{link_vcs, link_frames, carried_text};
ghost use Rattle.member_au4.specs.au4_link.Link.{link_of, IsLink};

mod au4_draft;
mod au4_keyword;
mod au4_report;
mod au4_run;
mod au4_text_fault;
mod numbered_vcs;
mod read_au4_line;
mod read_au4_text;
mod text_of_vc;

pub use au4_draft::{ActionList, Link};
pub use au4_keyword::Au4Keyword;
pub use au4_run::write_link;
pub use au4_text_fault::Early;
pub use read_au4_text::read_link;

/// A text has the fault of a line exactly where that line is faulty after lines none of which is, or where no
/// line is faulty and one that has to be there isn't.
pub fn fault_law()
    ensures { (text : List ℕ) (number : ℕ) (fault : LineFault Au4Keyword Early) →
        (link_of text ≡ Err (number, fault))
        ↔ IsFirstFault link_lines 1 link_lines.first (lines text) number fault }
{}

/// The first VC-4s by their numbers have 2,349 octets each.
pub fn vcs_law()
    ensures size { (count : ℕ) → AreVcs (first_vcs count) }
    ensures count { (count : ℕ) → length (first_vcs count) ≡ count }
{}

/// A text that says a link says one of 1 to 100,000 frames, of which a source refuses no action. Of the frames
/// that a source sends with the VC-4s that begin, a sink refuses none, and it gives exactly those VC-4s that
/// end in their part, in order and each once. What is written is a line for each that it gives, and the counts.
pub fn text_law()
    ensures valid { (text : List ℕ) (link : Link) → link_of text ≡ Ok link → IsLink link }
    ensures taken { (text : List ℕ) (link : Link) → link_of text ≡ Ok link →
        AreTaken (link_frames link) }
    ensures given { (text : List ℕ) (link : Link) → link_of text ≡ Ok link →
        given (link_frames link) ≡ whole link.start link.actions (link_vcs link) }
    ensures written { (text : List ℕ) (link : Link) → link_of text ≡ Ok link →
        link_text link ≡ carried_text link }
{}
