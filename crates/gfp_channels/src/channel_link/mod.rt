//! Clients that share a stream by channel numbers: what a text says of channels, frames and cuts, and the lines
//! of the frames that get through. The language is a table, `plan_table`, and what a text says computes from it,
//! `plan_of`; the reader gives just that, in one pass. How frames are queued, sent and received is in
//! `gfp_linear`. Begin with `read_plan` and `ChannelRun`; `plan_law` says what of each channel is carried and
//! delivered, and `text_law` what is then written of a text.

ghost use Rattle.std.specs.Prelude.{◌≡◌, ◌↔◌, ℕ, List, [], length, take, Ok, Err};
ghost use Rattle.std.specs.Str.Lines.{lines};
ghost use Rattle.text_lines.specs.FirstFault.{IsFirstFault};
ghost use Rattle.text_lines.specs.declared.text_faults.LineFault.{LineFault};
ghost use Rattle.gfp_channels.specs.declared.channel_link.channel_keyword.ChannelKeyword.{ChannelKeyword};
ghost use Rattle.gfp_channels.specs.declared.channel_link.channel_text_fault.Overlap.{Overlap};
ghost use Rattle.gfp_channels.specs.channel_link.ChannelTextLines.{plan_lines};
ghost use Rattle.gfp_channels.specs.declared.channel_link.channel_draft.ChannelPlan.{ChannelPlan};
ghost use Rattle.gfp_channels.specs.channel_link.Plan.{plan_of, IsPlan};
ghost use Rattle.gfp_channels.specs.channel_link.ChannelReportText.{plan_text};
ghost use Rattle.gfp_channels.specs.channel_link.FramesOfPlan.{HasTrueStarts, accepted_by, carried_by, kept_by};
ghost use Rattle.gfp_channels.specs.channel_link.FramesOfPlan.{delivered_by};
ghost use Rattle.gfp_channels.specs.channel_link.FramesOfPlan.{IsPlanReport};

mod channel_draft;
mod channel_keyword;
mod channel_reception;
mod channel_report;
mod channel_run;
mod channel_text_fault;
mod read_channel_line;
mod read_channel_text;

pub use channel_draft::{ChannelPlan, CutList, Offer, OfferList};
pub use channel_keyword::ChannelKeyword;
pub use channel_run::ChannelRun;
pub use channel_text_fault::Overlap;
pub use read_channel_text::read_plan;

/// A text has the fault of a line exactly where that line is faulty after lines none of which is.
pub fn fault_law()
    ensures { (text : List ℕ) (number : ℕ) (fault : LineFault ChannelKeyword Overlap) →
        (plan_of text ≡ Err (number, fault))
        ↔ IsFirstFault plan_lines 1 plan_lines.first (lines text) number fault }
{}

/// Of each channel of a plan: the frames that its stream carries whole are, in order, the first of those that were
/// accepted. Without cuts just these are delivered. With cuts, where each place that is confirmed first behind one is
/// that of a piece, those are delivered, in order and each once, that are carried and aren't lost.
pub fn plan_law()
    ensures carried { (plan : ChannelPlan) (cid : ℕ) →
        carried_by plan cid ≡ take (length (carried_by plan cid)) (accepted_by plan cid) }
    ensures uncut { (plan : ChannelPlan) (cid : ℕ) → IsPlan plan →
        plan.cuts ≡ [] → delivered_by plan cid ≡ carried_by plan cid }
    ensures kept { (plan : ChannelPlan) (cid : ℕ) → IsPlan plan →
        HasTrueStarts plan → delivered_by plan cid ≡ kept_by plan cid }
{}

/// A text that says a plan says one of 1 to 256 channels and 1 to 100,000,000 octets, with frames of octets and cuts
/// one after the other. What is written of it are got lines, of each channel just those that `plan_law` says, the lines
/// of refused frames, and the counts.
pub fn text_law()
    ensures valid { (text : List ℕ) (plan : ChannelPlan) → plan_of text ≡ Ok plan → IsPlan plan }
    ensures written { (text : List ℕ) (plan : ChannelPlan) → plan_of text ≡ Ok plan →
        IsPlanReport plan (plan_text plan) }
{}
