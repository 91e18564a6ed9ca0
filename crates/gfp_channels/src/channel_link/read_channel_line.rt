//! What a line of a text of channels says behind its keyword.
ghost use Rattle.std.specs.Prelude.{◌≡◌, IfOk, IfErr, None, Some};
ghost use Rattle.text_lines.specs.WordsOfLine.{words};
ghost use Rattle.text_lines.specs.LineFaults.{IsLineStop};
ghost use Rattle.text_lines.specs.LanguageTable.{rest_fault};
ghost use Rattle.gfp_channels.specs.channel_link.ChannelTextLines.{plan_table, cut_said, offer_said};

use crate::channel_link::channel_draft::{ChannelDraft, Offer};
use crate::channel_link::channel_keyword::ChannelKeyword;
use crate::channel_link::channel_text_fault::Overlap;
use gfp_model::linear_model::Cut;
use law_model::Octets;
use std::alloc::Global;
use text_lines::{LineFault, LineStop, count_fault, number_within, octets_within, two_words};

/// A frame and the number of its channel.
pub(super) fn read_offer(
    alloc: Global,
    draft: &ChannelDraft,
    rest: &[u8],
) -> Result<Offer, LineStop<ChannelKeyword, Overlap>>
    ensures ok { IfOk result (λ offer.
        (rest_fault plan_table draft.now ChannelKeyword.Frame (words rest.now) ≡ None)
        × (offer ≡ offer_said (words rest.now))) }
    ensures err { IfErr result (λ stop.
        IsLineStop stop (rest_fault plan_table draft.now ChannelKeyword.Frame (words rest.now))) }
{
    let Some((cid, digits)) = two_words(rest) else {
        return Err(LineStop::Fault(count_fault(ChannelKeyword::Frame, 2, rest)));
    };
    let cid = number_within(cid, 2, 0, 255)? as u8;
    let octets = octets_within(alloc, digits, 3, 1, 65_535)?;
    Ok(Offer {
        cid,
        frame: Octets(octets),
    })
}

/// The places of a cut.
pub(super) fn read_cut(
    draft: &ChannelDraft,
    rest: &[u8],
) -> Result<Cut, LineFault<ChannelKeyword, Overlap>>
    ensures ok { IfOk result (λ cut.
        (rest_fault plan_table draft.now ChannelKeyword.Cut (words rest.now) ≡ None)
        × (cut ≡ cut_said (words rest.now))) }
    ensures err { IfErr result (λ fault.
        rest_fault plan_table draft.now ChannelKeyword.Cut (words rest.now) ≡ Some fault) }
{
    let Some((first, end)) = two_words(rest) else {
        return Err(count_fault(ChannelKeyword::Cut, 2, rest));
    };
    let first = number_within(first, 2, 0, 9_999_999_999)?;
    let end = number_within(end, 3, first + 1, u64::from(draft.octets))?;
    if first < draft.end {
        return Err(LineFault::Own(Overlap { end: draft.end }));
    }
    Ok(Cut { first, end })
}
