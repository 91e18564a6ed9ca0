//! The reader of a whole text.
ghost use Rattle.std.specs.Prelude.{◌≡◌, ◌≤◌, length, IfOk, IfErr, Ok};
ghost use Rattle.text_lines.specs.LineFaults.{IsTextFault};
ghost use Rattle.law_model.specs.Limits.{longest_input};
ghost use Rattle.gfp_channels.specs.channel_link.Plan.{plan_of, IsPlan};

use crate::channel_link::channel_draft::{ChannelDraft, ChannelPlan, CutList, OfferList};
use crate::channel_link::channel_keyword::ChannelKeyword;
use crate::channel_link::channel_text_fault::Overlap;
use crate::channel_link::read_channel_line::{read_cut, read_offer};
use std::alloc::Global;
use text_lines::{LineStop, LineTable, TextFault, one_number, read_text};

impl LineTable for ChannelDraft {
    ghost use Rattle.gfp_channels.specs.channel_link.ChannelTextLines.{plan_table};

    type Keyword = ChannelKeyword;

    type Own = Overlap;

    ghost table = { plan_table };

    fn at_start(alloc: Global) -> ChannelDraft {
        ChannelDraft {
            channels: 0,
            octets: 0,
            end: 0,
            offers: OfferList(Vec::new(alloc)),
            cuts: CutList(Vec::new(alloc)),
        }
    }

    fn keyword(word: &[u8]) -> Option<ChannelKeyword> {
        ChannelKeyword::of(word)
    }

    fn place(keyword: ChannelKeyword) -> u64 {
        match keyword {
            ChannelKeyword::Channels => 0,
            ChannelKeyword::Octets => 1,
            ChannelKeyword::Frame => 2,
            ChannelKeyword::Cut => 3,
        }
    }

    fn must() -> u64 {
        2
    }

    fn awaited(next: u64) -> ChannelKeyword {
        if next == 0 {
            ChannelKeyword::Channels
        } else {
            ChannelKeyword::Octets
        }
    }

    fn add(
        &mut self,
        alloc: Global,
        keyword: ChannelKeyword,
        rest: &[u8],
    ) -> Result<(), LineStop<ChannelKeyword, Overlap>> {
        match keyword {
            ChannelKeyword::Channels => self.channels = one_number::<ChannelKeyword, Overlap>(
                ChannelKeyword::Channels,
                rest,
                1,
                256,
            )? as u16,
            ChannelKeyword::Octets => {
                self.octets = one_number::<ChannelKeyword, Overlap>(
                    ChannelKeyword::Octets,
                    rest,
                    1,
                    100_000_000,
                )? as u32;
            }
            ChannelKeyword::Frame => {
                let offer = read_offer(alloc, self, rest)?;
                self.offers.0.push(offer)?;
            }
            ChannelKeyword::Cut => {
                let cut = read_cut(self, rest)?;
                self.cuts.0.push(cut)?;
                self.end = cut.end;
            }
        }
        Ok(())
    }
}

/// The plan that a text of at most 67,108,864 octets says. Else its first fault: that of the first faulty
/// line. Want of memory may come in place of any answer.
pub fn read_plan(
    alloc: Global,
    text: &[u8],
) -> Result<ChannelPlan, TextFault<ChannelKeyword, Overlap>>
    requires { length text.now ≤ longest_input }
    ensures plan { IfOk result (λ plan. plan_of text.now ≡ Ok plan) }
    ensures valid { IfOk result IsPlan }
    ensures fault { IfErr result (λ fault. IsTextFault (plan_of text.now) fault) }
{
    match read_text::<ChannelDraft>(alloc, text) {
        Ok(draft) => {
            let ChannelDraft {
                channels,
                octets,
                end: _,
                offers,
                cuts,
            } = draft;
            Ok(ChannelPlan {
                channels,
                octets,
                offers,
                cuts,
            })
        }
        Err(fault) => Err(fault),
    }
}
