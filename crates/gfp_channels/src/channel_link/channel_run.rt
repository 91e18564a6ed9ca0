//! The frames of a plan are offered, their stream is made and received with its cuts, and what comes of it is written.
ghost use Rattle.std.specs.Prelude.{◌≡◌, ◌≤◌, ℕ, List, [], ◌++◌, IfOk, OnOk, OnErr, flat_map};
ghost use Rattle.law_model.specs.Common.{Start, Appends, AppendsPart};
ghost use Rattle.text_got.specs.TextSoFar.{HasText};
ghost use Rattle.gfp_model.specs.linear_model.ChannelStream.{stream_to};
ghost use Rattle.gfp_channels.specs.gfp_linear.Queue.{unbegun};
ghost use Rattle.gfp_channels.specs.channel_link.Plan.{AreCuts, IsPlan};
ghost use Rattle.gfp_channels.specs.channel_link.ChannelReportText.{after_offers, plan_text, refusal_text, refusals};
ghost use Rattle.gfp_channels.specs.channel_link.Run.{IsReady, Received};

use crate::channel_link::channel_draft::{ChannelPlan, Offer};
use crate::channel_link::channel_reception::{Reception, send_all};
use crate::channel_link::channel_report::{ChannelCounts, LINE_ROOM, end_line, refused_line};
use crate::gfp_linear::{LinearDelineator, LinearQueue};
use gfp_fill::Filler;
use gfp_model::linear_model::{ChannelFault, Cut};
use octet_io::{ByteSink, Failed, take_back};
use std::alloc::{AllocError, Global};
use std::marker::Model;
use text_got::GotLines;

/// How many octets of the stream are made at once.
const BLOCK: usize = 4096;

/// A frame that was refused.
#[derive(Clone, Copy)]
pub(super) struct Refusal {
    /// Its place among all that were offered, counted from 0.
    pub item: u64,
    /// Why it was refused.
    pub why: ChannelFault,
}

/// Channels to which all frames of a plan were offered, and a receiver to which nothing of their stream has come.
#[derive(Drop)]
pub struct ChannelRun {
    queue: LinearQueue,
    refused: Vec<Refusal>,
    receiver: LinearDelineator,
}

impl Model for ChannelRun {
    ghost use Rattle.gfp_channels.specs.channel_link.Run.{Prepared};

    ghost Value = { Prepared };

    ghost view = { λ run. record { queue = run.queue; refused = run.refused.items; receiver = run.receiver } };
}

/// Offers frames, and tells those that are refused.
fn offer_all(
    alloc: Global,
    queue: &mut LinearQueue,
    offers: &[Offer],
) -> Result<Vec<Refusal>, AllocError>
    requires { queue.old ≡ unbegun queue.old.channels }
    ensures queue { OnOk result
        (queue.new ≡ unbegun (after_offers queue.old.channels offers.now)) }
    ensures refused { IfOk result (λ refused.
        refused.items ≡ refusals 0 queue.old.channels offers.now) }
{
    let mut refused = Vec::new(alloc);
    let mut item = 0;
    for offer in offers {
        match queue.push(offer.cid, offer.frame.0.as_slice()) {
            Ok(()) => {}
            Err(why) => refused.push(Refusal { item, why })?,
        }
        item += 1;
    }
    Ok(refused)
}

/// Makes the stream and receives it.
fn carry<K: ByteSink>(
    queue: &mut LinearQueue,
    octets: u32,
    cuts: &[Cut],
    reception: &mut Reception<K>,
)
    requires few { octets ≤ 100000000 }
    requires fresh { queue.old ≡ unbegun queue.old.channels }
    requires stands { (start : Start)
        × Received K.written K.faults reception.old start cuts.now [] }
    requires order { AreCuts 0 octets cuts.now }
    ensures { (start : Start) → Received K.written K.faults reception.old start cuts.now [] →
        Received K.written K.faults reception.new start cuts.now
        (stream_to octets queue.old.channels) }
{
    let mut filler = Filler::new();
    let mut block = [0u8; BLOCK];
    let mut left = octets as usize;
    while left > 0 {
        let n = left.min(BLOCK);
        filler.fill(queue, &mut block[..n]);
        send_all(reception, cuts, &block[..n]);
        left -= n;
    }
}

/// Writes the lines of refused frames.
fn write_refused<K: ByteSink>(refused: &[Refusal], lines: &mut GotLines<K>)
    ensures { (start : Start) (before : List ℕ) →
        HasText K.written K.faults lines.old start before →
        HasText K.written K.faults lines.new start (before ++ flat_map refusal_text refused.now) }
{
    for refusal in refused {
        let mut line = [0u8; LINE_ROOM];
        let end = refused_line(refusal.item, refusal.why, &mut line);
        lines.line(&line[..end]);
    }
}

impl ChannelRun {
    /// Takes the room of all channels, offers the frames, and makes a receiver.
    pub fn new(alloc: Global, plan: &ChannelPlan) -> Result<ChannelRun, AllocError>
        requires { IsPlan plan.now }
        ensures { IfOk result (λ run. IsReady run plan.now) }
    {
        let mut queue = LinearQueue::new(alloc, plan.channels)?;
        let refused = offer_all(alloc, &mut queue, plan.offers.0.as_slice())?;
        Ok(ChannelRun {
            queue,
            refused,
            receiver: LinearDelineator::new(alloc)?,
        })
    }

    /// Makes the stream and receives it, and writes the line of each frame that is delivered, then of each that was
    /// refused, and last the counts. The plan is the one of which the run was made. No call takes memory.
    pub fn write<K: ByteSink>(self, plan: &ChannelPlan, out: &mut K) -> Result<(), Failed>
        requires plan { IsPlan plan.now }
        requires ready { IsReady self plan.now }
        ensures ok { OnOk result
            (Appends K.written K.faults out.old out.new (plan_text plan.now)) }
        ensures err { OnErr result
            (AppendsPart K.written K.faults out.old out.new (plan_text plan.now)) }
    {
        let ChannelRun {
            mut queue,
            refused,
            receiver,
        } = self;
        let mut reception = Reception {
            delineator: receiver,
            lines: GotLines::new(out),
            got: 0,
            place: 0,
            ended: 0,
        };
        carry(
            &mut queue,
            plan.octets,
            plan.cuts.0.as_slice(),
            &mut reception,
        );
        let Reception {
            delineator: _,
            mut lines,
            got,
            place: _,
            ended: _,
        } = reception;
        write_refused(refused.as_slice(), &mut lines);
        let count = refused.len() as u64;
        let mut line = [0u8; LINE_ROOM];
        let end = end_line(
            ChannelCounts {
                accepted: plan.offers.count() - count,
                refused: count,
                got,
            },
            &mut line,
        );
        lines.line(&line[..end]);
        let (back, end) = lines.finish();
        take_back(back);
        end
    }
}
