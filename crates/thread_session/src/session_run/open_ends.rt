//! The opening of a session: all of its memory is taken here.
ghost use Rattle.std.specs.Prelude.{◌≡◌, ◌<◌, IfOk, [], ◌∷◌, length, replicate, vec_len};
ghost use Rattle.law_model.specs.Common.{leg_of, IsValid};
ghost use Rattle.thread_rings.specs.EndsOfRing.{AreEnds, out_passed, in_passed};
ghost use Rattle.thread_sink.specs.ReceivedByRings.{received};
ghost use Rattle.thread_group.specs.GroupRings.{AreUnused};
ghost use Rattle.thread_group.specs.GroupOfLeg.{IsBound};
ghost use Rattle.thread_session.specs.session_run.RoomForThreads.{IsKitFor};
ghost use Rattle.thread_session.specs.session_run.SessionOfScript.{IsOpen, IsSinkOf};

use crate::session_parts::open_lines;
use crate::session_run::room_and_flags::Kit;
use law_model::{LONGEST_OFFER, Script};
use member_cells::{BackCell, Cell, Container};
use std::alloc::{AllocError, Global};
use thread_group::GroupState;
use thread_rings::{LineWorker, RingIn, RingOut, back_ring};
use thread_sink::SinkWorker;

/// A session before anything has moved.
#[derive(Drop)]
pub(super) struct Opened {
    pub(super) group: GroupState,
    pub(super) lines: Vec<LineWorker>,
    pub(super) sink: SinkWorker,
    pub(super) kit: Kit,
}

/// A group of a script over fresh rings, with room in its journal for all items.
fn open_group(
    alloc: Global,
    script: &Script,
    tx: Vec<RingOut<Container>>,
    back: RingIn<BackCell>,
) -> Result<GroupState, AllocError>
    requires script { IsValid script.now }
    requires rings { length tx.items ≡ script.now.config.lines }
    requires sends { AreUnused tx.items }
    requires returns { in_passed back ≡ [] }
    ensures bound { IfOk result (λ g. IsBound (leg_of script.now) g.tx.items (g.back ∷ []) g) }
    ensures ends { IfOk result (λ g. (g.tx ≡ tx) × (g.back ≡ back)) }
{
    let entries = script.items.len();
    let bytes = LONGEST_OFFER as u64 * u64::from(entries);
    GroupState::new(alloc, script, entries, bytes, tx, back)
}

/// The worker of the sink of a script over fresh rings.
fn open_sink(
    alloc: Global,
    script: &Script,
    rx: Vec<RingIn<Cell>>,
    back: RingOut<BackCell>,
) -> Result<SinkWorker, AllocError>
    requires script { IsValid script.now }
    requires rings { length rx.items ≡ script.now.config.lines }
    requires fresh { received rx.items ≡ replicate script.now.config.lines [] }
    requires back { out_passed back ≡ [] }
    ensures sink { IfOk result (λ sink. IsSinkOf script.now sink) }
    ensures ends { IfOk result (λ sink. (sink.rx ≡ rx) × (sink.back ≡ back)) }
{
    let config = &script.config;
    SinkWorker::new(
        alloc,
        config.lines,
        config.ticks,
        config.size,
        config.options,
        rx,
        back,
    )
}

/// The group and the worker of the sink of a script, over fresh rings, with the return ring between them.
fn open_ends(
    alloc: Global,
    script: &Script,
    tx: Vec<RingOut<Container>>,
    rx: Vec<RingIn<Cell>>,
) -> Result<(GroupState, SinkWorker), AllocError>
    requires script { IsValid script.now }
    requires sends { length tx.items ≡ script.now.config.lines }
    requires unused { AreUnused tx.items }
    requires receives { length rx.items ≡ script.now.config.lines }
    requires fresh { received rx.items ≡ replicate script.now.config.lines [] }
    ensures bound { IfOk result
        (λ e. IsBound (leg_of script.now) e.0.tx.items (e.0.back ∷ []) e.0) }
    ensures sink { IfOk result (λ e. IsSinkOf script.now e.1) }
    ensures returns { IfOk result (λ e. AreEnds e.1.back e.0.back) }
    ensures ends { IfOk result (λ e. (e.0.tx ≡ tx) × (e.1.rx ≡ rx)) }
{
    let (back, back_in) = back_ring(alloc)?;
    let group = open_group(alloc, script, tx, back_in)?;
    match open_sink(alloc, script, rx, back) {
        Ok(sink) => Ok((group, sink)),
        Err(AllocError) => {
            drop(group);
            Err(AllocError)
        }
    }
}

/// Opens a session of a script for this number of line threads.
pub(super) fn open(alloc: Global, script: &Script, workers: u8) -> Result<Opened, AllocError>
    requires script { IsValid script.now }
    requires some { 0 < workers }
    ensures open { IfOk result (λ o. IsOpen script.now o.group o.lines.items o.sink) }
    ensures kit { IfOk result (λ o. IsKitFor (vec_len o.lines) o.kit) }
{
    let kit = Kit::new(alloc, script.config.lines, workers)?;
    match open_parts(alloc, script) {
        Ok((group, lines, sink)) => Ok(Opened {
            group,
            lines,
            sink,
            kit,
        }),
        Err(AllocError) => {
            drop(kit);
            Err(AllocError)
        }
    }
}

/// Opens the parts of a session of a script.
fn open_parts(
    alloc: Global,
    script: &Script,
) -> Result<(GroupState, Vec<LineWorker>, SinkWorker), AllocError>
    requires { IsValid script.now }
    ensures { IfOk result (λ p. IsOpen script.now p.0 p.1.items p.2) }
{
    let lines = open_lines(alloc, &script.config)?;
    let (group, sink) = open_ends(alloc, script, lines.tx, lines.rx)?;
    Ok((group, lines.workers, sink))
}
