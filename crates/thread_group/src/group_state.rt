//! A group: its source, the ends of its rings, what has landed, and the journal of what was accepted.

ghost use Rattle.std.specs.Prelude.{◌≡◌, ◌<◌, Option, None, length, IfOk};
ghost use Rattle.law_model.specs.Common.{leg_of, Scenario};
ghost use Rattle.terminal_source.specs.source_core.Terminal.{needed};
ghost use Rattle.terminal_source.specs.source_core.GivenScenario.{SourceStands as HasMade};
ghost use Rattle.terminal_group.specs.Item.{kind_of};
ghost use Rattle.terminal_group.specs.Source.{missing_by};
ghost use Rattle.thread_group.specs.GroupParts.{parts, Keeps};

use crate::group_answers::{SubmitFault, TickAnswer, refused};
use crate::item_journal::Journal;
use crate::open_group::{Opened, open};
use crate::tick_rings::{first_full, push_frame, take_cells};
use law_model::{Script, Totals};
use member_cells::{BackCell, Container, HeldContainer};
use std::alloc::{AllocError, Global};
use terminal_group::{CountedSource, ItemRef, Landing, Refusals};
use thread_rings::{RingIn, RingOut};

/// A group. It takes the client's frames and the operator's commands in the order of its script, each kind by
/// itself, and makes a frame at each tick; what is due at a tick lands before it. Only its making takes
/// memory.
#[derive(Drop)]
pub struct GroupState {
    source: CountedSource,
    /// Which items of its script have landed, and which were refused.
    pub(crate) landing: Landing,
    journal: Journal,
    /// Boxes for the containers of a frame.
    frame: Vec<Box<HeldContainer>>,
    /// Where it pushes the containers of each line.
    pub tx: Vec<RingOut<Container>>,
    /// Where it pops return cells.
    pub back: RingIn<BackCell>,
    ghost lines: { landing.lines ≡ source.core.lines },
    ghost keeps: { Keeps
        (parts source.core source.total landing journal source.inbox tx.items back)
        (length frame.items) },
}

impl GroupState {
    ghost use Rattle.std.specs.Prelude.{◌≡◌, ◌<◌, ◌≤◌, ◌||◌, true, [], length, Some, None, IfOk};
    ghost use Rattle.std.specs.Prelude.{MatchOption};
    ghost use Rattle.std.specs.Option.{is_some};
    ghost use Rattle.law_model.specs.Common.{IsValid, refusal_in};
    ghost use Rattle.thread_rings.specs.EndsOfRing.{in_passed};
    ghost use Rattle.terminal_source.specs.source_core.GivenScenario.{IsFresh};
    ghost use Rattle.thread_group.specs.Journal.{fits};
    ghost use Rattle.terminal_group.specs.Landed.{due_at, IsKept};
    ghost use Rattle.thread_group.specs.GroupRings.{AreUnused, AreFree, IsFirstFull};
    ghost use Rattle.thread_group.specs.Group.{parts_of, lines_of, lag_of, size_of, statuses_of};
    ghost use Rattle.thread_group.specs.Group.{IsOf, IsFreeToTick, ticks_of};
    ghost use Rattle.thread_group.specs.Group.{items_of, frames_of, commands_of, journal_of, slots_of, bytes_of};
    ghost use Rattle.thread_group.specs.Group.{refusals_of, inbox_of, source_of, totals_of, next_of, refusal_of};
    ghost use Rattle.thread_group.specs.OpenedGroup.{IsOpened, IsBegun};
    ghost use Rattle.thread_group.specs.GroupCalls.{Submits, Ticks, Comes, Looks, Makes};

    /// A group of a script, over a fresh send ring for each line and a fresh return ring, with room for so
    /// many entries of the journal and so many octets of frames.
    pub fn new(
        alloc: Global,
        script: &Script,
        entries: u32,
        bytes: u64,
        tx: Vec<RingOut<Container>>,
        back: RingIn<BackCell>,
    ) -> Result<GroupState, AllocError>
        requires script { IsValid script.now }
        requires rings { length tx.items ≡ script.now.config.lines }
        requires sends { AreUnused tx.items }
        requires returns { in_passed back ≡ [] }
        ensures script { IfOk result (λ g. IsOf (leg_of script.now) g) }
        ensures ticks { IfOk result (λ g. ticks_of g ≡ 0) }
        ensures landed { IfOk result (λ g. (frames_of g ≡ 0) × (commands_of g ≡ 0)) }
        ensures journal { IfOk result (λ g. journal_of g ≡ []) }
        ensures room { IfOk result (λ g. (slots_of g ≡ entries) × (bytes_of g ≡ bytes)) }
        ensures refusals { IfOk result (λ g. refusals_of g ≡ []) }
        ensures inbox { IfOk result (λ g. inbox_of g ≡ []) }
        ensures ends { IfOk result (λ g. (g.tx ≡ tx) × (g.back ≡ back)) }
        ensures made { IfOk result (λ g. (scenario : Scenario) →
            IsFresh scenario (lines_of g) (lag_of g) (size_of g) (statuses_of g) →
            HasMade (source_of g) scenario []) }
    {
        let opened = open(alloc, script, entries, bytes)?;
        Ok(GroupState::from_opened(script, opened, tx, back))
    }

    /// What came of it so far, in numbers. Rows and delivered frames are counted elsewhere.
    pub fn totals(&self) -> Totals
        ensures { result ≡ totals_of self.now }
    {
        Totals {
            ticks: self.source.core().ticks(),
            taken: 0,
            frames: self.journal.frames(),
            commands: self.journal.commands(),
            refused: self.landing.all_refused(),
            got: 0,
        }
    }

    /// The items that were refused, in the order of the script.
    pub fn refusals(&self) -> Refusals<'_>
        ensures { result ≡ refusals_of self.now }
    {
        self.landing.refusals()
    }

    /// Lands an item, of this number in the script. Of each kind, the client's frames and the operator's
    /// commands, the next one lands, once it is due. One that the source refuses has landed, and its refusal
    /// is kept; the journal needs room only for one that the source takes. Each other fault changes nothing.
    /// The item is the script's: a frame of the length that it has there, or the same command.
    pub fn submit(&mut self, number: u32, item: ItemRef) -> Result<(), SubmitFault>
        requires { IsKept (parts_of self.old).landed number (kind_of item) }
        ensures { Submits self.old self.new number (kind_of item.entry) (refusal_in result) }
    {
        let client = item.is_frame();
        let next = self.landing.next(client);
        if next != Some(number) {
            return Err(SubmitFault::NotNext { next });
        }
        let now = self.source.core().ticks();
        if now < self.landing.due(client, number) {
            return Err(SubmitFault::Early { now });
        }
        if !self.finds_room(item) {
            let entries = self.journal.slots();
            let bytes = self.journal.bytes();
            return Err(SubmitFault::JournalFull { entries, bytes });
        }
        self.land(number, item)
    }

    /// Moves return cells into the inbox, until a look finds none or the inbox is full. Then it makes the
    /// next frame, a container for each line, where ticks are left, no item that is due waits, each send ring
    /// has a slot, and the return cell is there that the tick needs, if it needs one. The first of these that
    /// fails is told, and then nothing is made.
    pub fn tick(&mut self) -> TickAnswer
        ensures { Ticks self.old self.new result }
    {
        self.come();
        let ticks = self.source.core().ticks();
        if ticks >= self.source.total_ticks() {
            return TickAnswer::Done;
        }
        if let Some(item) = self.landing.held(ticks) {
            return TickAnswer::Held { item };
        }
        if let Some(line) = self.look() {
            return TickAnswer::TxFull { line };
        }
        if let Some(packet) = self.source.missing() {
            return TickAnswer::BackMissing { packet };
        }
        self.make_frame();
        TickAnswer::Ticked
    }

    /// A group over what was opened of a script, and over fresh rings.
    fn from_opened(
        script: &Script,
        opened: Opened,
        tx: Vec<RingOut<Container>>,
        back: RingIn<BackCell>,
    ) -> GroupState
        requires script { IsValid script.now }
        requires rings { length tx.items ≡ script.now.config.lines }
        requires sends { AreUnused tx.items }
        requires returns { in_passed back ≡ [] }
        requires opened { IsOpened (leg_of script.now) opened }
        ensures begun { IsBegun (leg_of script.now) result }
        ensures room { (slots_of result ≡ opened.journal.slots)
            × (bytes_of result ≡ opened.journal.bytes) }
        ensures ends { (result.tx ≡ tx) × (result.back ≡ back) }
    {
        let Opened {
            source,
            landing,
            journal,
            frame,
        } = opened;
        GroupState {
            source,
            landing,
            journal,
            frame,
            tx,
            back,
        }
    }

    /// Whether the journal has room for an item that is due. It needs none for one that the source refuses.
    fn finds_room(&self, item: ItemRef) -> bool
        ensures { result ≡ (is_some (refusal_of self.now (kind_of item.entry))
            || fits (parts_of self.now).journal (kind_of item.entry)) }
    {
        self.source.refusal(item).is_some() || self.journal.has_room(item)
    }

    /// Lands an item that is the next of its kind and is due. The journal has room for it, where the source takes it.
    fn land(&mut self, number: u32, item: ItemRef) -> Result<(), SubmitFault>
        requires next { next_of self.old (kind_of item) ≡ Some number }
        requires item { IsKept (parts_of self.old).landed number (kind_of item) }
        requires due { due_at (items_of self.old) number ≤ ticks_of self.old }
        requires room { refusal_of self.old (kind_of item) ≡ None →
            fits (parts_of self.old).journal (kind_of item) ≡ true }
        ensures { Submits self.old self.new number (kind_of item.entry) (refusal_in result) }
    {
        let why = self.source.land(item);
        self.landing.land(item.is_frame(), number, why);
        match why {
            Some(why) => Err(refused(why)),
            None => {
                self.journal.push(number, self.source.core().ticks(), item);
                Ok(())
            }
        }
    }

    /// Moves return cells into the inbox.
    fn come(&mut self)
        ensures { Comes self.old self.new }
    {
        take_cells(&mut self.source, &mut self.back);
    }

    /// Looks for a slot in each send ring, up to the first that has none.
    fn look(&mut self) -> Option<u8>
        ensures looks { Looks self.old self.new }
        ensures full { MatchOption result (AreFree self.new.tx.items)
            (λ line. IsFirstFull self.old.tx.items self.new.tx.items line) }
    {
        first_full(&mut self.tx)
    }

    /// Makes the next frame, for which the send rings have slots and the return cell is there that it needs.
    fn make_frame(&mut self)
        requires free { IsFreeToTick self.old }
        requires cell { missing_by (needed (source_of self.old)) (inbox_of self.old) ≡ None }
        requires slots { AreFree self.old.tx.items }
        ensures { Makes self.old self.new }
    {
        let _taken = self.source.make(&mut self.frame);
        push_frame(&mut self.tx, &mut self.frame);
    }
}
