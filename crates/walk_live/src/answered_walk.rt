//! A walk that is told what happens, and answers.
ghost use Rattle.std.specs.Prelude.{◌≡◌, ◌<◌, ◌≤◌, ◌∷◌, ◌++◌, ◌+◌, ◌*◌, [], ℕ, List, OnOk, OnErr, IfOk};
ghost use Rattle.std.specs.Prelude.{length};
ghost use Rattle.law_model.specs.Common.{AppendsPart, IsNetwork, Leg, most_lines, steps_in};
ghost use Rattle.law_model.specs.declared.script_types.Config.{Config};
ghost use Rattle.text_report.specs.ReportLines.{refused_text};
ghost use Rattle.text_got.specs.TextSoFar.{Holds};
ghost use Rattle.law_live.specs.Common.{IsWellSaid, Saying, lands, now_text, passes};
ghost use Rattle.terminal_group.specs.Item.{kind_of};
ghost use Rattle.walk_engine.specs.walk_core.LiveWalking.{IsLive, LiveFinishes, LiveRounds, LiveStands};
ghost use Rattle.walk_engine.specs.walk_core.LiveWalking.{walking_counts};
ghost use Rattle.law_walk.specs.DeliveredFrames.{delivered_since};
ghost use Rattle.walk_engine.specs.walk_core.WayParts.{waiting_in, windows_in};
ghost use Rattle.walk_live.specs.Answered.{Answers, AnswersPart, IsAnswered, WalksAs};
ghost use Rattle.walk_live.specs.PassingRounds.{CanPass, CanRound, IsOtherwise, round_text, rounds_text, steps_text};
ghost use Rattle.walk_live.specs.LiveReplies.{queue_lines, step_line};
ghost use Rattle.walk_live.specs.PassingRounds.{AreStates, HasStates};
ghost use Rattle.walk_live.specs.TimedWriting.{timed_texts};
ghost use Rattle.walk_live.specs.declared.asked.Asked.{Asked};
ghost use Rattle.walk_live.specs.declared.asked.Asked.TheVariants.{Members, Steps};

use crate::asked::Asked;
use crate::member_lines::{MEMBERS_ROOM, lines_of_members, states_of};
use crate::number_lines::{tell_now, tell_number};
use crate::timed_lines::{TimedLines, Whose};
use law_model::{Config, MOST_LINES, Refusal, SourceState};
use octet_io::{ByteSink, Failed};
use std::alloc::{AllocError, Global};
use terminal_group::ItemRef;
use text_captures::packet_trace::{TRACE_ROOM, trace_line};
use text_got::TextBlock;
use text_report::{REFUSED_ROOM, refused_line};
use walk_engine::walk_core::{LiveWalk, is_step};

/// A walk that is told what happens. What it answers waits in a block, or goes out where it is much.
#[derive(Drop)]
pub(crate) struct AnsweredWalk {
    pub(crate) walk: LiveWalk,
    /// How many lines the group has.
    lines: u8,
    /// How many items have landed.
    items: u32,
    /// How many frames waited when the last pass was over.
    waiting: u16,
    /// What is told of decision steps and passes.
    tells: Asked,
}

impl AnsweredWalk {
    /// A walk over a network to which nothing was said.
    pub(crate) fn new(
        alloc: Global,
        config: &Config,
        tells: Asked,
    ) -> Result<AnsweredWalk, AllocError>
        requires { IsNetwork config.now }
        ensures { IfOk result (λ walk. IsAnswered walk tells config.now []) }
    {
        let walk = LiveWalk::new(alloc, config)?;
        Ok(AnsweredWalk {
            walk,
            lines: config.lines,
            items: 0,
            waiting: 0,
            tells,
        })
    }

    /// Lands an item now, and answers why it is refused, where it is.
    pub(crate) fn land<K: ByteSink>(
        &mut self,
        item: ItemRef,
        block: &mut TextBlock,
        out: &mut K,
    ) -> Result<(), Failed>
        ensures answers { (asked : Asked) (config : Config) (said : List Saying) →
            IsAnswered self.old asked config said →
            IsWellSaid config (said ++ lands (kind_of item.entry) ∷ []) →
            OnOk result (Answers K.written K.faults out.old out.new block.old block.new self.new
            asked config said (lands (kind_of item.entry))) }
        ensures part { (asked : Asked) (config : Config) (said : List Saying) →
            IsAnswered self.old asked config said →
            IsWellSaid config (said ++ lands (kind_of item.entry) ∷ []) →
            OnErr result (AnswersPart K.written K.faults out.old out.new block.old
            asked config said (lands (kind_of item.entry))) }
    {
        let number = self.items;
        self.items = number.saturating_add(1);
        match self.walk.say(item) {
            Some(why) => tell_refused(number, &why, block, out),
            None => Ok(()),
        }
    }

    /// Lets ticks pass: rounds are made until so many more ticks are. Answers the decision steps of each round where
    /// they are asked, then the frames that come out with the ticks made by then, then how many frames wait where that
    /// is asked, and last how many ticks have passed.
    pub(crate) fn pass<K: ByteSink>(
        &mut self,
        ticks: u32,
        block: &mut TextBlock,
        out: &mut K,
    ) -> Result<(), Failed>
        requires { (asked : Asked) × (config : Config) × (said : List Saying)
            × IsAnswered self.old asked config said × IsWellSaid config (said ++ passes ticks ∷ []) }
        ensures answers { (asked : Asked) (config : Config) (said : List Saying) →
            IsAnswered self.old asked config said →
            IsWellSaid config (said ++ passes ticks ∷ []) →
            OnOk result (Answers K.written K.faults out.old out.new block.old block.new self.new
            asked config said (passes ticks)) }
        ensures part { (asked : Asked) (config : Config) (said : List Saying) →
            IsAnswered self.old asked config said →
            IsWellSaid config (said ++ passes ticks ∷ []) →
            OnErr result (AnswersPart K.written K.faults out.old out.new block.old
            asked config said (passes ticks)) }
    {
        let until = self.walk.ticks() + ticks;
        match self.make_rounds(until, block, out) {
            Ok(()) => self.end_pass(until, block, out),
            Err(Failed) => Err(Failed),
        }
    }

    /// Makes rounds until so many ticks are made, and answers each.
    fn make_rounds<K: ByteSink>(
        &mut self,
        until: u32,
        block: &mut TextBlock,
        out: &mut K,
    ) -> Result<(), Failed>
        requires { (asked : Asked) × (config : Config) × (said : List Saying) × (k : ℕ)
            × CanPass self.old asked config said k until }
        ensures same { IsOtherwise self.old self.new }
        ensures walks { (asked : Asked) (config : Config) (said : List Saying) (k : ℕ) →
            CanPass self.old asked config said k until →
            OnOk result (WalksAs config (said ++ passes k ∷ []) self.new.walk) }
        ensures told { (asked : Asked) (config : Config) (said : List Saying) (k : ℕ) →
            CanPass self.old asked config said k until →
            OnOk result (Holds K.written K.faults out.old out.new block.new
            (block.old ++ rounds_text asked config said k)) }
        ensures part { (asked : Asked) (config : Config) (said : List Saying) (k : ℕ) →
            CanPass self.old asked config said k until →
            OnErr result (AppendsPart K.written K.faults out.old out.new
            (block.old ++ rounds_text asked config said k)) }
    {
        while self.walk.ticks() < until {
            match self.round(block, out) {
                Ok(()) => {}
                Err(Failed) => return Err(Failed),
            }
        }
        Ok(())
    }

    /// Tells how many frames wait, where that is asked and isn't the number before, and how many ticks have passed.
    fn end_pass<K: ByteSink>(
        &mut self,
        ticks: u32,
        block: &mut TextBlock,
        out: &mut K,
    ) -> Result<(), Failed>
        ensures same { self.new ≡ record self.old { waiting = self.new.waiting } }
        ensures waits { (leg : Leg) → LiveStands leg self.old.walk →
            self.new.waiting ≡ waiting_in leg (walking_counts self.old.walk) }
        ensures told { OnOk result (Holds K.written K.faults out.old out.new block.new (block.old
            ++ (queue_lines self.old.tells self.old.waiting self.new.waiting ++ now_text ticks))) }
        ensures part { OnErr result (AppendsPart K.written K.faults out.old out.new (block.old
            ++ (queue_lines self.old.tells self.old.waiting self.new.waiting ++ now_text ticks))) }
    {
        let before = self.waiting;
        self.waiting = self.walk.way().source().core().queue().waiting();
        match tell_queue(self.tells, before, self.waiting, block, out) {
            Ok(()) => tell_now(ticks, block, out),
            Err(Failed) => Err(Failed),
        }
    }

    /// Makes a round, and answers the decision step and the frames of it.
    fn round<K: ByteSink>(&mut self, block: &mut TextBlock, out: &mut K) -> Result<(), Failed>
        requires few { self.old.lines ≤ most_lines }
        requires ready { (leg : Leg) × CanRound leg self.old.walk }
        requires left { self.old.walk.way.source.core.ticks < self.old.walk.way.source.total }
        ensures same { IsOtherwise self.old self.new }
        ensures windows { windows_in self.new.walk.way.lines ≡ windows_in self.old.walk.way.lines }
        ensures rounds { (leg : Leg) → CanRound leg self.old.walk →
            OnOk result (LiveRounds leg self.old.walk self.new.walk) }
        ensures told { (leg : Leg) → CanRound leg self.old.walk →
            self.old.lines ≡ leg.config.lines →
            OnOk result (Holds K.written K.faults out.old out.new block.new
            (block.old ++ round_text self.old.tells leg (walking_counts self.old.walk))) }
        ensures part { (leg : Leg) → CanRound leg self.old.walk →
            self.old.lines ≡ leg.config.lines →
            OnErr result (AppendsPart K.written K.faults out.old out.new
            (block.old ++ round_text self.old.tells leg (walking_counts self.old.walk))) }
    {
        let before = self.walk.ticks();
        let states = self.states();
        let _ = self.walk.tick();
        match self.tell_step(before, &states, block, out) {
            Ok(()) => self.finish_round(block, out),
            Err(Failed) => Err(Failed),
        }
    }

    /// The state of each line, where members are told and a decision step comes next.
    fn states(&self) -> [SourceState; MOST_LINES]
        requires { self.now.lines ≤ most_lines }
        ensures { (leg : Leg) → LiveStands leg self.now.walk →
            HasStates self.now.tells leg self.now.lines (walking_counts self.now.walk).ticks result }
    {
        if self.tells == Asked::Members && self.walk.ticks() % 16 == 8 {
            states_of(self.walk.way().table(), self.lines)
        } else {
            [SourceState::Idle; MOST_LINES]
        }
    }

    /// Tells the decision step that was made since a number of ticks, where one was; `states` are those of the lines
    /// by then.
    fn tell_step<K: ByteSink>(
        &self,
        before: u32,
        states: &[SourceState],
        block: &mut TextBlock,
        out: &mut K,
    ) -> Result<(), Failed>
        requires few { self.now.lines ≤ most_lines }
        requires size { self.now.lines ≤ length states.now }
        requires least { before ≤ (walking_counts self.now.walk).ticks }
        requires most { (walking_counts self.now.walk).ticks ≤ before + 1 }
        ensures told { (leg : Leg) → LiveStands leg self.now.walk →
            self.now.lines ≡ leg.config.lines →
            HasStates self.now.tells leg self.now.lines before states.now →
            OnOk result (Holds K.written K.faults out.old out.new block.new
            (block.old ++ steps_text self.now.tells leg before (walking_counts self.now.walk).ticks)) }
        ensures part { (leg : Leg) → LiveStands leg self.now.walk →
            self.now.lines ≡ leg.config.lines →
            HasStates self.now.tells leg self.now.lines before states.now →
            OnErr result (AppendsPart K.written K.faults out.old out.new
            (block.old ++ steps_text self.now.tells leg before (walking_counts self.now.walk).ticks)) }
    {
        if !is_step(before, self.walk.ticks()) {
            return Ok(());
        }
        match self.tells {
            Asked::Nothing => Ok(()),
            Asked::Steps => self.tell_packet(block, out),
            Asked::Members => self.tell_members(states, block, out),
        }
    }

    /// Adds a line for each line of the group whose code isn't that of these states.
    fn tell_members<K: ByteSink>(
        &self,
        states: &[SourceState],
        block: &mut TextBlock,
        out: &mut K,
    ) -> Result<(), Failed>
        requires few { self.now.lines ≤ most_lines }
        requires size { self.now.lines ≤ length states.now }
        ensures told { (leg : Leg) (j : ℕ) → LiveStands leg self.now.walk →
            self.now.lines ≡ leg.config.lines → (walking_counts self.now.walk).ticks ≡ 16 * j + 9 →
            AreStates leg self.now.lines (16 * j + 8) states.now →
            OnOk result (Holds K.written K.faults out.old out.new block.new
            (block.old ++ step_line Members leg j)) }
        ensures part { (leg : Leg) (j : ℕ) → LiveStands leg self.now.walk →
            self.now.lines ≡ leg.config.lines → (walking_counts self.now.walk).ticks ≡ 16 * j + 9 →
            AreStates leg self.now.lines (16 * j + 8) states.now →
            OnErr result (AppendsPart K.written K.faults out.old out.new
            (block.old ++ step_line Members leg j)) }
    {
        let mut text = [0u8; MEMBERS_ROOM];
        let end = lines_of_members(
            b"member ",
            self.walk.ticks(),
            states,
            self.walk.way().table(),
            self.lines,
            &mut text,
        );
        block.add(&text[..end], out)
    }

    /// Adds the line of the last decision step.
    fn tell_packet<K: ByteSink>(&self, block: &mut TextBlock, out: &mut K) -> Result<(), Failed>
        requires few { self.now.lines ≤ most_lines }
        requires made { 0 < steps_in (walking_counts self.now.walk).ticks }
        ensures told { (leg : Leg) (j : ℕ) → LiveStands leg self.now.walk →
            self.now.lines ≡ leg.config.lines → steps_in (walking_counts self.now.walk).ticks ≡ j + 1 →
            OnOk result (Holds K.written K.faults out.old out.new block.new
            (block.old ++ step_line Steps leg j)) }
        ensures part { (leg : Leg) (j : ℕ) → LiveStands leg self.now.walk →
            self.now.lines ≡ leg.config.lines → steps_in (walking_counts self.now.walk).ticks ≡ j + 1 →
            OnErr result (AppendsPart K.written K.faults out.old out.new
            (block.old ++ step_line Steps leg j)) }
    {
        let Some(note) = self.walk.last_step() else {
            return Ok(());
        };
        let mut line = [0u8; TRACE_ROOM];
        let end = trace_line(
            note.packet,
            note.back,
            self.walk.way().table(),
            self.lines,
            &mut line,
        );
        block.add(&line[..end], out)
    }

    /// Tries all of a round but its tick, and adds the lines of the frames that come out.
    fn finish_round<K: ByteSink>(
        &mut self,
        block: &mut TextBlock,
        out: &mut K,
    ) -> Result<(), Failed>
        requires { IsLive self.old.walk }
        ensures same { IsOtherwise self.old self.new }
        ensures windows { windows_in self.new.walk.way.lines ≡ windows_in self.old.walk.way.lines }
        ensures finishes { (leg : Leg) → LiveStands leg self.old.walk →
            LiveFinishes leg self.old.walk self.new.walk }
        ensures told { (leg : Leg) → LiveStands leg self.old.walk →
            OnOk result (Holds K.written K.faults out.old out.new block.new
            (block.old ++ timed_texts (walking_counts self.old.walk).ticks (delivered_since leg
            (walking_counts self.old.walk).rows (walking_counts self.new.walk).rows))) }
        ensures part { (leg : Leg) → LiveStands leg self.old.walk →
            OnErr result (AppendsPart K.written K.faults out.old out.new
            (block.old ++ timed_texts (walking_counts self.old.walk).ticks (delivered_since leg
            (walking_counts self.old.walk).rows (walking_counts self.new.walk).rows))) }
    {
        let mut lines = TimedLines::new(Whose::Walk, self.walk.ticks(), block, out);
        self.walk.finish_round(&mut lines);
        lines.end()
    }
}

/// Adds the line of a refused item.
fn tell_refused<K: ByteSink>(
    number: u32,
    why: &Refusal,
    block: &mut TextBlock,
    out: &mut K,
) -> Result<(), Failed>
    ensures told { OnOk result (Holds K.written K.faults out.old out.new block.new
        (block.old ++ refused_text number why.now)) }
    ensures part { OnErr result (AppendsPart K.written K.faults out.old out.new
        (block.old ++ refused_text number why.now)) }
{
    let mut line = [0u8; REFUSED_ROOM];
    let end = refused_line(number, why, &mut line);
    block.add(&line[..end], out)
}

/// Adds the line of how many frames wait, where that is asked and isn't the number before.
fn tell_queue<K: ByteSink>(
    tells: Asked,
    before: u16,
    waiting: u16,
    block: &mut TextBlock,
    out: &mut K,
) -> Result<(), Failed>
    ensures told { OnOk result (Holds K.written K.faults out.old out.new block.new
        (block.old ++ queue_lines tells before waiting)) }
    ensures part { OnErr result (AppendsPart K.written K.faults out.old out.new
        (block.old ++ queue_lines tells before waiting)) }
{
    if tells != Asked::Members || waiting == before {
        return Ok(());
    }
    tell_number(b"queue ", u32::from(waiting), block, out)
}
