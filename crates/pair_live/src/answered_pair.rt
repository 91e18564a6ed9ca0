//! A pair that is told what happens, and answers.
ghost use Rattle.std.specs.Prelude.{◌≡◌, ◌<◌, ◌≤◌, ◌∷◌, ◌++◌, ◌+◌, ◌*◌, [], ℕ, List, OnOk, OnErr, IfOk, length};
ghost use Rattle.law_model.specs.Common.{AppendsPart, most_lines, steps_in};
ghost use Rattle.law_model.specs.declared.script_types.Config.{Config};
ghost use Rattle.law_model.specs.declared.script_types.Script.{Script};
ghost use Rattle.law_pair.specs.Common.{counts_on, pair_plan, pair_step};
ghost use Rattle.law_pair.specs.declared.pair_events.Way.{Way};
ghost use Rattle.law_pair.specs.declared.pair_events.Way.TheVariants.{There as THERE, Back as BACK};
ghost use Rattle.law_pair.specs.declared.pair_events.PairEvent.TheVariants.{Take};
ghost use Rattle.law_live.specs.Common.{IsPairNetwork, IsPairSaid, PairSaying, both_pass, lands_on, leg_on};
ghost use Rattle.law_live.specs.Common.{now_text, turn_both};
ghost use Rattle.text_got.specs.TextSoFar.{Holds};
ghost use Rattle.terminal_group.specs.Item.{kind_of};
ghost use Rattle.walk_engine.specs.walk_core.WayParts.{waiting_in};
ghost use Rattle.walk_live.specs.PassingRounds.{AreStates, HasStates};
ghost use Rattle.walk_live.specs.declared.asked.Asked.{Asked};
ghost use Rattle.walk_live.specs.declared.asked.Asked.TheVariants.{Members, Steps};
ghost use Rattle.pair_engine.specs.LivePairs.{CanTurn, GoesOn, IsLivePair, PairLives, SameWindows, walking_counts};
ghost use Rattle.pair_live.specs.PairAnswered.{CountsOn, IsPairAnswered, PairAnswers, PairAnswersPart};
ghost use Rattle.pair_live.specs.PairAnswered.{WalksAsPair, numbers_on};
ghost use Rattle.pair_live.specs.PairPassing.{CanPassBoth, HasLinesOf, IsOtherPair, both_frames_text, both_steps_text};
ghost use Rattle.pair_live.specs.PairPassing.{finish_both, frames_text_on, steps_text_on, turn_text, turns_text};
ghost use Rattle.pair_live.specs.PairReplies.{queue_lines_on, step_line_on};

use crate::way_lines::{member_words, tell_queue, tell_refused, tell_step, whose};
use law_model::{Config, MOST_LINES, SourceState};
use octet_io::{ByteSink, Failed};
use pair_engine::{LivePair, Way};
use std::alloc::{AllocError, Global};
use terminal_group::ItemRef;
use text_got::TextBlock;
use walk_engine::walk_core::is_step;
use walk_live::{Asked, MEMBERS_ROOM, TimedLines, lines_of_members, states_of, tell_now};

/// What is kept of a way beside its direction.
#[derive(Clone, Copy)]
pub(crate) struct WayNumbers {
    /// How many lines it has.
    lines: u8,
    /// How many of its items have landed.
    items: u32,
    /// How many of its frames waited when the last pass was over.
    waiting: u16,
}

/// A pair that is told what happens. What it answers waits in a block, or goes out where it is much.
#[derive(Drop)]
pub(crate) struct AnsweredPair {
    pub(crate) pair: LivePair,
    there: WayNumbers,
    back: WayNumbers,
    /// What is told of decision steps and passes.
    tells: Asked,
}

impl WayNumbers {
    /// Before anything has landed.
    fn new(lines: u8) -> WayNumbers
        ensures { result ≡ record { lines = lines; items = 0; waiting = 0 } }
    {
        WayNumbers {
            lines,
            items: 0,
            waiting: 0,
        }
    }

    /// Counts one item more. Answers its number.
    fn count_item(&mut self) -> u32
        ensures number { result ≡ self.old.items }
        ensures counted { self.old.items + 1 < 4294967296 →
            self.new ≡ record self.old { items = self.old.items + 1 } }
    {
        let number = self.items;
        self.items = number.saturating_add(1);
        number
    }
}

impl AnsweredPair {
    /// A pair over two networks to which nothing was said.
    pub(crate) fn new(
        alloc: Global,
        there: Config,
        back: Config,
        tells: Asked,
    ) -> Result<AnsweredPair, AllocError>
        requires { IsPairNetwork there back }
        ensures { IfOk result (λ pair. IsPairAnswered pair tells there back []) }
    {
        let (lines, lines_back) = (there.lines, back.lines);
        let pair = LivePair::new(alloc, there, back)?;
        Ok(AnsweredPair {
            pair,
            there: WayNumbers::new(lines),
            back: WayNumbers::new(lines_back),
            tells,
        })
    }

    /// Lands an item of a way now, and answers why it is refused, where it is.
    pub(crate) fn land<K: ByteSink>(
        &mut self,
        way: Way,
        item: ItemRef,
        block: &mut TextBlock,
        out: &mut K,
    ) -> Result<(), Failed>
        ensures answers { (asked : Asked) (there back : Config) (said : List PairSaying) →
            IsPairAnswered self.old asked there back said →
            IsPairSaid there back (said ++ lands_on way (kind_of item.entry) ∷ []) →
            OnOk result (PairAnswers K.written K.faults out.old out.new block.old block.new
            self.new asked there back said (lands_on way (kind_of item.entry))) }
        ensures part { (asked : Asked) (there back : Config) (said : List PairSaying) →
            IsPairAnswered self.old asked there back said →
            IsPairSaid there back (said ++ lands_on way (kind_of item.entry) ∷ []) →
            OnErr result (PairAnswersPart K.written K.faults out.old out.new block.old
            asked there back said (lands_on way (kind_of item.entry))) }
    {
        let number = self.count_item(way);
        match self.pair.say(way, item) {
            Some(why) => tell_refused(way, number, &why, block, out),
            None => Ok(()),
        }
    }

    /// Lets ticks pass in both ways: rounds are made until so many more ticks are. Answers the decision steps of each
    /// round where they are asked, then the frames that come out with the ticks made by then, then how many frames of
    /// each way wait where that is asked, and last how many ticks have passed.
    pub(crate) fn pass<K: ByteSink>(
        &mut self,
        ticks: u32,
        block: &mut TextBlock,
        out: &mut K,
    ) -> Result<(), Failed>
        requires { (asked : Asked) × (there : Config) × (back : Config) × (said : List PairSaying)
            × IsPairAnswered self.old asked there back said
            × IsPairSaid there back (said ++ both_pass ticks ∷ []) }
        ensures answers { (asked : Asked) (there back : Config) (said : List PairSaying) →
            IsPairAnswered self.old asked there back said →
            IsPairSaid there back (said ++ both_pass ticks ∷ []) →
            OnOk result (PairAnswers K.written K.faults out.old out.new block.old block.new
            self.new asked there back said (both_pass ticks)) }
        ensures part { (asked : Asked) (there back : Config) (said : List PairSaying) →
            IsPairAnswered self.old asked there back said →
            IsPairSaid there back (said ++ both_pass ticks ∷ []) →
            OnErr result (PairAnswersPart K.written K.faults out.old out.new block.old
            asked there back said (both_pass ticks)) }
    {
        let until = self.pair.ticks() + ticks;
        match self.make_rounds(until, block, out) {
            Ok(()) => self.end_pass(until, block, out),
            Err(Failed) => Err(Failed),
        }
    }

    /// Counts one item more of a way. Answers its number.
    fn count_item(&mut self, way: Way) -> u32
        ensures number { result ≡ (numbers_on self.old way).items }
        ensures pair { self.new.pair ≡ self.old.pair }
        ensures counted { (numbers_on self.old way).items + 1 < 4294967296 →
            CountsOn way self.old self.new }
    {
        match way {
            Way::There => self.there.count_item(),
            Way::Back => self.back.count_item(),
        }
    }

    /// Makes rounds until so many ticks are made, and answers each.
    fn make_rounds<K: ByteSink>(
        &mut self,
        until: u32,
        block: &mut TextBlock,
        out: &mut K,
    ) -> Result<(), Failed>
        requires { (asked : Asked) × (there : Config) × (back : Config) × (said : List PairSaying)
            × (k : ℕ) × CanPassBoth self.old asked there back said k until }
        ensures same { IsOtherPair self.old self.new }
        ensures walks { (asked : Asked) (there back : Config) (said : List PairSaying) (k : ℕ) →
            CanPassBoth self.old asked there back said k until →
            OnOk result (WalksAsPair there back (said ++ both_pass k ∷ []) self.new.pair) }
        ensures told { (asked : Asked) (there back : Config) (said : List PairSaying) (k : ℕ) →
            CanPassBoth self.old asked there back said k until →
            OnOk result (Holds K.written K.faults out.old out.new block.new
            (block.old ++ turns_text asked there back said k)) }
        ensures part { (asked : Asked) (there back : Config) (said : List PairSaying) (k : ℕ) →
            CanPassBoth self.old asked there back said k until →
            OnErr result (AppendsPart K.written K.faults out.old out.new
            (block.old ++ turns_text asked there back said k)) }
    {
        while self.pair.ticks() < until {
            match self.round(block, out) {
                Ok(()) => {}
                Err(Failed) => return Err(Failed),
            }
        }
        Ok(())
    }

    /// Tells how many frames of each way wait, where that is asked and isn't the number before, and how many ticks
    /// have passed.
    fn end_pass<K: ByteSink>(
        &mut self,
        ticks: u32,
        block: &mut TextBlock,
        out: &mut K,
    ) -> Result<(), Failed>
        ensures same { self.new ≡ record self.old {
          there = record self.old.there { waiting = self.new.there.waiting };
          back = record self.old.back { waiting = self.new.back.waiting };
        } }
        ensures waits { (one other : Script) → PairLives one other self.old.pair → (way : Way) →
            (numbers_on self.new way).waiting
            ≡ waiting_in (leg_on one other way) (counts_on (walking_counts self.old.pair) way) }
        ensures told { OnOk result (Holds K.written K.faults out.old out.new block.new (block.old
            ++ (queue_lines_on self.old.tells THERE self.old.there.waiting self.new.there.waiting
            ++ (queue_lines_on self.old.tells BACK self.old.back.waiting self.new.back.waiting
            ++ now_text ticks)))) }
        ensures part { OnErr result (AppendsPart K.written K.faults out.old out.new (block.old
            ++ (queue_lines_on self.old.tells THERE self.old.there.waiting self.new.there.waiting
            ++ (queue_lines_on self.old.tells BACK self.old.back.waiting self.new.back.waiting
            ++ now_text ticks)))) }
    {
        let (there, back) = (self.there.waiting, self.back.waiting);
        self.there.waiting = self.pair.waiting(Way::There);
        self.back.waiting = self.pair.waiting(Way::Back);
        match tell_queue(
            self.tells,
            Way::There,
            there,
            self.there.waiting,
            block,
            out,
        ) {
            Ok(()) => {}
            Err(Failed) => return Err(Failed),
        }
        match tell_queue(self.tells, Way::Back, back, self.back.waiting, block, out) {
            Ok(()) => tell_now(ticks, block, out),
            Err(Failed) => Err(Failed),
        }
    }

    /// Makes a round, and answers the decision steps and the frames of it.
    fn round<K: ByteSink>(&mut self, block: &mut TextBlock, out: &mut K) -> Result<(), Failed>
        requires few { (way : Way) → (numbers_on self.old way).lines ≤ most_lines }
        requires ready { (one : Script) × (other : Script) × CanTurn one other self.old.pair }
        requires left { self.old.pair.there.core.source.core.ticks
            < self.old.pair.there.core.source.total }
        ensures same { IsOtherPair self.old self.new }
        ensures windows { SameWindows self.old.pair self.new.pair }
        ensures turns { (one other : Script) → CanTurn one other self.old.pair →
            OnOk result (GoesOn one other
            (turn_both (pair_plan one other) (walking_counts self.old.pair)) self.new.pair) }
        ensures told { (one other : Script) → CanTurn one other self.old.pair →
            HasLinesOf self.old one other →
            OnOk result (Holds K.written K.faults out.old out.new block.new
            (block.old ++ turn_text self.old.tells one other (walking_counts self.old.pair))) }
        ensures part { (one other : Script) → CanTurn one other self.old.pair →
            HasLinesOf self.old one other →
            OnErr result (AppendsPart K.written K.faults out.old out.new
            (block.old ++ turn_text self.old.tells one other (walking_counts self.old.pair))) }
    {
        let before = self.pair.ticks();
        let there = self.states(Way::There);
        let back = self.states(Way::Back);
        self.pair.tick();
        match self.tell_steps(before, &there, &back, block, out) {
            Ok(()) => self.finish_round(block, out),
            Err(Failed) => Err(Failed),
        }
    }

    /// What is kept of a way.
    fn numbers(&self, way: Way) -> WayNumbers
        ensures { result ≡ numbers_on self.now way }
    {
        match way {
            Way::There => self.there,
            Way::Back => self.back,
        }
    }

    /// The state of each line of a way, where members are told and a decision step comes next.
    fn states(&self, way: Way) -> [SourceState; MOST_LINES]
        requires { (numbers_on self.now way).lines ≤ most_lines }
        ensures { (one other : Script) → PairLives one other self.now.pair →
            HasStates self.now.tells (leg_on one other way) (numbers_on self.now way).lines
            (walking_counts self.now.pair).there.ticks result }
    {
        if self.tells == Asked::Members && self.pair.ticks() % 16 == 8 {
            states_of(self.pair.table(way), self.numbers(way).lines)
        } else {
            [SourceState::Idle; MOST_LINES]
        }
    }

    /// Tells the decision steps that were made since a number of ticks, where they were, that of the way there first;
    /// `there` and `back` are the states of the lines by then.
    fn tell_steps<K: ByteSink>(
        &self,
        before: u32,
        there: &[SourceState],
        back: &[SourceState],
        block: &mut TextBlock,
        out: &mut K,
    ) -> Result<(), Failed>
        requires lives { IsLivePair self.now.pair }
        requires few { (way : Way) → (numbers_on self.now way).lines ≤ most_lines }
        requires size { self.now.there.lines ≤ length there.now }
        requires size_back { self.now.back.lines ≤ length back.now }
        requires least { before ≤ (walking_counts self.now.pair).there.ticks }
        requires most { (walking_counts self.now.pair).there.ticks ≤ before + 1 }
        ensures told { (one other : Script) → PairLives one other self.now.pair →
            HasLinesOf self.now one other →
            HasStates self.now.tells (leg_on one other THERE) self.now.there.lines before
            there.now →
            HasStates self.now.tells (leg_on one other BACK) self.now.back.lines before back.now →
            OnOk result (Holds K.written K.faults out.old out.new block.new
            (block.old ++ both_steps_text self.now.tells one other before
            (walking_counts self.now.pair).there.ticks)) }
        ensures part { (one other : Script) → PairLives one other self.now.pair →
            HasLinesOf self.now one other →
            HasStates self.now.tells (leg_on one other THERE) self.now.there.lines before
            there.now →
            HasStates self.now.tells (leg_on one other BACK) self.now.back.lines before back.now →
            OnErr result (AppendsPart K.written K.faults out.old out.new
            (block.old ++ both_steps_text self.now.tells one other before
            (walking_counts self.now.pair).there.ticks)) }
    {
        match self.tell_step(Way::There, before, there, block, out) {
            Ok(()) => self.tell_step(Way::Back, before, back, block, out),
            Err(Failed) => Err(Failed),
        }
    }

    /// Tells the decision step of a way that was made since a number of ticks, where one was; `states` are those of
    /// its lines by then.
    fn tell_step<K: ByteSink>(
        &self,
        way: Way,
        before: u32,
        states: &[SourceState],
        block: &mut TextBlock,
        out: &mut K,
    ) -> Result<(), Failed>
        requires lives { IsLivePair self.now.pair }
        requires few { (numbers_on self.now way).lines ≤ most_lines }
        requires size { (numbers_on self.now way).lines ≤ length states.now }
        requires least { before ≤ (walking_counts self.now.pair).there.ticks }
        requires most { (walking_counts self.now.pair).there.ticks ≤ before + 1 }
        ensures told { (one other : Script) → PairLives one other self.now.pair →
            HasLinesOf self.now one other →
            HasStates self.now.tells (leg_on one other way) (numbers_on self.now way).lines before
            states.now → OnOk result (Holds K.written K.faults out.old out.new block.new
            (block.old ++ steps_text_on self.now.tells one other way before
            (walking_counts self.now.pair).there.ticks)) }
        ensures part { (one other : Script) → PairLives one other self.now.pair →
            HasLinesOf self.now one other →
            HasStates self.now.tells (leg_on one other way) (numbers_on self.now way).lines before
            states.now → OnErr result (AppendsPart K.written K.faults out.old out.new
            (block.old ++ steps_text_on self.now.tells one other way before
            (walking_counts self.now.pair).there.ticks)) }
    {
        if !is_step(before, self.pair.ticks()) {
            return Ok(());
        }
        match self.tells {
            Asked::Nothing => Ok(()),
            Asked::Steps => self.tell_packet(way, block, out),
            Asked::Members => self.tell_members(way, states, block, out),
        }
    }

    /// Adds a line for each line of a way whose code isn't that of these states.
    fn tell_members<K: ByteSink>(
        &self,
        way: Way,
        states: &[SourceState],
        block: &mut TextBlock,
        out: &mut K,
    ) -> Result<(), Failed>
        requires few { (numbers_on self.now way).lines ≤ most_lines }
        requires size { (numbers_on self.now way).lines ≤ length states.now }
        ensures told { (one other : Script) (j : ℕ) → PairLives one other self.now.pair →
            HasLinesOf self.now one other →
            (walking_counts self.now.pair).there.ticks ≡ 16 * j + 9 →
            AreStates (leg_on one other way) (numbers_on self.now way).lines (16 * j + 8)
            states.now →
            OnOk result (Holds K.written K.faults out.old out.new block.new
            (block.old ++ step_line_on Members one other way j)) }
        ensures part { (one other : Script) (j : ℕ) → PairLives one other self.now.pair →
            HasLinesOf self.now one other →
            (walking_counts self.now.pair).there.ticks ≡ 16 * j + 9 →
            AreStates (leg_on one other way) (numbers_on self.now way).lines (16 * j + 8)
            states.now →
            OnErr result (AppendsPart K.written K.faults out.old out.new
            (block.old ++ step_line_on Members one other way j)) }
    {
        let mut text = [0u8; MEMBERS_ROOM];
        let end = lines_of_members(
            member_words(way),
            self.pair.ticks(),
            states,
            self.pair.table(way),
            self.numbers(way).lines,
            &mut text,
        );
        block.add(&text[..end], out)
    }

    /// Adds the line of the last decision step of a way.
    fn tell_packet<K: ByteSink>(
        &self,
        way: Way,
        block: &mut TextBlock,
        out: &mut K,
    ) -> Result<(), Failed>
        requires few { (numbers_on self.now way).lines ≤ most_lines }
        requires made { 0 < steps_in (counts_on (walking_counts self.now.pair) way).ticks }
        ensures told { (one other : Script) (j : ℕ) → PairLives one other self.now.pair →
            HasLinesOf self.now one other →
            steps_in (counts_on (walking_counts self.now.pair) way).ticks ≡ j + 1 →
            OnOk result (Holds K.written K.faults out.old out.new block.new
            (block.old ++ step_line_on Steps one other way j)) }
        ensures part { (one other : Script) (j : ℕ) → PairLives one other self.now.pair →
            HasLinesOf self.now one other →
            steps_in (counts_on (walking_counts self.now.pair) way).ticks ≡ j + 1 →
            OnErr result (AppendsPart K.written K.faults out.old out.new
            (block.old ++ step_line_on Steps one other way j)) }
    {
        match self.pair.last_step(way) {
            Some(note) => tell_step(
                way,
                note,
                self.pair.table(way),
                self.numbers(way).lines,
                block,
                out,
            ),
            None => Ok(()),
        }
    }

    /// Tries all of a round but its tick, and adds the lines of the frames that come out, those of the way there
    /// first.
    fn finish_round<K: ByteSink>(
        &mut self,
        block: &mut TextBlock,
        out: &mut K,
    ) -> Result<(), Failed>
        requires { IsLivePair self.old.pair }
        ensures same { IsOtherPair self.old self.new }
        ensures windows { SameWindows self.old.pair self.new.pair }
        ensures finishes { (one other : Script) → PairLives one other self.old.pair →
            OnOk result (GoesOn one other
            (finish_both (pair_plan one other) (walking_counts self.old.pair)) self.new.pair) }
        ensures told { (one other : Script) → PairLives one other self.old.pair →
            OnOk result (Holds K.written K.faults out.old out.new block.new (block.old
            ++ both_frames_text one other (walking_counts self.old.pair)
            (finish_both (pair_plan one other) (walking_counts self.old.pair)))) }
        ensures part { (one other : Script) → PairLives one other self.old.pair →
            OnErr result (AppendsPart K.written K.faults out.old out.new (block.old
            ++ both_frames_text one other (walking_counts self.old.pair)
            (finish_both (pair_plan one other) (walking_counts self.old.pair)))) }
    {
        self.pair.carry_all(Way::There);
        self.pair.carry_all(Way::Back);
        match self.take(Way::There, block, out) {
            Ok(()) => self.take(Way::Back, block, out),
            Err(Failed) => Err(Failed),
        }
    }

    /// Tries a row of a way, and adds the lines of the frames that come out.
    fn take<K: ByteSink>(
        &mut self,
        way: Way,
        block: &mut TextBlock,
        out: &mut K,
    ) -> Result<(), Failed>
        requires { IsLivePair self.old.pair }
        ensures same { IsOtherPair self.old self.new }
        ensures windows { SameWindows self.old.pair self.new.pair }
        ensures takes { (one other : Script) → PairLives one other self.old.pair →
            GoesOn one other (pair_step (pair_plan one other) (walking_counts self.old.pair)
            (Take way)).counts self.new.pair }
        ensures told { (one other : Script) → PairLives one other self.old.pair →
            OnOk result (Holds K.written K.faults out.old out.new block.new (block.old
            ++ frames_text_on one other way (walking_counts self.old.pair)
            (walking_counts self.new.pair))) }
        ensures part { (one other : Script) → PairLives one other self.old.pair →
            OnErr result (AppendsPart K.written K.faults out.old out.new (block.old
            ++ frames_text_on one other way (walking_counts self.old.pair)
            (walking_counts self.new.pair))) }
    {
        let mut lines = TimedLines::new(whose(way), self.pair.ticks(), block, out);
        self.pair.take(way, &mut lines);
        lines.end()
    }
}
