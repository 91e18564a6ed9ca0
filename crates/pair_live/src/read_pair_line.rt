//! What is kept of live lines of both ways, by which later ones are tested.
ghost use Rattle.std.specs.Prelude.{◌≡◌, ◌≢◌, ℕ, ◌≤◌, List, [], ◌∷◌, length, true, false, None, Some};
ghost use Rattle.std.specs.Prelude.{IfOk, IfErr, IfSome, IfNone, vec_capacity};
ghost use Rattle.text_lines.specs.WordsOfLine.{words};
ghost use Rattle.law_model.specs.Common.{longest_offer};
ghost use Rattle.law_model.specs.declared.script_types.Config.{Config};
ghost use Rattle.law_live.specs.Common.{IsPairNetwork, opened};
ghost use Rattle.pair_live.specs.PairLines.{PairSaid, both_now, is_pass, pass_fault, way_line_fault};
ghost use Rattle.pair_live.specs.PairLines.{pair_rest_fault, way_named};
ghost use Rattle.pair_live.specs.PairReaderStands.{AreKept, AreRooms, KeepsBoth, KeepsPair, ReadsBoth};

use crate::live_pair_fault::PairLineFault;
use crate::live_pair_line::LivePairLine;
use law_model::Config;
use law_pair::Way;
use std::alloc::{AllocError, Global};
use text_lines::{count_words, next_word, one_word, spells};
use text_live::{LiveKeyword, LiveState, count_fault};

/// What is kept of live lines of both ways. In each as many ticks have passed.
#[derive(Drop)]
pub(crate) struct BothStates {
    /// Of those of the way there.
    pub there: LiveState,
    /// Of those of the way back.
    pub back: LiveState,
}

/// Whether a line says that ticks pass.
fn is_pass(keyword: LiveKeyword) -> bool
    ensures { result ≡ is_pass keyword }
{
    match keyword {
        LiveKeyword::Frame => false,
        LiveKeyword::Add => false,
        LiveKeyword::Remove => false,
        LiveKeyword::Cut => false,
        LiveKeyword::Mend => false,
        LiveKeyword::Pass => true,
    }
}

/// The way that a word names.
fn way_named(word: &[u8]) -> Option<Way>
    ensures { result ≡ way_named word.now }
{
    if spells(word, b"there") {
        Some(Way::There)
    } else if spells(word, b"back") {
        Some(Way::Back)
    } else {
        None
    }
}

/// The words of a line that has two.
fn two_words(line: &[u8]) -> Option<(&[u8], &[u8])>
    ensures some { IfSome result (λ parts. words line.now ≡ parts.0.now ∷ parts.1.now ∷ []) }
    ensures none { IfNone result (length (words line.now) ≢ 2) }
{
    let Some((first, rest)) = next_word(line) else {
        return None;
    };
    match one_word(rest) {
        Some(second) => Some((first, second)),
        None => None,
    }
}

impl BothStates {
    /// Nothing, with room for what is kept of 128 lines of each way.
    pub(crate) fn new(alloc: Global) -> Result<BothStates, AllocError>
        ensures { IfOk result AreRooms }
    {
        Ok(BothStates {
            there: LiveState::new(alloc)?,
            back: LiveState::new(alloc)?,
        })
    }

    /// What is kept before the first tick.
    pub(crate) fn open(&mut self, there: &Config, back: &Config)
        requires room { AreRooms self.old }
        requires network { IsPairNetwork there.now back.now }
        ensures kept { AreKept self.new }
        ensures keeps { KeepsBoth self.new there.now back.now
            (record { there = opened there.now; back = opened back.now }) }
    {
        self.there.open(there);
        self.back.open(back);
    }

    /// Reads what happens in a way.
    fn read_of_way(
        &mut self,
        keyword: LiveKeyword,
        rest: &[u8],
        octets: &mut Vec<u8>,
    ) -> Result<LivePairLine, PairLineFault>
        requires kept { AreKept self.old }
        requires room { longest_offer ≤ vec_capacity octets.old }
        requires happens { is_pass keyword ≡ false }
        ensures kept { AreKept self.new }
        ensures room { longest_offer ≤ vec_capacity octets.new }
        ensures ok { (s : PairSaid) → KeepsPair self.old s (both_now s) → IfOk result (λ said.
            ReadsBoth self.new octets.new.items s keyword (words rest.now) said) }
        ensures err { (s : PairSaid) → KeepsPair self.old s (both_now s) →
            IfErr result (λ fault. way_line_fault s keyword (words rest.now) ≡ Some fault) }
    {
        let Some((word, value)) = two_words(rest) else {
            return Err(PairLineFault::Count {
                keyword,
                follow: count_words(rest) as u64,
            });
        };
        match way_named(word) {
            Some(Way::There) => match self.there.read(keyword, value, 3, octets) {
                Ok(line) => Ok(LivePairLine::of_way(Way::There, line)),
                Err(fault) => Err(PairLineFault::Live(fault)),
            },
            Some(Way::Back) => match self.back.read(keyword, value, 3, octets) {
                Ok(line) => Ok(LivePairLine::of_way(Way::Back, line)),
                Err(fault) => Err(PairLineFault::Live(fault)),
            },
            None => Err(PairLineFault::Way),
        }
    }

    /// Reads that ticks pass in both ways.
    fn pass(&mut self, rest: &[u8]) -> Result<LivePairLine, PairLineFault>
        requires kept { AreKept self.old }
        ensures kept { AreKept self.new }
        ensures ok { (s : PairSaid) → KeepsPair self.old s (both_now s) → IfOk result (λ said.
            (octets : List ℕ) →
            ReadsBoth self.new octets s LiveKeyword.Pass (words rest.now) said) }
        ensures err { (s : PairSaid) → KeepsPair self.old s (both_now s) →
            IfErr result (λ fault. pass_fault s (words rest.now) ≡ Some fault) }
    {
        let Some(word) = one_word(rest) else {
            return Err(PairLineFault::Live(count_fault(LiveKeyword::Pass, rest)));
        };
        match self.there.pass(word, 2) {
            Ok(ticks) => {
                self.back.pass_ticks(ticks);
                Ok(LivePairLine::Pass(ticks))
            }
            Err(fault) => Err(PairLineFault::Live(fault)),
        }
    }

    /// Reads the words behind the keyword of a live line. The octets of a frame stand in `octets` then.
    pub(crate) fn read(
        &mut self,
        keyword: LiveKeyword,
        rest: &[u8],
        octets: &mut Vec<u8>,
    ) -> Result<LivePairLine, PairLineFault>
        requires kept { AreKept self.old }
        requires room { longest_offer ≤ vec_capacity octets.old }
        ensures kept { AreKept self.new }
        ensures room { longest_offer ≤ vec_capacity octets.new }
        ensures ok { (s : PairSaid) → KeepsPair self.old s (both_now s) → IfOk result (λ said.
            ReadsBoth self.new octets.new.items s keyword (words rest.now) said) }
        ensures err { (s : PairSaid) → KeepsPair self.old s (both_now s) →
            IfErr result (λ fault. pair_rest_fault s keyword (words rest.now) ≡ Some fault) }
    {
        if is_pass(keyword) {
            self.pass(rest)
        } else {
            self.read_of_way(keyword, rest, octets)
        }
    }
}
