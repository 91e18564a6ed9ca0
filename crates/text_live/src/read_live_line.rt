//! What is kept of live lines: the ticks that have passed, and how it stands with each line of the group.
ghost use Rattle.std.specs.Prelude.{◌≡◌, ◌≢◌, ℕ, ◌+◌, ◌≤◌, List, length, IfOk, IfErr, OnOk, None, Some};
ghost use Rattle.std.specs.Prelude.{vec_capacity};
ghost use Rattle.law_model.specs.declared.script_types.Config.{Config};
ghost use Rattle.text_lines.specs.WordsOfLine.{words, number_of, octets_of};
ghost use Rattle.text_lines.specs.Fields.{within};
ghost use Rattle.law_model.specs.Common.{IsNetwork, longest_offer, most_windows};
ghost use Rattle.law_live.specs.LiveSayings.{Live, live_after, opened, passes, uncut};
ghost use Rattle.text_live.specs.LiveLines.{cut_fault_by, mend_fault_by, value_fault, word_fault};
ghost use Rattle.text_live.specs.LiveReaderStands.{Keeps, IsKept, IsRoom, HasFew, Reads, mended_state, state_of};
ghost use Rattle.text_live.specs.LiveReaderStands.{command_fault, frame_fault};

use crate::frame_digits::read_octets;
use crate::live_fault::LiveLineFault;
use crate::live_keyword::LiveKeyword;
use crate::live_line::LiveLine;
use law_model::{Config, MOST_LINES, MOST_WINDOWS, WindowList};
use std::alloc::{AllocError, Global};
use text_lines::{count_words, number_within};

/// What is kept of a line of the group.
#[derive(Clone, Copy)]
pub struct LineState {
    /// How many failures it has whose end is known.
    pub failures: u16,
    /// Where the last of them ends.
    pub end: u32,
    /// The first container of a failure whose end isn't known.
    pub cut: Option<u32>,
}

/// What is kept of live lines.
#[derive(Drop)]
pub struct LiveState {
    /// The number of ticks.
    pub ticks: u32,
    /// How many have passed.
    pub passed: u32,
    /// The lines of the group.
    pub lines: Vec<LineState>,
}

/// The fault of a line that has not one word behind its first.
pub fn count_fault(keyword: LiveKeyword, rest: &[u8]) -> LiveLineFault
    ensures { result ≡ LiveLineFault.Count keyword (length (words rest.now)) }
{
    LiveLineFault::Count {
        keyword,
        follow: count_words(rest) as u64,
    }
}

/// What is kept of a line before it is cut.
fn before_cut(list: &WindowList) -> LineState
    requires { length list.now ≤ most_windows }
    ensures { result ≡ state_of (uncut list.now) }
{
    let end = match list.0.last() {
        Some(window) => window.end,
        None => 0,
    };
    LineState {
        failures: list.0.len() as u16,
        end,
        cut: None,
    }
}

/// Word `place` of a line, which is a number from `least` to `most`.
fn value_within(word: &[u8], place: u64, least: u64, most: u64) -> Result<u64, LiveLineFault>
    ensures fine { OnOk result (word_fault (within least most) place word.now ≡ None) }
    ensures number { IfOk result (λ n. n ≡ number_of word.now) }
    ensures fits { IfOk result (λ n. (least ≤ n) × (n ≤ most)) }
    ensures err { IfErr result (λ fault.
        word_fault (within least most) place word.now ≡ Some fault) }
{
    Ok(number_within(word, place, least, most)?)
}

impl LineState {
    /// What is wrong with a failure of line `member` that begins now.
    fn cut_fault(self, ticks: u32, passed: u32, member: u8) -> Option<LiveLineFault>
        requires { HasFew self }
        ensures { result ≡ cut_fault_by ticks passed member self.failures self.end self.cut }
    {
        if self.failures + u16::from(self.cut.is_some()) >= MOST_WINDOWS as u16 {
            return Some(LiveLineFault::FullLine { line: member });
        }
        if passed == ticks {
            return Some(LiveLineFault::LastTick);
        }
        if self.cut.is_some() {
            return Some(LiveLineFault::CutAlready { line: member });
        }
        if passed < self.end {
            return Some(LiveLineFault::FailureBefore { end: self.end });
        }
        None
    }

    /// What is wrong with the end of one.
    fn mend_fault(self, ticks: u32, passed: u32, member: u8) -> Option<LiveLineFault>
        ensures { result ≡ mend_fault_by ticks passed member self.cut }
    {
        if passed == ticks {
            return Some(LiveLineFault::LastTick);
        }
        if self.cut.is_none() {
            return Some(LiveLineFault::NotCut { line: member });
        }
        None
    }

    /// What is kept of the line once its failure has ended. One that damaged no container is none.
    fn mended(self, passed: u32) -> LineState
        requires { HasFew self }
        ensures state { result ≡ mended_state passed self }
        ensures few { HasFew result }
    {
        match self.cut {
            Some(first) if first < passed => LineState {
                failures: self.failures + 1,
                end: passed,
                cut: None,
            },
            _ => LineState { cut: None, ..self },
        }
    }
}

impl LiveState {
    /// Nothing, with room for what is kept of 128 lines.
    pub fn new(alloc: Global) -> Result<LiveState, AllocError>
        ensures { IfOk result IsRoom }
    {
        Ok(LiveState {
            ticks: 0,
            passed: 0,
            lines: Vec::with_capacity(alloc, MOST_LINES)?,
        })
    }

    /// What is kept before the first tick.
    pub fn open(&mut self, config: &Config)
        requires room { IsRoom self.old }
        requires network { IsNetwork config.now }
        ensures kept { IsKept self.new }
        ensures keeps { Keeps self.new config.now (opened config.now) }
    {
        self.ticks = config.ticks;
        self.passed = 0;
        for list in &config.windows.0 {
            self.lines.push_reserved(before_cut(list));
        }
    }

    /// Reads that a command is given, and the line that it names.
    fn read_command(&self, word: &[u8], place: u64) -> Result<u8, LiveLineFault>
        ensures fine { OnOk result
            (command_fault self.now.ticks self.now.passed place word.now ≡ None) }
        ensures number { IfOk result (λ n. n ≡ number_of word.now) }
        ensures err { IfErr result (λ fault.
            command_fault self.now.ticks self.now.passed place word.now ≡ Some fault) }
    {
        let line = match value_within(word, place, 0, 255) {
            Ok(line) => line as u8,
            Err(fault) => return Err(fault),
        };
        if self.passed == self.ticks {
            return Err(LiveLineFault::LastTick);
        }
        Ok(line)
    }

    /// Reads that a frame is sent.
    fn read_frame(&self, word: &[u8], place: u64, octets: &mut Vec<u8>) -> Result<(), LiveLineFault>
        requires { longest_offer ≤ vec_capacity octets.old }
        ensures room { longest_offer ≤ vec_capacity octets.new }
        ensures fine { OnOk result
            (frame_fault self.now.ticks self.now.passed place word.now ≡ None) }
        ensures octets { OnOk result (octets.new.items ≡ octets_of word.now) }
        ensures err { IfErr result (λ fault.
            frame_fault self.now.ticks self.now.passed place word.now ≡ Some fault) }
    {
        match read_octets(word, place, octets) {
            Ok(()) => {}
            Err(fault) => return Err(LiveLineFault::Field(fault)),
        }
        if self.passed == self.ticks {
            return Err(LiveLineFault::LastTick);
        }
        Ok(())
    }

    /// Reads that a line is cut.
    fn cut(&mut self, word: &[u8], place: u64) -> Result<u8, LiveLineFault>
        requires { IsKept self.old }
        ensures kept { IsKept self.new }
        ensures ticks { self.new.ticks ≡ self.old.ticks }
        ensures passed { self.new.passed ≡ self.old.passed }
        ensures ok { (octets : List ℕ) (c : Config) (live : Live) → Keeps self.old c live →
            IfOk result
            (λ n. Reads self.new octets c live LiveKeyword.Cut place word.now (LiveLine.Cut n)) }
        ensures err { (c : Config) (live : Live) → Keeps self.old c live →
            IfErr result (λ fault.
            value_fault c live LiveKeyword.Cut place word.now ≡ Some fault) }
    {
        let most = self.lines.len() as u64 - 1;
        let member = match value_within(word, place, 0, most) {
            Ok(member) => member as u8,
            Err(fault) => return Err(fault),
        };
        let line = &mut self.lines[usize::from(member)];
        if let Some(fault) = line.cut_fault(self.ticks, self.passed, member) {
            return Err(fault);
        }
        line.cut = Some(self.passed);
        Ok(member)
    }

    /// Reads that it is mended.
    fn mend(&mut self, word: &[u8], place: u64) -> Result<u8, LiveLineFault>
        requires { IsKept self.old }
        ensures kept { IsKept self.new }
        ensures ticks { self.new.ticks ≡ self.old.ticks }
        ensures passed { self.new.passed ≡ self.old.passed }
        ensures ok { (octets : List ℕ) (c : Config) (live : Live) → Keeps self.old c live →
            IfOk result
            (λ n. Reads self.new octets c live LiveKeyword.Mend place word.now (LiveLine.Mend n)) }
        ensures err { (c : Config) (live : Live) → Keeps self.old c live →
            IfErr result (λ fault.
            value_fault c live LiveKeyword.Mend place word.now ≡ Some fault) }
    {
        let most = self.lines.len() as u64 - 1;
        let member = match value_within(word, place, 0, most) {
            Ok(member) => member as u8,
            Err(fault) => return Err(fault),
        };
        let line = &mut self.lines[usize::from(member)];
        if let Some(fault) = line.mend_fault(self.ticks, self.passed, member) {
            return Err(fault);
        }
        *line = line.mended(self.passed);
        Ok(member)
    }

    /// So many ticks pass.
    pub fn pass_ticks(&mut self, ticks: u32)
        requires kept { IsKept self.old }
        requires left { self.old.passed + ticks ≤ self.old.ticks }
        ensures kept { IsKept self.new }
        ensures ticks { self.new.ticks ≡ self.old.ticks }
        ensures passed { self.new.passed ≡ self.old.passed + ticks }
        ensures keeps { (c : Config) (live : Live) → Keeps self.old c live →
            Keeps self.new c (live_after live (passes ticks)) }
    {
        self.passed += ticks;
    }

    /// Reads that ticks pass: word `place` of a line says how many.
    pub fn pass(&mut self, word: &[u8], place: u64) -> Result<u32, LiveLineFault>
        requires { IsKept self.old }
        ensures kept { IsKept self.new }
        ensures ticks { self.new.ticks ≡ self.old.ticks }
        ensures left { IfOk result (λ n. self.old.passed + n ≤ self.old.ticks) }
        ensures passed { IfOk result (λ n. self.new.passed ≡ self.old.passed + n) }
        ensures stays { IfErr result (λ _. self.new.passed ≡ self.old.passed) }
        ensures ok { (octets : List ℕ) (c : Config) (live : Live) → Keeps self.old c live →
            IfOk result
            (λ n. Reads self.new octets c live LiveKeyword.Pass place word.now (LiveLine.Pass n)) }
        ensures err { (c : Config) (live : Live) → Keeps self.old c live →
            IfErr result (λ fault.
            value_fault c live LiveKeyword.Pass place word.now ≡ Some fault) }
    {
        let most = u64::from(self.ticks - self.passed);
        let ticks = match value_within(word, place, 1, most) {
            Ok(ticks) => ticks as u32,
            Err(fault) => return Err(fault),
        };
        self.passed += ticks;
        Ok(ticks)
    }

    /// Reads word `place` of a live line, which says what happens. The octets of a frame stand in `octets` then.
    pub fn read(
        &mut self,
        keyword: LiveKeyword,
        word: &[u8],
        place: u64,
        octets: &mut Vec<u8>,
    ) -> Result<LiveLine, LiveLineFault>
        requires kept { IsKept self.old }
        requires room { longest_offer ≤ vec_capacity octets.old }
        ensures kept { IsKept self.new }
        ensures room { longest_offer ≤ vec_capacity octets.new }
        ensures ticks { self.new.ticks ≡ self.old.ticks }
        ensures passed { keyword ≢ LiveKeyword.Pass → self.new.passed ≡ self.old.passed }
        ensures ok { (c : Config) (live : Live) → Keeps self.old c live → IfOk result (λ said.
            Reads self.new octets.new.items c live keyword place word.now said) }
        ensures err { (c : Config) (live : Live) → Keeps self.old c live →
            IfErr result (λ fault. value_fault c live keyword place word.now ≡ Some fault) }
    {
        match keyword {
            LiveKeyword::Frame => {
                self.read_frame(word, place, octets)?;
                Ok(LiveLine::Frame)
            }
            LiveKeyword::Add => Ok(LiveLine::Add(self.read_command(word, place)?)),
            LiveKeyword::Remove => Ok(LiveLine::Remove(self.read_command(word, place)?)),
            LiveKeyword::Cut => Ok(LiveLine::Cut(self.cut(word, place)?)),
            LiveKeyword::Mend => Ok(LiveLine::Mend(self.mend(word, place)?)),
            LiveKeyword::Pass => Ok(LiveLine::Pass(self.pass(word, place)?)),
        }
    }
}
