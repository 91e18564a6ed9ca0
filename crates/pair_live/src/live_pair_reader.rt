//! A live text of both ways, line by line.
ghost use Rattle.std.specs.Prelude.{◌≡◌, ℕ, ◌+◌, List, true, false, Some, None, Err, IfOk, IfErr, OnOk, OnErr, IfSome};
ghost use Rattle.text_lines.specs.WordsOfLine.{words};
ghost use Rattle.law_model.specs.declared.script_types.Script.{Script};
ghost use Rattle.text_scripts.specs.script_read.ScriptInPieces.{IsReader, IsUntested, HasNumbersLeft, next_number};
ghost use Rattle.text_live.specs.LiveReaderStands.{IsEarlierLine, IsLiveLine};
ghost use Rattle.pair_live.specs.PairLines.{PairSaid, nothing_said, pair_divides};
ghost use Rattle.pair_live.specs.PairLines.{pair_opening_fault, opening_by, there_config, back_config};
ghost use Rattle.pair_live.specs.PairReaderStands.{IsLivePairReader, IsPairAt, IsPairToldAt, HasPairLinesLeft};
ghost use Rattle.pair_live.specs.PairReaderStands.{ReadsPairLine, StopsPair, HandsOutBoth, SaysSettings};
ghost use Rattle.pair_live.specs.PairReaderStands.{pair_failure, pair_number, waiting_configs, pair_frame};
ghost use Rattle.pair_live.specs.PairReaderStands.{pair_opened, pair_begun, ArePairConfigs};

use crate::live_pair_fault::{LivePairFault, PairLineFault};
use crate::live_pair_line::LivePairLine;
use crate::read_pair_line::BothStates;
use law_model::{Config, LONGEST_OFFER, Script};
use std::alloc::{AllocError, Global};
use text_lines::first_word;
use text_live::{EarlierPart, FirstWord, LiveKeyword, LiveLineFault};
use text_pairs::{PairFault, ScriptPair, is_division, limits_fault};
use text_scripts::script_read::ScriptReader;

/// Reads a live text of both ways line by line. It keeps no item and no failure, but what later lines are tested by.
/// Memory is taken by `new` and by lines of the configurations and of windows.
#[derive(Drop)]
pub struct LivePairReader {
    // Where the lines of scripts take memory.
    alloc: Global,
    // The number of the next line.
    number: u32,
    // The first script, from the line that divides until the first live one.
    first: Option<Script>,
    // What the lines of the script that goes on say before the first live one.
    settings: Option<ScriptReader>,
    // The configurations, from the first live line until they are handed out.
    configs: Option<(Config, Config)>,
    // What the live lines say.
    states: BothStates,
    // The octets of the last frame.
    octets: Vec<u8>,
    // Why it doesn't read on.
    fault: Option<LivePairFault>,
}

/// The configurations that lines of two scripts say, where they are whole and fit together.
fn opened(first: Option<Script>, reader: ScriptReader) -> Result<(Config, Config), LivePairFault>
    requires reader { IsReader reader }
    requires room { HasNumbersLeft reader 0 }
    requires first { IfSome first IsUntested }
    ensures fine { (s : PairSaid) → SaysSettings first reader s →
        IfOk result (λ _. opening_by None s ≡ None) }
    ensures configs { (s : PairSaid) → SaysSettings first reader s →
        IfOk result (λ both. both ≡ (there_config s, back_config s)) }
    ensures network { IfOk result ArePairConfigs }
    ensures fault { (s : PairSaid) → SaysSettings first reader s → IfErr result (λ fault.
        IsPairToldAt (next_number reader) (opening_by None s) fault) }
{
    let number = reader.next_number();
    let back = match reader.end() {
        Ok(script) => script,
        Err(fault) => return Err(LivePairFault::Pair(PairFault::Script(fault))),
    };
    let Some(there) = first else {
        return Err(LivePairFault::Pair(PairFault::Undivided { number }));
    };
    let pair = ScriptPair { there, back };
    if let Some(fault) = limits_fault(&pair) {
        return Err(LivePairFault::Pair(fault));
    }
    let there = pair.there;
    let back = pair.back;
    Ok((there.config, back.config))
}

impl LivePairReader {
    /// A reader that has read nothing.
    pub fn new(alloc: Global) -> Result<LivePairReader, AllocError>
        ensures reader { IfOk result IsLivePairReader }
        ensures at { IfOk result (λ reader. IsPairAt reader 1 nothing_said) }
    {
        Ok(LivePairReader {
            alloc,
            number: 1,
            first: None,
            settings: Some(ScriptReader::from_line(alloc, 1)),
            configs: None,
            states: BothStates::new(alloc)?,
            octets: Vec::with_capacity(alloc, LONGEST_OFFER)?,
            fault: None,
        })
    }

    /// The octets of the frame, where the last line that was read sends one.
    pub fn frame(&self) -> &[u8]
        ensures { result.now ≡ pair_frame self.now }
    {
        self.octets.as_slice()
    }

    /// Hands out the configurations with the windows of `fail` lines, once, from the first live line on.
    pub fn take_configs(&mut self) -> Option<(Config, Config)>
        requires reader { IsLivePairReader self.old }
        ensures reader { IsLivePairReader self.new }
        ensures configs { result ≡ waiting_configs self.old }
        ensures once { waiting_configs self.new ≡ None }
        ensures network { IfSome result ArePairConfigs }
        ensures at { (n : ℕ) (s : PairSaid) → IsPairAt self.old n s → IsPairAt self.new n s }
        ensures failure { pair_failure self.new ≡ pair_failure self.old }
        ensures number { pair_number self.new ≡ pair_number self.old }
        ensures frame { pair_frame self.new ≡ pair_frame self.old }
    {
        self.configs.take()
    }

    /// Reads no more, for this fault of the line that is read.
    fn stop(&mut self, fault: PairLineFault) -> LivePairFault
        requires { IsLivePairReader self.old }
        ensures fault { result ≡ LivePairFault.Line (pair_number self.old) fault }
        ensures reader { IsLivePairReader self.new }
        ensures failed { pair_failure self.new ≡ Some result }
        ensures number { pair_number self.new ≡ pair_number self.old }
    {
        let stop = LivePairFault::Line {
            number: self.number,
            fault,
        };
        self.fault = Some(stop);
        stop
    }

    /// Whether a line divides the scripts.
    fn divides(&self, line: &[u8]) -> bool
        ensures { (n : ℕ) (s : PairSaid) → IsPairAt self.now n s →
            result ≡ pair_divides s (words line.now) }
    {
        self.settings.is_some() && self.first.is_none() && is_division(line)
    }

    /// Reads the line that divides the scripts.
    fn divide(&mut self) -> Result<LivePairLine, LivePairFault>
        requires reader { IsLivePairReader self.old }
        requires room { HasPairLinesLeft self.old }
        requires goes_on { pair_failure self.old ≡ None }
        ensures reader { IsLivePairReader self.new }
        ensures read { (n : ℕ) (s : PairSaid) (ws : List (List ℕ)) → IsPairAt self.old n s →
            pair_divides s ws ≡ true → IfOk result (λ said. ReadsPairLine self.new n s ws said) }
        ensures stops { (n : ℕ) (s : PairSaid) (ws : List (List ℕ)) → IsPairAt self.old n s →
            pair_divides s ws ≡ true → IfErr result (λ fault. StopsPair n s ws fault) }
        ensures failed { IfErr result (λ fault. pair_failure self.new ≡ Some fault) }
        ensures number { OnErr result (pair_number self.new ≡ pair_number self.old) }
    {
        let Some(reader) = self.settings.take() else {
            return Err(self.stop(PairLineFault::Live(LiveLineFault::First)));
        };
        match reader.end() {
            Ok(script) => {
                self.number += 1;
                self.first = Some(script);
                self.settings = Some(ScriptReader::from_line(self.alloc, self.number));
                Ok(LivePairLine::Setting)
            }
            Err(fault) => {
                let stop = LivePairFault::Pair(PairFault::Script(fault));
                self.fault = Some(stop);
                Err(stop)
            }
        }
    }

    /// Reads a line that says nothing, or one that scripts have, of this part.
    fn read_earlier(
        &mut self,
        part: Option<EarlierPart>,
        line: &[u8],
    ) -> Result<LivePairLine, LivePairFault>
        requires reader { IsLivePairReader self.old }
        requires room { HasPairLinesLeft self.old }
        requires goes_on { pair_failure self.old ≡ None }
        requires earlier { IsEarlierLine (words line.now) part }
        ensures reader { IsLivePairReader self.new }
        ensures read { (n : ℕ) (s : PairSaid) → IsPairAt self.old n s →
            pair_divides s (words line.now) ≡ false →
            IfOk result (λ said. ReadsPairLine self.new n s (words line.now) said) }
        ensures stops { (n : ℕ) (s : PairSaid) → IsPairAt self.old n s →
            pair_divides s (words line.now) ≡ false →
            IfErr result (λ fault. StopsPair n s (words line.now) fault) }
        ensures failed { IfErr result (λ fault. pair_failure self.new ≡ Some fault) }
        ensures number { OnErr result (pair_number self.new ≡ pair_number self.old) }
    {
        let says = match part {
            Some(_) => LivePairLine::Setting,
            None => LivePairLine::Blank,
        };
        let Some(reader) = self.settings.take() else {
            if let Some(part) = part {
                return Err(self.stop(PairLineFault::Live(LiveLineFault::Behind(part))));
            }
            self.number += 1;
            return Ok(says);
        };
        match reader.read_next(self.alloc, line) {
            Ok(reader) => {
                self.settings = Some(reader);
                self.number += 1;
                Ok(says)
            }
            Err(fault) => {
                let stop = LivePairFault::Pair(PairFault::Script(fault));
                self.fault = Some(stop);
                Err(stop)
            }
        }
    }

    /// Reads a live line by its keyword and the words behind it.
    fn read_live(
        &mut self,
        keyword: LiveKeyword,
        rest: &[u8],
    ) -> Result<LivePairLine, LivePairFault>
        requires reader { IsLivePairReader self.old }
        requires room { HasPairLinesLeft self.old }
        requires goes_on { pair_failure self.old ≡ None }
        ensures reader { IsLivePairReader self.new }
        ensures read { (n : ℕ) (s : PairSaid) (ws : List (List ℕ)) → IsPairAt self.old n s →
            pair_divides s ws ≡ false → IsLiveLine ws keyword (words rest.now) →
            IfOk result (λ said. ReadsPairLine self.new n s ws said) }
        ensures stops { (n : ℕ) (s : PairSaid) (ws : List (List ℕ)) → IsPairAt self.old n s →
            pair_divides s ws ≡ false → IsLiveLine ws keyword (words rest.now) →
            IfErr result (λ fault. StopsPair n s ws fault) }
        ensures failed { IfErr result (λ fault. pair_failure self.new ≡ Some fault) }
        ensures number { OnErr result (pair_number self.new ≡ pair_number self.old) }
    {
        match self.finish() {
            Ok(()) => {}
            Err(fault) => return Err(fault),
        }
        match self.states.read(keyword, rest, &mut self.octets) {
            Ok(said) => {
                self.number += 1;
                Ok(said)
            }
            Err(fault) => Err(self.stop(fault)),
        }
    }

    /// Reads one line, without its end. After a fault it reads no more, but tells that fault again.
    pub fn line(&mut self, line: &[u8]) -> Result<LivePairLine, LivePairFault>
        requires reader { IsLivePairReader self.old }
        requires room { HasPairLinesLeft self.old }
        ensures reader { IsLivePairReader self.new }
        ensures read { (n : ℕ) (s : PairSaid) → IsPairAt self.old n s →
            IfOk result (λ said. ReadsPairLine self.new n s (words line.now) said) }
        ensures stops { (n : ℕ) (s : PairSaid) → IsPairAt self.old n s →
            IfErr result (λ fault. StopsPair n s (words line.now) fault) }
        ensures fails_on { (fault : LivePairFault) → pair_failure self.old ≡ Some fault →
            result ≡ Err fault }
        ensures failed { IfErr result (λ fault. pair_failure self.new ≡ Some fault) }
        ensures number { OnErr result (pair_number self.new ≡ pair_number self.old) }
    {
        if let Some(fault) = self.fault {
            return Err(fault);
        }
        if self.divides(line) {
            return self.divide();
        }
        let Some((word, rest)) = first_word(line) else {
            return self.read_earlier(None, line);
        };
        match FirstWord::of(word) {
            FirstWord::Earlier(part) => self.read_earlier(Some(part), line),
            FirstWord::Live(keyword) => self.read_live(keyword, rest),
            FirstWord::Other => Err(self.stop(PairLineFault::Live(LiveLineFault::First))),
        }
    }

    /// Ends the lines of the configurations, as the first live line does, or the end of a text without one: they have
    /// to be whole and to fit together, and are handed out then.
    pub fn finish(&mut self) -> Result<(), LivePairFault>
        requires reader { IsLivePairReader self.old }
        ensures reader { IsLivePairReader self.new }
        ensures begun { OnOk result (pair_begun self.new ≡ true) }
        ensures goes_on { OnOk result (pair_failure self.new ≡ None) }
        ensures number { pair_number self.new ≡ pair_number self.old }
        ensures whole { (n : ℕ) (s : PairSaid) → IsPairAt self.old n s →
            OnOk result (pair_opening_fault s ≡ None) }
        ensures at { (n : ℕ) (s : PairSaid) → IsPairAt self.old n s →
            OnOk result (IsPairAt self.new n (pair_opened s)) }
        ensures configs { (n : ℕ) (s : PairSaid) → IsPairAt self.old n s →
            OnOk result (HandsOutBoth self.new s) }
        ensures fault { (n : ℕ) (s : PairSaid) → IsPairAt self.old n s →
            IfErr result (λ fault. IsPairToldAt n (pair_opening_fault s) fault) }
        ensures fails_on { (fault : LivePairFault) → pair_failure self.old ≡ Some fault →
            result ≡ Err fault }
        ensures failed { IfErr result (λ fault. pair_failure self.new ≡ Some fault) }
    {
        if let Some(fault) = self.fault {
            return Err(fault);
        }
        let Some(reader) = self.settings.take() else {
            return Ok(());
        };
        match opened(self.first.take(), reader) {
            Ok(configs) => {
                self.states.open(&configs.0, &configs.1);
                self.configs = Some(configs);
                Ok(())
            }
            Err(fault) => {
                self.fault = Some(fault);
                Err(fault)
            }
        }
    }
}
