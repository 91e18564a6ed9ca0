//! A live text, line by line.
ghost use Rattle.std.specs.Prelude.{◌≡◌, ℕ, ◌+◌, List, true, Some, None, Err, IfOk, IfErr, OnOk, OnErr, IfSome};
ghost use Rattle.text_lines.specs.WordsOfLine.{words};
ghost use Rattle.law_model.specs.Common.{IsNetwork};
ghost use Rattle.text_scripts.specs.script_read.ScriptInPieces.{IsReader, HasNumbersLeft, next_number, drafted};
ghost use Rattle.text_live.specs.LiveLines.{Said, nothing_said, opening_fault};
ghost use Rattle.text_live.specs.LiveReaderStands.{IsLiveReader, IsAt, IsToldAt, HasLinesLeft, ReadsLine};
ghost use Rattle.text_live.specs.LiveReaderStands.{Stops, HandsOut, IsLiveLine, IsEarlierLine, failure, line_at};
ghost use Rattle.text_live.specs.LiveReaderStands.{waiting_config, frame_of, opened_said, has_begun};

use crate::live_fault::{LiveFault, LiveLineFault};
use crate::live_keyword::{EarlierPart, FirstWord, LiveKeyword};
use crate::live_line::LiveLine;
use crate::read_live_line::{LiveState, count_fault};
use law_model::{Config, LONGEST_OFFER};
use std::alloc::{AllocError, Global};
use text_lines::{first_word, one_word};
use text_scripts::script_read::{ScriptReader, limit_fault};

/// Reads a live text line by line. It keeps no item and no failure, but what later lines are tested by. Memory is taken
/// by `new` and by lines of the configuration and of windows.
#[derive(Drop)]
pub struct LiveReader {
    // Where the lines of a script take memory.
    alloc: Global,
    // The number of the next line.
    number: u32,
    // What the lines before the first live one say.
    settings: Option<ScriptReader>,
    // The configuration, from the first live line until it is handed out.
    config: Option<Config>,
    // What the live lines say.
    state: LiveState,
    // The octets of the last frame.
    octets: Vec<u8>,
    // Why it doesn't read on.
    fault: Option<LiveFault>,
}

/// The configuration that lines of a script say, where it is whole and fits.
fn opened(reader: ScriptReader) -> Result<Config, LiveFault>
    requires reader { IsReader reader }
    requires room { HasNumbersLeft reader 0 }
    ensures fine { IfOk result (λ _. opening_fault None (drafted reader) ≡ None) }
    ensures config { IfOk result (λ config. config ≡ (drafted reader).config) }
    ensures network { IfOk result IsNetwork }
    ensures fault { IfErr result (λ fault.
        IsToldAt (next_number reader) (opening_fault None (drafted reader)) fault) }
{
    let script = match reader.end() {
        Ok(script) => script,
        Err(fault) => return Err(LiveFault::Script(fault)),
    };
    match limit_fault(&script) {
        Some(fault) => Err(LiveFault::Script(fault)),
        None => Ok(script.config),
    }
}

impl LiveReader {
    /// A reader that has read nothing.
    pub fn new(alloc: Global) -> Result<LiveReader, AllocError>
        ensures reader { IfOk result IsLiveReader }
        ensures at { IfOk result (λ reader. IsAt reader 1 nothing_said) }
    {
        Ok(LiveReader {
            alloc,
            number: 1,
            settings: Some(ScriptReader::from_line(alloc, 1)),
            config: None,
            state: LiveState::new(alloc)?,
            octets: Vec::with_capacity(alloc, LONGEST_OFFER)?,
            fault: None,
        })
    }

    /// The octets of the frame, where the last line that was read sends one.
    pub fn frame(&self) -> &[u8]
        ensures { result.now ≡ frame_of self.now }
    {
        self.octets.as_slice()
    }

    /// Hands out the configuration with the windows of `fail` lines, once, from the first live line on.
    pub fn take_config(&mut self) -> Option<Config>
        requires reader { IsLiveReader self.old }
        ensures reader { IsLiveReader self.new }
        ensures config { result ≡ waiting_config self.old }
        ensures once { waiting_config self.new ≡ None }
        ensures network { IfSome result IsNetwork }
        ensures at { (n : ℕ) (s : Said) → IsAt self.old n s → IsAt self.new n s }
        ensures failure { failure self.new ≡ failure self.old }
        ensures number { line_at self.new ≡ line_at self.old }
        ensures frame { frame_of self.new ≡ frame_of self.old }
    {
        self.config.take()
    }

    /// Reads no more, for this fault of the line that is read.
    fn stop(&mut self, fault: LiveLineFault) -> LiveFault
        requires { IsLiveReader self.old }
        ensures fault { result ≡ LiveFault.Line (line_at self.old) fault }
        ensures reader { IsLiveReader self.new }
        ensures failed { failure self.new ≡ Some result }
        ensures number { line_at self.new ≡ line_at self.old }
    {
        let stop = LiveFault::Line {
            number: self.number,
            fault,
        };
        self.fault = Some(stop);
        stop
    }

    /// Reads a line that says nothing, or one that scripts have, of this part.
    fn read_earlier(
        &mut self,
        part: Option<EarlierPart>,
        line: &[u8],
    ) -> Result<LiveLine, LiveFault>
        requires reader { IsLiveReader self.old }
        requires room { HasLinesLeft self.old }
        requires goes_on { failure self.old ≡ None }
        requires earlier { IsEarlierLine (words line.now) part }
        ensures reader { IsLiveReader self.new }
        ensures read { (n : ℕ) (s : Said) → IsAt self.old n s →
            IfOk result (λ said. ReadsLine self.new n s (words line.now) said) }
        ensures stops { (n : ℕ) (s : Said) → IsAt self.old n s →
            IfErr result (λ fault. Stops n s (words line.now) fault) }
        ensures failed { IfErr result (λ fault. failure self.new ≡ Some fault) }
        ensures number { OnErr result (line_at self.new ≡ line_at self.old) }
    {
        let says = match part {
            Some(_) => LiveLine::Setting,
            None => LiveLine::Blank,
        };
        let Some(reader) = self.settings.take() else {
            if let Some(part) = part {
                return Err(self.stop(LiveLineFault::Behind(part)));
            }
            self.number += 1;
            return Ok(says);
        };
        match reader.read_next(self.alloc, line) {
            Ok(reader) => {
                self.settings = Some(reader);
                self.number += 1;
                Ok(says)
            }
            Err(fault) => {
                let stop = LiveFault::Script(fault);
                self.fault = Some(stop);
                Err(stop)
            }
        }
    }

    /// Reads a live line by its keyword and the words behind it.
    fn read_live(&mut self, keyword: LiveKeyword, rest: &[u8]) -> Result<LiveLine, LiveFault>
        requires reader { IsLiveReader self.old }
        requires room { HasLinesLeft self.old }
        requires goes_on { failure self.old ≡ None }
        ensures reader { IsLiveReader self.new }
        ensures read { (n : ℕ) (s : Said) (ws : List (List ℕ)) → IsAt self.old n s →
            IsLiveLine ws keyword (words rest.now) →
            IfOk result (λ said. ReadsLine self.new n s ws said) }
        ensures stops { (n : ℕ) (s : Said) (ws : List (List ℕ)) → IsAt self.old n s →
            IsLiveLine ws keyword (words rest.now) →
            IfErr result (λ fault. Stops n s ws fault) }
        ensures failed { IfErr result (λ fault. failure self.new ≡ Some fault) }
        ensures number { OnErr result (line_at self.new ≡ line_at self.old) }
    {
        match self.finish() {
            Ok(()) => {}
            Err(fault) => return Err(fault),
        }
        let Some(word) = one_word(rest) else {
            return Err(self.stop(count_fault(keyword, rest)));
        };
        match self.state.read(keyword, word, 2, &mut self.octets) {
            Ok(said) => {
                self.number += 1;
                Ok(said)
            }
            Err(fault) => Err(self.stop(fault)),
        }
    }

    /// Reads one line, without its end. After a fault it reads no more, but tells that fault again.
    pub fn line(&mut self, line: &[u8]) -> Result<LiveLine, LiveFault>
        requires reader { IsLiveReader self.old }
        requires room { HasLinesLeft self.old }
        ensures reader { IsLiveReader self.new }
        ensures read { (n : ℕ) (s : Said) → IsAt self.old n s →
            IfOk result (λ said. ReadsLine self.new n s (words line.now) said) }
        ensures stops { (n : ℕ) (s : Said) → IsAt self.old n s →
            IfErr result (λ fault. Stops n s (words line.now) fault) }
        ensures fails_on { (fault : LiveFault) → failure self.old ≡ Some fault →
            result ≡ Err fault }
        ensures failed { IfErr result (λ fault. failure self.new ≡ Some fault) }
        ensures number { OnErr result (line_at self.new ≡ line_at self.old) }
    {
        if let Some(fault) = self.fault {
            return Err(fault);
        }
        let Some((word, rest)) = first_word(line) else {
            return self.read_earlier(None, line);
        };
        match FirstWord::of(word) {
            FirstWord::Earlier(part) => self.read_earlier(Some(part), line),
            FirstWord::Live(keyword) => self.read_live(keyword, rest),
            FirstWord::Other => Err(self.stop(LiveLineFault::First)),
        }
    }

    /// Ends the lines of the configuration, as the first live line does, or the end of a text without one: it has to be
    /// whole and to fit, and is handed out then.
    pub fn finish(&mut self) -> Result<(), LiveFault>
        requires reader { IsLiveReader self.old }
        ensures reader { IsLiveReader self.new }
        ensures begun { OnOk result (has_begun self.new ≡ true) }
        ensures goes_on { OnOk result (failure self.new ≡ None) }
        ensures number { line_at self.new ≡ line_at self.old }
        ensures whole { (n : ℕ) (s : Said) → IsAt self.old n s →
            OnOk result (opening_fault s.live s.settings ≡ None) }
        ensures at { (n : ℕ) (s : Said) → IsAt self.old n s →
            OnOk result (IsAt self.new n (opened_said s)) }
        ensures config { (n : ℕ) (s : Said) → IsAt self.old n s →
            OnOk result (HandsOut self.new s) }
        ensures fault { (n : ℕ) (s : Said) → IsAt self.old n s →
            IfErr result (λ fault. IsToldAt n (opening_fault s.live s.settings) fault) }
        ensures fails_on { (fault : LiveFault) → failure self.old ≡ Some fault →
            result ≡ Err fault }
        ensures failed { IfErr result (λ fault. failure self.new ≡ Some fault) }
    {
        if let Some(fault) = self.fault {
            return Err(fault);
        }
        let Some(reader) = self.settings.take() else {
            return Ok(());
        };
        match opened(reader) {
            Ok(config) => {
                self.state.open(&config);
                self.config = Some(config);
                Ok(())
            }
            Err(fault) => {
                self.fault = Some(fault);
                Err(fault)
            }
        }
    }
}
