//! What lands next in a group, and what was refused.

ghost use Rattle.std.specs.Prelude.{◌≡◌, if◌then◌else◌, length, Some, IfOk, IfSome, is_some};
ghost use Rattle.law_model.specs.Common.{IsValid, dues_of, held};
ghost use Rattle.terminal_group.specs.Item.{bare_items};
ghost use Rattle.law_walk.specs.Common.{IsPlaced, refused_by};
ghost use Rattle.terminal_group.specs.Landed.{none_landed, next_place, next_number, due_at, landed_of};
ghost use Rattle.terminal_group.specs.Landed.{HasPassed, IsReasonAt};

use crate::bare_list::BareList;
use crate::landing_order::{held_item, next_command, next_frame};
use crate::refusal_codes::{RefusalCodes, code_of};
use crate::refused_items::Refusals;
use law_model::{Refusal, Script};
use std::alloc::{AllocError, Global};
use std::marker::Model;

/// The items of a script without the octets of its frames, which of them have landed, and which were refused.
#[derive(Drop)]
pub struct Landing {
    items: BareList,
    /// How many lines the group has.
    lines: u8,
    /// The numbers of the next frame and of the next command.
    frame: u32,
    command: u32,
    /// How many frames and commands have landed.
    frames: u32,
    commands: u32,
    /// How many of them were refused.
    refused_frames: u32,
    refused_commands: u32,
    codes: RefusalCodes,
}

impl Model for Landing {
    ghost use Rattle.terminal_group.specs.Landed.{Landed, IsLanded};
    ghost use Rattle.terminal_group.specs.RefusalCodes.{refusals_in};

    ghost Value = { Landed };

    ghost view = { λ l. record {
      items = l.items;
      lines = l.lines;
      frames = l.frames;
      commands = l.commands;
      refused_frames = l.refused_frames;
      refused_commands = l.refused_commands;
      refusals = refusals_in l.lines l.codes l.items;
    } };

    ghost invariant = { λ l. IsLanded (record {
      items = l.items;
      lines = l.lines;
      frames = l.frames;
      commands = l.commands;
      refused_frames = l.refused_frames;
      refused_commands = l.refused_commands;
      refusals = refusals_in l.lines l.codes l.items;
    }) l.frame l.command l.codes };
}

impl Landing {
    /// Nothing of the items of a script has landed. There is room for a refusal of each.
    pub fn of(alloc: Global, script: &Script) -> Result<Landing, AllocError>
        requires { IsValid script.now }
        ensures { IfOk result (λ landing. landing
            ≡ none_landed script.now.config.lines (bare_items script.now.items)) }
    {
        let items = BareList::of(alloc, &script.items)?;
        let codes = RefusalCodes::none(alloc, items.len())?;
        let frame = next_frame(&items, 0);
        let command = next_command(&items, 0);
        Ok(Landing {
            items,
            lines: script.config.lines,
            frame,
            command,
            frames: 0,
            commands: 0,
            refused_frames: 0,
            refused_commands: 0,
            codes,
        })
    }

    /// The number of the next frame, or of the next command, where there is one.
    pub fn next(&self, client: bool) -> Option<u32>
        ensures { result ≡ next_number self.now client }
    {
        let place = self.place(client);
        if place < self.items.len() {
            Some(place)
        } else {
            None
        }
    }

    /// After how many ticks the next frame, or the next command, lands, which is the item of this number.
    pub fn due(&self, client: bool, number: u32) -> u32
        requires { next_number self.now client ≡ Some number }
        ensures { result ≡ due_at self.now.items number }
    {
        self.items.head(number).due
    }

    /// The least item that is due now and hasn't landed.
    pub fn held(&self, ticks: u32) -> Option<u32>
        ensures { result
            ≡ held ticks self.now.frames self.now.commands 0 (dues_of self.now.items) }
    {
        held_item(&self.items, self.frame, self.command, ticks)
    }

    /// The items that were refused, in their order.
    pub fn refusals(&self) -> Refusals<'_>
        ensures { result ≡ self.now.refusals }
    {
        Refusals::new(&self.items, &self.codes, self.lines)
    }

    /// How many frames, or how many commands, have landed.
    pub fn landed(&self, client: bool) -> u32
        ensures { result ≡ landed_of self.now client }
    {
        if client { self.frames } else { self.commands }
    }

    /// How many items were refused.
    pub fn all_refused(&self) -> u32
        ensures { result ≡ length self.now.refusals }
    {
        self.refused_frames + self.refused_commands
    }

    /// The next frame, or the next command, has landed, which is the item of this number. It is refused, or not.
    pub fn land(&mut self, client: bool, number: u32, why: Option<Refusal>)
        requires next { next_number self.old client ≡ Some number }
        requires reason { IfSome why (IsReasonAt self.old number) }
        ensures passed { HasPassed self.old self.new client (is_some why) }
        ensures refusals { IsPlaced number (refused_by number why)
            self.old.refusals self.new.refusals }
    {
        self.codes.put(number, code_of(why));
        let refused = one_if(why.is_some());
        if client {
            self.frame = next_frame(&self.items, number + 1);
            self.frames += 1;
            self.refused_frames += refused;
        } else {
            self.command = next_command(&self.items, number + 1);
            self.commands += 1;
            self.refused_commands += refused;
        }
    }

    /// The place of the next frame, or of the next command.
    fn place(&self, client: bool) -> u32
        ensures { result ≡ next_place self.now client }
    {
        if client { self.frame } else { self.command }
    }
}

/// One, or none.
fn one_if(one: bool) -> u32
    ensures { result ≡ (if one then 1 else 0) }
{
    if one { 1 } else { 0 }
}
