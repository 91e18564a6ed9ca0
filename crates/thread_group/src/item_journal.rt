//! The journal of what a group has accepted.

ghost use Rattle.std.specs.Prelude.{◌≡◌, ◌+◌, ◌≤◌, ◌<◌, [], ◌∷◌, ◌++◌, length};
ghost use Rattle.law_model.specs.Common.{offers_of, orders_of};
ghost use Rattle.terminal_group.specs.Item.{kind_of, size_of};
ghost use Rattle.thread_group.specs.Journal.{items_in, entry_of, fits};

use crate::accepted_items::{Accepted, Entry};
use std::marker::Model;
use terminal_group::ItemRef;

/// The accepted items in the order in which they landed. It counts them, and keeps no octet of them.
#[derive(Drop)]
pub(crate) struct Journal {
    accepted: Accepted,
    /// How many entries and octets are left.
    slots: u32,
    bytes: u64,
    /// How many entries are frames, and how many are commands.
    frames: u32,
    commands: u32,
}

impl Model for Journal {
    ghost use Rattle.thread_group.specs.Journal.{Journal};
    ghost use Rattle.thread_group.specs.Journal.{AreCounted};

    ghost Value = { Journal };

    ghost view = { λ j. record {
      entries = j.accepted.entries;
      slots = j.slots;
      bytes = j.bytes;
    } };

    ghost invariant = { λ j. AreCounted j.accepted.entries j.slots j.frames j.commands };
}

impl Journal {
    /// An empty journal with room for so many entries and octets.
    pub(crate) fn new(slots: u32, bytes: u64) -> Journal
        ensures { result ≡ record { entries = []; slots = slots; bytes = bytes } }
    {
        Journal {
            accepted: Accepted::new(),
            slots,
            bytes,
            frames: 0,
            commands: 0,
        }
    }

    /// How many entries are left.
    pub(crate) fn slots(&self) -> u32
        ensures { result ≡ self.now.slots }
    {
        self.slots
    }

    /// How many octets are left.
    pub(crate) fn bytes(&self) -> u64
        ensures { result ≡ self.now.bytes }
    {
        self.bytes
    }

    /// How many entries are frames.
    pub(crate) fn frames(&self) -> u32
        ensures { result ≡ length (offers_of (items_in self.now.entries)) }
    {
        self.frames
    }

    /// How many entries are commands.
    pub(crate) fn commands(&self) -> u32
        ensures { result ≡ length (orders_of (items_in self.now.entries)) }
    {
        self.commands
    }

    /// Whether an item has room.
    pub(crate) fn has_room(&self, item: ItemRef) -> bool
        ensures { result ≡ fits self.now (kind_of item.entry) }
    {
        self.slots > 0 && item.len() as u64 <= self.bytes
    }

    /// Takes an item that has landed after so many ticks, and has room.
    pub(crate) fn push(&mut self, number: u32, ticks: u32, item: ItemRef)
        requires slots { 0 < self.old.slots }
        requires bytes { size_of (kind_of item) ≤ self.old.bytes }
        ensures entries { self.new.entries
            ≡ self.old.entries ++ entry_of number ticks (kind_of item.entry) ∷ [] }
        ensures slots { self.new.slots + 1 ≡ self.old.slots }
        ensures bytes { self.new.bytes + size_of (kind_of item.entry) ≡ self.old.bytes }
    {
        self.accepted = self.accepted.with(&Entry {
            number,
            ticks,
            item,
        });
        self.slots -= 1;
        self.bytes -= item.len() as u64;
        self.frames += item.frames();
        self.commands += 1 - item.frames();
    }
}
