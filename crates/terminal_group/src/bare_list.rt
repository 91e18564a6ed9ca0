//! The items of a script without the octets of its frames, by their numbers from 0.

ghost use Rattle.std.specs.Prelude.{◌≡◌, ◌<◌, ◌≤◌, ◌-◌, ℕ, not, false, length, map, slice_get, Some, All, IfOk};
ghost use Rattle.law_rates.specs.Rates.{IsRate, count_of, frame_at};
ghost use Rattle.law_model.specs.Common.{most_items};
ghost use Rattle.law_model.specs.session.Items.{IsShort, head_of};
ghost use Rattle.law_model.specs.declared.script_types.Item.{Item};
ghost use Rattle.terminal_group.specs.BareList.{bare_frame};
ghost use Rattle.terminal_group.specs.Item.{bare_items, item_in, kind_in};
ghost use Rattle.terminal_group.specs.ItemPlaces.{is_frame, is_command};

use law_model::{Item, ItemHead, ItemKind, ItemList, ItemSort, Place, Stream, Streams};
use law_rates::RatePlace;
use std::alloc::{AllocError, Global};
use std::marker::Model;

/// Items without octets. Of a stream no item is kept, but the rate that tells them all.
#[derive(Drop)]
pub(crate) struct BareList {
    /// The items that are no frame of a stream.
    singles: Vec<ItemHead>,
    streams: Streams,
}

impl Model for BareList {
    ghost use Rattle.std.specs.Prelude.{List, map};
    ghost use Rattle.law_model.specs.declared.script_types.Item.{Item};
    ghost use Rattle.terminal_group.specs.BareList.{bare_mixed, AreBare};
    ghost use Rattle.terminal_group.specs.Item.{item_in};

    ghost Value = { List Item };

    ghost view = { λ list. bare_mixed (map item_in list.singles.items) list.streams };

    ghost invariant = { λ list. AreBare (map item_in list.singles.items) list.streams };
}

impl BareList {
    /// The items of a script.
    pub(crate) fn of(alloc: Global, items: &ItemList) -> Result<BareList, AllocError>
        requires { All IsShort items.now }
        ensures { IfOk result (λ list. list ≡ bare_items items.now) }
    {
        let (kept, among) = items.parts();
        let _known = (items.len(), among.streamed());
        let singles = bare_copy(alloc, kept)?;
        let streams = among.copy()?;
        Ok(BareList { singles, streams })
    }

    /// How many there are.
    pub(crate) fn len(&self) -> u32
        ensures count { result ≡ length self.now }
        ensures few { result ≤ most_items }
    {
        self.singles.len() as u32 + self.streams.streamed()
    }

    /// What is kept of an item.
    pub(crate) fn head(&self, number: u32) -> ItemHead
        requires { number < length self.now }
        ensures { slice_get self.now number ≡ Some (item_in result) }
    {
        match self.streams.place(number) {
            Place::Single(index) => single(&self.singles, index),
            Place::Streamed(stream) => streamed(stream, number),
        }
    }

    /// Whether an item is a frame.
    pub(crate) fn is_frame(&self, number: u32) -> bool
        requires { number < length self.now }
        ensures { (item : Item) → slice_get self.now number ≡ Some item →
            result ≡ is_frame item.kind }
    {
        match self.streams.place(number) {
            Place::Single(index) => is_frame(single(&self.singles, index).sort),
            Place::Streamed(_) => true,
        }
    }

    /// Whether an item is a command.
    pub(crate) fn is_command(&self, number: u32) -> bool
        requires { number < length self.now }
        ensures { (item : Item) → slice_get self.now number ≡ Some item →
            result ≡ is_command item.kind }
    {
        match self.streams.place(number) {
            Place::Single(index) => !is_frame(single(&self.singles, index).sort),
            Place::Streamed(_) => false,
        }
    }

    /// The number behind an item, or behind the stream that it is of.
    pub(crate) fn passed(&self, number: u32) -> u32
        requires { number < length self.now }
        ensures later { number < result }
        ensures within { result ≤ length self.now }
        ensures frames { (k : ℕ) (item : Item) → number < k → k < result →
            slice_get self.now k ≡ Some item → is_command item.kind ≡ false }
    {
        match self.streams.place(number) {
            Place::Single(_) => number + 1,
            Place::Streamed(stream) => stream.behind,
        }
    }
}

/// Whether an item of this sort is a frame.
fn is_frame(sort: ItemSort) -> bool
    ensures frame { result ≡ is_frame (kind_in sort) }
    ensures command { not result ≡ is_command (kind_in sort) }
{
    match sort {
        ItemSort::Frame(_) => true,
        ItemSort::Add(_) | ItemSort::Remove(_) => false,
    }
}

/// A single item.
fn single(singles: &[ItemHead], index: u32) -> ItemHead
    requires { index < length singles.now }
    ensures { slice_get singles.now index ≡ Some result }
{
    singles[index as usize]
}

/// An item of a stream.
fn streamed(stream: &Stream, number: u32) -> ItemHead
    requires rate { IsRate stream.now.rate }
    requires first { stream.now.first ≤ number }
    requires behind { number - stream.now.first < count_of stream.now.rate }
    ensures { item_in result
        ≡ bare_frame (frame_at stream.now.rate (number - stream.now.first)) }
{
    let place = RatePlace::at(&stream.rate, u64::from(number - stream.first));
    ItemHead {
        due: place.tick(&stream.rate),
        sort: ItemSort::Frame(place.size(&stream.rate)),
    }
}

/// The items without the octets of the frames.
fn bare_copy(alloc: Global, items: &[Item]) -> Result<Vec<ItemHead>, AllocError>
    requires { All IsShort items.now }
    ensures { IfOk result (λ copy. copy.items ≡ map head_of items.now) }
{
    let mut copy = Vec::with_capacity(alloc, items.len())?;
    for item in items {
        copy.push(head_of(item))?;
    }
    Ok(copy)
}

/// An item without octets.
fn head_of(item: &Item) -> ItemHead
    requires { IsShort item.now }
    ensures { result ≡ head_of item.now }
{
    let sort = match &item.kind {
        ItemKind::Frame(octets) => ItemSort::Frame(octets.0.len() as u16),
        ItemKind::Add(line) => ItemSort::Add(*line),
        ItemKind::Remove(line) => ItemSort::Remove(*line),
    };
    ItemHead {
        due: item.due,
        sort,
    }
}
