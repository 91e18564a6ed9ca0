//! The items of a script. What a line of traffic stands for is drawn when it is asked for.
ghost use Rattle.std.specs.Prelude.{◌≡◌, ◌<◌, ◌≤◌, ◌+◌, [], ◌∷◌, ◌++◌, length, slice_get, Some, OnOk, IfOk};
ghost use Rattle.law_rates.specs.Rates.{IsRate, count_of, frame_at};
ghost use Rattle.law_model.specs.Limits.{most_items, longest_offer};
ghost use Rattle.law_model.specs.declared.script_types.Item.{Item};
ghost use Rattle.law_model.specs.session.Streams.{AreStreams, FitStreams, mixed};
ghost use Rattle.law_model.specs.session.Items.{IsShort, stream_item, stream_items, head_of, lent_kind};
ghost use Rattle.law_model.specs.session.Items.{octets_in_kind};

use crate::script_items::streams::{Place, Streams};
use crate::script_types::{Item, ItemKind};
use law_rates::{LONGEST_FRAME, Rate, RateCursor, RatePlace};
use std::alloc::{AllocError, Global};
use std::marker::Model;

/// What an item is, without octets.
#[derive(Clone, Copy, Debug, PartialEq, Eq)]
pub enum ItemSort {
    /// A frame of so many octets.
    Frame(u16),
    /// The addition of a line.
    Add(u8),
    /// The removal of a line.
    Remove(u8),
}

/// An item without the octets of its frame.
#[derive(Clone, Copy, Debug, PartialEq, Eq)]
pub struct ItemHead {
    /// The number of ticks after which it lands.
    pub due: u32,
    /// What it is.
    pub sort: ItemSort,
}

/// An item as it is lent.
#[derive(Clone, Copy)]
pub enum Lent<'a> {
    /// It is kept whole.
    Kept(&'a ItemKind),
    /// It is a frame that was drawn into the room for one.
    Drawn,
}

/// Room for a frame that is drawn, which is taken once. A contract sees the octets of the last one.
#[derive(Drop)]
pub struct FrameRoom {
    octets: Vec<u8>,
    /// How many of them are the frame's.
    size: usize,
}

impl Model for FrameRoom {
    ghost use Rattle.std.specs.Prelude.{◌≤◌, ℕ, List, length, take};
    ghost use Rattle.law_model.specs.Limits.{longest_frame};

    ghost Value = { List ℕ };

    ghost view = { λ room. take room.size room.octets.items };

    ghost invariant = { λ room. (room.size ≤ longest_frame)
        × (longest_frame ≤ length room.octets.items) };
}

impl FrameRoom {
    /// Room for the longest frame that is drawn.
    pub fn new(alloc: Global) -> Result<FrameRoom, AllocError>
        ensures { IfOk result (λ room. room ≡ []) }
    {
        Ok(FrameRoom {
            octets: vec![in alloc; 0u8; LONGEST_FRAME]?,
            size: 0,
        })
    }

    /// The octets of the frame that was drawn.
    pub fn octets(&self) -> &[u8]
        ensures { result.now ≡ self.now }
    {
        &self.octets[..self.size]
    }

    /// Draws a frame of a rate.
    fn draw(&mut self, rate: &Rate, number: u64)
        requires rate { IsRate rate.now }
        requires there { number < count_of rate.now }
        ensures { self.new ≡ (frame_at rate.now number).octets }
    {
        let mut frames = RateCursor::at(rate, number);
        if let Some((_, size)) = frames.next(&mut self.octets) {
            self.size = size;
        }
    }
}

/// The items of a script: those that are kept whole, and the streams among them.
#[derive(Drop)]
pub struct ItemList {
    singles: Vec<Item>,
    streams: Streams,
}

impl Model for ItemList {
    ghost use Rattle.std.specs.Prelude.{List};
    ghost use Rattle.law_model.specs.declared.script_types.Item.{Item};
    ghost use Rattle.law_model.specs.session.Streams.{mixed};
    ghost use Rattle.law_model.specs.session.Items.{AreParts, stream_item};

    ghost Value = { List Item };

    ghost view = { λ items. mixed stream_item items.singles.items items.streams };

    ghost invariant = { λ items. AreParts items.singles.items items.streams };
}

impl ItemList {
    /// No item.
    pub fn new(alloc: Global) -> ItemList
        ensures { result ≡ [] }
    {
        ItemList {
            singles: Vec::new(alloc),
            streams: Streams::new(alloc),
        }
    }

    /// Adds an item.
    pub fn push(&mut self, item: Item) -> Result<(), AllocError>
        requires few { length self.old < most_items }
        requires short { octets_in_kind item.kind ≤ longest_offer }
        ensures { OnOk result (self.new ≡ self.old ++ item ∷ []) }
    {
        self.singles.push(item)?;
        Ok(())
    }

    /// Adds the frames of a rate, of which no octets are kept.
    pub fn push_stream(&mut self, rate: &Rate) -> Result<(), AllocError>
        requires rate { IsRate rate.now }
        requires few { length self.old + count_of rate.now ≤ most_items }
        ensures { OnOk result (self.new ≡ self.old ++ stream_items rate.now) }
    {
        let first = self.singles.len() as u32 + self.streams.streamed();
        self.streams.push(rate, first)?;
        Ok(())
    }

    /// How many there are.
    pub fn len(&self) -> u32
        ensures count { result ≡ length self.now }
        ensures few { result ≤ most_items }
    {
        self.singles.len() as u32 + self.streams.streamed()
    }

    /// The single items, and the streams among them.
    pub fn parts(&self) -> (&[Item], &Streams)
        ensures items { self.now ≡ mixed stream_item result.0.now result.1.now }
        ensures apart { AreStreams 0 0 result.1.now }
        ensures fit { FitStreams 0 (length result.0.now) result.1.now }
    {
        (&self.singles, &self.streams)
    }

    /// An item without octets.
    pub fn head(&self, number: u32) -> ItemHead
        requires { number < length self.now }
        ensures { (item : Item) → slice_get self.now number ≡ Some item → result ≡ head_of item }
    {
        match self.streams.place(number) {
            Place::Single(index) => single_head(&self.singles[index as usize]),
            Place::Streamed(stream) => {
                frame_head(&stream.rate, u64::from(number - stream.first))
            }
        }
    }

    /// Lends an item. If it isn't kept whole, its frame is drawn into the room.
    pub fn lend<'a>(&'a self, number: u32, room: &mut FrameRoom) -> Lent<'a>
        requires { number < length self.now }
        ensures { (item : Item) → slice_get self.now number ≡ Some item →
            lent_kind result room.new ≡ item.kind }
    {
        match self.streams.place(number) {
            Place::Single(index) => Lent::Kept(&self.singles[index as usize].kind),
            Place::Streamed(stream) => {
                room.draw(&stream.rate, u64::from(number - stream.first));
                Lent::Drawn
            }
        }
    }
}

/// A single item without octets.
fn single_head(item: &Item) -> ItemHead
    requires { IsShort item.now }
    ensures { result ≡ head_of item.now }
{
    let sort = match &item.kind {
        ItemKind::Frame(octets) => ItemSort::Frame(octets.0.len() as u16),
        ItemKind::Add(line) => ItemSort::Add(*line),
        ItemKind::Remove(line) => ItemSort::Remove(*line),
    };
    ItemHead {
        due: item.due,
        sort,
    }
}

/// A frame of a rate as an item without octets.
fn frame_head(rate: &Rate, number: u64) -> ItemHead
    requires rate { IsRate rate.now }
    requires there { number < count_of rate.now }
    ensures { result ≡ head_of (stream_item (frame_at rate.now number)) }
{
    let place = RatePlace::at(rate, number);
    ItemHead {
        due: place.tick(rate),
        sort: ItemSort::Frame(place.size(rate)),
    }
}
