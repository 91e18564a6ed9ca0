//! Where the text of a script goes: on a sink, or into a count of its octets.
ghost use Rattle.std.specs.Prelude.{◌≡◌, ◌<◌, ◌≤◌, ◌+◌, ℕ, List, ◌++◌, length, slice_get, Some, IsTrue, min};
ghost use Rattle.hex.specs.Hex.{encode_lower};
ghost use Rattle.law_model.specs.Common.{Start, longest_got_line};
ghost use Rattle.law_model.specs.declared.script_types.ItemKind.TheVariants.{Frame};
ghost use Rattle.text_got.specs.TextSoFar.{HasText};
ghost use Rattle.text_scripts.specs.script_text.TextOuts.{Adds};

use crate::rate_load::LONGEST;
use law_model::{FrameRoom, ItemKind, ItemList, ItemSort, Lent};
use octet_io::ByteSink;
use text_got::{GotLines, MayFail};

/// Takes a text piece by piece.
pub(super) trait TextOut {
    /// It stands for this text, after what had been given before.
    ghost stands_for: { Self → Start → List ℕ → Type 0 };

    /// Takes a piece of at most 19,205 octets.
    fn piece(&mut self, text: &[u8])
        requires { length text.now ≤ longest_got_line }
        ensures { Adds stands_for self.old self.new text.now };

    /// Takes the digits of the frame that is the item of a number.
    fn digits(&mut self, items: &ItemList, number: u32)
        requires { number < length items.now }
        ensures { (due : ℕ) (octets : List ℕ) →
            slice_get items.now number ≡ Some (record { due = due; kind = Frame octets }) →
            Adds stands_for self.old self.new (encode_lower octets) };

    /// Whether nothing that it takes now changes anything.
    fn is_done(&self) -> bool
        ensures { IsTrue result → (more : List ℕ) → Adds stands_for self.now self.now more };
}

/// Writes what it takes.
pub(super) struct TextWriter<'a, K> {
    /// The sink behind a block.
    pub got: GotLines<'a, K>,
    /// Where frames are drawn.
    pub room: &'a mut FrameRoom,
}

impl<'a, K: ByteSink> TextOut for TextWriter<'a, K> {
    ghost use Rattle.text_got.specs.TextSoFar.{HasText};

    ghost stands_for = { λ writer start text. HasText K.written K.faults writer.got start text };

    fn piece(&mut self, text: &[u8]) {
        self.got.line(text);
    }

    fn digits(&mut self, items: &ItemList, number: u32) {
        match items.lend(number, self.room) {
            Lent::Kept(ItemKind::Frame(octets)) => self.got.hex(&octets.0),
            Lent::Kept(_) => {}
            Lent::Drawn => self.got.hex(self.room.octets()),
        }
    }

    fn is_done(&self) -> bool {
        self.got.failed()
    }
}

/// Counts the octets that it takes, up to one more than can be read.
#[derive(Drop)]
pub(super) struct TextSize {
    /// How many there are, or 67,108,865.
    pub octets: u64,
}

impl TextSize {
    /// Counts some more.
    fn add(&mut self, octets: u64)
        ensures { self.new.octets ≡ min (self.old.octets + octets) 67108865 }
    {
        self.octets = self.octets.saturating_add(octets).min(LONGEST + 1);
    }
}

impl TextOut for TextSize {
    ghost use Rattle.std.specs.Prelude.{◌≡◌, length, min};

    ghost stands_for = { λ size start text. size.octets ≡ min (length text) 67108865 };

    fn piece(&mut self, text: &[u8]) {
        self.add(text.len() as u64);
    }

    fn digits(&mut self, items: &ItemList, number: u32) {
        if let ItemSort::Frame(octets) = items.head(number).sort {
            self.add(2 * octets as u64);
        }
    }

    fn is_done(&self) -> bool {
        self.octets > LONGEST
    }
}
