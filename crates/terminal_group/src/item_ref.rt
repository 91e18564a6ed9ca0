//! What lands, as it is handed in.

ghost use Rattle.std.specs.Prelude.{◌≡◌};
ghost use Rattle.law_model.specs.session.Items.{lent_kind};
ghost use Rattle.terminal_group.specs.Item.{kind_of};

use law_model::{FrameRoom, ItemKind, Lent};

/// An item that is handed in.
#[derive(Clone, Copy, Debug)]
pub enum ItemRef<'a> {
    /// The client sends this Ethernet frame.
    Frame(&'a [u8]),
    /// The operator adds a line to the group.
    Add(u8),
    /// The operator removes a line from the group.
    Remove(u8),
}

/// An item that is lent, as it is handed in. The room is the one that it was lent with.
pub fn lent_item<'a>(lent: Lent<'a>, room: &'a FrameRoom) -> ItemRef<'a>
    ensures { kind_of result ≡ lent_kind lent.entry room.now }
{
    match lent {
        Lent::Kept(ItemKind::Frame(octets)) => ItemRef::Frame(&octets.0),
        Lent::Kept(ItemKind::Add(line)) => ItemRef::Add(*line),
        Lent::Kept(ItemKind::Remove(line)) => ItemRef::Remove(*line),
        Lent::Drawn => ItemRef::Frame(room.octets()),
    }
}

impl ItemRef<'_> {
    ghost use Rattle.std.specs.Prelude.{◌≡◌, if◌then◌else◌};
    ghost use Rattle.law_walk.specs.Common.{is_client};
    ghost use Rattle.terminal_group.specs.Item.{kind_of, size_of};

    /// Whether it is the client's.
    pub fn is_frame(self) -> bool
        ensures { result ≡ is_client (kind_of self.entry) }
    {
        match self {
            ItemRef::Frame(_) => true,
            ItemRef::Add(_) | ItemRef::Remove(_) => false,
        }
    }

    /// How many frames it is.
    pub fn frames(self) -> u32
        ensures { result ≡ (if is_client (kind_of self.entry) then 1 else 0) }
    {
        match self {
            ItemRef::Frame(_) => 1,
            ItemRef::Add(_) | ItemRef::Remove(_) => 0,
        }
    }

    /// How many octets it has.
    pub fn len(self) -> usize
        ensures { result ≡ size_of (kind_of self.entry) }
    {
        match self {
            ItemRef::Frame(octets) => octets.len(),
            ItemRef::Add(_) | ItemRef::Remove(_) => 0,
        }
    }
}
