//! What a text of channels says, and what its lines so far say.
ghost use Rattle.std.specs.Prelude.{◌≡◌, length};

use gfp_model::linear_model::Cut;
use law_model::Octets;
use std::marker::Model;

/// A frame that a client offers.
#[derive(Drop)]
pub struct Offer {
    /// The number of its channel, which may be one that there isn't.
    pub cid: u8,
    /// Its octets.
    pub frame: Octets,
}

/// Frames that clients offer, in this order.
#[derive(Drop)]
pub struct OfferList(pub Vec<Offer>);

impl Model for OfferList {
    ghost use Rattle.std.specs.Prelude.{List};
    ghost use Rattle.gfp_channels.specs.declared.channel_link.channel_draft.Offer.{Offer};

    ghost Value = { List Offer };

    ghost view = { λ offers. offers.0.items };
}

impl OfferList {
    /// How many there are.
    pub fn count(&self) -> u64
        ensures { result ≡ length self.now }
    {
        self.0.len() as u64
    }
}

/// The cuts of a stream.
#[derive(Drop)]
pub struct CutList(pub Vec<Cut>);

impl Model for CutList {
    ghost use Rattle.std.specs.Prelude.{List};
    ghost use Rattle.gfp_model.specs.declared.linear_model.Cut.{Cut};

    ghost Value = { List Cut };

    ghost view = { λ cuts. cuts.0.items };
}

/// Channels that share a stream, the frames that they offer before it begins, and its octets that don't arrive.
#[derive(Drop)]
pub struct ChannelPlan {
    /// How many channels there are, 1 to 256.
    pub channels: u16,
    /// How many octets the stream has, 1 to 100,000,000.
    pub octets: u32,
    /// The frames, of any length.
    pub offers: OfferList,
    /// The cuts, by rising places.
    pub cuts: CutList,
}

/// What the lines so far say.
#[derive(Drop)]
pub(super) struct ChannelDraft {
    /// The number of channels.
    pub channels: u16,
    /// The number of octets of the stream.
    pub octets: u32,
    /// The place at which the last cut ends. It is 0 where there was none yet.
    pub end: u64,
    /// The frames.
    pub offers: OfferList,
    /// The cuts.
    pub cuts: CutList,
}
