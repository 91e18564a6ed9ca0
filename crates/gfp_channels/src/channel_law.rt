//! The laws of channels that share a stream by linear extension headers: what of each channel a stream carries,
//! what is delivered of it if octets are lost, and what an answer to a frame depends on. There is no code here.
//! Begin with `channel_law`. It is the law of losses with frames that have a linear extension header as their
//! kind.

ghost use Rattle.std.specs.Prelude.{◌≡◌, ℕ, ◌<◌, ◌≤◌, ◌^◌, List, [], ◌∷◌, ◌++◌, length, take, drop, All};
ghost use Rattle.law_model.specs.Common.{TrueStarts};
ghost use Rattle.gfp_model.specs.declared.linear_model.Cut.{Cut};
ghost use Rattle.gfp_model.specs.linear_model.ChannelArea.{ChannelFrame};
ghost use Rattle.gfp_model.specs.linear_model.Channels.{Channels, silent, waiting_of, channel_refusal};
ghost use Rattle.gfp_channels.specs.channel_law.Offers.{after_frames, accepted_frames};
ghost use Rattle.gfp_model.specs.linear_model.ChannelStream.{unsent, reached, frames_of, stream_to, cut_rows};
ghost use Rattle.gfp_channels.specs.channel_law.Worked.{worked_channels, worked_pieces, worked_stream, worked_cuts};
ghost use Rattle.gfp_channels.specs.channel_law.Worked.{worked_rows, zero_channels, first_octets};
ghost use Rattle.gfp_channels.specs.channel_law.FramesOfChannel.{AreSound, as_pieces, carried_of, kept_of};
ghost use Rattle.gfp_channels.specs.channel_law.FramesOfChannel.{delivered_of};
ghost use Rattle.gfp_channels.specs.channel_law.FramesOfChannel.{AreOrdered};

/// What the answer to a frame depends on: the number of channels, and how many frames of that channel wait.
pub fn answer_law()
    ensures { (cid : ℕ) (frame : List ℕ) (one other : Channels) →
        length one.waiting ≡ length other.waiting →
        length (waiting_of cid one) ≡ length (waiting_of cid other) →
        channel_refusal cid frame one ≡ channel_refusal cid frame other }
{}

/// Of frames that are offered one after the other, what waits of a channel is what waited before, and behind it, in
/// order, those that are accepted. Where they are octets, all that wait may be sent: of at most 256 channels without a
/// frame, and then after each offer.
pub fn offers_law()
    ensures accepted { (cid : ℕ) (channels : Channels) (offers : List ChannelFrame) →
        waiting_of cid (after_frames channels offers)
        ≡ waiting_of cid channels ++ accepted_frames cid channels offers }
    ensures all { (cid channels : ℕ) (offers : List ChannelFrame) →
        waiting_of cid (after_frames (silent channels) offers)
        ≡ accepted_frames cid (silent channels) offers }
    ensures silent { (channels : ℕ) → channels ≤ 256 → AreSound (silent channels) }
    ensures sound { (channels : Channels) (offers : List ChannelFrame) →
        All (λ (offer : ChannelFrame). All (λ octet. octet < 2 ^ 8) offer.frame) offers →
        AreSound channels → AreSound (after_frames channels offers) }
{}

/// Of each channel: the frames that are begun, and those of them that the stream carries whole, are the first of
/// those that were accepted; without cuts these are what is delivered; and with cuts, where each place that is
/// confirmed first behind one is that of a piece, those are delivered, in order and each once, that are carried and
/// aren't lost.
pub fn channel_law()
    ensures begun { (place cid : ℕ) (channels : Channels) →
        let made = reached place (unsent channels) in
        frames_of cid made.pieces ++ waiting_of cid made.channels ≡ waiting_of cid channels }
    ensures carried { (place cid : ℕ) (channels : Channels) →
        let carried = carried_of cid place (reached place (unsent channels)).pieces in
        carried ≡ take (length carried) (waiting_of cid channels) }
    ensures uncut { (place cid : ℕ) (channels : Channels) → AreSound channels →
        delivered_of cid [] (stream_to place channels)
        ≡ carried_of cid place (reached place (unsent channels)).pieces }
    ensures first { (place cid : ℕ) (channels : Channels) → AreSound channels →
        let delivered = delivered_of cid [] (stream_to place channels) in
        delivered ≡ take (length delivered) (waiting_of cid channels) }
    ensures kept { (place cid : ℕ) (channels : Channels) (cuts : List Cut) →
        AreSound channels → AreOrdered 0 cuts →
        let rows = cut_rows 0 cuts (stream_to place channels) in
        let pieces = (reached place (unsent channels)).pieces in
        TrueStarts (as_pieces pieces) rows →
        delivered_of cid cuts (stream_to place channels) ≡ kept_of cid pieces rows }
{}

/// A worked stream, computed: two frames of each of two channels are sent in turns, and the first of them is cut off.
/// Without the cut all come. With it one of the second channel is before the place that is confirmed, the next of the
/// first channel settles the descrambler, and the last one is delivered. What is confirmed is the place of a piece. And
/// the first octets of a frame of zeros, behind the two idles, as they are sent.
pub fn worked_law()
    ensures turns { (reached 64 (unsent worked_channels)).pieces ≡ worked_pieces }
    ensures uncut { delivered_of 0 [] worked_stream ≡ (1 ∷ 2 ∷ []) ∷ (3 ∷ 4 ∷ []) ∷ [] }
    ensures first { delivered_of 0 worked_cuts worked_stream ≡ [] }
    ensures second { delivered_of 1 worked_cuts worked_stream ≡ (7 ∷ 8 ∷ []) ∷ [] }
    ensures kept { kept_of 1 worked_pieces worked_rows ≡ (7 ∷ 8 ∷ []) ∷ [] }
    ensures starts { TrueStarts (as_pieces worked_pieces) worked_rows }
    ensures octets { drop 8 (stream_to 18 zero_channels) ≡ first_octets }
{}
