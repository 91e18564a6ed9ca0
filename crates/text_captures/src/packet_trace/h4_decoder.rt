//! The control packets in the H4 octets of a line, octet by octet.
ghost use Rattle.std.specs.Prelude.{◌≡◌, ℕ, ◌+◌, ◌<◌, List, [], ◌∷◌, ◌++◌, option_to_list};
ghost use Rattle.law_model.specs.packets.Decode.{packets_in};
ghost use Rattle.text_captures.specs.packet_trace.Decoder.{DecoderStands};
ghost use Rattle.text_captures.specs.packet_trace.PacketWording.{AreWorded, AreOnly, PacketsStay};
ghost use Rattle.text_captures.specs.packet_trace.WorkedDecoding.{AreRead, IsRefused};

use check_nibbles::{nibble_hi, nibble_lo};
use member_path::h4_multiframe::{MfiLock, Place};
use member_rows::lcas_packet::{Packet, PacketFault, read};
use std::marker::Model;

/// Finds the control packets in the H4 octets of a line, all of whose cells are good.
#[derive(Clone, Copy)]
pub struct H4Decoder {
    given: u64,
    lock: MfiLock,
    /// The nibbles of a packet that has begun are the first `begun`; none has where that is 0.
    nibbles: [u8; 16],
    begun: usize,
}

impl Model for H4Decoder {
    ghost use Rattle.std.specs.Prelude.{◌<◌, ◌≤◌, All};
    ghost use Rattle.text_captures.specs.packet_trace.Decoder.{Decoding};

    ghost Value = { Decoding };

    ghost view = { λ decoder. record {
      given = decoder.given;
      lock = decoder.lock;
      nibbles = decoder.nibbles;
      begun = decoder.begun;
    } };

    ghost inverse = { λ decoding. record {
      given = decoding.given;
      lock = decoding.lock;
      nibbles = decoding.nibbles;
      begun = decoding.begun;
    } };

    ghost invariant = { λ decoder. (decoder.begun < 16) × (decoder.begun ≤ decoder.given)
        × All (λ nibble. nibble < 16) decoder.nibbles };
}

impl Default for H4Decoder {
    ghost is_default = { λ decoder. DecoderStands decoder [] };

    fn default() -> H4Decoder {
        H4Decoder::new()
    }
}

impl H4Decoder {
    /// A decoder of a line of which no octet has come.
    pub fn new() -> H4Decoder
        ensures given { result.given ≡ 0 }
        ensures stands { DecoderStands result [] }
    {
        H4Decoder {
            given: 0,
            lock: MfiLock::new(),
            nibbles: [0; 16],
            begun: 0,
        }
    }

    /// Takes the next H4 octet. The answer comes at the last octet of a packet all of whose octets came while
    /// the line was locked: the place of its first octet, counted from 0, and what is read of it.
    pub fn octet(&mut self, h4: u8) -> Option<(u64, Result<Packet, PacketFault>)>
        requires { self.old.given < 4294967295 }
        ensures given { self.new.given ≡ self.old.given + 1 }
        ensures stands { (octets : List ℕ) → DecoderStands self.old octets →
            DecoderStands self.new (octets ++ h4 ∷ []) }
        ensures packets { (octets : List ℕ) → DecoderStands self.old octets →
            packets_in (octets ++ h4 ∷ []) ≡ packets_in octets ++ option_to_list result }
    {
        self.given += 1;
        let Place::At(_) = self.lock.good(h4) else {
            self.begun = 0;
            return None;
        };
        if self.begun == 0 && nibble_lo(h4) != 8 {
            return None;
        }
        self.nibbles[self.begun] = nibble_hi(h4);
        self.begun += 1;
        if self.begun < 16 {
            return None;
        }
        self.begun = 0;
        let found = read(&self.nibbles);
        Some((self.given - 16, found))
    }
}

/// The packets that are computed of octets are those that are worded of them, and no others are. More octets
/// have these first.
pub fn packets_law()
    ensures worded { AreWorded }
    ensures only { AreOnly }
    ensures stay { PacketsStay }
{}

/// What is written of the octets of a line with two packets, and with a wrong check in the second.
pub fn worked_law()
    ensures read { AreRead }
    ensures refused { IsRefused }
{}
