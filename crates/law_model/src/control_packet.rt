//! The control packet of LCAS, and its sixteen nibbles as they are sent.

ghost use Rattle.std.specs.Prelude.{◌≡◌, ◌<◌, All};
ghost use Rattle.law_model.specs.packets.Packet.{covered_nibbles, packet_nibbles};

use check_nibbles::{crc8, nibble_hi, nibble_lo};
use member_cells::Ctrl;

/// A control packet, forward or return (G.7042). Its fields stand in the nibbles in which G.707 has them; ACT and CHG,
/// in nibbles that it reserves, are this project's own.
#[derive(Clone, Copy, Debug, PartialEq, Eq)]
pub struct Packet {
    /// The statuses of eight members: a bit is 0 for OK and 1 for FAIL, and the most significant one is for
    /// the least of their sequence numbers. 0 in a forward packet that has nothing to tell the other way of a
    /// pair.
    pub mst: u8,
    /// The acknowledgement (RS-Ack): the change bit that the sink last read. False in a forward packet
    /// that has nothing to tell.
    pub rs_ack: bool,
    /// The change bit (CHG): the number of changes of the group, modulo 2. False in a return packet.
    pub chg: bool,
    /// The sequence number (SQ) of the member, or 255 where it has none.
    pub sq: u8,
    /// The number of the multiframe in which the packet ends (MFI2), modulo 256.
    pub mfi2: u8,
    /// The control word (CTRL) of the member.
    pub ctrl: Ctrl,
    /// The bit of the group (GID).
    pub gid: bool,
    /// How many members carry payload (ACT). 0 in a return packet.
    pub act: u8,
}

/// Why sixteen nibbles are no packet.
#[derive(Clone, Copy, Debug, PartialEq, Eq)]
pub enum PacketFault {
    /// The check is wrong.
    Crc {
        /// The check that the last two nibbles say.
        said: u8,
        /// The check over the fourteen nibbles before them.
        found: u8,
    },
    /// The check is right, and no control word has the code.
    Ctrl {
        /// The code that the nibbles say, four bits.
        code: u8,
    },
}

impl Packet {
    /// The sixteen nibbles of the packet in the order of sending.
    pub fn nibbles(&self) -> [u8; 16]
        ensures { result ≡ packet_nibbles self.now }
    {
        let covered = self.covered();
        let check = crc8(&covered);
        let mut nibbles = [0; 16];
        nibbles[..14].copy_from_slice(&covered);
        nibbles[14] = nibble_hi(check);
        nibbles[15] = nibble_lo(check);
        nibbles
    }

    /// The fourteen nibbles that the check covers.
    fn covered(&self) -> [u8; 14]
        ensures value { result ≡ covered_nibbles self.now }
        ensures below { All (λ nibble. nibble < 16) result }
    {
        [
            nibble_hi(self.mst),
            nibble_lo(self.mst),
            u8::from(self.rs_ack),
            u8::from(self.chg),
            0,
            0,
            nibble_hi(self.sq),
            nibble_lo(self.sq),
            nibble_hi(self.mfi2),
            nibble_lo(self.mfi2),
            self.ctrl.code(),
            u8::from(self.gid),
            nibble_hi(self.act),
            nibble_lo(self.act),
        ]
    }
}
