//! Reads the sixteen nibbles of a control packet (LCAS, G.7042). The packet, its nibbles as they are sent and
//! the definitions stand in law_model; begin with `read`. `packet_law`: what is sent is read back. The place of
//! a packet among the H4 octets of a line is not said here.

ghost use Rattle.std.specs.Prelude.{◌≡◌, ◌≢◌, ℕ, ◌%◌, ◌==◌, ◌<◌, ◌↔◌, List, length, All, IsOk, IsSome, IfOk, None};
ghost use Rattle.law_model.specs.Common.{ctrl_of, IsPacket, packet_nibbles, covered_nibbles, octet_at, bit_at};
ghost use Rattle.law_model.specs.Common.{said_check, found_check, said_code, packet_of, cleared_nibbles, read_of};

use check_nibbles::{crc8, join_nibbles};
pub use law_model::{Packet, PacketFault};
use member_cells::Ctrl;

/// Reads sixteen nibbles. The reserved nibbles and the upper bits of those that hold one bit are covered by
/// the check and otherwise ignored.
pub fn read(nibbles: &[u8; 16]) -> Result<Packet, PacketFault>
    requires { All (λ nibble. nibble < 16) nibbles.now }
    ensures value { result ≡ read_of nibbles.now }
    ensures crc { (result
        ≡ Err (PacketFault.Crc (said_check nibbles.now) (found_check nibbles.now)))
        ↔ (said_check nibbles.now ≢ found_check nibbles.now) }
    ensures ctrl { (result ≡ Err (PacketFault.Ctrl (said_code nibbles.now)))
        ↔ ((said_check nibbles.now ≡ found_check nibbles.now)
        × (ctrl_of (said_code nibbles.now) ≡ None)) }
    ensures ok { IsOk result
        ↔ ((said_check nibbles.now ≡ found_check nibbles.now)
        × IsSome (ctrl_of (said_code nibbles.now))) }
    // What is accepted is the nibbles of the answer, apart from the ignored bits and the check over them.
    ensures cleared { IfOk result (λ packet. covered_nibbles packet ≡ cleared_nibbles nibbles.now) }
    ensures own { (packet : Packet) → IsPacket packet → nibbles.now ≡ packet_nibbles packet →
        result ≡ Ok packet }
{
    let said = octet(nibbles, 14);
    let found = check(nibbles);
    if said != found {
        return Err(PacketFault::Crc { said, found });
    }
    let code = nibbles[10];
    match Ctrl::of(code) {
        Some(ctrl) => Ok(packet_of(nibbles, ctrl)),
        None => Err(PacketFault::Ctrl { code }),
    }
}

/// What is read of any list of numbers: what is sent is read back, and a list of which a packet is read is
/// sixteen nibbles with a right check, which are those of the packet apart from the ignored bits.
pub fn packet_law()
    ensures back { (packet : Packet) → IsPacket packet →
        read_of (packet_nibbles packet) ≡ Ok packet }
    ensures nibbles { (nibbles : List ℕ) (packet : Packet) → read_of nibbles ≡ Ok packet →
        (length nibbles ≡ 16) × All (λ nibble. nibble < 16) nibbles }
    ensures check { (nibbles : List ℕ) (packet : Packet) → read_of nibbles ≡ Ok packet →
        said_check nibbles ≡ found_check nibbles }
    ensures cleared { (nibbles : List ℕ) (packet : Packet) → read_of nibbles ≡ Ok packet →
        covered_nibbles packet ≡ cleared_nibbles nibbles }
    ensures octets { (nibbles : List ℕ) (packet : Packet) → read_of nibbles ≡ Ok packet →
        IsPacket packet }
{}

/// The check over the first fourteen nibbles.
fn check(nibbles: &[u8; 16]) -> u8
    requires { All (λ nibble. nibble < 16) nibbles.now }
    ensures { result ≡ found_check nibbles.now }
{
    let mut covered = [0; 14];
    covered.copy_from_slice(&nibbles[..14]);
    crc8(&covered)
}

/// The packet that nibbles say, with this control word.
fn packet_of(nibbles: &[u8; 16], ctrl: Ctrl) -> Packet
    requires { All (λ nibble. nibble < 16) nibbles.now }
    ensures { result ≡ packet_of nibbles.now ctrl }
{
    Packet {
        mst: octet(nibbles, 0),
        rs_ack: bit(nibbles, 2),
        chg: bit(nibbles, 3),
        sq: octet(nibbles, 6),
        mfi2: octet(nibbles, 8),
        ctrl,
        gid: bit(nibbles, 11),
        act: octet(nibbles, 12),
    }
}

/// The octet of a nibble and the next one.
fn octet(nibbles: &[u8; 16], at: usize) -> u8
    requires below { All (λ nibble. nibble < 16) nibbles.now }
    requires at { at < 15 }
    ensures { result ≡ octet_at nibbles.now at }
{
    join_nibbles(nibbles[at], nibbles[at + 1])
}

/// The lowest bit of a nibble.
fn bit(nibbles: &[u8; 16], at: usize) -> bool
    requires { at < 16 }
    ensures { result ≡ bit_at nibbles.now at }
{
    nibbles[at] % 2 == 1
}
