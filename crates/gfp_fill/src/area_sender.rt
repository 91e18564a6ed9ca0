//! The stream of payload areas, octet by octet, and idle frames between them.

ghost use Rattle.std.specs.Prelude.{◌≡◌, ℕ, ◌+◌, ◌*◌, ◌/◌, ◌^◌, ◌<◌, ◌≤◌, List, [], ◌∷◌, ◌++◌, length, min, take};
ghost use Rattle.std.specs.Prelude.{drop, replicate, flat_map};
ghost use Rattle.law_model.specs.Common.{with_header};
ghost use Rattle.gfp_fill.specs.SentAreas.{head_of, StandsIn, HasWrittenIn};

use crate::copy_octets::{copy_some, put};
use crate::frame_store::BegunFrame;
use gfp_headers::core_bytes;
use gfp_scramble::Scrambler;
use std::marker::Model;

// The octets of a core header, and of it with the longest headers that stand in an area.
const CORE_HEADER: usize = 4;

const HEADERS: usize = 12;

// The core headers of three idle frames, of which the last ones are sent.
const IDLES_LAST: [u8; HEADERS] = [
    0xb6, 0xab, 0x31, 0xe0, 0xb6, 0xab, 0x31, 0xe0, 0xb6, 0xab, 0x31, 0xe0,
];

// How many idle frames are written at once, and their octets.
const IDLES: usize = 16;

const IDLE_OCTETS: [u8; CORE_HEADER * IDLES] = [
    0xb6, 0xab, 0x31, 0xe0, 0xb6, 0xab, 0x31, 0xe0, 0xb6, 0xab, 0x31, 0xe0, 0xb6, 0xab, 0x31, 0xe0,
    0xb6, 0xab, 0x31, 0xe0, 0xb6, 0xab, 0x31, 0xe0, 0xb6, 0xab, 0x31, 0xe0, 0xb6, 0xab, 0x31, 0xe0,
    0xb6, 0xab, 0x31, 0xe0, 0xb6, 0xab, 0x31, 0xe0, 0xb6, 0xab, 0x31, 0xe0, 0xb6, 0xab, 0x31, 0xe0,
    0xb6, 0xab, 0x31, 0xe0, 0xb6, 0xab, 0x31, 0xe0, 0xb6, 0xab, 0x31, 0xe0, 0xb6, 0xab, 0x31, 0xe0,
];

/// Writes payload areas, whatever is in them, each behind its core header, and idle frames where it is asked to. The
/// areas are scrambled as one list, and the core headers are not. What is in an area its caller puts in place; the
/// sender keeps nothing of it but the headers with which it begins.
#[derive(Clone, Copy)]
pub struct AreaSender {
    scrambler: Scrambler,
    // The headers that were begun last, as they are sent, at the end of the array, and at which place of it those begin
    // that aren't written.
    headers: [u8; HEADERS],
    sent: usize,
}

impl Model for AreaSender {
    ghost use Rattle.std.specs.Prelude.{◌≤◌};
    ghost use Rattle.gfp_fill.specs.SentAreas.{Sender};

    ghost Value = { Sender };

    ghost view = { λ sender. record { headers = sender.headers; sent = sender.sent; scrambler = sender.scrambler } };

    ghost invariant = { λ sender. sender.sent ≤ 12 };

    ghost inverse = { λ sender. record { scrambler = sender.scrambler; headers = sender.headers; sent = sender.sent } };
}

impl AreaSender {
    /// A sender of which nothing is written. Two idle frames are begun.
    pub fn new() -> AreaSender
        ensures { StandsIn result [] ([] ∷ [] ∷ []) 0 }
    {
        AreaSender {
            scrambler: Scrambler::new(),
            headers: IDLES_LAST,
            sent: CORE_HEADER,
        }
    }

    /// How many octets of the headers that were begun aren't written.
    #[inline]
    pub fn left(&self) -> usize
        ensures { result ≡ length (head_of self.now) }
    {
        let headers = &self.headers[..];
        headers.len() - self.sent
    }

    /// Begins an area with the headers in it, as they are before scrambling, and `n` octets behind them. It has at
    /// least four octets: a core header with a PLI of 1 to 3 is that of no area.
    #[inline]
    pub fn begin(&mut self, front: &[u8], n: usize)
        requires done { head_of self.old ≡ [] }
        requires room { length front.now ≤ 8 }
        requires least { 4 ≤ length front.now + n }
        requires fits { length front.now + n < 2 ^ 16 }
        ensures some { 4 ≤ length (head_of self.new) }
        ensures begins { (rest : List ℕ) (areas : List (List ℕ)) (place : ℕ) → length rest ≡ n →
            StandsIn self.old [] areas place →
            StandsIn self.new rest (areas ++ (front.now ++ rest) ∷ []) place }
    {
        let area = HEADERS - front.len();
        put(
            &mut self.headers,
            area - CORE_HEADER,
            &core_bytes((front.len() + n) as u16),
        );
        put(&mut self.headers, area, front);
        self.scrambler.area(&mut self.headers[area..]);
        self.sent = area - CORE_HEADER;
    }

    /// Writes as many octets of the headers as aren't written and `out` has room for, and says how many.
    #[inline]
    pub fn send_headers(&mut self, out: &mut [u8]) -> usize
        ensures count { result ≡ min (length (head_of self.old)) (length out.old) }
        ensures behind { drop result out.new ≡ drop result out.old }
        ensures writes { (left : List ℕ) (areas : List (List ℕ)) (place : ℕ) →
            StandsIn self.old left areas place →
            HasWrittenIn self.new left areas place (take result out.new) }
    {
        let n = copy_some(&self.headers[self.sent..], out);
        self.sent += n;
        n
    }

    /// Writes as many octets of the frame that is being sent as aren't written and `out` has room for, and
    /// says how many.
    #[inline]
    pub fn send_frame(&mut self, frame: &mut BegunFrame, out: &mut [u8]) -> usize
        requires { head_of self.old ≡ [] }
        ensures count { result ≡ min (length frame.old) (length out.old) }
        ensures behind { drop result out.new ≡ drop result out.old }
        ensures writes { (areas : List (List ℕ)) (place : ℕ) →
            StandsIn self.old frame.old areas place →
            HasWrittenIn self.new frame.new areas place (take result out.new) }
    {
        let n = frame.send(out);
        self.scrambler.area(&mut out[..n]);
        n
    }

    /// Writes as many whole idle frames as `out` has room for, or where it has no room for one, the octets of one for
    /// which it has, and says how many octets. Where all areas are written, those frames are begun that have these
    /// octets.
    #[inline]
    pub fn send_idles(&mut self, out: &mut [u8]) -> usize
        requires room { 0 < length out.old }
        requires done { head_of self.old ≡ [] }
        ensures whole { 4 ≤ length out.old → result ≡ 4 * (length out.old / 4) }
        ensures part { length out.old < 4 → result ≡ length out.old }
        ensures some { 0 < result }
        ensures within { result ≤ length out.old }
        ensures writes { (areas : List (List ℕ)) (place : ℕ) → StandsIn self.old [] areas place →
            HasWrittenIn self.new [] (areas ++ replicate ((result + 3) / 4) []) place
            (take result out.new) }
    {
        let n = put_idles(out);
        if n > 0 {
            return n;
        }
        self.headers = IDLES_LAST;
        self.sent = HEADERS - CORE_HEADER;
        self.send_headers(out)
    }
}

/// Writes as many whole idle frames as there is room for, and says how many octets they have.
fn put_idles(out: &mut [u8]) -> usize
    ensures count { result ≡ 4 * (length out.old / 4) }
    ensures idles { take result out.new ≡ flat_map with_header (replicate (length out.old / 4) []) }
{
    let n = out.len() / CORE_HEADER;
    let blocks = n / IDLES;
    for i in 0..blocks {
        put(out, IDLE_OCTETS.len() * i, &IDLE_OCTETS);
    }
    let rest = &IDLE_OCTETS[..CORE_HEADER * (n % IDLES)];
    put(out, IDLE_OCTETS.len() * blocks, rest);
    CORE_HEADER * n
}
