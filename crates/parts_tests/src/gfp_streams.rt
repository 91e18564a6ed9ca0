//! Worked streams from outside the program: what is filled by frames, and what is found in them octet by octet and in
//! pieces.

ghost use Rattle.std.specs.Prelude.{◌≡◌, ◌<◌, IsSome};
ghost use Rattle.gfp_delineate.specs.Receiver.{frame_of};

use gfp_delineate::{Delineator, Step};
use gfp_fill::{Filler, FrameQueue};
use std::alloc::{AllocError, Global};

/// What is done to a queue and its filler: a frame is pushed that holds an octet 64 times, or so many octets of the
/// stream are written. Then a place of what is written, the octets that stand there, and how many frames wait. One
/// fill or many write the same; areas are scrambled one after another; a frame is begun after the idle that was begun.
const FILLED: &str = "\
    push 00|28;0;b6ab31e0b6ab31e0b6ef39a000011021000000220420000004408400;0\n\
    push 00|3|0|7|18;0;b6ab31e0b6ab31e0b6ef39a000011021000000220420000004408400;0\n\
    push 00|push 5a|28;0;b6ab31e0b6ab31e0b6ef39a000011021000000220420000004408400;1\n\
    push 00|push 5a|28|52|20;80;b6ef39a0100110237a185a785e35195115519cf9;0\n\
    push 00|push 5a|28|52|20|56|push 5a|20;156;b6ef39a038af9a89d0bd4fa90b604df3af7b3653;0\n\
    10|push 00|2;10;31e0;1\n\
    10|push 00|2|1;12;b6;0\n\
    10|push 00|2|1|75;13;ef39a0;0\n\
    10|push 00|2|1|75;84;b6ab31e0;0";

/// Does a step at a place of what is written, and gives the next place.
fn step(
    queue: &mut FrameQueue,
    filler: &mut Filler,
    step: &str,
    out: &mut [u8],
    at: usize,
) -> usize {
    if let Some(octet) = step.strip_prefix("push ") {
        let mut frame = [0; 1];
        let _ = hex::decode_to_slice(octet, &mut frame);
        let _ = queue.push(&[frame[0]; 64]);
        return at;
    }
    let end = at.saturating_add(step.parse::<usize>().unwrap_or(0));
    if let Some(part) = out.get_mut(at..end) {
        filler.fill(queue, part);
    }
    end
}

/// Writes what steps say, and tells how many frames wait after them.
fn filled(alloc: Global, steps: &str, out: &mut [u8]) -> Result<u16, AllocError> {
    let mut queue = FrameQueue::new(alloc)?;
    let mut filler = Filler::new();
    let mut at = 0usize;
    for each in steps.split('|') {
        at = step(&mut queue, &mut filler, each, out, at);
    }
    Ok(queue.waiting())
}

/// Whether what is written is that of a row.
fn is_filled(alloc: Global, row: &str) -> bool {
    let mut words = row.split(';');
    let mut out = [0xff; 180];
    let waits = filled(alloc, words.next().unwrap_or(""), &mut out);
    let place = words.next().unwrap_or("").parse::<usize>().unwrap_or(0);
    let octets = hex::decode(alloc, words.next().unwrap_or("x"));
    let waiting = words.next().unwrap_or("").parse::<u16>();
    match (waits, octets, waiting) {
        (Ok(waits), Ok(octets), Ok(waiting)) => {
            waits == waiting && out.get(place..).unwrap_or(&[]).starts_with(&octets)
        }
        _ => false,
    }
}

/// The first row of which something else is written.
fn first_wrong(alloc: Global) -> Option<&'static str> {
    for row in FILLED.lines() {
        if !is_filled(alloc, row) {
            return Some(row);
        }
    }
    None
}

#[test]
fn filled_streams(rt: HostRuntime) {
    assert_eq!(rt; first_wrong(rt.alloc()), None);
}

/// Two idles, and twice the frame of 64 zero octets.
const TWO: &str = "\
    b6ab31e0b6ab31e0b6ef39a0000110210000002204200000044084000000881080000011021000000220420000004408\
    4000000881080000011021000000220420000004408400000088108000001102b6ef39a0100110232042002204640840\
    04408c810800881190210011023204200220464084004408c810800881190210011023204200220464084004408c8108\
    0088119021001102";

/// What its octets complete: after how many of them, what, and the frame that is held.
const FRAMES: &str = "80 Frame 00*64\n152 Frame 00*64\n";

/// The same in a receiver that was broken.
const FRAMES_BEHIND_A_BREAK: &str = "80 Dropped(Unsettled)\n152 Frame 00*64\n";

/// Frames of mixed lengths from the middle of one on, where one area has an octet too much, and one header a
/// bit that is turned.
const FROM_THE_MIDDLE: &str = "\
    3333333773b7777777ff67ffffffeeb6a0808becfeefdedfffbdffd9f9ddb6ab31e0b6ef39a0f7beeb1e088dc4ee50f2\
    228baef92d776246ec169ddf7beeb1e088dc4ee50f2228baef92d776246ec169ddf7beeb1e088dc4ee50f2228baef92d\
    776246ec169ddf7beeb1b6ee2981d3baff5c927e331bafd60b822731be853400a27394e2c4500a36d81cce45029f47dd\
    8ce417acbff5d8c6b1d3baff5c927e331bafd60b822731be853400a27394e2c4500a36b6a2a0c99c5aaa431386de001d\
    b6af71646271cbe1b6ac410703ad5e180b5702b6bb23d1abc2114b68ddf0caa15ae5933691dcb43ab6ab31e0b6a6e04d\
    66d32bb71ed543fcef7a4331e6b68935c09dee584796791761a2586588469ee1a61ba279769e69dee584796791761a25\
    865884b6be6145c345a0eaabb6ab31e0b6bf63559869a43c99bfc1f84b5ffb34f3c5a733aa52b478b6a7f06ce6745a77\
    52c11356933785ffb6ad51266ad376d15103";

/// What its octets complete.
const MIXED: &str = "\
    106 Dropped(Header(Check { said: 60190, found: 52291 }))\n\
    179 Dropped(TooLong { pli: 69 })\n\
    192 Dropped(Header(NotEthernet { upi: 2 }))\n\
    200 Frame \n\
    211 Frame 77*3\n\
    231 Frame 888888888837fe2d2fc5f7e8\n\
    253 Dropped(Unsettled)\n\
    291 Frame aa*30\n\
    328 Dropped(Unsettled)\n\
    344 Frame dd*8\n\
    354 Frame ee*2\n";

/// Appends octets in digits, as `77*3` where one comes several times.
fn tell_frame(frame: &[u8], told: &mut String) {
    let first = frame.first().copied().unwrap_or(0);
    if frame.len() > 1 && frame.iter().all(|octet| *octet == first) {
        let _ = write!(told, "{first:02x}*{}", frame.len());
        return;
    }
    for octet in frame {
        let _ = write!(told, "{octet:02x}");
    }
}

/// Appends what octets up to a place complete, if anything.
fn tell(delineator: &Delineator, place: usize, step: Step, told: &mut String)
    requires { step ≡ Step.Frame → IsSome (frame_of delineator.now) }
{
    match step {
        Step::Nothing => {}
        Step::Frame => {
            let _ = write!(told, "{place} Frame ");
            tell_frame(delineator.frame(), told);
            let _ = told.push_str("\n");
        }
        Step::Dropped(_) => {
            let _ = write!(told, "{place} {step:?}\n");
        }
    }
}

/// Appends what octets complete that come one by one.
fn tell_octets(delineator: &mut Delineator, octets: &[u8], told: &mut String) {
    for (at, octet) in octets.iter().enumerate() {
        let step = delineator.byte(*octet);
        tell(delineator, at + 1, step, told);
    }
}

/// The same of octets that come in pieces of so many.
fn tell_pieces(delineator: &mut Delineator, octets: &[u8], size: usize, told: &mut String)
    requires { 0 < size }
{
    let mut place = 0usize;
    for piece in octets.chunks(size) {
        let mut rest = piece;
        for _ in 0..piece.len() {
            let (taken, step) = delineator.feed(rest);
            rest = &rest[taken..];
            place = place.wrapping_add(taken);
            tell(delineator, place, step, told);
        }
    }
}

/// What a stream completes that comes in pieces, or octet by octet where their size is 0, in a receiver that is new or
/// was broken.
fn completed(alloc: Global, stream: &str, is_broken: bool, size: usize) -> String {
    let mut told = String::new(alloc);
    if let (Ok(octets), Ok(mut delineator)) = (
        hex::decode(alloc, stream),
        Delineator::new(alloc, 64),
    ) {
        if is_broken {
            delineator.broken();
        }
        if size == 0 {
            tell_octets(&mut delineator, &octets, &mut told);
        } else {
            tell_pieces(&mut delineator, &octets, size, &mut told);
        }
    }
    told
}

/// Streams, whether the receiver was broken, and what is completed.
const ANSWERS: [(&str, bool, &str); 3] = [
    (TWO, false, FRAMES),
    (TWO, true, FRAMES_BEHIND_A_BREAK),
    (FROM_THE_MIDDLE, false, MIXED),
];

/// The first stream, by its place, of which something else is completed in pieces of a size.
fn first_other(alloc: Global, size: usize) -> Option<usize> {
    for (place, (stream, is_broken, answer)) in ANSWERS.iter().enumerate() {
        if completed(alloc, stream, *is_broken, size).as_str() != *answer {
            return Some(place);
        }
    }
    None
}

#[test]
fn answers_of_streams(rt: HostRuntime) {
    let alloc = rt.alloc();
    let other = [0, 1, 7, 8, 200].map(|size| first_other(alloc, size));
    assert_eq!(rt; other, [None; 5]);
}
