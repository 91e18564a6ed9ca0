//! Idle frames, and words that come again, which a piece begins with: they are taken in one go.
ghost use Rattle.std.specs.Prelude.{◌≡◌, ◌≢◌, ℕ, ◌+◌, ◌-◌, ◌*◌, ◌<◌, ◌≤◌, true, ◌∷◌, [], ◌++◌, length, take, drop};
ghost use Rattle.std.specs.Prelude.{replicate, flat_map};
ghost use Rattle.std.specs.Int.{to_le_bytes, w64};
ghost use Rattle.law_model.specs.Common.{with_header};
ghost use Rattle.gfp_delineate.specs.Repeated.{repeated};

/// The core header of an idle frame.
const IDLE: [u8; 4] = [0xb6, 0xab, 0x31, 0xe0];

/// Two of them as a word, whose first octet is the least significant.
const TWO_IDLES: u64 = 0xe031_abb6_e031_abb6;

/// The number of idle headers that a piece begins with.
#[inline]
pub(crate) fn idle_run(piece: &[u8]) -> usize
    ensures within { 4 * result ≤ length piece.now }
    ensures run { take (4 * result) piece.now ≡ flat_map with_header (replicate result []) }
{
    // Where frames wait, most headers are no idle's.
    if piece.len() < 4 || !is_idle(piece, 0) {
        return 0;
    }
    let pairs = word_run(piece, TWO_IDLES);
    let at = 8 * pairs;
    if piece.len() - at >= 4 && is_idle(piece, at) {
        2 * pairs + 1
    } else {
        2 * pairs
    }
}

/// How often octets begin with a word, again and again, until another word comes or fewer than eight octets are left.
/// The first octet of the word is its least significant one.
#[inline]
pub fn word_run(piece: &[u8], word: u64) -> usize
    ensures within { 8 * result ≤ length piece.now }
    ensures run { take (8 * result) piece.now ≡ repeated result (to_le_bytes w64 word) }
    ensures stops { take 8 (drop (8 * result) piece.now) ≢ to_le_bytes w64 word }
{
    let blocks = block_run(piece, word);
    8 * blocks + few_words(&piece[64 * blocks..], word)
}

/// How often octets begin with eight times a word.
#[inline]
fn block_run(piece: &[u8], word: u64) -> usize
    ensures within { 64 * result ≤ length piece.now }
    ensures run { take (64 * result) piece.now ≡ repeated (8 * result) (to_le_bytes w64 word) }
{
    for i in 0..piece.len() / 64 {
        if !are_eight(piece, 64 * i, word) {
            return i;
        }
    }
    piece.len() / 64
}

/// How often octets begin with a word, one by one.
#[inline]
fn few_words(piece: &[u8], word: u64) -> usize
    ensures within { 8 * result ≤ length piece.now }
    ensures run { take (8 * result) piece.now ≡ repeated result (to_le_bytes w64 word) }
    ensures stops { take 8 (drop (8 * result) piece.now) ≢ to_le_bytes w64 word }
{
    for i in 0..piece.len() / 8 {
        if word_at(piece, 8 * i) != word {
            return i;
        }
    }
    piece.len() / 8
}

/// Whether a word stands eight times at a place.
#[inline]
fn are_eight(piece: &[u8], at: usize, word: u64) -> bool
    requires { at + 64 ≤ length piece.now }
    ensures { result ≡ true → take (at + 64) piece.now
        ≡ take at piece.now ++ repeated 8 (to_le_bytes w64 word) }
{
    // All are looked at before the answer, so that LLVM compares them by vectors.
    are_four(piece, at, word) & are_four(piece, at + 32, word)
}

/// Whether a word stands four times at a place.
#[inline]
fn are_four(piece: &[u8], at: usize, word: u64) -> bool
    requires { at + 32 ≤ length piece.now }
    ensures { result ≡ true → take (at + 32) piece.now
        ≡ take at piece.now ++ repeated 4 (to_le_bytes w64 word) }
{
    are_two(piece, at, word) & are_two(piece, at + 16, word)
}

/// Whether a word stands twice at a place.
#[inline]
fn are_two(piece: &[u8], at: usize, word: u64) -> bool
    requires { at + 16 ≤ length piece.now }
    ensures { result ≡ true → take (at + 16) piece.now
        ≡ take at piece.now ++ repeated 2 (to_le_bytes w64 word) }
{
    (word_at(piece, at) == word) & (word_at(piece, at + 8) == word)
}

/// The word that the eight octets at a place are, the first one least significant.
#[inline]
fn word_at(piece: &[u8], at: usize) -> u64
    requires { at + 8 ≤ length piece.now }
    ensures { take (at + 8) piece.now ≡ take at piece.now ++ to_le_bytes w64 result }
{
    u64::from_le_bytes([
        piece[at],
        piece[at + 1],
        piece[at + 2],
        piece[at + 3],
        piece[at + 4],
        piece[at + 5],
        piece[at + 6],
        piece[at + 7],
    ])
}

/// Whether an idle header stands at a place.
#[inline]
fn is_idle(piece: &[u8], at: usize) -> bool
    requires { at + 4 ≤ length piece.now }
    ensures { result ≡ true →
        take (at + 4) piece.now ≡ take at piece.now ++ 0xb6 ∷ 0xab ∷ 0x31 ∷ 0xe0 ∷ [] }
{
    [piece[at], piece[at + 1], piece[at + 2], piece[at + 3]] == IDLE
}

/// Whether the last octets of a header are the first ones of an idle frame's.
pub(crate) fn begins_idle(window: &[u8; 4], have: u8) -> bool
    requires { have < 4 }
    ensures begun { result ≡ true →
        drop (4 - have) window.now ≡ take have (0xb6 ∷ 0xab ∷ 0x31 ∷ 0xe0 ∷ []) }
    ensures all { (place : ℕ) →
        drop (4 - have) window.now ≡ take place (0xb6 ∷ 0xab ∷ 0x31 ∷ 0xe0 ∷ []) → result ≡ true }
{
    let have = usize::from(have);
    &window[4 - have..] == &IDLE[..have]
}
