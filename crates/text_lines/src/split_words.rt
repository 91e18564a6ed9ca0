//! The words of a line. Nothing is copied.
ghost use Rattle.std.specs.Prelude.{◌≡◌, ℕ, ◌≤◌, ◌<◌, ◌+◌, ◌∷◌, ◌++◌, [], List, length, IfSome, IfNone, true, false, ◌≢◌};
ghost use Rattle.std.specs.Prelude.{bytes_eq};
ghost use Rattle.text_lines.specs.Cut.{Lacks};
ghost use Rattle.text_lines.specs.WordsOfLine.{words, is_skipped};

use crate::split_text::cut;

// Most words are shorter, so that looking at their octets one by one is faster than a search by vectors.
const SHORT: usize = 8;

/// A text without the spaces at its front.
fn trim_start(mut text: &[u8]) -> &[u8]
    ensures words { words result.now ≡ words text.now }
    ensures first { (c : ℕ) (rest : List ℕ) → result.now ≡ c ∷ rest → c ≢ 32 }
    ensures shorter { length result.now ≤ length text.now }
{
    while let [first, rest @ ..] = text
        && *first == b' '
    {
        text = rest;
    }
    text
}

/// What stands before and after the first space.
#[inline]
fn cut_space(text: &[u8]) -> Option<(&[u8], &[u8])>
    ensures before { IfSome result (λ parts. Lacks 32 parts.0.now) }
    ensures some { IfSome result (λ parts. text.now ≡ parts.0.now ++ 32 ∷ parts.1.now) }
    ensures none { IfNone result (Lacks 32 text.now) }
{
    for i in 0..text.len().min(SHORT) {
        if text[i] == b' ' {
            return Some((&text[..i], &text[i + 1..]));
        }
    }
    cut(text, b' ')
}

/// The first word of a line, and the line after it.
pub fn next_word(line: &[u8]) -> Option<(&[u8], &[u8])>
    ensures some { IfSome result (λ parts. words line.now ≡ parts.0.now ∷ words parts.1.now) }
    ensures none { IfNone result (words line.now ≡ []) }
    ensures size { IfSome result (λ parts.
        length parts.0.now + length parts.1.now ≤ length line.now) }
    ensures moves { IfSome result (λ parts. length parts.1.now < length line.now) }
{
    let text = trim_start(line);
    if text.is_empty() {
        return None;
    }
    match cut_space(text) {
        Some((word, rest)) => Some((word, rest)),
        None => Some((text, &text[text.len()..])),
    }
}

/// The first word of a line and the line after it, where it has words and isn't a comment.
pub fn first_word(line: &[u8]) -> Option<(&[u8], &[u8])>
    ensures some { IfSome result (λ parts. words line.now ≡ parts.0.now ∷ words parts.1.now) }
    ensures said { IfSome result (λ _. is_skipped (words line.now) ≡ false) }
    ensures none { IfNone result (is_skipped (words line.now) ≡ true) }
    ensures size { IfSome result (λ parts.
        length parts.0.now + length parts.1.now ≤ length line.now) }
{
    let Some((word, rest)) = next_word(line) else {
        return None;
    };
    if word.first() == Some(&b'#') {
        return None;
    }
    Some((word, rest))
}

/// How many words a line has.
pub fn count_words(line: &[u8]) -> usize
    ensures { result ≡ length (words line.now) }
{
    let mut rest = line;
    let mut count = 0;
    while let Some((_, further)) = next_word(rest) {
        rest = further;
        count += 1;
    }
    count
}

/// The only word of a line.
pub fn one_word(line: &[u8]) -> Option<&[u8]>
    ensures some { IfSome result (λ word. words line.now ≡ word.now ∷ []) }
    ensures none { IfNone result (length (words line.now) ≢ 1) }
{
    let Some((word, rest)) = next_word(line) else {
        return None;
    };
    match next_word(rest) {
        Some(_) => None,
        None => Some(word),
    }
}

/// The two words of a line.
pub fn two_words(line: &[u8]) -> Option<(&[u8], &[u8])>
    ensures some { IfSome result (λ found. words line.now ≡ found.0.now ∷ found.1.now ∷ []) }
    ensures none { IfNone result (length (words line.now) ≢ 2) }
{
    let Some((first, rest)) = next_word(line) else {
        return None;
    };
    match one_word(rest) {
        Some(second) => Some((first, second)),
        None => None,
    }
}

/// The three words of a line.
pub fn three_words(line: &[u8]) -> Option<(&[u8], &[u8], &[u8])>
    ensures some { IfSome result (λ found.
        words line.now ≡ found.0.now ∷ found.1.now ∷ found.2.now ∷ []) }
    ensures none { IfNone result (length (words line.now) ≢ 3) }
{
    let Some((first, rest)) = next_word(line) else {
        return None;
    };
    match two_words(rest) {
        Some((second, third)) => Some((first, second, third)),
        None => None,
    }
}

/// The four words of a line.
pub fn four_words(line: &[u8]) -> Option<(&[u8], &[u8], &[u8], &[u8])>
    ensures some { IfSome result (λ found.
        words line.now ≡ found.0.now ∷ found.1.now ∷ found.2.now ∷ found.3.now ∷ []) }
    ensures none { IfNone result (length (words line.now) ≢ 4) }
{
    let Some((first, rest)) = next_word(line) else {
        return None;
    };
    match three_words(rest) {
        Some((second, third, fourth)) => Some((first, second, third, fourth)),
        None => None,
    }
}

/// Whether a word is this text.
pub fn spells(word: &[u8], text: &[u8]) -> bool
    ensures { result ≡ bytes_eq word.now text.now }
{
    word == text
}
