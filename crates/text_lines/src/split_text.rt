//! The lines of a text. Nothing is copied.
ghost use Rattle.std.specs.Prelude.{◌≡◌, ℕ, ◌≤◌, ◌<◌, ◌+◌, ◌-◌, List, ◌∷◌, ◌++◌, []};
ghost use Rattle.std.specs.Prelude.{length, take, drop, IfSome, IfNone};
ghost use Rattle.std.specs.Str.Lines.{lines, strip_carriage_return};
ghost use Rattle.text_lines.specs.Cut.{Lacks};

use memchr::memchr;

/// What stands before and after the first place of an octet.
pub fn cut(text: &[u8], octet: u8) -> Option<(&[u8], &[u8])>
    ensures before { IfSome result (λ parts. Lacks octet parts.0.now) }
    ensures some { IfSome result (λ parts. text.now ≡ parts.0.now ++ octet ∷ parts.1.now) }
    ensures none { IfNone result (Lacks octet text.now) }
{
    let Some(end) = memchr(octet, text) else {
        return None;
    };
    Some((&text[..end], &text[end + 1..]))
}

/// A line without the CR at its end.
pub fn without_return(line: &[u8]) -> &[u8]
    ensures { result.now ≡ strip_carriage_return line.now }
{
    match line {
        [front @ .., b'\r'] => front,
        _ => line,
    }
}

/// The first line of a text without its end, an LF with at most one CR before it, and the text after it. The last line
/// may lack its LF.
pub fn next_line(text: &[u8]) -> Option<(&[u8], &[u8])>
    ensures some { IfSome result (λ parts. lines text.now ≡ parts.0.now ∷ lines parts.1.now) }
    ensures none { IfNone result (lines text.now ≡ []) }
    ensures size { IfSome result (λ parts.
        length parts.0.now + length parts.1.now ≤ length text.now) }
    ensures moves { IfSome result (λ parts. length parts.1.now < length text.now) }
{
    if text.is_empty() {
        return None;
    }
    match cut(text, b'\n') {
        Some((line, rest)) => Some((without_return(line), rest)),
        None => Some((text, &text[text.len()..])),
    }
}

/// The first line of a text that an LF ends, without its end, and the text after it.
pub fn next_whole_line(text: &[u8]) -> Option<(&[u8], &[u8])>
    ensures some { IfSome result (λ parts. (more : List ℕ) →
        let n = length text.now - length parts.1.now in
        lines (take n text.now ++ more) ≡ parts.0.now ∷ lines more) }
    ensures rest { IfSome result (λ parts.
        parts.1.now ≡ drop (length text.now - length parts.1.now) text.now) }
    ensures moves { IfSome result (λ parts. length parts.1.now < length text.now) }
    ensures none { IfNone result (Lacks 10 text.now) }
{
    match cut(text, b'\n') {
        Some((line, rest)) => Some((without_return(line), rest)),
        None => None,
    }
}
