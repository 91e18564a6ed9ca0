//! What a line of a link's text says behind its keyword.
ghost use Rattle.std.specs.Prelude.{◌≡◌, ◌≤◌, length, IfOk, IfErr, None, Some};
ghost use Rattle.text_lines.specs.WordsOfLine.{words, number_at};
ghost use Rattle.text_lines.specs.LineFaults.{IsLineStop};
ghost use Rattle.text_lines.specs.LanguageTable.{rest_fault};
ghost use Rattle.text_lines.specs.declared.text_faults.LineFault.TheVariants as wrong;
ghost use Rattle.member_au4.specs.au4_link.LinkTextLines.{link_table, least_next, last_named, move_fault};

use crate::au4_link::au4_draft::{ActionList, Au4Draft};
use crate::au4_link::au4_keyword::Au4Keyword;
use crate::au4_link::au4_text_fault::Early;
use text_lines::{LineFault, LineStop, count_fault, number_within, one_number, two_words};

/// The least frame that the next line may name.
fn least_next(actions: &ActionList) -> u64
    ensures least { result ≡ least_next actions.now }
    ensures behind { length actions.now ≤ result }
{
    let count = actions.0.len() as u64;
    if count == 0 { 0 } else { count + 3 }
}

/// Why a line that names a frame too early wasn't read. It never is Memory, though no clause says so: a link has at
/// most 100,000 frames, and no action is behind the last.
fn early_stop(draft: &Au4Draft) -> LineStop<Au4Keyword, Early>
    ensures { IsLineStop result (Some (wrong.Own (last_named draft.now))) }
{
    let last = draft.actions.0.len().saturating_sub(1);
    if last > 4_294_967_295 {
        return LineStop::Memory;
    }
    LineStop::Fault(LineFault::Own(Early { frame: last as u32 }))
}

/// The frame of a move.
pub(super) fn read_move(
    draft: &Au4Draft,
    keyword: Au4Keyword,
    rest: &[u8],
) -> Result<u32, LineStop<Au4Keyword, Early>>
    ensures ok { IfOk result (λ frame. (move_fault draft.now keyword (words rest.now) ≡ None)
        × (frame ≡ number_at 0 (words rest.now))) }
    ensures behind { IfOk result (λ frame. length draft.now.actions ≤ frame) }
    ensures err { IfErr result (λ stop.
        IsLineStop stop (move_fault draft.now keyword (words rest.now))) }
{
    let most = u64::from(draft.frames).saturating_sub(1);
    let frame = one_number::<Au4Keyword, Early>(keyword, rest, 1, most)?;
    if frame < least_next(&draft.actions) {
        return Err(early_stop(draft));
    }
    Ok(frame as u32)
}

/// The frame of a new value, and the value.
pub(super) fn read_new(
    draft: &Au4Draft,
    rest: &[u8],
) -> Result<(u32, u16), LineStop<Au4Keyword, Early>>
    ensures ok { IfOk result (λ read.
        (rest_fault link_table draft.now Au4Keyword.New (words rest.now) ≡ None)
        × (read.0 ≡ number_at 0 (words rest.now)) × (read.1 ≡ number_at 1 (words rest.now))) }
    ensures behind { IfOk result (λ read. length draft.now.actions ≤ read.0) }
    ensures err { IfErr result (λ stop.
        IsLineStop stop (rest_fault link_table draft.now Au4Keyword.New (words rest.now))) }
{
    let Some((frame, value)) = two_words(rest) else {
        return Err(LineStop::Fault(count_fault(Au4Keyword::New, 2, rest)));
    };
    let most = u64::from(draft.frames).saturating_sub(1);
    let frame = number_within(frame, 2, 0, most)?;
    let value = number_within(value, 3, 0, 782)? as u16;
    if frame < least_next(&draft.actions) {
        return Err(early_stop(draft));
    }
    Ok((frame as u32, value))
}
