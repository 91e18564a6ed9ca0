//! Where a line may stand, and which lines of the configuration and options stand already.
ghost use Rattle.std.specs.Prelude.{◌≡◌, IfErr, OnOk, None, Some};
ghost use Rattle.text_scripts.specs.script_read.Statements.{place, place_fault, behind_fault, unstood_fault};
ghost use Rattle.text_scripts.specs.script_read.Statements.{standing_at, none_stand};
ghost use Rattle.text_scripts.specs.script_read.Drafts.{IsPlaced};

use crate::script_read::script_draft::{Draft, Standing};
use crate::script_read::script_fault::LineFault;
use crate::script_read::script_keyword::{Keyword, awaited, begun_at, part_of};

impl Standing {
    /// None stands.
    pub(super) fn none() -> Standing
        ensures { result ≡ none_stand }
    {
        Standing {
            container: 0,
            lines: 0,
            delays: 0,
            ring: 0,
            lag: 0,
            ticks: 0,
            sink: 0,
            holdoff: 0,
            restore: 0,
            statuses: 0,
        }
    }

    /// The number of the line that begins with a word, or 0.
    fn at(&self, keyword: Keyword) -> u32
        ensures { result ≡ standing_at self.now keyword }
    {
        match keyword {
            Keyword::Container => self.container,
            Keyword::Lines => self.lines,
            Keyword::Delays => self.delays,
            Keyword::Ring => self.ring,
            Keyword::Lag => self.lag,
            Keyword::Ticks => self.ticks,
            Keyword::Sink => self.sink,
            Keyword::Holdoff => self.holdoff,
            Keyword::Restore => self.restore,
            Keyword::Statuses => self.statuses,
            _ => 0,
        }
    }
}

/// What is wrong with a line of an earlier part, where none such stands.
fn unstood_fault(next: u8, keyword: Keyword) -> LineFault
    ensures { result ≡ unstood_fault next keyword }
{
    match keyword {
        Keyword::Container => LineFault::ContainerFirst,
        _ => LineFault::Part {
            this: part_of(keyword.place()),
            begun: begun_at(next),
        },
    }
}

/// What is wrong with a line of an earlier part than the one that has begun.
fn behind_fault(draft: &Draft, keyword: Keyword) -> LineFault
    ensures { result ≡ behind_fault draft.now keyword }
{
    let line = draft.standing.at(keyword);
    if line > 0 {
        LineFault::Stands { keyword, line }
    } else {
        unstood_fault(draft.next, keyword)
    }
}

/// Tests whether a line may stand behind those of a draft.
pub(super) fn check_place(draft: &Draft, keyword: Keyword) -> Result<(), LineFault>
    ensures ok { OnOk result (place_fault draft.now keyword ≡ None) }
    ensures err { IfErr result (λ fault. place_fault draft.now keyword ≡ Some fault) }
    ensures stands { OnOk result (IsPlaced draft.now.next (place keyword)) }
{
    let next = draft.next;
    let at = keyword.place();
    if next < 6 && at != next && !(next == 0 && at == 1) {
        return Err(LineFault::Missing(awaited(next)));
    }
    if at < next {
        return Err(behind_fault(draft, keyword));
    }
    Ok(())
}
