//! The reader of a whole text.
ghost use Rattle.std.specs.Prelude.{◌≡◌, ◌≤◌, ◌-◌, ◌++◌, ◌∷◌, [], length, vec_len, replicate, IfOk, IfErr, OnOk, Ok};
ghost use Rattle.text_lines.specs.LineFaults.{IsTextFault};
ghost use Rattle.law_model.specs.Limits.{longest_input};
ghost use Rattle.member_au4.specs.declared.au4_pointer.au_frame.Action.TheVariants.{Keep};
ghost use Rattle.member_au4.specs.au4_link.Link.{link_in, link_of, IsLink};

use crate::au4_link::au4_draft::{ActionList, Au4Draft, Link};
use crate::au4_link::au4_keyword::Au4Keyword;
use crate::au4_link::au4_text_fault::Early;
use crate::au4_link::read_au4_line::{read_move, read_new};
use crate::au4_pointer::Action;
use std::alloc::{AllocError, Global};
use text_lines::{LineStop, LineTable, TextFault, one_number, read_text};

/// Adds Keep up to a frame.
fn keep_up_to(actions: &mut Vec<Action>, frame: u32) -> Result<(), AllocError>
    requires { vec_len actions.old ≤ frame }
    ensures { OnOk result (actions.new.items
        ≡ actions.old.items ++ replicate (frame - vec_len actions.old) Keep) }
{
    while actions.len() < frame as usize {
        actions.push(Action::Keep)?;
    }
    Ok(())
}

/// Adds the action of a frame behind those before it.
fn add_action(actions: &mut ActionList, frame: u32, a: Action) -> Result<(), AllocError>
    requires { length actions.old ≤ frame }
    ensures { OnOk result
        (actions.new ≡ actions.old ++ replicate (frame - length actions.old) Keep ++ a ∷ []) }
{
    keep_up_to(&mut actions.0, frame)?;
    actions.0.push(a)?;
    Ok(())
}

impl LineTable for Au4Draft {
    ghost use Rattle.member_au4.specs.au4_link.LinkTextLines.{link_table};

    type Keyword = Au4Keyword;

    type Own = Early;

    ghost table = { link_table };

    fn at_start(alloc: Global) -> Au4Draft {
        Au4Draft {
            start: 0,
            frames: 0,
            actions: ActionList(Vec::new(alloc)),
        }
    }

    fn keyword(word: &[u8]) -> Option<Au4Keyword> {
        Au4Keyword::of(word)
    }

    fn place(keyword: Au4Keyword) -> u64 {
        match keyword {
            Au4Keyword::Start => 0,
            Au4Keyword::Frames => 1,
            Au4Keyword::Up | Au4Keyword::Down | Au4Keyword::New => 2,
        }
    }

    fn must() -> u64 {
        2
    }

    fn awaited(next: u64) -> Au4Keyword {
        if next == 0 {
            Au4Keyword::Start
        } else {
            Au4Keyword::Frames
        }
    }

    fn add(
        &mut self,
        _alloc: Global,
        keyword: Au4Keyword,
        rest: &[u8],
    ) -> Result<(), LineStop<Au4Keyword, Early>> {
        match keyword {
            Au4Keyword::Start => {
                self.start = one_number::<Au4Keyword, Early>(
                    Au4Keyword::Start,
                    rest,
                    0,
                    782,
                )? as u16;
            }
            Au4Keyword::Frames => {
                self.frames = one_number::<Au4Keyword, Early>(
                    Au4Keyword::Frames,
                    rest,
                    1,
                    100_000,
                )? as u32;
            }
            Au4Keyword::Up => {
                let frame = read_move(self, Au4Keyword::Up, rest)?;
                add_action(&mut self.actions, frame, Action::Up)?;
            }
            Au4Keyword::Down => {
                let frame = read_move(self, Au4Keyword::Down, rest)?;
                add_action(&mut self.actions, frame, Action::Down)?;
            }
            Au4Keyword::New => {
                let (frame, value) = read_new(self, rest)?;
                add_action(&mut self.actions, frame, Action::New(value))?;
            }
        }
        Ok(())
    }
}

/// The link that a draft has become: Keep in all frames that no line named.
fn finished(draft: Au4Draft) -> Result<Link, AllocError>
    requires { length draft.actions ≤ draft.frames }
    ensures { IfOk result (λ link. link ≡ link_in draft) }
{
    let Au4Draft {
        start,
        frames,
        mut actions,
    } = draft;
    keep_up_to(&mut actions.0, frames)?;
    Ok(Link { start, actions })
}

/// The link that a text of at most 67,108,864 octets says. Else its first fault: that of the first faulty
/// line. Want of memory may come in place of any answer. No action of the link is refused.
pub fn read_link(alloc: Global, text: &[u8]) -> Result<Link, TextFault<Au4Keyword, Early>>
    requires { length text.now ≤ longest_input }
    ensures link { IfOk result (λ link. link_of text.now ≡ Ok link) }
    ensures valid { IfOk result IsLink }
    ensures fault { IfErr result (λ fault. IsTextFault (link_of text.now) fault) }
{
    let draft = match read_text::<Au4Draft>(alloc, text) {
        Ok(draft) => draft,
        Err(fault) => return Err(fault),
    };
    match finished(draft) {
        Ok(link) => Ok(link),
        Err(_) => Err(TextFault::Memory),
    }
}
