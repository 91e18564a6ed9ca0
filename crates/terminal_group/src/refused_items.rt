//! The items that were refused, one after another.

ghost use Rattle.std.specs.Prelude.{◌≡◌, ◌+◌, ◌<◌, ◌≤◌, ◌*◌, [], ◌∷◌, length, slice_get, Some, IfSome, IfNone};
ghost use Rattle.law_model.specs.Common.{most_items};
ghost use Rattle.law_model.specs.declared.script_types.Item.{Item};
ghost use Rattle.terminal_group.specs.RefusalCodes.{code_at, reason_by, refusals_in, refusals_left};

use crate::bare_list::BareList;
use crate::refusal_codes::{RefusalCodes, reason};
use law_model::Refusal;
use std::marker::Model;

/// The items that were refused and why, one after another in the order of the script. A contract sees those that are
/// left.
#[derive(Drop)]
pub struct Refusals<'a> {
    items: &'a BareList,
    codes: &'a RefusalCodes,
    lines: u8,
    /// The number of the first item that is left.
    number: u32,
}

impl<'a> Model for Refusals<'a> {
    ghost use Rattle.std.specs.Prelude.{ℕ, ◌≤◌, ◌*◌, List, length};
    ghost use Rattle.law_model.specs.declared.item_refusals.Refusal.{Refusal};
    ghost use Rattle.terminal_group.specs.RefusalCodes.{refusals_left};

    ghost Value = { List (ℕ × Refusal) };

    ghost view = { λ r. refusals_left r.lines r.codes.now r.number r.items.now };

    ghost invariant = { λ r. length r.items.now ≤ 32 * length r.codes.now };
}

impl<'a> Refusals<'a> {
    /// Those of items that have these codes, in a group of so many lines.
    pub(crate) fn new(items: &'a BareList, codes: &'a RefusalCodes, lines: u8) -> Refusals<'a>
        requires { length items.now ≤ 32 * length codes.now }
        ensures { result ≡ refusals_in lines codes.now items.now }
    {
        Refusals {
            items,
            codes,
            lines,
            number: 0,
        }
    }

    /// The next one: the number of its item, and why.
    pub fn next(&mut self) -> Option<(u32, Refusal)>
        ensures some { IfSome result (λ refused. self.old ≡ refused ∷ self.new) }
        ensures none { IfNone result (self.old ≡ []) }
        ensures ended { IfNone result (self.new ≡ []) }
    {
        match first_refusal(self.items, self.codes, self.lines, self.number) {
            Some((number, why)) => {
                self.number = number + 1;
                Some((number, why))
            }
            None => {
                self.number = self.items.len();
                None
            }
        }
    }
}

/// The first refusal of an item from a number on.
fn first_refusal(
    items: &BareList,
    codes: &RefusalCodes,
    lines: u8,
    from: u32,
) -> Option<(u32, Refusal)>
    requires { length items.now ≤ 32 * length codes.now }
    ensures few { IfSome result (λ refused. refused.0 < most_items) }
    ensures some { IfSome result (λ refused. refusals_left lines codes.now from items.now
        ≡ refused ∷ refusals_left lines codes.now (refused.0 + 1) items.now) }
    ensures none { IfNone result (refusals_left lines codes.now from items.now ≡ []) }
{
    let mut number = from;
    while number < items.len() {
        if codes.is_clear(number) {
            number = (number / 32 + 1) * 32;
        } else if let Some(why) = reason_at(items, codes, lines, number) {
            return Some((number, why));
        } else {
            number += 1;
        }
    }
    None
}

/// Why an item was refused, where it was.
fn reason_at(items: &BareList, codes: &RefusalCodes, lines: u8, number: u32) -> Option<Refusal>
    requires item { number < length items.now }
    requires code { number < 32 * length codes.now }
    ensures { (item : Item) → slice_get items.now number ≡ Some item →
        result ≡ reason_by lines item.kind (code_at codes.now number) }
{
    match codes.code(number) {
        0 => None,
        code => reason(lines, items.head(number).sort, code),
    }
}
