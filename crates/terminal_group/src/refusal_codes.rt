//! Why items were refused, in two bits an item.

ghost use Rattle.std.specs.Prelude.{◌≡◌, ℕ, ◌+◌, ◌<◌, ◌≤◌, ◌*◌, ◌/◌, ◌^◌, length, IfOk, IfSome, true};
ghost use Rattle.law_model.specs.declared.script_types.ItemKind.{ItemKind};
ghost use Rattle.terminal_group.specs.Item.{kind_in};
ghost use Rattle.terminal_group.specs.RefusalCodes.{code_at, code_in, reason_by, IsReason};

use law_model::{AcceptFault, CommandFault, ItemSort, Refusal};
use std::alloc::{AllocError, Global};
use std::marker::Model;

/// A code for each item: 0 where it isn't refused.
#[derive(Drop)]
pub(crate) struct RefusalCodes {
    /// Of 32 codes each.
    words: Vec<u64>,
}

impl Model for RefusalCodes {
    ghost use Rattle.std.specs.Prelude.{ℕ, List};

    ghost Value = { List ℕ };

    ghost view = { λ codes. codes.words.items };
}

impl RefusalCodes {
    /// So many items, none of which is refused.
    pub(crate) fn none(alloc: Global, items: u32) -> Result<RefusalCodes, AllocError>
        ensures none { IfOk result (λ codes. (number : ℕ) → code_at codes number ≡ 0) }
        ensures room { IfOk result (λ codes. items ≤ 32 * length codes) }
    {
        Ok(RefusalCodes {
            words: vec![in alloc; 0u64; items.div_ceil(32) as usize]?,
        })
    }

    /// The code of an item.
    pub(crate) fn code(&self, number: u32) -> u8
        requires { number < 32 * length self.now }
        ensures { result ≡ code_at self.now number }
    {
        let word = self.words[number as usize / 32];
        ((word >> (2 * (number % 32))) % 4) as u8
    }

    /// Whether the word that has the code of an item has no code but 0.
    pub(crate) fn is_clear(&self, number: u32) -> bool
        requires { number < 32 * length self.now }
        ensures { result ≡ true → (other : ℕ) → other / 32 ≡ number / 32 →
            code_at self.now other ≡ 0 }
    {
        self.words[number as usize / 32] == 0
    }

    /// Puts the code of an item that has none.
    pub(crate) fn put(&mut self, number: u32, code: u8)
        requires room { number < 32 * length self.old }
        requires code { code < 4 }
        requires none { code_at self.old number ≡ 0 }
        ensures put { code_at self.new number ≡ code }
        ensures others { (other : ℕ) → (other ≡ number → ⊥) →
            code_at self.new other ≡ code_at self.old other }
        ensures room { length self.new ≡ length self.old }
    {
        let place = number as usize / 32;
        self.words[place] = with_code(self.words[place], number % 32, code);
    }
}

/// A word with the code of a place that had none.
fn with_code(word: u64, place: u32, code: u8) -> u64
    requires place { place < 32 }
    requires code { code < 4 }
    requires none { code_in word place ≡ 0 }
    ensures { result ≡ word + code * 2 ^ (2 * place) }
{
    word + (u64::from(code) << (2 * place))
}

/// The code of why an item is refused, where it is.
pub(crate) fn code_of(why: Option<Refusal>) -> u8
    ensures few { result < 4 }
    ensures says { (lines : ℕ) (kind : ItemKind) → IfSome why (IsReason lines kind) →
        reason_by lines kind result ≡ why }
{
    match why {
        None => 0,
        Some(Refusal::Frame(AcceptFault::Length { n: _ })) => 1,
        Some(Refusal::Frame(AcceptFault::QueueFull { waiting: _ })) => 2,
        Some(Refusal::Command(CommandFault::UnknownLine { lines: _ })) => 1,
        Some(Refusal::Command(CommandFault::AlreadyIn | CommandFault::NotIn)) => 2,
        Some(Refusal::Command(CommandFault::TooManyPending { pending: _ })) => 3,
    }
}

/// Why an item is refused in a group of so many lines, by its code.
pub(crate) fn reason(lines: u8, sort: ItemSort, code: u8) -> Option<Refusal>
    ensures { result ≡ reason_by lines (kind_in sort) code }
{
    match (sort, code) {
        (ItemSort::Frame(octets), 1) => Some(Refusal::Frame(AcceptFault::Length {
            n: u64::from(octets),
        })),
        (ItemSort::Frame(_), 2) => Some(Refusal::Frame(AcceptFault::QueueFull { waiting: 256 })),
        (ItemSort::Add(_) | ItemSort::Remove(_), 1) => {
            Some(Refusal::Command(CommandFault::UnknownLine { lines }))
        }
        (ItemSort::Add(_), 2) => Some(Refusal::Command(CommandFault::AlreadyIn)),
        (ItemSort::Remove(_), 2) => Some(Refusal::Command(CommandFault::NotIn)),
        (ItemSort::Add(_) | ItemSort::Remove(_), 3) => {
            Some(Refusal::Command(CommandFault::TooManyPending { pending: 64 }))
        }
        _ => None,
    }
}
