//! Lists of windows before any line says one.
ghost use Rattle.std.specs.Prelude.{◌≡◌, [], IfOk, replicate};

use law_model::{WindowList, WindowLists};
use std::alloc::{AllocError, Global};

/// No windows for a number of lines.
pub(crate) fn no_windows(alloc: Global, lines: u8) -> Result<WindowLists, AllocError>
    ensures { IfOk result (λ lists. lists ≡ replicate lines []) }
{
    let mut lists = Vec::with_capacity(alloc, usize::from(lines))?;
    for _ in 0..lines {
        lists.push(WindowList(Vec::new(alloc)))?;
    }
    Ok(WindowLists(lists))
}
