//! Boxes for containers.

ghost use Rattle.std.specs.Prelude.{◌≡◌, length, IfOk};
ghost use Rattle.member_cells.specs.HeldPlaces.{AreBlank};

use crate::held_container::HeldContainer;
use std::alloc::{AllocError, Global};

/// So many boxes with a blank container each.
pub fn blank_boxes(alloc: Global, count: usize) -> Result<Vec<Box<HeldContainer>>, AllocError>
    ensures count { IfOk result (λ boxes. length boxes.items ≡ count) }
    ensures blank { IfOk result (λ boxes. AreBlank boxes.items) }
{
    let mut boxes = Vec::with_capacity(alloc, count)?;
    for _ in 0..count {
        boxes.push(Box::new(alloc, HeldContainer::new())?)?;
    }
    Ok(boxes)
}
