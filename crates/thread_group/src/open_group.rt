//! What a group begins with, but its ends of the rings.

ghost use Rattle.std.specs.Prelude.{◌≡◌, IfOk};
ghost use Rattle.law_model.specs.Common.{leg_of, IsValid};
ghost use Rattle.thread_group.specs.OpenedGroup.{IsOpened};

use crate::item_journal::Journal;
use law_model::Script;
use member_cells::{HeldContainer, blank_boxes};
use std::alloc::{AllocError, Global};
use terminal_group::{CountedSource, Landing};

/// What a group begins with, before anything has come.
#[derive(Drop)]
pub(crate) struct Opened {
    pub(crate) source: CountedSource,
    pub(crate) landing: Landing,
    pub(crate) journal: Journal,
    /// Boxes for the containers of a frame.
    pub(crate) frame: Vec<Box<HeldContainer>>,
}

/// Opens a group of a script, with room for so many entries of its journal and so many octets of frames.
pub(crate) fn open(
    alloc: Global,
    script: &Script,
    entries: u32,
    bytes: u64,
) -> Result<Opened, AllocError>
    requires { IsValid script.now }
    ensures opened { IfOk result (λ opened. IsOpened (leg_of script.now) opened) }
    ensures slots { IfOk result (λ opened. opened.journal.slots ≡ entries) }
    ensures bytes { IfOk result (λ opened. opened.journal.bytes ≡ bytes) }
{
    Ok(Opened {
        frame: blank_boxes(alloc, usize::from(script.config.lines))?,
        journal: Journal::new(entries, bytes),
        landing: Landing::of(alloc, script)?,
        source: CountedSource::new(alloc, &script.config)?,
    })
}
