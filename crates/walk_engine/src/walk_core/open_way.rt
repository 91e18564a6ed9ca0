//! What one direction of a network begins with, before any event.

ghost use Rattle.std.specs.Prelude.{◌≡◌, length, All, IfOk};
ghost use Rattle.std.specs.Global.{Vec, Box};
ghost use Rattle.law_model.specs.Common.{Container, IsNetwork};
ghost use Rattle.terminal_group.specs.SourceByCounts.{IsUnusedOn};
ghost use Rattle.walk_engine.specs.walk_core.OpenedWay.{AreOpened, AreRings, IsNewSink, IsNew};

use crate::walk_parts::WalkLine;
use law_model::Config;
use member_cells::{HeldContainer, blank_boxes};
use member_rows::realign_rows::RowGather;
use std::alloc::{AllocError, Global};
use terminal_group::CountedSource;
use terminal_sink::sink_core::SinkCore;

/// The frames that the send rings hold.
pub(super) const SENDS: usize = 32;

/// Both terminals.
#[derive(Drop)]
pub(super) struct Ends {
    pub(super) source: CountedSource,
    pub(super) sink: SinkCore,
}

/// The lines, and the send rings before them.
#[derive(Drop)]
pub(super) struct Paths {
    /// Each place holds the containers of a frame.
    pub(super) sent: Vec<Vec<Box<HeldContainer>>>,
    pub(super) lines: Vec<WalkLine>,
}

/// All that moves in one direction, before any event.
#[derive(Drop)]
pub(super) struct Opened {
    pub(super) paths: Paths,
    pub(super) rows: RowGather,
    pub(super) ends: Ends,
}

/// Opens all that moves in the direction of a network. What has the most parts is opened last, so that little is let
/// go where memory is short.
pub(super) fn open(alloc: Global, config: &Config) -> Result<Opened, AllocError>
    requires { IsNetwork config.now }
    ensures { IfOk result (λ opened. IsNew config.now opened) }
{
    let paths = open_paths(alloc, config)?;
    let rows = RowGather::new(alloc, config.lines)?;
    let ends = open_ends(alloc, config)?;
    Ok(Opened { paths, rows, ends })
}

/// Opens the terminals.
fn open_ends(alloc: Global, config: &Config) -> Result<Ends, AllocError>
    requires { IsNetwork config.now }
    ensures source { IfOk result (λ ends. IsUnusedOn config.now ends.source) }
    ensures sink { IfOk result (λ ends. IsNewSink config.now ends.sink) }
{
    let sink = SinkCore::new(alloc, config.lines, config.size, config.options)?;
    let source = CountedSource::new(alloc, config)?;
    Ok(Ends { source, sink })
}

/// Opens the lines and their send rings.
fn open_paths(alloc: Global, config: &Config) -> Result<Paths, AllocError>
    requires { IsNetwork config.now }
    ensures sent { IfOk result (λ paths. AreRings config.now.lines paths.sent.items) }
    ensures lines { IfOk result (λ paths.
        AreOpened config.now config.now.lines paths.lines.items) }
{
    Ok(Paths {
        sent: new_sent(alloc, config.lines)?,
        lines: new_lines(alloc, config)?,
    })
}

/// Send rings of a number of lines, all empty.
fn new_sent(alloc: Global, lines: u8) -> Result<Vec<Vec<Box<HeldContainer>>>, AllocError>
    ensures places { IfOk result (λ sent. length sent.items ≡ 32) }
    ensures lines { IfOk result (λ sent.
        All (λ (frame : Vec (Box Container)). length frame.items ≡ lines) sent.items) }
{
    let mut sent = Vec::with_capacity(alloc, SENDS)?;
    for _ in 0..SENDS {
        sent.push(blank_boxes(alloc, usize::from(lines))?)?;
    }
    Ok(sent)
}

/// The lines of a network, before any carry.
fn new_lines(alloc: Global, config: &Config) -> Result<Vec<WalkLine>, AllocError>
    requires { IsNetwork config.now }
    ensures { IfOk result (λ lines. AreOpened config.now config.now.lines lines.items) }
{
    let mut lines = Vec::with_capacity(alloc, usize::from(config.lines))?;
    for m in 0..usize::from(config.lines) {
        lines.push(WalkLine::new(
            alloc,
            config.delays.0[m],
            &config.windows.0[m].0,
            config.ticks,
            config.ring,
        )?)?;
    }
    Ok(lines)
}
