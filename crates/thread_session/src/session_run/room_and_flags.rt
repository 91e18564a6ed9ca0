//! What a session has besides its parts: the flags and bells of its threads, and room that is taken before any of them
//! starts.
ghost use Rattle.std.specs.Prelude.{◌≡◌, ◌<◌, IfOk, vec_len};
ghost use Rattle.thread_session.specs.session_parts.ServedLines.{HaveRoom};
ghost use Rattle.thread_session.specs.session_run.RoomForThreads.{HasRoomFor};

use crate::session_parts::{Bell, Flag, Held};
use law_model::FrameRoom;
use std::alloc::{AllocError, Global};
use std::sync::Wait;
use thread_alarms::alarm_log::AlarmPost;
use thread_alarms::watched_line::ServedLine;
use thread_rings::LineWorker;

/// The flags at which threads look before each turn, each with its bell, and the bell of the sink, which is
/// told by none.
#[derive(Drop)]
pub(super) struct Flags {
    pub(super) client: Flag,
    pub(super) operator: Flag,
    pub(super) source: Flag,
    pub(super) lines: Vec<Flag>,
    pub(super) sink: Bell,
}

impl Flags {
    ghost use Rattle.std.specs.Prelude.{◌≡◌, IfOk, vec_len};

    /// The flags of a session with this number of line threads. None is stored.
    pub(super) fn new(alloc: Global, workers: u8) -> Result<Flags, AllocError>
        ensures { IfOk result (λ flags. vec_len flags.lines ≡ workers) }
    {
        let mut lines = Vec::with_capacity(alloc, usize::from(workers))?;
        for _ in 0..workers {
            lines.push_reserved(Flag::new());
        }
        Ok(Flags {
            client: Flag::new(),
            operator: Flag::new(),
            source: Flag::new(),
            lines,
            sink: Bell::new(),
        })
    }

    /// Stores all of them, so that no thread goes on while another one is waited for.
    pub(super) fn store_all<R: Wait>(&self, rt: &R) {
        self.client.store(rt);
        self.operator.store(rt);
        self.source.store(rt);
        for line in self.lines.iter() {
            line.store(rt);
        }
    }

    /// Rings for those that go on with the containers that the source has made.
    pub(super) fn ring_for_lines(&self) {
        for line in self.lines.iter() {
            line.bell.ring();
        }
    }

    /// Rings for all behind the source, before it waits for them.
    pub(super) fn ring_behind_source(&self) {
        self.ring_for_lines();
        self.sink.ring();
    }

    /// Rings for those that wait for return cells of the sink, and for slots that it has left free.
    pub(super) fn ring_around_sink(&self) {
        for line in self.lines.iter() {
            line.bell.ring_from_behind();
        }
        self.source.bell.ring_from_behind();
    }
}

/// Places for the lines while they are dealt to threads and come back, and for a frame that the source draws.
#[derive(Drop)]
pub(super) struct Room {
    pub(super) shares: Vec<Vec<ServedLine>>,
    pub(super) held: Vec<Held>,
    pub(super) back: Vec<Vec<ServedLine>>,
    pub(super) lines: Vec<ServedLine>,
    pub(super) frame: FrameRoom,
}

impl Room {
    ghost use Rattle.std.specs.Prelude.{◌<◌, IfOk};
    ghost use Rattle.thread_session.specs.session_run.RoomForThreads.{HasRoomFor};

    /// Room for so many lines and for so many threads.
    pub(super) fn new(alloc: Global, lines: u8, workers: u8) -> Result<Room, AllocError>
        requires { 0 < workers }
        ensures { IfOk result (λ room. HasRoomFor lines workers room) }
    {
        let count = usize::from(lines);
        let threads = usize::from(workers);
        Ok(Room {
            shares: empty_shares(alloc, count, workers)?,
            held: Vec::with_capacity(alloc, threads)?,
            back: Vec::with_capacity(alloc, threads)?,
            lines: Vec::with_capacity(alloc, count)?,
            frame: FrameRoom::new(alloc)?,
        })
    }
}

/// Places for lines that are put together of their workers and posts, and taken apart again.
#[derive(Drop)]
pub(super) struct Places {
    pub(super) lines: Vec<ServedLine>,
    pub(super) workers: Vec<LineWorker>,
    pub(super) posts: Vec<AlarmPost>,
}

impl Places {
    ghost use Rattle.std.specs.Prelude.{IfOk};
    ghost use Rattle.thread_session.specs.session_run.RoomForThreads.{HasPlacesFor};

    /// Places for so many lines.
    pub(super) fn new(alloc: Global, lines: u8) -> Result<Places, AllocError>
        ensures { IfOk result (λ places. HasPlacesFor lines places) }
    {
        let count = usize::from(lines);
        Ok(Places {
            lines: Vec::with_capacity(alloc, count)?,
            workers: Vec::with_capacity(alloc, count)?,
            posts: Vec::with_capacity(alloc, count)?,
        })
    }
}

/// What a session has besides its parts.
#[derive(Drop)]
pub(super) struct Kit {
    pub(super) flags: Flags,
    pub(super) room: Room,
    pub(super) places: Places,
    /// For a frame that is drawn once all threads have ended.
    pub(super) frame: FrameRoom,
}

impl Kit {
    ghost use Rattle.std.specs.Prelude.{◌<◌, IfOk};
    ghost use Rattle.thread_session.specs.session_run.RoomForThreads.{IsKitFor};

    /// What so many lines need, and so many threads for them. What has the most parts is made last, so that
    /// little is let go where memory is short.
    pub(super) fn new(alloc: Global, lines: u8, workers: u8) -> Result<Kit, AllocError>
        requires { 0 < workers }
        ensures { IfOk result (IsKitFor lines) }
    {
        let frame = FrameRoom::new(alloc)?;
        let places = Places::new(alloc, lines)?;
        let room = Room::new(alloc, lines, workers)?;
        let flags = Flags::new(alloc, workers)?;
        Ok(Kit {
            flags,
            room,
            places,
            frame,
        })
    }
}

/// So many shares that are empty, each with room for so many lines.
fn empty_shares(
    alloc: Global,
    lines: usize,
    workers: u8,
) -> Result<Vec<Vec<ServedLine>>, AllocError>
    ensures count { IfOk result (λ shares. vec_len shares ≡ workers) }
    ensures room { IfOk result (λ shares. HaveRoom lines shares.items) }
{
    let mut shares = Vec::with_capacity(alloc, usize::from(workers))?;
    for _ in 0..workers {
        shares.push_reserved(Vec::with_capacity(alloc, lines)?);
    }
    Ok(shares)
}
