//! More rows take nothing back: what some rows say of a frame stands by more of them.

ghost use Rattle.std.specs.Prelude.{◌≡◌, ℕ, ◌+◌, ◌≤◌, List, ◌++◌};
ghost use Rattle.law_model.specs.Common.{Extent, Piece, StreamRow, Counts, run, Leg};
ghost use Rattle.law_model.specs.declared.walk_events.Event.{Event};
ghost use Rattle.law_walk.specs.Common.{session_rows, session_pieces, walk_plan};
ghost use Rattle.fate_engine.specs.Common.{fate_of, fate_at};
ghost use Rattle.law_service.specs.KeptFates.{Keeps, fates_after, first_fates, next_fates, last_fates};

/// More rows take nothing back: a frame that is got, cut, hunting or unsettled by some rows is the same by
/// more of them, and has the same rows; and one in whose segment nothing was confirmed stays so, or begins before
/// what is confirmed there by then. That is so of any stream and rows, of the accepted frames of a session, and
/// of those of a walk after more events.
pub fn kept_law()
    ensures frame { (pieces : List Piece) (rows more : List StreamRow) (frame : Extent) →
        frame.from + 4 ≤ frame.to → Keeps (fate_of pieces rows frame) (fate_of pieces (rows ++ more) frame) }
    ensures number { (pieces : List Piece) (rows more : List StreamRow) (i : ℕ) →
        Keeps (fate_at pieces rows i) (fate_at pieces (rows ++ more) i) }
    ensures session { (leg : Leg) (rows later i : ℕ) → rows ≤ later →
        Keeps (fate_at (session_pieces leg) (session_rows leg rows) i)
        (fate_at (session_pieces leg) (session_rows leg later) i) }
    ensures walk { (leg : Leg) (s : Counts) (events : List Event) (i : ℕ) →
        Keeps (fate_at (session_pieces leg) (session_rows leg s.rows) i)
        (fate_at (session_pieces leg) (session_rows leg (run (walk_plan leg) s events).rows) i) }
{}

/// What became of the frames of a worked stream by three of its rows, by four and by all six, computed: the
/// second frame is one in whose segment nothing is confirmed, until a place behind it is.
pub fn worked_kept_law()
    ensures first { fates_after 3 ≡ first_fates }
    ensures next { fates_after 4 ≡ next_fates }
    ensures last { fates_after 6 ≡ last_fates }
{}
