//! The laws of fates: what became of each frame of a stream that comes in rows, and whether what is confirmed
//! after each break was true. There is no code here. Begin at `got_law`; `fate_law` says of a walk that if all
//! marks are true the premise on breaks holds, and `made_law` that the taken rows and the pieces made so far
//! decide all fates.

ghost use Rattle.std.specs.Prelude.{◌≡◌, ℕ, ◌<◌, ◌≤◌, ◌↔◌, ◌-◌, ◌&&◌, nat_lt, not, true, false, List, [], ◌∷◌, ◌++◌};
ghost use Rattle.std.specs.Prelude.{map, length, All, Option, None};
ghost use Rattle.std.specs.List.{list_any};
ghost use Rattle.law_model.specs.Common.{Piece, idle, stream_of, StreamRow, segments, deliver, octets_of_rows, Extent};
ghost use Rattle.law_model.specs.Common.{extents, is_carried, lies_in, is_frame_lost, TrueStarts, frames_kept, Stream};
ghost use Rattle.law_model.specs.Common.{reached, stream_before, rows_of, Leg, Counts, Scenario, is_whole_row, Told};
ghost use Rattle.law_model.specs.Common.{IsSound};
ghost use Rattle.law_loss.specs.CarriedStream.{CarriesStream, IsSentPiece};
ghost use Rattle.fate_engine.specs.fate_law.Fates.{HasPlace, row_at, spoiled_after, fate_of, is_got, frames_got};
ghost use Rattle.fate_engine.specs.fate_law.Marks.{is_piece_at, are_true_marks};
ghost use Rattle.fate_engine.specs.fate_law.Ruler.{ruler_of, ruled};
ghost use Rattle.law_loss.specs.WorkedLosses.{worked_pieces, worked_rows};
ghost use Rattle.fate_engine.specs.fate_law.Spans.{later_segments, fate_by_rows};
ghost use Rattle.fate_engine.specs.fate_law.Worked.{worked_fates, worked_segments, worked_causes};
ghost use Rattle.fate_engine.specs.fate_law.Worked.{worked_runs, worked_ruler};
ghost use Rattle.fate_engine.specs.fate_law.SessionFates.{fate_at, ended_of, got_frames};
ghost use Rattle.fate_engine.specs.fate_law.RowCauses.{row_cause, spoiled_runs};
ghost use Rattle.law_walk.specs.Common.{IsWalked, session_rows, delivered_of, session_pieces, ConfirmsTrue};

/// What became of an accepted frame, by the rows in which its piece begins and ends.
#[derive(Clone, Copy, Debug, PartialEq, Eq)]
pub enum Fate {
    /// Its piece isn't begun, or doesn't end in the rows.
    Waits,
    /// It lies in no segment: a row from its first to its last isn't whole.
    Cut {
        /// The row of its first octet.
        first: u32,
        /// The row of its last octet.
        last: u32,
        /// The first of these rows that isn't whole.
        spoiled: u32,
    },
    /// Nothing is confirmed in its segment.
    Unconfirmed {
        /// The row of its first octet.
        first: u32,
        /// The row of its last octet.
        last: u32,
    },
    /// It begins before the place that is confirmed first in its segment.
    Hunting {
        /// The row of its first octet.
        first: u32,
        /// The row of its last octet.
        last: u32,
    },
    /// No client frame lies between that place and it.
    Unsettled {
        /// The row of its first octet.
        first: u32,
        /// The row of its last octet.
        last: u32,
    },
    /// It is delivered, where what is confirmed is true.
    Got {
        /// The row of its first octet.
        first: u32,
        /// The row of its last octet.
        last: u32,
    },
}

/// Why a row isn't whole.
#[derive(Clone, Copy, Debug, PartialEq, Eq)]
pub enum Cause {
    /// No line has a control packet that can be read.
    Packet,
    /// It isn't known which lines carry payload. This one does, and has none; it is the least such line.
    PacketOf {
        /// Counted from 0.
        line: u8,
    },
    /// The container of this line, which carries payload, isn't good; it is the least such line.
    Container {
        /// Counted from 0.
        line: u8,
    },
}

/// Rows of a stream that aren't whole, for one cause: as many in turn as there are.
#[derive(Clone, Copy, Debug, PartialEq, Eq)]
pub struct SpoiledRun {
    /// The first of them, counted from 0.
    pub first: u32,
    /// The first row after them.
    pub end: u32,
    /// Why they aren't whole.
    pub cause: Cause,
}

/// The rows of a segment, all of which are whole, and its mark.
#[derive(Clone, Copy, Debug, PartialEq, Eq)]
pub struct RowSegment {
    /// The first of them, counted from 0.
    pub first: u32,
    /// The first row after them.
    pub end: u32,
    /// The place of the stream that is confirmed first in the segment.
    pub mark: Option<u64>,
}

/// Whether all marks are true is decided: what is confirmed first in a later segment is then the place of a
/// piece, and not by chance.
pub fn marks_law()
    ensures { (pieces : List Piece) (rows : List StreamRow) → CarriesStream rows pieces →
        (are_true_marks pieces rows ≡ true) ↔ TrueStarts pieces rows }
{}

/// A frame of the stream is got exactly where the rows carry it and it isn't lost; and where all marks are
/// true, the frames that are got are those that are delivered, in order and each once.
pub fn got_law()
    ensures each { (pieces : List Piece) (rows : List StreamRow) (frame : Extent) →
        frame.from < frame.to →
        is_got (fate_of pieces rows frame)
        ≡ (is_carried (length (octets_of_rows rows)) frame
        && not (is_frame_lost (segments rows) (extents 0 pieces) frame)) }
    ensures kept { (pieces : List Piece) (rows : List StreamRow) →
        frames_got pieces rows ≡ frames_kept pieces rows }
    ensures delivered { (longest : ℕ) (pieces : List Piece) (rows : List StreamRow) →
        longest ≤ 65531 → All (IsSentPiece longest) pieces → CarriesStream rows (idle ∷ idle ∷ pieces) →
        are_true_marks (idle ∷ idle ∷ pieces) rows ≡ true →
        frames_got (idle ∷ idle ∷ pieces) rows ≡ deliver longest rows }
{}

/// The row of a place has it; and a frame that the rows carry lies in a segment exactly where all its rows
/// are whole, and else the first of them that isn't is one of its rows. So its fate is known by its rows, the
/// rows that aren't whole, and the mark of the segment that has its first row.
pub fn row_law()
    ensures place { (rows : List StreamRow) (place : ℕ) → place < length (octets_of_rows rows) →
        HasPlace rows place (row_at rows place) }
    ensures lies { (rows : List StreamRow) (frame : Extent) → frame.from < frame.to →
        frame.to ≤ length (octets_of_rows rows) →
        list_any (λ segment. lies_in segment frame) (segments rows)
        ≡ nat_lt (row_at rows (frame.to - 1)) (spoiled_after rows (row_at rows frame.from)) }
    ensures cut { (rows : List StreamRow) (frame : Extent) → frame.from < frame.to →
        frame.to ≤ length (octets_of_rows rows) →
        list_any (λ segment. lies_in segment frame) (segments rows) ≡ false →
        (row_at rows frame.from ≤ spoiled_after rows (row_at rows frame.from))
        × (spoiled_after rows (row_at rows frame.from) ≤ row_at rows (frame.to - 1)) }
    ensures fate { (pieces : List Piece) (rows : List StreamRow) (frame : Extent) →
        frame.from < frame.to → frame.to ≤ length (octets_of_rows rows) → fate_of pieces rows frame
        ≡ fate_by_rows rows (extents 0 pieces) frame (row_at rows frame.from) (row_at rows (frame.to - 1)) }
{}

/// The places of client frames need lengths alone; and the pieces that the rows reach say of each place of
/// theirs whether a piece begins there.
pub fn ruler_law()
    ensures reached { (place : ℕ) (stream : Stream) → ruler_of (reached place stream)
        ≡ ruled place (ruler_of stream).end (ruler_of stream).sent (ruler_of stream).waiting }
    ensures front { (place : ℕ) (front more : List Piece) → place < length (stream_of front) →
        is_piece_at (front ++ more) place ≡ is_piece_at front place }
{}

/// More pieces change no fate of rows that the first ones reach: the fates of a session's taken rows are
/// known by the pieces that are made with as many ticks, and those of all its ticks give the same.
pub fn made_law()
    ensures front { (pieces more : List Piece) (rows : List StreamRow) →
        length (octets_of_rows rows) ≤ length (stream_of pieces) →
        (i : ℕ) → fate_at (pieces ++ more) rows i ≡ fate_at pieces rows i }
    ensures session { (scenario : Scenario) (cells : List (Option Told)) (taken t n i : ℕ) →
        taken ≤ t → t ≤ n →
        fate_at (stream_before scenario cells n).pieces (rows_of scenario cells taken) i
        ≡ fate_at (stream_before scenario cells t).pieces (rows_of scenario cells taken) i }
{}

/// A row has a cause exactly where it isn't whole.
pub fn cause_law()
    ensures { (scenario : Scenario) (cells : List (Option Told)) (t : ℕ) →
        (row_cause scenario cells t ≡ None) ↔ (is_whole_row scenario cells t ≡ true) }
{}

/// After a walk: `starts true` comes exactly where what is confirmed first after each break is the place of a
/// piece, and then the frames that are got are those that are delivered, in order and each once.
pub fn fate_law()
    ensures starts { (leg : Leg) (s : Counts) → IsSound leg → IsWalked leg s →
        (are_true_marks (session_pieces leg) (session_rows leg s.rows) ≡ true)
        ↔ ConfirmsTrue leg s.rows }
    ensures got { (leg : Leg) (s : Counts) → IsSound leg → IsWalked leg s →
        are_true_marks (session_pieces leg) (session_rows leg s.rows) ≡ true →
        got_frames (ended_of leg s) ≡ delivered_of leg s.rows }
{}

/// Worked streams, computed: what became of six frames in five rows, of which the second and the fourth aren't
/// whole. These cut the first frame and the fifth; the second is sought through, the third settles the
/// descrambler and the fourth is got; and behind the fourth row, where the last lies, nothing is confirmed. The
/// two segments behind these rows, with their marks, and that all marks are true; runs of rows that aren't
/// whole; and the places of client frames up to one that lies in a frame.
pub fn worked_law()
    ensures fates { map (fate_of worked_pieces worked_rows) (extents 0 worked_pieces) ≡ worked_fates }
    ensures segments { later_segments worked_rows ≡ worked_segments }
    ensures starts { are_true_marks worked_pieces worked_rows ≡ true }
    ensures runs { spoiled_runs 40 worked_causes ≡ worked_runs }
    ensures ruler { ruled 40 8 [] (64 ∷ 65 ∷ []) ≡ worked_ruler }
{}
