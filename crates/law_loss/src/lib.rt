//! Which frames come through a stream of rows of which some aren't whole, and why the others don't. There is no
//! code here. Begin at `loss_law`, which is of any stream and rows; `ways_law` has the four ways in which
//! a frame is lost, and `session_loss_law` and `hitless_law` say it of a session. The proofs of `loss_law` and
//! `whole_law` are of any kind of frames (`specs/FrameKind.antt`), of which Ethernet frames are one.
//!
//! - `law_script`: what the laws of a session and of delivery ask of a scenario, that of a sound leg has.
#![tactic(auto)]

pub mod law_script;

ghost use Rattle.std.specs.Prelude.{◌≡◌, ℕ, suc, ◌≤◌, ◌<◌, ◌↔◌, Bool, true, false, List, [], ◌∷◌, ◌++◌, length, map};
ghost use Rattle.std.specs.Prelude.{take, drop, All, Option, Some};
ghost use Rattle.law_model.specs.Common.{Confirmed, hunt, Piece, idle, frames_by, Scenario, Told, place_of};
ghost use Rattle.law_model.specs.Common.{stream_before, frames_before, is_whole_row, StreamRow, segments, deliver};
ghost use Rattle.law_model.specs.Common.{octets_of_rows, Extent, extents, confirmed_in, Lost, is_frame_lost};
ghost use Rattle.law_model.specs.Common.{IsPlaceOfPiece, TrueStarts, frames_kept, rows_of, longest_frame};
ghost use Rattle.law_loss.specs.CarriedStream.{CarriesStream, IsSentPiece, AreOctets, IsUndamaged};
ghost use Rattle.law_loss.specs.WorkedLosses.{worked_pieces, worked_rows, kept_frame, places_of, ends_of};
ghost use Rattle.law_loss.specs.WorkedLosses.{worked_places};
ghost use Rattle.law_loss.specs.WorkedLosses.{worked_ends, worked_confirmed, worked_lost};

/// Where each place that is confirmed first after a break is that of a piece, the frames delivered are those
/// that the rows carry and that aren't lost: nothing is altered or invented.
pub fn loss_law()
    ensures { (longest : ℕ) (pieces : List Piece) (rows : List StreamRow) →
        longest ≤ 65531 → All (IsSentPiece longest) pieces → CarriesStream rows (idle ∷ idle ∷ pieces) →
        TrueStarts (idle ∷ idle ∷ pieces) rows →
        deliver longest rows ≡ frames_kept (idle ∷ idle ∷ pieces) rows }
{}

/// Where each row is whole, the frames delivered are all those whose piece ends in the rows.
pub fn whole_law()
    ensures { (longest : ℕ) (pieces : List Piece) (rows : List StreamRow) →
        longest ≤ 65531 → All (IsSentPiece longest) pieces → CarriesStream rows (idle ∷ idle ∷ pieces) →
        All (λ row. row.whole ≡ true) rows →
        deliver longest rows ≡ frames_by (length (octets_of_rows rows)) (idle ∷ idle ∷ pieces) }
{}

/// A frame is lost exactly in the four ways.
pub fn ways_law()
    ensures { (rows : List StreamRow) (all : List Extent) (frame : Extent) → frame.from < frame.to →
        (is_frame_lost (segments rows) all frame ≡ true) ↔ Lost (segments rows) all frame }
{}

/// Where a place is confirmed first in octets, the same is where more octets come behind them.
pub fn confirmed_law()
    ensures { (refused : Bool) (octets more : List ℕ) (found : Confirmed) →
        hunt refused 0 octets ≡ Some found → hunt refused 0 (octets ++ more)
        ≡ Some (record found { octets = found.octets ++ more }) }
{}

/// More rows add frames, and change none of those before.
pub fn grow_law()
    ensures { (longest : ℕ) (rows more : List StreamRow) →
        deliver longest (rows ++ more) ≡ deliver longest rows
        ++ drop (length (deliver longest rows)) (deliver longest (rows ++ more)) }
{}

/// In a session, of any number of rows: they carry the first octets of its stream, whose client frames are
/// the accepted ones but those that wait; and where each place that is confirmed first after a break is that
/// of a piece, the frames delivered are the accepted frames that the rows carry and that aren't lost. That is
/// so where each row that isn't whole ends at the place of a piece.
pub fn session_loss_law()
    ensures accepted { (scenario : Scenario) (cells : List (Option Told)) (n : ℕ) →
        map (λ (e : Extent). e.frame) (extents 0 (stream_before scenario cells n).pieces)
        ++ (stream_before scenario cells n).waiting ≡ frames_before scenario cells n }
    ensures carried { (scenario : Scenario) (cells : List (Option Told)) (t n : ℕ) → t ≤ n →
        CarriesStream (rows_of scenario cells t) (stream_before scenario cells n).pieces }
    ensures place { (scenario : Scenario) (cells : List (Option Told)) (t : ℕ) →
        length (octets_of_rows (rows_of scenario cells t)) ≡ place_of scenario cells t }
    ensures kept { (scenario : Scenario) (cells : List (Option Told)) (t n : ℕ) →
        AreOctets scenario → t ≤ n →
        TrueStarts (stream_before scenario cells n).pieces (rows_of scenario cells t) →
        deliver longest_frame (rows_of scenario cells t)
        ≡ frames_kept (stream_before scenario cells n).pieces (rows_of scenario cells t) }
    ensures aligned { (scenario : Scenario) (cells : List (Option Told)) (t n : ℕ) →
        AreOctets scenario → t ≤ n → ((row : ℕ) → row < t → is_whole_row scenario cells row ≡ false →
        IsPlaceOfPiece (stream_before scenario cells n).pieces (place_of scenario cells (suc row))) →
        TrueStarts (stream_before scenario cells n).pieces (rows_of scenario cells t) }
{}

/// A session in which no line fails loses no frame, whatever lines are added and removed: each row is whole,
/// and the frames delivered are those whose piece ends in the rows taken, which are the first of the accepted
/// ones.
pub fn hitless_law()
    ensures whole { (scenario : Scenario) (cells : List (Option Told)) (t : ℕ) →
        IsUndamaged scenario → is_whole_row scenario cells t ≡ true }
    ensures delivered { (scenario : Scenario) (cells : List (Option Told)) (t n : ℕ) →
        AreOctets scenario → IsUndamaged scenario → t ≤ n →
        deliver longest_frame (rows_of scenario cells t)
        ≡ frames_by (place_of scenario cells t) (stream_before scenario cells n).pieces }
    ensures first { (scenario : Scenario) (cells : List (Option Told)) (t n : ℕ) →
        AreOctets scenario → IsUndamaged scenario → t ≤ n →
        deliver longest_frame (rows_of scenario cells t)
        ≡ take (length (deliver longest_frame (rows_of scenario cells t))) (frames_before scenario cells n) }
{}

/// A worked stream, computed, in which a frame is lost in each of the four ways: the rows that aren't whole
/// cut the first frame off and the fifth; the second begins before the place that is confirmed next; the
/// third settles the descrambler; the fourth is delivered; and behind the second break nothing is confirmed
/// before the sixth has ended. What is confirmed is the place of a piece.
pub fn worked_law()
    ensures places { places_of (extents 0 worked_pieces) ≡ worked_places }
    ensures segments { ends_of (segments worked_rows) ≡ worked_ends }
    ensures confirmed { map confirmed_in (segments worked_rows) ≡ worked_confirmed }
    ensures lost { map (is_frame_lost (segments worked_rows) (extents 0 worked_pieces))
        (extents 0 worked_pieces) ≡ worked_lost }
    ensures delivered { deliver longest_frame worked_rows ≡ kept_frame ∷ [] }
    ensures kept { frames_kept worked_pieces worked_rows ≡ kept_frame ∷ [] }
    ensures starts { TrueStarts worked_pieces worked_rows }
{}
