//! A row, whole or not.

ghost use Rattle.std.specs.Prelude.{◌≡◌, ℕ, ◌≤◌, List, [], ◌∷◌, ◌++◌, length, IfSome, is_some};
ghost use Rattle.std.specs.Option.{option_copied};
ghost use Rattle.law_model.specs.Common.{Cell, containers_at, row_at, most_lines};
ghost use Rattle.law_model.specs.Common.{StreamRow, Start, longest_frame, vc4_size};
ghost use Rattle.law_model.specs.declared.script_types.Options.{Options};
ghost use Rattle.law_loss.specs.AddedFrames.{added};
ghost use Rattle.member_rows.specs.vcat_interleave.MemberPayloads.{AreLines};
ghost use Rattle.member_rows.specs.realign_rows.Gather.{GatherStands, line_count, AreDecided};
ghost use Rattle.terminal_sink.specs.sink_core.TakenAndGiven.{AreCarriers, row_in};
ghost use Rattle.terminal_sink.specs.sink_core.RowsInReceiver.{IsKnown, Receives};

use crate::marked_delineator::MarkedDelineator;
use crate::sink_core::octets_of_row::{take_break, take_members};
use law_model::FrameOut;
use member_path::cell_numbers::Verdict;
use member_rows::realign_rows::RowGather;

/// The first row that a packet governs.
pub(super) const FIRST_ROW: u32 = 24;

/// Whether the next row is whole on each of these lines.
fn are_whole(rows: &RowGather, active: &[u8]) -> bool
    requires lines { AreLines (line_count rows.now) active.now }
    requires decided { AreDecided rows.now }
    ensures { (cells : List (List Cell)) → GatherStands rows.now cells →
        result ≡ is_some (containers_at cells rows.now.rows active.now) }
{
    for line in active {
        match rows.verdict(*line) {
            Verdict::Whole(_) => {}
            Verdict::Bad => return false,
        }
    }
    true
}

/// Takes row `t`, which is the next one: its octets, where it is known which lines carry payload and it is whole on
/// each of them, or the break of the stream.
pub(super) fn take_row<F: FrameOut>(
    delineator: &mut MarkedDelineator,
    carriers: Option<&[u8]>,
    block: &mut [u8],
    size: u16,
    rows: &RowGather,
    t: u32,
    out: &mut F,
)
    requires known { IsKnown delineator.old }
    requires few { IfSome carriers (λ lines. length lines.now ≤ most_lines) }
    requires block { length block.old ≡ 4096 }
    requires size { size ≤ vc4_size }
    requires lines { IfSome carriers (λ lines. AreLines (line_count rows.now) lines.now) }
    requires decided { AreDecided rows.now }
    requires row { rows.now.rows ≡ t }
    ensures known { IsKnown delineator.new }
    ensures receives { (options : Options) (cells : List (List Cell)) (come : List StreamRow) →
        GatherStands rows.now cells → AreCarriers options cells t (option_copied carriers.entry) →
        Receives delineator.old come →
        Receives delineator.new (come ++ row_in (row_at options size cells t) ∷ []) }
    ensures gives { (options : Options) (cells : List (List Cell)) (come : List StreamRow) →
        GatherStands rows.now cells → AreCarriers options cells t (option_copied carriers.entry) →
        Receives delineator.old come → (start : Start) (frames : List (List ℕ)) →
        F.stands_for out.old start frames → F.stands_for out.new start
        (frames ++ added longest_frame come (row_in (row_at options size cells t))) }
{
    if t < FIRST_ROW {
        return;
    }
    match carriers {
        Some(carriers) if are_whole(rows, carriers) => take_members(
            delineator,
            block,
            rows.containers(),
            carriers,
            usize::from(size),
            out,
        ),
        _ => take_break(delineator),
    }
}
