//! The laws of timers, over the definitions alone: when a line is up, when a member goes out of use and comes back,
//! in packets and in rows, and how often it can. There is no code here. Begin at `held_law`.

ghost use Rattle.std.specs.Prelude.{◌≡◌, ◌↔◌, ◌+◌, ◌-◌, ◌*◌, ◌/◌, ◌<◌, ◌≤◌, ℕ, Bool, true, false, List, [], ◌∷◌};
ghost use Rattle.std.specs.Prelude.{length, map, Option, Some};
ghost use Rattle.law_model.specs.declared.script_types.Options.{Options};
ghost use Rattle.law_model.specs.Common.{is_up, IsUp, last_read, Scenario, is_line_up, cells_before, session_cells};
ghost use Rattle.law_model.specs.Common.{table_of, carried_by, steps_in, is_read, word, Told};
ghost use Rattle.law_session.specs.Feedback.{table_before};
ghost use Rattle.law_session.specs.ReturnedCells.{AreWhole};
ghost use Rattle.law_session.specs.LineInUse.{IsInUse, IsAdded, known_by, round_end};
ghost use Rattle.law_session.specs.TimedMembers.{IsLastRead, IsOut, GoesOut, ComesBack, IsToldFailed};
ghost use Rattle.law_session.specs.TimedMembers.{IsToldFine, IsHeld};
ghost use Rattle.law_session.specs.TimedMembers.{IsRound, IsUpWithWord, Carries, HasFailed, IsNotRestored, restored_by};
ghost use Rattle.law_session.specs.TimedMembers.{IsNotRemoved, IsWholeBut, AreDamaged, MissesFew, IsDamagedOften};
ghost use Rattle.law_session.specs.TimedMembers.{goes_out, times_out, unread_behind};
ghost use Rattle.law_session.specs.WorkedFlaps.{dearest, carried_in_rows, held_line, ten_fail};
ghost use Rattle.law_session.specs.WorkedFlaps.{flapping};

/// Which packets of a line count. It is up by the test exactly where it was read for the restore and wasn't
/// missed for the hold-off since; with neither it is up exactly where its packet is read. It hangs on the
/// packets up to there alone. Its last packet is the last one that was read.
pub fn up_law()
    ensures up { (options : Options) (read : ℕ → Bool) (k : ℕ) →
        (is_up options read k ≡ true) ↔ IsUp options read k }
    ensures plain { (options : Options) (read : ℕ → Bool) (k : ℕ) → options.holdoff ≡ 0 →
        options.restore ≡ 0 → is_up options read k ≡ read k }
    ensures prefix { (options : Options) (a b : ℕ → Bool) (k : ℕ) →
        ((j : ℕ) → j ≤ k → a j ≡ b j) → is_up options a k ≡ is_up options b k }
    ensures last { (read : ℕ → Bool) (k r : ℕ) →
        (last_read read k ≡ Some r) ↔ IsLastRead read k r }
{}

/// A member that is held. Where a line is read its word is that packet. A step takes a line out of use only if it
/// is told in this very step of a packet at which the line isn't up or has no word, and brings it back only if it
/// is told of one at which the line is up and has one. So a line that was read, up and in use stays in use as long
/// as no more packets in turn are missed than the hold-off, and no change is made.
pub fn held_law()
    ensures word { (scenario : Scenario) (cells : List (Option Told)) (line k : ℕ) →
        line < length scenario.windows → is_read scenario line k ≡ true →
        word scenario cells line k ≡ Some k }
    ensures out { (scenario : Scenario) (n line j : ℕ) → 0 < scenario.lag →
        GoesOut scenario (cells_before scenario n) line j →
        IsToldFailed scenario (cells_before scenario n) line j }
    ensures back { (scenario : Scenario) (n line j : ℕ) → 0 < scenario.lag →
        ComesBack scenario (cells_before scenario n) line j →
        IsToldFine scenario (cells_before scenario n) line j }
    ensures held { (scenario : Scenario) (n line r last j : ℕ) → 0 < scenario.lag →
        IsHeld scenario (cells_before scenario n) line r last →
        r + scenario.lag ≤ j → j ≤ last + scenario.lag →
        IsInUse (table_of scenario (cells_before scenario n) j) line }
{}

/// Out and back, in packets. A line that isn't up from the begin of a round of statuses on isn't in use when the
/// round has been taken, nor later while it isn't up, whatever is changed then. One that is up and has a word
/// throughout a round isn't out of use when it has been taken; and it is in use if it wasn't in ADD.
pub fn round_law()
    ensures out { (scenario : Scenario) (n line d last j : ℕ) →
        IsRound scenario (cells_before scenario n) n line d →
        ((k : ℕ) → d ≤ k → k ≤ last → is_line_up scenario line k ≡ false) →
        round_end scenario d ≤ last → known_by scenario d ≤ j → j ≤ last + scenario.lag →
        IsInUse (table_of scenario (cells_before scenario n) j) line → ⊥ }
    ensures back { (scenario : Scenario) (n line d : ℕ) →
        IsRound scenario (cells_before scenario n) n line d →
        ((k : ℕ) → d ≤ k → k ≤ round_end scenario d →
        IsUpWithWord scenario (cells_before scenario n) line k) →
        IsOut (table_of scenario (cells_before scenario n) (known_by scenario d)) line → ⊥ }
    ensures used { (scenario : Scenario) (n line d : ℕ) →
        IsRound scenario (cells_before scenario n) n line d →
        ((k : ℕ) → d ≤ k → k ≤ round_end scenario d →
        IsUpWithWord scenario (cells_before scenario n) line k) →
        (IsAdded (table_of scenario (cells_before scenario n) d) line → ⊥) →
        IsInUse (table_of scenario (cells_before scenario n) (known_by scenario d)) line }
    ensures never { (scenario : Scenario) (n line last j : ℕ) → 0 < scenario.lag →
        ((k : ℕ) → k ≤ last → is_line_up scenario line k ≡ false) → j ≤ last + scenario.lag →
        IsInUse (table_of scenario (cells_before scenario n) j) line → ⊥ }
{}

/// The same in rows. A line whose packets are missed for the hold-off carries nothing from as many rows behind
/// the first container that is damaged as a round of statuses, the lag and the hold-off take, until it is
/// restored: so all its failures up to there cost what one does. One that is whole from a container on carries
/// payload from as many rows behind that as a round, the lag and the restore take, and 23, until it is removed.
pub fn flap_law()
    ensures out { (scenario : Scenario) (n line f d last t : ℕ) →
        IsRound scenario (cells_before scenario n) n line d → HasFailed scenario line f d →
        IsNotRestored scenario line d last →
        f + 16 * (scenario.options.statuses + scenario.lag + scenario.options.holdoff) ≤ t →
        t < 16 * (last + scenario.lag) + 40 →
        Carries scenario (cells_before scenario n) line t → ⊥ }
    ensures back { (scenario : Scenario) (n line end t : ℕ) →
        IsRound scenario (cells_before scenario n) n line (restored_by scenario end) →
        (IsAdded (table_of scenario (cells_before scenario n) (restored_by scenario end)) line →
        ⊥) → AreWhole (carried_by scenario line) end t →
        end + 16 * (scenario.options.statuses + scenario.lag + scenario.options.restore) + 23 ≤ t →
        IsNotRemoved scenario (cells_before scenario n) line
        (known_by scenario (restored_by scenario end)) ((t - 24) / 16) →
        Carries scenario (cells_before scenario n) line t }
{}

/// In containers. A failure that stands alone spoils the packets that it reaches into, those k of `spoils`. `count`
/// says how many these are, and `packets` which numbers that can be. A hold-off of the most of them holds it. A line
/// isn't restored by gaps between failures that are too short for one packet more than the restore.
pub fn window_law()
    ensures spoils { (scenario : Scenario) (line first end r last k : ℕ) →
        IsWholeBut scenario line r last first end → AreDamaged scenario line first end →
        first < end → r < k → k ≤ last →
        (is_read scenario line k ≡ false) ↔ ((first < 16 * k + 24) × (16 * k < end)) }
    ensures count { (scenario : Scenario) (line first end r last : ℕ) →
        IsWholeBut scenario line r last first end → AreDamaged scenario line first end →
        first < end → 16 * r + 24 ≤ first → end ≤ 16 * last + 16 →
        unread_behind scenario line r last ≡ (end + 15) / 16 - (first - 8) / 16 }
    ensures packets { (first count : ℕ) → 8 ≤ first → 0 < count →
        ((count + 23) / 16 ≤ (first + count + 15) / 16 - (first - 8) / 16)
        × ((first + count + 15) / 16 - (first - 8) / 16 ≤ (count + 38) / 16) }
    ensures short { (scenario : Scenario) (line first end r last : ℕ) →
        IsWholeBut scenario line r last first end →
        (end - first + 38) / 16 ≤ scenario.options.holdoff → MissesFew scenario line r last }
    ensures gaps { (scenario : Scenario) (line d last : ℕ) →
        IsDamagedOften scenario line d last (scenario.options.restore + 1) →
        IsNotRestored scenario line d last }
{}

/// How often a member can go out of use: once, once more for each change, and once more in each two packets more than
/// both timers take.
pub fn quiet_law()
    ensures step { (scenario : Scenario) (n line j : ℕ) →
        (goes_out scenario (cells_before scenario n) line j ≡ true)
        ↔ GoesOut scenario (cells_before scenario n) line j }
    ensures times { (scenario : Scenario) (n line j : ℕ) → 0 < scenario.lag →
        times_out scenario (cells_before scenario n) line (j + 1)
        ≤ 1 + j / (scenario.options.holdoff + scenario.options.restore + 2)
        + (table_of scenario (cells_before scenario n) j).count }
    ensures session { (scenario : Scenario) (line : ℕ) → 0 < scenario.lag →
        times_out scenario (session_cells scenario) line (steps_in scenario.ticks)
        ≤ 1 + scenario.ticks / (16 * (scenario.options.holdoff + scenario.options.restore + 2))
        + (table_before scenario (session_cells scenario) (steps_in scenario.ticks)).count }
{}

/// A worked session, computed: neither number of rows can be less. The line fails in container 488 and is whole
/// from container 945 on; it carries payload up to row 823, and again from row 1336 on.
pub fn worked_flap_law()
    ensures out { carried_in_rows dearest (823 ∷ 824 ∷ []) ≡ (0 ∷ 1 ∷ []) ∷ (0 ∷ []) ∷ [] }
    ensures back { carried_in_rows dearest (1335 ∷ 1336 ∷ []) ≡ (0 ∷ []) ∷ (0 ∷ 1 ∷ []) ∷ [] }
    ensures failed { HasFailed dearest 1 488 33 }
    ensures not_restored { IsNotRestored dearest 1 33 64 }
    ensures whole { AreWhole (carried_by dearest 1) 945 1400 }
    ensures round_out { IsRound dearest (cells_before dearest 87) 87 1 33 }
    ensures round_back { IsRound dearest (cells_before dearest 87) 87 1 65 }
    ensures is_out { IsOut (table_of dearest (cells_before dearest 87) 65) 1 }
    ensures stays { IsNotRemoved dearest (cells_before dearest 87) 1 82 86 }
{}

/// A worked session, computed: a hold-off of two packets holds a line over a failure of 16 containers, and with a
/// hold-off of one it goes out and comes back.
pub fn worked_held_law()
    ensures held { IsHeld (held_line 2) (cells_before (held_line 2) 86) 1 62 80 }
    ensures short { GoesOut (held_line 1) (cells_before (held_line 1) 86) 1 65 }
    ensures back { ComesBack (held_line 1) (cells_before (held_line 1) 86) 1 81 }
    ensures times { times_out (held_line 1) (cells_before (held_line 1) 86) 1 66 ≡ 1 }
{}

/// Failures in containers, computed: 16 containers alone are held by three packets wherever they are, and ten
/// spoil three where they reach into so many. Failures that begin every 400 containers, and last 100, don't let a
/// line be restored that has to be read for 19 packets in turn.
pub fn worked_window_law()
    ensures alone { IsWholeBut (held_line 3) 1 62 80 1024 1040 }
    ensures three { map (is_read ten_fail 1) (62 ∷ 63 ∷ 64 ∷ 65 ∷ 66 ∷ [])
        ≡ true ∷ false ∷ false ∷ false ∷ true ∷ [] }
    ensures count { unread_behind ten_fail 1 62 66 ≡ 3 }
    ensures often { IsDamagedOften flapping 1 62 186 19 }
{}
