//! The laws of the text that `service` writes: that its lines add up, what the queue counts, what the delays are, that
//! they agree with `fates` and `walk`, what an outage is, and that delays change none of it. There is no code here.
//! Begin at `stretch_law`, whose `written` says which lines the text has.

ghost use Rattle.std.specs.Prelude.{◌≡◌, ◌⊎◌, ℕ, ◌+◌, ◌-◌, ◌*◌, ◌<◌, ◌≤◌, min, true, false, List, ◌++◌};
ghost use Rattle.std.specs.Prelude.{map, length, filter};
ghost use Rattle.std.specs.Prelude.{All, Contains, IsSome, sum_by, slice_get, Some};
ghost use Rattle.std.specs.List.{flat_map, range_with_len};
ghost use Rattle.law_model.specs.frames.Piece.{Piece};
ghost use Rattle.law_model.specs.frames.Segment.{StreamRow};
ghost use Rattle.law_model.specs.Limits.{most_waiting};
ghost use Rattle.law_model.specs.session.Counts.{Counts};
ghost use Rattle.law_model.specs.session.Leg.{Leg};
ghost use Rattle.law_model.specs.session.Plan.{greatest};
ghost use Rattle.law_model.specs.session.Scenario.{scenario_by};
ghost use Rattle.law_model.specs.session.ValidScript.{IsSound, IsWithin};
ghost use Rattle.law_model.specs.source.Client.{width};
ghost use Rattle.law_walk.specs.DeliveredFrames.{session_rows, delivered_of};
ghost use Rattle.law_walk.specs.Promise.{session_pieces};
ghost use Rattle.law_walk.specs.Walk.{session_of, IsWalked};
ghost use Rattle.law_service.specs.Twins.{with_delays, whole_walk};
ghost use Rattle.fate_engine.specs.declared.fate_law.Fate.TheVariants.{Got};
ghost use Rattle.fate_engine.specs.declared.fate_law.SpoiledRun.{SpoiledRun};
ghost use Rattle.fate_engine.specs.fate_law.Fates.{is_got};
ghost use Rattle.fate_engine.specs.fate_law.FateText.{fates_end};
ghost use Rattle.fate_engine.specs.fate_law.Marks.{are_true_marks};
ghost use Rattle.fate_engine.specs.fate_law.SessionFates.{fate_at, ended_of};
ghost use Rattle.fate_engine.specs.fate_law.RowCauses.{row_cause, spoiled_of};
ghost use Rattle.fate_service.specs.declared.landed_frames.CarriedFrame.{CarriedFrame};
ghost use Rattle.fate_service.specs.declared.outages.Outage.{Outage};
ghost use Rattle.fate_service.specs.declared.width_run.WidthRun.{WidthRun};
ghost use Rattle.fate_service.specs.FrameColumns.{carried_of};
ghost use Rattle.fate_service.specs.Outages.{next_first};
ghost use Rattle.fate_service.specs.Stretches.{peak_in, spans_of};
ghost use Rattle.fate_service.specs.Delays.{delays_of};
ghost use Rattle.fate_service.specs.ServiceText.{members_text, delays_text, last_text, told_of, ends_of, service_text};
ghost use Rattle.fate_service.specs.ServiceText.{service_with};
ghost use Rattle.fate_service.specs.service_law.LinesAsNumbers.{members_in, OutageLine, outages_in, outage_line_text};
ghost use Rattle.fate_service.specs.service_law.LinesAsNumbers.{StretchLine, stretches_in, stretch_line_text, all_of};
ghost use Rattle.fate_service.specs.service_law.LinesAsNumbers.{queue_of, waiting_in};
ghost use Rattle.fate_service.specs.service_law.LinesAsNumbers.{fates_line};
ghost use Rattle.fate_service.specs.service_law.LineSums.{FollowOn, AreRuns, total_of, tally_of, stream_octets};
ghost use Rattle.fate_service.specs.service_law.LineSums.{IsPeak, IsHighest, IsLeastFor};
ghost use Rattle.fate_service.specs.service_law.OutageRuns.{dark_row, spoiled_row, row_outages, AreOutages};
ghost use Rattle.fate_service.specs.service_law.OutageRuns.{BelongsOnce, rows_of_fate};
ghost use Rattle.fate_service.specs.service_law.OutageRuns.{is_unsettled, LiesBetween};
ghost use Rattle.fate_service.specs.service_law.Worked.{one_tick, one_made, one_text, late_leg, late_counts, late_text};
ghost use Rattle.fate_service.specs.service_law.Worked.{worked_outages, told_outages};

/// What is written, and that the stretches make up the last line. They follow each other from tick 0 to its
/// END, and each but the last has INTERVAL ticks. Frames, octets, capacity and dark rows of the last line are
/// the sums of theirs; its queue is the greatest of theirs, with the first tick that has it, and its delay the
/// greatest of theirs.
pub fn stretch_law()
    ensures written { (leg : Leg) (s : Counts) (interval : ℕ) → service_text leg s interval
        ≡ flat_map (members_text leg.config.size) (members_in leg s)
        ++ flat_map (outage_line_text (row_cause (scenario_by leg) (session_of leg)))
        (outages_in leg s) ++ flat_map stretch_line_text (stretches_in leg s interval)
        ++ delays_text (delays_of (carried_of (ended_of leg s))) (greatest leg.config.delays)
        ++ last_text (told_of leg s) (all_of leg s) (ends_of leg s) }
    ensures follow { (leg : Leg) (s : Counts) (interval : ℕ) → 1 ≤ interval →
        FollowOn 0 (map (λ (line : StretchLine). (line.first, line.end)) (stretches_in leg s interval))
        (told_of leg s) }
    ensures each { (interval told i : ℕ) → 1 ≤ interval → i * interval < told →
        slice_get (spans_of interval told) i ≡ Some (i * interval, min told (i * interval + interval)) }
    ensures offered { (leg : Leg) (s : Counts) (interval : ℕ) → 1 ≤ interval →
        (all_of leg s).came.offered
        ≡ total_of (λ (line : StretchLine). line.counts.came.offered) (stretches_in leg s interval) }
    ensures refused { (leg : Leg) (s : Counts) (interval : ℕ) → 1 ≤ interval →
        (all_of leg s).came.refused
        ≡ total_of (λ (line : StretchLine). line.counts.came.refused) (stretches_in leg s interval) }
    ensures got { (leg : Leg) (s : Counts) (interval : ℕ) → 1 ≤ interval →
        (all_of leg s).ended.got
        ≡ total_of (λ (line : StretchLine). line.counts.ended.got) (stretches_in leg s interval) }
    ensures lost { (leg : Leg) (s : Counts) (interval : ℕ) → 1 ≤ interval →
        (all_of leg s).ended.lost
        ≡ total_of (λ (line : StretchLine). line.counts.ended.lost) (stretches_in leg s interval) }
    ensures capacity { (leg : Leg) (s : Counts) (interval : ℕ) → 1 ≤ interval →
        (all_of leg s).capacity
        ≡ sum_by (λ (line : StretchLine). line.counts.capacity) (stretches_in leg s interval) }
    ensures dark { (leg : Leg) (s : Counts) (interval : ℕ) → 1 ≤ interval → (all_of leg s).dark
        ≡ sum_by (λ (line : StretchLine). line.counts.dark) (stretches_in leg s interval) }
    ensures delay { (leg : Leg) (s : Counts) (interval : ℕ) → 1 ≤ interval →
        (all_of leg s).ended.delay ≡ greatest
        (map (λ (line : StretchLine). line.counts.ended.delay) (stretches_in leg s interval)) }
    ensures queue { (leg : Leg) (s : Counts) (interval : ℕ) → 1 ≤ interval → 0 < told_of leg s →
        IsHighest (map (λ (line : StretchLine). line.counts.peak) (stretches_in leg s interval))
        (all_of leg s).peak }
    ensures peak { (queue : ℕ → ℕ) (first end : ℕ) → first < end →
        IsPeak queue first end (peak_in queue first end) }
{}

/// What the queue of a tick counts: the frames that wait once those have landed that land in it. It is these that
/// are compared with 256 when the next one comes, so there are no more. A stretch has the greatest queue of its
/// ticks; and the ticks that are told are those that were made, and one more if a frame has landed before that.
pub fn queue_law()
    ensures waits { (leg : Leg) (s : Counts) (t : ℕ) → IsSound leg → IsWalked leg s → t ≤ s.ticks →
        queue_of leg s t ≡ length (waiting_in leg s t) }
    ensures few { (leg : Leg) (s : Counts) (t : ℕ) → IsSound leg → IsWalked leg s → t ≤ s.ticks →
        queue_of leg s t ≤ most_waiting }
    ensures told { (leg : Leg) (s : Counts) → IsSound leg → IsWalked leg s →
        IsWithin s.ticks (s.ticks + 1) (told_of leg s) }
    ensures greatest { (leg : Leg) (s : Counts) (interval : ℕ) → 1 ≤ interval →
        All (λ (line : StretchLine). IsPeak (queue_of leg s) line.first line.end line.counts.peak)
        (stretches_in leg s interval) }
{}

/// What the line of delays says of the frames that were got: at least half of them have a delay of at most `half`,
/// and fewer a delay of at most any smaller number; and so for `most` and 99 of 100 of them.
pub fn delays_law()
    ensures half { (carried : List CarriedFrame) → IsLeastFor carried 50 (delays_of carried).half }
    ensures most { (carried : List CarriedFrame) → IsLeastFor carried 99 (delays_of carried).most }
{}

/// The last line agrees with other texts of the script. That of `fates` is told by it; where `starts` is true,
/// what is got is what `walk` writes `got` lines of. What is offered is refused, got, lost or waits; and what is
/// got and lost, with eight octets more for each frame, fits in the capacity behind its first eight octets.
pub fn totals_law()
    ensures fates { (leg : Leg) (s : Counts) → IsSound leg → IsWalked leg s →
        fates_end s.ticks s.rows (ended_of leg s)
        (are_true_marks (session_pieces leg) (session_rows leg s.rows))
        ≡ fates_line (all_of leg s) (ends_of leg s) }
    ensures walk { (leg : Leg) (s : Counts) → IsSound leg → IsWalked leg s →
        (ends_of leg s).starts ≡ true →
        (all_of leg s).ended.got ≡ tally_of (delivered_of leg s.rows) }
    ensures frames { (leg : Leg) (s : Counts) → IsSound leg → IsWalked leg s →
        (all_of leg s).came.offered.frames ≡ (all_of leg s).came.refused.frames
        + (all_of leg s).ended.got.frames + (all_of leg s).ended.lost.frames
        + (ends_of leg s).waits.frames }
    ensures octets { (leg : Leg) (s : Counts) → IsSound leg → IsWalked leg s →
        (all_of leg s).came.offered.octets ≡ (all_of leg s).came.refused.octets
        + (all_of leg s).ended.got.octets + (all_of leg s).ended.lost.octets
        + (ends_of leg s).waits.octets }
    ensures fits { (leg : Leg) (s : Counts) → IsSound leg → IsWalked leg s →
        0 < (all_of leg s).ended.got.frames + (all_of leg s).ended.lost.frames →
        stream_octets (all_of leg s) + 8 ≤ (all_of leg s).capacity }
{}

/// What lines of rows add up to. Those of members are the longest runs of rows with one number of members, and
/// make up all taken rows and the capacity. Those of outages make up the dark rows, and what is lost; and of
/// their rows as many aren't whole as the `spoiled` lines of `fates` have.
pub fn rows_law()
    ensures runs { (leg : Leg) (s : Counts) →
        AreRuns (width (scenario_by leg) (session_of leg)) 0 (members_in leg s) s.rows }
    ensures taken { (leg : Leg) (s : Counts) →
        sum_by (λ (run : WidthRun). run.end - run.first) (members_in leg s) ≡ (ends_of leg s).taken }
    ensures capacity { (leg : Leg) (s : Counts) → IsSound leg → IsWalked leg s →
        sum_by (λ (run : WidthRun). (run.end - run.first) * (run.members * leg.config.size))
        (members_in leg s) ≡ (all_of leg s).capacity }
    ensures count { (leg : Leg) (s : Counts) →
        length (outages_in leg s) ≡ (ends_of leg s).outages }
    ensures dark { (leg : Leg) (s : Counts) → IsSound leg → IsWalked leg s →
        sum_by (λ (line : OutageLine). line.outage.end - line.outage.first) (outages_in leg s)
        ≡ (all_of leg s).dark }
    ensures spoiled { (leg : Leg) (s : Counts) →
        sum_by (λ (line : OutageLine). line.outage.spoiled) (outages_in leg s)
        ≡ sum_by (λ (run : SpoiledRun). run.end - run.first)
        (spoiled_of (scenario_by leg) (session_of leg) s.rows) }
    ensures lost { (leg : Leg) (s : Counts) → IsSound leg → IsWalked leg s →
        total_of (λ (line : OutageLine). line.lost) (outages_in leg s) ≡ (all_of leg s).ended.lost }
{}

/// What an outage is: a longest run of dark rows, of which the first isn't whole, so that its line has a cause.
/// As many of its rows as it says aren't whole. No row of a frame that is got is dark; each lost frame belongs
/// to just one outage. Before the first outage all frames are got; and behind the first row after one, and
/// before the next one, all but at most one, which is unsettled.
pub fn outage_law()
    ensures runs { (rows : List StreamRow) →
        AreOutages (dark_row rows) 0 (row_outages rows) (length rows) }
    ensures spoiled { (rows : List StreamRow) (outage : Outage) → Contains (row_outages rows) outage →
        outage.spoiled
        ≡ length (filter (spoiled_row rows) (range_with_len outage.first (outage.end - outage.first))) }
    ensures begins { (leg : Leg) (s : Counts) (line : OutageLine) →
        Contains (outages_in leg s) line →
        IsSome (row_cause (scenario_by leg) (session_of leg) line.outage.first) }
    ensures got { (pieces : List Piece) (rows : List StreamRow) (i r q t : ℕ) →
        fate_at pieces rows i ≡ Got r q → r ≤ t → t ≤ q → dark_row rows t ≡ false }
    ensures once { (leg : Leg) (s : Counts) (frame : CarriedFrame) →
        Contains (carried_of (ended_of leg s)) frame → frame.got ≡ false →
        BelongsOnce (row_outages (session_rows leg s.rows)) s.rows frame }
    ensures before { (pieces : List Piece) (rows : List StreamRow) (i r q : ℕ) →
        rows_of_fate (fate_at pieces rows i) ≡ Some (r, q) →
        q < next_first (length rows) (row_outages rows) → is_got (fate_at pieces rows i) ≡ true }
    ensures between { (pieces : List Piece) (rows : List StreamRow) (number i : ℕ) →
        LiesBetween pieces rows number i →
        (is_got (fate_at pieces rows i) ≡ true) ⊎ (is_unsettled (fate_at pieces rows i) ≡ true) }
    ensures one { (pieces : List Piece) (rows : List StreamRow) (number i j : ℕ) →
        LiesBetween pieces rows number i → LiesBetween pieces rows number j →
        is_got (fate_at pieces rows i) ≡ false → is_got (fate_at pieces rows j) ≡ false → i ≡ j }
{}

/// Delays and rings cost time and no frame: of legs that differ in the delays of their lines and in the room of
/// their rings alone, a walk without event lines has the same text, but for the greatest delay of a line.
pub fn same_law()
    ensures { (leg : Leg) (delays : List ℕ) (ring interval : ℕ) → IsSound leg →
        IsSound (with_delays leg delays ring) →
        service_text (with_delays leg delays ring) (whole_walk (with_delays leg delays ring)) interval
        ≡ service_with (greatest delays) leg (whole_walk leg) interval }
{}

/// Worked texts, computed: of one tick; and of a walk that stops before the last tick is made, with a frame that
/// landed before that tick. And the outages of worked rows, of which the last ends with all rows, since nothing
/// is confirmed any more.
pub fn worked_law()
    ensures one { service_text one_tick one_made 1 ≡ one_text }
    ensures late { service_text late_leg late_counts 61 ≡ late_text }
    ensures outages { worked_outages ≡ told_outages }
{}
