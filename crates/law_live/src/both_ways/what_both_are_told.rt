//! What the lines of members and of queues tell of both ways.

ghost use Rattle.std.specs.Prelude.{◌≡◌, ℕ, ◌+◌, ◌*◌, ◌<◌, ◌≤◌, List, [], ◌∷◌, codes, length};
ghost use Rattle.law_model.specs.declared.item_refusals.AcceptFault.TheVariants.{QueueFull};
ghost use Rattle.law_model.specs.declared.item_refusals.Refusal.TheVariants.{Frame as frame_fault};
ghost use Rattle.law_model.specs.declared.script_types.Config.{Config};
ghost use Rattle.law_model.specs.declared.script_types.ItemKind.TheVariants.{Frame};
ghost use Rattle.law_model.specs.declared.script_types.Script.{Script};
ghost use Rattle.law_pair.specs.declared.pair_events.Way.{Way};
ghost use Rattle.law_pair.specs.Common.{IsPair, counts_on};
ghost use Rattle.law_live.specs.Common.{AreOthers, Differ, PairSaying, answers_on, code_at, codes_of, last_code};
ghost use Rattle.law_live.specs.Common.{last_number, leg_on, members_told, pair_answers, pair_counts, queues_told};
ghost use Rattle.law_live.specs.Common.{IsPairSaid, PairAgrees, both_reckoned, config_on, lands_on, live_of};
ghost use Rattle.law_live.specs.Common.{pair_answers_from, refused_item, said_on, told_by, waiting_at, way_told};

/// Of each way of any two scripts: of two lines on one member that follow each other the codes differ, and the first
/// one isn't `idle`; and what the last one says, and `idle` where there is none, is how the line stands, behind each
/// decision step that was made, and behind the last. Of two numbers of waiting frames that follow each other the
/// second is another one, and the first isn't 0; and the last one, and 0 where there is none, is how many wait.
pub fn both_told_law()
    ensures differ { (one other : Script) (said : List PairSaying) (way : Way) (m : ℕ) →
        (let told = answers_on way (pair_answers one other said) in
        Differ (codes "idle") (codes_of m (members_told (leg_on one other way) told))) }
    ensures step { (one other : Script) (said : List PairSaying) (way : Way) (m j : ℕ) →
        (let leg = leg_on one other way in
        let told = members_told leg (answers_on way (pair_answers one other said)) in
        m < leg.config.lines → 16 * j + 8 < (counts_on (pair_counts one other said) way).ticks →
        last_code (codes "idle") (codes_of m (told_by (16 * j + 9) told))
        ≡ code_at leg (16 * j + 9) m) }
    ensures last { (one other : Script) (said : List PairSaying) (way : Way) (m : ℕ) →
        (let leg = leg_on one other way in
        let told = members_told leg (answers_on way (pair_answers one other said)) in
        m < leg.config.lines → last_code (codes "idle") (codes_of m told)
        ≡ code_at leg (counts_on (pair_counts one other said) way).ticks m) }
    ensures queues { (one other : Script) (said : List PairSaying) (way : Way) →
        AreOthers 0 (queues_told (answers_on way (pair_answers one other said))) }
    ensures queue { (one other : Script) (said : List PairSaying) (way : Way) →
        last_number 0 (queues_told (answers_on way (pair_answers one other said)))
        ≡ waiting_at (leg_on one other way) (counts_on (pair_counts one other said) way).ticks }
{}

/// In a pair that agrees with what was said: by the number that was told last of a way, and how many frames were said
/// of it since and not refused, whoever says the frames knows how many more may be said: these are at most 256. A frame
/// of 64 to 9,600 octets that is said next is refused exactly where they are 256: so it is at 256, and isn't below.
pub fn both_room_law()
    ensures room { (there back : Config) (said : List PairSaying) (octets : List ℕ)
        (one other : Script) (way : Way) → IsPair one other → IsPairSaid there back said →
        PairAgrees there back said one other → 64 ≤ length octets → length octets ≤ 9600 →
        (both_reckoned one other said way).queue + (both_reckoned one other said way).since < 256 →
        pair_answers_from one other (pair_counts one other said)
        (lands_on way (Frame octets) ∷ []) ≡ [] }
    ensures full { (there back : Config) (said : List PairSaying) (octets : List ℕ)
        (one other : Script) (way : Way) → IsPair one other → IsPairSaid there back said →
        PairAgrees there back said one other → 64 ≤ length octets → length octets ≤ 9600 →
        (both_reckoned one other said way).queue + (both_reckoned one other said way).since ≡ 256 →
        (let number = length (live_of (config_on there back way) (said_on way said)).items in
        pair_answers_from one other (pair_counts one other said) (lands_on way (Frame octets) ∷ [])
        ≡ way_told way (refused_item number (frame_fault (QueueFull 256))) ∷ []) }
    ensures within { (there back : Config) (said : List PairSaying) (one other : Script)
        (way : Way) → IsPair one other → IsPairSaid there back said →
        PairAgrees there back said one other →
        (both_reckoned one other said way).queue + (both_reckoned one other said way).since ≤ 256 }
{}
