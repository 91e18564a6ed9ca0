//! What the lines of the queue tell, and how many frames may be said by them.

ghost use Rattle.std.specs.Prelude.{◌≡◌, ℕ, ◌+◌, ◌<◌, ◌≤◌, List, [], ◌∷◌, ◌++◌, length};
ghost use Rattle.law_model.specs.Common.{IsSound, Leg, frames_before, frames_in, scenario_by, stream_before};
ghost use Rattle.law_model.specs.declared.script_types.Config.{Config};
ghost use Rattle.law_model.specs.declared.script_types.ItemKind.TheVariants.{Frame};
ghost use Rattle.law_model.specs.declared.item_refusals.AcceptFault.TheVariants.{QueueFull};
ghost use Rattle.law_model.specs.declared.item_refusals.Refusal.TheVariants.{Frame as frame_fault};
ghost use Rattle.law_walk.specs.Common.{session_of};
ghost use Rattle.law_live.specs.Common.{Agrees, AreOthers, IsWellSaid, Saying, answers, answers_from, lands};
ghost use Rattle.law_live.specs.Common.{last_number, live_counts, live_of, queues_told, reckoned, refused_item};
ghost use Rattle.law_live.specs.Common.{waiting_at};

/// Of any leg: what waits once so many ticks are made are the frames that were accepted before, less those of which an
/// octet is made, and at most 256. Of two numbers that are told one behind the other the second is another one, and the
/// first isn't 0; the last one, and 0 where there is none, is how many wait behind the last pass. So whoever says the
/// frames knows how many more may be said: in a leg that agrees with what was said, a frame of 64 to 9,600 octets is
/// refused exactly where that number and those said since, but for the refused ones, are 256.
pub fn queue_law()
    ensures waits { (leg : Leg) (ticks : ℕ) →
        (let stream = stream_before (scenario_by leg) (session_of leg) ticks in
        length (frames_in stream.pieces) + waiting_at leg ticks
        ≡ length (frames_before (scenario_by leg) (session_of leg) ticks)) }
    ensures most { (leg : Leg) (ticks : ℕ) → waiting_at leg ticks ≤ 256 }
    ensures differ { (leg : Leg) (said : List Saying) →
        AreOthers 0 (queues_told (answers leg said)) }
    ensures last { (leg : Leg) (said : List Saying) →
        last_number 0 (queues_told (answers leg said))
        ≡ waiting_at leg (live_counts leg said).ticks }
    ensures room { (config : Config) (said : List Saying) (octets : List ℕ) (leg : Leg) →
        IsSound leg → IsWellSaid config (said ++ lands (Frame octets) ∷ []) →
        Agrees config (live_of config (said ++ lands (Frame octets) ∷ [])) leg →
        64 ≤ length octets → length octets ≤ 9600 →
        (reckoned leg said).queue + (reckoned leg said).since < 256 →
        answers_from leg (live_counts leg said) (lands (Frame octets) ∷ []) ≡ [] }
    ensures full { (config : Config) (said : List Saying) (octets : List ℕ) (leg : Leg) →
        IsSound leg → IsWellSaid config (said ++ lands (Frame octets) ∷ []) →
        Agrees config (live_of config (said ++ lands (Frame octets) ∷ [])) leg →
        64 ≤ length octets → length octets ≤ 9600 →
        (reckoned leg said).queue + (reckoned leg said).since ≡ 256 →
        answers_from leg (live_counts leg said) (lands (Frame octets) ∷ [])
        ≡ refused_item (length (live_of config said).items) (frame_fault (QueueFull 256)) ∷ [] }
    ensures within { (config : Config) (said : List Saying) (leg : Leg) → IsSound leg →
        IsWellSaid config said → Agrees config (live_of config said) leg →
        (reckoned leg said).queue + (reckoned leg said).since ≤ 256 }
{}
