//! What is proved of pointers from end to end.
ghost use Rattle.std.specs.Prelude.{◌≡◌, ◌≢◌, ℕ, ◌+◌, ◌-◌, ◌*◌, ◌%◌, ◌<◌, ◌≤◌, ◌↔◌, List, [], ◌∷◌, ◌++◌, length};
ghost use Rattle.std.specs.Prelude.{replicate, Some, None, Err};
ghost use Rattle.member_au4.specs.au4_pointer.PointerWord.{word_of, next_value, value_after, new_wait, reading};
ghost use Rattle.member_au4.specs.au4_pointer.StreamPart.{Part, AreVcs, begins, ends, begun, part_after, whole};
ghost use Rattle.member_au4.specs.au4_pointer.Sink.{given, added};
ghost use Rattle.member_au4.specs.au4_pointer.Source.{frame_after};
ghost use Rattle.member_au4.specs.au4_pointer.SentFrames.{sent, datas_from, datas, AreAccepted, AreTaken};
ghost use Rattle.member_au4.specs.au4_pointer.Worked.{worked_actions, worked_vcs};

use crate::au4_pointer::au_frame::{Action, AuFrame};
use crate::au4_pointer::pointer_sink::PointerWordFault;

/// Of all that a source sends, a sink refuses nothing and gives exactly the VC-4s that end in their part, in order and
/// each once.
pub fn pointer_law()
    ensures whole { (start : ℕ) (actions : List Action) (vcs : List (List ℕ)) →
        start ≤ 782 → AreAccepted actions → AreVcs vcs →
        begun (part_after start actions) ≤ length vcs →
        given (sent start actions vcs) ≡ whole start actions vcs }
    ensures taken { (start : ℕ) (actions : List Action) (vcs : List (List ℕ)) →
        start ≤ 782 → AreAccepted actions → AreVcs vcs →
        begun (part_after start actions) ≤ length vcs →
        AreTaken (sent start actions vcs) }
{}

/// The frames of all calls of a source are those of its actions: each is the last one of the actions up to its own, and
/// what is asked of the feed later changes nothing of it.
pub fn sending_law()
    ensures { (start : ℕ) (actions : List Action) (a : Action) (asked more : List (List ℕ)) →
        AreVcs asked → begun (part_after start actions) ≤ length asked →
        sent start (actions ++ a ∷ []) (asked ++ more)
        ≡ sent start actions asked ++ frame_after start actions a (asked ++ more) ∷ [] }
{}

/// A frame more changes nothing of the VC-4s that frames give.
pub fn growing_law()
    ensures { (frames : List AuFrame) (frame : AuFrame) →
        given (frames ++ frame ∷ []) ≡ given frames ++ added frames frame }
{}

/// The data of the frames of a part are zeros and then the VC-4s from the first that wasn't begun, up to the end of the
/// part.
pub fn data_law()
    ensures { (start : ℕ) (actions : List Action) (vcs : List (List ℕ)) →
        datas_from [] actions (sent start actions vcs) ≡ datas start actions vcs }
{}

/// VC-4 `k` of a part begins in it where its first octet does, and ends in it where its last octet does.
pub fn count_law()
    ensures begins { (part : Part) (k : ℕ) →
        (k < begins part) ↔ (3 * part.value + 2349 * k < part.size) }
    ensures ends { (part : Part) (k : ℕ) →
        (k < ends part) ↔ (3 * part.value + 2349 * (k + 1) ≤ part.size) }
{}

/// In the data of each frame a VC-4 begins at octet `3 · value`, modulo 2,349.
pub fn place_law()
    ensures { (start : ℕ) (actions : List Action) →
        (3 * value_after start actions + (part_after start actions).size) % 2349
        ≡ 3 * (part_after start actions).value % 2349 }
{}

/// Behind an action that isn't Keep three frames are to wait, less those that were Keep since.
pub fn wait_law()
    ensures behind { (before : List Action) (a : Action) (n : ℕ) → a ≢ Action.Keep →
        new_wait (before ++ a ∷ replicate n Action.Keep) ≡ 3 - n }
    ensures none { (n : ℕ) → new_wait (replicate n Action.Keep) ≡ 0 }
{}

/// Worked actions, computed.
pub fn worked_law()
    ensures keep { word_of 5 Action.Keep ≡ 0x6805 }
    ensures up { word_of 5 Action.Up ≡ 0x6aaf }
    ensures behind_up { word_of (next_value 5 Action.Up) Action.Keep ≡ 0x6806 }
    ensures down { word_of 5 Action.Down ≡ 0x6950 }
    ensures behind_down { word_of (next_value 5 Action.Down) Action.Keep ≡ 0x6804 }
    ensures new { word_of 5 (Action.New 5) ≡ 0x9805 }
    ensures three_whole { whole 0 worked_actions worked_vcs ≡ (0 ∷ []) ∷ (1 ∷ []) ∷ (2 ∷ []) ∷ [] }
    ensures two_whole { whole 5 worked_actions worked_vcs ≡ (0 ∷ []) ∷ (2 ∷ []) ∷ [] }
    ensures four_begun { begun (part_after 0 worked_actions) ≡ 4 }
    ensures one_cut { begun (part_after 5 worked_actions) ≡ 4 }
{}

/// Worked: the words that a sink refuses, behind a frame with a next value or behind none.
pub fn refused_law()
    ensures flag { reading None 0x3805 ≡ Err (PointerWordFault.Flag 3) }
    ensures later_flag { reading (Some 5) 0x3805 ≡ Err (PointerWordFault.Flag 3) }
    ensures first_range { reading None 0x6b0f ≡ Err (PointerWordFault.Range 783) }
    ensures range { reading None 0x9b0f ≡ Err (PointerWordFault.Range 783) }
    ensures later_range { reading (Some 5) 0x9b0f ≡ Err (PointerWordFault.Range 783) }
    ensures unexpected { reading (Some 5) 0x6806 ≡ Err (PointerWordFault.Unexpected 6) }
{}
