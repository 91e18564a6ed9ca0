//! What an end says, fact by fact.
ghost use Rattle.std.specs.Prelude.{◌≡◌, ◌≢◌, ◌⊎◌, ◌≤◌, ℕ, List, [], length, IfSome, None, IsTrue, codes};
ghost use Rattle.std.specs.Io.KnownBytes.{IsAtEnd, prepend_known};
ghost use Rattle.command_parts.specs.declared.stop_and_status.Refusal.{Refusal};
ghost use Rattle.command_parts.specs.Talk.{Talk, IsTalk, faulty, long};
ghost use Rattle.command_parts.specs.Task.{Answer, Task, none, reads, makes, talks, refuses, exceeds, Reads, Talks};
ghost use Rattle.command_parts.specs.Task.{HasInput, IsGood, IsQuietTask, refused_status};
ghost use Rattle.command_parts.specs.Ends.{Lent, Kept, Quiet, FailedOnce, IsTold, IsLong, Meets, WritesAll, WritesPart};
ghost use Rattle.command_parts.specs.Ends.{until, since, Takes, IsTalkCut, IsTalkEnded, Ends};
ghost use Rattle.command_parts.specs.Status.{is_status, HasReadAt, Rises};
ghost use Rattle.law_model.specs.Common.{longest_input};

/// What an end says of any task: which statuses there are, what was read and written, which faults were
/// counted, and what was told.
pub fn end_law<S, K, E>()
    // Which status comes.
    ensures known { (source : Lent S) (out : Lent K) (notes : Lent E) (task : Task) (s : ℕ) →
        Ends source out notes task s → IsTrue (is_status s) }
    ensures usage { (source : Lent S) (out : Lent K) (notes : Lent E) (task : Task) (s : ℕ) →
        Ends source out notes task s → s ≡ 2 → (usage : List ℕ) × (task ≡ none usage)
        × Kept source × IsTold notes usage }
    ensures no_command { (source : Lent S) (out : Lent K) (notes : Lent E) (task : Task) (s : ℕ) →
        Ends source out notes task s → (usage : List ℕ) → task ≡ none usage → s ≡ 2 }
    ensures reading { (source : Lent S) (out : Lent K) (notes : Lent E) (task : Task) (s : ℕ) →
        Ends source out notes task s → s ≡ 3 → HasInput task }

    // What is read, and the faults of the source.
    ensures long { (source : Lent S) (out : Lent K) (notes : Lent E) (task : Task) (s : ℕ) →
        Ends source out notes task s → (¬ Talks task) → s ≡ 8 →
        (Reads task × IsLong source) ⊎ Meets source task exceeds }
    ensures fits { (source : Lent S) (out : Lent K) (notes : Lent E) (task : Task) (s : ℕ) →
        Ends source out notes task s → Reads task → HasReadAt s →
        IfSome (source.octets source.old) (λ text. length text ≤ longest_input) }
    ensures end { (source : Lent S) (out : Lent K) (notes : Lent E) (task : Task) (s : ℕ) →
        Ends source out notes task s → Reads task → HasReadAt s →
        IsAtEnd (source.octets source.new) }
    ensures unread { (source : Lent S) (out : Lent K) (notes : Lent E) (task : Task) (s : ℕ) →
        Ends source out notes task s → (¬ HasInput task) → Kept source }
    ensures read_failed { (source : Lent S) (out : Lent K) (notes : Lent E) (task : Task) (s : ℕ) →
        Ends source out notes task s → s ≡ 3 → FailedOnce source }
    ensures read_quiet { (source : Lent S) (out : Lent K) (notes : Lent E) (task : Task) (s : ℕ) →
        Ends source out notes task s → s ≢ 3 → Quiet source }

    // What is written, and the faults of the sinks.
    ensures nothing { (source : Lent S) (out : Lent K) (notes : Lent E) (task : Task) (s : ℕ) →
        Ends source out notes task s → (¬ Talks task) → s ≢ 0 → s ≢ 4 → Kept out }
    ensures write_failed { (source : Lent S) (out : Lent K) (notes : Lent E) (task : Task) (s : ℕ) →
        Ends source out notes task s → s ≡ 4 → Rises (out.faults out.old) (out.faults out.new)
        ⊎ Rises (notes.faults notes.old) (notes.faults notes.new) }
    ensures write_counted { (source : Lent S) (out : Lent K) (notes : Lent E) (task : Task) (s : ℕ) →
        Ends source out notes task s → IsQuietTask task → s ≡ 4 → FailedOnce out }
    ensures write_quiet { (source : Lent S) (out : Lent K) (notes : Lent E) (task : Task) (s : ℕ) →
        Ends source out notes task s → s ≢ 4 → Quiet out }
    ensures quiet { (source : Lent S) (out : Lent K) (notes : Lent E) (task : Task) (s : ℕ) →
        Ends source out notes task s → IsQuietTask task → s ≡ 0 → Kept notes }

    // What is told.
    ensures told_read { (source : Lent S) (out : Lent K) (notes : Lent E) (task : Task) (s : ℕ) →
        Ends source out notes task s → s ≡ 3 → IsTold notes (codes "fault: read failed\n") }
    ensures told_write { (source : Lent S) (out : Lent K) (notes : Lent E) (task : Task) (s : ℕ) →
        Ends source out notes task s → IsQuietTask task → s ≡ 4 →
        IsTold notes (codes "fault: write failed\n") }
    ensures told_memory { (source : Lent S) (out : Lent K) (notes : Lent E) (task : Task) (s : ℕ) →
        Ends source out notes task s → s ≡ 7 → IsTold notes (codes "fault: no memory\n") }
    ensures told_long { (source : Lent S) (out : Lent K) (notes : Lent E) (task : Task) (s : ℕ) →
        Ends source out notes task s → s ≡ 8 → IsTold notes (codes "fault: too long\n") }
{}

/// What an end says of a task that reads an input, where the source tells its octets: these are what is answered.
pub fn input_law<S, K, E>()
    ensures written { (source : Lent S) (out : Lent K) (notes : Lent E)
        (answer : List ℕ → Answer) (s : ℕ) →
        Ends source out notes (reads answer) s → s ≡ 0 →
        IfSome (source.octets source.old) (λ text. WritesAll out notes (answer text)) }
    ensures part { (source : Lent S) (out : Lent K) (notes : Lent E)
        (answer : List ℕ → Answer) (s : ℕ) →
        Ends source out notes (reads answer) s → s ≡ 4 → (middle : E)
        × IfSome (source.octets source.old)
        (λ text. WritesPart out (until middle notes) (answer text))
        × IsTold (since middle notes) (codes "fault: write failed\n") }
    ensures refused { (source : Lent S) (out : Lent K) (notes : Lent E)
        (answer : List ℕ → Answer) (s : ℕ) →
        Ends source out notes (reads answer) s → (s ≡ 5) ⊎ (s ≡ 6) →
        (why : Refusal) × (note : List ℕ) × (s ≡ refused_status why)
        × IfSome (source.octets source.old) (λ text. answer text ≡ refuses why note)
        × IsTold notes note }
    ensures complete { (source : Lent S) (out : Lent K) (notes : Lent E)
        (answer : List ℕ → Answer) (s : ℕ) →
        Ends source out notes (reads answer) s → IfSome (source.octets source.old)
        (λ text. length text ≤ longest_input → IsGood (answer text) → (s ≡ 0) ⊎ ((s ≡ 7)
        ⊎ (Rises (source.faults source.old) (source.faults source.new)
        ⊎ (Rises (out.faults out.old) (out.faults out.new)
        ⊎ Rises (notes.faults notes.old) (notes.faults notes.new))))) }
{}

/// What an end says of a task that reads nothing.
pub fn made_law<S, K, E>()
    ensures written { (source : Lent S) (out : Lent K) (notes : Lent E)
        (answer : Answer) (s : ℕ) →
        Ends source out notes (makes answer) s → s ≡ 0 → WritesAll out notes answer }
    ensures part { (source : Lent S) (out : Lent K) (notes : Lent E) (answer : Answer) (s : ℕ) →
        Ends source out notes (makes answer) s → s ≡ 4 → (middle : E)
        × WritesPart out (until middle notes) answer
        × IsTold (since middle notes) (codes "fault: write failed\n") }
    ensures complete { (source : Lent S) (out : Lent K) (notes : Lent E)
        (answer : Answer) (s : ℕ) →
        Ends source out notes (makes answer) s → IsGood answer → (s ≡ 0) ⊎ ((s ≡ 7)
        ⊎ (Rises (out.faults out.old) (out.faults out.new)
        ⊎ Rises (notes.faults notes.old) (notes.faults notes.new))) }
    ensures beyond { (source : Lent S) (out : Lent K) (notes : Lent E) (answer : Answer) (s : ℕ) →
        Ends source out notes (makes answer) s → answer ≡ exceeds → (s ≡ 7) ⊎ (s ≡ 8) }
    ensures long { (source : Lent S) (out : Lent K) (notes : Lent E) (answer : Answer) (s : ℕ) →
        Ends source out notes (makes answer) s → s ≡ 8 → answer ≡ exceeds }
{}

/// What an end says of a task that talks: what was read, and what is written of what was said to it.
pub fn talk_end_law<S, K, E>()
    ensures done { (source : Lent S) (out : Lent K) (notes : Lent E) (talk : Talk) (s : ℕ) →
        Ends source out notes (talks talk) s → s ≡ 0 → IfSome (source.octets source.old)
        (λ text. ((talk.in_all text).end ≡ None) × Takes out (talk.in_all text).text) }
    ensures end { (source : Lent S) (out : Lent K) (notes : Lent E) (talk : Talk) (s : ℕ) →
        Ends source out notes (talks talk) s → s ≡ 0 → IsAtEnd (source.octets source.new) }
    ensures unread { (source : Lent S) (out : Lent K) (notes : Lent E) (talk : Talk) (s : ℕ) →
        Ends source out notes (talks talk) s → s ≡ 3 → (taken : List ℕ)
        × (source.octets source.old ≡ prepend_known taken (source.octets source.new))
        × ((talk.so_far taken).end ≡ None) × Takes out (talk.so_far taken).text }
    ensures part { (source : Lent S) (out : Lent K) (notes : Lent E) (talk : Talk) (s : ℕ) →
        Ends source out notes (talks talk) s → s ≡ 4 → IsTalkCut source out talk }
    ensures refused { (source : Lent S) (out : Lent K) (notes : Lent E) (talk : Talk) (s : ℕ) →
        Ends source out notes (talks talk) s → (s ≡ 5) ⊎ (s ≡ 6) →
        (why : Refusal) × (note : List ℕ) × (s ≡ refused_status why)
        × IsTalkEnded source out talk (faulty why note) × IsTold notes note }
    ensures nothing { (source : Lent S) (out : Lent K) (notes : Lent E) (talk : Talk) (s : ℕ) →
        Ends source out notes (talks talk) s → s ≡ 7 → Takes out [] }
    ensures too_long { (source : Lent S) (out : Lent K) (notes : Lent E) (talk : Talk) (s : ℕ) →
        Ends source out notes (talks talk) s → s ≡ 8 →
        IsTalkEnded source out talk long }
    ensures complete { (source : Lent S) (out : Lent K) (notes : Lent E) (talk : Talk) (s : ℕ) →
        Ends source out notes (talks talk) s → IsTalk talk → IfSome (source.octets source.old)
        (λ text. (talk.in_all text).end ≡ None → (s ≡ 0) ⊎ ((s ≡ 7)
        ⊎ (Rises (source.faults source.old) (source.faults source.new)
        ⊎ Rises (out.faults out.old) (out.faults out.new)))) }
{}
