//! What is known of a source and of a sink: the octets that they tell, and their count of failed calls.
ghost use Rattle.std.specs.Prelude.{◌≡◌, ℕ, ◌<◌, ◌≤◌, List, length, take, Option, None, IfOk, OnOk, OnErr};
ghost use Rattle.std.specs.Io.KnownBytes.{append_known, prepend_known, IsAtEnd};
ghost use Rattle.octet_io.specs.FaultCounts.{one_more};

/// A call that failed: the outside world gave or took nothing in it.
#[derive(Clone, Copy, Debug, PartialEq, Eq)]
pub struct Failed;

/// Where octets come from.
pub trait ByteSource {
    /// The octets that are left, where the source tells them.
    ghost left: { Self → Option (List ℕ) } = { λ _. None };

    /// How many calls have failed; the count stops at 2^64 - 1.
    ghost faults: { Self → ℕ };

    /// Takes octets into the front of `buf`, and answers how many. No octet, where `buf` isn't empty, is the end.
    /// At `Failed` nothing is taken, and one fault is counted; else none is. The count never falls, whoever keeps it.
    fn take(&mut self, buf: &mut [u8]) -> Result<usize, Failed>
        ensures bound { IfOk result (λ n. n ≤ length buf.new) }
        ensures moved { IfOk result
            (λ n. left self.old ≡ prepend_known (take n buf.new) (left self.new)) }
        ensures end { IfOk result (λ n. n ≡ 0 → 0 < length buf.old → IsAtEnd (left self.new)) }
        ensures stays { OnErr result (left self.new ≡ left self.old) }
        ensures never_falls { faults self.old ≤ faults self.new }
        ensures quiet { OnOk result (faults self.new ≡ faults self.old) }
        ensures counted { OnErr result (faults self.new ≡ one_more (faults self.old)) };
}

/// Where octets go.
pub trait ByteSink {
    /// The octets that are written, where the sink tells them.
    ghost written: { Self → Option (List ℕ) } = { λ _. None };

    /// How many calls have failed; the count stops at 2^64 - 1.
    ghost faults: { Self → ℕ };

    /// Appends a prefix of `piece`, at least one octet if there is one, and answers how many octets it has.
    /// At `Failed` nothing is appended, and one fault is counted; else none is. The count never falls,
    /// whoever keeps it.
    fn put(&mut self, piece: &[u8]) -> Result<usize, Failed>
        ensures bound { IfOk result (λ n. n ≤ length piece.now) }
        ensures moves { IfOk result (λ n. 0 < length piece.now → 0 < n) }
        ensures appended { IfOk result
            (λ n. written self.new ≡ append_known (written self.old) (take n piece.now)) }
        ensures stays { OnErr result (written self.new ≡ written self.old) }
        ensures never_falls { faults self.old ≤ faults self.new }
        ensures quiet { OnOk result (faults self.new ≡ faults self.old) }
        ensures counted { OnErr result (faults self.new ≡ one_more (faults self.old)) };
}
