//! What the definitions of rows and parts mean, and that gathering undoes spreading.
ghost use Rattle.std.specs.Prelude.{◌≡◌, ℕ, ◌+◌, ◌*◌, ◌/◌, ◌%◌, ◌<◌, ◌≤◌, List, [], ◌++◌, length, take, slice_index};
ghost use Rattle.std.specs.Prelude.{slice_index_or, Contains, All};
ghost use Rattle.law_model.specs.rows.Interleave.{row_of};
ghost use Rattle.law_model.specs.Common.{part_of, parts_of, octets_from};
ghost use Rattle.member_rows.specs.vcat_interleave.GatheredRow.{GathersAll};

/// Octet `i` of a row goes to the member of rank `i mod x`, place `i div x`. The row of the parts of a row is
/// that row, and the parts of the row of some members are what these carry. A row goes on where a piece of it
/// ends.
pub fn interleave_law()
    ensures dealt { (x places i : ℕ) (row : List ℕ) → i < places * x →
        slice_index (part_of (i % x) x places row) (i / x) ≡ slice_index row i }
    ensures size { (rank x places : ℕ) (row : List ℕ) →
        length (part_of rank x places row) ≡ places }
    ensures joined { (x places : ℕ) (row : List ℕ) → length row ≡ places * x →
        row_of places (parts_of x places row) ≡ row }
    ensures parted { (rank places : ℕ) (parts : List (List ℕ)) → rank < length parts →
        All (λ part. places ≤ length part) parts →
        part_of rank (length parts) places (row_of places parts)
        ≡ take places (slice_index_or parts rank []) }
    ensures pieces { (place a b : ℕ) (parts : List (List ℕ)) → octets_from place (a + b) parts
        ≡ octets_from place a parts ++ octets_from (place + a) b parts }
{}

/// Once the member of each rank was gathered with what it carries of a row, in whatever order, the row is back.
pub fn gather_law()
    ensures { (x places : ℕ) (row before after : List ℕ) (ranks : List ℕ) →
        length row ≡ places * x → length before ≡ places * x →
        ((rank : ℕ) → rank < x → Contains ranks rank) →
        GathersAll x places row ranks before after → after ≡ row }
{}
