//! The payload of a group, dealt octet by octet to its members and joined again (G.707). Octet `i` of a row
//! goes to the member of rank `i mod x`, place `i div x`, if `x` members carry payload. Which lines these are
//! is not known here. Begin with `spread_places` and `gather_places`, which do all members at once, at any
//! number of places; `spread` and `gather` do one member, the latter for `gather_law` alone. `interleave_law` and
//! `gather_law` say which octet goes to which member, and that the row comes back.

mod gather_members;
mod interleave_laws;
mod octets_of_member;
mod spread_members;
mod transpose_square;

pub use gather_members::{gather, gather_places};
pub use interleave_laws::{gather_law, interleave_law};
pub use spread_members::{spread, spread_places};
