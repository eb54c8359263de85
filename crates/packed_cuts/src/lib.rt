//! Ranges between two packed cuts ([`PackedCut`](pep_clause::PackedCut)), in which demands are gathered in place of
//! version sets, and what is left over where some ranges are left out.
#![tactic(auto)]

mod left_out;
mod packed_range;
mod packed_set;
mod release_range;

pub use crate::left_out::LeftOut;
pub use crate::packed_range::PackedRange;
pub use crate::packed_set::PackedSet;
