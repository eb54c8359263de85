//! Version specifier clauses, cuts and version sets, by PEP 440. Clauses stand in the crate `specifiers`.
#![tactic(auto)]

mod cut;
pub mod laws;
mod packed_cut;
mod range;
mod range_ends;
mod ranges;
mod set;
mod sweep;
mod turns;
mod words;

pub use crate::cut::Cut;
pub use crate::packed_cut::{CUT_ROOM, PackedCut};
pub use crate::range::Range;
pub use crate::set::VersionSet;
pub use crate::turns::Turns;
pub use specifiers::{
    Begin, Clause, ClauseFault, End, Op, Operand, is_demanded_text, operand_in_front,
};
pub use texts::TextOut;
