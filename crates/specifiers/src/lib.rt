//! Version specifier clauses, by PEP 440: read, written, and what they admit.
#![tactic(auto)]

mod clause;
mod fault;
pub mod laws;
mod op;

pub use crate::clause::{Clause, Operand, is_demanded_text, operand_in_front};
pub use crate::fault::ClauseFault;
pub use crate::op::{Begin, End, Op};
