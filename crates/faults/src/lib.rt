//! Faults of inputs and of the program, and the line that tells one.
#![tactic(auto)]

mod fault;

pub use crate::fault::{ArgumentFault, Cause, Fault, LineFault, Place};
