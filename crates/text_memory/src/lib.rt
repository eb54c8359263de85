//! A memory of what was found out about texts, so that a text that comes again isn't judged again.
#![tactic(auto)]

mod memory;
mod sum;

pub use crate::memory::{OfText, TextMemory};
