//! Vectors of names, environments, markers and requirement lines, and the faults of these and of their parts, as the
//! documents of the project say them; and the laws from versions to requirement lines.
#![tactic(auto)]

mod faults;

pub use crate::faults::REQUIRE_FAULTS;

#[cfg(test)]
mod tests;
