//! What the tests of several crates share: rows of tables, versions in order, a machine, long texts,
//! bytes as text, and numbers of a seed.
#![tactic(auto)]

mod bytes;
mod long_texts;
mod machine;
mod numbers;
mod ordered;
mod rows;

pub use crate::bytes::hex;
pub use crate::long_texts::{push_numbered, repeated};
pub use crate::machine::{MACHINE, MACHINE_HEADER, STANDARD_HEADER};
pub use crate::numbers::Numbers;
pub use crate::ordered::ORDERED;
pub use crate::rows::{
    Difference, Kind, first_difference, first_difference_from, first_not_itself,
};
