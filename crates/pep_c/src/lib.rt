//! The library for C, and for all that calls C: each export answers by functions of the crates below,
//! and has a contract of its own.
//!
//! Bytes come in as slices. A text goes out into the room that the caller gives, where it fits, and
//! its length always: so no memory changes hands. `include/tubrambutan.h` declares the exports and
//! says what a caller owes, of which nothing is proved.
#![tactic(auto)]

mod clause_lists;
mod fields;
mod first_line;
mod judging;
mod keys;
mod merging;
mod names;
mod parts;
mod questions;
mod ranges;
mod reply;
mod requirements;
mod split;
mod versions;
mod why;
mod within;

pub use crate::clause_lists::{tubrambutan_admits_each, tubrambutan_clauses};
pub use crate::judging::tubrambutan_judge;
pub use crate::keys::{tubrambutan_key, tubrambutan_keys, tubrambutan_version_numbers};
pub use crate::merging::{tubrambutan_check, tubrambutan_merge};
pub use crate::names::tubrambutan_name;
pub use crate::parts::Part;
pub use crate::questions::tubrambutan_check_each;
pub use crate::ranges::tubrambutan_ranges;
pub use crate::reply::{ANSWERED, MISCUT, REFUSED, Reply};
pub use crate::requirements::{tubrambutan_requirement, tubrambutan_requirement_parts};
pub use crate::split::tubrambutan_split;
pub use crate::versions::{tubrambutan_admits, tubrambutan_compare, tubrambutan_version};
pub use crate::why::{tubrambutan_clashes, tubrambutan_why};
pub use crate::within::tubrambutan_within;
