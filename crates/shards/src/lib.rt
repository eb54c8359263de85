//! Lists that are split by the names on their lines, so that many machines can merge one mirror.
#![tactic(auto)]

pub mod laws;
mod split;

pub use crate::split::{shard_of, shards_of};
