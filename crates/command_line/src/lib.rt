//! What the words of the command line ask for, read by `clap`.
#![tactic(auto)]

mod plan;

pub use crate::plan::{Plan, plan_of};
