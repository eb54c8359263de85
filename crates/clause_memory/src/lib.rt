//! What the lines of a list demand: a sink that takes the parts of a line without a requirement. The clauses of most
//! lines have a version that is a release, which is read number by number. Other clauses are remembered by their texts,
//! and so are markers.
#![tactic(auto)]

mod memory;
mod plain;
mod sink;
mod taking;

pub use crate::sink::{DemandSink, LineSoFar};
