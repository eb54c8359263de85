//! One module a subject.

mod clauses;
mod cuts;
mod keys;
mod large;
mod lines;
mod packed;
mod sets;
mod versions;
