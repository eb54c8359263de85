//! One module a subject.

mod codes;
mod environments;
mod laws;
mod lines;
mod markers;
mod names;
mod requirements;
