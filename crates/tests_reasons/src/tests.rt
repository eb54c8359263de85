//! One module a subject.

mod lines;
mod shown;
mod split;
mod worked;
