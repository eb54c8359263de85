//! One module a subject.

mod codes;
mod headers;
mod large_tables;
mod lines;
mod printed;
mod ranges;
mod tables;
