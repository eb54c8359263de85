//! One module a subject.

mod calls;
mod environments;
mod example;
mod fault_lines;
mod folders;
mod joins;
mod laws;
mod lines;
mod pieces;
mod plans;
mod streams;
