//! Merging lists of Python requirements, project files and printed tables into one table by package.
#![tactic(auto)]

mod program;
mod standard;
mod write;

pub use crate::program::{run, run_in};
pub use crate::write::write_text;
pub use command_line::{Plan, plan_of};
pub use devices::{Bytes, Counted, Disk, Failed, Folder, OpenFault, Sink, Source};
pub use faults::{ArgumentFault, Cause, Fault, LineFault, Place};
pub use inputs::{
    Input, Kind, ProjectFile, check_bytes, environment_of, gather, gather_reader, laws, list_of,
    merge_bytes, merge_reader, project_of, text_of_line,
};
