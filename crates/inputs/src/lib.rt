//! Lists, project files and printed tables, read and merged into one table.
#![tactic(auto)]

mod gathering;
mod input;
pub mod laws;
mod lines;
mod list;
mod merge;
mod stream;
mod table_file;

pub use crate::gathering::gather;
pub use crate::input::{Input, Kind};
pub use crate::lines::text_of_line;
pub use crate::list::{lines_text, list_of};
pub use crate::merge::{check_bytes, merge_bytes, merge_printout, printout_of};
pub use crate::stream::{gather_reader, merge_reader};
pub use documents::{ProjectFile, environment_of, project_of};
