//! The texts of files, and TOML documents: project files with their dependency groups, and environment files.
#![tactic(auto)]

mod document;
mod environment_file;
mod file;
mod groups;
pub mod laws;
mod nesting;
mod project;

pub use crate::environment_file::environment_of;
pub use crate::file::file_text;
pub use crate::project::{ProjectFile, project_of};
