//! Requirement lines, by PEP 508.
#![tactic(auto)]

mod clauses;
mod common_url;
mod extras;
mod fault;
mod front;
mod keeping;
pub mod laws;
mod read;
mod requirement;
mod sink;
mod target;
mod text;
mod url_text;
mod walking;

pub use crate::fault::RequireFault;
pub use crate::requirement::{Requirement, Target};
pub use crate::sink::LineSink;
pub use crate::url_text::UrlText;
pub use crate::walking::walk;
