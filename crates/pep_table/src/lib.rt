//! The table of requirements by package.
#![tactic(auto)]

mod gathered;
mod gathering;
mod keys;
pub mod laws;
mod ordered;
mod printout;
mod read;
mod same;
mod table;
mod text;
mod verdict;

pub use crate::gathering::Gathering;
pub use crate::printout::Printout;
pub use crate::table::Table;
pub use crate::text::entry_text;
pub use demands::{Answer, Entry, Join, Kept, Sorted, TableFault, Verdict, join_all};
pub use texts::TextOut;
