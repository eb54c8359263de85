//! What is demanded of one package: its entry in a table, joined with others and gathered from
//! requirements, and what it says of versions.
#![tactic(auto)]

mod collected;
mod entry;
mod fault;
mod join;
mod kept_versions;
mod line_demands;
mod others;
mod package_demands;
mod partial_joins;
mod same;
mod sorted;
mod text_list;
mod verdict;

pub use crate::entry::Entry;
pub use crate::fault::TableFault;
pub use crate::join::{Join, join_all};
pub use crate::line_demands::LineDemands;
pub use crate::others::OtherTexts;
pub use crate::package_demands::{Finished, PackageDemands};
pub use crate::sorted::{Kept, Sorted};
pub use crate::text_list::TextList;
pub use crate::verdict::{Answer, Verdict, is_wanted};
