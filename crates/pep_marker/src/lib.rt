//! Names of packages by PEP 503, and what environment markers mean by PEP 508.
#![tactic(auto)]

mod chains;
mod compared_text;
mod environment;
mod fault;
mod forms;
mod header;
mod holds;
mod judged;
pub mod laws;
mod making;
mod marker;
mod name;
mod name_text;
mod normal;
mod short_form;
mod slots;
mod token;
mod value;
mod written_name;

pub use crate::environment::{Environment, Variable};
pub use crate::fault::MarkerFault;
pub use crate::header::HeaderIn;
pub use crate::judged::JudgedMarkers;
pub use crate::marker::{Marker, Operand, Operator};
pub use crate::name::{Name, norm_of};
pub use crate::written_name::WrittenName;
