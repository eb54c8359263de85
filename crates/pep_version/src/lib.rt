//! Python versions by PEP 440: reading, the normal text, and the order.
#![tactic(auto)]

mod fault;
mod key;
pub mod laws;
mod number;
mod order;
mod parts;
mod release;
mod segments;
mod slices;
mod text;
mod version;

pub use crate::fault::VersionFault;
pub use crate::key::{Key, KeyBytes, behind_release, public_key_bytes};
pub use crate::parts::{Label, Phase};
pub use crate::text::{put_release, put_suffixes};
pub use crate::version::Version;
pub use texts::TextOut;
