//! Why packages have their verdicts: who demands what, and which of these demands clash.
#![tactic(auto)]

mod apart;
mod asked;
mod claims;
mod clash;
mod cover;
mod ends;
mod entered;
pub mod laws;
mod likely;
mod listed;
mod telling;
mod text;

pub use crate::claims::{Claim, PlacedClaim, Reason};
pub use crate::telling::{clashes, why};
pub use crate::text::reasons_text;
