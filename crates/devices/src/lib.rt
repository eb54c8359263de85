//! Devices that give or take bytes, files by their paths, and writing to the end.
#![tactic(auto)]

mod device;
mod folder;
mod pieces;
mod taken;
mod write;

pub use crate::device::{Bytes, Counted, Failed, Sink, Source};
pub use crate::folder::{Disk, Folder, OpenFault};
pub use crate::pieces::{Printed, push_pieces};
pub use crate::write::push_all;
