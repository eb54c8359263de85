//! Limits of what is read, this project's own.

/// The longest line of a list, and the longest requirement, in bytes.
pub const LINE_LIMIT: usize = 65_536;

/// The largest input, in bytes.
pub const INPUT_LIMIT: usize = 16_777_216;
