//! What several crates of this repository share of texts: classes of bytes, runs of one class,
//! white space at the ends, a text split at a byte, texts in one list of bytes, where a text goes
//! that is written part by part, and the longest line and input. Users see [`TextOut`] alone.

#![tactic(auto)]

mod arena;
mod bytes;
mod compare;
mod heads;
mod limits;
mod out;
mod runs;
mod space;
mod split;

pub use crate::arena::Arena;
pub use crate::bytes::{
    is_blank_byte, is_clause_byte, is_letter_or_digit, is_name_byte, is_separator, is_white_space,
};
pub use crate::heads::head_of;
pub use crate::limits::{INPUT_LIMIT, LINE_LIMIT};
pub use crate::out::TextOut;
pub use crate::runs::{
    blank_run, clause_run, has_clause_bytes, name_run, stripped, without_outer_blanks,
};
pub use crate::space::{trimmed, without_trailing_space};
pub use crate::split::first_part;
