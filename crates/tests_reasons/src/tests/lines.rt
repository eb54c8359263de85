//! Assertions about lines, and about rows of `const` tables.

use std::process::Abort;

/// Asserts that the line of a row is the wanted one, and tells the row.
pub(crate) fn expect_row(rt: &impl Abort, row: &str, line: &str, want: &str) {
    assert_eq!(rt; line, want, "of {row}");
}
