//! Assertions about lines, and about rows of `const` tables.

use std::fmt::Debug;
use std::process::Abort;
use tests_kit::{Difference, Kind, first_difference, first_not_itself};

/// Asserts that no row has another line than the wanted one.
pub(crate) fn expect_none(rt: &impl Abort, found: Difference) {
    assert!(rt; found.is_none(), "{found:?}");
}

/// Asserts that each row has the line behind it.
pub(crate) fn expect_lines<K: Kind>(
    rt: &(impl Abort + AllocGlobal),
    kind: &K,
    rows: &[(&str, &str)],
)
where
    K::Fault: Debug,
{
    let found = first_difference(rt.alloc(), kind, rows);
    expect_none(rt, found.expect(rt, "a line of each row"));
}

/// Asserts that each row is its own line.
pub(crate) fn expect_own_lines<K: Kind>(rt: &(impl Abort + AllocGlobal), kind: &K, rows: &[&str])
where
    K::Fault: Debug,
{
    let found = first_not_itself(rt.alloc(), kind, rows);
    expect_none(rt, found.expect(rt, "a line of each row"));
}

/// Asserts that a line is the wanted one.
pub(crate) fn expect_line(rt: &impl Abort, line: &str, want: &str) {
    assert_eq!(rt; line, want);
}

/// Asserts that the line of a row is the wanted one, and tells the row.
pub(crate) fn expect_row(rt: &impl Abort, row: &str, line: &str, want: &str) {
    assert_eq!(rt; line, want, "of {row}");
}

/// Asserts that what is found of a row is what is wanted, and tells the row.
pub(crate) fn expect_same<T: Copy + PartialEq + Debug>(
    rt: &impl Abort,
    row: impl Copy + Debug,
    found: T,
    want: T,
) {
    assert_eq!(rt; found, want, "of {row:?}");
}

/// Asserts that something holds of a row, and tells the row.
pub(crate) fn expect(rt: &impl Abort, row: impl Copy + Debug, holds: bool) {
    assert!(rt; holds, "of {row:?}");
}
