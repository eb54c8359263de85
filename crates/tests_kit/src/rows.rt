//! Rows of tables, and the lines that are made of them.

use std::alloc::Global;

/// What the lines of a table are made by.
pub trait Kind {
    /// Why a row has no line.
    type Fault: Drop;

    /// The line of a row.
    fn line(&self, alloc: Global, row: &str) -> Result<String, Self::Fault>;
}

/// The first row whose line isn't the wanted one, with that line and the wanted one, if there is such a row.
pub type Difference<'a> = Option<(&'a str, String, &'a str)>;

/// The first row that doesn't have the line behind it.
pub fn first_difference<'a, K: Kind>(
    alloc: Global,
    kind: &K,
    rows: &[(&'a str, &'a str)],
) -> Result<Difference<'a>, K::Fault> {
    for &(row, want) in rows {
        let line = kind.line(alloc, row)?;
        if line.as_str() != want {
            return Ok(Some((row, line, want)));
        }
    }
    Ok(None)
}

/// The first row that doesn't have this line.
pub fn first_difference_from<'a, K: Kind>(
    alloc: Global,
    kind: &K,
    rows: &[&'a str],
    want: &'a str,
) -> Result<Difference<'a>, K::Fault> {
    for row in rows {
        let line = kind.line(alloc, row)?;
        if line.as_str() != want {
            return Ok(Some((row, line, want)));
        }
    }
    Ok(None)
}

/// The first row that isn't its own line.
pub fn first_not_itself<'a, K: Kind>(
    alloc: Global,
    kind: &K,
    rows: &[&'a str],
) -> Result<Difference<'a>, K::Fault> {
    for row in rows {
        let line = kind.line(alloc, row)?;
        if line.as_str() != *row {
            return Ok(Some((row, line, row)));
        }
    }
    Ok(None)
}
