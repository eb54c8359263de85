//! Codes of the faults of tables, and their texts.

use crate::tests::lines::expect_line;
use pep_table::TableFault;
use std::alloc::{AllocError, Global};

const FAULTS: [(TableFault, &str); 4] = [
    (
        TableFault::Undefined(7),
        "28 requirement 7: an undefined marker",
    ),
    (
        TableFault::BadTable(7),
        "41 line 7: not a line that a table has there",
    ),
    (TableFault::NoMemory, "42 out of memory"),
    (
        TableFault::OtherEnvironment(7),
        "43 line 7: of another environment",
    ),
];

// A code, and what its fault is told as.
fn fault_line(alloc: Global, fault: TableFault) -> Result<String, AllocError> {
    let code = fault.code();
    format!(in alloc; "{code} {fault}")
}

#[test]
fn faults(rt: HostRuntime) -> Result<(), AllocError> {
    for &(fault, want) in &FAULTS {
        let line = fault_line(rt.alloc(), fault)?;
        expect_line(&rt, line.as_str(), want);
    }
    Ok(())
}
