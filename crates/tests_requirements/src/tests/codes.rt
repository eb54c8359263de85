//! Codes of faults, their texts, and the faults that are made of others.

use crate::REQUIRE_FAULTS;
use crate::tests::lines::{expect_line, expect_same};
use pep_clause::ClauseFault;
use pep_marker::{MarkerFault, Variable};
use pep_require::RequireFault;
use pep_version::VersionFault;
use std::alloc::{AllocError, Global};
use std::fmt::Display;
use std::process::Abort;

// Faults of versions, each with its code and its text.
const VERSION_FAULTS: [(VersionFault, &str); 3] = [
    (VersionFault::NotAVersion, "1 not a version"),
    (
        VersionFault::NumberTooLarge,
        "2 a number of the version is too large",
    ),
    (VersionFault::NoMemory, "3 out of memory"),
];

// Faults of clauses.
const CLAUSE_FAULTS: [(ClauseFault, &str); 7] = [
    (ClauseFault::NoOperator, "11 no operator"),
    (ClauseFault::BadVersion, "12 not a version"),
    (ClauseFault::StarNotAllowed, "13 `.*` may not stand here"),
    (
        ClauseFault::LocalNotAllowed,
        "14 a local version label may not stand here",
    ),
    (
        ClauseFault::OneNumber,
        "15 `~=` wants two release numbers or more",
    ),
    (
        ClauseFault::NumberTooLarge,
        "16 a number of the version is too large",
    ),
    (ClauseFault::NoMemory, "17 out of memory"),
];

// Faults of names and markers.
const MARKER_FAULTS: [(MarkerFault, &str); 9] = [
    (MarkerFault::BadName, "21 not a name"),
    (MarkerFault::UnknownVariable, "22 an unknown variable"),
    (
        MarkerFault::MissingVariable(Variable::OsName),
        "23 the variable `os_name` is missing",
    ),
    (
        MarkerFault::RepeatedVariable,
        "24 a variable is given twice",
    ),
    (MarkerFault::BadValue, "25 a value with a control character"),
    (MarkerFault::BadMarker, "26 not a marker"),
    (
        MarkerFault::TooDeep,
        "27 a marker that is too deep or too long",
    ),
    (MarkerFault::Undefined, "28 an undefined comparison"),
    (MarkerFault::NoMemory, "29 out of memory"),
];

// A code, and what its fault is told as.
fn fault_line(alloc: Global, code: u64, fault: &impl Display) -> Result<String, AllocError> {
    format!(in alloc; "{code} {fault}")
}

// Asserts what a fault is told as behind its code.
fn expect_told(
    rt: &(impl Abort + AllocGlobal),
    code: u64,
    fault: &impl Display,
    want: &str,
) -> Result<(), AllocError> {
    let line = fault_line(rt.alloc(), code, fault)?;
    expect_line(rt, line.as_str(), want);
    Ok(())
}

#[test]
fn versions(rt: HostRuntime) -> Result<(), AllocError> {
    for &(fault, want) in &VERSION_FAULTS {
        expect_told(&rt, fault.code(), &fault, want)?;
    }
    Ok(())
}

#[test]
fn clauses(rt: HostRuntime) -> Result<(), AllocError> {
    for &(fault, want) in &CLAUSE_FAULTS {
        expect_told(&rt, fault.code(), &fault, want)?;
    }
    Ok(())
}

#[test]
fn markers(rt: HostRuntime) -> Result<(), AllocError> {
    for &(fault, want) in &MARKER_FAULTS {
        expect_told(&rt, fault.code(), &fault, want)?;
    }
    Ok(())
}

// A fault of a requirement line: its code, the code inside it and its text.
fn require_line(alloc: Global, fault: RequireFault) -> Result<String, AllocError> {
    let code = fault.code();
    match fault.inner_code() {
        Some(inner) => format!(in alloc; "{code} {inner} {fault}"),
        None => format!(in alloc; "{code} {fault}"),
    }
}

// Asserts what each fault of a requirement line is told as.
fn expect_require_lines(rt: &(impl Abort + AllocGlobal), rows: &[(RequireFault, &str)]) {
    for &(fault, want) in rows {
        let line = require_line(rt.alloc(), fault).expect(rt, "room for a line");
        expect_line(rt, line.as_str(), want);
    }
}

// The fault of a requirement line with this fault of a clause in it.
fn of_clause(fault: ClauseFault) -> RequireFault {
    match fault {
        ClauseFault::NoMemory => RequireFault::NoMemory,
        _ => RequireFault::BadClause(fault),
    }
}

// The same with a fault of a name or a marker.
fn of_marker(fault: MarkerFault) -> RequireFault {
    match fault {
        MarkerFault::BadName => RequireFault::BadName,
        MarkerFault::NoMemory => RequireFault::NoMemory,
        _ => RequireFault::BadMarker(fault),
    }
}

#[test]
fn faults_inside_faults(rt: HostRuntime) {
    for &(fault, _) in &CLAUSE_FAULTS {
        expect_same(&rt, fault, RequireFault::from(fault), of_clause(fault));
    }
    for &(fault, _) in &MARKER_FAULTS {
        expect_same(&rt, fault, RequireFault::from(fault), of_marker(fault));
    }
}

const INSIDE: [(RequireFault, &str); 3] = [
    (RequireFault::BadName, "31 not a name"),
    (
        RequireFault::BadClause(ClauseFault::BadVersion),
        "33 12 a faulty clause: not a version",
    ),
    (
        RequireFault::BadMarker(MarkerFault::MissingVariable(Variable::PythonVersion)),
        "35 23 a faulty marker: the variable `python_version` is missing",
    ),
];

#[test]
fn faults_of_requirements(rt: HostRuntime) {
    expect_require_lines(&rt, &REQUIRE_FAULTS);
    expect_require_lines(&rt, &INSIDE);
}
