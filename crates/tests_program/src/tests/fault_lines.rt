//! Codes of the faults of a run, and their texts.

use crate::tests::calls::fault_text;
use crate::tests::lines::expect_line;
use pep_clause::ClauseFault;
use pep_marker::MarkerFault;
use pep_require::RequireFault;
use pep_tool::{ArgumentFault, Cause, Failed, Fault, LineFault, OpenFault, Place};
use pep_version::VersionFault;
use std::alloc::{AllocError, Global};
use std::fmt::Display;
use std::process::Abort;
use tests_requirements::REQUIRE_FAULTS;

// A fault of a line: its code, the code inside it and its text.
fn line_fault_line(alloc: Global, fault: LineFault) -> Result<String, AllocError> {
    let code = fault.code();
    match fault.inner_code() {
        Some(inner) => format!(in alloc; "{code} {inner} {fault}"),
        None => format!(in alloc; "{code} {fault}"),
    }
}

// Faults of lines that are not those of requirements.
const OF_LINES: [(LineFault, &str); 4] = [
    (LineFault::NotUtf8, "51 not UTF-8"),
    (
        LineFault::Undefined,
        "28 a marker is undefined in the environment",
    ),
    (LineFault::BadTable, "41 not a line that a table has there"),
    (LineFault::OtherEnvironment, "43 of another environment"),
];

// Asserts what a fault of a line is told as.
fn expect_line_fault(rt: &(impl Abort + AllocGlobal), fault: LineFault, want: &str) {
    let found = line_fault_line(rt.alloc(), fault).expect(rt, "room for a line");
    expect_line(rt, found.as_str(), want);
}

#[test]
fn faults_of_requirements(rt: HostRuntime) {
    for &(fault, want) in &REQUIRE_FAULTS {
        expect_line_fault(&rt, LineFault::from(fault), want);
    }
}

#[test]
fn faults_of_lines(rt: HostRuntime) {
    for &(fault, want) in &OF_LINES {
        expect_line_fault(&rt, fault, want);
    }
}

// A cause: its code and its text.
fn cause_line(alloc: Global, cause: &Cause) -> Result<String, AllocError> {
    format!(in alloc; "{} {cause}", cause.code())
}

const CAUSES: [(Cause, &str); 17] = [
    (Cause::NotUtf8, "51 not UTF-8"),
    (Cause::NotToml, "52 not a TOML document"),
    (Cause::NoProject, "53 no `project`"),
    (Cause::Dynamic, "54 dynamic dependencies"),
    (Cause::WrongShape, "55 a value of the wrong shape"),
    (Cause::TooLarge, "56 more than 16,777,216 bytes"),
    (Cause::ReadFault, "58 a read failed"),
    (
        Cause::BadEnvironment(MarkerFault::BadValue),
        "59 a faulty environment: a value with a control character",
    ),
    (Cause::NoMemory, "60 out of memory"),
    (
        Cause::BadArgument(ArgumentFault::Name(MarkerFault::BadName)),
        "62 a faulty argument: not a name",
    ),
    (
        Cause::BadArgument(ArgumentFault::Version(VersionFault::NotAVersion)),
        "62 a faulty argument: not a version",
    ),
    (Cause::WriteFault, "63 a write failed"),
    (Cause::NoRequirements, "64 a table has no requirements"),
    (Cause::NoGroup, "65 no such dependency group"),
    (Cause::EqualGroups, "66 two dependency groups of one name"),
    (Cause::GroupCycle, "67 a dependency group includes itself"),
    (Cause::Line(1, LineFault::NotUtf8), "57 line 1: not UTF-8"),
];

// Asserts what each cause is told as.
fn expect_causes(rt: &(impl Abort + AllocGlobal), rows: &[(Cause, &str)]) {
    for (cause, want) in rows {
        let found = cause_line(rt.alloc(), cause).expect(rt, "room for a line");
        expect_line(rt, found.as_str(), want);
    }
}

#[test]
fn causes(rt: HostRuntime) {
    expect_causes(&rt, &CAUSES);
}

// A fault: the line that tells it to a program, and behind it what people are told.
fn fault_line(rt: &(impl Abort + AllocGlobal), fault: &Fault) -> String {
    let line = fault_text(rt, fault);
    format!(in rt.alloc(); "{line}{fault}").expect(rt, "room for a line")
}

const BAD_VERSION: LineFault = LineFault::Requirement(RequireFault::BadClause(
    ClauseFault::BadVersion,
));

const FAULTS: [(Fault, &str); 5] = [
    (
        Fault {
            place: Place::Input(2),
            cause: Cause::Line(7, BAD_VERSION),
        },
        "refused input 2 line 7 code 57 33 12\ninput 2: line 7: a faulty clause: not a version",
    ),
    (
        Fault {
            place: Place::Input(1),
            cause: Cause::Line(9, LineFault::OtherEnvironment),
        },
        "refused input 1 line 9 code 57 43\ninput 1: line 9: of another environment",
    ),
    (
        Fault {
            place: Place::Environment,
            cause: Cause::NotToml,
        },
        "refused environment code 52\nenvironment: not a TOML document",
    ),
    (
        Fault {
            place: Place::Input(18446744073709551615),
            cause: Cause::TooLarge,
        },
        "refused input 18446744073709551615 code 56\n\
         input 18446744073709551615: more than 16,777,216 bytes",
    ),
    (
        Fault {
            place: Place::Nowhere,
            cause: Cause::NoMemory,
        },
        "refused code 60\nout of memory",
    ),
];

// Faults of versions, and what they are told as where a version is an argument.
const OF_VERSIONS: [(VersionFault, &str); 3] = [
    (
        VersionFault::NotAVersion,
        "refused code 62 1\na faulty argument: not a version",
    ),
    (
        VersionFault::NumberTooLarge,
        "refused code 62 2\na faulty argument: a number of the version is too large",
    ),
    (VersionFault::NoMemory, "refused code 60\nout of memory"),
];

// Asserts what each fault is told as.
fn expect_faults(rt: &(impl Abort + AllocGlobal), rows: &[(Fault, &str)]) {
    for (fault, want) in rows {
        expect_line(rt, fault_line(rt, fault).as_str(), want);
    }
}

#[test]
fn faults(rt: HostRuntime) {
    expect_faults(&rt, &FAULTS);
}

// Faults of the third line of an input.
const ON_LINES: [(LineFault, &str); 2] = [
    (
        LineFault::NotUtf8,
        "refused input 1 line 3 code 57 51\ninput 1: line 3: not UTF-8",
    ),
    (
        LineFault::Requirement(RequireFault::NoMemory),
        "refused code 60\nout of memory",
    ),
];

#[test]
fn faults_on_lines(rt: HostRuntime) {
    for &(fault, want) in &ON_LINES {
        let fault = Fault::of(Place::Input(1), Cause::on_line(3, fault));
        expect_line(&rt, fault_line(&rt, &fault).as_str(), want);
    }
}

#[test]
fn faults_of_versions(rt: HostRuntime) {
    for &(fault, want) in &OF_VERSIONS {
        let fault = Fault::of_argument(ArgumentFault::Version(fault));
        expect_line(&rt, fault_line(&rt, &fault).as_str(), want);
    }
}

#[test]
fn bad_words(rt: HostRuntime) {
    let words = String::from_str(rt.alloc(), "no such word\n").expect(&rt, "room for words");
    let fault = Fault {
        place: Place::Nowhere,
        cause: Cause::BadWords(words),
    };
    assert!(rt; fault.cause.code() == 61);
    let line = fault_text(&rt, &fault);
    expect_line(&rt, line.as_str(), "refused code 61\nno such word\n");
}

// What is told of a fault that is no more than its text.
fn text_line(rt: &(impl Abort + AllocGlobal), fault: &impl Display) -> String {
    format!(in rt.alloc(); "{fault}").expect(rt, "room for a line")
}

#[test]
fn faults_of_devices(rt: HostRuntime) {
    expect_line(
        &rt,
        text_line(&rt, &Failed).as_str(),
        "a read or a write failed",
    );
    for &(fault, want) in &[
        (OpenFault::CannotOpen, "a file can't be opened"),
        (OpenFault::NoMemory, "out of memory"),
    ] {
        expect_line(&rt, text_line(&rt, &fault).as_str(), want);
    }
}
