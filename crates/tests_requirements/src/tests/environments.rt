//! Environments of markers: which pairs make one, what is wrong with others, and the normal form of
//! texts beside `extra`.

use crate::tests::lines::{expect, expect_lines, expect_same, long_text};
use crate::tests::markers::machine;
use pep_marker::{Environment, HeaderIn, MarkerFault, Variable, laws, norm_of};
use std::alloc::{AllocError, Global};
use std::process::Abort;
use tests_kit::{Kind, MACHINE, MACHINE_HEADER, STANDARD_HEADER};

const VARIABLES: [Variable; 11] = [
    Variable::OsName,
    Variable::SysPlatform,
    Variable::PlatformMachine,
    Variable::PlatformPythonImplementation,
    Variable::PlatformRelease,
    Variable::PlatformSystem,
    Variable::PlatformVersion,
    Variable::PythonVersion,
    Variable::PythonFullVersion,
    Variable::ImplementationName,
    Variable::ImplementationVersion,
];

// The pairs of the machine but those at two places, from the last to the first.
fn pairs_without(
    rt: &(impl Abort + AllocGlobal),
    first: usize,
    second: usize,
) -> Vec<(&'static str, &'static str)> {
    let mut pairs = Vec::new(rt.alloc());
    for (i, pair) in MACHINE.iter().enumerate().rev() {
        if i != first && i != second {
            pairs.push(*pair).expect(rt, "room for a pair");
        }
    }
    pairs
}

// Names that no variable has.
const NO_VARIABLES: [&str; 5] = ["", "os.name", "OS_NAME", "os_name ", "python_versions"];

fn expect_machine(rt: &impl Abort, environment: &Environment, extra: &str) {
    for &(name, text) in &MACHINE {
        expect_same(rt, name, environment.value(name), Some(text));
    }
    expect_same(rt, "extra", environment.value("extra"), Some(extra));
}

#[test]
fn values(rt: HostRuntime) -> Result<(), MarkerFault> {
    let environment = Environment::of(rt.alloc(), &MACHINE)?;
    expect_machine(&rt, &environment, "");
    for name in &NO_VARIABLES {
        expect(&rt, name, environment.value(name).is_none());
    }
    Ok(())
}

// The environment of the machine from the last variable to the first, with an extra.
fn machine_from_behind(rt: &(impl Abort + AllocGlobal), extra: &'static str) -> Environment {
    let mut pairs = pairs_without(rt, 11, 11);
    pairs.push(("extra", extra)).expect(rt, "room for a pair");
    Environment::of(rt.alloc(), &pairs).expect(rt, "an environment")
}

#[test]
fn extra_and_order(rt: HostRuntime) {
    let environment = machine_from_behind(&rt, "Dev_Tools");
    expect_machine(&rt, &environment, "Dev_Tools");
}

// Extras, and the last line of a header with each.
const LAST_LINES: [(&str, &str); 4] = [
    ("", "env extra=\n"),
    ("dev-tools", "env extra=dev-tools\n"),
    ("Dev_Tools", "env extra=dev-tools\n"),
    ("a=b \u{e9}", "env extra=a=b \u{e9}\n"),
];

// Whether the header of the machine with this extra has this last line, and else that of the machine.
fn has_header(rt: &(impl Abort + AllocGlobal), extra: &'static str, last: &str) -> bool {
    let environment = machine_from_behind(rt, extra);
    let header = environment.header(rt.alloc()).expect(rt, "a header");
    header.as_str().strip_suffix(last) == MACHINE_HEADER.strip_suffix("env extra=\n")
}

#[test]
fn headers(rt: HostRuntime) {
    for &(extra, last) in &LAST_LINES {
        expect(&rt, extra, has_header(&rt, extra, last));
    }
    laws::one_header();
}

// Texts, and what header stands in front of each, seen from the machine.
const IN_FRONT: [(&str, &str); 4] = [
    (MACHINE_HEADER, "its own"),
    (STANDARD_HEADER, "that of another environment"),
    ("flask open\n", "none"),
    ("pep-table 2\nflask open\n", "that of no environment"),
];

fn header_in(
    rt: &(impl Abort + AllocGlobal),
    environment: &Environment,
    text: &str,
) -> &'static str {
    match environment
        .header_in(rt.alloc(), text)
        .expect(rt, "room for an environment")
    {
        HeaderIn::Missing => "none",
        HeaderIn::Own(_) => "its own",
        HeaderIn::Other(_, _) => "that of another environment",
        HeaderIn::Bad(_) => "that of no environment",
    }
}

#[test]
fn headers_in_front(rt: HostRuntime) {
    let machine = machine(&rt);
    for &(text, wanted) in &IN_FRONT {
        expect_same(&rt, text, header_in(&rt, &machine, text), wanted);
    }
}

const FAULTY_PAIRS: [(&[(&str, &str)], MarkerFault); 10] = [
    (&[], MarkerFault::MissingVariable(Variable::OsName)),
    (&[("os.name", "posix")], MarkerFault::UnknownVariable),
    (&[("OS_NAME", "posix")], MarkerFault::UnknownVariable),
    (&[("nothing", "\t")], MarkerFault::UnknownVariable),
    (
        &[("os_name", "a"), ("os_name", "a")],
        MarkerFault::RepeatedVariable,
    ),
    (
        &[("extra", ""), ("extra", "")],
        MarkerFault::RepeatedVariable,
    ),
    (
        &[("os_name", "a"), ("os_name", "\t")],
        MarkerFault::RepeatedVariable,
    ),
    (&[("os_name", "\t")], MarkerFault::BadValue),
    (&[("os_name", "\n"), ("nothing", "")], MarkerFault::BadValue),
    (
        &[("os_name", "a"), ("nothing", "")],
        MarkerFault::UnknownVariable,
    ),
];

fn fault_of(alloc: Global, pairs: &[(&str, &str)]) -> Option<MarkerFault> {
    Environment::of(alloc, pairs).err()
}

fn expect_fault(rt: &(impl Abort + AllocGlobal), pairs: &[(&str, &str)], fault: MarkerFault) {
    expect_same(rt, pairs, fault_of(rt.alloc(), pairs), Some(fault));
}

#[test]
fn faulty_pairs(rt: HostRuntime) {
    for &(pairs, fault) in &FAULTY_PAIRS {
        expect_fault(&rt, pairs, fault);
    }
}

// What is wrong with the pairs of the machine but those at two places.
fn fault_without(
    rt: &(impl Abort + AllocGlobal),
    first: usize,
    second: usize,
) -> Option<MarkerFault> {
    let pairs = pairs_without(rt, first, second);
    fault_of(rt.alloc(), pairs.as_slice())
}

// The first of the missing variables is told.
fn expect_missing(rt: &(impl Abort + AllocGlobal), place: usize, variable: Variable) {
    for other in place..11 {
        let found = fault_without(rt, place, other);
        expect_same(
            rt,
            other,
            found,
            Some(MarkerFault::MissingVariable(variable)),
        );
    }
}

#[test]
fn missing_variables(rt: HostRuntime) {
    for (place, variable) in VARIABLES.iter().enumerate() {
        expect_missing(&rt, place, *variable);
    }
}

// What is wrong with a value of `a` and this character, alone.
fn fault_of_character(alloc: Global, code: u8) -> Result<Option<MarkerFault>, AllocError> {
    let mut text = String::from_str(alloc, "a")?;
    text.push(char::from(code))?;
    Ok(fault_of(alloc, &[("os_name", text.as_str())]))
}

fn wanted_fault(code: u8) -> MarkerFault {
    if code < 32 || code == 127 {
        MarkerFault::BadValue
    } else {
        MarkerFault::MissingVariable(Variable::SysPlatform)
    }
}

#[test]
fn characters_of_values(rt: HostRuntime) -> Result<(), MarkerFault> {
    for code in 0..=160u8 {
        let fault = fault_of_character(rt.alloc(), code)?;
        expect_same(&rt, code, fault, Some(wanted_fault(code)));
    }
    Ok(())
}

const NORMAL_TEXTS: [(&str, &str); 8] = [
    ("", ""),
    ("A__b.C", "a-b-c"),
    ("Dev_Tools", "dev-tools"),
    ("_.-", "-"),
    ("-a.", "-a-"),
    ("a b\t", "a b\t"),
    ("\u{e9}_X", "\u{e9}-x"),
    ("\u{c9}..\u{20ac}-\u{1f40d}Z", "\u{c9}-\u{20ac}-\u{1f40d}z"),
];

struct Norm;

impl Kind for Norm {
    type Fault = MarkerFault;

    fn line(&self, alloc: Global, row: &str) -> Result<String, MarkerFault> {
        norm_of(alloc, row)
    }
}

#[test]
fn normal_texts(rt: HostRuntime) {
    expect_lines(&rt, &Norm, &NORMAL_TEXTS);
    let text = long_text(&rt, "", "\u{c9}A_.", 20_000, "");
    let want = long_text(&rt, "", "\u{c9}a-", 20_000, "");
    expect_lines(&rt, &Norm, &[(text.as_str(), want.as_str())]);
}
