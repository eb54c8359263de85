//! Requirement lines by PEP 508: what they are read as, their texts, and what is wrong with others.

use crate::tests::lines::{expect_lines, expect_own_lines, expect_same, long_text};
use crate::tests::markers::machine;
use pep_clause::ClauseFault;
use pep_marker::{Environment, MarkerFault};
use pep_require::{RequireFault, Requirement, Target, UrlText};
use std::alloc::{AllocError, Global};
use std::process::Abort;
use tests_kit::{Kind, push_numbered};

// What a line is made by.
enum Line {
    // The text of a requirement.
    Text,
    // The text of that.
    Again,
    // Its name.
    Name,
    // Its name, its extras in brackets, how many clauses there are, and whether there is a marker.
    Bounds,
    // What is written of its URL, the URL's text, and whether there is a marker.
    Url,
}

impl Kind for Line {
    type Fault = RequireFault;

    fn line(&self, alloc: Global, row: &str) -> Result<String, RequireFault> {
        line_of(alloc, self, &Requirement::read(alloc, row)?)
    }
}

fn line_of(alloc: Global, line: &Line, read: &Requirement) -> Result<String, RequireFault> {
    match line {
        Line::Text => read.text(alloc),
        Line::Again => text_of(alloc, read.text(alloc)?.as_str()),
        Line::Name => Ok(String::from_str(alloc, read.name().text())?),
        Line::Bounds => Ok(bounds_line(alloc, read)?),
        Line::Url => Ok(url_line(alloc, read)?),
    }
}

fn text_of(alloc: Global, line: &str) -> Result<String, RequireFault> {
    Requirement::read(alloc, line)?.text(alloc)
}

// Lines and their texts; each text is its own text.
fn expect_texts(rt: &(impl Abort + AllocGlobal), rows: &[(&str, &str)]) {
    expect_lines(rt, &Line::Text, rows);
    expect_lines(rt, &Line::Again, rows);
}

const NAMES_AND_EXTRAS: [(&str, &str); 8] = [
    ("a", "a"),
    (" \tFoo_.Bar \t", "foo-bar"),
    ("a[]", "a"),
    ("a [ \t]", "a"),
    ("a[x]", "a[x]"),
    ("a [ x , y ]", "a[x,y]"),
    ("Foo_Bar[X.y, x-Y] >= 1", "foo-bar[x-y]>=1"),
    ("a[z,b,z,Z.z,a9]", "a[a9,b,z,z-z]"),
];

const CLAUSES: [(&str, &str); 11] = [
    ("a>=1", "a>=1"),
    ("a >= 1 , <2", "a>=1,<2"),
    ("a>=1,", "a>=1"),
    ("a>=1 , ", "a>=1"),
    ("a>=1, ;extra==''", "a>=1 ; extra == \"\""),
    ("a (>=1,)", "a>=1"),
    ("a(>=1,<2)", "a>=1,<2"),
    ("a ( >= 1.0 , != 1.5.* , )", "a>=1.0,!=1.5.*"),
    ("a===FOO", "a===foo"),
    ("a~=1.4.5a4", "a~=1.4.5a4"),
    (
        "a==1.0+Ubuntu-01,<=2,>0,<9!1",
        "a==1.0+ubuntu.1,<=2,>0,<9!1",
    ),
];

const URLS: [(&str, &str); 5] = [
    ("a@https://x.test/1", "a @ https://x.test/1"),
    (
        "A @ HTTPS://x.test/1 ; os_name == \"nt\"",
        "a @ HTTPS://x.test/1 ; os_name == \"nt\"",
    ),
    (
        "a[x] @ \t https://x.test/p?q=1#a;b#c@d \t",
        "a[x] @ https://x.test/p?q=1#a;b#c@d",
    ),
    (
        "a @ git+https://x.test/t/a.git@v1#egg=a[b,c]",
        "a @ git+https://x.test/t/a.git@v1#egg=a[b,c]",
    ),
    (
        "a @ file:///tmp/x;y\t;extra=='z'",
        "a @ file:///tmp/x;y ; extra == \"z\"",
    ),
];

const MARKERS: [(&str, &str); 4] = [
    (
        "Requests [security,socks] (>=2.8.1, ==2.8.*) ; python_version < \"2.7\"",
        "requests[security,socks]>=2.8.1,==2.8.* ; python_version < \"2.7\"",
    ),
    (
        "a; os_name=='x' or (os_name=='y' and extra=='z')",
        "a ; os_name == \"x\" or os_name == \"y\" and extra == \"z\"",
    ),
    (
        "a>=1;(os_name=='x' or os_name=='y')and'\"'in os_name",
        "a>=1 ; (os_name == \"x\" or os_name == \"y\") and '\"' in os_name",
    ),
    ("a[x] ; os_name == '' ", "a[x] ; os_name == \"\""),
];

#[test]
fn texts(rt: HostRuntime) {
    expect_texts(&rt, &NAMES_AND_EXTRAS);
    expect_texts(&rt, &CLAUSES);
    expect_texts(&rt, &URLS);
    expect_texts(&rt, &MARKERS);
}

const NO_OPERATOR: RequireFault = RequireFault::BadClause(ClauseFault::NoOperator);

const BAD_VERSION: RequireFault = RequireFault::BadClause(ClauseFault::BadVersion);

const BAD_MARKER: RequireFault = RequireFault::BadMarker(MarkerFault::BadMarker);

const TOO_DEEP: RequireFault = RequireFault::BadMarker(MarkerFault::TooDeep);

const FAULTY_BEGINNINGS: [(&str, RequireFault); 14] = [
    ("", RequireFault::BadName),
    (" \t", RequireFault::BadName),
    ("-e .", RequireFault::OptionLine),
    ("  --hash=x", RequireFault::OptionLine),
    (">=1", RequireFault::BadName),
    ("a->=1", RequireFault::BadName),
    ("_a", RequireFault::BadName),
    ("\u{e9}", RequireFault::BadName),
    ("a[", RequireFault::BadExtras),
    ("a[x", RequireFault::BadExtras),
    ("a[x,]", RequireFault::BadExtras),
    ("a[,]", RequireFault::BadExtras),
    ("a[x y]", RequireFault::BadExtras),
    ("a[x,-]>=", RequireFault::BadExtras),
];

const FAULTY_TARGETS: [(&str, RequireFault); 19] = [
    ("a>=", BAD_VERSION),
    ("a=1", NO_OPERATOR),
    ("a>=1,b", NO_OPERATOR),
    ("a>=1,,", NO_OPERATOR),
    ("a>=1,)", NO_OPERATOR),
    ("a()", NO_OPERATOR),
    ("a (>=1,,)", NO_OPERATOR),
    ("a (>=1, ;", NO_OPERATOR),
    (
        "a>=1.*",
        RequireFault::BadClause(ClauseFault::StarNotAllowed),
    ),
    (
        "a>=1+x",
        RequireFault::BadClause(ClauseFault::LocalNotAllowed),
    ),
    ("a~=1", RequireFault::BadClause(ClauseFault::OneNumber)),
    (
        "a==18446744073709551616",
        RequireFault::BadClause(ClauseFault::NumberTooLarge),
    ),
    ("a (>=1", RequireFault::Trailing),
    ("a (>=1,", RequireFault::Trailing),
    ("a (>=1 <2)", RequireFault::Trailing),
    ("a @ x/1", RequireFault::BadUrl),
    ("a @", RequireFault::BadUrl),
    ("a @ ; os_name == \"x\"", RequireFault::BadUrl),
    ("a @ https://x.test/\u{1}", RequireFault::BadUrl),
];

// Each fault of the reader of URLs that a text can have, but its overflow.
const FAULTY_URLS: [(&str, RequireFault); 7] = [
    ("a @ https://", RequireFault::BadUrl),
    ("a @ https://a\u{ffff}b/", RequireFault::BadUrl),
    ("a @ https://x.test:65536/", RequireFault::BadUrl),
    ("a @ https://1.2.3.256/", RequireFault::BadUrl),
    ("a @ https://[1::2::3]/", RequireFault::BadUrl),
    ("a @ https://x<y/", RequireFault::BadUrl),
    ("a @ ../x", RequireFault::BadUrl),
];

const FAULTY_ENDINGS: [(&str, RequireFault); 8] = [
    ("a b", RequireFault::Trailing),
    ("a >=1 <2", RequireFault::Trailing),
    ("a)", RequireFault::Trailing),
    ("a[x][y]", RequireFault::Trailing),
    (
        "a @ https://x.test/1; os_name == \"nt\"",
        RequireFault::Trailing,
    ),
    ("a;", BAD_MARKER),
    ("a ; os_name", BAD_MARKER),
    ("a>=1;os_name=='x';", BAD_MARKER),
];

fn fault_of(alloc: Global, line: &str) -> Option<RequireFault> {
    Requirement::read(alloc, line).err()
}

fn expect_faults(rt: &(impl Abort + AllocGlobal), rows: &[(&str, RequireFault)]) {
    for &(line, wanted) in rows {
        expect_same(rt, line, fault_of(rt.alloc(), line), Some(wanted));
    }
}

#[test]
fn refused_lines(rt: HostRuntime) {
    expect_faults(&rt, &FAULTY_BEGINNINGS);
    expect_faults(&rt, &FAULTY_TARGETS);
    expect_faults(&rt, &FAULTY_URLS);
    expect_faults(&rt, &FAULTY_ENDINGS);
}

// ---- long lines

// What stands in front, what is repeated and how often, and what stands behind.
const OWN_TEXTS: [(&str, &str, usize, &str); 4] = [
    ("a ; extra == \"\"", " or extra == \"\"", 1023, ""),
    ("a>=1", ",<9", 2000, ""),
    ("a @ https://x.test", "/path", 13_000, ""),
    ("", "a", 65_536, ""),
];

#[test]
fn long_lines(rt: HostRuntime) {
    for &(front, part, count, behind) in &OWN_TEXTS {
        let line = long_text(&rt, front, part, count, behind);
        expect_own_lines(&rt, &Line::Text, &[line.as_str()]);
    }
}

#[test]
fn a_name_as_long_as_a_line(rt: HostRuntime) {
    let line = long_text(&rt, "", "a", 65_536, "");
    expect_own_lines(&rt, &Line::Name, &[line.as_str()]);
}

// A line with extras in their order.
fn line_of_extras(alloc: Global) -> Result<String, AllocError> {
    let mut line = String::from_str(alloc, "a[b")?;
    push_numbered(alloc, &mut line, ",b", 1000..2000, "")?;
    line.push(']')?;
    Ok(line)
}

#[test]
fn many_extras(rt: HostRuntime) {
    let line = line_of_extras(rt.alloc()).expect(&rt, "room for a line");
    expect_own_lines(&rt, &Line::Text, &[line.as_str()]);
}

// The same with the fault of the line.
const TOO_LONG: [(&str, &str, usize, &str, RequireFault); 3] = [
    ("a;", "(", 65, "", TOO_DEEP),
    ("a ; extra == \"\"", " or extra == \"\"", 1024, "", TOO_DEEP),
    ("", "a", 65_536, " ", RequireFault::LineTooLong),
];

#[test]
fn lines_that_are_too_long(rt: HostRuntime) {
    for &(front, part, count, behind, wanted) in &TOO_LONG {
        let line = long_text(&rt, front, part, count, behind);
        expect_same(
            &rt,
            front,
            fault_of(rt.alloc(), line.as_str()),
            Some(wanted),
        );
    }
}

// ---- parts

// How many clauses there are, where there is no URL.
fn clause_count(target: &Target) -> Option<usize> {
    match target {
        Target::Bounds(clauses) => Some(clauses.len()),
        Target::Direct(_) => None,
    }
}

// Appends an extra in brackets.
fn push_extra(line: &mut String, extra: &str) -> Result<(), AllocError> {
    line.push_str("[")?;
    line.push_str(extra)?;
    line.push_str("]")
}

// The name, and the extras in brackets.
fn names_line(alloc: Global, read: &Requirement) -> Result<String, AllocError> {
    let mut line = String::from_str(alloc, read.name().text())?;
    for extra in read.extras() {
        push_extra(&mut line, extra.text())?;
    }
    Ok(line)
}

fn bounds_line(alloc: Global, read: &Requirement) -> Result<String, AllocError> {
    let (count, is_marked) = (clause_count(read.target()), read.marker().is_some());
    let line = names_line(alloc, read)?;
    format!(in alloc; "{line} {count:?} {is_marked}")
}

fn url_line(alloc: Global, read: &Requirement) -> Result<String, AllocError> {
    let is_marked = read.marker().is_some();
    match read.target() {
        Target::Direct(url) => format!(in alloc; "{} {} {is_marked}", url.written(), url.text()),
        Target::Bounds(_) => String::from_str(alloc, "no URL"),
    }
}

// The text of a URL alone.
struct UrlAlone;

impl Kind for UrlAlone {
    type Fault = RequireFault;

    fn line(&self, alloc: Global, row: &str) -> Result<String, RequireFault> {
        Ok(String::from_str(alloc, UrlText::read(alloc, row)?.text())?)
    }
}

// The name that a line begins with, whatever stands behind it.
struct NameOfLine;

impl Kind for NameOfLine {
    type Fault = RequireFault;

    fn line(&self, alloc: Global, row: &str) -> Result<String, RequireFault> {
        let name = Requirement::name_of_line(alloc, row)?;
        Ok(String::from_str(alloc, name.text())?)
    }
}

#[test]
fn parts(rt: HostRuntime) {
    expect_lines(
        &rt,
        &Line::Bounds,
        &[(
            "Foo[x,B_c]>=1,<2; os_name == 'nt'",
            "foo[b-c][x] Some(2) true",
        )],
    );
    expect_lines(
        &rt,
        &Line::Url,
        &[(
            "a @ HTTPS://X.test/a/../b",
            "HTTPS://X.test/a/../b https://x.test/b false",
        )],
    );
    assert!(rt; UrlText::has_common_form("https://x.test/b") && !UrlText::has_common_form("b"));
    expect_own_lines(&rt, &UrlAlone, &["https://x.test/b"]);
    expect_lines(&rt, &NameOfLine, &[(" Foo_.Bar [ ?", "foo-bar")]);
}

// Lines, and whether they apply on the machine.
const APPLYING: [(&str, Result<bool, MarkerFault>); 4] = [
    ("a", Ok(true)),
    ("a; python_version < '3.10'", Ok(true)),
    ("a; python_version >= '3.10'", Ok(false)),
    ("a; 'dog' ~= 'fred'", Err(MarkerFault::Undefined)),
];

fn applying(
    rt: &(impl Abort + AllocGlobal),
    line: &str,
    environment: &Environment,
) -> Result<bool, MarkerFault> {
    let requirement = Requirement::read(rt.alloc(), line).expect(rt, "a requirement");
    requirement.applies(rt.alloc(), environment)
}

#[test]
fn applies(rt: HostRuntime) {
    let environment = machine(&rt);
    for &(line, wanted) in &APPLYING {
        let found = applying(&rt, line, &environment);
        expect_same(&rt, line, found, wanted);
    }
}
