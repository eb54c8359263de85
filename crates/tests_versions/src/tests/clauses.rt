//! Clauses: what is read and what is refused, how they are written, and which versions they admit.

use crate::tests::lines::{expect, expect_lines, expect_same};
use crate::tests::versions::known_version;
use pep_clause::{Clause, ClauseFault, Op, Operand};
use pep_version::{Version, VersionFault};
use std::alloc::Global;
use std::process::Abort;
use tests_kit::Kind;
use texts::{clause_run, is_clause_byte};

// Clauses, their operators, and what is written behind these.
const READ: [(&str, &str); 9] = [
    ("== 1.0", "== 1.0"),
    (" ~=\t2.2.POST3\n", "~= 2.2.post3"),
    ("==1!2.0.*", "== 1!2.0.*"),
    ("!= v1.1-1+ABC_2", "!= 1.1.post1+abc.2"),
    ("<=1.0", "<= 1.0"),
    (">=01.0c", ">= 1.0rc0"),
    ("<3.1.dev", "< 3.1.dev0"),
    (">1.7", "> 1.7"),
    ("===FOO", "=== foo"),
];

// Clauses, and the texts that they demand.
const EXACT: [(&str, &str); 2] = [("===FOO", "foo"), ("==1.0", "no text")];

// Clauses, and what stands behind their operators.
const OPERANDS: [(&str, &str); 3] = [
    ("== 1.0C+X", "1.0rc0+x"),
    ("!=1!02.*", "1!2.*"),
    ("===FOO", "foo"),
];

const FAULTY: [(&str, ClauseFault); 14] = [
    ("1.0", ClauseFault::NoOperator),
    ("=1.0", ClauseFault::NoOperator),
    ("", ClauseFault::NoOperator),
    ("==", ClauseFault::BadVersion),
    ("==1.*.2", ClauseFault::BadVersion),
    ("==1 .*", ClauseFault::BadVersion),
    ("===", ClauseFault::BadVersion),
    ("=== a b", ClauseFault::BadVersion),
    (">=1.*", ClauseFault::StarNotAllowed),
    ("==1.0a1.*", ClauseFault::StarNotAllowed),
    (">=1.0+x", ClauseFault::LocalNotAllowed),
    ("~=1+x", ClauseFault::LocalNotAllowed),
    ("~=1", ClauseFault::OneNumber),
    ("==18446744073709551616", ClauseFault::NumberTooLarge),
];

fn fault_of(alloc: Global, text: &str) -> Option<ClauseFault> {
    Clause::read(alloc, text).err()
}

#[test]
fn refuses_clauses(rt: HostRuntime) {
    for &(text, fault) in &FAULTY {
        expect_same(&rt, text, fault_of(rt.alloc(), text), Some(fault));
    }
}

// Texts, the clause in front of each, and what stands behind it.
const IN_FRONT: [(&str, &str, &str); 4] = [
    (" >= 1 , <2", ">=1", ", <2"),
    ("==1.* ;extra", "==1.*", ";extra"),
    ("===Foo", "===foo", ""),
    ("~=1.0.post1 x", "~=1.0.post1", "x"),
];

fn is_in_front(rt: &(impl Abort + AllocGlobal), text: &str, clause: &str, rest: &str) -> bool {
    let (found, behind) = Clause::at_front(rt.alloc(), text).expect(rt, "a clause in front");
    let found = found.text(rt.alloc()).expect(rt, "the text of a clause");
    found.as_str() == clause && behind == rest
}

#[test]
fn clauses_in_front(rt: HostRuntime) {
    for &(text, clause, rest) in &IN_FRONT {
        expect(&rt, text, is_in_front(&rt, text, clause, rest));
    }
}

// Texts, and how many bytes of clauses stand in front.
const RUNS: [(&str, usize); 5] = [
    ("1.0a-1_x+Y!*", 12),
    ("1.0 , 2", 3),
    ("", 0),
    ("=1", 0),
    ("2.2;", 3),
];

#[test]
fn bytes_of_clauses(rt: HostRuntime) {
    for &(text, run) in &RUNS {
        expect_same(&rt, text, clause_run(text.as_bytes()), run);
    }
    assert!(rt; is_clause_byte(b'*') && !is_clause_byte(b'~'));
}

// Clauses, and what their copies have: the operator, and what is written behind it.
const COPIED: [(&str, &str); 10] = [
    ("~=2.2", "~= 2.2"),
    ("==1", "== 1"),
    ("==1.*", "== 1.*"),
    ("!=1", "!= 1"),
    ("!=1.*", "!= 1.*"),
    ("<=1", "<= 1"),
    (">=3.8", ">= 3.8"),
    ("<4", "< 4"),
    (">1", "> 1"),
    ("===x", "=== x"),
];

// Versions, and whether they are an epoch and a release alone (PEP 440, "Final releases").
const FINAL: [(&str, bool); 6] = [
    ("1.0", true),
    ("1!2.0", true),
    ("1.0a1", false),
    ("1.0.post1", false),
    ("1.0.dev1", false),
    ("1.0+x", false),
];

fn is_final_text(alloc: Global, text: &str) -> Result<bool, VersionFault> {
    Ok(Version::read(alloc, text)?.is_final())
}

#[test]
fn final_versions(rt: HostRuntime) -> Result<(), VersionFault> {
    for &(text, wanted) in &FINAL {
        expect(&rt, text, is_final_text(rt.alloc(), text)? == wanted);
    }
    Ok(())
}

// Clauses, and versions that they admit (PEP 440, "Version specifiers").
const ADMITTED: [(&str, &str); 10] = [
    ("~=2.2.post3", "2.3"),
    ("==1.1.*", "1.1a1"),
    ("==1.1.*", "1.1.0.2+x"),
    ("!=1.1.*", "1.2"),
    ("==1.0", "1.0+x"),
    ("<=1.0", "1.0+x"),
    ("<3.1rc1", "3.1.dev0"),
    (">1.7.post2", "1.7.0.post3"),
    (">1.7.post2", "1.7.1"),
    ("===1.0", "1.0"),
];

// Clauses, and versions that they don't admit.
const NOT_ADMITTED: [(&str, &str); 11] = [
    ("~=2.2.post3", "2.2"),
    ("~=2.2.0", "2.3"),
    ("!=1.1.*", "1.1a1"),
    ("!=1.0", "1.0+x"),
    ("==1.0+x", "1.0"),
    (">=1.0", "1.0a1"),
    ("<3.1", "3.1.dev0"),
    (">1.7", "1.7.0.post1"),
    (">1.7.post2", "1.7.0"),
    ("===1.0", "1.0.0"),
    ("===1.0", "1.0+x"),
];

// Operators that make no clause of a text, though `==` does; `===`, of which nothing is told; and a
// clause that isn't one of `==`.
const NO_CLAUSES: [(&str, Op); 5] = [
    ("==1", Op::Compatible),
    ("==1.*", Op::AtLeast),
    ("==1+x", Op::Less),
    ("==1", Op::Exact),
    ("!=1", Op::Equal),
];

// What a line of a clause is made by.
enum Line {
    // Its operator, and what is written behind it, of which the same clause is made.
    Read,
    // The same of its copy.
    Copied,
    // The text that it demands.
    Exact,
    // What stands behind its operator.
    Operand,
}

impl Kind for Line {
    type Fault = ClauseFault;

    fn line(&self, alloc: Global, row: &str) -> Result<String, ClauseFault> {
        line_of(alloc, self, &Clause::read(alloc, row)?)
    }
}

fn line_of(alloc: Global, line: &Line, clause: &Clause) -> Result<String, ClauseFault> {
    match line {
        Line::Read => read_line(alloc, clause),
        Line::Copied => read_line(alloc, &clause.copied(alloc)?),
        Line::Exact => Ok(String::from_str(alloc, clause.exact_text().unwrap_or("no text"))?),
        Line::Operand => operand_text(alloc, clause),
    }
}

fn made_text(alloc: Global, operator: Op, behind: &str) -> Result<String, ClauseFault> {
    Clause::of(alloc, operator, behind)?.text(alloc)
}

// What is written behind the operator, or a text that makes no clause where another one stands there.
fn behind<'a>(text: &'a str, operator: Op) -> &'a str {
    text.strip_prefix(operator.text())
        .unwrap_or("another operator")
}

// Whether the clause of an operator and what is written behind it has this text.
fn is_made(alloc: Global, operator: Op, behind: &str, text: &str) -> Result<bool, ClauseFault> {
    Ok(made_text(alloc, operator, behind)?.as_str() == text)
}

// The operator and what is written behind it in this text, if the same clause is made of them.
fn line_of_text(alloc: Global, operator: Op, text: &str) -> Result<String, ClauseFault> {
    let behind = behind(text, operator);
    if is_made(alloc, operator, behind, text)? {
        Ok(format!(in alloc; "{} {behind}", operator.text())?)
    } else {
        Ok(String::from_str(alloc, "another clause")?)
    }
}

fn read_line(alloc: Global, clause: &Clause) -> Result<String, ClauseFault> {
    line_of_text(alloc, clause.op(), clause.text(alloc)?.as_str())
}

// What stands behind the operator, as it is written.
fn operand_text(alloc: Global, clause: &Clause) -> Result<String, ClauseFault> {
    match clause.operand() {
        Operand::Version(version) => Ok(version.text(alloc)?),
        Operand::Prefix(release) => {
            let mut text = release.text(alloc)?;
            text.push_str(".*")?;
            Ok(text)
        }
        Operand::Text(text) => Ok(String::from_str(alloc, text.as_str())?),
    }
}

#[test]
fn clauses(rt: HostRuntime) {
    expect_lines(&rt, &Line::Read, &READ);
    expect_lines(&rt, &Line::Exact, &EXACT);
    expect_lines(&rt, &Line::Operand, &OPERANDS);
    expect_lines(&rt, &Line::Copied, &COPIED);
}

// What a clause's operator makes of its text, asked of the clause of `==`.
fn answer_by(
    rt: &(impl Abort + AllocGlobal),
    clause: &Clause,
    candidate: &Version,
) -> Option<bool> {
    let text = clause.text(rt.alloc()).expect(rt, "the text of a clause");
    let behind = behind(text.as_str(), clause.op());
    let matching = Clause::of(rt.alloc(), Op::Equal, behind).expect(rt, "a clause of `==`");
    matching.admits_by(clause.op(), candidate)
}

// Of `===` nothing is told by another clause.
fn is_admitted(
    rt: &(impl Abort + AllocGlobal),
    clause: &Clause,
    version: &str,
    is_wanted: bool,
) -> bool {
    let candidate = known_version(rt, version);
    let found = clause
        .admits(rt.alloc(), &candidate)
        .expect(rt, "an answer of a clause");
    let answer = answer_by(rt, clause, &candidate);
    let is_told = clause.op() != Op::Exact;
    found == is_wanted && answer == is_told.then_some(is_wanted)
}

fn expect_admitted(rt: &(impl Abort + AllocGlobal), rows: &[(&str, &str)], is_wanted: bool) {
    for &(text, version) in rows {
        let clause = Clause::read(rt.alloc(), text).expect(rt, "a clause");
        let is_right = is_admitted(rt, &clause, version, is_wanted);
        expect(rt, (text, version), is_right);
    }
}

#[test]
fn admitted_versions(rt: HostRuntime) {
    expect_admitted(&rt, &ADMITTED, true);
    expect_admitted(&rt, &NOT_ADMITTED, false);
}

fn is_no_clause(alloc: Global, text: &str, operator: Op) -> Result<bool, ClauseFault> {
    let (clause, candidate) = (Clause::read(alloc, text)?, Version::read(alloc, "1")?);
    Ok(clause.admits_by(operator, &candidate).is_none())
}

// All operators, by their texts.
const OPERATORS: [(&str, Op); 8] = [
    ("~=", Op::Compatible),
    ("==", Op::Equal),
    ("!=", Op::NotEqual),
    ("<=", Op::AtMost),
    (">=", Op::AtLeast),
    ("<", Op::Less),
    (">", Op::More),
    ("===", Op::Exact),
];

#[test]
fn texts_of_operators(rt: HostRuntime) {
    for &(text, operator) in &OPERATORS {
        expect_same(&rt, text, operator.text(), text);
    }
}

#[test]
fn operators_without_a_clause(rt: HostRuntime) -> Result<(), ClauseFault> {
    for &(text, operator) in &NO_CLAUSES {
        expect(&rt, text, is_no_clause(rt.alloc(), text, operator)?);
    }
    Ok(())
}
