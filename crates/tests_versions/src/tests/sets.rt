//! Sets of clauses: their cuts, with carries at the largest number, and which versions they hold.

use crate::tests::lines::{expect, expect_line, expect_lines, expect_row};
use crate::tests::versions::{key, known_version};
use pep_clause::{Clause, ClauseFault, Range, Turns, VersionSet};
use pep_version::{Key, Version};
use std::alloc::Global;
use std::process::Abort;
use tests_kit::{Kind, ORDERED};

const OPERATORS: [&str; 8] = ["~=", "==", "!=", "<=", ">=", "<", ">", "==="];

// What stands behind the operators, also with `.*`.
const OPERANDS: [&str; 27] = [
    "0",
    "1.0",
    "1.7",
    "1.0a5",
    "1.0rc1",
    "1.0.dev1",
    "1.0a1.dev1",
    "1.0.post1",
    "1.0.post1.dev3",
    "1.0a1.post0",
    "1.0+x",
    "1.0+x.5",
    "3.1",
    "2.2.post3",
    "2.2.0",
    "1!0.dev0",
    "18446744073709551615",
    "1.18446744073709551615",
    "18446744073709551615!18446744073709551615",
    "1.0a18446744073709551615",
    "1.0b18446744073709551615",
    "1.0rc18446744073709551615",
    "1.0.post18446744073709551615",
    "1.0a1.post18446744073709551615",
    "1.0.dev18446744073709551615",
    "1.0a1.dev18446744073709551615",
    "1.0.post1.dev18446744073709551615",
];

// Behind each operand, where that is a spelling: the operand itself, and versions near it.
const ENDINGS: [&str; 6] = ["", ".dev0", ".post0", ".post0.dev0", "+a", ".0.1"];

// Where ranges begin or end beside the operands.
const NEAR: [&str; 15] = [
    "0.dev1",
    "1.0a0.dev0",
    "1.0a0",
    "1.0a1.dev2",
    "1.0a1.post1.dev0",
    "1.0a6.dev0",
    "1.0b0.dev0",
    "1.0rc0.dev0",
    "1.0.post1.dev4",
    "1.0.post2.dev0",
    "1.8.dev0",
    "2.dev0",
    "2.2.post4.dev0",
    "3.dev0",
    "1!0.dev1",
];

/// The set of the clause that a text is read as.
pub(crate) fn set(alloc: Global, text: &str) -> Result<VersionSet, ClauseFault> {
    VersionSet::of(alloc, &Clause::read(alloc, text)?)
}

/// Each range of a set in brackets, behind `none` where the set says that it is empty.
pub(crate) fn shown(alloc: Global, set: &VersionSet) -> Result<String, ClauseFault> {
    let mut line = String::from_str(alloc, if set.is_empty() { "none" } else { "" })?;
    for range in set.ranges() {
        push_range(alloc, &mut line, range)?;
    }
    Ok(line)
}

fn push_range(alloc: Global, line: &mut String, range: &Range) -> Result<(), ClauseFault> {
    line.push_str("[")?;
    range.low().push_text(line)?;
    line.push_str(" to ")?;
    range.high().push_text(line)?;
    line.push_str("]")?;
    Ok(())
}

// Versions, and which of the sets of `>=1.0` and `<1.0` holds them.
const HELD: [(&str, &str); 11] = [
    ("1.0", "the first"),
    ("1.1", "the first"),
    ("1.0.post1", "the first"),
    ("1.0.post1.dev0", "the first"),
    ("1.1b1", "the first"),
    ("1.0b1", "none"),
    ("1.0.dev0", "none"),
    ("0.9", "the second"),
    ("0.9.post3", "the second"),
    ("0.9b1", "the second"),
    ("0.0.dev0", "the second"),
];

fn holds_key(alloc: Global, clause: &str, key: &Key) -> Result<bool, ClauseFault> {
    Ok(set(alloc, clause)?.contains(key))
}

fn holds(alloc: Global, clause: &str, version: &str) -> Result<bool, ClauseFault> {
    holds_key(alloc, clause, &key(alloc, version)?)
}

// Which of the sets of two clauses holds the version of a row.
struct HoldingSet;

impl Kind for HoldingSet {
    type Fault = ClauseFault;

    fn line(&self, alloc: Global, row: &str) -> Result<String, ClauseFault> {
        let told = match (holds(alloc, ">=1.0", row)?, holds(alloc, "<1.0", row)?) {
            (true, true) => "both",
            (true, false) => "the first",
            (false, true) => "the second",
            (false, false) => "none",
        };
        Ok(String::from_str(alloc, told)?)
    }
}

#[test]
fn holds_what_a_clause_admits(rt: HostRuntime) {
    expect_lines(&rt, &HoldingSet, &HELD);
}

// Clauses, all versions and none, and their ranges.
const RANGES: [(&str, &str); 15] = [
    ("all", "[before 0.dev0 to end]"),
    ("none", "none"),
    (">=1.0", "[before 1 to end]"),
    ("<0.10", "[before 0.dev0 to before 0.10.dev0]"),
    ("~=1.4.5a4", "[before 1.4.5a4 to before 1.5.dev0]"),
    (
        "==1.18446744073709551615.*",
        "[before 1.18446744073709551615.dev0 to before 2.dev0]",
    ),
    (
        "==18446744073709551615!18446744073709551615.*",
        "[before 18446744073709551615!18446744073709551615.dev0 to end]",
    ),
    ("==1.0+x", "[before 1+x to after 1+x]"),
    ("===1.0", "[before 0.dev0 to end]"),
    ("!=0.dev0", "[before 0.dev1 to end]"),
    (
        "<=1.0.post18446744073709551615",
        "[before 0.dev0 to past 1]",
    ),
    ("<1.0.post1", "[before 0.dev0 to before 1.post1.dev0]"),
    (">1.7", "[past 1.7 to end]"),
    (">1.0rc18446744073709551615", "[before 1 to end]"),
    (
        "!=1.0",
        "[before 0.dev0 to before 1][before 1.post0.dev0 to end]",
    ),
];

fn set_of_row(alloc: Global, row: &str) -> Result<VersionSet, ClauseFault> {
    match row {
        "all" => VersionSet::all(alloc),
        "none" => Ok(VersionSet::none(alloc)),
        _ => set(alloc, row),
    }
}

// The ranges of a row's set.
struct RangesOfRow;

impl Kind for RangesOfRow {
    type Fault = ClauseFault;

    fn line(&self, alloc: Global, row: &str) -> Result<String, ClauseFault> {
        shown(alloc, &set_of_row(alloc, row)?)
    }
}

#[test]
fn ranges(rt: HostRuntime) {
    expect_lines(&rt, &RangesOfRow, &RANGES);
}

/// The set of the clause of a text, which is one.
pub(crate) fn known_set(rt: &(impl Abort + AllocGlobal), clause: &str) -> VersionSet {
    set(rt.alloc(), clause).expect(rt, "the set of a clause")
}

/// The set of all versions.
pub(crate) fn all_versions(rt: &(impl Abort + AllocGlobal)) -> VersionSet {
    VersionSet::all(rt.alloc()).expect(rt, "the set of all versions")
}

// The set of all these clauses, each joined to those before it.
fn joined(rt: &(impl Abort + AllocGlobal), clauses: &str) -> VersionSet {
    let mut joined = all_versions(rt);
    for clause in clauses.split(' ') {
        let next = joined.joined(rt.alloc(), &known_set(rt, clause));
        joined = next.expect(rt, "a join");
    }
    joined
}

// The same, in place.
fn kept(rt: &(impl Abort + AllocGlobal), clauses: &str) -> VersionSet {
    let mut kept = all_versions(rt);
    for clause in clauses.split(' ') {
        let joined = kept.join(rt.alloc(), &known_set(rt, clause));
        joined.expect(rt, "room for a join");
    }
    kept
}

// The same of sets that are used up.
fn common(rt: &(impl Abort + AllocGlobal), clauses: &str) -> VersionSet {
    let mut common = all_versions(rt);
    for clause in clauses.split(' ') {
        let next = common.common(rt.alloc(), known_set(rt, clause));
        common = next.expect(rt, "a join");
    }
    common
}

// Clauses, separated by blanks, and the ranges of their set.
const JOINED: [(&str, &str); 11] = [
    (
        "!=1.0",
        "[before 0.dev0 to before 1][before 1.post0.dev0 to end]",
    ),
    ("<0", "none"),
    (">=1", "[before 1 to end]"),
    (">=1 >=0.5", "[before 1 to end]"),
    (">=1 <2", "[before 1 to before 2.dev0]"),
    (">=1 >=0.5 <2", "[before 1 to before 2.dev0]"),
    (">=1 <2 <3", "[before 1 to before 2.dev0]"),
    (">=1 <2 >=1.5", "[before 1.5 to before 2.dev0]"),
    (">=1 <2 <3 >=2", "none"),
    (">=1 <2 >=1.5 >=2", "none"),
    (">=1 <2 >=1.5 ===x", "[before 1.5 to before 2.dev0]"),
];

// The sweep over a set and all versions, whose turns no one sees here.
fn swept(rt: &(impl Abort + AllocGlobal), set: &VersionSet) -> VersionSet {
    let swept = set.swept(rt.alloc(), &all_versions(rt), &mut Turns::none());
    swept.expect(rt, "a join")
}

fn copied(rt: &(impl Abort + AllocGlobal), set: &VersionSet) -> VersionSet {
    set.copied(rt.alloc()).expect(rt, "the copy of a set")
}

// The set of all these clauses, by one of five ways.
fn set_by(rt: &(impl Abort + AllocGlobal), way: &str, clauses: &str) -> VersionSet {
    match way {
        "joined" => joined(rt, clauses),
        "in place" => kept(rt, clauses),
        "used up" => common(rt, clauses),
        "copied" => copied(rt, &joined(rt, clauses)),
        _ => swept(rt, &joined(rt, clauses)),
    }
}

/// The ranges of a set, as a text.
pub(crate) fn ranges_of(rt: &(impl Abort + AllocGlobal), set: &VersionSet) -> String {
    shown(rt.alloc(), set).expect(rt, "the ranges of a set")
}

#[test]
fn joins(rt: HostRuntime) {
    for way in &["joined", "in place", "used up", "copied", "swept"] {
        for &(clauses, want) in &JOINED {
            let line = ranges_of(&rt, &set_by(&rt, way, clauses));
            expect_row(&rt, way, line.as_str(), want);
        }
    }
}

// Two lists of clauses, and the ranges that their sets have in common.
const LISTS: [(&str, &str, &str); 5] = [
    (
        "!=1 !=3",
        "!=2 !=3 !=4 <5",
        "[before 0.dev0 to before 1][before 1.post0.dev0 to before 2][before 2.post0.dev0 to before 3]\
        [before 3.post0.dev0 to before 4][before 4.post0.dev0 to before 5.dev0]",
    ),
    (
        ">=1 !=2.*",
        "<=2.5 !=1.5",
        "[before 1 to before 1.5][before 1.5.post0.dev0 to before 2.dev0]",
    ),
    (
        "!=1.*",
        "!=1.*",
        "[before 0.dev0 to before 1.dev0][before 2.dev0 to end]",
    ),
    (
        "!=1.* !=2.* !=4.*",
        "!=3.* !=2.*",
        "[before 0.dev0 to before 1.dev0][before 5.dev0 to end]",
    ),
    ("!=1.* <2", ">=1 !=3", "none"),
];

// What they have in common, of sets that are used up.
fn lists_line(rt: &(impl Abort + AllocGlobal), left: &str, right: &str) -> String {
    let both = joined(rt, left).common(rt.alloc(), joined(rt, right));
    ranges_of(rt, &both.expect(rt, "a join"))
}

#[test]
fn uses_up_lists(rt: HostRuntime) {
    for &(left, right, want) in &LISTS {
        let line = lists_line(&rt, left, right);
        expect_row(&rt, "left first", line.as_str(), want);
        let line = lists_line(&rt, right, left);
        expect_row(&rt, "right first", line.as_str(), want);
    }
}

fn differ(rt: &(impl Abort + AllocGlobal), above: &str, below: &str) -> bool {
    known_set(rt, above) != known_set(rt, below)
}

fn set_of_both(rt: &(impl Abort + AllocGlobal), above: &str, below: &str) -> VersionSet {
    let above = known_set(rt, above);
    let below = known_set(rt, below);
    above.joined(rt.alloc(), &below).expect(rt, "a join")
}

// The ranges of the join of two sets, whether it is that of none, and whether the two differ.
fn between_line(rt: &(impl Abort + AllocGlobal), above: &str, below: &str) -> String {
    let differ = differ(rt, above, below);
    let both = set_of_both(rt, above, below);
    let is_none = both == VersionSet::none(rt.alloc());
    let ranges = ranges_of(rt, &both);
    format!(in rt.alloc(); "{ranges} {is_none} {differ}").expect(rt, "room for a text")
}

// `>1.0a5` leaves the post-releases of `1.0a5` out, so nothing is left below `1.0a6.dev0`.
#[test]
fn none_between(rt: HostRuntime) {
    let line = between_line(&rt, ">1.0a5", "<1.0a6.dev0");
    expect_line(&rt, line.as_str(), "none true true");
}

fn expect_all_and_none(rt: &impl Abort, all: &VersionSet, none: &VersionSet, keys: &[Key]) {
    for key in keys {
        assert!(rt; all.contains(key) && !none.contains(key));
    }
    assert!(rt; none.is_empty() && !all.is_empty() && all != none);
}

// Every version is in the set of all, and none in the set of none.
#[test]
fn all_and_none(rt: HostRuntime) {
    let keys = keys(&rt);
    let all = all_versions(&rt);
    let none = VersionSet::none(rt.alloc());
    expect_all_and_none(&rt, &all, &none, keys.as_slice());
}

// Whether the copy of a range begins below its end, and is equal to it.
fn is_copied(rt: &(impl Abort + AllocGlobal), range: &Range) -> bool {
    let copy = range.copied(rt.alloc()).expect(rt, "the copy of a range");
    copy.low() < range.high() && copy == *range
}

#[test]
fn copies_ranges(rt: HostRuntime) {
    let set = known_set(&rt, ">=3.8");
    assert!(rt; set.ranges().len() == 1);
    for range in set.ranges() {
        assert!(rt; is_copied(&rt, range));
    }
}

// ---- all clauses of the operands, and versions near them

// Appends the clause with this text, if there is one.
fn push_clause(rt: &(impl Abort + AllocGlobal), clauses: &mut Vec<Clause>, text: &str) {
    if let Ok(clause) = Clause::read(rt.alloc(), text) {
        clauses.push(clause).expect(rt, "room for a clause");
    }
}

// Appends the clauses of an operator and an operand, alone and with `.*`.
fn push_both(
    rt: &(impl Abort + AllocGlobal),
    clauses: &mut Vec<Clause>,
    operator: &str,
    operand: &str,
) {
    let text = format!(in rt.alloc(); "{operator}{operand}").expect(rt, "room for a text");
    push_clause(rt, clauses, text.as_str());
    let text = format!(in rt.alloc(); "{operator}{operand}.*").expect(rt, "room for a text");
    push_clause(rt, clauses, text.as_str());
}

fn clauses(rt: &(impl Abort + AllocGlobal)) -> Vec<Clause> {
    let mut clauses = Vec::new(rt.alloc());
    for operator in &OPERATORS {
        for operand in &OPERANDS {
            push_both(rt, &mut clauses, operator, operand);
        }
    }
    clauses
}

// Appends the version with this text, if there is one.
fn push_version(rt: &(impl Abort + AllocGlobal), versions: &mut Vec<Version>, text: &str) {
    if let Ok(version) = Version::read(rt.alloc(), text) {
        versions.push(version).expect(rt, "room for a version");
    }
}

fn push_near(rt: &(impl Abort + AllocGlobal), versions: &mut Vec<Version>, operand: &str) {
    for ending in &ENDINGS {
        let text = format!(in rt.alloc(); "{operand}{ending}").expect(rt, "room for a text");
        push_version(rt, versions, text.as_str());
    }
}

// The versions in order, and those where ranges begin or end.
fn known_versions(rt: &(impl Abort + AllocGlobal)) -> Vec<Version> {
    let mut versions = Vec::new(rt.alloc());
    for text in ORDERED.iter().chain(NEAR.iter()) {
        versions
            .push(known_version(rt, text))
            .expect(rt, "room for a version");
    }
    versions
}

fn candidates(rt: &(impl Abort + AllocGlobal)) -> Vec<Version> {
    let mut versions = known_versions(rt);
    for operand in &OPERANDS {
        push_near(rt, &mut versions, operand);
    }
    versions
}

fn keys(rt: &(impl Abort + AllocGlobal)) -> Vec<Key> {
    let mut keys = Vec::new(rt.alloc());
    for version in &candidates(rt) {
        let key = Key::of(rt.alloc(), version).expect(rt, "the key of a version");
        keys.push(key).expect(rt, "room for a key");
    }
    keys
}

fn admits(rt: &(impl Abort + AllocGlobal), clause: &Clause, version: &Version) -> bool {
    let answer = clause.admits(rt.alloc(), version);
    answer.expect(rt, "an answer of a clause")
}

// Whether the clause admits a version; where it demands a text, all.
fn is_wanted(rt: &(impl Abort + AllocGlobal), clause: &Clause, version: &Version) -> bool {
    clause.exact_text().is_some() || admits(rt, clause, version)
}

// Whether the set holds the version where the clause admits it.
fn is_held(
    rt: &(impl Abort + AllocGlobal),
    set: &VersionSet,
    clause: &Clause,
    version: &Version,
) -> bool {
    let key = Key::of(rt.alloc(), version).expect(rt, "the key of a version");
    set.contains(&key) == is_wanted(rt, clause, version)
}

// The clause's set holds the versions that it admits.
fn expect_admitted(rt: &(impl Abort + AllocGlobal), clause: &Clause, versions: &[Version]) {
    let set = VersionSet::of(rt.alloc(), clause).expect(rt, "the set of a clause");
    for (i, version) in versions.iter().enumerate() {
        expect(rt, i, is_held(rt, &set, clause, version));
    }
}

// `==` and `!=` take all 27 operands and 8 prefixes, `~=` the 21 of two numbers or more without
// a label, `===` all of both forms, the others the 25 without a label.
const CLAUSES: usize = 2 * (27 + 8) + 21 + 2 * 27 + 4 * 25;

// 8 operands take all 6 endings, 5 pre-releases and 2 labels 5, 5 post-releases 3, 7
// developmental releases 2.
const CANDIDATES: usize = 41 + 8 * 6 + 7 * 5 + 5 * 3 + 7 * 2;

#[test]
fn sets_hold_what_clauses_admit(rt: HostRuntime) {
    let clauses = clauses(&rt);
    let versions = candidates(&rt);
    assert!(rt; clauses.len() == CLAUSES && versions.len() == CANDIDATES);
    for clause in &clauses {
        expect_admitted(&rt, clause, versions.as_slice());
    }
}

// The set of both holds the versions that both sets hold.
fn expect_joined(
    rt: &impl Abort,
    (first, second): (&VersionSet, &VersionSet),
    both: &VersionSet,
    keys: &[Key],
) {
    for key in keys {
        let is_wanted = first.contains(key) && second.contains(key);
        assert!(rt; both.contains(key) == is_wanted);
    }
}

// Whether two sets have this join where copies of them are used up.
fn is_common(
    rt: &(impl Abort + AllocGlobal),
    (first, second): (&VersionSet, &VersionSet),
    both: &VersionSet,
) -> bool {
    let common = copied(rt, first).common(rt.alloc(), copied(rt, second));
    common.expect(rt, "a join") == *both
}

fn joined_in_place(rt: &(impl Abort + AllocGlobal), (first, second): (&str, &str)) -> VersionSet {
    let mut joined = known_set(rt, first);
    let second = known_set(rt, second);
    joined
        .join(rt.alloc(), &second)
        .expect(rt, "room for a join");
    joined
}

// Whether two ways of joining the sets of two clauses give one set.
fn is_one_join(rt: &(impl Abort + AllocGlobal), (first, second): (&str, &str)) -> bool {
    joined_in_place(rt, (first, second)) == set_of_both(rt, first, second)
}

// Asserts what two ways of joining two sets give.
fn expect_joins(
    rt: &(impl Abort + AllocGlobal),
    (first, second): (&VersionSet, &VersionSet),
    keys: &[Key],
) {
    let both = first.joined(rt.alloc(), second).expect(rt, "a join");
    expect_joined(rt, (first, second), &both, keys);
    assert!(rt; is_common(rt, (first, second), &both));
}

// Asserts what three ways of joining the sets of two clauses give.
fn expect_joins_of(rt: &(impl Abort + AllocGlobal), pair: (&str, &str), keys: &[Key]) {
    assert!(rt; is_one_join(rt, pair));
    let first = known_set(rt, pair.0);
    let second = known_set(rt, pair.1);
    expect_joins(rt, (&first, &second), keys);
}

const PAIRS: [(&str, &str); 3] = [
    ("!=1.0", "!=1.0a1.post0"),
    (">=1.0a1.dev1", "!=1.0.*"),
    ("!=1.0+x", "~=1.0rc1"),
];

#[test]
fn joined_sets_hold_what_both_hold(rt: HostRuntime) {
    let keys = keys(&rt);
    for &pair in &PAIRS {
        expect_joins_of(&rt, pair, keys.as_slice());
    }
}
