//! Tables that are larger than a body that gives up early would take.

use crate::tests::lines::{expect, expect_line, expect_same};
use crate::tests::tables::{
    all_joined, all_joined_back, answer, copy_of, entry, finished, gathered, is_copied_entry,
    join_of, join_of_entries, known_table, lines_of, machine, name, push_requirement, requirement,
    table, table_of, table_of_text, taken, taken_table, verdict,
};
use pep_marker::Environment;
use pep_require::Requirement;
use pep_table::{Answer, Entry, Gathering, Table, TableFault, Verdict};
use std::alloc::{AllocError, Global};
use std::ops::Range;
use std::process::Abort;
use tests_kit::push_numbered;

// What stands before a number, the first number and the one behind the last, and what stands after it.
type Part = (&'static str, u32, u32, &'static str);

// Appends a requirement for each number, from the last to the first.
fn push_part(rt: &(impl Abort + AllocGlobal), lines: &mut Vec<Requirement>, part: Part) {
    let (before, first, end, after) = part;
    for number in (first..end).rev() {
        let line = format!(in rt.alloc(); "{before}{number}{after}").expect(rt, "room for a line");
        push_requirement(rt, lines, line.as_str());
    }
}

fn requirements_of(rt: &(impl Abort + AllocGlobal), parts: &[Part]) -> Vec<Requirement> {
    let mut lines = Vec::new(rt.alloc());
    for part in parts {
        push_part(rt, &mut lines, *part);
    }
    lines
}

// The text of the parts behind a front, and what stands behind them.
fn text_of(rt: &(impl Abort + AllocGlobal), front: &str, parts: &[Part], behind: &str) -> String {
    let mut text = String::from_str(rt.alloc(), front).expect(rt, "room for a text");
    for &(before, first, end, after) in parts {
        let pushed = push_numbered(rt.alloc(), &mut text, before, first..end, after);
        pushed.expect(rt, "room for a part");
    }
    text.push_str(behind).expect(rt, "room for a text");
    text
}

// Whether what is gathered of the table is the same.
fn is_gathered(rt: &(impl Abort + AllocGlobal), table: &Table) -> bool {
    let gathering = taken_table(rt, Gathering::new(rt.alloc()), table);
    finished(rt, gathering) == *table
}

// Whether its copy is the same.
fn is_copied(rt: &(impl Abort + AllocGlobal), table: &Table) -> bool {
    copy_of(rt, table) == *table
}

// Whether its join with itself is the same.
fn is_joined(rt: &(impl Abort + AllocGlobal), table: &Table) -> bool {
    join_of(rt, table, table) == *table
}

// Whether these are its lines, and it is read of them.
fn has_lines(rt: &(impl Abort + AllocGlobal), table: &Table, lines: &str) -> bool {
    let is_read = table_of_text(rt, lines) == *table;
    lines_of(rt, table).as_str() == lines && is_read
}

// Whether the table has the lines, and so has what is made of it.
fn is_table(rt: &(impl Abort + AllocGlobal), table: &Table, wanted: &str) -> bool {
    has_lines(rt, table, wanted)
        && is_gathered(rt, table)
        && is_copied(rt, table)
        && is_joined(rt, table)
}

// Whether the join of an entry with itself is the same.
fn is_joined_entry(rt: &(impl Abort + AllocGlobal), entry: &Entry) -> bool {
    join_of_entries(rt, entry, entry) == *entry
}

// Whether the copy of an entry, and its join with itself, are equal to it.
fn is_own_copy_and_join(rt: &(impl Abort + AllocGlobal), entry: &Entry) -> bool {
    is_copied_entry(rt, entry) && is_joined_entry(rt, entry)
}

// ---- requirements of different names

const NAMES: [Part; 1] = [("N", 1_000, 3_000, ">=1")];

const NAMES_TEXT: [Part; 1] = [("n", 1_000, 3_000, " open\n  range before 1 to end\n")];

fn table_of_parts(rt: &(impl Abort + AllocGlobal), parts: &[Part]) -> Table {
    known_table(rt, requirements_of(rt, parts).as_slice())
}

#[test]
fn table_of_many_names(rt: HostRuntime) {
    let table = table_of_parts(&rt, &NAMES);
    let text = text_of(&rt, "", &NAMES_TEXT, "");
    expect(&rt, "names", is_table(&rt, &table, text.as_str()));
}

// Why there is no table of these names and another line behind them.
fn fault_behind_names(rt: &(impl Abort + AllocGlobal), line: &str) -> Option<TableFault> {
    let mut lines = requirements_of(rt, &NAMES);
    push_requirement(rt, &mut lines, line);
    table_of(rt, lines.as_slice()).err()
}

#[test]
fn undefined_behind_many_names(rt: HostRuntime) {
    let fault = fault_behind_names(&rt, "b; 'dog' ~= 'fred'");
    assert!(rt; fault == Some(TableFault::Undefined(2_001)));
}

// ---- demands on one name

const DEMANDS: [Part; 3] = [
    ("a @ https://x.test/", 1_000, 2_500, ""),
    ("a===1.", 1_000, 2_500, ""),
    ("a[x", 1_000, 3_000, "]"),
];

const DEMANDS_TEXT: [Part; 3] = [
    ("  extra x", 1_000, 3_000, "\n"),
    ("  url https://x.test/", 1_000, 2_500, "\n"),
    ("  text 1.", 1_000, 2_500, "\n"),
];

const ALL_VERSIONS: &str = "  range before 0.dev0 to end\n";

// Whether the table has the lines, and so has what is made of it and of the entry of `a`.
fn is_table_of_a(rt: &(impl Abort + AllocGlobal), table: &Table, wanted: &str) -> bool {
    is_table(rt, table, wanted) && is_own_copy_and_join(rt, entry(rt, table, "a"))
}

#[test]
fn table_of_many_demands(rt: HostRuntime) {
    let table = table_of_parts(&rt, &DEMANDS);
    let text = text_of(&rt, "a conflict\n", &DEMANDS_TEXT, ALL_VERSIONS);
    expect(&rt, "demands", is_table_of_a(&rt, &table, text.as_str()));
}

// ---- one requirement with many extras and clauses

fn long_line(rt: &(impl Abort + AllocGlobal)) -> String {
    let extras = text_of(rt, "a[x1199", &[(",x", 1_000, 1_199, "")], "]");
    text_of(rt, extras.as_str(), &[("!=", 1_000, 1_200, ",")], "")
}

// From what lies behind one of the numbers to the next.
fn push_ranges(alloc: Global, text: &mut String) -> Result<(), AllocError> {
    text.push_str("  range before 0.dev0 to ")?;
    for number in 1_000u32..1_200 {
        let cuts = format!(in alloc; "before {number}\n  range before {number}.post0.dev0 to ")?;
        text.push_str(cuts.as_str())?;
    }
    text.push_str("end\n")
}

fn long_line_text(rt: &(impl Abort + AllocGlobal)) -> String {
    let mut text = text_of(rt, "a open\n", &[("  extra x", 1_000, 1_200, "\n")], "");
    push_ranges(rt.alloc(), &mut text).expect(rt, "room for ranges");
    text
}

fn table_of_line(rt: &(impl Abort + AllocGlobal)) -> Table {
    table(rt, &[long_line(rt).as_str()])
}

#[test]
fn table_of_a_long_line(rt: HostRuntime) {
    let table = table_of_line(&rt);
    let text = long_line_text(&rt);
    expect(&rt, "line", is_table_of_a(&rt, &table, text.as_str()));
    let verdict = verdict(&rt, &table);
    expect(&rt, "verdict", verdict == Some(Verdict::Possible));
}

fn long_line_answer(rt: &(impl Abort + AllocGlobal), version: &str) -> Answer {
    answer(rt, &[long_line(rt).as_str()], version, false)
}

const ANSWERS: [(&str, Answer); 2] = [("1199", Answer::No), ("1199.1", Answer::Yes)];

#[test]
fn answers_of_many_ranges(rt: HostRuntime) {
    for &(version, wanted) in &ANSWERS {
        let answer = long_line_answer(&rt, version);
        expect_same(&rt, version, answer, wanted);
    }
}

// ---- many tables

fn numbered_table(rt: &(impl Abort + AllocGlobal), number: u32) -> Table {
    let own = format!(in rt.alloc(); "n{number}").expect(rt, "room for a line");
    let shared = format!(in rt.alloc(); "a[x{number}]>={number}").expect(rt, "room for a line");
    table(rt, &[own.as_str(), shared.as_str()])
}

// Of each number one table.
fn tables(rt: &(impl Abort + AllocGlobal)) -> Vec<Table> {
    let mut tables = Vec::new(rt.alloc());
    for number in 100u32..300 {
        let table = numbered_table(rt, number);
        tables.push(table).expect(rt, "room for a table");
    }
    tables
}

fn tables_text(rt: &(impl Abort + AllocGlobal)) -> String {
    let a = text_of(
        rt,
        "a open\n",
        &[("  extra x", 100, 300, "\n")],
        "  range before 299 to end\n",
    );
    let rest = " open\n  range before 0.dev0 to end\n";
    text_of(rt, a.as_str(), &[("n", 100, 300, rest)], "")
}

#[test]
fn join_of_many_tables(rt: HostRuntime) {
    let tables = tables(&rt);
    let joined = all_joined(&rt, tables.as_slice());
    expect(&rt, "joined", lines_of(&rt, &joined) == tables_text(&rt));
    let back = all_joined_back(&rt, tables.as_slice());
    expect(&rt, "joined back", back == joined);
    let gathered = gathered(&rt, tables.as_slice());
    expect(&rt, "gathered", gathered == joined);
}

// ---- requirements one by one

// What is demanded so far, and of the name with the number.
fn taken_name(
    rt: &(impl Abort + AllocGlobal),
    gathering: Gathering,
    machine: &Environment,
    number: u32,
) -> Gathering {
    let line = format!(in rt.alloc(); "N{number}>={number}").expect(rt, "room for a line");
    taken(rt, gathering, machine, line.as_str())
}

fn gathered_names(rt: &(impl Abort + AllocGlobal)) -> Table {
    let machine = machine(rt);
    let mut gathering = Gathering::new(rt.alloc());
    for number in 10_000u32..30_000 {
        gathering = taken_name(rt, gathering, &machine, number);
    }
    finished(rt, gathering)
}

// The lines of a name with the number.
fn name_text(rt: &(impl Abort + AllocGlobal), number: u32) -> String {
    let text = format!(in rt.alloc(); "n{number} open\n  range before {number} to end\n");
    text.expect(rt, "room for an entry")
}

/// The text of a table with the names of these numbers.
pub(crate) fn names_text(rt: &(impl Abort + AllocGlobal), numbers: Range<u32>) -> String {
    let mut text = String::new(rt.alloc());
    for number in numbers {
        let entry = name_text(rt, number);
        text.push_str(entry.as_str())
            .expect(rt, "room for an entry");
    }
    text
}

#[test]
fn many_names(rt: HostRuntime) {
    let table = gathered_names(&rt);
    assert!(rt; lines_of(&rt, &table) == names_text(&rt, 10_000..30_000));
    assert!(rt; table.get(&name(&rt, "n29999")).is_some());
}

// A line with the number, of one of three kinds.
fn line_of_kind(rt: &(impl Abort + AllocGlobal), kind: u32, number: u32) -> String {
    let line = match kind {
        0 => format!(in rt.alloc(); "a[x{number}]>={number}"),
        1 => format!(in rt.alloc(); "a===1.{number}"),
        _ => format!(in rt.alloc(); "a @ https://x.test/{number}"),
    };
    line.expect(rt, "room for a line")
}

// What is demanded so far, and by that line.
fn taken_kind(
    rt: &(impl Abort + AllocGlobal),
    gathering: Gathering,
    machine: &Environment,
    kind: u32,
    number: u32,
) -> Gathering {
    let line = line_of_kind(rt, kind, number);
    taken(rt, gathering, machine, line.as_str())
}

// What is demanded so far, and by a line of each kind with the number.
fn taken_with(
    rt: &(impl Abort + AllocGlobal),
    gathering: Gathering,
    machine: &Environment,
    number: u32,
) -> Gathering {
    let mut all = gathering;
    for kind in 0u32..3 {
        all = taken_kind(rt, all, machine, kind, number);
    }
    all
}

fn gathered_demands(rt: &(impl Abort + AllocGlobal)) -> Table {
    let machine = machine(rt);
    let mut gathering = Gathering::new(rt.alloc());
    for number in 0u32..5_000 {
        gathering = taken_with(rt, gathering, &machine, number);
    }
    finished(rt, gathering)
}

// How many extras, texts, URLs and ranges there are.
fn counts(entry: &Entry) -> (usize, usize, usize, usize) {
    (
        entry.extras().items().len(),
        entry.texts().items().len(),
        entry.urls().items().len(),
        entry.versions().ranges().len(),
    )
}

// Where the first range begins of an entry that has one.
fn low_line(rt: &(impl Abort + AllocGlobal), entry: &Entry) -> String {
    let range = entry.versions().ranges().first().expect(rt, "a range");
    range.low().text(rt.alloc()).expect(rt, "the text of a cut")
}

#[test]
fn many_demands_of_one_name(rt: HostRuntime) {
    let table = gathered_demands(&rt);
    let entry = entry(&rt, &table, "a");
    assert!(rt; counts(entry) == (5_000, 5_000, 5_000, 1));
    let low = low_line(&rt, entry);
    expect_line(&rt, low.as_str(), "before 4999");
}
