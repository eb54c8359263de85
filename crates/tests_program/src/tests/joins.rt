//! One table, whatever the order, the grouping and the repeats of what is merged.

use crate::tests::calls::{Part, inputs_of, lines_of, machine, table_of};
use crate::tests::lines::expect;
use pep_marker::Name;
use pep_table::{Join, Table, Verdict, join_all};
use pep_tool::{Kind, gather};
use std::ops::Range;
use std::process::Abort;

// The table that is gathered of inputs on the machine.
fn gathered(rt: &(impl Abort + AllocGlobal), parts: &[Part]) -> Table {
    let (inputs, machine) = (inputs_of(rt, parts), machine(rt));
    let gathering = gather(rt.alloc(), inputs.as_slice(), &machine);
    let gathering = gathering.expect(rt, "what is gathered of the inputs");
    gathering.finish(rt.alloc()).expect(rt, "a gathered table")
}

fn has_lines(rt: &(impl Abort + AllocGlobal), table: &Table, lines: &str) -> bool {
    lines_of(rt, table).as_str() == lines
}

// The tables of lists.
fn tables(rt: &(impl Abort + AllocGlobal), lists: &[&str]) -> Vec<Table> {
    let mut tables = Vec::new(rt.alloc());
    for list in lists {
        tables
            .push(table_of(rt, list))
            .expect(rt, "room for a table");
    }
    tables
}

const FLASK: &str = "flask open\n  range before 2 to before 3.dev0\n";

const LOW: Part = (Kind::List, "flask>=2.0");

const HIGH: Part = (Kind::List, "Flask<3");

// The join of the tables of lists.
fn all_joined(rt: &(impl Abort + AllocGlobal), lists: &[&str]) -> Table {
    join(rt, tables(rt, lists).as_slice())
}

// The join of tables.
fn join(rt: &(impl Abort + AllocGlobal), tables: &[Table]) -> Table {
    let empty = Table::empty(rt.alloc());
    join_all(rt.alloc(), empty, tables.iter()).expect(rt, "the join of tables")
}

#[test]
fn one_table(rt: HostRuntime) {
    let whole = table_of(&rt, "Flask<3\nflask>=2.0\nflask>=2.0");
    assert!(rt; has_lines(&rt, &whole, FLASK));
    assert!(rt; all_joined(&rt, &[HIGH.1, LOW.1, LOW.1]) == whole);
    assert!(rt; gathered(&rt, &[HIGH, LOW, LOW]) == whole);
}

// The table of `a @ https://x.test/1` and `a @ https://x.test/2`.
const CONFLICT: &str = "a conflict\n  url https://x.test/1\n  url https://x.test/2\n  \
    range before 0.dev0 to end\n";

// What is merged behind two URLs of `a`.
const LATER: [&str; 7] = [
    "a @ https://x.test/1",
    "a>=1",
    "b",
    "a[x]",
    "a===1.0",
    "a<0",
    "a @ https://x.test/3 ; os_name == 'nt'",
];

// The table of all of it.
const ALL: &str = "a conflict\n  extra x\n  url https://x.test/1\n  url https://x.test/2\n  \
    text 1.0\nb open\n  range before 0.dev0 to end\n";

fn is_conflict(rt: &(impl Abort + AllocGlobal), table: &Table) -> bool {
    let a = Name::read(rt.alloc(), "a").expect(rt, "a name");
    let verdict = table.verdict(rt.alloc(), &a).expect(rt, "a verdict");
    verdict == Some(Verdict::Conflict)
}

// The join of two tables.
fn both_joined(rt: &(impl Abort + AllocGlobal), left: &Table, right: &Table) -> Table {
    left.joined(rt.alloc(), right)
        .expect(rt, "the join of two tables")
}

/// The join with the table of a list on the right.
pub(crate) fn joined(rt: &(impl Abort + AllocGlobal), both: &Table, list: &str) -> Table {
    both_joined(rt, both, &table_of(rt, list))
}

// The same on the left.
fn joined_left(rt: &(impl Abort + AllocGlobal), both: &Table, list: &str) -> Table {
    both_joined(rt, &table_of(rt, list), both)
}

// Whether two tables are one, with a conflict.
fn is_one_conflict(rt: &(impl Abort + AllocGlobal), left: &Table, right: &Table) -> bool {
    is_conflict(rt, right) && left == right
}

fn copied(rt: &(impl Abort + AllocGlobal), table: &Table) -> Table {
    table.copied(rt.alloc()).expect(rt, "the copy of a table")
}

// Joins each later table to one with a conflict, on its right and on its left.
fn expect_conflicts(rt: &(impl Abort + AllocGlobal), both: Table) {
    let mut right = copied(rt, &both);
    let mut left = both;
    for list in &LATER {
        right = joined(rt, &right, list);
        left = joined_left(rt, &left, list);
        expect(rt, list, is_one_conflict(rt, &left, &right));
    }
    assert!(rt; has_lines(rt, &left, ALL));
}

const URLS: [&str; 2] = ["a @ https://x.test/1", "a @ https://x.test/2"];

#[test]
fn conflicts_stay_in_joins(rt: HostRuntime) {
    let (first, second) = (table_of(&rt, URLS[0]), table_of(&rt, URLS[1]));
    let both = both_joined(&rt, &first, &second);
    assert!(rt; has_lines(&rt, &both, CONFLICT));
    expect_conflicts(&rt, both);
    expect_conflicts(&rt, both_joined(&rt, &second, &first));
}

// Appends a number and a line feed, between these texts.
fn push_line(
    rt: &(impl Abort + AllocGlobal),
    text: &mut String,
    front: &str,
    number: u32,
    back: &str,
) {
    let line = format!(in rt.alloc(); "{front}{number}{back}\n").expect(rt, "room for a line");
    text.push_str(line.as_str()).expect(rt, "room for a line");
}

// Appends the numbers, each in a line of its own, between these texts.
fn push_lines(
    rt: &(impl Abort + AllocGlobal),
    text: &mut String,
    front: &str,
    numbers: Range<u32>,
    back: &str,
) {
    for number in numbers {
        push_line(rt, text, front, number, back);
    }
}

// A line for each of 2,000 names, with this behind it.
fn lines_of_names(rt: &(impl Abort + AllocGlobal), behind: &str) -> String {
    let mut text = String::new(rt.alloc());
    push_lines(rt, &mut text, "n", 1_000..3_000, behind);
    text
}

fn table_of_names(rt: &(impl Abort + AllocGlobal), behind: &str) -> Table {
    table_of(rt, lines_of_names(rt, behind).as_str())
}

fn joined_names(rt: &(impl Abort + AllocGlobal), low: &Table) -> Table {
    both_joined(rt, low, &table_of_names(rt, "[y]<2"))
}

const OF_BOTH: &str = " open\n  extra x\n  extra y\n  range before 1 to before 2.dev0";

#[test]
fn tables_of_many_names(rt: HostRuntime) {
    let low = table_of_names(&rt, "[x]>=1");
    let joined = joined_names(&rt, &low);
    assert!(rt; lines_of(&rt, &joined) == lines_of_names(&rt, OF_BOTH));
    assert!(rt; copied(&rt, &joined) == joined);
    assert!(rt; joined != low);
}

// Extras, URLs and texts, 5,000 each, on one name.
fn many_demands(rt: &(impl Abort + AllocGlobal)) -> String {
    let mut list = String::new(rt.alloc());
    push_lines(rt, &mut list, "a===1.", 10_000..15_000, "");
    push_lines(
        rt,
        &mut list,
        "a @ https://x.test/",
        10_000..15_000,
        " ; os_name == 'posix'",
    );
    push_lines(rt, &mut list, "a[x", 10_000..15_000, "]");
    list
}

// Their table.
fn many_demanded(rt: &(impl Abort + AllocGlobal)) -> String {
    let mut text = String::new(rt.alloc());
    text.push_str("a conflict\n").expect(rt, "room for a line");
    push_lines(rt, &mut text, "  extra x", 10_000..15_000, "");
    push_lines(rt, &mut text, "  url https://x.test/", 10_000..15_000, "");
    push_lines(rt, &mut text, "  text 1.", 10_000..15_000, "");
    text.push_str("  range before 0.dev0 to end\n")
        .expect(rt, "room for a line");
    text
}

fn table_of_demands(rt: &(impl Abort + AllocGlobal)) -> Table {
    table_of(rt, many_demands(rt).as_str())
}

#[test]
fn tables_of_many_demands(rt: HostRuntime) {
    let table = table_of_demands(&rt);
    let again = both_joined(&rt, &table, &copied(&rt, &table));
    assert!(rt; again == table);
    assert!(rt; lines_of(&rt, &again) == many_demanded(&rt));
}

// The table of a list with an extra and a bound of this number.
fn numbered_table(rt: &(impl Abort + AllocGlobal), number: u32) -> Table {
    let list = format!(in rt.alloc(); "a[x{number}]>={number}").expect(rt, "room for a list");
    table_of(rt, list.as_str())
}

// Two hundred tables, each with an extra of its own.
fn many_tables(rt: &(impl Abort + AllocGlobal)) -> Vec<Table> {
    let mut tables = Vec::new(rt.alloc());
    for number in 100..300 {
        tables
            .push(numbered_table(rt, number))
            .expect(rt, "room for a table");
    }
    tables
}

fn joined_tables(rt: &(impl Abort + AllocGlobal)) -> Table {
    join(rt, many_tables(rt).as_slice())
}

// The text of their join.
fn many_joined(rt: &(impl Abort + AllocGlobal)) -> String {
    let mut text = String::new(rt.alloc());
    text.push_str("a open\n").expect(rt, "room for a line");
    push_lines(rt, &mut text, "  extra x", 100..300, "");
    text.push_str("  range before 299 to end\n")
        .expect(rt, "room for a line");
    text
}

#[test]
fn joins_of_many_tables(rt: HostRuntime) {
    let joined = joined_tables(&rt);
    assert!(rt; lines_of(&rt, &joined) == many_joined(&rt));
}
