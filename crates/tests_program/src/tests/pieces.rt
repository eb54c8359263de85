//! Lists that are merged while they are read, in whatever pieces their bytes come.

use crate::tests::calls::{fault_text, lines_of, machine, table_of};
use crate::tests::joins::joined;
use crate::tests::lines::{expect, expect_line, expect_row};
use crate::tests::streams::{NEVER, Reader};
use pep_table::Table;
use pep_tool::{Fault, merge_reader};
use std::process::Abort;
use tests_kit::{Numbers, push_numbered, repeated};

// The table of a list on the machine that comes in pieces, and whose read with this number fails.
fn merged(
    rt: &(impl Abort + AllocGlobal),
    list: &str,
    piece: usize,
    fails_at: u64,
) -> Result<Table, Fault> {
    let machine = machine(rt);
    let mut reader = Reader::in_pieces(list.as_bytes(), piece, fails_at);
    merge_reader(rt.alloc(), &mut reader, &machine)
}

// Its lines, or the line of the fault.
fn table_line(rt: &(impl Abort + AllocGlobal), list: &str, piece: usize, fails_at: u64) -> String {
    match merged(rt, list, piece, fails_at) {
        Ok(table) => lines_of(rt, &table),
        Err(fault) => fault_text(rt, &fault),
    }
}

const LISTS: [&str; 2] = [
    "Flask>=2.0\ntomli ; python_version < '3.11'\npytest~=7.1\n",
    "Flask>=2.0\r\ntomli ; python_version < '3.11'\r\npytest~=7.1\r\n",
];

const PIECES: [usize; 4] = [1, 2, 7, 100];

const TABLE: &str = "flask open\n  range before 2 to end\npytest open\n  \
    range before 7.1 to before 8.dev0\ntomli open\n  range before 0.dev0 to end\n";

#[test]
fn one_table_of_all_pieces(rt: HostRuntime) {
    for list in &LISTS {
        for piece in &PIECES {
            let line = table_line(&rt, list, *piece, NEVER);
            expect_row(&rt, list, line.as_str(), TABLE);
        }
    }
}

// Of a list that comes byte by byte: the number of the read that fails, and what is answered. The
// second line ends with the ninth read, and the tenth would find the end.
const FAILURES: [(&str, u64, &str); 12] = [
    ("a>=1\nb>=\n", 1, "refused input 1 code 58\n"),
    ("a>=1\nb>=\n", 5, "refused input 1 code 58\n"),
    ("a>=1\nb>=\n", 6, "refused input 1 code 58\n"),
    ("a>=1\nb>=\n", 8, "refused input 1 code 58\n"),
    ("a>=1\nb>=\n", 9, "refused input 1 code 58\n"),
    ("a>=1\nb>=\n", 10, "refused input 1 line 2 code 57 33 12\n"),
    ("a>=1\nb>=\n", 11, "refused input 1 line 2 code 57 33 12\n"),
    ("a>=1", 4, "refused input 1 code 58\n"),
    ("a>=1", 5, "refused input 1 code 58\n"),
    ("a>=1", 6, "a open\n  range before 1 to end\n"),
    ("", 1, "refused input 1 code 58\n"),
    ("", 2, ""),
];

#[test]
fn failures_behind_each_byte(rt: HostRuntime) {
    for &(list, fails_at, want) in &FAILURES {
        let line = table_line(&rt, list, 1, fails_at);
        expect_line(&rt, line.as_str(), want);
    }
}

// ---- long lists in pieces

#[test]
fn a_line_of_many_pieces(rt: HostRuntime) {
    let list = repeated(rt.alloc(), "a>=1", ".0", 32_766, "").expect(&rt, "room for a list");
    let line = table_line(&rt, list.as_str(), 7, NEVER);
    expect_line(&rt, line.as_str(), "a open\n  range before 1 to end\n");
}

#[test]
fn many_pieces_of_one_byte(rt: HostRuntime) {
    let list = repeated(rt.alloc(), "a>=1\n", "#\n", 35_000, "").expect(&rt, "room for a list");
    let line = table_line(&rt, list.as_str(), 1, NEVER);
    expect_line(&rt, line.as_str(), "a open\n  range before 1 to end\n");
}

// The table of a list that comes in pieces.
fn table_of_pieces(rt: &(impl Abort + AllocGlobal), list: &str, piece: usize) -> Table {
    merged(rt, list, piece, NEVER).expect(rt, "a table")
}

// Whether the table of a list that comes in pieces is that of its requirements.
fn is_table_of_all(rt: &(impl Abort + AllocGlobal), list: &str, piece: usize) -> bool {
    table_of_pieces(rt, list, piece) == table_of(rt, list)
}

// A line for each of 2,000 names.
fn many_lines(rt: &(impl Abort + AllocGlobal)) -> String {
    let mut list = String::new(rt.alloc());
    let pushed = push_numbered(rt.alloc(), &mut list, "p", 1000..3000, ">=1.0,!=1.2.*\n");
    pushed.expect(rt, "room for a list");
    list
}

#[test]
fn many_lines_in_pieces(rt: HostRuntime) {
    let list = many_lines(&rt);
    let same = is_table_of_all(&rt, list.as_str(), 7);
    expect(&rt, "2,000 names", same);
}

// ---- lists of a seed, merged in two ways

const NAMES: [&str; 5] = ["a", "A.b", "a-B", "c", "\t d"];

const DEMANDS: [&str; 10] = [
    "",
    ">=1.0",
    "<2",
    "!=1.5,!=1.6.*",
    "~=1.2 ; python_version < '3.11'",
    ">1.0.post1 ; os_name == 'nt'",
    "===1.0",
    "[y,x]>=0.5",
    " @ https://x.test/1",
    "!=1.6",
];

const ENDS: [&str; 5] = ["\n", "\r\n", " \n", "\n\n# a\n", "\r\n\t\r\n"];

// A line of the numbers, without its end.
fn any_line(rt: &(impl Abort + AllocGlobal), numbers: &mut Numbers) -> String {
    let (name, demand) = (numbers.one_of(&NAMES), numbers.one_of(&DEMANDS));
    format!(in rt.alloc(); "{name}{demand}").expect(rt, "room for a line")
}

// Appends the line and this end.
fn push_line(rt: &impl Abort, list: &mut String, line: &str, end: &str) {
    list.push_str(line).expect(rt, "room for a line");
    list.push_str(end).expect(rt, "room for the end of a line");
}

// A list of the numbers, and the join of the tables of its lines.
fn any_list(rt: &(impl Abort + AllocGlobal), numbers: &mut Numbers) -> (String, Table) {
    let mut list = String::new(rt.alloc());
    let mut table = Table::empty(rt.alloc());
    for _ in 0..numbers.below(7) {
        let line = any_line(rt, numbers);
        table = joined(rt, &table, line.as_str());
        push_line(rt, &mut list, line.as_str(), numbers.one_of(&ENDS));
    }
    (list, table)
}

// Asserts that a list of the numbers has one table, in pieces and line by line.
fn expect_one_table(rt: &(impl Abort + AllocGlobal), numbers: &mut Numbers) {
    let (list, table) = any_list(rt, numbers);
    let piece = 1 + numbers.below(9) as usize;
    let read = table_of_pieces(rt, list.as_str(), piece);
    expect(rt, list.as_str(), read == table);
}

#[test]
fn lists_of_a_seed(rt: HostRuntime) {
    let mut numbers = Numbers { state: 735 };
    for _ in 0..500 {
        expect_one_table(&rt, &mut numbers);
    }
}
