//! Headers of texts of tables: those of the environment at hand, of others, and those that none has.

use crate::tests::lines::expect_row;
use crate::tests::tables::{name, table};
use pep_marker::Environment;
use pep_table::{Gathering, Table, TableFault};
use std::alloc::AllocError;
use std::process::Abort;
use tests_kit::{MACHINE, MACHINE_HEADER};

// The lines of a table, which stand behind a header as lines 14 and 15.
const FLASK: &str = "flask open\n  range before 2 to before 3.dev0\n";

// The environment of the machine with an extra.
fn machine_with(rt: &(impl Abort + AllocGlobal), extra: &'static str) -> Environment {
    let mut pairs = Vec::from_slice(rt.alloc(), &MACHINE).expect(rt, "the pairs of the machine");
    pairs.push(("extra", extra)).expect(rt, "room for a pair");
    let environment = Environment::of(rt.alloc(), pairs.as_slice());
    environment.expect(rt, "an environment with an extra")
}

// The code of a fault of a text, and its line.
fn code_and_line(rt: &impl Abort, fault: TableFault) -> (u32, usize) {
    match fault {
        TableFault::BadTable(line) => (41, line),
        TableFault::OtherEnvironment(line) => (43, line),
        other => panic!(rt; "{other}"),
    }
}

// What is told of a text: its code and its line.
fn told_line(rt: &(impl Abort + AllocGlobal), fault: Option<TableFault>) -> String {
    let line = match fault {
        None => String::from_str(rt.alloc(), "read"),
        Some(fault) => {
            let (code, line) = code_and_line(rt, fault);
            format!(in rt.alloc(); "{code} {line}")
        }
    };
    line.expect(rt, "room for a line")
}

// What is told where the text is read on the machine with an extra, and where a name is looked for in it.
fn told(rt: &(impl Abort + AllocGlobal), text: &str, extra: &'static str) -> String {
    let environment = machine_with(rt, extra);
    let whole = told_line(rt, fault_of_text(rt, text, &environment));
    let part = told_line(rt, fault_of_name(rt, text, &environment));
    format!(in rt.alloc(); "{whole}, {part}").expect(rt, "room for two lines")
}

fn fault_of_text(
    rt: &(impl Abort + AllocGlobal),
    text: &str,
    environment: &Environment,
) -> Option<TableFault> {
    Table::read(rt.alloc(), text, environment).err()
}

fn fault_of_name(
    rt: &(impl Abort + AllocGlobal),
    text: &str,
    environment: &Environment,
) -> Option<TableFault> {
    let name = name(rt, "z");
    let gathering = Gathering::new(rt.alloc());
    let part = gathering.take_text(rt.alloc(), text, environment, Some(&name));
    part.err()
}

// Appends the line with its line feed, unless it is empty.
fn push_line(text: &mut String, line: &str) -> Result<(), AllocError> {
    if !line.is_empty() {
        text.push_str(line)?;
        text.push_str("\n")?;
    }
    Ok(())
}

// The lines of a text, with another text in the place of the line with this number.
fn replaced(rt: &(impl Abort + AllocGlobal), whole: &str, number: usize, other: &str) -> String {
    let mut text = String::new(rt.alloc());
    for (index, line) in whole.split('\n').enumerate() {
        if index.saturating_add(1) == number {
            text.push_str(other).expect(rt, "room for a text");
        } else {
            push_line(&mut text, line).expect(rt, "room for a line");
        }
    }
    text
}

// The text of the table on the machine, with another text in the place of the line with this number.
fn with_line(rt: &(impl Abort + AllocGlobal), number: usize, other: &str) -> String {
    let whole = format!(in rt.alloc(); "{MACHINE_HEADER}{FLASK}").expect(rt, "room for a text");
    replaced(rt, whole.as_str(), number, other)
}

// The number of a line, what stands in its place, and what is told on the machine.
const CHANGES: [(usize, &str, &str); 33] = [
    (0, "", "read, read"),
    (1, "", "41 1, 41 1"),
    (1, "pep-table 3\n", "41 1, 41 1"),
    (1, "pep-table 2\r\n", "41 1, 41 1"),
    (1, "pep-table 2\npep-table 2\n", "41 2, 41 2"),
    (2, "", "41 2, 41 2"),
    (2, "env os_name=nt\n", "43 2, 43 2"),
    (2, "env os_name=\n", "43 2, 43 2"),
    (2, "env os_name=posix=\n", "43 2, 43 2"),
    (2, "env os_name\n", "41 2, 41 2"),
    (2, "env OS_NAME=posix\n", "41 2, 41 2"),
    (2, " env os_name=posix\n", "41 2, 41 2"),
    (2, "env  os_name=posix\n", "41 2, 41 2"),
    (2, "env os_name=posix\r\n", "41 2, 41 2"),
    (2, "env os_name=posix\nenv os_name=posix\n", "41 3, 41 3"),
    (4, "env platform_machine=\u{e9} \u{80}\n", "43 4, 43 4"),
    (4, "env platform_machine=\x7f\n", "41 4, 41 4"),
    (4, "env platform_machine=\0\n", "41 4, 41 4"),
    (8, "env platform_version=#11-Ubuntu SMP\t\n", "41 8, 41 8"),
    (9, "env python_version=3.10\n", "43 9, 43 9"),
    (9, "env python_version=3.9 \n", "43 9, 43 9"),
    (12, "env implementation_version=3.9.1\n", "43 12, 43 12"),
    (13, "", "41 13, 41 13"),
    (13, "env extra=x\n", "43 13, 43 13"),
    (13, "env extra=X\n", "41 13, 41 13"),
    (13, "env extra=a_b\n", "41 13, 41 13"),
    (13, "env extra=a--b\n", "41 13, 41 13"),
    (13, "env extra=\nenv extra=\n", "41 14, 41 14"),
    (14, "", "41 14, 41 14"),
    (14, "flask none\n", "41 14, 41 14"),
    (14, "\nflask open\n", "41 14, 41 14"),
    (15, "", "41 14, 41 14"),
    (15, "  range before 2 to end", "41 15, 41 15"),
];

// Texts, the extra with which they are read, and what is told: of the header alone, and of texts that end in
// their header, of which the last line is told.
const HEADERS: [(&str, &str, &str); 7] = [
    (MACHINE_HEADER, "", "read, read"),
    (MACHINE_HEADER, "x", "43 13, 43 13"),
    ("pep-table 2", "", "41 1, 41 1"),
    ("pep-table 2\n", "", "41 1, 41 1"),
    ("pep-table 2\nenv os_name=posix", "", "41 2, 41 2"),
    ("pep-table 2\nenv os_name=posix\n", "", "41 2, 41 2"),
    ("pep-table 2\nenv os_name=posix\n\n", "", "41 3, 41 3"),
];

#[test]
fn headers(rt: HostRuntime) {
    for &(text, extra, want) in &HEADERS {
        let found = told(&rt, text, extra);
        expect_row(&rt, text, found.as_str(), want);
    }
}

// The same where the header of the environment differs from that of the machine in its last line: of
// several lines that differ the first is told, unless one is no header's, or no table's behind it.
const CHANGES_ELSEWHERE: [(usize, &str, &str); 8] = [
    (0, "", "43 13, 43 13"),
    (9, "env python_version=3.10\n", "43 9, 43 9"),
    (13, "env extra=x-y\n", "read, read"),
    (13, "env extra=X_y\n", "41 13, 41 13"),
    (5, "", "41 5, 41 5"),
    (14, "flask none\n", "41 14, 41 14"),
    (15, "  range before 2.0 to end\n", "41 15, 41 15"),
    (16, "flask open\n", "41 16, 41 16"),
];

fn changed_line(
    rt: &(impl Abort + AllocGlobal),
    number: usize,
    other: &str,
    extra: &'static str,
) -> String {
    told(rt, with_line(rt, number, other).as_str(), extra)
}

fn expect_changes(
    rt: &(impl Abort + AllocGlobal),
    extra: &'static str,
    rows: &[(usize, &str, &str)],
) {
    for &(number, other, want) in rows {
        let found = changed_line(rt, number, other, extra);
        expect_row(rt, other, found.as_str(), want);
    }
}

#[test]
fn changed_lines(rt: HostRuntime) {
    expect_changes(&rt, "", &CHANGES);
    expect_changes(&rt, "X_y", &CHANGES_ELSEWHERE);
}

// The text of the table on the machine with an extra.
fn text_with(rt: &(impl Abort + AllocGlobal), table: &Table, extra: &'static str) -> String {
    let text = table.text(rt.alloc(), &machine_with(rt, extra));
    text.expect(rt, "the text of a table")
}

// What is told where a text that is printed with one extra is read with another.
fn read_elsewhere(
    rt: &(impl Abort + AllocGlobal),
    extra: &'static str,
    other: &'static str,
) -> String {
    let table = table(rt, &["flask>=2.0", "Flask<3"]);
    told(rt, text_with(rt, &table, extra).as_str(), other)
}

// An extra, another one, and what is told.
const EXTRAS: [(&str, &str, &str); 6] = [
    ("", "", "read, read"),
    ("Dev_Tools", "Dev_Tools", "read, read"),
    ("Dev_Tools", "dev-tools", "read, read"),
    ("dev.tools", "DEV--tools", "read, read"),
    ("Dev_Tools", "", "43 13, 43 13"),
    ("\u{e9}=", "\u{c9}=", "43 13, 43 13"),
];

#[test]
fn extras(rt: HostRuntime) {
    for &(extra, other, want) in &EXTRAS {
        let found = read_elsewhere(&rt, extra, other);
        expect_row(&rt, extra, found.as_str(), want);
    }
}

// The text of an empty table is the header alone.
#[test]
fn a_header_alone(rt: HostRuntime) {
    let line = text_with(&rt, &Table::empty(rt.alloc()), "");
    expect_row(&rt, "empty", line.as_str(), MACHINE_HEADER);
}
