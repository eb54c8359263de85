//! Tables that are read from their lines, and from their texts on the machine.

use crate::tests::large_tables::names_text;
use crate::tests::lines::{expect, expect_line, expect_same};
use crate::tests::tables::{
    join_of, known_table, lines_of, machine, name, read_on_machine, requirement, table,
    table_of_text, table_text,
};
use pep_require::Requirement;
use pep_table::{Gathering, Table, TableFault};
use std::alloc::AllocError;
use std::process::Abort;
use tests_kit::{MACHINE, MACHINE_HEADER, Numbers, push_numbered, repeated};

// A table with all kinds of lines and verdicts.
const LINES: [&str; 11] = [
    "a conflict",
    "  extra x",
    "  extra y",
    "  url https://x.test/1",
    "  url https://x.test/2",
    "  text 1.0",
    "  range before 0.dev0 to before 1",
    "  range after 1+x to end",
    "a-b open",
    "  range past 1 to end",
    "b none",
];

// A table of one name, 45 bytes.
const FLASK: &str = "flask open\n  range before 2 to before 3.dev0\n";

// The number of the line that can't stand, which the fault names.
fn named_line(rt: &impl Abort, fault: TableFault) -> usize {
    match fault {
        TableFault::BadTable(line) => line,
        other => panic!(rt; "{other}"),
    }
}

// The line that can't stand in the text, or 0 where it is that of the table that is read, or its lines.
fn bad_line(rt: &(impl Abort + AllocGlobal), text: &str) -> usize {
    match read_on_machine(rt, text) {
        Ok(table) => line_of(rt, &table, text),
        Err(fault) => named_line(rt, fault),
    }
}

// The same where the text stands behind the header of the machine; the lines are counted from there.
fn bad_line_behind_header(rt: &(impl Abort + AllocGlobal), text: &str) -> usize {
    let whole = format!(in rt.alloc(); "{MACHINE_HEADER}{text}").expect(rt, "room for a text");
    let line = bad_line(rt, whole.as_str());
    line.checked_sub(HEADER_LINES).unwrap_or(line)
}

// The form, the variables of the machine, and `extra`.
const HEADER_LINES: usize = MACHINE.len() + 2;

// What is gathered of the text and a name, or why the text is none of a table.
fn gathered_part(
    rt: &(impl Abort + AllocGlobal),
    text: &str,
    wanted: &str,
) -> Result<Gathering, TableFault> {
    let environment = machine(rt);
    let name = name(rt, wanted);
    let gathering = Gathering::new(rt.alloc());
    gathering.take_text(rt.alloc(), text, &environment, Some(&name))
}

// The lines of what the table with this text has of a name, or why there is no such table.
fn part(rt: &(impl Abort + AllocGlobal), text: &str, name: &str) -> Result<String, TableFault> {
    let part = gathered_part(rt, text, name)?.finish(rt.alloc())?;
    Ok(lines_of(rt, &part))
}

// The line that can't stand in the text, where one name is looked for, or 0.
fn bad_line_of_part(rt: &(impl Abort + AllocGlobal), text: &str) -> usize {
    match part(rt, text, "flask") {
        Ok(_) => 0,
        Err(fault) => named_line(rt, fault),
    }
}

// Stands for the line where a table is read of the text, but has another text.
const ANOTHER: usize = usize::MAX;

// No line where this is the text of the table, or its lines.
fn line_of(rt: &(impl Abort + AllocGlobal), table: &Table, text: &str) -> usize {
    let whole = table_text(rt, table);
    let lines = whole.as_str().strip_prefix(MACHINE_HEADER);
    let is_own = whole.as_str() == text || lines == Some(text);
    if is_own { 0 } else { ANOTHER }
}

fn expect_bad_lines(rt: &(impl Abort + AllocGlobal), rows: &[(&str, usize)]) {
    for &(text, wanted) in rows {
        expect_same(rt, text, bad_line(rt, text), wanted);
        expect_same(rt, text, bad_line_of_part(rt, text), wanted);
        expect_same(rt, text, bad_line_behind_header(rt, text), wanted);
    }
}

// Texts of tables.
const WHOLE: [(&str, usize); 7] = [
    ("", 0),
    (FLASK, 0),
    ("a none\n", 0),
    ("a open\n  range before 0.dev0 to end\n", 0),
    (
        "a none\n  text 1.0\n  text 1.00\n  range before 1 to end\n",
        0,
    ),
    ("a open\n  text 1.0\n  range before 1 to end\n", 0),
    ("a none\n  text 1.0\n  range before 2 to end\n", 0),
];

// Texts whose names or verdicts cannot stand, and the line.
const NAMES_AND_VERDICTS: [(&str, usize); 21] = [
    ("\n", 1),
    ("a open", 1),
    ("a\n", 1),
    ("a  none\n", 1),
    ("a none \n", 1),
    ("A none\n", 1),
    ("a_b none\n", 1),
    ("-a none\n", 1),
    ("a None\n", 1),
    ("a none\na none\n", 2),
    ("b none\na none\n", 2),
    ("b none\na open\n  range end to end\n", 2),
    ("a none\n  range before 1 to end\n", 1),
    ("a open\n", 1),
    ("a open\nb none\n", 1),
    ("a open\na none\n", 2),
    ("a open\n\n", 2),
    ("a conflict\n  url u\n  range before 1 to end\n", 1),
    ("a open\n  url u\n  url v\n  range before 1 to end\n", 1),
    ("a open\n  text 1.0\n  range before 2 to end\n", 1),
    ("a none\n  text 1.0\n  range before 1 to end\n", 1),
];

// The first of the lines that cannot stand.
const FIRST_LINES: [(&str, usize); 27] = [
    ("b open\na none\n", 2),
    ("a open\nb dog\n", 2),
    ("a open\nb none", 2),
    ("a open\n  range before 2 to end\nb open\n", 3),
    ("a open\nb none\n  extra y\n  extra x\n", 1),
    ("a conflict\n  url u\n  text 1\n", 1),
    ("a open\n  rang before 1 to end\n", 2),
    ("a none\n  range before 1 to end\n  junk\n", 3),
    ("a none\n  extra x\n  extra w", 3),
    ("a none\n  range before 1 to end\n  url u\n", 3),
    ("a conflict\n  url u\n  range before 1 to end\nb", 4),
    ("a open\n  range before 1 to end\r\n", 2),
    ("a open\r\n  range before 1 to end\r\n", 1),
    ("a open\n  range before 1 to end\n\n", 3),
    ("a open\n  range before 1 to end\n \n", 3),
    ("\u{feff}a none\n", 1),
    ("a none\n  range before 99999999999999999999 to end\n", 2),
    ("a none\n  text \u{e9}\n", 2),
    ("a none\n  extra a--b\n", 2),
    ("a none\n  extra -b\n", 2),
    ("a open\n  range before 0.dev0 to before 0.dev0\n", 2),
    (
        "a open\n  range before 0.dev0 to end\n  range before 1 to end\n",
        3,
    ),
    ("a none\n  text 1.0", 2),
    ("a none\n  url u\n  url u", 3),
    ("a open\n  url u\n  url v\n  junk\n", 4),
    ("a none\nb open\nc none\n", 2),
    ("a none\nb open\nc open\n", 2),
];

const ITEMS: [(&str, usize); 17] = [
    ("a none\n  extra y\n  extra x\n", 3),
    ("a none\n  extra x\n  extra x\n", 3),
    ("a none\n  extra X\n", 2),
    ("a none\n  extra \n", 2),
    ("a none\n  url u\n  extra x\n", 3),
    ("a open\n  text 1\n  extra x\n", 3),
    ("a none\n  url !\n", 0),
    ("a none\n  url ~\n", 0),
    ("a none\n  url \n", 2),
    ("a none\n  url u v\n", 2),
    ("a none\n  url \x7f\n", 2),
    ("a none\n  url \u{e9}\n", 2),
    ("a none\n  text !*+-._09az\n", 0),
    ("a none\n  text \n", 2),
    ("a none\n  text A\n", 2),
    ("a none\n  text 1,2\n", 2),
    ("a none\n  text 2\n  text 1\n", 3),
];

const RANGES: [(&str, usize); 20] = [
    (
        "a open\n  range before 1 to before 2\n  range before 2 to end\n",
        3,
    ),
    (
        "a open\n  range before 3 to end\n  range before 1 to before 2\n",
        3,
    ),
    (
        "a open\n  range before 1 to end\n  range before 1 to end\n",
        3,
    ),
    ("a open\n  range before 2 to before 1\n", 2),
    ("a open\n  range before 1 to before 1\n", 2),
    ("a open\n  range end to before 1\n", 2),
    ("a open\n  range before 1.0 to end\n", 2),
    ("a open\n  range before 01 to end\n", 2),
    ("a open\n  range before 1A1 to end\n", 2),
    ("a open\n  range before v1 to end\n", 2),
    ("a open\n  range before 1 to END\n", 2),
    ("a open\n  range before 1 to before 2.0\n", 2),
    ("a open\n  range past 1.0 to end\n", 2),
    ("a open\n  range past 1a1 to end\n", 2),
    ("a open\n  range after 1 to end\n", 2),
    ("a open\n  range before 1 end\n", 2),
    ("a open\n  range before 1 to\n", 2),
    ("a open\n  range before 1 to end to end\n", 2),
    ("a open\n  range  before 1 to end\n", 2),
    ("a open\n  range before 1 to end", 2),
];

#[test]
fn lines_that_cannot_stand(rt: HostRuntime) {
    expect_bad_lines(&rt, &WHOLE);
    expect_bad_lines(&rt, &NAMES_AND_VERDICTS);
    expect_bad_lines(&rt, &FIRST_LINES);
    expect_bad_lines(&rt, &ITEMS);
    expect_bad_lines(&rt, &RANGES);
}

// ---- changes of one line of the table

// Appends lines, each with its line feed.
fn push_lines(text: &mut String, lines: &[&str]) -> Result<(), AllocError> {
    for line in lines {
        text.push_str(line)?;
        text.push_str("\n")?;
    }
    Ok(())
}

// The text of the lines, but with others in the place of some from this index on.
fn replaced(rt: &(impl Abort + AllocGlobal), from: usize, count: usize, others: &[&str]) -> String {
    let mut text = String::new(rt.alloc());
    for (index, line) in LINES.iter().enumerate() {
        if index == from {
            push_lines(&mut text, others).expect(rt, "room for lines");
        }
        if index < from || index >= from.saturating_add(count) {
            push_lines(&mut text, &[line]).expect(rt, "room for a line");
        }
    }
    text
}

// The line with this index, if there is one.
fn line_at(index: usize) -> &'static str {
    LINES.get(index).copied().unwrap_or("")
}

// The line that can't stand where others stand in the place of some from this index on.
fn bad_line_with(
    rt: &(impl Abort + AllocGlobal),
    from: usize,
    count: usize,
    others: &[&str],
) -> usize {
    bad_line(rt, replaced(rt, from, count, others).as_str())
}

// The same where something stands in front of a line, and behind it.
fn bad_line_between(
    rt: &(impl Abort + AllocGlobal),
    index: usize,
    front: &str,
    behind: &str,
) -> usize {
    let line = format!(in rt.alloc(); "{front}{}{behind}", line_at(index));
    let line = line.expect(rt, "room for a line");
    bad_line_with(rt, index, 1, &[line.as_str()])
}

// What is done with a line of the table.
enum Change {
    Nothing,
    LeftOut,
    Twice,
    // It is swapped with the next.
    Swapped,
    // Something stands in front of it and behind it.
    Between(&'static str, &'static str),
    // Another stands in its place.
    Instead(&'static str),
}

// The line that can't stand behind the change of the line with this index, 0 where the text is a table's.
fn bad_line_of(rt: &(impl Abort + AllocGlobal), change: &Change, index: usize) -> usize {
    let (line, next) = (line_at(index), line_at(index.saturating_add(1)));
    match *change {
        Change::Nothing => bad_line_with(rt, index, 0, &[]),
        Change::LeftOut => bad_line_with(rt, index, 1, &[]),
        Change::Twice => bad_line_with(rt, index, 1, &[line, line]),
        Change::Swapped => bad_line_with(rt, index, 2, &[next, line]),
        Change::Between(front, behind) => bad_line_between(rt, index, front, behind),
        Change::Instead(other) => bad_line_with(rt, index, 1, &[other]),
    }
}

// Changes of each line from an index on, and the lines that can't stand then.
const CHANGES: [(Change, usize, &[usize]); 15] = [
    (Change::Nothing, 0, &[0]),
    (Change::LeftOut, 0, &[1, 0, 0, 1, 1, 0, 0, 0, 9, 9, 0]),
    (Change::Twice, 0, &[2, 3, 4, 5, 6, 7, 8, 9, 10, 11, 12]),
    (Change::Swapped, 0, &[1, 3, 4, 5, 6, 7, 8, 10, 9, 9]),
    (Change::Between(" ", ""), 0, &EACH),
    (Change::Between("", " "), 0, &EACH),
    (Change::Between("", "\r"), 0, &EACH),
    // a line as one of another kind
    (Change::Instead("  url x"), 1, &[3]),
    (Change::Instead("  url y"), 2, &[4]),
    (Change::Instead("  extra https://x.test/1"), 3, &[4]),
    (Change::Instead("  text https://x.test/2"), 4, &[5]),
    (Change::Instead("  range 1.0"), 5, &[6]),
    (Change::Instead("  text before 0.dev0 to before 1"), 6, &[7]),
    (Change::Instead("  url after 1+x to end"), 7, &[8]),
    (Change::Instead("  text past 1 to end"), 9, &[10]),
];

// Each line itself.
const EACH: [usize; 11] = [1, 2, 3, 4, 5, 6, 7, 8, 9, 10, 11];

fn expect_change(rt: &(impl Abort + AllocGlobal), change: &Change, from: usize, wanted: &[usize]) {
    for (place, want) in wanted.iter().enumerate() {
        let index = from.saturating_add(place);
        let line = bad_line_of(rt, change, index);
        expect_same(rt, line_at(index), line, *want);
    }
}

#[test]
fn changed_lines(rt: HostRuntime) {
    for (change, from, wanted) in &CHANGES {
        expect_change(&rt, change, *from, wanted);
    }
}

// ---- beginnings of tables

// How many bytes the text has, if a table is read of it, and a mark if that has another text.
fn size_of_table(rt: &(impl Abort + AllocGlobal), text: &str) -> String {
    let size = match bad_line(rt, text) {
        0 => format!(in rt.alloc(); "{} ", text.len()),
        ANOTHER => format!(in rt.alloc(); "{}! ", text.len()),
        _ => return String::new(rt.alloc()),
    };
    size.expect(rt, "room for a size")
}

fn push_size(rt: &(impl Abort + AllocGlobal), sizes: &mut String, text: &str) {
    let size = size_of_table(rt, text);
    sizes.push_str(size.as_str()).expect(rt, "room for a size");
}

// How many bytes the beginnings of the text have that are texts of tables.
fn sizes_of_tables(rt: &(impl Abort + AllocGlobal), text: &str) -> String {
    let (mut beginning, mut sizes) = (String::new(rt.alloc()), String::new(rt.alloc()));
    for letter in text.chars() {
        push_size(rt, &mut sizes, beginning.as_str());
        beginning.push(letter).expect(rt, "room for a letter");
    }
    push_size(rt, &mut sizes, beginning.as_str());
    sizes
}

// The indices of lines behind which a table may end.
const ENDS: [usize; 6] = [4, 5, 6, 7, 9, 10];

// A number and a space.
fn spaced(rt: &(impl Abort + AllocGlobal), number: usize) -> String {
    format!(in rt.alloc(); "{number} ").expect(rt, "room for a number")
}

// How many bytes the lines have up to each of them, and none.
fn sizes_at_ends(rt: &(impl Abort + AllocGlobal)) -> String {
    let mut bytes = 0usize;
    let mut sizes = spaced(rt, 0);
    for (index, line) in LINES.iter().enumerate() {
        bytes = bytes.saturating_add(line.len()).saturating_add(1);
        if ENDS.contains(&index) {
            let size = spaced(rt, bytes);
            sizes.push_str(size.as_str()).expect(rt, "room for a size");
        }
    }
    sizes
}

fn sizes_of_the_table(rt: &(impl Abort + AllocGlobal)) -> String {
    sizes_of_tables(rt, replaced(rt, 0, 0, &[]).as_str())
}

#[test]
fn beginnings(rt: HostRuntime) {
    let sizes = sizes_of_the_table(&rt);
    expect(&rt, sizes.as_str(), sizes == sizes_at_ends(&rt));
    let sizes = sizes_of_tables(&rt, FLASK);
    expect_line(&rt, sizes.as_str(), "0 45 ");
    let whole = format!(in rt.alloc(); "{MACHINE_HEADER}{FLASK}").expect(&rt, "room for a text");
    let sizes = sizes_of_tables(&rt, whole.as_str());
    expect_line(&rt, sizes.as_str(), "0 356 401 ");
}

// ---- large tables

// The first lines of a table of one name: many of each kind but ranges.
fn items_without_ranges(rt: &(impl Abort + AllocGlobal)) -> String {
    let mut text = String::from_str(rt.alloc(), "a conflict\n").expect(rt, "room for a line");
    for kind in &["  extra n", "  url u", "  text "] {
        let pushed = push_numbered(rt.alloc(), &mut text, kind, 10_000..15_000, "\n");
        pushed.expect(rt, "room for lines");
    }
    text
}

// The text of a table of one name with many lines of each kind.
fn items_text(rt: &(impl Abort + AllocGlobal)) -> String {
    let mut text = items_without_ranges(rt);
    for number in 1_000..1_500 {
        let line = format!(in rt.alloc(); "  range before {number}.1 to before {number}.2\n");
        let line = line.expect(rt, "room for a line");
        text.push_str(line.as_str()).expect(rt, "room for a line");
    }
    text
}

// What is repeated 50,000 times, and what stands behind it.
const LONG_LINES: [(&str, &str); 8] = [
    ("a1", " conflict\n  extra "),
    ("a1", "\n  url "),
    ("a1", "\n  url "),
    ("a1", "b\n  text "),
    ("a1", "\n  range past "),
    ("1.", "1 to before "),
    ("1.", "2+"),
    ("a1", "\n"),
];

// The text of a table with lines of many bytes.
fn long_text(rt: &(impl Abort + AllocGlobal)) -> String {
    let mut text = String::new(rt.alloc());
    for &(part, behind) in &LONG_LINES {
        let more = repeated(rt.alloc(), "", part, 50_000, behind).expect(rt, "room for a line");
        text.push_str(more.as_str()).expect(rt, "room for a line");
    }
    text
}

// Each is the text of a table; a line that can't stand behind all of its lines is named.
fn expect_whole(rt: &(impl Abort + AllocGlobal), text: &mut String, other: &str, wanted: usize) {
    expect_same(rt, "the table", bad_line(rt, text.as_str()), 0);
    expect_same(rt, "a part", bad_line_of_part(rt, text.as_str()), 0);
    text.push_str(other).expect(rt, "room for a line");
    expect_same(rt, other, bad_line(rt, text.as_str()), wanted);
    expect_same(rt, other, bad_line_of_part(rt, text.as_str()), wanted);
}

#[test]
fn many_names(rt: HostRuntime) {
    expect_whole(
        &rt,
        &mut names_text(&rt, 10_000..13_000),
        "n1 none\n",
        6_001,
    );
}

#[test]
fn many_lines(rt: HostRuntime) {
    expect_whole(&rt, &mut items_text(&rt), "  extra z\n", 15_502);
}

#[test]
fn long_lines(rt: HostRuntime) {
    let text = long_text(&rt);
    assert!(rt; bad_line(&rt, text.as_str()) == 0);
}

// ---- tables of a seed, merged in two ways

// What may stand behind a name.
const DEMANDS: [&str; 12] = [
    "",
    ">=1.0",
    "<2",
    "!=1.5,!=1.6.*",
    "==1.*",
    "~=1.2",
    ">1.0.post1",
    "===1.0",
    "[x]",
    "[y,x]>=0.5",
    " @ https://x.test/1",
    "<=3.0",
];

const NAMES: [&str; 5] = ["a", "A.b", "a-B", "c", "d"];

// A line of them.
fn any(rt: &(impl Abort + AllocGlobal), numbers: &mut Numbers) -> Requirement {
    let name = numbers.one_of(&NAMES);
    let demand = numbers.one_of(&DEMANDS);
    let line = format!(in rt.alloc(); "{name}{demand}").expect(rt, "room for a line");
    requirement(rt, line.as_str())
}

fn list_of_any(rt: &(impl Abort + AllocGlobal), numbers: &mut Numbers) -> Vec<Requirement> {
    let mut list = Vec::new(rt.alloc());
    for _ in 0..numbers.below(5) {
        let one = any(rt, numbers);
        list.push(one).expect(rt, "room for a requirement");
    }
    list
}

// The table that a text of this table is read as.
fn read_back(rt: &(impl Abort + AllocGlobal), table: &Table) -> Table {
    table_of_text(rt, table_text(rt, table).as_str())
}

// The table and that of the requirements, printed and read back before and after they are joined.
fn joined_by_prints(
    rt: &(impl Abort + AllocGlobal),
    table: &Table,
    requirements: &[Requirement],
) -> Table {
    let next = read_back(rt, &known_table(rt, requirements));
    read_back(rt, &join_of(rt, &next, table))
}

// The table and that of a new list, which is appended to all lists.
fn with_list(
    rt: &(impl Abort + AllocGlobal),
    table: &Table,
    numbers: &mut Numbers,
    all: &mut Vec<Requirement>,
) -> Table {
    let mut list = list_of_any(rt, numbers);
    let joined = joined_by_prints(rt, table, list.as_slice());
    all.append(&mut list).expect(rt, "room for a list");
    joined
}

// The table of some lists, merged list by list with prints in between.
fn merged_in_turn(
    rt: &(impl Abort + AllocGlobal),
    numbers: &mut Numbers,
    all: &mut Vec<Requirement>,
) -> Table {
    let mut table = Table::empty(rt.alloc());
    for _ in 0..numbers.below(5) {
        table = with_list(rt, &table, numbers, all);
    }
    table
}

fn is_one_text(rt: &(impl Abort + AllocGlobal), one: &Table, other: &Table) -> bool {
    table_text(rt, one) == table_text(rt, other)
}

// Whether two merges of the same lines have one text: at once, and list by list.
fn is_one_merge(rt: &(impl Abort + AllocGlobal), numbers: &mut Numbers) -> bool {
    let mut all = Vec::new(rt.alloc());
    let in_turn = merged_in_turn(rt, numbers, &mut all);
    is_one_text(rt, &in_turn, &known_table(rt, all.as_slice()))
}

#[test]
fn merged_in_two_ways(rt: HostRuntime) {
    let mut numbers = Numbers { state: 20_261_123 };
    for turn in 0..300 {
        expect(&rt, turn, is_one_merge(&rt, &mut numbers));
    }
}

const MERGED: &str =
    "flask open\n  range before 2 to before 2.1\n  range before 2.1.post0.dev0 to before 3.dev0\n";

// What is read of lines and what a list demands, joined.
fn read_and_joined(rt: &(impl Abort + AllocGlobal), lines: &str, list: &str) -> Table {
    let read = table_of_text(rt, lines);
    join_of(rt, &read, &table(rt, &[list]))
}

#[test]
fn read_tables_are_joined(rt: HostRuntime) {
    let merged = read_and_joined(&rt, FLASK, "flask!=2.1");
    expect_line(&rt, lines_of(&rt, &merged).as_str(), MERGED);
}

const TWO_NAMES: &str = "a none\nb open\n  extra x\n  range before 1 to end\n";

// The lines of a table, a name, and the lines of what it has of the name.
const PARTS: [(&str, &str, &str); 6] = [
    ("", "a", ""),
    (FLASK, "Flask", FLASK),
    (FLASK, "flas", ""),
    (TWO_NAMES, "a", "a none\n"),
    (
        TWO_NAMES,
        "b",
        "b open\n  extra x\n  range before 1 to end\n",
    ),
    (TWO_NAMES, "c", ""),
];

#[test]
fn parts_of_one_name(rt: HostRuntime) {
    for &(text, name, wanted) in &PARTS {
        let found = part(&rt, text, name).expect(&rt, "a part of a table");
        expect_line(&rt, found.as_str(), wanted);
    }
}
