//! Tables of requirements: their lines, verdicts and answers, and what joining them gives.

use crate::tests::lines::{expect, expect_line, expect_row, expect_same};
use pep_clause::VersionSet;
use pep_marker::{Environment, Name};
use pep_require::Requirement;
use pep_table::{
    Answer, Entry, Gathering, Join, Kept, Sorted, Table, TableFault, Verdict, join_all,
};
use pep_version::Version;
use std::alloc::AllocError;
use std::process::Abort;
use tests_kit::{MACHINE, MACHINE_HEADER};

/// The requirement of a line, which is one.
pub(crate) fn requirement(rt: &(impl Abort + AllocGlobal), line: &str) -> Requirement {
    Requirement::read(rt.alloc(), line).expect(rt, "a requirement")
}

/// The environment of the machine.
pub(crate) fn machine(rt: &(impl Abort + AllocGlobal)) -> Environment {
    Environment::of(rt.alloc(), &MACHINE).expect(rt, "the environment of the machine")
}

/// The table of requirements on the machine, or why there is none.
pub(crate) fn table_of(
    rt: &(impl Abort + AllocGlobal),
    requirements: &[Requirement],
) -> Result<Table, TableFault> {
    Table::of(rt.alloc(), requirements, &machine(rt))
}

/// The table of requirements on the machine, which have one.
pub(crate) fn known_table(rt: &(impl Abort + AllocGlobal), requirements: &[Requirement]) -> Table {
    table_of(rt, requirements).expect(rt, "a table of requirements")
}

/// Appends the requirement of a line, which is one.
pub(crate) fn push_requirement(
    rt: &(impl Abort + AllocGlobal),
    requirements: &mut Vec<Requirement>,
    line: &str,
) {
    let one = requirement(rt, line);
    requirements.push(one).expect(rt, "room for a requirement");
}

fn requirements(rt: &(impl Abort + AllocGlobal), lines: &[&str]) -> Vec<Requirement> {
    let mut requirements = Vec::new(rt.alloc());
    for line in lines {
        push_requirement(rt, &mut requirements, line);
    }
    requirements
}

// The table of requirement lines, each of which is one, or why there is none.
fn table_or_fault(rt: &(impl Abort + AllocGlobal), lines: &[&str]) -> Result<Table, TableFault> {
    table_of(rt, requirements(rt, lines).as_slice())
}

/// The table of requirement lines, each of which is one.
pub(crate) fn table(rt: &(impl Abort + AllocGlobal), lines: &[&str]) -> Table {
    known_table(rt, requirements(rt, lines).as_slice())
}

/// The name of a text, which is one.
pub(crate) fn name(rt: &(impl Abort + AllocGlobal), text: &str) -> Name {
    Name::read(rt.alloc(), text).expect(rt, "a name")
}

/// The entry of a name, which the table has.
pub(crate) fn entry<'t>(
    rt: &(impl Abort + AllocGlobal),
    table: &'t Table,
    text: &str,
) -> &'t Entry {
    table.get(&name(rt, text)).expect(rt, "the entry of a name")
}

// What stands behind the header of the machine.
fn behind_header(rt: &(impl Abort + AllocGlobal), text: &str) -> String {
    let lines = text.strip_prefix(MACHINE_HEADER).unwrap_or("no header");
    String::from_str(rt.alloc(), lines).expect(rt, "room for lines")
}

/// The text of the table on the machine.
pub(crate) fn table_text(rt: &(impl Abort + AllocGlobal), table: &Table) -> String {
    let text = table.text(rt.alloc(), &machine(rt));
    text.expect(rt, "the text of a table")
}

/// The table that is read of a text on the machine, or why there is none.
pub(crate) fn read_on_machine(
    rt: &(impl Abort + AllocGlobal),
    text: &str,
) -> Result<Table, TableFault> {
    Table::read(rt.alloc(), text, &machine(rt))
}

/// The table that is read of its text or of its lines on the machine.
pub(crate) fn table_of_text(rt: &(impl Abort + AllocGlobal), text: &str) -> Table {
    read_on_machine(rt, text).expect(rt, "the text of a table")
}

/// What stands behind the header of the machine in the text of a table that was made there.
pub(crate) fn lines_of(rt: &(impl Abort + AllocGlobal), table: &Table) -> String {
    behind_header(rt, table_text(rt, table).as_str())
}

/// The copy of a table.
pub(crate) fn copy_of(rt: &(impl Abort + AllocGlobal), table: &Table) -> Table {
    table.copied(rt.alloc()).expect(rt, "the copy of a table")
}

/// The join of two tables.
pub(crate) fn join_of(rt: &(impl Abort + AllocGlobal), table: &Table, other: &Table) -> Table {
    let join = table.joined(rt.alloc(), other);
    join.expect(rt, "the join of two tables")
}

// What is demanded so far, and by the requirement.
fn taken_requirement(
    rt: &(impl Abort + AllocGlobal),
    gathering: Gathering,
    machine: &Environment,
    requirement: &Requirement,
) -> Gathering {
    let more = gathering.take_applying(rt.alloc(), requirement, machine);
    more.expect(rt, "a requirement that is taken")
}

/// What is demanded so far, and by the line.
pub(crate) fn taken(
    rt: &(impl Abort + AllocGlobal),
    gathering: Gathering,
    machine: &Environment,
    line: &str,
) -> Gathering {
    let requirement = requirement(rt, line);
    taken_requirement(rt, gathering, machine, &requirement)
}

// The lines of what is gathered, where no table is made of it.
fn gathered_lines(rt: &(impl Abort + AllocGlobal), lines: &[&str]) -> String {
    let machine = machine(rt);
    let mut gathering = Gathering::new(rt.alloc());
    for line in lines {
        gathering = taken(rt, gathering, &machine, line);
    }
    let text = gathering.text(rt.alloc(), &machine);
    behind_header(rt, text.expect(rt, "the text of a table").as_str())
}

// Why there is no table.
fn refusal(rt: &(impl Abort + AllocGlobal), fault: TableFault) -> String {
    let code = fault.code();
    format!(in rt.alloc(); "refused {code}: {fault}").expect(rt, "room for a fault")
}

// The lines of the table of the requirement lines, or why there is none.
fn table_line(rt: &(impl Abort + AllocGlobal), lines: &[&str]) -> String {
    match table_or_fault(rt, lines) {
        Ok(table) => both_lines(rt, &table, lines),
        Err(fault) => refusal(rt, fault),
    }
}

// The lines of the table, which are those of what is gathered of the requirement lines.
fn both_lines(rt: &(impl Abort + AllocGlobal), table: &Table, lines: &[&str]) -> String {
    let text = lines_of(rt, table);
    let gathered = gathered_lines(rt, lines);
    if text.as_str() == gathered.as_str() {
        text
    } else {
        format!(in rt.alloc(); "{text}, gathered as {gathered}").expect(rt, "room for lines")
    }
}

// Requirement lines, and the lines of their table.
const TEXTS: [(&[&str], &str); 26] = [
    (&[], ""),
    (
        &WHOLE,
        "flask open\n  range before 2 to before 3.dev0\nx open\n  extra y\n  range before 0.dev0 to end\n\
        z open\n  text 1.0\n  range before 0.dev0 to end\n",
    ),
    (
        &["flask>=2.0", "Flask<3"],
        "flask open\n  range before 2 to before 3.dev0\n",
    ),
    (
        &["Flask<3", "flask>=2.0", "flask>=2.0"],
        "flask open\n  range before 2 to before 3.dev0\n",
    ),
    (&["a>1.0a5,<1.0a6.dev0"], "a none\n"),
    (
        &["a!=1.0"],
        "a open\n  range before 0.dev0 to before 1\n  range before 1.post0.dev0 to end\n",
    ),
    (&["a==1.0+x", "a!=1.0+x"], "a none\n"),
    (&["a>1", "a<2"], "a open\n  range past 1 to before 2.dev0\n"),
    (
        &["a>=1", "a>=1.0.0.0.1", "a<=2", "a>0.5"],
        "a open\n  range before 1.0.0.0.1 to before 2.post0.dev0\n",
    ),
    (
        &["a<1!0", "a>=33554432", "a<33554433", "a!=33554432.1"],
        "a open\n  range before 33554432 to before 33554432.1\n  range before 33554432.1.post0.dev0 to before 33554433.dev0\n",
    ),
    (
        &["b>=1.1", "a<2", "b<1.1"],
        "a open\n  range before 0.dev0 to before 2.dev0\nb none\n",
    ),
    (
        &["a", "a.b", "a-b", "A_B"],
        "a open\n  range before 0.dev0 to end\na-b open\n  range before 0.dev0 to end\n",
    ),
    (
        &["Foo_Bar[X.y, x-Y] >= 1"],
        "foo-bar open\n  extra x-y\n  range before 1 to end\n",
    ),
    (
        &["a[z]", "a[b,z]"],
        "a open\n  extra b\n  extra z\n  range before 0.dev0 to end\n",
    ),
    (
        &["a===1.0"],
        "a open\n  text 1.0\n  range before 0.dev0 to end\n",
    ),
    (
        &["a===1.0", "a===1.00"],
        "a none\n  text 1.0\n  text 1.00\n  range before 0.dev0 to end\n",
    ),
    (
        &["a===1,===2,===3,===4,===5,===6"],
        "a none\n  text 1\n  text 2\n  text 3\n  text 4\n  text 5\n  text 6\n  range before 0.dev0 to end\n",
    ),
    (
        &["a==1+x,!=2+x,!=3+x,!=4+x,!=5+x,!=6+x"],
        "a open\n  range before 1+x to after 1+x\n",
    ),
    (
        &["a[x] @ https://x.test/1"],
        "a open\n  extra x\n  url https://x.test/1\n  range before 0.dev0 to end\n",
    ),
    (
        &["a===FOO"],
        "a none\n  text foo\n  range before 0.dev0 to end\n",
    ),
    (
        &["a===1.0,>=1.1"],
        "a none\n  text 1.0\n  range before 1.1 to end\n",
    ),
    (
        &["a @ HTTPS://x.test/1", "a @ https://x.test/1"],
        "a open\n  url https://x.test/1\n  range before 0.dev0 to end\n",
    ),
    (&["a; python_version >= \"3.10\""], ""),
    (
        &["a>=1; os_name == 'posix'", "a<2; os_name == 'nt'"],
        "a open\n  range before 1 to end\n",
    ),
    (
        &["a; \"dog\" ~= \"fred\"", "b"],
        "refused 28: requirement 1: an undefined marker",
    ),
    (
        &["a", "b; os_name == \"zz\" and \"dog\" ~= \"fred\""],
        "refused 28: requirement 2: an undefined marker",
    ),
];

#[test]
fn texts(rt: HostRuntime) {
    for &(lines, want) in &TEXTS {
        let line = table_line(&rt, lines);
        expect_row(&rt, want, line.as_str(), want);
    }
}

const CONFLICT: &str = "a conflict\n  url https://x.test/1\n  url https://x.test/2\n  range before \
    0.dev0 to end\n";

// The join of the tables of two lines.
fn joined(rt: &(impl Abort + AllocGlobal), line: &str, other: &str) -> Table {
    let one = table(rt, &[line]);
    join_of(rt, &one, &table(rt, &[other]))
}

const URLS: [&str; 2] = ["a @ https://x.test/1", "a @ https://x.test/2"];

#[test]
fn conflicts(rt: HostRuntime) {
    let both = joined(&rt, URLS[0], URLS[1]);
    let lines = lines_of(&rt, &both);
    expect_line(&rt, lines.as_str(), CONFLICT);
    assert!(rt; joined(&rt, URLS[1], URLS[0]) == both);
}

/// The verdict on `a`.
pub(crate) fn verdict(rt: &(impl Abort + AllocGlobal), table: &Table) -> Option<Verdict> {
    let verdict = table.verdict(rt.alloc(), &name(rt, "a"));
    verdict.expect(rt, "room for a verdict")
}

// The join of a conflict and of a table that has none.
fn later(rt: &(impl Abort + AllocGlobal)) -> Table {
    let both = joined(rt, URLS[0], URLS[1]);
    let other = table(rt, &["a>=1", "a @ https://x.test/1", "b"]);
    join_of(rt, &both, &other)
}

#[test]
fn conflicts_stay(rt: HostRuntime) {
    let later = later(&rt);
    assert!(rt; verdict(&rt, &later) == Some(Verdict::Conflict));
}

// The lines of tables that are joined, and of the join.
const JOINED: [&[&str]; 3] = [
    &["Flask<3", "x[y]"],
    &["flask>=2.0", "z===1.0"],
    &["flask>=2.0"],
];

const WHOLE: [&str; 4] = ["z===1.0", "flask>=2.0", "x[y]", "flask<3"];

fn tables(rt: &(impl Abort + AllocGlobal)) -> Vec<Table> {
    let mut tables = Vec::new(rt.alloc());
    for lines in &JOINED {
        tables.push(table(rt, lines)).expect(rt, "room for a table");
    }
    tables
}

/// The join of the tables.
pub(crate) fn all_joined(rt: &(impl Abort + AllocGlobal), tables: &[Table]) -> Table {
    let join = join_all(rt.alloc(), Table::empty(rt.alloc()), tables.iter());
    join.expect(rt, "the join of tables")
}

/// The same from the last to the first.
pub(crate) fn all_joined_back(rt: &(impl Abort + AllocGlobal), tables: &[Table]) -> Table {
    let join = join_all(rt.alloc(), Table::empty(rt.alloc()), tables.iter().rev());
    join.expect(rt, "the join of tables")
}

#[test]
fn different_tables(rt: HostRuntime) {
    let tables = tables(&rt);
    assert!(rt; tables.len() == 3);
    assert!(rt; tables[1] != tables[2]);
}

/// What is demanded so far, and by the table.
pub(crate) fn taken_table(
    rt: &(impl Abort + AllocGlobal),
    gathering: Gathering,
    table: &Table,
) -> Gathering {
    let more = gathering.take_table(rt.alloc(), copy_of(rt, table));
    more.expect(rt, "room for a table")
}

/// The table of what is gathered.
pub(crate) fn finished(rt: &(impl Abort + AllocGlobal), gathering: Gathering) -> Table {
    gathering.finish(rt.alloc()).expect(rt, "a gathered table")
}

/// What the tables demand, gathered one by one.
pub(crate) fn gathered(rt: &(impl Abort + AllocGlobal), tables: &[Table]) -> Table {
    let mut gathering = Gathering::new(rt.alloc());
    for table in tables {
        gathering = taken_table(rt, gathering, table);
    }
    finished(rt, gathering)
}

// The join of a table and of all tables.
fn joined_with_all(rt: &(impl Abort + AllocGlobal), whole: &Table, tables: &[Table]) -> Table {
    let all = all_joined(rt, tables);
    join_of(rt, whole, &all)
}

// The join of all tables, by one of five ways. The last two begin with the table of all lines.
fn made(rt: &(impl Abort + AllocGlobal), way: &str, whole: &Table, tables: &[Table]) -> Table {
    match way {
        "joined" => all_joined(rt, tables),
        "joined from behind" => all_joined_back(rt, tables),
        "gathered" => gathered(rt, tables),
        "joined with all" => joined_with_all(rt, whole, tables),
        _ => copy_of(rt, whole),
    }
}

const WAYS: [&str; 5] = [
    "joined",
    "joined from behind",
    "gathered",
    "joined with all",
    "copied",
];

#[test]
fn joins(rt: HostRuntime) {
    let whole = table(&rt, &WHOLE);
    let tables = tables(&rt);
    for way in &WAYS {
        let made = made(&rt, way, &whole, tables.as_slice());
        expect(&rt, way, made == whole);
    }
}

// ---- entries

// Appends the text in brackets.
fn push_item(line: &mut String, text: &str) -> Result<(), AllocError> {
    line.push_str("[")?;
    line.push_str(text)?;
    line.push_str("]")
}

// Appends what the values are, and the text of each in brackets.
fn push_items<T: Kept>(rt: &impl Abort, line: &mut String, what: &str, values: &Sorted<T>) {
    line.push_str(what).expect(rt, "room for a text");
    for item in values.items() {
        push_item(line, item.as_text()).expect(rt, "room for a value");
    }
}

// Appends how many ranges an entry has.
fn push_count(rt: &(impl Abort + AllocGlobal), line: &mut String, entry: &Entry) {
    let count = entry.versions().ranges().len();
    let text = format!(in rt.alloc(); " ranges {count}").expect(rt, "room for a number");
    line.push_str(text.as_str()).expect(rt, "room for a number");
}

// The extras, URLs and texts of an entry, and how many ranges it has.
fn shown(rt: &(impl Abort + AllocGlobal), entry: &Entry) -> String {
    let mut line = String::new(rt.alloc());
    push_items(rt, &mut line, "extras", entry.extras());
    push_items(rt, &mut line, " urls", entry.urls());
    push_items(rt, &mut line, " texts", entry.texts());
    push_count(rt, &mut line, entry);
    line
}

const ENTRIES: [&str; 3] = ["a[y,x]>=1,===1.0", "b @ https://x.test/1", "c"];

fn entry_of_line(rt: &(impl Abort + AllocGlobal), table: &Table, text: &str) -> String {
    match table.get(&name(rt, text)) {
        Some(entry) => shown(rt, entry),
        None => String::from_str(rt.alloc(), "no entry").expect(rt, "room for a text"),
    }
}

// Names, and what is demanded of them.
const DEMANDED: [(&str, &str); 3] = [
    ("A", "extras[x][y] urls texts[1.0] ranges 1"),
    ("b", "extras urls[https://x.test/1] texts ranges 1"),
    ("d", "no entry"),
];

#[test]
fn entries(rt: HostRuntime) {
    let table = table(&rt, &ENTRIES);
    for &(name, want) in &DEMANDED {
        let line = entry_of_line(&rt, &table, name);
        expect_row(&rt, name, line.as_str(), want);
    }
}

/// Whether the copy of an entry is equal to it.
pub(crate) fn is_copied_entry(rt: &(impl Abort + AllocGlobal), entry: &Entry) -> bool {
    entry.copied(rt.alloc()).expect(rt, "the copy of an entry") == *entry
}

/// The join of two entries.
pub(crate) fn join_of_entries(
    rt: &(impl Abort + AllocGlobal),
    entry: &Entry,
    other: &Entry,
) -> Entry {
    let join = entry.joined(rt.alloc(), other);
    join.expect(rt, "the join of two entries")
}

// The join of the entries of `a` and `b`.
fn joined_entry(rt: &(impl Abort + AllocGlobal), table: &Table) -> Entry {
    join_of_entries(rt, entry(rt, table, "a"), entry(rt, table, "b"))
}

// The entry, whether it is another than that of `a`, and whether its copy is equal to it.
fn compared_line(rt: &(impl Abort + AllocGlobal), table: &Table, both: &Entry) -> String {
    let is_another = *both != *entry(rt, table, "a");
    let is_same = is_copied_entry(rt, both);
    let text = shown(rt, both);
    let line = format!(in rt.alloc(); "{text} {is_another} {is_same}");
    line.expect(rt, "room for an entry")
}

// The same of the join of the entries of `a` and `b`.
fn joined_entry_line(rt: &(impl Abort + AllocGlobal), table: &Table) -> String {
    compared_line(rt, table, &joined_entry(rt, table))
}

#[test]
fn joined_entries(rt: HostRuntime) {
    let table = table(&rt, &ENTRIES);
    let line = joined_entry_line(&rt, &table);
    let want = "extras[x][y] urls[https://x.test/1] texts[1.0] ranges 1 true true";
    expect_line(&rt, line.as_str(), want);
}

// The extras of `a` and of `b`, joined.
fn joined_extras(rt: &(impl Abort + AllocGlobal), lines: &[&str]) -> Sorted<Name> {
    let table = table(rt, lines);
    let extras = entry(rt, &table, "a").extras();
    let join = extras.joined(rt.alloc(), entry(rt, &table, "b").extras());
    join.expect(rt, "the join of extras")
}

// Whether a copy of the values is equal to them.
fn is_copied(rt: &(impl Abort + AllocGlobal), values: &Sorted<Name>) -> bool {
    values.copied(rt.alloc()).expect(rt, "the copy of values") == *values
}

// The values, and whether a copy is equal to them.
fn sorted_line(rt: &(impl Abort + AllocGlobal), values: &Sorted<Name>) -> String {
    let mut line = String::new(rt.alloc());
    push_items(rt, &mut line, "", values);
    let is_same = is_copied(rt, values);
    format!(in rt.alloc(); "{line} {is_same}").expect(rt, "room for values")
}

#[test]
fn sorted_values(rt: HostRuntime) {
    let union = joined_extras(&rt, &["a[y,x]", "b[z,x]"]);
    let line = sorted_line(&rt, &union);
    expect_line(&rt, line.as_str(), "[x][y][z] true");
    assert!(rt; Sorted::<String>::new(rt.alloc()).items().is_empty());
}

#[test]
fn kept_values(rt: HostRuntime) {
    let text = String::from_str(rt.alloc(), "1.0").expect(&rt, "room for a text");
    let kept = text.kept(rt.alloc()).expect(&rt, "the copy of a text");
    assert!(rt; kept.as_str() == "1.0");
    let a = name(&rt, "a");
    assert!(rt; a.kept(rt.alloc()).expect(&rt, "the copy of a name") == a);
}

#[test]
fn joined_versions(rt: HostRuntime) {
    let all = VersionSet::all(rt.alloc()).expect(&rt, "the set of all versions");
    let none = VersionSet::none(rt.alloc());
    let join = Join::joined(&all, rt.alloc(), &none);
    assert!(rt; join.expect(&rt, "the join of two sets").is_empty());
}

// Lines, a version of `a`, whether pre-releases are wanted, and the answer.
const ANSWERS: [(&[&str], &str, bool, Answer); 14] = [
    (&["a>1.7"], "1.7.1", false, Answer::Yes),
    (&["a>1.7"], "1.7.0.post1", false, Answer::No),
    (&["a>1.7"], "1.7+x", false, Answer::No),
    (&["a===1.0"], "1.0", false, Answer::Yes),
    (&["a===1.0"], "1.0.0", false, Answer::No),
    (&["a===1.0"], "1.0+x", false, Answer::No),
    (&["a>=1.0"], "2.0rc1", false, Answer::No),
    (&["a>=1.0"], "2.0rc1", true, Answer::Yes),
    (&["a<1.0.post1"], "1.0a1", true, Answer::Yes),
    (&["a<1.0.post1"], "1.0.post1.dev3", true, Answer::No),
    (&["b"], "1.0rc1", false, Answer::No),
    (&["b"], "1.0rc1", true, Answer::Yes),
    (&["a===1.0", "a===1.00"], "1.0", false, Answer::No),
    (
        &["a @ https://x.test/1", "a @ https://x.test/2"],
        "1.0",
        false,
        Answer::Conflict,
    ),
];

/// Whether a version of `a` meets what the lines demand.
pub(crate) fn answer(
    rt: &(impl Abort + AllocGlobal),
    lines: &[&str],
    version: &str,
    want_pre: bool,
) -> Answer {
    let version = Version::read(rt.alloc(), version).expect(rt, "a version");
    answer_of(rt, &table(rt, lines), &version, want_pre)
}

// Whether the version of `a` meets what the table demands.
fn answer_of(
    rt: &(impl Abort + AllocGlobal),
    table: &Table,
    version: &Version,
    want_pre: bool,
) -> Answer {
    let answer = table.admits(rt.alloc(), &name(rt, "a"), version, want_pre);
    answer.expect(rt, "room for an answer")
}

#[test]
fn answers(rt: HostRuntime) {
    for &(lines, version, want_pre, wanted) in &ANSWERS {
        let answer = answer(&rt, lines, version, want_pre);
        expect_same(&rt, version, answer, wanted);
    }
}

// Lines, and the verdict on `a`.
const VERDICTS: [(&[&str], Option<Verdict>); 6] = [
    (&["b"], None),
    (&["a"], Some(Verdict::Possible)),
    (&["a===1.0", "a<2"], Some(Verdict::Possible)),
    (&["a===1.0", "a>2"], Some(Verdict::Nothing)),
    (&["a===1.0", "a===1.00"], Some(Verdict::Nothing)),
    (&["a<1", "a>1"], Some(Verdict::Nothing)),
];

fn verdict_of(rt: &(impl Abort + AllocGlobal), lines: &[&str]) -> Option<Verdict> {
    verdict(rt, &table(rt, lines))
}

#[test]
fn verdicts(rt: HostRuntime) {
    for &(lines, wanted) in &VERDICTS {
        let verdict = verdict_of(&rt, lines);
        expect_same(&rt, lines, verdict, wanted);
    }
}
