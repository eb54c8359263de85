//! The public calls over inputs, and what no words ask for: no input, and the extra of a project file.

use crate::tests::lines::{expect_line, expect_row};
use pep_marker::{Environment, Name};
use pep_require::Requirement;
use pep_table::{Answer, Table};
use pep_tool::{
    ArgumentFault, Fault, Input, Kind, ProjectFile, check_bytes, list_of, merge_bytes, project_of,
    text_of_line,
};
use pep_version::Version;
use std::process::Abort;
use tests_kit::{MACHINE, MACHINE_HEADER, STANDARD_HEADER};

/// An input's kind and its text.
pub(crate) type Part<'a> = (Kind, &'a str);

/// The environment of the machine.
pub(crate) fn machine(rt: &(impl Abort + AllocGlobal)) -> Environment {
    Environment::of(rt.alloc(), &MACHINE).expect(rt, "the machine")
}

// The input of a kind and a text.
fn input_of(rt: &(impl Abort + AllocGlobal), kind: Kind, text: &str) -> Input {
    let bytes = Vec::from_slice(rt.alloc(), text.as_bytes()).expect(rt, "room for bytes");
    Input {
        kind,
        bytes,
        group: None,
    }
}

/// The inputs of these kinds and texts.
pub(crate) fn inputs_of(rt: &(impl Abort + AllocGlobal), parts: &[Part]) -> Vec<Input> {
    let mut inputs = Vec::new(rt.alloc());
    for &(kind, text) in parts {
        inputs
            .push(input_of(rt, kind, text))
            .expect(rt, "room for an input");
    }
    inputs
}

/// The table of a list on the machine.
pub(crate) fn table_of(rt: &(impl Abort + AllocGlobal), list: &str) -> Table {
    let requirements = list_of(rt.alloc(), list.as_bytes()).expect(
        rt,
        "the requirements of a list",
    );
    let table = Table::of(rt.alloc(), requirements.as_slice(), &machine(rt));
    table.expect(rt, "a table")
}

// What stands behind the header of the machine, owned.
fn owned_lines(rt: &(impl Abort + AllocGlobal), text: &str) -> String {
    String::from_str(rt.alloc(), lines_behind(text)).expect(rt, "room for lines")
}

/// What stands behind the header of the machine in the text of the table.
pub(crate) fn lines_of(rt: &(impl Abort + AllocGlobal), table: &Table) -> String {
    let text = table.text(rt.alloc(), &machine(rt));
    owned_lines(rt, text.expect(rt, "the text of a table").as_str())
}

/// What stands behind the header of the machine in the text of a table.
pub(crate) fn lines_behind(text: &str) -> &str {
    text.strip_prefix(MACHINE_HEADER).unwrap_or("no header")
}

/// What stands there in the text, or the line of the fault.
pub(crate) fn lines_or_fault(
    rt: &(impl Abort + AllocGlobal),
    found: Result<String, Fault>,
) -> String {
    match found {
        Ok(text) => owned_lines(rt, text.as_str()),
        Err(fault) => fault_text(rt, &fault),
    }
}

/// The line that tells a fault to a program.
pub(crate) fn fault_text(rt: &(impl Abort + AllocGlobal), fault: &Fault) -> String {
    fault.text(rt.alloc()).expect(rt, "the line of a fault")
}

// The table of the inputs on the machine.
fn merged(rt: &(impl Abort + AllocGlobal), inputs: &[Input]) -> Result<String, Fault> {
    merge_bytes(rt.alloc(), inputs, &machine(rt))
}

// Its lines, or the line of the fault.
fn table_line(rt: &(impl Abort + AllocGlobal), parts: &[Part]) -> String {
    let inputs = inputs_of(rt, parts);
    lines_or_fault(rt, merged(rt, inputs.as_slice()))
}

const LIST: Part = (Kind::List, "Flask!=2.1\n");

const PROJECT: Part = (Kind::Project, "project.dependencies = ['flask>=2.0']");

const TABLE: Part = (
    Kind::Table,
    "flask open\n  range before 0.dev0 to before 3.dev0\n",
);

// Empty tables of the machine, and of another one.
const HERE: Part = (Kind::Table, MACHINE_HEADER);

const ELSEWHERE: Part = (Kind::Table, STANDARD_HEADER);

const FAULTY: Part = (Kind::List, "flask>=2.0\nFlask<\n");

const TABLES: [(&[Part], &str); 5] = [
    (&[], ""),
    (&[HERE, HERE], ""),
    (
        &[HERE, ELSEWHERE, FAULTY],
        "refused input 2 line 4 code 57 43\n",
    ),
    (
        &[LIST, PROJECT, TABLE],
        "flask open\n  range before 2 to before 2.1\n  range before 2.1.post0.dev0 to before 3.dev0\n",
    ),
    (&[TABLE, FAULTY], "refused input 2 line 2 code 57 33 12\n"),
];

// Asserts the table of each row.
fn expect_tables(rt: &(impl Abort + AllocGlobal), rows: &[(&[Part], &str)]) {
    for &(parts, want) in rows {
        let found = table_line(rt, parts);
        expect_line(rt, found.as_str(), want);
    }
}

#[test]
fn tables(rt: HostRuntime) {
    expect_tables(&rt, &TABLES);
}

// Whether the version of flask meets what the inputs demand on the machine.
fn flask_meets(
    rt: &(impl Abort + AllocGlobal),
    inputs: &[Input],
    version: &Version,
    want_pre: bool,
) -> Result<Answer, Fault> {
    let name = Name::read(rt.alloc(), "Flask").expect(rt, "a name");
    let machine = machine(rt);
    check_bytes(rt.alloc(), inputs, &machine, &name, version, want_pre)
}

fn answer(
    rt: &(impl Abort + AllocGlobal),
    parts: &[Part],
    version: &str,
    want_pre: bool,
) -> Result<Answer, Fault> {
    let inputs = inputs_of(rt, parts);
    match Version::read(rt.alloc(), version) {
        Ok(version) => flask_meets(rt, inputs.as_slice(), &version, want_pre),
        Err(fault) => Err(Fault::of_argument(ArgumentFault::Version(fault))),
    }
}

// The same as it is written, or the line of the fault.
fn answer_line(
    rt: &(impl Abort + AllocGlobal),
    parts: &[Part],
    version: &str,
    want_pre: bool,
) -> String {
    match answer(rt, parts, version, want_pre) {
        Ok(answer) => format!(in rt.alloc(); "{answer:?}").expect(rt, "room for an answer"),
        Err(fault) => fault_text(rt, &fault),
    }
}

const ANSWERS: [(&[Part], &str, bool, &str); 8] = [
    (&[], "1.0", false, "Yes"),
    (&[HERE], "1.0", false, "Yes"),
    (
        &[ELSEWHERE, FAULTY],
        "1.0",
        false,
        "refused input 1 line 4 code 57 43\n",
    ),
    (&[LIST, PROJECT, TABLE], "2.2", false, "Yes"),
    (&[LIST, PROJECT, TABLE], "2.1", true, "No"),
    (&[LIST, PROJECT, TABLE], "2.3rc1", false, "No"),
    (&[LIST, PROJECT, TABLE], "2.3rc1", true, "Yes"),
    (
        &[LIST, FAULTY],
        "2.2",
        false,
        "refused input 2 line 2 code 57 33 12\n",
    ),
];

// Asserts the answer of each row.
fn expect_answers(rt: &(impl Abort + AllocGlobal), rows: &[(&[Part], &str, bool, &str)]) {
    for &(parts, version, want_pre, want) in rows {
        let found = answer_line(rt, parts, version, want_pre);
        expect_line(rt, found.as_str(), want);
    }
}

#[test]
fn answers(rt: HostRuntime) {
    expect_answers(&rt, &ANSWERS);
}

// Appends a line.
fn push_line(rt: &impl Abort, text: &mut String, line: &str) {
    text.push_str(line).expect(rt, "room for a line");
    text.push_str("\n").expect(rt, "room for a line feed");
}

// The texts of the requirements, one a line.
fn lines(rt: &(impl Abort + AllocGlobal), requirements: &[Requirement]) -> String {
    let mut text = String::new(rt.alloc());
    for requirement in requirements {
        let line = requirement
            .text(rt.alloc())
            .expect(rt, "the text of a requirement");
        push_line(rt, &mut text, line.as_str());
    }
    text
}

// The same, or the line of the fault.
fn texts(rt: &(impl Abort + AllocGlobal), requirements: Result<Vec<Requirement>, Fault>) -> String {
    match requirements {
        Ok(requirements) => lines(rt, requirements.as_slice()),
        Err(fault) => fault_text(rt, &fault),
    }
}

const LISTS: [(&str, &str); 3] = [
    ("", ""),
    (
        "# note\n\n a >= 1 \r\nB[x]; os_name == 'nt'\nb[x]",
        "a>=1\nb[x] ; os_name == \"nt\"\nb[x]\n",
    ),
    ("a\nb>=\n-c\n", "refused input 1 line 2 code 57 33 12\n"),
];

fn list_line(rt: &(impl Abort + AllocGlobal), list: &str) -> String {
    texts(rt, list_of(rt.alloc(), list.as_bytes()))
}

#[test]
fn requirements_of_lists(rt: HostRuntime) {
    for &(list, want) in &LISTS {
        let found = list_line(&rt, list);
        expect_line(&rt, found.as_str(), want);
    }
}

const TWO_ARRAYS: &str = "project.optional-dependencies = {x = ['a<2', 'b'], 'Y.z' = ['a<3']}\n\
    project.dependencies = ['a>=1']\n";

// A project file, an extra, and its requirements, in the order of the arrays and none left out.
const PROJECTS: [(&str, &str, &str); 7] = [
    ("[project]", "", ""),
    (TWO_ARRAYS, "", "a>=1\n"),
    (TWO_ARRAYS, "x", "a>=1\na<2\nb\n"),
    (TWO_ARRAYS, "Y_z", "a>=1\na<3\n"),
    (
        "project.dependencies = ['B[x]>=1', 'A', 'b [X] (>=1)', 'a; \"dog\" ~= \"fred\"']",
        "x",
        "b[x]>=1\na\nb[x]>=1\na ; \"dog\" ~= \"fred\"\n",
    ),
    (
        "project.dependencies = ['a', '-']",
        "",
        "refused input 1 line 2 code 57 37\n",
    ),
    ("", "x", "refused input 1 code 53\n"),
];

fn project_line(rt: &(impl Abort + AllocGlobal), project: &str, extra: &str) -> String {
    texts(rt, project_of(rt.alloc(), project.as_bytes(), extra, None))
}

#[test]
fn requirements_of_projects(rt: HostRuntime) {
    for &(project, extra, want) in &PROJECTS {
        let found = project_line(&rt, project, extra);
        expect_row(&rt, project, found.as_str(), want);
    }
}

// An extra, and the texts that a file is asked for with it, each on a line.
const ASKED: [(&str, &str); 3] = [
    ("", "a>=1\n"),
    ("X", "a>=1\na<2\nb\n"),
    ("Y_z", "a>=1\na<3\n"),
];

fn asked_lines(rt: &(impl Abort + AllocGlobal), file: &ProjectFile, extra: &str) -> String {
    let texts = file
        .texts(rt.alloc(), extra, None)
        .expect(rt, "the texts of a file");
    let mut lines = String::new(rt.alloc());
    for text in texts.as_slice() {
        push_line(rt, &mut lines, text);
    }
    lines
}

#[test]
fn texts_of_a_file(rt: HostRuntime) {
    let file = ProjectFile::read(rt.alloc(), TWO_ARRAYS.as_bytes()).expect(&rt, "a project file");
    for &(extra, want) in &ASKED {
        let found = asked_lines(&rt, &file, extra);
        expect_row(&rt, extra, found.as_str(), want);
    }
}

// Lines of lists, and the texts of their requirements.
const TEXTS_ON: [(&str, &str); 4] = [
    (" a [ x ] \r", "a [ x ]"),
    ("?", "?"),
    ("\t# a", "none"),
    ("", "none"),
];

fn text_on(line: &str) -> &str {
    match text_of_line(line.as_bytes()) {
        Ok(text) => text.unwrap_or("none"),
        Err(_) => "refused",
    }
}

#[test]
fn texts_on_lines(rt: HostRuntime) {
    for &(line, want) in &TEXTS_ON {
        expect_row(&rt, line, text_on(line), want);
    }
}

// A group of a project file, and its requirements or the line of the fault.
const GROUPS: [(&str, &str, &str); 4] = [
    (
        "dependency-groups = {A = ['x', {include-group = 'b.c'}, 'y'], 'B_C' = ['z']}",
        "a",
        "x\nz\ny\n",
    ),
    (
        "dependency-groups = {a = [{include-group = 'b'}], b = ['x', {include-group = 'A'}]}",
        "b",
        "refused input 1 code 67\n",
    ),
    (
        "dependency-groups = {a = [], A = []}",
        "b",
        "refused input 1 code 66\n",
    ),
    (
        "project.dependencies = ['x']",
        "a",
        "refused input 1 code 65\n",
    ),
];

fn group_line(rt: &(impl Abort + AllocGlobal), project: &str, group: &str) -> String {
    let group = Name::read(rt.alloc(), group).expect(rt, "a name");
    texts(
        rt,
        project_of(rt.alloc(), project.as_bytes(), "", Some(&group)),
    )
}

#[test]
fn requirements_of_groups(rt: HostRuntime) {
    for &(project, group, want) in &GROUPS {
        let found = group_line(&rt, project, group);
        expect_row(&rt, project, found.as_str(), want);
    }
}
