//! The plans that words are.

use crate::tests::calls::fault_text;
use crate::tests::lines::expect_line;
use pep_tool::{Fault, Plan, plan_of};
use std::process::Abort;

/// The words, owned.
pub(crate) fn owned(rt: &(impl Abort + AllocGlobal), words: &[&str]) -> Vec<String> {
    let mut list = Vec::new(rt.alloc());
    for word in words {
        let word = String::from_str(rt.alloc(), word).expect(rt, "room for a word");
        list.push(word).expect(rt, "room for words");
    }
    list
}

// A plan as it is written for people.
fn written(rt: &(impl Abort + AllocGlobal), plan: &Plan) -> String {
    format!(in rt.alloc(); "{plan:?}").expect(rt, "room for a plan")
}

// The same, or the line of the fault.
fn written_or_fault(rt: &(impl Abort + AllocGlobal), plan: Result<Plan, Fault>) -> String {
    match plan {
        Ok(plan) => written(rt, &plan),
        Err(fault) => fault_text(rt, &fault),
    }
}

// The same of the plan of the words.
fn plan_line(rt: &(impl Abort + AllocGlobal), words: &[&str]) -> String {
    let words = owned(rt, words);
    written_or_fault(rt, plan_of(rt.alloc(), words.as_slice()))
}

// A check of one file, and one of two that takes pre-releases.
const PLAIN: &str =
    "Check { env: \"e\", group: None, pre: false, name: \"n\", version: \"1\", files: [\"a\"] }";

const PRE: &str =
    "Check { env: \"e\", group: None, pre: true, name: \"n\", version: \"1\", files: [\"a\", \"b\"] }";

// Words, and their plan.
const PLANS: [(&[&str], &str); 23] = [
    (&[], "Standard"),
    (&["version", "1.0"], "ShowVersion { text: \"1.0\" }"),
    (
        &["lines", "--", "-f"],
        "ShowLines { group: None, file: \"-f\" }",
    ),
    (
        &["lines", "--group", "g", "a"],
        "ShowLines { group: Some(\"g\"), file: \"a\" }",
    ),
    (
        &["merge", "a", "--group=g", "--env", "e"],
        "Merge { env: \"e\", group: Some(\"g\"), files: [\"a\"] }",
    ),
    (
        &["check", "--env", "e", "n", "--group", "g", "1", "a"],
        "Check { env: \"e\", group: Some(\"g\"), pre: false, name: \"n\", version: \"1\", files: [\"a\"] }",
    ),
    (
        &["merge", "--env", "e", "a"],
        "Merge { env: \"e\", group: None, files: [\"a\"] }",
    ),
    (
        &["merge", "--env=e", "a", "b", "a"],
        "Merge { env: \"e\", group: None, files: [\"a\", \"b\", \"a\"] }",
    ),
    (
        &["merge", "a", "b", "--env", "e"],
        "Merge { env: \"e\", group: None, files: [\"a\", \"b\"] }",
    ),
    (
        &["merge", "a", "--env", "e", "b"],
        "Merge { env: \"e\", group: None, files: [\"a\", \"b\"] }",
    ),
    (
        &["merge", "--env", "e", "--", "-a", "--pre"],
        "Merge { env: \"e\", group: None, files: [\"-a\", \"--pre\"] }",
    ),
    (
        &["merge", "--env", "e", "merge", ""],
        "Merge { env: \"e\", group: None, files: [\"merge\", \"\"] }",
    ),
    (&["check", "--env", "e", "n", "1", "a"], PLAIN),
    (&["check", "--env=e", "n", "1", "a"], PLAIN),
    (&["check", "n", "1", "a", "--env", "e"], PLAIN),
    (&["check", "n", "--env", "e", "1", "a"], PLAIN),
    (&["check", "--env", "e", "--", "n", "1", "a"], PLAIN),
    (&["check", "--pre", "--env", "e", "n", "1", "a", "b"], PRE),
    (&["check", "--env", "e", "n", "--pre", "1", "a", "b"], PRE),
    (&["check", "n", "1", "a", "--pre", "b", "--env=e"], PRE),
    (&["check", "n", "1", "a", "b", "--env=e", "--pre"], PRE),
    (
        &["check", "--env", "e", "--", "-n", "--pre", "-a"],
        "Check { env: \"e\", group: None, pre: false, name: \"-n\", version: \"--pre\", files: [\"-a\"] }",
    ),
    (
        &["version", "1", "2"],
        "refused code 61\nerror: unexpected argument '2' found\n\n\
         Usage: tubrambutan version <TEXT>\n\nFor more information, try '--help'.\n",
    ),
];

// Asserts the plan of each row.
fn expect_plans(rt: &(impl Abort + AllocGlobal), rows: &[(&[&str], &str)]) {
    for &(words, want) in rows {
        let found = plan_line(rt, words);
        expect_line(rt, found.as_str(), want);
    }
}

#[test]
fn plans(rt: HostRuntime) {
    expect_plans(&rt, &PLANS);
}
