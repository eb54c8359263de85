//! The example of README, as it stands there.

use crate::tests::calls::{lines_or_fault, machine};
use crate::tests::lines::expect_line;
use pep_marker::Environment;
use pep_tool::{Fault, Input, Kind, merge_bytes};
use std::alloc::Global;
use std::process::Abort;

fn merged(alloc: Global, list: &str, environment: &Environment) -> Result<String, Fault> {
    let bytes = Vec::from_slice(alloc, list.as_bytes())?;
    let kind = Kind::List;
    let group = None;
    merge_bytes(alloc, &[Input { kind, bytes, group }], environment)
}

// The lines of the table of a list on the machine, or the line of the fault.
fn merged_line(rt: &(impl Abort + AllocGlobal), list: &str) -> String {
    lines_or_fault(rt, merged(rt.alloc(), list, &machine(rt)))
}

const EXAMPLES: [(&str, &str); 2] = [
    (
        "flask>=2.0\nFlask<3\n",
        "flask open\n  range before 2 to before 3.dev0\n",
    ),
    (
        "flask>=2.0\nFlask<\n",
        "refused input 1 line 2 code 57 33 12\n",
    ),
];

#[test]
fn example(rt: HostRuntime) {
    for &(list, want) in &EXAMPLES {
        let found = merged_line(&rt, list);
        expect_line(&rt, found.as_str(), want);
    }
}
