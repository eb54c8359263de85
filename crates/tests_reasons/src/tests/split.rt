//! The shards of lists, and refused ones.

use crate::tests::lines::expect_row;
use faults::Fault;
use shards::shards_of;
use std::alloc::Global;
use std::test::Fail;

// A list, the count of shards, and the shards of its lines.
const ROWS: [(&str, u64, &str); 8] = [
    ("Flask>=2\n# why\nflask ; os_name=='nt'\nb", 4, "3 4 3 2"),
    ("", 3, "3"),
    ("a\n", 0, "0 1"),
    ("a\r\n b[x] @ ?\n", 1_000, "97 98 1000"),
    ("Requests_OAuthlib", 1_000, "275"),
    ("flask\n>=1", 2, "refused input 1 line 2 code 57 31\n"),
    ("flask\n\n--pre", 2, "refused input 1 line 3 code 57 37\n"),
    ("flask<\n!\n--pre", 2, "refused input 1 line 2 code 57 31\n"),
];

// The numbers with a space between two.
fn numbers_line(alloc: Global, numbers: &[u64]) -> Result<String, Fault> {
    let mut line = String::new(alloc);
    for number in numbers {
        let space = if line.is_empty() { "" } else { " " };
        let part = format!(in alloc; "{space}{number}")?;
        line.push_str(part.as_str())?;
    }
    Ok(line)
}

// The shards of the lines, or the line of the fault.
fn split_line(alloc: Global, list: &str, count: u64) -> Result<String, Fault> {
    match shards_of(alloc, list.as_bytes(), count) {
        Ok(shards) => numbers_line(alloc, shards.as_slice()),
        Err(fault) => fault.text(alloc),
    }
}

#[test]
fn split(rt: HostRuntime) -> Result<(), Fail> {
    for &(list, count, want) in &ROWS {
        let line = split_line(rt.alloc(), list, count)?;
        expect_row(&rt, list, line.as_str(), want);
    }
    Ok(())
}
