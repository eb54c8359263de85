//! Cuts in their order.

use crate::tests::lines::{expect, expect_lines, expect_none, expect_own_lines};
use crate::tests::packed::{CutLine, compare_cuts, cut_at, cut_has_copy};
use crate::tests::sets::known_set;
use crate::tests::versions::known_version;
use pep_clause::{ClauseFault, Cut, Range, VersionSet};
use std::process::Abort;
use tests_kit::first_difference_from;

fn before(rt: &(impl Abort + AllocGlobal), text: &str) -> Cut {
    Cut::before(rt.alloc(), &known_version(rt, text)).expect(rt, "a cut")
}

// Where the ranges of a clause begin, or where they end.
fn push_ends(rt: &(impl Abort + AllocGlobal), cuts: &mut Vec<Cut>, clause: &str, are_lows: bool) {
    let set = known_set(rt, clause);
    for range in set.ranges() {
        let end = if are_lows { range.low() } else { range.high() };
        let end = end.copied(rt.alloc()).expect(rt, "the copy of a cut");
        cuts.push(end).expect(rt, "room for a cut");
    }
}

fn push_before(rt: &(impl Abort + AllocGlobal), cuts: &mut Vec<Cut>, texts: &[&str]) {
    for text in texts {
        cuts.push(before(rt, text)).expect(rt, "room for a cut");
    }
}

// Cuts, each below the next.
fn cuts(rt: &(impl Abort + AllocGlobal)) -> Vec<Cut> {
    let mut cuts = Vec::new(rt.alloc());
    cuts.push(Cut::least()).expect(rt, "room for a cut");
    push_before(rt, &mut cuts, &["0", "1.dev0", "1a1", "1", "1+x"]);
    push_ends(rt, &mut cuts, "==1+x", false);
    push_before(rt, &mut cuts, &["1.post1"]);
    push_ends(rt, &mut cuts, ">1", true);
    push_before(rt, &mut cuts, &["1.0.1"]);
    cuts.push(Cut::end()).expect(rt, "room for a cut");
    cuts
}

// Each cut is below the next, and equal to itself alone.
#[test]
fn orders_cuts(rt: HostRuntime) {
    let cuts = cuts(&rt);
    assert!(rt; cuts.len() == 11);
    compare_cuts(&rt, cuts.as_slice());
}

// Whether the cut is read from its text.
fn is_read_back(rt: &(impl Abort + AllocGlobal), cut: &Cut) -> bool {
    let text = cut.text(rt.alloc()).expect(rt, "the text of a cut");
    match Cut::read(rt.alloc(), text.as_str()).expect(rt, "room for a cut") {
        Some(read) => read == *cut,
        None => false,
    }
}

#[test]
fn copies_and_reads_cuts(rt: HostRuntime) {
    for cut in &cuts(&rt) {
        assert!(rt; cut_has_copy(&rt, cut));
        assert!(rt; is_read_back(&rt, cut));
    }
}

// Whether two versions have one cut, which isn't the end.
fn is_one_cut(rt: &(impl Abort + AllocGlobal), one: &str, other: &str) -> bool {
    let one = before(rt, one);
    let other = before(rt, other);
    one == other && other < Cut::end()
}

#[test]
fn joins_equal_versions(rt: HostRuntime) {
    assert!(rt; is_one_cut(&rt, "1", "1.0"));
}

const TEXTS: [&str; 20] = [
    "before 0.dev0",
    "before 0",
    "before 1",
    "before 1.0.1",
    "before 1.2a3.dev0",
    "before 1.2b0.post126",
    "before 1.2rc1",
    "before 1.2.post1",
    "before 1.2.post2.dev126",
    "before 1.2.dev3",
    "before 1.2rc128.post127.dev127",
    "before 1.2.3.4.5",
    "before 1!2.3rc4.post5.dev6",
    "before 1+a.2",
    "before 18446744073709551615",
    "after 1+x",
    "after 0.1a1.dev2+b.7",
    "past 0",
    "past 2!1.0.3",
    "end",
];

// No text of a cut: another spelling of its version, another word, or something more.
const OTHER_TEXTS: [&str; 44] = [
    "",
    " ",
    "End",
    "end ",
    " end",
    "end 1",
    "ends",
    "1",
    "at 1",
    "Before 1",
    "before",
    "before ",
    "before  1",
    "before 1 ",
    " before 1",
    "before 1\n",
    "before\t1",
    "before 1.0",
    "before 0.0",
    "before 01",
    "before V1",
    "before 1.a1",
    "before 1A1",
    "before 1a",
    "before 1rc",
    "before 1rc01",
    "before 1r1",
    "before 1.post01",
    "before 1.dev1.post1",
    "before 1.0rc1",
    "before 1-1",
    "before 1+X",
    "before 1+a-b",
    "before 0!1",
    "before 18446744073709551616",
    "before end",
    "after 1",
    "after 1.0+x",
    "after 1 +x",
    "past 1.0",
    "past 1a1",
    "past 1.post1",
    "past 1.dev0",
    "past 1+x",
];

#[test]
fn reads_cuts(rt: HostRuntime) -> Result<(), ClauseFault> {
    expect_own_lines(&rt, &CutLine::Text, &TEXTS);
    expect_none(
        &rt,
        first_difference_from(rt.alloc(), &CutLine::Text, &OTHER_TEXTS, "no cut")?,
    );
    expect_lines(
        &rt,
        &CutLine::Pushed,
        &[("before 1", "from before 1"), ("end", "from end")],
    );
    Ok(())
}

fn range(rt: &(impl Abort + AllocGlobal), low: &Cut, high: &Cut) -> Option<Range> {
    let low = low.copied(rt.alloc()).expect(rt, "the copy of a cut");
    let high = high.copied(rt.alloc()).expect(rt, "the copy of a cut");
    Range::of(low, high)
}

// Whether there is a range between two cuts exactly where one is wanted, and it has their ends.
fn is_range(rt: &(impl Abort + AllocGlobal), low: &Cut, high: &Cut, is_wanted: bool) -> bool {
    match range(rt, low, high) {
        Some(range) => is_wanted && range.low() == low && range.high() == high,
        None => !is_wanted,
    }
}

fn expect_ranges(rt: &(impl Abort + AllocGlobal), cuts: &[Cut]) {
    for (i, low) in cuts.iter().enumerate() {
        for (j, high) in cuts.iter().enumerate() {
            expect(rt, (i, j), is_range(rt, low, high, i < j));
        }
    }
}

#[test]
fn ranges_of_cuts(rt: HostRuntime) {
    expect_ranges(&rt, cuts(&rt).as_slice());
}

// Pairs of places in the row of cuts, and whether their ranges are those of a set.
const PAIRS: [(&[(usize, usize)], bool); 9] = [
    (&[], true),
    (&[(0, 10)], true),
    (&[(0, 1), (2, 3)], true),
    (&[(0, 1), (3, 5), (6, 7)], true),
    (&[(0, 1), (1, 2)], false),
    (&[(0, 2), (1, 3)], false),
    (&[(2, 3), (0, 1)], false),
    (&[(0, 1), (0, 1)], false),
    (&[(0, 1), (2, 4), (3, 5)], false),
];

// The range between the cuts at two places.
fn range_at(rt: &(impl Abort + AllocGlobal), cuts: &[Cut], low: usize, high: usize) -> Range {
    let low = cut_at(rt.alloc(), cuts, low).expect(rt, "the copy of a cut");
    let high = cut_at(rt.alloc(), cuts, high).expect(rt, "the copy of a cut");
    Range::of(low, high).expect(rt, "a range")
}

// The ranges between the cuts at these places.
fn ranges_at(
    rt: &(impl Abort + AllocGlobal),
    cuts: &[Cut],
    pairs: &[(usize, usize)],
) -> Vec<Range> {
    let mut ranges = Vec::new(rt.alloc());
    for &(low, high) in pairs {
        let range = range_at(rt, cuts, low, high);
        ranges.push(range).expect(rt, "room for a range");
    }
    ranges
}

// Whether the ranges are those of a set exactly where one is wanted, and the set has them.
fn is_set(
    rt: &(impl Abort + AllocGlobal),
    cuts: &[Cut],
    pairs: &[(usize, usize)],
    is_wanted: bool,
) -> bool {
    let ranges = ranges_at(rt, cuts, pairs);
    match VersionSet::of_ranges(ranges_at(rt, cuts, pairs)) {
        Some(set) => is_wanted && set.ranges() == ranges.as_slice(),
        None => !is_wanted,
    }
}

#[test]
fn sets_of_ranges(rt: HostRuntime) {
    let cuts = cuts(&rt);
    for &(pairs, is_wanted) in &PAIRS {
        expect(&rt, pairs, is_set(&rt, cuts.as_slice(), pairs, is_wanted));
    }
}
