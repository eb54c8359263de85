//! Which clauses have packed ranges, and which; and what is left over where some are left out.

use crate::tests::lines::expect_row;
use packed_cuts::{LeftOut, PackedRange, PackedSet};
use pep_clause::{Clause, Cut, PackedCut, VersionSet};
use std::process::Abort;

fn cut_text(rt: &(impl Abort + AllocGlobal), cut: PackedCut) -> String {
    let text = Cut::of_packed(cut).text(rt.alloc());
    text.expect(rt, "the text of a cut")
}

// The two packed cuts.
fn range_text(rt: &(impl Abort + AllocGlobal), range: PackedRange) -> String {
    let low = cut_text(rt, range.low);
    let high = cut_text(rt, range.high);
    format!(in rt.alloc(); "{low} to {high}").expect(rt, "room for two cuts")
}

fn left_out_text(rt: &(impl Abort + AllocGlobal), range: PackedRange) -> String {
    let text = range_text(rt, range);
    format!(in rt.alloc(); "not {text}").expect(rt, "room for two cuts")
}

// The set of versions that the clause of a text admits.
fn admitted(rt: &(impl Abort + AllocGlobal), text: &str) -> VersionSet {
    let clause = Clause::read(rt.alloc(), text).expect(rt, "a clause");
    VersionSet::of(rt.alloc(), &clause).expect(rt, "the set of a clause")
}

// What the clause of a text admits, where it is between packed cuts or outside of them.
fn set_of(rt: &(impl Abort + AllocGlobal), text: &str) -> Option<PackedSet> {
    PackedSet::of(&admitted(rt, text))
}

// What is written where there is no range.
fn no_range(rt: &(impl Abort + AllocGlobal)) -> String {
    String::from_str(rt.alloc(), "none").expect(rt, "room for a text")
}

// The cuts between which the clause of this text admits versions, or leaves them out, where both have a packed cut.
fn range_line(rt: &(impl Abort + AllocGlobal), text: &str) -> String {
    match set_of(rt, text) {
        Some(set) if set.outside => left_out_text(rt, set.range),
        Some(set) => range_text(rt, set.range),
        None => no_range(rt),
    }
}

// Clauses, and the cuts between which they admit versions, if they admit any. No packed cut is after a label, in
// another epoch, written with five numbers, of a number over 25 bits or of a digit over 7.
const RANGES: [(&str, &str); 49] = [
    (">=1.2.3", "before 1.2.3 to end"),
    (">=1.0", "before 1 to end"),
    ("<2", "before 0.dev0 to before 2.dev0"),
    ("<0", "end to before 0.dev0"),
    ("<2.0rc1", "before 0.dev0 to before 2rc1"),
    ("<2.0.post3", "before 0.dev0 to before 2.post3.dev0"),
    ("<=1.2", "before 0.dev0 to before 1.2.post0.dev0"),
    ("<=1.2.dev3", "before 0.dev0 to before 1.2.dev4"),
    ("<=1.2b3.post4", "before 0.dev0 to before 1.2b3.post5.dev0"),
    ("==1.0", "before 1 to before 1.post0.dev0"),
    ("==0", "before 0 to before 0.post0.dev0"),
    ("==1.2.*", "before 1.2.dev0 to before 1.3.dev0"),
    ("==1.0.*", "before 1.dev0 to before 1.1.dev0"),
    ("~=1.4.2", "before 1.4.2 to before 1.5.dev0"),
    ("~=1.4.5a4", "before 1.4.5a4 to before 1.5.dev0"),
    ("~=1.2.3.4", "before 1.2.3.4 to before 1.2.4.dev0"),
    (">1.0rc1", "before 1rc2.dev0 to end"),
    (">1.0.post1", "before 1.post2.dev0 to end"),
    (">1.0.dev1", "before 1.dev2 to end"),
    ("===1.0", "before 0.dev0 to end"),
    (">=2.31.0.20240311", "before 2.31.0.20240311 to end"),
    (
        ">=33554431.33554431.33554431.33554431",
        "before 33554431.33554431.33554431.33554431 to end",
    ),
    (">=33554432", "none"),
    (">=1.33554432", "none"),
    ("==33554431.*", "none"),
    (
        ">=1a127.post126.dev126",
        "before 1a127.post126.dev126 to end",
    ),
    (">=1a128", "none"),
    (">=1.post127", "none"),
    (">=1.dev127", "none"),
    ("<=1.dev126", "none"),
    (">=1.2.3.4.5", "none"),
    (">=1.2.3.4.0", "none"),
    ("~=1.2.3.0.0", "none"),
    ("~=33554431.5", "none"),
    (">1.0rc18446744073709551615", "before 1 to end"),
    (">=1!1.0", "none"),
    ("==1!1.*", "none"),
    ("==1.0+x", "none"),
    (">1.0", "past 1 to end"),
    (">33554432", "none"),
    (">1!1.0", "none"),
    (">1.2.3.4.0", "none"),
    ("!=1.0", "not before 1 to before 1.post0.dev0"),
    ("!=1.0.*", "not before 1.dev0 to before 1.1.dev0"),
    ("!=1.0+x", "none"),
    ("!=1!1.0", "none"),
    ("!=1.dev126", "none"),
    ("!=1.2.3.4.0", "none"),
    ("!=33554431.*", "none"),
];

#[test]
fn ranges(rt: HostRuntime) {
    for &(text, want) in &RANGES {
        let line = range_line(&rt, text);
        expect_row(&rt, text, line.as_str(), want);
    }
}

// What clauses with `!=` leave over of all versions.
fn left_over_by(rt: &(impl Abort + AllocGlobal), clauses: &[&str]) -> LeftOut {
    let mut left_out = LeftOut::none(rt.alloc());
    for text in clauses {
        if let Some(
            PackedSet {
                range,
                outside: true,
            },
        ) = set_of(rt, text)
        {
            let more = left_out.leave_out(rt.alloc(), range);
            more.expect(rt, "room for a range");
        }
    }
    left_out
}

// Appends the text of a cut, and what stands behind it.
fn push_cut(rt: &impl Abort, text: &mut String, cut: &Cut, behind: &str) {
    cut.push_text(text).expect(rt, "room for a cut");
    text.push_str(behind).expect(rt, "room for a text");
}

// The cuts of each range.
fn set_text(rt: &(impl Abort + AllocGlobal), set: &VersionSet) -> String {
    let mut text = String::new(rt.alloc());
    for range in set.ranges() {
        push_cut(rt, &mut text, range.low(), " to ");
        push_cut(rt, &mut text, range.high(), ";");
    }
    text
}

fn set_between(
    rt: &(impl Abort + AllocGlobal),
    clauses: &[&str],
    range: PackedRange,
) -> VersionSet {
    let left = left_over_by(rt, clauses).between(rt.alloc(), range);
    left.expect(rt, "what is left over")
}

// The ranges of what is left over in the range of a clause.
fn left_line(rt: &(impl Abort + AllocGlobal), within: &str, clauses: &[&str]) -> String {
    match set_of(rt, within) {
        Some(set) if !set.outside => set_text(rt, &set_between(rt, clauses, set.range)),
        _ => no_range(rt),
    }
}

// A clause with a range, clauses with `!=`, and the ranges in it of what these leave over.
const LEFT: [(&str, &[&str], &str); 10] = [
    (">=1", &[], "before 1 to end;"),
    (
        "===1",
        &["!=2"],
        "before 0.dev0 to before 2;before 2.post0.dev0 to end;",
    ),
    (
        "<3",
        &["!=2.*", "!=1.5", "!=2.1", "!=1.5"],
        "before 0.dev0 to before 1.5;before 1.5.post0.dev0 to before 2.dev0;",
    ),
    ("==1.*", &["!=1.*"], ""),
    (
        "==1.*",
        &["!=1.1.*", "!=1", "!=1.0.*"],
        "before 1.2.dev0 to before 2.dev0;",
    ),
    // more parts than are kept as they come, some of which meet
    (
        ">=1",
        &[
            "!=1.3.*", "!=1.1.*", "!=3", "!=1.2.5", "!=1.2.*", "!=1.1", "!=5",
        ],
        "before 1 to before 1.1.dev0;before 1.4.dev0 to before 3;before 3.post0.dev0 to before 5;before 5.post0.dev0 to end;",
    ),
    ("~=1.4", &["!=2"], "before 1.4 to before 2.dev0;"),
    ("<0", &["!=1"], ""),
    ("==1", &["!=1.post1"], "before 1 to before 1.post0.dev0;"),
    (">=1", &["!=1", "!=0.5"], "before 1.post0.dev0 to end;"),
];

#[test]
fn left_over(rt: HostRuntime) {
    for &(within, clauses, want) in &LEFT {
        let line = left_line(&rt, within, clauses);
        expect_row(&rt, within, line.as_str(), want);
    }
}
