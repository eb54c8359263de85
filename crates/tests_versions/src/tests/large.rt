//! Sets that are larger than a body that gives up early would take.

use crate::tests::sets::{all_versions, known_set, ranges_of};
use pep_clause::VersionSet;
use std::process::Abort;

// The set of all versions but that of a number.
fn without(rt: &(impl Abort + AllocGlobal), number: u32) -> VersionSet {
    let clause = format!(in rt.alloc(); "!={number}").expect(rt, "room for a text");
    known_set(rt, clause.as_str())
}

// The set of all versions but every second number from the first one on, below 201.
fn without_each_second(rt: &(impl Abort + AllocGlobal), first: u32) -> VersionSet {
    let mut set = all_versions(rt);
    for number in 1..201 {
        if number % 2 == first % 2 {
            let other = without(rt, number);
            set.join(rt.alloc(), &other).expect(rt, "room for a join");
        }
    }
    set
}

#[test]
fn sets_of_many_ranges(rt: HostRuntime) {
    for first in 0..2 {
        let set = without_each_second(&rt, first);
        assert!(rt; set.ranges().len() == 101);
    }
}

// The join of two sets that leave out every second number, each from its own first one on.
fn join_of(rt: &(impl Abort + AllocGlobal), first: u32, other: u32) -> VersionSet {
    let set = without_each_second(rt, first);
    let other = without_each_second(rt, other);
    set.joined(rt.alloc(), &other).expect(rt, "a join")
}

// The ranges of such a join: from what lies behind one of the numbers to the next.
fn ranges_of_joins(rt: &(impl Abort + AllocGlobal)) -> String {
    let mut text = String::from_str(rt.alloc(), "[before 0.dev0").expect(rt, "room for a text");
    for number in 1..201 {
        let cuts = format!(in rt.alloc(); " to before {number}][before {number}.post0.dev0");
        let cuts = cuts.expect(rt, "room for a text");
        text.push_str(cuts.as_str()).expect(rt, "room for a text");
    }
    text.push_str(" to end]").expect(rt, "room for a text");
    text
}

fn has_ranges_of_joins(rt: &(impl Abort + AllocGlobal), joined: &VersionSet) -> bool {
    ranges_of(rt, joined) == ranges_of_joins(rt)
}

#[test]
fn ranges_of_a_large_join(rt: HostRuntime) {
    let joined = join_of(&rt, 1, 0);
    assert!(rt; joined == join_of(&rt, 0, 1));
    assert!(rt; joined.ranges().len() == 201);
    assert!(rt; has_ranges_of_joins(&rt, &joined));
}
