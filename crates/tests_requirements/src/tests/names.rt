//! Names of packages, and the runs of bytes that they are found by.

use crate::tests::lines::{expect, expect_lines, expect_own_lines, long_text};
use pep_marker::{MarkerFault, Name};
use std::alloc::Global;
use std::cmp::Ordering;
use std::hash::{DefaultHasher, Hash, Hasher};
use std::process::Abort;
use tests_kit::Kind;
use texts::{blank_run, is_blank_byte, is_name_byte, name_run, stripped, without_outer_blanks};

// Names in their order, by the bytes of their normal texts. Some share their first eight bytes.
const IN_ORDER: [&str; 14] = [
    "0",
    "0-a",
    "00",
    "a",
    "a-b",
    "a0",
    "aa",
    "abcdefg",
    "abcdefgh",
    "abcdefgh-z",
    "abcdefgh0",
    "abcdefgha",
    "abcdefghb",
    "b",
];

fn hash_of(name: &Name) -> u64 {
    let mut state = DefaultHasher::new();
    name.hash(&mut state);
    state.finish()
}

// Texts, and the normal texts of the names that they are.
const NAMES: [(&str, &str); 6] = [
    ("Flask", "flask"),
    ("A_.-b--C.9", "a-b-c-9"),
    ("0", "0"),
    ("a-b", "a-b"),
    ("a_b", "a-b"),
    ("Zope.Interface", "zope-interface"),
];

const NO_NAMES: [&str; 11] = [
    "", "-", "a-", "_a", "a b", " a", "a ", "a\n", "a+b", "\u{e9}", "a\u{e9}b",
];

/// The text of a name.
struct Text;

impl Kind for Text {
    type Fault = MarkerFault;

    fn line(&self, alloc: Global, row: &str) -> Result<String, MarkerFault> {
        Ok(String::from_str(alloc, Name::read(alloc, row)?.text())?)
    }
}

fn fault_of(alloc: Global, text: &str) -> Option<MarkerFault> {
    Name::read(alloc, text).err()
}

#[test]
fn names(rt: HostRuntime) {
    expect_lines(&rt, &Text, &NAMES);
}

#[test]
fn other_texts(rt: HostRuntime) {
    for text in &NO_NAMES {
        let found = fault_of(rt.alloc(), text);
        expect(&rt, text, found == Some(MarkerFault::BadName));
    }
}

fn names_in_order(alloc: Global) -> Result<Vec<Name>, MarkerFault> {
    let mut names = Vec::new(alloc);
    for text in &IN_ORDER {
        names.push(Name::read(alloc, text)?)?;
    }
    Ok(names)
}

fn is_equal(first: &Name, second: &Name) -> bool {
    first == second && hash_of(first) == hash_of(second)
}

fn is_different(first: &Name, second: &Name) -> bool {
    first != second && hash_of(first) != hash_of(second)
}

fn is_order(first: &Name, second: &Name, wanted: Ordering) -> bool {
    first.cmp(second) == wanted
        && first.partial_cmp(second) == Some(wanted)
        && if wanted == Ordering::Equal {
            is_equal(first, second)
        } else {
            is_different(first, second)
        }
}

fn compare_names(rt: &impl Abort, names: &[Name]) {
    for (i, first) in names.iter().enumerate() {
        for (j, second) in names.iter().enumerate() {
            expect(rt, (i, j), is_order(first, second, i.cmp(&j)));
        }
    }
}

#[test]
fn order_of_names(rt: HostRuntime) -> Result<(), MarkerFault> {
    let names = names_in_order(rt.alloc())?;
    compare_names(&rt, names.as_slice());
    Ok(())
}

const EQUAL: [(&str, &str); 3] = [
    ("Flask", "flask"),
    ("a_.-b", "A-B"),
    ("Abcdefgh.I", "abcdefgh-i"),
];

// Whether two texts are one name.
fn is_one_name(rt: &(impl Abort + AllocGlobal), one: &str, other: &str) -> bool {
    let one = Name::read(rt.alloc(), one).expect(rt, "a name");
    let other = Name::read(rt.alloc(), other).expect(rt, "a name");
    is_order(&one, &other, Ordering::Equal)
}

// Whether the copy of a name is equal to it, with its text.
fn has_copy(rt: &(impl Abort + AllocGlobal), text: &str) -> bool {
    let name = Name::read(rt.alloc(), text).expect(rt, "a name");
    let copy = name.copied(rt.alloc()).expect(rt, "the copy of a name");
    copy == name && copy.text() == name.text()
}

#[test]
fn equal_names(rt: HostRuntime) {
    for &(one, other) in &EQUAL {
        expect(&rt, (one, other), is_one_name(&rt, one, other));
        expect(&rt, one, has_copy(&rt, one));
    }
}

#[test]
fn bytes_of_names_and_white_space(rt: HostRuntime) {
    for b in 0..=255u8 {
        let is_of_names = b.is_ascii_alphanumeric() || b"-_.".contains(&b);
        expect(&rt, b, is_name_byte(b) == is_of_names);
        expect(&rt, b, is_blank_byte(b) == (b == 9 || b == 32));
    }
}

// Texts, and how many bytes are white space in front, and of a name in front.
const RUNS: [(&str, (usize, usize)); 6] = [
    ("", (0, 0)),
    (" \t", (2, 0)),
    ("Flask_1.x-2>=3", (0, 11)),
    (" a b\t ", (1, 0)),
    ("\r a", (0, 0)),
    ("a\n", (0, 1)),
];

#[test]
fn runs(rt: HostRuntime) {
    for &(text, wanted) in &RUNS {
        let bytes = text.as_bytes();
        let front = blank_run(bytes);
        expect(&rt, text, (front, name_run(bytes)) == wanted);
        expect(&rt, text, stripped(text) == &text[front..]);
    }
}

const TRIMMED: [(&str, &str); 6] = [
    (" a b\t ", "a b"),
    ("\t ", ""),
    ("", ""),
    ("\ra ", "\ra"),
    ("a\n", "a\n"),
    ("a-1", "a-1"),
];

#[test]
fn trims_names(rt: HostRuntime) {
    for &(text, want) in &TRIMMED {
        expect(&rt, text, without_outer_blanks(text) == want);
    }
}

#[test]
fn long_names(rt: HostRuntime) {
    let text = long_text(&rt, "", "a-b", 20_000, "");
    expect_own_lines(&rt, &Text, &[text.as_str()]);
    assert!(rt; has_copy(&rt, text.as_str()));
}
