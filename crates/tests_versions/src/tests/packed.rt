//! The bytes of cuts, and of keys beside them.

use crate::tests::lines::{expect, expect_lines};
use crate::tests::versions::{key, known_key};
use pep_clause::{CUT_ROOM, ClauseFault, Cut, Range, VersionSet};
use pep_version::{Key, Version, VersionFault};
use std::alloc::Global;
use std::cmp::Ordering;
use std::process::Abort;
use tests_kit::{Kind, ORDERED, hex, repeated};

// A cut's text, and its bytes with the text.
const CUTS: [(&str, &str); 8] = [
    (
        "before 0.dev0",
        "000000000000000000100000000000000000000000 before 0.dev0",
    ),
    (
        "before 1.2.3.4rc5.post6.dev7",
        "00000000000000000100000000000000010100000000000000020100000000000000030100000000000000040040\
        000000000000000501000000000000000600000000000000000700 before 1.2.3.4rc5.post6.dev7",
    ),
    (
        "before 1!2",
        "00000000000000010100000000000000020050000100 before 1!2",
    ),
    (
        "before 3.dev0",
        "000000000000000001000000000000000300100000000000000000000000 before 3.dev0",
    ),
    (
        "past 1.7",
        "00000000000000000100000000000000010100000000000000070060 past 1.7",
    ),
    (
        "after 1+x",
        "000000000000000001000000000000000100500001010178000000 after 1+x",
    ),
    ("past 0", "00000000000000000060 past 0"),
    ("end", "ffffffffffffffffff end"),
];

// A cut's bytes, and its text.
fn shown_cut(alloc: Global, cut: &Cut) -> Result<String, ClauseFault> {
    let mut room = [0; CUT_ROOM];
    let bytes = hex(alloc, cut.bytes(&mut room))?;
    let text = cut.text(alloc)?;
    Ok(format!(in alloc; "{bytes} {text}")?)
}

// Cuts, and their texts where they are packed.
const PACKED: [(&str, &str); 8] = [
    ("before 0.dev0", "before 0.dev0"),
    (
        "before 1.2.3.4rc5.post6.dev7",
        "before 1.2.3.4rc5.post6.dev7",
    ),
    ("end", "end"),
    ("before 1!2", "not packed"),
    ("past 1.7", "past 1.7"),
    ("past 1.2.3.33554431", "past 1.2.3.33554431"),
    ("past 1!7", "not packed"),
    ("after 1+x", "not packed"),
];

// The text of a packed cut.
fn packed_text(alloc: Global, cut: &Cut) -> Result<String, ClauseFault> {
    match cut.packed() {
        Some(packed) => Cut::of_packed(packed).text(alloc),
        None => Ok(String::from_str(alloc, "not packed")?),
    }
}

// Cuts of each form whose bytes don't lie in the value, and one by a label alone; and their texts,
// after a word for their sizes.
const LONG_CUTS: [(&str, &str); 6] = [
    ("before 1.2.3.4.5.6.7", "long before 1.2.3.4.5.6.7"),
    (
        "before 1.2.3.4.5.6.7.dev8",
        "long before 1.2.3.4.5.6.7.dev8",
    ),
    (
        "before 1.2.3.4a5.post6.dev7+89.x",
        "long before 1.2.3.4a5.post6.dev7+89.x",
    ),
    ("past 1.2.3.4.5.6.7", "long past 1.2.3.4.5.6.7"),
    ("after 1.2.3.4.5.6.7+x.8", "long after 1.2.3.4.5.6.7+x.8"),
    (
        "after 1+abcdefghijklmnopqrstuvwxyz0123456789abcdefghijklmnopqrstuvwxyz",
        "long after 1+abcdefghijklmnopqrstuvwxyz0123456789abcdefghijklmnopqrstuvwxyz",
    ),
];

// Whether a cut's bytes are more than lie in the value, and its text.
fn sized(alloc: Global, cut: &Cut) -> Result<String, ClauseFault> {
    let mut room = [0; CUT_ROOM];
    let size = if cut.bytes(&mut room).len() > 64 {
        "long"
    } else {
        "short"
    };
    let text = cut.text(alloc)?;
    Ok(format!(in alloc; "{size} {text}")?)
}

fn pushed_cut(alloc: Global, cut: &Cut) -> Result<String, ClauseFault> {
    let mut text = String::from_str(alloc, "from ")?;
    cut.push_text(&mut text)?;
    Ok(text)
}

// How the bytes of two cuts stand.
fn order_of_bytes(one: &Cut, other: &Cut) -> Ordering {
    let mut room = [0; CUT_ROOM];
    let mut other_room = [0; CUT_ROOM];
    one.bytes(&mut room).cmp(other.bytes(&mut other_room))
}

// The line of the cut's copy, if it is equal to the cut, and by its bytes.
fn copied_cut_line(alloc: Global, line: &CutLine, cut: &Cut) -> Result<String, ClauseFault> {
    let copy = cut.copied(alloc)?;
    if copy == *cut && order_of_bytes(&copy, cut) == Ordering::Equal {
        own_cut_line(alloc, line, &copy)
    } else {
        Ok(String::from_str(alloc, "another")?)
    }
}

fn own_cut_line(alloc: Global, line: &CutLine, cut: &Cut) -> Result<String, ClauseFault> {
    match line {
        CutLine::Text => cut.text(alloc),
        CutLine::Pushed => pushed_cut(alloc, cut),
        CutLine::Bytes | CutLine::BytesOfCopy => shown_cut(alloc, cut),
        CutLine::Size | CutLine::SizeOfCopy => sized(alloc, cut),
        CutLine::Packed => packed_text(alloc, cut),
    }
}

fn cut_line(alloc: Global, line: &CutLine, cut: &Cut) -> Result<String, ClauseFault> {
    match line {
        CutLine::BytesOfCopy | CutLine::SizeOfCopy => copied_cut_line(alloc, line, cut),
        _ => own_cut_line(alloc, line, cut),
    }
}

/// What a line of a cut is made by.
pub(crate) enum CutLine {
    /// Its text.
    Text,
    /// What it appends to a text.
    Pushed,
    /// Its bytes and its text.
    Bytes,
    /// Whether it has more bytes than lie in the value, and its text.
    Size,
    /// The bytes and the text of its copy.
    BytesOfCopy,
    /// The size and the text of its copy.
    SizeOfCopy,
    /// Its text, if it is packed.
    Packed,
}

impl Kind for CutLine {
    type Fault = ClauseFault;

    fn line(&self, alloc: Global, row: &str) -> Result<String, ClauseFault> {
        match Cut::read(alloc, row)? {
            Some(cut) => cut_line(alloc, self, &cut),
            None => Ok(String::from_str(alloc, "no cut")?),
        }
    }
}

#[test]
fn cuts(rt: HostRuntime) {
    expect_lines(&rt, &CutLine::Bytes, &CUTS);
    expect_lines(&rt, &CutLine::BytesOfCopy, &CUTS);
    expect_lines(&rt, &CutLine::Size, &LONG_CUTS);
    expect_lines(&rt, &CutLine::SizeOfCopy, &LONG_CUTS);
    expect_lines(&rt, &CutLine::Packed, &PACKED);
}

// Versions with so many numbers that their keys lie in the value, just fit there, and don't, each
// with the one below it.
const GROWING: [(&str, &str); 8] = [
    ("1", "1.1"),
    ("1.1", "1.1.1"),
    ("1.1.1", "1.1.1.1"),
    ("1.1.1.1", "1.1.1.1.1"),
    ("1.1.1.1.1", "1.1.1.1.1.1"),
    ("1.1.1.1.1.1", "1.1.1.1.1.1.1"),
    ("1.1.1.1.1.1.1", "1.1.1.1.1.1.1.1"),
    ("1.1.1.1.1.1.1.1", "1.1.1.1.1.1.1.1.1"),
];

// Whether a key's bytes are read as a copy of it.
fn is_read_as_copy(rt: &(impl Abort + AllocGlobal), one: &Key) -> bool {
    let copy = one.copied(rt.alloc()).expect(rt, "the copy of a key");
    let read = Key::read(rt.alloc(), one.bytes()).expect(rt, "room for a key");
    read == Some(copy)
}

// The set of all versions from one cut to another.
fn set_between(alloc: Global, low: Cut, high: Cut) -> Result<VersionSet, ClauseFault> {
    let mut ranges = Vec::new(alloc);
    if let Some(range) = Range::of(low, high) {
        ranges.push(range)?;
    }
    VersionSet::of_ranges(ranges).ok_or(ClauseFault::BadVersion)
}

// The cut before the version that stands at a key.
fn cut_before(rt: &(impl Abort + AllocGlobal), key: &Key) -> Cut {
    let version = key.version(rt.alloc()).expect(rt, "the version of a key");
    Cut::before(rt.alloc(), &version).expect(rt, "a cut")
}

// The set of the versions from the one that stands at a key.
fn set_from(rt: &(impl Abort + AllocGlobal), key: &Key) -> VersionSet {
    set_between(rt.alloc(), cut_before(rt, key), Cut::end()).expect(rt, "a set")
}

// Whether a key is above another, by its bytes too, and the set from the key on holds it and not the other.
fn is_above(rt: &(impl Abort + AllocGlobal), one: &Key, below: &Key) -> bool {
    let set = set_from(rt, one);
    let is_above = below < one && below.bytes() < one.bytes();
    is_above && set.contains(one) && !set.contains(below)
}

// The same of the keys of two versions, and whether the first is read from its bytes as a copy of it.
fn is_growing(rt: &(impl Abort + AllocGlobal), text: &str, below: &str) -> bool {
    let (one, below) = (known_key(rt, text), known_key(rt, below));
    is_above(rt, &one, &below) && is_read_as_copy(rt, &one)
}

#[test]
fn long_and_short(rt: HostRuntime) {
    for &(below, text) in &GROWING {
        expect(&rt, text, is_growing(&rt, text, below));
    }
}

fn has_copy(rt: &(impl Abort + AllocGlobal), key: &Key) -> bool {
    let copy = key.copied(rt.alloc()).expect(rt, "the copy of a key");
    copy == *key
}

// Whether a key has so many bytes, is read from them, and what is read has an equal copy.
fn is_key_size(rt: &(impl Abort + AllocGlobal), key: &Key, size: usize) -> bool {
    match Key::read(rt.alloc(), key.bytes()).expect(rt, "room for a key") {
        Some(read) => key.bytes().len() == size && read == *key && has_copy(rt, &read),
        None => false,
    }
}

/// Whether the copy of a cut is equal to it.
pub(crate) fn cut_has_copy(rt: &(impl Abort + AllocGlobal), cut: &Cut) -> bool {
    let copy = cut.copied(rt.alloc()).expect(rt, "the copy of a cut");
    copy == *cut
}

// Whether a cut's bytes begin with those of the key, and it has so many.
fn is_front(cut: &Cut, key: &Key, size: usize) -> bool {
    let mut room = [0; CUT_ROOM];
    let bytes = cut.bytes(&mut room);
    bytes.starts_with(key.bytes()) && bytes.len() == size
}

// Whether a cut has this text.
fn has_text(rt: &(impl Abort + AllocGlobal), cut: &Cut, text: &str) -> bool {
    let own = cut.text(rt.alloc()).expect(rt, "the text of a cut");
    own.as_str() == text
}

// Whether the cut of a text has so many bytes, begins with those of the key, has an equal copy, and this text.
fn is_cut_size(rt: &(impl Abort + AllocGlobal), text: &str, key: &Key, size: usize) -> bool {
    match Cut::read(rt.alloc(), text).expect(rt, "room for a cut") {
        Some(cut) => {
            has_text(rt, &cut, text) && is_front(&cut, key, size) && cut_has_copy(rt, &cut)
        }
        None => false,
    }
}

// The same of the cut behind a version.
fn is_size_behind(rt: &(impl Abort + AllocGlobal), version: &str, key: &Key, size: usize) -> bool {
    let text = format!(in rt.alloc(); "after {version}").expect(rt, "room for a text");
    is_cut_size(rt, text.as_str(), key, size)
}

// Whether the key of the version has so many bytes, and the cut behind the version one more.
fn has_sizes(rt: &(impl Abort + AllocGlobal), version: &str, size: usize) -> bool {
    let key = known_key(rt, version);
    is_size_behind(rt, version, &key, size.saturating_add(1)) && is_key_size(rt, &key, size)
}

// Labels that grow by a letter, until the bytes of the key and of the cut don't lie in the value.
#[test]
fn across_the_edge(rt: HostRuntime) {
    for size in 44..70 {
        let version = repeated(rt.alloc(), "1.2.3+", "a", size - 43, "");
        let version = version.expect(&rt, "room for a text");
        expect(&rt, size, has_sizes(&rt, version.as_str(), size));
    }
}

// A key and a cut of each of the versions in order, and the set of those between two cuts.
#[derive(Drop)]
struct Places {
    keys: Vec<Key>,
    cuts: Vec<Cut>,
    set: VersionSet,
}

// Which cuts those are.
const LOW: usize = 6;

const HIGH: usize = 13;

// Above the others; the bytes of its key don't lie in the value.
const LONG: [&str; 1] = ["2!1.2.3.4.5.6.7.8"];

fn made_keys(alloc: Global) -> Result<Vec<Key>, VersionFault> {
    let mut keys = Vec::new(alloc);
    for text in ORDERED.iter().chain(&LONG) {
        keys.push(key(alloc, text)?)?;
    }
    Ok(keys)
}

fn made_cuts(alloc: Global) -> Result<Vec<Cut>, ClauseFault> {
    let mut cuts = Vec::new(alloc);
    for text in ORDERED.iter().chain(&LONG) {
        cuts.push(Cut::before(alloc, &Version::read(alloc, text)?)?)?;
    }
    cuts.push(Cut::end())?;
    Ok(cuts)
}

/// A copy of the cut at this place, where there is one.
pub(crate) fn cut_at(alloc: Global, cuts: &[Cut], place: usize) -> Result<Cut, ClauseFault> {
    match cuts.get(place) {
        Some(cut) => cut.copied(alloc),
        None => Err(ClauseFault::BadVersion),
    }
}

fn made_set(alloc: Global, cuts: &[Cut]) -> Result<VersionSet, ClauseFault> {
    set_between(alloc, cut_at(alloc, cuts, LOW)?, cut_at(alloc, cuts, HIGH)?)
}

fn made_places(alloc: Global) -> Result<Places, ClauseFault> {
    let keys = made_keys(alloc)?;
    let cuts = made_cuts(alloc)?;
    let set = made_set(alloc, cuts.as_slice())?;
    Ok(Places { keys, cuts, set })
}

fn is_key_order(one: &Key, other: &Key, wanted: Ordering) -> bool {
    one.cmp(other) == wanted
        && one.partial_cmp(other) == Some(wanted)
        && one.bytes().cmp(other.bytes()) == wanted
        && (one == other) == (wanted == Ordering::Equal)
}

fn compare_keys(rt: &impl Abort, keys: &[Key]) {
    for (i, one) in keys.iter().enumerate() {
        for (j, other) in keys.iter().enumerate() {
            expect(rt, (i, j), is_key_order(one, other, i.cmp(&j)));
        }
    }
}

fn is_cut_order(one: &Cut, other: &Cut, wanted: Ordering) -> bool {
    one.cmp(other) == wanted
        && order_of_bytes(one, other) == wanted
        && (one == other) == (wanted == Ordering::Equal)
}

/// Asserts that each cut is below the next, and equal to itself alone.
pub(crate) fn compare_cuts(rt: &impl Abort, cuts: &[Cut]) {
    for (i, one) in cuts.iter().enumerate() {
        for (j, other) in cuts.iter().enumerate() {
            expect(rt, (i, j), is_cut_order(one, other, i.cmp(&j)));
        }
    }
}

fn compare_set(rt: &impl Abort, set: &VersionSet, keys: &[Key]) {
    for (i, key) in keys.iter().enumerate() {
        expect(rt, i, set.contains(key) == (LOW..HIGH).contains(&i));
    }
}

// `.ci/refuse_memory` runs the next two with refused allocations, and finds that the second makes
// none that the first doesn't make: none for what it compares.
#[test]
fn made_alone(rt: HostRuntime) -> Result<(), ClauseFault> {
    let made = made_places(rt.alloc())?;
    assert!(rt; made.keys.len() == 27 && made.cuts.len() == 28);
    Ok(())
}

#[test]
fn made_and_compared(rt: HostRuntime) -> Result<(), ClauseFault> {
    let made = made_places(rt.alloc())?;
    compare_keys(&rt, made.keys.as_slice());
    compare_cuts(&rt, made.cuts.as_slice());
    compare_set(&rt, &made.set, made.keys.as_slice());
    Ok(())
}
