//! Versions by PEP 440: what texts are read as, their normal texts, and their parts.

use crate::tests::lines::{expect, expect_lines, expect_own_lines, expect_same};
use pep_version::{Key, Label, Phase, Version, VersionFault};
use std::alloc::{AllocError, Global};
use std::cmp::Ordering;
use std::hash::{DefaultHasher, Hash, Hasher};
use std::process::Abort;
use tests_kit::{
    Difference, Kind, ORDERED, first_difference, first_difference_from, first_not_itself,
    push_numbered, repeated,
};
use texts::{first_part, is_separator};

const LARGEST: &str =
    "18446744073709551615!18446744073709551615.18446744073709551615rc18446744073709551615.post18446744073709551615.dev18446744073709551615+18446744073709551615";

// Spellings, and their normal texts.
const SPELLINGS: [(&str, &str); 25] = [
    ("1.2", "1.2"),
    ("01.002", "1.2"),
    ("0", "0"),
    ("1.0.0", "1.0.0"),
    (" \t\n\u{b}\u{c}\r1.0 \t\n\u{b}\u{c}\r", "1.0"),
    ("1.18446744073709551615", "1.18446744073709551615"),
    (LARGEST, LARGEST),
    ("1.0a", "1.0a0"),
    ("1.0a-", "1.0a0"),
    ("1.0a-1", "1.0a1"),
    ("1.0a.-1", "1.0a0.post1"),
    ("1.0a--1", "1.0a0.post1"),
    ("1.0a1-1", "1.0a1.post1"),
    ("1.0a-1-1", "1.0a1.post1"),
    ("1.0-1.dev2", "1.0.post1.dev2"),
    ("1.0post-1", "1.0.post1"),
    ("1.0r4", "1.0.post4"),
    ("1.0c4", "1.0rc4"),
    ("1.0prerev1", "1.0rc0.post1"),
    ("1!2.0+A_b-C.007", "1!2.0+a.b.c.7"),
    ("1.0+18446744073709551616a", "1.0+18446744073709551616a"),
    ("V1.0-1", "1.0.post1"),
    ("01.002.PREVIEW_3", "1.2rc3"),
    ("1.0.dev", "1.0.dev0"),
    ("0!1.0rev", "1.0.post0"),
];

// What a line of a version is made by.
enum Line {
    // Its normal text.
    Normal,
    // The normal text of that.
    Again,
    // The text of its copy.
    Copied,
    // What it appends to a text.
    Pushed,
    // How many numbers its release has, and the last of them.
    Release,
    // The text of its key.
    Placed,
    // The text of its key's copy.
    CopiedKey,
    // What its key appends to a text.
    PushedKey,
}

impl Kind for Line {
    type Fault = VersionFault;

    fn line(&self, alloc: Global, row: &str) -> Result<String, VersionFault> {
        line_of(alloc, self, &version_of(alloc, row)?)
    }
}

// The version that a text is read as, or the one that is made of parts.
fn version_of(alloc: Global, row: &str) -> Result<Version, VersionFault> {
    match row.strip_prefix(OF_SUFFIXES) {
        Some(suffixes) => version_of_suffixes(alloc, suffixes),
        None if row == OF_PARTS => version_of_parts(alloc),
        None => Version::read(alloc, row),
    }
}

fn line_of(alloc: Global, line: &Line, version: &Version) -> Result<String, VersionFault> {
    match line {
        Line::Normal => version.text(alloc),
        Line::Again => normal(alloc, version.text(alloc)?.as_str()),
        Line::Copied => version.copied(alloc)?.text(alloc),
        Line::Pushed => pushed(alloc, version),
        Line::Release => release_line(alloc, version),
        _ => key_line_of(alloc, line, &Key::of(alloc, version)?),
    }
}

fn key_line_of(alloc: Global, line: &Line, key: &Key) -> Result<String, VersionFault> {
    match line {
        Line::CopiedKey => key.copied(alloc)?.version(alloc)?.text(alloc),
        Line::PushedKey => pushed_key(alloc, key),
        _ => key.version(alloc)?.text(alloc),
    }
}

fn normal(alloc: Global, text: &str) -> Result<String, VersionFault> {
    Version::read(alloc, text)?.text(alloc)
}

fn pushed(alloc: Global, version: &Version) -> Result<String, VersionFault> {
    let mut text = String::from_str(alloc, "x ")?;
    version.push_text(&mut text)?;
    Ok(text)
}

fn pushed_key(alloc: Global, key: &Key) -> Result<String, VersionFault> {
    let mut text = String::from_str(alloc, "x ")?;
    key.push_text(&mut text)?;
    Ok(text)
}

fn release_line(alloc: Global, version: &Version) -> Result<String, VersionFault> {
    let (count, last) = (version.release().len(), version.release().last());
    Ok(format!(in alloc; "{count} {last:?}")?)
}

// Each normal text is its own normal text.
#[test]
fn texts(rt: HostRuntime) {
    expect_lines(&rt, &Line::Normal, &SUFFIXED);
    expect_lines(&rt, &Line::Normal, &SPELLINGS);
    expect_lines(&rt, &Line::Again, &SPELLINGS);
    expect_lines(
        &rt,
        &Line::Copied,
        &[(OF_PARTS, "1!2.0rc3.post4.dev5+a0.7")],
    );
    expect_lines(
        &rt,
        &Line::CopiedKey,
        &[(OF_PARTS, "1!2rc3.post4.dev5+a0.7")],
    );
    expect_lines(&rt, &Line::Pushed, &[("v1.0RC3", "x 1.0rc3")]);
    expect_lines(&rt, &Line::PushedKey, &[("1.0", "x 1")]);
}

// A row with another line is found, with its line and the wanted one.
#[test]
fn tells_differences(rt: HostRuntime) {
    let found = first_difference(rt.alloc(), &Line::Normal, &[("1", "1"), ("v2", "v2")]);
    expect_told(&rt, "pairs", found, ("v2", "2", "v2"));
    let found = first_difference_from(rt.alloc(), &Line::Normal, &["v2", "3"], "2");
    expect_told(&rt, "one line", found, ("3", "3", "2"));
    let found = first_not_itself(rt.alloc(), &Line::Normal, &["1", "v2"]);
    expect_told(&rt, "own lines", found, ("v2", "2", "v2"));
}

// Asserts that the difference is the wanted one.
fn expect_told<'a>(
    rt: &impl Abort,
    rows: &str,
    found: Result<Difference<'a>, VersionFault>,
    want: (&'a str, &'a str, &'a str),
) {
    let found = found.expect(rt, "a line of each row");
    expect_same(rt, rows, told(&found), Some(want));
}

fn told<'a>(found: &'a Difference<'a>) -> Option<(&'a str, &'a str, &'a str)> {
    match found {
        Some((row, line, want)) => Some((row, line.as_str(), want)),
        None => None,
    }
}

#[test]
fn reads_a_long_text(rt: HostRuntime) {
    // Two characters a number, and then one more.
    let text = repeated(rt.alloc(), "1", ".0", 32_767, "7").expect(&rt, "room for a text");
    assert!(rt; text.len() == 65_536);
    expect_lines(&rt, &Line::Release, &[(text.as_str(), "32768 Some(7)")]);
}

// A version of 20,002 release numbers and a label of 1,000 segments.
fn long_text(alloc: Global) -> Result<String, AllocError> {
    let mut text = repeated(alloc, "1", ".0", 20_000, ".7+0")?;
    push_numbered(alloc, &mut text, ".", 1..1000, "")?;
    Ok(text)
}

#[test]
fn long_versions(rt: HostRuntime) {
    let text = long_text(rt.alloc()).expect(&rt, "room for a text");
    expect_own_lines(&rt, &Line::Normal, &[text.as_str()]);
    expect_own_lines(&rt, &Line::Copied, &[text.as_str()]);
    expect_own_lines(&rt, &Line::Placed, &[text.as_str()]);
}

const NO_VERSIONS: [&str; 22] = [
    "", " ", "1..0", "1.", ".1", "é", "1. 0", "1.\t0", "1.\n0", "1.\r0", "1.\u{b}0", "1.\u{c}0",
    "1\u{a0}", "1.0+é", "1.0α1", "１.0", "1.0+", "1.0-", "1.0a1a2", "!1.0", "vv1", "1.0+a..b",
];

const TOO_LARGE: [&str; 9] = [
    "18446744073709551616",
    "1.18446744073709551616",
    "100000000000000000000.1",
    "18446744073709551616!1",
    "1.0a18446744073709551616",
    "1.0.post18446744073709551616",
    "1.0-18446744073709551616",
    "1.0.dev18446744073709551616",
    "1.0+18446744073709551616",
];

fn fault_of(alloc: Global, text: &str) -> Option<VersionFault> {
    Version::read(alloc, text).err()
}

#[test]
fn refuses_texts(rt: HostRuntime) {
    for text in &NO_VERSIONS {
        let fault = fault_of(rt.alloc(), text);
        expect_same(&rt, text, fault, Some(VersionFault::NotAVersion));
    }
    for text in &TOO_LARGE {
        let fault = fault_of(rt.alloc(), text);
        expect_same(&rt, text, fault, Some(VersionFault::NumberTooLarge));
    }
}

// ---- places

const EQUAL: [(&str, &str); 8] = [
    ("0", "0.0.0"),
    ("1.0", "1"),
    ("1.0", "1.0.0"),
    ("1.0", "v1"),
    ("1.0", "0!1.0"),
    ("1.0+1", "1.0+01"),
    ("1.0a.1", "1a1"),
    ("1.0+1.a", "1+01-A"),
];

/// The key of the version that a text is read as.
pub(crate) fn key(alloc: Global, text: &str) -> Result<Key, VersionFault> {
    Key::of(alloc, &Version::read(alloc, text)?)
}

/// The key of a text that is a version.
pub(crate) fn known_key(rt: &(impl Abort + AllocGlobal), text: &str) -> Key {
    key(rt.alloc(), text).expect(rt, "the key of a version")
}

/// The version of a text that is one.
pub(crate) fn known_version(rt: &(impl Abort + AllocGlobal), text: &str) -> Version {
    Version::read(rt.alloc(), text).expect(rt, "a version")
}

fn hash_of(key: &Key) -> u64 {
    let mut state = DefaultHasher::new();
    key.hash(&mut state);
    state.finish()
}

// Whether two texts have one place, with one hash.
fn is_one_place(rt: &(impl Abort + AllocGlobal), one: &str, other: &str) -> bool {
    let (one, other) = (known_key(rt, one), known_key(rt, other));
    one == other && hash_of(&one) == hash_of(&other)
}

#[test]
fn joins_equal_versions(rt: HostRuntime) {
    for &(one, other) in &EQUAL {
        expect(&rt, (one, other), is_one_place(&rt, one, other));
    }
}

// Asserts how one version stands to the other, and the other to it.
fn expect_orders(
    rt: &(impl Abort + AllocGlobal),
    (one, other): (&str, &str),
    wanted: (Ordering, Ordering),
) {
    let (version, other) = (known_version(rt, one), known_version(rt, other));
    let found = (version.order_to(&other), other.order_to(&version));
    expect_same(rt, one, found, wanted);
}

#[test]
fn orders_versions(rt: HostRuntime) {
    for (lower, higher) in ORDERED.iter().zip(ORDERED.iter().skip(1)) {
        expect_orders(&rt, (lower, higher), (Ordering::Less, Ordering::Greater));
    }
}

#[test]
fn orders_equal_versions(rt: HostRuntime) {
    for &pair in &EQUAL {
        expect_orders(&rt, pair, (Ordering::Equal, Ordering::Equal));
    }
}

// How the version without its suffixes and its label stands to the other.
fn release_order(alloc: Global, one: &str, other: &str) -> Result<Ordering, VersionFault> {
    let (one, other) = (Version::read(alloc, one)?, Version::read(alloc, other)?);
    Ok(one.order_with(None, None, None, &other))
}

#[test]
fn orders_releases(rt: HostRuntime) -> Result<(), VersionFault> {
    let same = release_order(rt.alloc(), "1.0rc3.post4.dev5+a", "1")?;
    let above = release_order(rt.alloc(), "1.0.dev1", "1.0rc1")?;
    assert!(rt; (same, above) == (Ordering::Equal, Ordering::Greater));
    Ok(())
}

// ---- parts

// What stands in a row for the version that is made of parts.
const OF_PARTS: &str = "parts";

// The label `a0.7`.
fn label(alloc: Global) -> Result<Vec<Label>, AllocError> {
    let mut label = Vec::new(alloc);
    label.push(Label::Word(String::from_str(alloc, "a0")?))?;
    label.push(Label::Number(7))?;
    Ok(label)
}

// `1!2.0rc3.post4.dev5+a0.7`, made of its parts.
fn version_of_parts(alloc: Global) -> Result<Version, VersionFault> {
    let release = Vec::from_slice(alloc, &[2, 0])?;
    let pre = Some((Phase::Rc, 3));
    let version = Version::of_parts(1, release, pre, Some(4), Some(5), label(alloc)?);
    version.ok_or(VersionFault::NotAVersion)
}

// What stands in a row in front of the suffixes of a version that is made of parts.
const OF_SUFFIXES: &str = "with ";

// Versions that are made of parts, with some of the suffixes and without.
const SUFFIXED: [(&str, &str); 8] = [
    ("with none", "1.0"),
    ("with dev", "1.0.dev0"),
    ("with post", "1.0.post3"),
    ("with post and dev", "1.0.post3.dev0"),
    ("with pre", "1.0b1"),
    ("with pre and dev", "1.0b1.dev0"),
    ("with pre and post", "1.0b1.post3"),
    ("with pre, post and dev", "1.0b1.post3.dev0"),
];

// `1.0` with some of the suffixes `b1`, `.post3` and `.dev0`.
fn version_of_suffixes(alloc: Global, suffixes: &str) -> Result<Version, VersionFault> {
    let release = Vec::from_slice(alloc, &[1, 0])?;
    let pre = suffixes.contains("pre").then_some((Phase::Beta, 1));
    let post = suffixes.contains("post").then_some(3);
    let dev = suffixes.contains("dev").then_some(0);
    let version = Version::of_parts(0, release, pre, post, dev, Vec::new(alloc));
    version.ok_or(VersionFault::NotAVersion)
}

// Epoch, release, and how many parts the label has.
fn outer_parts(version: &Version) -> (u64, &[u64], usize) {
    (version.epoch(), version.release(), version.label().len())
}

type Suffixes = (Option<(Phase, u64)>, Option<u64>, Option<u64>, bool);

// The suffixes, and whether it is a pre-release.
fn suffixes(version: &Version) -> Suffixes {
    (
        version.pre(),
        version.post(),
        version.dev(),
        version.is_pre(),
    )
}

#[test]
fn keeps_parts(rt: HostRuntime) -> Result<(), VersionFault> {
    let version = version_of_parts(rt.alloc())?;
    assert!(rt; outer_parts(&version) == (1, [2, 0].as_slice(), 2));
    assert!(rt; suffixes(&version) == (Some((Phase::Rc, 3)), Some(4), Some(5), true));
    Ok(())
}

fn is_version_without_numbers(alloc: Global) -> bool {
    let (release, label) = (Vec::new(alloc), Vec::new(alloc));
    Version::of_parts(0, release, None, None, None, label).is_some()
}

// Whether the word can be a part of a label.
fn is_word(alloc: Global, word: &str) -> Result<bool, AllocError> {
    let release = Vec::from_slice(alloc, &[1])?;
    let mut label = Vec::new(alloc);
    label.push(Label::Word(String::from_str(alloc, word)?))?;
    Ok(Version::of_parts(0, release, None, None, None, label).is_some())
}

#[test]
fn refuses_parts(rt: HostRuntime) -> Result<(), AllocError> {
    assert!(rt; !is_version_without_numbers(rt.alloc()));
    for word in &["", "1", "A", "a-b", "é"] {
        expect(&rt, word, !is_word(rt.alloc(), word)?);
    }
    Ok(())
}

#[test]
fn splits_texts(rt: HostRuntime) {
    assert!(rt; first_part(b"1.20.3", b'.') == (b"1".as_slice(), Some(b"20.3".as_slice())));
    assert!(rt; first_part(b".", b'.') == (b"".as_slice(), Some(b"".as_slice())));
    assert!(rt; first_part(b"1.0", b',') == (b"1.0".as_slice(), None));
    for byte in 0..=255_u8 {
        expect(&rt, byte, is_separator(byte) == b"-_.".contains(&byte));
    }
}
