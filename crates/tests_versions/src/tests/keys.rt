//! The bytes of keys.

use crate::tests::lines::{expect, expect_lines, expect_own_lines};
use crate::tests::versions::key;
use pep_version::{Key, VersionFault};
use std::alloc::Global;
use tests_kit::{Kind, hex};

// A version, the bytes of its key, and the version that stands there.
const KEYS: [(&str, &str); 7] = [
    (
        "1.0a2",
        "000000000000000001000000000000000100200000000000000002000100 1a2",
    ),
    (
        "3.dev0",
        "000000000000000001000000000000000300100000000000000000000000 3.dev0",
    ),
    (
        "1+x",
        "0000000000000000010000000000000001005000010101780000 1+x",
    ),
    ("0.0", "00000000000000000050000100 0"),
    ("v1.0.0", "00000000000000000100000000000000010050000100 1"),
    (
        "513!0.256rc1.post2.dev3+7.a0",
        "000000000000020101000000000000000001000000000000010000400000000000000001\
        010000000000000002000000000000000003010200000000000000070161300000 513!0.256rc1.post2.dev3+7.a0",
    ),
    (
        "18446744073709551615!18446744073709551615b0",
        "ffffffffffffffff01ffffffffffffffff00300000000000000000000100 18446744073709551615!18446744073709551615b0",
    ),
];

// A key's bytes, and the version that stands there.
fn shown(alloc: Global, key: &Key) -> Result<String, VersionFault> {
    let bytes = hex(alloc, key.bytes())?;
    let place = key.version(alloc)?.text(alloc)?;
    Ok(format!(in alloc; "{bytes} {place}")?)
}

// The same of the key that is read from the bytes, if it is that key.
fn shown_read(alloc: Global, key: &Key, read: &Key) -> Result<String, VersionFault> {
    if read == key {
        shown(alloc, read)
    } else {
        Ok(String::from_str(alloc, "another")?)
    }
}

fn shown_of_bytes(alloc: Global, key: &Key) -> Result<String, VersionFault> {
    match Key::read(alloc, key.bytes())? {
        Some(read) => shown_read(alloc, key, &read),
        None => Ok(String::from_str(alloc, "no key")?),
    }
}

// Versions, and how many bytes their keys have.
const SIZES: [(&str, &str); 7] = [
    ("1.0a2", "30 "),
    ("3.dev0", "30 "),
    ("1+x", "26 "),
    ("0.0", "13 "),
    ("v1.0.0", "22 "),
    ("513!0.256rc1.post2.dev3+7.a0", "69 "),
    ("18446744073709551615!18446744073709551615b0", "30 "),
];

fn is_key(alloc: Global, bytes: &[u8]) -> Result<bool, VersionFault> {
    Ok(Key::read(alloc, bytes)?.is_some())
}

// Appends how many bytes there are, if they are a key.
fn push_size(alloc: Global, line: &mut String, bytes: &[u8]) -> Result<(), VersionFault> {
    if is_key(alloc, bytes)? {
        let size = format!(in alloc; "{} ", bytes.len())?;
        line.push_str(size.as_str())?;
    }
    Ok(())
}

// How many bytes each of the bytes' beginnings has that is a key.
fn sizes_of_keys(alloc: Global, bytes: &[u8]) -> Result<String, VersionFault> {
    let mut some = Vec::new(alloc);
    let mut line = String::new(alloc);
    for byte in bytes {
        some.push(*byte)?;
        push_size(alloc, &mut line, some.as_slice())?;
    }
    Ok(line)
}

// How many bytes the beginnings of a key with one more byte have that are keys.
fn sizes_line(alloc: Global, key: &Key) -> Result<String, VersionFault> {
    let mut bytes = Vec::from_slice(alloc, key.bytes())?;
    bytes.push(0)?;
    sizes_of_keys(alloc, bytes.as_slice())
}

// What the copy of a key appends.
fn copied_line(alloc: Global, key: &Key) -> Result<String, VersionFault> {
    let mut line = String::new(alloc);
    key.copied(alloc)?.push_text(&mut line)?;
    Ok(line)
}

// What a line of a version's key is made by.
enum KeyLine {
    Made,
    Read,
    Sizes,
    Copied,
}

impl Kind for KeyLine {
    type Fault = VersionFault;

    fn line(&self, alloc: Global, row: &str) -> Result<String, VersionFault> {
        key_line(alloc, self, &key(alloc, row)?)
    }
}

fn key_line(alloc: Global, line: &KeyLine, key: &Key) -> Result<String, VersionFault> {
    match line {
        KeyLine::Made => shown(alloc, key),
        KeyLine::Read => shown_of_bytes(alloc, key),
        KeyLine::Sizes => sizes_line(alloc, key),
        KeyLine::Copied => copied_line(alloc, key),
    }
}

// Keys are made of versions and read of their bytes; neither the beginnings of a key nor the key with a
// byte more is one; a copy has the key's text.
#[test]
fn keys(rt: HostRuntime) {
    expect_lines(&rt, &KeyLine::Made, &KEYS);
    expect_lines(&rt, &KeyLine::Read, &KEYS);
    expect_lines(&rt, &KeyLine::Sizes, &SIZES);
    expect_own_lines(&rt, &KeyLine::Copied, &LONG_KEYS);
}

// None, a zero at the end of a release, another mark of a part, and words that no version has.
const NO_KEYS: [&[u8]; 10] = [
    b"",
    b"\x00\x00\x00\x00\x00\x00\x00\x00\x01\x00\x00\x00\x00\x00\x00\x00\x00\x00\x50\x00\x01\x00",
    b"\x00\x00\x00\x00\x00\x00\x00\x00\x02\x00\x00\x00\x00\x00\x00\x00\x01\x00\x50\x00\x01\x00",
    b"\x00\x00\x00\x00\x00\x00\x00\x00\x00\x60\x00\x01\x00",
    b"\x00\x00\x00\x00\x00\x00\x00\x00\x00\x50\x00\x02\x00",
    b"\x00\x00\x00\x00\x00\x00\x00\x00\x00\x50\x00\x01\x01\x00",
    b"\x00\x00\x00\x00\x00\x00\x00\x00\x00\x50\x00\x01\x01\x01\x00\x00",
    b"\x00\x00\x00\x00\x00\x00\x00\x00\x00\x50\x00\x01\x01\x017\x00\x00",
    b"\x00\x00\x00\x00\x00\x00\x00\x00\x00\x50\x00\x01\x01\x01A\x00\x00",
    b"\x00\x00\x00\x00\x00\x00\x00\x00\x00\x50\x00\x01\x01\x01\xc3\x00\x00",
];

#[test]
fn other_bytes_are_no_keys(rt: HostRuntime) -> Result<(), VersionFault> {
    for bytes in &NO_KEYS {
        expect(&rt, bytes, !is_key(rt.alloc(), bytes)?);
    }
    Ok(())
}

// Versions whose keys don't lie in the value.
const LONG_KEYS: [&str; 5] = [
    "1.2.3.4.5.6.7.dev8",
    "1.2.3.4a5.post6.dev7+89.x",
    "1.2.3.4.5.6.7",
    "1.2.3.4.5.6.7+x.8",
    "1+abcdefghijklmnopqrstuvwxyz0123456789abcdefghijklmnopqrstuvwxyz",
];
