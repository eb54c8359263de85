// The version whose key bytes are, part by part. Of bytes that are no key some version is read, or
// none.

ghost use Rattle.std.specs.Prelude.{
  ◌≡◌,
  ◌↔◌,
  ◌≤◌,
  length,
  map,
  IfErr,
  IfOk,
  IfSome,
  IsSome,
};
ghost use Rattle.std.specs.List.{AllByRecursion};
ghost use Rattle.pep_version.specs.KeyReading.{
  behind_place,
  read_dev,
  read_label,
  read_number,
  read_numbers,
  read_post,
  read_release,
  read_segment,
  read_segments,
  read_stage,
  read_word,
  word_count,
};
ghost use Rattle.pep_version.specs.Version.{IsSegment, IsVersion, word as Word};
ghost use Rattle.pep_version.specs.View.{segment_of};

use crate::fault::VersionFault;
use crate::parts::{Label, Phase};
use crate::version::Version;
use std::alloc::{AllocError, Global};

// The number in front, and the bytes behind it.
pub(crate) fn take_number(bytes: &[u8]) -> (u64, &[u8])
    ensures number { result.0 ≡ (read_number bytes.now).0 }
    ensures rest { result.1.now ≡ (read_number bytes.now).1 }
{
    match bytes.split_first_chunk::<8>() {
        Some((number, rest)) => (u64::from_be_bytes(*number), rest),
        None => (0, &[]),
    }
}

// The numbers of a release, without the zeros at its end.
fn take_numbers(alloc: Global, bytes: &[u8]) -> Result<(Vec<u64>, &[u8]), AllocError>
    ensures numbers { IfOk result (λ p. p.0.items ≡ (read_numbers bytes.now).0) }
    ensures rest { IfOk result (λ p. p.1.now ≡ (read_numbers bytes.now).1) }
{
    let mut numbers = Vec::new(alloc);
    let mut rest = bytes;
    while let [mark, behind @ ..] = rest {
        if *mark == 0 {
            return Ok((numbers, behind));
        }
        let (number, more) = take_number(behind);
        numbers.push(number)?;
        rest = more;
    }
    Ok((numbers, rest))
}

// What stands behind the numbers of a release.
fn behind_numbers(bytes: &[u8]) -> &[u8]
    ensures { result.now ≡ (read_numbers bytes.now).1 }
{
    let mut rest = bytes;
    while let [mark, behind @ ..] = rest {
        if *mark == 0 {
            return behind;
        }
        (_, rest) = take_number(behind);
    }
    rest
}

fn take_release(alloc: Global, bytes: &[u8]) -> Result<(Vec<u64>, &[u8]), AllocError>
    ensures release { IfOk result (λ p. p.0.items ≡ (read_release bytes.now).0) }
    ensures rest { IfOk result (λ p. p.1.now ≡ (read_release bytes.now).1) }
{
    let (mut numbers, rest) = take_numbers(alloc, bytes)?;
    if numbers.is_empty() {
        numbers.push(0)?;
    }
    Ok((numbers, rest))
}

pub(crate) fn take_stage(bytes: &[u8]) -> (Option<(Phase, u64)>, &[u8])
    ensures pre { result.0 ≡ (read_stage bytes.now).0 }
    ensures rest { result.1.now ≡ (read_stage bytes.now).1 }
{
    let [mark, behind @ ..] = bytes else {
        return (None, bytes);
    };
    let phase = match *mark {
        0x20 => Phase::Alpha,
        0x30 => Phase::Beta,
        0x40 => Phase::Rc,
        _ => return (None, behind),
    };
    let (number, rest) = take_number(behind);
    (Some((phase, number)), rest)
}

pub(crate) fn take_post(bytes: &[u8]) -> (Option<u64>, &[u8])
    ensures post { result.0 ≡ (read_post bytes.now).0 }
    ensures rest { result.1.now ≡ (read_post bytes.now).1 }
{
    let [mark, behind @ ..] = bytes else {
        return (None, bytes);
    };
    if *mark == 0 {
        return (None, behind);
    }
    let (number, rest) = take_number(behind);
    (Some(number), rest)
}

pub(crate) fn take_dev(bytes: &[u8]) -> (Option<u64>, &[u8])
    ensures dev { result.0 ≡ (read_dev bytes.now).0 }
    ensures rest { result.1.now ≡ (read_dev bytes.now).1 }
{
    let [mark, behind @ ..] = bytes else {
        return (None, bytes);
    };
    if *mark != 0 {
        return (None, behind);
    }
    let (number, rest) = take_number(behind);
    (Some(number), rest)
}

fn word_count(bytes: &[u8]) -> usize
    ensures count { result ≡ word_count bytes.now }
    ensures within { result ≤ length bytes.now }
{
    bytes.iter().take_while(|b| **b != 0).count()
}

pub(crate) fn take_word(bytes: &[u8]) -> (&[u8], &[u8])
    ensures word { result.0.now ≡ (read_word bytes.now).0 }
    ensures rest { result.1.now ≡ (read_word bytes.now).1 }
{
    let (word, rest) = bytes.split_at(word_count(bytes));
    match rest {
        [_, behind @ ..] => (word, behind),
        [] => (word, rest),
    }
}

// The segment of a word, unless the word isn't UTF-8.
fn word_label(alloc: Global, word: &[u8]) -> Result<Option<Label>, AllocError>
    ensures segment { IfOk result (λ found. IfSome found (λ s. segment_of s ≡ Word word.now)) }
    ensures is_read { IfOk result (λ found. IsSegment (Word word.now) → IsSome found) }
{
    match std::str::from_utf8(word) {
        Ok(text) => Ok(Some(Label::Word(String::from_str(alloc, text)?))),
        Err(_) => Ok(None),
    }
}

// A segment, unless it is a word that isn't UTF-8.
fn take_segment(alloc: Global, bytes: &[u8]) -> Result<(Option<Label>, &[u8]), AllocError>
    ensures segment { IfOk result (λ p. IfSome p.0 (λ s.
        segment_of s ≡ (read_segment bytes.now).0)) }
    ensures is_read { IfOk result (λ p. IsSegment (read_segment bytes.now).0 → IsSome p.0) }
    ensures rest { IfOk result (λ p. p.1.now ≡ (read_segment bytes.now).1) }
{
    let [mark, behind @ ..] = bytes else {
        return Ok((Some(Label::Number(0)), bytes));
    };
    if *mark != 1 {
        let (number, rest) = take_number(behind);
        return Ok((Some(Label::Number(number)), rest));
    }
    let (word, rest) = take_word(behind);
    Ok((word_label(alloc, word)?, rest))
}

// The segments of a label, unless one is a word that isn't UTF-8.
fn take_segments(alloc: Global, bytes: &[u8]) -> Result<Option<(Vec<Label>, &[u8])>, AllocError>
    ensures label { IfOk result (λ found. IfSome found (λ p. map segment_of p.0.items
        ≡ (read_segments bytes.now).0)) }
    ensures rest { IfOk result (λ found. IfSome found (λ p. p.1.now
        ≡ (read_segments bytes.now).1)) }
    ensures is_read { IfOk result (λ found. AllByRecursion IsSegment (read_segments bytes.now).0
        → IsSome found) }
{
    let mut label = Vec::new(alloc);
    let mut rest = bytes;
    while let [mark, behind @ ..] = rest {
        if *mark == 0 {
            return Ok(Some((label, behind)));
        }
        let (segment, more) = take_segment(alloc, rest)?;
        match segment {
            Some(segment) => label.push(segment)?,
            None => return Ok(None),
        }
        rest = more;
    }
    Ok(Some((label, rest)))
}

fn take_label(alloc: Global, bytes: &[u8]) -> Result<Option<(Vec<Label>, &[u8])>, AllocError>
    ensures label { IfOk result (λ found. IfSome found (λ p. map segment_of p.0.items
        ≡ (read_label bytes.now).0)) }
    ensures rest { IfOk result (λ found. IfSome found (λ p. p.1.now ≡ (read_label bytes.now).1)) }
    ensures is_read { IfOk result (λ found. AllByRecursion IsSegment (read_label bytes.now).0
        → IsSome found) }
{
    let [mark, behind @ ..] = bytes else {
        return Ok(Some((Vec::new(alloc), bytes)));
    };
    if *mark == 0 {
        return Ok(Some((Vec::new(alloc), behind)));
    }
    take_segments(alloc, behind)
}

impl Version {
    ghost use Rattle.pep_version.specs.KeyReading.{read_version};

    /// The version whose place has its key at the front of these bytes (see [`Key::bytes`]), and the
    /// bytes behind the key; of bytes that begin with no key some version, or `None`. The only
    /// fault is `NoMemory`.
    pub(crate) fn at_front(
        alloc: Global,
        bytes: &[u8],
    ) -> Result<Option<(Version, &[u8])>, VersionFault>
        ensures exactly { IfOk result (λ found. IsSome found
            ↔ IsVersion (read_version bytes.now).0) }
        ensures version { IfOk result (λ found. IfSome found (λ p.
            p.0 ≡ (read_version bytes.now).0)) }
        ensures rest { IfOk result (λ found. IfSome found (λ p.
            p.1.now ≡ (read_version bytes.now).1)) }
        ensures faults { IfErr result (λ e. e ≡ VersionFault.NoMemory) }
    {
        let (epoch, rest) = take_number(bytes);
        let (release, rest) = take_release(alloc, rest)?;
        let (pre, rest) = take_stage(rest);
        let (post, rest) = take_post(rest);
        let (dev, rest) = take_dev(rest);
        let Some((label, rest)) = take_label(alloc, rest)? else {
            return Ok(None);
        };
        match Version::of_parts(epoch, release, pre, post, dev, label) {
            Some(version) => Ok(Some((version, rest))),
            None => Ok(None),
        }
    }
}

/// What stands behind the epoch and the release of a key's bytes (see [`Key::bytes`]). Public for the
/// crate of cuts, which tells their forms by it.
pub fn behind_release(bytes: &[u8]) -> &[u8]
    ensures { result.now ≡ behind_place bytes.now }
{
    let (_, release) = take_number(bytes);
    behind_numbers(release)
}
