// How the texts of packed cuts are read: number by number, as they are written.

ghost use Rattle.std.specs.Prelude.{◌≡◌, ◌↔◌, ◌++◌, ◌∷◌, ◌<◌, decimal, false, length, IfSome, IsTrue};
ghost use Rattle.pep_version.specs.Order.{short_release};
ghost use Rattle.pep_version.specs.Text.{part_text, pre_text};
ghost use Rattle.pep_clause.specs.Cut.{cut_text};
ghost use Rattle.pep_clause.specs.PackedCut.{front_text};
ghost use Rattle.pep_clause.specs.Way.Numbers.{HasTextWith};

use crate::packed_cut::PackedCut;
use crate::words;
use pep_version::Phase;

/// Whether the release has no zero at its end beyond its first number.
pub(crate) fn is_short(release: &[u64]) -> bool
    ensures { IsTrue result ↔ (short_release release.now ≡ release.now) }
{
    match release {
        [_, .., last] => *last != 0,
        _ => true,
    }
}

// The number in front of a text, if it is written as in a normal text, and what stands behind it.
#[inline(always)]
fn written_number(text: &[u8]) -> Option<(u64, &[u8])>
    ensures number { IfSome result (λ found. text.now ≡ decimal found.0 ++ found.1.now) }
    ensures shorter { IfSome result (λ found. length found.1.now < length text.now) }
{
    let (number, rest) = PackedCut::number_in(text)?;
    // A number that begins with a zero is one.
    if text[0] == b'0' && text.len() != rest.len() + 1 {
        return None;
    }
    Some((number, rest))
}

// What stands behind a dot with a digit behind it.
#[inline(always)]
fn behind_dot(text: &[u8]) -> Option<&[u8]>
    ensures { IfSome result (λ others. text.now ≡ 46 ∷ others.now) }
{
    let (first, others) = text.split_first()?;
    if *first != b'.' {
        return None;
    }
    match others {
        [b'0'..=b'9', ..] => Some(others),
        _ => None,
    }
}

// The pre-release part in front of a text, which may be missing, and what stands behind it.
#[inline(always)]
fn pre_in_front(text: &[u8]) -> Option<(Option<(Phase, u64)>, &[u8])>
    ensures { IfSome result (λ found. text.now ≡ pre_text found.0 ++ found.1.now) }
{
    let (phase, behind) = match text {
        [b'a', behind @ ..] => (Phase::Alpha, behind),
        [b'b', behind @ ..] => (Phase::Beta, behind),
        [b'r', b'c', behind @ ..] => (Phase::Rc, behind),
        _ => return Some((None, text)),
    };
    let (number, rest) = written_number(behind)?;
    Some((Some((phase, number)), rest))
}

// The part in front of a text that begins with the word, which may be missing, and what stands behind it.
#[inline(always)]
fn number_behind<'a>(word: &[u8], text: &'a [u8]) -> Option<(Option<u64>, &'a [u8])>
    ensures { IfSome result (λ found. text.now ≡ part_text word.now found.0 ++ found.1.now) }
{
    let Some(behind) = text.strip_prefix(word) else {
        return Some((None, text));
    };
    let (number, rest) = written_number(behind)?;
    Some((Some(number), rest))
}

// The packed cut whose text ends with this release and the rest, before a version of it.
#[inline(always)]
fn before_with(release: &[u64], rest: &[u8]) -> Option<PackedCut>
    requires some { 0 < length release.now }
    requires short { short_release release.now ≡ release.now }
    ensures { HasTextWith false release.now rest.now result }
{
    if rest.is_empty() {
        // as in most cuts
        return PackedCut::before_public(release, None, None, None);
    }
    let (pre, behind_pre) = pre_in_front(rest)?;
    let (post, behind_post) = number_behind(b".post", behind_pre)?;
    let (dev, behind_dev) = number_behind(b".dev", behind_post)?;
    if !behind_dev.is_empty() {
        return None;
    }
    PackedCut::before_public(release, pre, post, dev)
}

// The packed cut whose text ends with this release and the rest, past the release or before a version of it.
fn cut_with(release: &[u64], is_past: bool, rest: &[u8]) -> Option<PackedCut>
    requires { 0 < length release.now }
    ensures { HasTextWith is_past release.now rest.now result }
{
    if !is_short(release) {
        return None;
    }
    if !is_past {
        return before_with(release, rest);
    }
    if rest.is_empty() {
        PackedCut::past(0, release)
    } else {
        None
    }
}

// The packed cut whose text goes on so behind its word.
fn cut_behind(text: &[u8], is_past: bool) -> Option<PackedCut>
    ensures { IfSome result (λ cut. cut_text cut ≡ front_text is_past ++ text.now) }
{
    let mut numbers = [0; 4];
    let mut count = 0;
    let mut left = text;
    loop {
        let (number, rest) = written_number(left)?;
        if count == numbers.len() {
            return None;
        }
        numbers[count] = number;
        count += 1;
        match behind_dot(rest) {
            Some(others) => left = others,
            None => return cut_with(&numbers[..count], is_past, rest),
        }
    }
}

impl PackedCut {
    /// The packed cut whose text this is. Where there is none, the answer is `None`, but no clause says that it is `None`
    /// only there.
    pub(crate) fn read(text: &str) -> Option<PackedCut>
        ensures { IfSome result (λ cut. cut_text cut ≡ text.now) }
    {
        if let Some(version) = text.strip_prefix(words::BEFORE) {
            return cut_behind(version.as_bytes(), false);
        }
        if let Some(version) = text.strip_prefix(words::PAST) {
            return cut_behind(version.as_bytes(), true);
        }
        if text == words::END {
            Some(PackedCut::end())
        } else {
            None
        }
    }
}
