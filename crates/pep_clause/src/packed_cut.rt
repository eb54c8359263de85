// Cuts as numbers of sixteen bytes.

mod number;
mod parts;
mod reading;
mod word;

ghost use Rattle.std.specs.Prelude.{
  ◌≡◌,
  ◌+◌,
  ◌++◌,
  ◌↔◌,
  ◌<◌,
  None,
  length,
  refl,
  IfSome,
  IsSome,
  IsTrue,
  OnErr,
  OnOk,
};
ghost use Rattle.std.specs.Cmp.{
  eq_by_cmp_equiv,
  partial_equiv_from_equiv,
  partial_order_from_total,
};
ghost use Rattle.std.specs.Ordering.{as_partial_cmp, eq_by_cmp};
ghost use Rattle.pep_version.specs.Order.{short_release, with_suffixes};
ghost use Rattle.pep_clause.specs.Cut.{IsCut, cut_cmp, cut_text, end, least, past};
ghost use Rattle.pep_clause.specs.CutBytes.{cut_bytes};
ghost use Rattle.pep_clause.specs.Way.Joined.{earlier, later};
ghost use Rattle.pep_clause.specs.Laws.{cut_total};
ghost use Rattle.pep_clause.specs.OperatorTable.{before_dev, before_place};
ghost use Rattle.pep_clause.specs.PackedCut.{
  IsPackedCut,
  IsShortRelease,
  IsShortVersion,
  cut_at,
  packed_word,
  release_alone,
  right_behind,
  word_before,
};
ghost use Rattle.texts.specs.TextOut.{Extends};

use crate::packed_cut::parts::{front_text, is_past, key_bytes_at, past_bytes_at, put_version_at};
pub(crate) use crate::packed_cut::reading::is_short;
use crate::packed_cut::word::{four, past, suffixed, word_of};
use crate::words;
use pep_version::{Phase, Version};
use std::cmp::Ordering;
use std::marker::Model;
use texts::TextOut;

/// How many bytes the room has in which the bytes of a cut are written (see [`Cut::bytes`](crate::Cut::bytes)): those
/// of the key of four numbers, three suffixes and no label, and a few more.
pub const CUT_ROOM: usize = 80;

// The halves of a number have eight bytes.
const HALF: u128 = 1 << 64;

// The bytes of the end.
const END: [u8; 9] = [0xff; 9];

/// A cut as one number of sixteen bytes, which most cuts have: the end of all versions, those past a release of epoch 0
/// that is written with at most four numbers, each of at most 25 bits, and those before a version without a label that
/// has such a release, whose pre-release number is below 128, and whose post- and developmental release numbers are
/// below 127. Clauses see the cut. All of it is public for the crates above alone.
///
/// The number has four times 25 bits for the release and four times 7 for what stands behind it; the end has all
/// bits. So numbers stand as the cuts do (PEP 440, "Summary of permitted suffixes and relative ordering").
#[derive(Clone, Copy)]
pub struct PackedCut {
    // The halves of the number: so a cut that has one takes no more than these and a tag.
    high: u64,
    low: u64,
}

impl Model for PackedCut {
    ghost use Rattle.std.specs.Prelude.{◌≡◌, ◌/◌, ◌%◌};
    ghost use Rattle.pep_clause.specs.Cut.{Cut};
    ghost use Rattle.pep_clause.specs.PackedCut.{cut_at, packed_word};
    ghost use Rattle.pep_clause.specs.PackedHalves.{AreHalves, half_unit, high_half, low_half, whole_word};

    ghost Value = { Cut };

    ghost view = { λ p. cut_at (whole_word p.high p.low) };

    ghost invariant = { λ p. AreHalves p.high p.low };

    ghost inverse = { λ c. record {
      high = packed_word c / half_unit;
      low = packed_word c % half_unit;
    } };

    ghost inverse_ok = { λ p h. λ i. record {
      high = high_half p.high p.low h i;
      low = low_half p.high p.low h i;
    } };
}

// The number of the cut directly before the version with these suffixes in place of its own, where it has one.
fn word_before(
    version: &Version,
    pre: Option<(Phase, u64)>,
    post: Option<u64>,
    dev: Option<u64>,
) -> Option<u128>
    ensures word { IfSome result (λ w.
        w ≡ word_before (with_suffixes version.now pre post dev)) }
    ensures exactly { IsSome result ↔ IsShortVersion (with_suffixes version.now pre post dev) }
{
    if version.epoch() != 0 || !version.label().is_empty() {
        return None;
    }
    let release = word_of(four(version.release())?)?;
    suffixed(release, pre, post, dev)
}

// The same of the version of epoch 0 with this release and these suffixes, and nothing more.
fn release_word_before(
    release: &[u64],
    pre: Option<(Phase, u64)>,
    post: Option<u64>,
    dev: Option<u64>,
) -> Option<u128>
    ensures word { IfSome result (λ w.
        w ≡ word_before (with_suffixes (release_alone release.now) pre post dev)) }
    ensures exactly { IsSome result
        ↔ IsShortVersion (with_suffixes (release_alone release.now) pre post dev) }
{
    let numbers = word_of(four(release)?)?;
    suffixed(numbers, pre, post, dev)
}

impl PackedCut {
    // The packed cut with this number.
    fn of_word(word: u128) -> PackedCut
        requires { IsPackedCut word }
        ensures { result ≡ cut_at word }
    {
        PackedCut {
            high: (word / HALF) as u64,
            low: (word % HALF) as u64,
        }
    }

    // Its number.
    fn word(&self) -> u128
        ensures number { result ≡ packed_word self.now }
        ensures packed { IsPackedCut result }
        ensures cut { cut_at result ≡ self.now }
    {
        self.high as u128 * HALF + self.low as u128
    }

    /// The cut under all versions.
    pub fn least() -> PackedCut
        ensures least { result ≡ least }
        ensures spelled { IsCut result }
    {
        PackedCut::of_word(0)
    }

    /// The end of all versions.
    pub fn end() -> PackedCut
        ensures end { result ≡ end }
        ensures spelled { IsCut result }
    {
        PackedCut::of_word(u128::MAX)
    }

    /// The packed cut directly before the version with these suffixes in place of its own, or `None` where its epoch
    /// isn't 0, its numbers are too large or too many, or it has a label.
    pub(crate) fn before(
        version: &Version,
        pre: Option<(Phase, u64)>,
        post: Option<u64>,
        dev: Option<u64>,
    ) -> Option<PackedCut>
        ensures cut { IfSome result (λ p.
            p ≡ before_place (with_suffixes version.now pre post dev)) }
        ensures spelled { IfSome result (λ p. IsCut p) }
        ensures exactly { IsSome result
            ↔ IsShortVersion (with_suffixes version.now pre post dev) }
    {
        // Its clause tells that the parts make a version.
        let _ = version.release();
        let word = word_before(version, pre, post, dev)?;
        Some(PackedCut::of_word(word))
    }

    /// The packed cut directly before the version of epoch 0 with this release and these suffixes, or `None` where its
    /// numbers are too large or too many.
    pub(crate) fn before_public(
        release: &[u64],
        pre: Option<(Phase, u64)>,
        post: Option<u64>,
        dev: Option<u64>,
    ) -> Option<PackedCut>
        requires { 0 < length release.now }
        ensures cut { IfSome result (λ p.
            p ≡ before_place (with_suffixes (release_alone release.now) pre post dev)) }
        ensures spelled { IfSome result (λ p. IsCut p) }
        ensures exactly { IsSome result
            ↔ IsShortVersion (with_suffixes (release_alone release.now) pre post dev) }
    {
        let word = release_word_before(release, pre, post, dev)?;
        Some(PackedCut::of_word(word))
    }

    /// The same of a version without a pre-release part.
    pub fn before_release(release: &[u64], post: Option<u64>, dev: Option<u64>) -> Option<PackedCut>
        requires { 0 < length release.now }
        ensures cut { IfSome result (λ p.
            p ≡ before_place (with_suffixes (release_alone release.now) None post dev)) }
        ensures spelled { IfSome result (λ p. IsCut p) }
        ensures exactly { IsSome result
            ↔ IsShortVersion (with_suffixes (release_alone release.now) None post dev) }
    {
        PackedCut::before_public(release, None, post, dev)
    }

    /// The packed cut before the first developmental release of a release, or `None` where its epoch isn't 0, or its
    /// numbers are too large or too many.
    pub fn before_dev(epoch: u64, release: &[u64]) -> Option<PackedCut>
        requires { 0 < length release.now }
        ensures cut { IfSome result (λ p. p ≡ before_dev epoch release.now) }
        ensures spelled { IfSome result (λ p. IsCut p) }
        ensures exactly { IsSome result ↔ IsShortRelease epoch release.now }
    {
        if epoch != 0 {
            return None;
        }
        PackedCut::before_release(release, None, Some(0))
    }

    /// The packed cut past everything of a release, or `None` where its epoch isn't 0, or its numbers are too large or
    /// too many.
    pub fn past(epoch: u64, release: &[u64]) -> Option<PackedCut>
        requires { 0 < length release.now }
        ensures cut { IfSome result (λ p. p ≡ past (record {
          epoch = epoch;
          release = short_release release.now;
        })) }
        ensures spelled { IfSome result (λ p. IsCut p) }
        ensures exactly { IsSome result ↔ IsShortRelease epoch release.now }
    {
        if epoch > 0 {
            return None;
        }
        let word = word_of(four(release)?)?;
        Some(PackedCut::of_word(past(word)))
    }

    /// Whether the packed cut is right behind another: its number is the next.
    pub fn is_right_behind(self, other: PackedCut) -> bool
        ensures exactly { IsTrue result
            ↔ ((self ≡ right_behind other) × IsPackedCut (packed_word other + 1)) }
    {
        other.word() < u128::MAX && other.word() + 1 == self.word()
    }

    /// The packed cut right behind this one, where the next number is one.
    pub fn right_behind(self) -> PackedCut
        requires { IsPackedCut (packed_word self + 1) }
        ensures { result ≡ right_behind self }
    {
        PackedCut::of_word(self.word() + 1)
    }

    /// The bytes of the cut (see [`Cut::bytes`](crate::Cut::bytes)), which may be written into the room.
    pub(crate) fn bytes<'a>(self, room: &'a mut [u8; CUT_ROOM]) -> &'a [u8]
        ensures bytes { result.now ≡ cut_bytes self }
        ensures spelled { IsCut self }
    {
        let word = self.word();
        if word == u128::MAX {
            return &END;
        }
        if is_past(word) {
            return past_bytes_at(room, word);
        }
        key_bytes_at(room, word)
    }

    /// Writes the text of the cut, as [`Cut::put_text`](crate::Cut::put_text).
    pub(crate) fn put_text<T: TextOut>(self, text: &mut T) -> Result<(), T::Fault>
        ensures ok { OnOk result (T.tells → T.written text.new
            ≡ T.written text.old ++ cut_text self) }
        ensures kept { OnErr result (T.tells → Extends (T.written text.old) (T.written text.new)) }
    {
        let word = self.word();
        if word == u128::MAX {
            return text.put_str(words::END);
        }
        text.put_str(front_text(word))?;
        put_version_at(text, word)
    }

    /// The later of two packed cuts.
    pub fn later(self, other: PackedCut) -> PackedCut
        ensures { result ≡ later cut_cmp self other }
    {
        if self < other { other } else { self }
    }

    /// The earlier of two packed cuts.
    pub fn earlier(self, other: PackedCut) -> PackedCut
        ensures { result ≡ earlier cut_cmp self other }
    {
        if self < other { self } else { other }
    }

    // How the cuts stand: as their numbers.
    fn order_to(&self, other: &PackedCut) -> Ordering
        ensures order { result ≡ cut_cmp self.now other.now }
        ensures spelled { IsCut self.now }
        ensures other_spelled { IsCut other.now }
    {
        self.word().cmp(&other.word())
    }
}

impl PartialEq for PackedCut {
    ghost eq = { eq_by_cmp cut_cmp };

    ghost laws = { partial_equiv_from_equiv (eq_by_cmp_equiv cut_total) };

    /// Whether both are the same cut.
    fn eq(&self, other: &PackedCut) -> bool
        ensures test { result ≡ eq_by_cmp cut_cmp self.now other.now }
        ensures one { IsTrue result ↔ (self.now ≡ other.now) }
    {
        self.word() == other.word()
    }
}

impl Eq for PackedCut {
    ghost laws = { eq_by_cmp_equiv cut_total };
}

impl PartialOrd for PackedCut {
    ghost partial_cmp = { as_partial_cmp cut_cmp };

    ghost laws = { partial_order_from_total cut_total };

    fn partial_cmp(&self, other: &PackedCut) -> Option<Ordering> {
        Some(self.order_to(other))
    }
}

impl Ord for PackedCut {
    ghost cmp = { cut_cmp };

    ghost total = { cut_total };

    ghost matches_partial_cmp = { λ a b. refl };

    ghost matches_eq = { λ a b. refl };

    /// One is less than another exactly if its cut is.
    fn cmp(&self, other: &PackedCut) -> Ordering
        ensures order { result ≡ cut_cmp self.now other.now }
        ensures spelled { IsCut self.now }
        ensures other_spelled { IsCut other.now }
    {
        self.order_to(other)
    }
}
