//! The versions between two packed cuts, and those of a prefix.

ghost use Rattle.std.specs.Prelude.{◌≡◌, ◌<◌, ◌≤◌, ◌↔◌, ◌&&◌, [], length, IfSome, IsSome, IsTrue};
ghost use Rattle.pep_clause.specs.Cut.{Cut, IsCut, end, least};
ghost use Rattle.pep_clause.specs.OperatorTable.{before_dev, prefix_end, range};
ghost use Rattle.pep_clause.specs.VersionSet.{is_point};
ghost use Rattle.packed_cuts.specs.Way.PackedRange.{HasPrefixEnds, PrefixEndsShort, raised_last, release_prefix};
ghost use Rattle.pep_clause.specs.PackedCut.{AreShortNumbers, four};

use pep_clause::PackedCut;

/// The versions under the high cut and not under the low one.
#[derive(Clone, Copy)]
pub struct PackedRange {
    pub low: PackedCut,
    pub high: PackedCut,
}

impl PackedRange {
    /// The least cut and the end, between which all versions lie.
    pub fn all() -> PackedRange
        ensures low { result.low ≡ least }
        ensures high { result.high ≡ end }
    {
        PackedRange {
            low: PackedCut::least(),
            high: PackedCut::end(),
        }
    }

    /// The end and the least cut, between which no version lies.
    pub fn none() -> PackedRange
        ensures empty { range result.low result.high ≡ [] }
        ensures spelled { IsCut result.low × IsCut result.high }
    {
        PackedRange {
            low: PackedCut::end(),
            high: PackedCut::least(),
        }
    }

    /// Whether these are the least cut and the end.
    pub fn is_all(&self) -> bool
        ensures { IsTrue result ↔ ((self.now.low ≡ least) × (self.now.high ≡ end)) }
    {
        self.low == PackedCut::least() && self.high == PackedCut::end()
    }

    /// Moves the packed cuts inwards, to the versions that lie between the other ones too.
    #[inline(always)]
    pub fn meet(&mut self, other: PackedRange)
        ensures points { (c : Cut) → is_point (range self.new.low self.new.high) c
            ≡ (is_point (range self.old.low self.old.high) c
            && is_point (range other.low other.high) c) }
        ensures spelled { IsCut self.new.low × IsCut self.new.high }
    {
        self.low = self.low.later(other.low);
        self.high = self.high.earlier(other.high);
        // Its clauses tell that both cuts are in their one spelling.
        let _ = self.low.cmp(&self.high);
    }
}

// The release with its last number raised by one, as four numbers.
fn raised(release: &[u64]) -> Option<[u64; 4]>
    ensures end { IfSome result (λ n. before_dev 0 n ≡ prefix_end (release_prefix release.now)) }
    ensures numbers { IfSome result (λ n. n ≡ four (raised_last release.now)) }
    ensures some { IsSome result → 0 < length release.now }
    ensures few { IsSome result → length release.now ≤ 4 }
    ensures found { 0 < length release.now → length release.now ≤ 4
        → AreShortNumbers (raised_last release.now) → IsSome result }
{
    match release {
        [a] => Some([a.checked_add(1)?, 0, 0, 0]),
        [a, b] => Some([*a, b.checked_add(1)?, 0, 0]),
        [a, b, c] => Some([*a, *b, c.checked_add(1)?, 0]),
        [a, b, c, d] => Some([*a, *b, *c, d.checked_add(1)?]),
        _ => None,
    }
}

// The packed cut directly after all versions of epoch 0 whose release begins with these numbers (PEP 440, "Version
// matching").
pub(crate) fn prefix_end(release: &[u64]) -> Option<PackedCut>
    ensures cut { IfSome result (λ p. p ≡ prefix_end (release_prefix release.now)) }
    ensures exactly { IsSome result ↔ PrefixEndsShort (release_prefix release.now) }
{
    PackedCut::before_dev(0, &raised(release)?)
}

/// The packed cuts of a prefix with this release.
pub(crate) fn prefix_ends(release: &[u64]) -> Option<PackedRange>
    requires { 0 < length release.now }
    ensures low { IfSome result (λ b. b.low ≡ before_dev 0 release.now) }
    ensures high { IfSome result (λ b. b.high ≡ prefix_end (release_prefix release.now)) }
    ensures exactly { IsSome result ↔ HasPrefixEnds (release_prefix release.now) }
{
    let low = PackedCut::before_dev(0, release)?;
    let high = prefix_end(release)?;
    Some(PackedRange { low, high })
}
