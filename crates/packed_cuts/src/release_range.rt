//! What clauses admit, or leave out, whose version is a release of epoch 0 alone, as that of most clauses is.

ghost use Rattle.std.specs.Prelude.{◌≡◌, ◌↔◌, ◌<◌, length, IfSome, IsOk, IsSome, IsTrue};
ghost use Rattle.specifiers.specs.Clause.{version_clause};
ghost use Rattle.pep_clause.specs.Ends.{begin_cut, end_cut};
ghost use Rattle.packed_cuts.specs.Way.PackedRange.{
  BeginsShort,
  EndsShort,
  HoldsPrefix,
  HoldsRelease,
  PrefixHasRange,
  ReleaseHasRange,
};
ghost use Rattle.pep_clause.specs.PackedCut.{release_alone};

use crate::packed_range::{PackedRange, prefix_end, prefix_ends};
use pep_clause::PackedCut;
use specifiers::{Begin, End, Op};

// The packed cut where the versions begin that the clause of an operator and this release speaks of.
fn packed_begin(begin: Begin, release: &[u64]) -> Option<PackedCut>
    requires { 0 < length release.now }
    ensures cut { IfSome result (λ p. p ≡ begin_cut begin (release_alone release.now)) }
    ensures exactly { IsSome result ↔ BeginsShort begin release.now }
{
    match begin {
        Begin::Least => Some(PackedCut::least()),
        Begin::Version => PackedCut::before_release(release, None, None),
        Begin::Greater => PackedCut::past(0, release),
    }
}

// The packed cut where they end.
fn packed_end(end: End, release: &[u64]) -> Option<PackedCut>
    requires { 0 < length release.now }
    ensures cut { IfSome result (λ p. p ≡ end_cut end (release_alone release.now)) }
    ensures exactly { IsSome result ↔ EndsShort end release.now }
{
    match end {
        End::Version | End::Matching => PackedCut::before_release(release, Some(0), Some(0)),
        End::Less => PackedCut::before_release(release, None, Some(0)),
        End::Prefix => prefix_end(&release[..release.len() - 1]),
        End::All => Some(PackedCut::end()),
    }
}

// Whether the release has numbers, and makes a clause with the operator.
fn makes_clause(operator: Op, release: &[u64]) -> bool
    ensures { IsTrue result
        ↔ ((0 < length release.now) × IsOk (version_clause operator (release_alone release.now))) }
{
    operator != Op::Exact && release.len() >= operator.least_numbers()
}

impl PackedRange {
    /// What the clause of this operator and this release of epoch 0, with nothing behind it, admits, or with `!=`
    /// leaves out, between two packed cuts (PEP 440, "Version specifiers"). `None` where the release is written with
    /// more than four numbers, or one is too large for a packed cut (see [`PackedCut`]), with [`End::Prefix`] also the
    /// last but one raised by one; for an empty release; and where they make no clause, with `===` or with fewer
    /// numbers than the operator wants (see [`Op::least_numbers`]).
    pub fn of_release(operator: Op, release: &[u64]) -> Option<PackedRange>
        ensures clause { IfSome result (HoldsRelease operator release.now) }
        ensures exactly { IsSome result
            ↔ ((0 < length release.now) × ReleaseHasRange operator release.now) }
    {
        if !makes_clause(operator, release) {
            return None;
        }
        let low = packed_begin(operator.begin(), release)?;
        let high = packed_end(operator.end(), release)?;
        Some(PackedRange { low, high })
    }

    /// What the clause of this operator and this release of epoch 0, with `.*` behind it, admits, or with `!=` leaves
    /// out, between two packed cuts (PEP 440, "Version matching", "Version exclusion"). `None` where the release is
    /// written with more than four numbers, or one, or the last raised by one, is too large for a packed cut; for an
    /// empty release, and for other operators than `==` and `!=`, which take no prefix.
    pub fn of_prefix(operator: Op, release: &[u64]) -> Option<PackedRange>
        ensures clause { IfSome result (HoldsPrefix operator release.now) }
        ensures exactly { IsSome result
            ↔ ((0 < length release.now) × PrefixHasRange operator release.now) }
    {
        if release.is_empty() || !operator.takes_prefix() {
            return None;
        }
        prefix_ends(release)
    }
}
