//! Whether each of some claims is needed, as points tell: one for each that it alone leaves out.

ghost use Rattle.std.specs.Prelude.{◌≤◌, length, IfOk, IsTrue};
ghost use Rattle.reasons.specs.Way.Apart.{
  AdmitsOthers,
  AreBelow,
  AreClausesApart,
  AreRising,
  HasOthers,
  HasOwn,
  IsApart,
  IsClauseApart,
  IsEntryApart,
  OwnsBehind,
  OwnsBelow,
};
ghost use Rattle.reasons.specs.View.{claim_parts};

use crate::claims::Claim;
use demands::Entry;
use pep_clause::{Clause, Cut, Op, Range, VersionSet};
use pep_require::Target;
use std::alloc::{AllocError, Global};

/// A cut that one of some claims leaves out, and none of the others.
#[derive(Drop)]
pub(crate) struct Point {
    pub(crate) cut: Cut,
    // Which of the claims that is, counted from 0.
    pub(crate) owner: usize,
}

/// Whether no point stands below the one before it.
pub(crate) fn are_rising(points: &[Point]) -> bool
    ensures { IsTrue result → AreRising points.now }
{
    for index in 1..points.len() {
        if points[index].cut < points[index - 1].cut {
            return false;
        }
    }
    true
}

/// For each of so many claims where a point of it stands, if there is one. No clause says that it does.
pub(crate) fn turns_of(
    alloc: Global,
    points: &[Point],
    count: usize,
) -> Result<Vec<usize>, AllocError> {
    let mut turns = vec![in alloc; 0; count]?;
    for (index, point) in points.iter().enumerate() {
        if let Some(turn) = turns.get_mut(point.owner) {
            *turn = index;
        }
    }
    Ok(turns)
}

// Whether the last of the points stands below the cut, and so all do.
fn are_below(points: &[Point], cut: &Cut) -> bool
    requires rising { AreRising points.now }
    ensures { IsTrue result → AreBelow points.now (length points.now) cut.now }
{
    match points.last() {
        Some(last) => last.cut < *cut,
        None => false,
    }
}

// How many points stand below the cut.
fn count_below(points: &[Point], cut: &Cut) -> usize
    requires rising { AreRising points.now }
    ensures within { result ≤ length points.now }
    ensures below { AreBelow points.now result cut.now }
{
    if are_below(points, cut) {
        return points.len();
    }
    points.partition_point(|point| point.cut < *cut)
}

// Whether the points from one on that stand below the cut are the claim's own.
fn owns_below(points: &[Point], from: usize, cut: &Cut, own: usize) -> bool
    requires rising { AreRising points.now }
    ensures { IsTrue result → OwnsBelow points.now from cut.now own }
{
    for index in from..points.len() {
        if points[index].cut >= *cut {
            return true;
        }
        if points[index].owner != own {
            return false;
        }
    }
    true
}

// Whether the points from one on are the claim's own.
fn owns_behind(points: &[Point], from: usize, own: usize) -> bool
    ensures { IsTrue result → OwnsBehind points.now from own }
{
    for index in from..points.len() {
        if points[index].owner != own {
            return false;
        }
    }
    true
}

// Whether the points of all other claims lie in the ranges.
fn has_others(ranges: &[Range], points: &[Point], own: usize) -> bool
    requires rising { AreRising points.now }
    ensures { IsTrue result → HasOthers ranges.now points.now own }
{
    let mut from = 0;
    for range in ranges {
        if !owns_below(points, from, range.low(), own) {
            return false;
        }
        from = count_below(points, range.high());
    }
    owns_behind(points, from, own)
}

// Whether the point there is the claim's.
fn has_own(points: &[Point], at: usize, own: usize) -> bool
    ensures { IsTrue result → HasOwn points.now own }
{
    match points.get(at) {
        Some(point) => point.owner == own,
        None => false,
    }
}

// Whether the clause admits the points of all other claims. One that demands a text may not.
fn clause_is_apart(
    alloc: Global,
    clause: &Clause,
    points: &[Point],
    own: usize,
) -> Result<bool, AllocError>
    requires rising { AreRising points.now }
    ensures { IfOk result (λ b. IsTrue b → IsClauseApart clause.now points.now own) }
{
    if clause.op() == Op::Exact {
        return Ok(false);
    }
    let Ok(versions) = VersionSet::of(alloc, clause) else {
        return Err(AllocError);
    };
    Ok(has_others(versions.ranges(), points, own))
}

// Whether each of the clauses does, and there are some.
fn clauses_are_apart(
    alloc: Global,
    clauses: &[Clause],
    points: &[Point],
    own: usize,
) -> Result<bool, AllocError>
    requires rising { AreRising points.now }
    ensures { IfOk result (λ b. IsTrue b → AreClausesApart clauses.now points.now own) }
{
    if clauses.is_empty() {
        return Ok(false);
    }
    for clause in clauses {
        if !clause_is_apart(alloc, clause, points, own)? {
            return Ok(false);
        }
    }
    Ok(true)
}

// Whether the entry admits the points of all other claims. One that demands a text may not.
fn entry_is_apart(entry: &Entry, points: &[Point], own: usize) -> bool
    requires rising { AreRising points.now }
    ensures { IsTrue result → IsEntryApart entry.now points.now own }
{
    entry.texts().items().is_empty() && has_others(entry.versions().ranges(), points, own)
}

// Whether the claim admits the points of all others, as far as its clauses and ranges tell.
fn admits_others(
    alloc: Global,
    claim: &Claim,
    points: &[Point],
    own: usize,
) -> Result<bool, AllocError>
    requires rising { AreRising points.now }
    ensures { IfOk result (λ b. IsTrue b → AdmitsOthers (claim_parts claim.now) points.now own) }
{
    match claim {
        Claim::Required(requirement) => match requirement.target() {
            Target::Bounds(clauses) => clauses_are_apart(alloc, clauses.as_slice(), points, own),
            Target::Direct(_) => Ok(false),
        },
        Claim::Entered(_, entry) => Ok(entry_is_apart(entry, points, own)),
    }
}

/// Whether the claim admits the points of all others, and one is its own, which is sought at this place.
pub(crate) fn is_apart(
    alloc: Global,
    claim: &Claim,
    points: &[Point],
    at: usize,
    own: usize,
) -> Result<bool, AllocError>
    requires rising { AreRising points.now }
    ensures { IfOk result (λ b. IsTrue b → IsApart (claim_parts claim.now) points.now own) }
{
    if !has_own(points, at, own) {
        return Ok(false);
    }
    admits_others(alloc, claim, points, own)
}
