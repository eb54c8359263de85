//! The versions of a package as partial joins: sets of which the join counts, each with more than
//! twice as many ranges as the next. So what comes for one package, one by one, is joined at a cost
//! that is no square of it.

ghost use Rattle.std.specs.Prelude.{◌≡◌, ◌<◌, IfOk, IsTrue, OnOk, length};
ghost use Rattle.pep_clause.specs.Way.Joined.{joined};
ghost use Rattle.demands.specs.Join.{IsIntersection};
ghost use Rattle.demands.specs.Way.PartialJoins.{AreNormal, joined_sets};

use pep_clause::VersionSet;
use std::alloc::{AllocError, Global};

// Sets of so few ranges are joined at once, whatever comes.
const FEW: usize = 4;

// The versions that are in both sets, which are used up.
fn common(alloc: Global, kept: VersionSet, other: VersionSet) -> Result<VersionSet, AllocError>
    ensures { IfOk result (IsIntersection kept other) }
{
    kept.common(alloc, other).map_err(|_| AllocError)
}

// Whether the last set is to be joined with this one: it has few ranges, or at most twice as many
// and one.
fn goes_with(sets: &[VersionSet], other: &VersionSet) -> bool
    ensures { IsTrue result → 0 < length sets.now }
{
    match sets {
        [.., last] => {
            let ranges = last.ranges().len();
            ranges <= FEW || ranges / 2 <= other.ranges().len()
        }
        [] => false,
    }
}

/// Keeps the versions that are in the other set too, which is used up.
pub(crate) fn narrow(
    alloc: Global,
    sets: &mut Vec<VersionSet>,
    other: VersionSet,
) -> Result<(), AllocError>
    requires { AreNormal sets.old.items }
    ensures ok { OnOk result (IsIntersection (joined_sets sets.old.items) other
        (joined_sets sets.new.items)) }
    ensures normal { AreNormal sets.new.items }
{
    // Its clause tells that the ranges are a normal list.
    let _ = other.ranges();
    let mut narrowed = other;
    'sets: while goes_with(sets.as_slice(), &narrowed) {
        if let Some(next) = sets.pop() {
            narrowed = common(alloc, next, narrowed)?;
        }
    }
    // Most packages keep one set.
    sets.reserve_exact(1)?;
    sets.push(narrowed)?;
    Ok(())
}

/// The versions that are in the set and in all these sets, which are used up, the smallest first.
pub(crate) fn joined_with(
    alloc: Global,
    kept: VersionSet,
    sets: Vec<VersionSet>,
) -> Result<VersionSet, AllocError>
    requires { AreNormal sets.items }
    ensures { IfOk result (λ s. s ≡ joined (joined_sets sets.items) kept) }
{
    // Its clause tells that the ranges are a normal list.
    let _ = kept.ranges();
    let (mut all, mut left) = (kept, sets);
    'sets: while let Some(next) = left.pop() {
        all = common(alloc, next, all)?;
    }
    Ok(all)
}

/// The join of all sets, the smallest first.
pub(crate) fn joined_of(alloc: Global, sets: Vec<VersionSet>) -> Result<VersionSet, AllocError>
    requires { AreNormal sets.items }
    ensures { IfOk result (λ s. s ≡ joined_sets sets.items) }
{
    let mut left = sets;
    match left.pop() {
        Some(last) => joined_with(alloc, last, left),
        None => VersionSet::all(alloc).map_err(|_| AllocError),
    }
}
