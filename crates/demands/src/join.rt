//! Joining what two sources demand.

ghost use Rattle.std.specs.Prelude.{◌≡◌, List, IfErr, IfOk, map};
ghost use Rattle.std.specs.Iterator.{Drains, IsFinite};
ghost use Rattle.demands.specs.Join.{IsJoin, JoinsAll};

use crate::fault::TableFault;
use pep_clause::VersionSet;
use std::alloc::Global;

/// Values of which two have one join, whatever their order, their grouping and their repeats.
pub trait Join: Drop {
    /// Holds of the values of the type.
    ghost is_value: { Self → Type 0 };

    /// The third is the join of the first two.
    ghost joins: { Self → Self → Self → Type 0 };

    /// The join of both. The only fault is `NoMemory`, 42.
    fn joined(&self, alloc: Global, other: &Self) -> Result<Self, TableFault>
        ensures left { is_value self.now }
        ensures right { is_value other.now }
        ensures value { IfOk result is_value }
        ensures joins { IfOk result (λ r. joins self.now other.now r) }
        ensures faults { IfErr result (λ e. e ≡ TableFault.NoMemory) };

    /// Joining is commutative, associative and idempotent, and two have one join.
    ghost laws: { IsJoin is_value joins };
}

/// The start joined with each item in turn. The only fault is `NoMemory`, 42.
pub fn join_all<'a, J: Join + 'a, I: Iterator<Item = &'a J> + Drop>(
    alloc: Global,
    start: J,
    items: I,
) -> Result<J, TableFault>
    requires can { I.can_next items }
    requires ends { IsFinite (I.remaining items) }
    ensures joined { IfOk result (λ r. (xs : List _) × Drains I.next_gives items xs
        × JoinsAll J.is_value J.joins start (map (λ x. x.now) xs) r) }
    ensures faults { IfErr result (λ e. e ≡ TableFault.NoMemory) }
{
    let mut all = start;
    for item in items {
        all = all.joined(alloc, item)?;
    }
    Ok(all)
}

impl Join for VersionSet {
    ghost use Rattle.pep_clause.specs.VersionSet.{IsNormal};
    ghost use Rattle.demands.specs.Join.{IsIntersection};
    ghost use Rattle.demands.specs.IntersectionLaws.{IsJoin-IsIntersection};

    ghost is_value = { IsNormal };

    ghost joins = { IsIntersection };

    ghost laws = { IsJoin-IsIntersection };

    fn joined(&self, alloc: Global, other: &VersionSet) -> Result<VersionSet, TableFault> {
        // Their clauses tell that both lists are normal.
        let _ = self.ranges();
        let _ = other.ranges();
        match VersionSet::joined(self, alloc, other) {
            Ok(versions) => Ok(versions),
            Err(_) => Err(TableFault::NoMemory),
        }
    }
}
