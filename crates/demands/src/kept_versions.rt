//! The versions that are demanded of a package so far.

ghost use Rattle.std.specs.Prelude.{
  ◌≡◌,
  ◌++◌,
  IfOk,
  IfSome,
  List,
  OnOk,
  Some,
  map,
  option_map,
};
ghost use Rattle.pep_clause.specs.OperatorTable.{outside, range};
ghost use Rattle.pep_clause.specs.Way.Joined.{joined};
ghost use Rattle.pep_clause.specs.VersionSet.{IsNormal, Range, all_versions};
ghost use Rattle.demands.specs.Join.{IsIntersection};
ghost use Rattle.demands.specs.Way.KeptVersions.{AreNormalParts, beside_versions};
ghost use Rattle.demands.specs.Way.LineSets.{left_by};
ghost use Rattle.demands.specs.Way.PartialJoins.{joined_sets};

use crate::line_demands::LineDemands;
use crate::partial_joins::{joined_of, joined_with, narrow};
use packed_cuts::{LeftOut, PackedRange, PackedSet};
use pep_clause::{Cut, VersionSet};
use std::alloc::{AllocError, Global};
use std::marker::Model;

// What is kept beside two packed cuts: the versions that are not left out between two such cuts at a time, and that are
// in each of the sets.
#[derive(Drop)]
struct Beside {
    left_out: LeftOut,
    sets: Vec<VersionSet>,
}

/// The versions between two packed cuts, which move inwards line by line. Beside them stands what `!=` leaves over, and
/// the sets of clauses without packed cuts and of tables. Clauses see the ranges of the versions that are in all this.
#[derive(Drop)]
pub(crate) struct KeptVersions {
    range: PackedRange,
    // All versions, where it is `None`.
    beside: Option<Box<Beside>>,
}

impl Model for KeptVersions {
    ghost use Rattle.std.specs.Prelude.{List, option_map};
    ghost use Rattle.pep_clause.specs.Cut.{IsCut};
    ghost use Rattle.pep_clause.specs.VersionSet.{Range};
    ghost use Rattle.demands.specs.Way.KeptVersions.{AreNormalParts, beside_versions};
    ghost use Rattle.demands.specs.Way.PartialJoins.{kept_versions};

    ghost Value = { List Range };

    ghost view = { λ v. kept_versions v.range.low v.range.high
        (beside_versions (option_map (λ b. b.value) v.beside)) };

    ghost invariant = { λ v. IsCut v.range.low × IsCut v.range.high
        × AreNormalParts (option_map (λ b. b.value) v.beside) };
}

// What is kept beside two packed cuts: all versions, where there was nothing.
fn beside_or_all(alloc: Global, beside: Option<Box<Beside>>) -> Result<Box<Beside>, AllocError>
    requires { AreNormalParts (option_map (λ b. b.value) beside) }
    ensures same { IfOk result (λ b. beside_versions (Some b.value)
        ≡ beside_versions (option_map (λ b. b.value) beside)) }
    ensures normal { IfOk result (λ b. AreNormalParts (Some b.value)) }
{
    if let Some(kept) = beside {
        return Ok(kept);
    }
    let all = Beside {
        left_out: LeftOut::none(alloc),
        sets: Vec::new(alloc),
    };
    Ok(Box::new(alloc, all)?)
}

// The set of the versions between two packed cuts.
fn set_between(alloc: Global, cuts: PackedRange) -> VersionSet
    ensures { result ≡ range cuts.low cuts.high }
{
    VersionSet::between(alloc, Cut::of_packed(cuts.low), Cut::of_packed(cuts.high))
}

// The versions between two packed cuts that are left over.
fn left_between(
    alloc: Global,
    left_out: LeftOut,
    cuts: PackedRange,
) -> Result<VersionSet, AllocError>
    ensures { IfOk result (λ s. s ≡ joined (range cuts.low cuts.high) left_out) }
{
    if left_out.is_none() {
        // Its clauses tell that both cuts are in their one spelling.
        let _ = cuts.low.cmp(&cuts.high);
        return Ok(set_between(alloc, cuts));
    }
    left_out.between(alloc, cuts)
}

impl KeptVersions {
    /// All versions.
    pub(crate) fn all() -> KeptVersions
        ensures { result ≡ all_versions }
    {
        KeptVersions {
            range: PackedRange::all(),
            beside: None,
        }
    }

    // Does nothing. Its clause tells that the ranges are a normal list.
    fn in_order(&self)
        ensures { IsNormal self.now }
    {
        // Where a field is read, the invariant is at hand.
        let _ = &self.range;
    }

    // Keeps the versions of the other range.
    fn narrow_to(&mut self, other: PackedRange)
        ensures { IsIntersection self.old (range other.low other.high) self.new }
    {
        self.range.meet(other);
    }

    /// Keeps the versions that a line demands too, whose sets are moved. Where the line leaves none out, and each of
    /// its clauses has packed cuts, nothing is allocated.
    #[inline(always)]
    pub(crate) fn meet_line(
        &mut self,
        alloc: Global,
        line: &mut LineDemands,
    ) -> Result<(), AllocError>
        ensures { OnOk result (IsIntersection self.old line.old.versions self.new) }
    {
        self.narrow_to(line.range);
        self.leave_out_all(alloc, line.left_out.as_slice())?;
        self.meet_all(alloc, &mut line.sets)
    }

    // Keeps the versions that lie between none of these packed cuts.
    fn leave_out_all(&mut self, alloc: Global, left_out: &[PackedRange]) -> Result<(), AllocError>
        ensures { OnOk result
            (IsIntersection self.old (joined_sets (map left_by left_out.now)) self.new) }
    {
        self.in_order();
        for range in left_out {
            self.leave_out(alloc, *range)?;
        }
        Ok(())
    }

    // Keeps the versions that are in all these sets, which are moved: some may be left where that fails.
    #[inline(always)]
    fn meet_all(&mut self, alloc: Global, sets: &mut Vec<VersionSet>) -> Result<(), AllocError>
        ensures ok { OnOk result (IsIntersection self.old (joined_sets sets.old.items) self.new) }
        ensures fewer { (moved : List (List Range)) × (sets.old.items ≡ sets.new.items ++ moved) }
    {
        self.in_order();
        while let Some(versions) = sets.pop() {
            self.meet_beside(alloc, versions)?;
        }
        Ok(())
    }

    /// Keeps the versions that are in the set too, which is used up.
    pub(crate) fn meet(&mut self, alloc: Global, other: VersionSet) -> Result<(), AllocError>
        ensures { OnOk result (IsIntersection self.old other self.new) }
    {
        match PackedSet::of(&other) {
            Some(set) if set.outside => self.leave_out(alloc, set.range),
            Some(set) => {
                self.narrow_to(set.range);
                Ok(())
            }
            None => self.meet_beside(alloc, other),
        }
    }

    // The same of any set, which is kept beside the packed cuts.
    fn meet_beside(&mut self, alloc: Global, other: VersionSet) -> Result<(), AllocError>
        ensures { OnOk result (IsIntersection self.old other self.new) }
    {
        let mut beside = beside_or_all(alloc, self.beside.take())?;
        narrow(alloc, &mut beside.sets, other)?;
        self.beside = Some(beside);
        Ok(())
    }

    // Keeps the versions that don't lie in the range.
    fn leave_out(&mut self, alloc: Global, range: PackedRange) -> Result<(), AllocError>
        ensures { OnOk result (IsIntersection self.old (outside range.low range.high) self.new) }
    {
        let mut beside = beside_or_all(alloc, self.beside.take())?;
        beside.left_out.leave_out(alloc, range)?;
        self.beside = Some(beside);
        Ok(())
    }

    // The packed cuts, if the versions are all that lie between them.
    fn plain_range(&self) -> Option<PackedRange>
        ensures { IfSome result (λ b. range b.low b.high ≡ self.now) }
    {
        match self.beside {
            Some(_) => None,
            None => Some(self.range),
        }
    }

    /// Keeps the versions that are kept by the other ones too. Where these are between two packed cuts, nothing is
    /// allocated.
    pub(crate) fn meet_kept(&mut self, alloc: Global, other: KeptVersions) -> Result<(), AllocError>
        ensures { OnOk result (IsIntersection self.old other self.new) }
    {
        if let Some(range) = other.plain_range() {
            self.narrow_to(range);
            return Ok(());
        }
        let versions = other.finish(alloc)?;
        self.meet(alloc, versions)
    }

    /// The set of the versions. Where there are packed cuts alone, nothing is allocated.
    pub(crate) fn finish(self, alloc: Global) -> Result<VersionSet, AllocError>
        ensures { IfOk result (λ s. s ≡ self) }
    {
        let KeptVersions { range, beside } = self;
        let Some(beside) = beside else {
            return Ok(set_between(alloc, range));
        };
        let Beside { left_out, sets } = Box::into_inner(beside);
        if left_out.is_none() && range.is_all() {
            return joined_of(alloc, sets);
        }
        let left = left_between(alloc, left_out, range)?;
        joined_with(alloc, left, sets)
    }
}
