//! What one line demands of its package.

ghost use Rattle.std.specs.Prelude.{◌≡◌, [], IfOk, IfSome, IsTrue, OnOk};
ghost use Rattle.specifiers.specs.Clause.{Clause, demanded, is_demanded_text};
ghost use Rattle.pep_clause.specs.OperatorTable.{outside, range};
ghost use Rattle.pep_clause.specs.VersionSet.{IsNormal};
ghost use Rattle.packed_cuts.specs.Way.PackedSet.{ranges_in};
ghost use Rattle.pep_require.specs.Requirement.{UrlParts};
ghost use Rattle.pep_require.specs.View.{requirement_parts, target_parts};
ghost use Rattle.pep_require.specs.Way.Sink.{Adds, AddsClauses, AddsTarget, with_named};
ghost use Rattle.demands.specs.Gathering.{bare_entry};
ghost use Rattle.demands.specs.Way.LineDemands.{AddsClause, AddsExtra, AddsUrl, DemandsEntry, DemandsRanges};
ghost use Rattle.demands.specs.Table.{IsValidEntry, is_url_text};

use crate::others::Others;
use packed_cuts::{PackedRange, PackedSet};
use pep_clause::{Clause, VersionSet};
use pep_marker::Name;
use pep_require::{Requirement, Target};
use std::alloc::{AllocError, Global};
use std::marker::Model;

/// What the parts of one line so far demand of its package: extras, and clauses or a URL. It serves again for the next
/// line, so that most lines allocate nothing. Contracts see the entry of it.
///
/// A call that is refused leaves something that may stand in a table, and may have taken the part or not. So the line
/// is cleared before it is used again.
#[derive(Drop)]
pub struct LineDemands {
    pub(crate) range: PackedRange,
    // What `!=` leaves out.
    pub(crate) left_out: Vec<PackedRange>,
    // What clauses whose versions have no packed cuts admit.
    pub(crate) sets: Vec<VersionSet>,
    pub(crate) others: Others,
}

impl Model for LineDemands {
    ghost use Rattle.demands.specs.Way.LineSets.{AreLineSets, AreValidOthers, line_versions};
    ghost use Rattle.demands.specs.Way.Others.{entry_with};
    ghost use Rattle.demands.specs.Table.{EntryParts};

    ghost Value = { EntryParts };

    ghost view = { λ d. entry_with d.others (line_versions d.range d.left_out.items d.sets.items) };

    ghost invariant = { λ d. AreLineSets d.range d.left_out.items d.sets.items × AreValidOthers d.others };
}

// Empties the list, which is empty already behind most lines.
#[inline(always)]
fn empty<T: Drop>(list: &mut Vec<T>)
    ensures { list.new.items ≡ [] }
{
    if !list.is_empty() {
        list.clear();
    }
}

impl LineDemands {
    /// Nothing is demanded.
    pub fn new(alloc: Global) -> LineDemands
        ensures { result ≡ bare_entry }
    {
        LineDemands {
            range: PackedRange::all(),
            left_out: Vec::new(alloc),
            sets: Vec::new(alloc),
            others: Others::new(alloc),
        }
    }

    /// Nothing is demanded any more.
    #[inline(always)]
    pub fn clear(&mut self)
        ensures { self.new ≡ bare_entry }
    {
        self.range = PackedRange::all();
        empty(&mut self.left_out);
        empty(&mut self.sets);
        self.others.clear();
    }

    /// Does nothing. Its clause tells that what is demanded can stand in a table.
    pub(crate) fn as_entry(&self)
        ensures { IsValidEntry self.now }
    {
        self.others.in_order();
    }

    /// The versions of a range are demanded, by a clause that admits just these.
    #[inline(always)]
    pub(crate) fn meet(&mut self, other: PackedRange)
        ensures { (c : Clause) → DemandsRanges c (range other.low other.high)
            → AddsClause c self.old self.new }
    {
        self.range.meet(other);
    }

    /// The versions that don't lie in a range are demanded, by a clause with `!=` that admits just these (PEP
    /// 440, "Version exclusion").
    pub(crate) fn leave_out(&mut self, range: PackedRange) -> Result<(), AllocError>
        requires { IsNormal (outside range.low range.high) }
        ensures { OnOk result ((c : Clause) → DemandsRanges c (outside range.low range.high)
            → AddsClause c self.old self.new) }
    {
        self.left_out.push(range)?;
        Ok(())
    }

    /// The versions of a packed set are demanded, by a clause that admits just these.
    #[inline(always)]
    pub fn admit_packed(&mut self, versions: &PackedSet) -> Result<(), AllocError>
        requires { IsNormal (ranges_in versions.now) }
        ensures { OnOk result ((c : Clause) → DemandsRanges c (ranges_in versions.now)
            → AddsClause c self.old self.new) }
    {
        if versions.outside {
            return self.leave_out(versions.range);
        }
        self.meet(versions.range);
        Ok(())
    }

    // The versions of the set are demanded, by a clause that admits just these. Its packed set is given, if one is
    // told.
    fn admit(&mut self, versions: VersionSet) -> Result<Option<PackedSet>, AllocError>
        ensures added { IfOk result (λ _. (c : Clause) → DemandsRanges c versions
            → AddsClause c self.old self.new) }
        ensures found { IfOk result (λ found. IfSome found (λ d. ranges_in d ≡ versions)) }
    {
        // Its clause tells that the ranges are a normal list.
        let _ = versions.ranges();
        match PackedSet::of(&versions) {
            Some(set) => {
                self.admit_packed(&set)?;
                Ok(Some(set))
            }
            None => {
                self.push_set(versions)?;
                Ok(None)
            }
        }
    }

    // The same of any set, which is kept beside the packed cuts.
    fn push_set(&mut self, versions: VersionSet) -> Result<(), AllocError>
        ensures { OnOk result ((c : Clause) → DemandsRanges c versions
            → AddsClause c self.old self.new) }
    {
        // Its clause tells that the ranges are a normal list.
        let _ = versions.ranges();
        self.sets.push(versions)?;
        Ok(())
    }

    /// A clause is demanded: the versions that it admits, or the text of `===`. The packed set of these versions is
    /// given, if one is told.
    pub fn put_clause(
        &mut self,
        alloc: Global,
        clause: &Clause,
    ) -> Result<Option<PackedSet>, AllocError>
        ensures added { IfOk result (λ _. AddsClause clause.now self.old self.new) }
        ensures found { IfOk result (λ found. IfSome found (λ d.
            DemandsRanges clause.now (ranges_in d))) }
    {
        // Its clause tells that the clause is valid.
        let _ = clause.op();
        if let Some(text) = clause.exact_text() {
            self.put_text(text)?;
            return Ok(None);
        }
        match VersionSet::of(alloc, clause) {
            Ok(versions) => self.admit(versions),
            Err(_) => Err(AllocError),
        }
    }

    // .. and several clauses.
    fn put_clauses(&mut self, alloc: Global, clauses: &[Clause]) -> Result<(), AllocError>
        ensures { OnOk result (AddsClauses (λ r. DemandsEntry r self.old) (λ r. DemandsEntry r self.new)
            clauses.now) }
    {
        for clause in clauses {
            self.put_clause(alloc, clause)?;
        }
        Ok(())
    }

    // The clauses or the URL of a requirement are demanded.
    fn put_target(&mut self, alloc: Global, target: &Target) -> Result<(), AllocError>
        ensures { OnOk result (AddsTarget (λ r. DemandsEntry r self.old) (λ r. DemandsEntry r self.new)
            (target_parts target.now)) }
    {
        match target {
            Target::Bounds(clauses) => self.put_clauses(alloc, clauses.as_slice()),
            Target::Direct(url) => self.put_url(url.text()),
        }
    }

    // Each of the extras is demanded.
    fn put_extras(&mut self, names: &[Name]) -> Result<(), AllocError>
        ensures { OnOk result (Adds (λ r. DemandsEntry r self.old) (λ r. DemandsEntry r self.new)
            (with_named names.now)) }
    {
        for name in names {
            self.put_extra(name)?;
        }
        Ok(())
    }

    /// What a requirement demands, whatever its name and its marker.
    pub fn of(alloc: Global, requirement: &Requirement) -> Result<LineDemands, AllocError>
        ensures { IfOk result (λ d. DemandsEntry (requirement_parts requirement.now) d) }
    {
        let mut demands = LineDemands::new(alloc);
        demands.put_extras(requirement.extras())?;
        demands.put_target(alloc, requirement.target())?;
        Ok(demands)
    }

    /// An extra is demanded (PEP 508, "Extras").
    pub fn put_extra(&mut self, name: &Name) -> Result<(), AllocError>
        ensures { OnOk result (AddsExtra name.now self.old self.new) }
    {
        self.others.put_extra(name.text())
    }

    /// A text is demanded, as `===` does (PEP 440, "Arbitrary equality"): in lower case.
    pub fn put_text(&mut self, text: &str) -> Result<(), AllocError>
        requires { IsTrue (is_demanded_text text.now) }
        ensures { OnOk result (AddsClause (demanded text.now) self.old self.new) }
    {
        self.others.put_text(text)
    }

    /// A URL is demanded that is printed so.
    pub fn put_url(&mut self, text: &str) -> Result<(), AllocError>
        requires { IsTrue (is_url_text text.now) }
        ensures { OnOk result ((u : UrlParts) → u.text ≡ text.now → AddsUrl u self.old self.new) }
    {
        self.others.put_url(text)
    }
}
