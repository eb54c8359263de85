// Sets of versions.

ghost use Rattle.std.specs.Prelude.{
  ◌≡◌,
  ◌&&◌,
  ◌↔◌,
  ◌+◌,
  ◌++◌,
  ◌-◌,
  ◌≤◌,
  ◌∷◌,
  [],
  IfErr,
  IfOk,
  IfSome,
  IsOk,
  IsSome,
  IsTrue,
  None,
  length,
  not,
  OnErr,
  OnOk,
  option_map,
  option_to_list,
};
ghost use Rattle.std.specs.List.{AllByRecursion};
ghost use Rattle.std.specs.Cmp.{partial_equiv_from_equiv};
ghost use Rattle.std.specs.declared.cmp.Ordering.TheVariants.{Less};
ghost use Rattle.pep_version.specs.Version.{IsVersion, Version};
ghost use Rattle.specifiers.specs.Admits.{admits};
ghost use Rattle.specifiers.specs.Clause.{demanded_text, prefix_of};
ghost use Rattle.specifiers.specs.ClauseView.{IsStored, clause_of};
ghost use Rattle.specifiers.specs.Operator.{of_prefix, of_version};
ghost use Rattle.pep_clause.specs.Cut.{Cut, IsCut, cut_cmp, is_under};
ghost use Rattle.pep_clause.specs.Inhabited.{HasVersionUnlessEmpty};
ghost use Rattle.pep_clause.specs.Way.Joined.{all_within, are_within, joined};
ghost use Rattle.pep_clause.specs.OperatorTable.{outside, range, set_of};
ghost use Rattle.pep_clause.specs.Ends.{between};
ghost use Rattle.pep_clause.specs.SetEquality.{SameVersions, same_ranges, same_ranges-equiv};
ghost use Rattle.pep_clause.specs.VersionSet.{In, IsIncreasing, IsNormal, all_versions, cuts, is_in};
ghost use Rattle.pep_clause.specs.VersionSet.{HasFewRanges, is_point};

use crate::cut::Cut;
use crate::range::Range;
use crate::range_ends::{begin_cut, end_cut, prefix_end};
use crate::ranges::Ranges;
use crate::sweep::swept_ranges;
use crate::turns::Turns;
use pep_version::{Key, Version};
use specifiers::{Clause, ClauseFault, Op, Operand};
use std::alloc::{AllocError, Global};
use std::cmp::Ordering;
use std::marker::Model;

/// A set of versions: ranges in order, each of which begins above the end of the one before.
#[derive(Drop)]
pub struct VersionSet {
    ranges: Ranges,
}

impl Model for VersionSet {
    ghost use Rattle.std.specs.Prelude.{List};
    ghost use Rattle.pep_clause.specs.SetView.{ranges_of};
    ghost use Rattle.pep_clause.specs.VersionSet.{IsNormal, Range};

    ghost Value = { List Range };

    ghost view = { λ a. ranges_of a.ranges };

    ghost invariant = { λ a. IsNormal (ranges_of a.ranges) };
}

// Whether the cut lies above the end of the ranges before it, if there are any.
fn is_behind(end: Option<&Cut>, low: &Cut) -> bool
    ensures { IsTrue result ↔ IsIncreasing (option_to_list (option_map (λ c. c.now) end.entry)
        ++ low.now ∷ []) }
{
    match end {
        Some(end) => end < low,
        None => true,
    }
}

// Whether each range begins above the end of the one before.
fn are_increasing(ranges: &[Range]) -> bool
    ensures increasing { IsTrue result ↔ IsIncreasing (cuts ranges.now) }
    ensures spelled { IsTrue result → AllByRecursion IsCut (cuts ranges.now) }
{
    let mut end = None;
    for range in ranges {
        if !is_behind(end, range.low()) {
            return false;
        }
        end = Some(range.high());
    }
    true
}

// The range goes to the end of the list, if its cuts are in order.
fn push_range(done: &mut Vec<Range>, low: Cut, high: Cut) -> Result<(), AllocError>
    ensures { OnOk result (done.new.items ≡ done.old.items ++ range low high) }
{
    if let Some(range) = Range::of(low, high) {
        done.push(range)?;
    }
    Ok(())
}

fn all_within(ranges: &[Range], other: &Range) -> bool
    ensures { result ≡ all_within ranges.now other.now }
{
    ranges.iter().all(|range| range.is_within(other))
}

/// Whether the other ranges are a single one, in which all the ranges lie.
fn are_within(ranges: &[Range], other_ranges: &[Range]) -> bool
    ensures { result ≡ are_within ranges.now other_ranges.now }
{
    match other_ranges {
        [other] => all_within(ranges, other),
        _ => false,
    }
}

impl VersionSet {
    /// The set of no version.
    pub fn none(alloc: Global) -> VersionSet
        ensures ranges { result ≡ [] }
        ensures versions { (v : Version) → ¬ In result v }
    {
        VersionSet {
            ranges: Ranges::of_option(alloc, None),
        }
    }

    /// The set of these ranges, which are kept as they are, or none where one does not begin above
    /// the end of the one before it. Of no ranges it is the set of no version.
    pub fn of_ranges(ranges: Vec<Range>) -> Option<VersionSet>
        ensures ranges { IfSome result (λ s. s ≡ ranges.items) }
        ensures in_order { IsSome result ↔ IsIncreasing (cuts ranges.items) }
    {
        if are_increasing(ranges.as_slice()) {
            Some(VersionSet {
                ranges: Ranges::of_list(ranges),
            })
        } else {
            None
        }
    }

    /// The set of all versions. Nothing is allocated, so there is no fault.
    pub fn all(alloc: Global) -> Result<VersionSet, ClauseFault>
        ensures all { IfOk result (λ s. s ≡ all_versions) }
        ensures versions { IfOk result (λ s. (v : Version) → In s v) }
        ensures found { IsOk result }
        ensures faults { IfErr result (λ e. e ≡ ClauseFault.NoMemory) }
    {
        Ok(VersionSet::between(alloc, Cut::least(), Cut::end()))
    }

    /// The versions between two cuts, of which there are none where the first is not below the second. Nothing is
    /// allocated.
    pub fn between(alloc: Global, low: Cut, high: Cut) -> VersionSet
        ensures ranges { result ≡ range low high }
        ensures versions { (v : Version) → is_in result v ≡ (is_under high v && not (is_under low v)) }
    {
        VersionSet {
            ranges: Ranges::of_option(alloc, Range::of(low, high)),
        }
    }

    /// The versions under the low cut, and those not under the high one.
    fn outside(alloc: Global, low: Cut, high: Cut) -> Result<VersionSet, AllocError>
        requires low { IsCut low }
        requires high { IsCut high }
        requires in_order { cut_cmp low high ≡ Less }
        ensures { IfOk result (λ s. s ≡ outside low high) }
    {
        let mut ranges = Vec::new(alloc);
        push_range(&mut ranges, Cut::least(), low)?;
        push_range(&mut ranges, high, Cut::end())?;
        Ok(VersionSet {
            ranges: Ranges::of_list(ranges),
        })
    }

    // The versions between two cuts, or where these are left out the others.
    fn by_cuts(alloc: Global, left_out: bool, low: Cut, high: Cut) -> Result<VersionSet, AllocError>
        requires low { IsCut low }
        requires high { IsCut high }
        requires in_order { IsTrue left_out → cut_cmp low high ≡ Less }
        ensures { IfOk result (λ s. s ≡ between left_out low high) }
    {
        if left_out {
            VersionSet::outside(alloc, low, high)
        } else {
            Ok(VersionSet::between(alloc, low, high))
        }
    }

    // The versions that the clause of this operator and version admits.
    fn of_version(alloc: Global, op: Op, version: &Version) -> Result<VersionSet, AllocError>
        requires { IsVersion version.now }
        ensures { IfOk result (λ s. s ≡ set_of (of_version op version.now)) }
    {
        let low = begin_cut(alloc, op.begin(), version)?;
        let high = end_cut(alloc, op.end(), version)?;
        VersionSet::by_cuts(alloc, op.leaves_out(), low, high)
    }

    // The versions that the clause of this operator and prefix admits.
    fn of_prefix(alloc: Global, op: Op, prefix: &Version) -> Result<VersionSet, AllocError>
        ensures { IfOk result (λ s. s ≡ set_of (of_prefix op (prefix_of prefix.now))) }
    {
        let (epoch, release) = (prefix.epoch(), prefix.release());
        let low = Cut::before_dev(alloc, epoch, release)?;
        let high = prefix_end(alloc, epoch, release)?;
        VersionSet::by_cuts(alloc, op.leaves_out(), low, high)
    }

    // The versions that the clause of this operator and operand admits; all where it demands a text.
    fn of_operand(alloc: Global, op: Op, operand: &Operand) -> Result<VersionSet, AllocError>
        requires { IsStored op operand.now }
        ensures { IfOk result (λ s. s ≡ set_of (clause_of op operand.now)) }
    {
        match operand {
            Operand::Version(version) => VersionSet::of_version(alloc, op, version),
            Operand::Prefix(prefix) => VersionSet::of_prefix(alloc, op, prefix),
            Operand::Text(_) => VersionSet::all(alloc).map_err(|_| AllocError),
        }
    }

    /// The versions that a clause admits (PEP 440, "Version specifiers"). A clause with `===`
    /// admits by the text of a version, which no range does: its set is that of all versions. The
    /// only fault is `NoMemory`.
    pub fn of(alloc: Global, clause: &Clause) -> Result<VersionSet, ClauseFault>
        ensures list { IfOk result (λ s. s ≡ set_of clause.now) }
        ensures versions { IfOk result (λ s. (v : Version) → IsVersion v →
            demanded_text clause.now ≡ None → is_in s v ≡ admits clause.now v) }
        ensures demanded { IfOk result (λ s. (v : Version) → IsSome (demanded_text clause.now) →
            In s v) }
        ensures normal { IfOk result (λ s. IsNormal s) }
        ensures inhabited { IfOk result (λ s. HasVersionUnlessEmpty s) }
        ensures faults { IfErr result (λ e. e ≡ ClauseFault.NoMemory) }
    {
        Ok(VersionSet::of_operand(alloc, clause.op(), clause.operand())?)
    }

    /// The versions that are in both sets, by one sweep over the ranges of both: each turn passes
    /// one of them, and is counted. The only fault is `NoMemory`.
    pub fn swept(
        &self,
        alloc: Global,
        other: &VersionSet,
        turns: &mut Turns,
    ) -> Result<VersionSet, ClauseFault>
        ensures points { IfOk result (λ s. (c : Cut) → is_point s c
            ≡ (is_point self.now c && is_point other.now c)) }
        ensures versions { IfOk result (λ s. (v : Version) →
            is_in s v ≡ (is_in self.now v && is_in other.now v)) }
        ensures normal { IfOk result (λ s. IsNormal s) }
        ensures few { IfOk result (λ s. HasFewRanges self.now other.now s) }
        ensures inhabited { IfOk result (λ s. HasVersionUnlessEmpty s) }
        ensures turns { turns.new.passed
            ≤ turns.old.passed + (length self.now + length other.now) }
        ensures no_fewer { turns.old.passed ≤ turns.new.passed }
        ensures faults { IfErr result (λ e. e ≡ ClauseFault.NoMemory) }
    {
        let (ranges, other_ranges) = (self.ranges.as_slice(), other.ranges.as_slice());
        let ranges = swept_ranges(alloc, ranges, other_ranges, turns)?;
        Ok(VersionSet {
            ranges: Ranges::of_list(ranges),
        })
    }

    /// The versions that are in both sets. The only fault is `NoMemory`.
    pub fn joined(&self, alloc: Global, other: &VersionSet) -> Result<VersionSet, ClauseFault>
        ensures points { IfOk result (λ s. (c : Cut) → is_point s c
            ≡ (is_point self.now c && is_point other.now c)) }
        ensures versions { IfOk result (λ s. (v : Version) →
            is_in s v ≡ (is_in self.now v && is_in other.now v)) }
        ensures normal { IfOk result (λ s. IsNormal s) }
        ensures few { IfOk result (λ s. HasFewRanges self.now other.now s) }
        ensures inhabited { IfOk result (λ s. HasVersionUnlessEmpty s) }
        ensures faults { IfErr result (λ e. e ≡ ClauseFault.NoMemory) }
    {
        self.swept(alloc, other, &mut Turns::none())
    }

    /// The versions that are in both sets, which are used up: their cuts are moved. The only fault is
    /// `NoMemory`.
    pub fn common(self, alloc: Global, other: VersionSet) -> Result<VersionSet, ClauseFault>
        ensures points { IfOk result (λ s. (c : Cut) → is_point s c
            ≡ (is_point self c && is_point other c)) }
        ensures versions { IfOk result (λ s. (v : Version) →
            is_in s v ≡ (is_in self v && is_in other v)) }
        ensures normal { IfOk result (λ s. IsNormal s) }
        ensures inhabited { IfOk result (λ s. HasVersionUnlessEmpty s) }
        ensures faults { IfErr result (λ e. e ≡ ClauseFault.NoMemory) }
    {
        if are_within(self.ranges.as_slice(), other.ranges.as_slice()) {
            return Ok(self);
        }
        let ranges = self.ranges.common(alloc, other.ranges)?;
        Ok(VersionSet { ranges })
    }

    /// Keeps the versions that are in the other set too. The only fault is `NoMemory`, and then the
    /// set is as it was.
    pub fn join(&mut self, alloc: Global, other: &VersionSet) -> Result<(), ClauseFault>
        ensures points { OnOk result ((c : Cut) → is_point self.new c
            ≡ (is_point self.old c && is_point other.now c)) }
        ensures versions { OnOk result ((v : Version) →
            is_in self.new v ≡ (is_in self.old v && is_in other.now v)) }
        ensures normal { OnOk result (IsNormal self.new) }
        ensures inhabited { OnOk result (HasVersionUnlessEmpty self.new) }
        ensures kept { OnErr result (self.new ≡ self.old) }
        ensures faults { IfErr result (λ e. e ≡ ClauseFault.NoMemory) }
    {
        if !are_within(self.ranges.as_slice(), other.ranges.as_slice()) {
            *self = self.joined(alloc, other)?;
        }
        Ok(())
    }

    /// Whether no version is in the set.
    pub fn is_empty(&self) -> bool
        ensures ranges { IsTrue result ↔ (self.now ≡ []) }
        ensures exactly { IsTrue result ↔ ((v : Version) → IsVersion v → ¬ In self.now v) }
    {
        self.ranges.as_slice().is_empty()
    }

    /// The ranges, in order.
    pub fn ranges(&self) -> &[Range]
        ensures ranges { result.now ≡ self.now }
        ensures normal { IsNormal self.now }
    {
        self.ranges.as_slice()
    }

    /// Whether the version at this place is in the set.
    pub fn contains(&self, key: &Key) -> bool
        ensures { result ≡ is_in self.now key.now }
    {
        self.ranges
            .as_slice()
            .iter()
            .any(|range| range.contains(key))
    }

    /// An equal set in storage of its own. The only fault is `NoMemory`.
    pub fn copied(&self, alloc: Global) -> Result<VersionSet, ClauseFault>
        ensures same { IfOk result (λ s. s ≡ self.now) }
        ensures faults { IfErr result (λ e. e ≡ ClauseFault.NoMemory) }
    {
        let ranges = self.ranges.copied(alloc)?;
        Ok(VersionSet { ranges })
    }
}

impl PartialEq for VersionSet {
    ghost eq = { same_ranges };

    ghost laws = { partial_equiv_from_equiv same_ranges-equiv };

    /// Whether both hold the same versions.
    fn eq(&self, other: &VersionSet) -> bool
        ensures ranges { result ≡ same_ranges self.now other.now }
        ensures list { IsTrue result ↔ (self.now ≡ other.now) }
        ensures versions { IsTrue result ↔ SameVersions self.now other.now }
    {
        self.ranges.as_slice() == other.ranges.as_slice()
    }
}

impl Eq for VersionSet {
    ghost laws = { same_ranges-equiv };
}
