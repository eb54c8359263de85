//! Versions that are left out of all, between two packed cuts at a time.

ghost use Rattle.std.specs.Prelude.{
  ◌≡◌,
  ◌↔◌,
  ◌&&◌,
  ◌||◌,
  ◌++◌,
  ◌∷◌,
  ◌<◌,
  All,
  IfOk,
  IfSome,
  IsTrue,
  List,
  None,
  OnOk,
  [],
  false,
  length,
  map,
};
ghost use Rattle.std.specs.Ordering.{is_lt};
ghost use Rattle.std.specs.List.Sorted.{IsPermutation};
ghost use Rattle.pep_clause.specs.Cut.{Cut, IsCut, cut_cmp, end};
ghost use Rattle.pep_clause.specs.Way.Joined.{joined};
ghost use Rattle.pep_clause.specs.OperatorTable.{outside, range};
ghost use Rattle.pep_clause.specs.VersionSet.{IsNormal, all_versions, is_point};
ghost use Rattle.packed_cuts.specs.Way.LeftOut.{
  AreFalling,
  IsFalling,
  IsPart,
  IsSingle,
  TakesFirst,
  all_parts,
  is_left_out,
  left_over,
  lies_between,
  low_of,
  meets,
  itself,
  single,
};
ghost use Rattle.pep_clause.specs.PackedCut.{right_behind};

use crate::packed_range::PackedRange;
use pep_clause::{Cut, PackedCut, Range, VersionSet};
use std::alloc::{AllocError, Global};
use std::cmp::Ordering;
use std::marker::Model;
use std::mem::replace;

// So many are kept as they come.
const FEW: usize = 4;

// Of fewer, no memory is given back.
const LARGE: usize = 4096;

/// Versions that are left out of all, between two packed cuts at a time. Clauses see what is left over.
#[derive(Drop)]
pub struct LeftOut {
    // Packed cuts of which each leaves out what lies between it and the one right behind it, as `!=` and a version
    // demand.
    singles: Vec<PackedCut>,
    // So many of them, those in front, are in order, and each once. Where the new ones behind them are as many and
    // a few more, they are put in order too, and merged: so what repeats takes at most as much room again.
    settled: usize,
    // The parts of other forms.
    parts: Vec<PackedRange>,
    // Where there are as many parts, those that meet are joined.
    most_parts: usize,
}

impl Model for LeftOut {
    ghost use Rattle.std.specs.Prelude.{All, List};
    ghost use Rattle.pep_clause.specs.VersionSet.{Range};
    ghost use Rattle.packed_cuts.specs.Way.LeftOut.{IsPart, IsSingle, all_parts, left_over};

    ghost Value = { List Range };

    ghost view = { λ v. left_over (all_parts v.singles.items v.parts.items) };

    ghost invariant = { λ v. All IsSingle v.singles.items × All IsPart v.parts.items };
}

// Sorts the packed cuts behind so many, in place, so that the last one is the least.
fn sort_new(singles: &mut [PackedCut], settled: usize)
    ensures { IsPermutation singles.old singles.new }
{
    let (_, new) = singles.split_at_mut(settled.min(singles.len()));
    new.sort_unstable_by(|a, b| b.cmp(a));
}

// Puts single packed cuts in order, so that the last one is the least, and keeps each once. So many in front are in
// order: they are merged with the others, which wants no more room than these have.
fn order_singles(singles: &mut Vec<PackedCut>, settled: usize) -> Result<(), AllocError>
    requires { All IsSingle singles.old.items }
    ensures falling { OnOk result (IsFalling itself singles.new.items) }
    ensures points { (c : Cut) → is_left_out (map single singles.new.items) c
        ≡ is_left_out (map single singles.old.items) c }
    ensures singles { All IsSingle singles.new.items }
{
    sort_new(singles.as_mut_slice(), settled);
    singles.sort_by(|a, b| b.cmp(a))?;
    singles.dedup();
    Ok(())
}

// Sorts the parts so that the last one begins first.
fn sort_falling(parts: &mut Vec<PackedRange>)
    ensures permutation { IsPermutation parts.old.items parts.new.items }
    ensures falling { IsFalling low_of parts.new.items }
{
    parts.sort_unstable_by(|a, b| b.low.cmp(&a.low));
}

// Whether the second part, which begins no earlier, begins in the first or at its end.
fn meets(first: &PackedRange, second: &PackedRange) -> bool
    ensures { result ≡ meets first.now second.now }
{
    !(second.low < first.low) && !(first.high < second.low)
}

// Puts a part behind the others, or joins it with the last one where the two meet.
fn push_part(parts: &mut Vec<PackedRange>, part: PackedRange) -> Result<(), AllocError>
    requires parts { All IsPart parts.old.items }
    requires part { IsPart part }
    ensures points { OnOk result ((c : Cut) → is_left_out parts.new.items c
        ≡ (is_left_out parts.old.items c || lies_between part.low part.high c)) }
    ensures parts { OnOk result (All IsPart parts.new.items) }
{
    let Some(last) = parts.pop() else {
        parts.push(part)?;
        return Ok(());
    };
    if meets(&last, &part) {
        let high = last.high.later(part.high);
        parts.push(PackedRange {
            low: last.low,
            high,
        })?;
        return Ok(());
    }
    parts.push(last)?;
    parts.push(part)?;
    Ok(())
}

// The same parts with those joined that meet.
fn merged(alloc: Global, parts: Vec<PackedRange>) -> Result<Vec<PackedRange>, AllocError>
    requires { All IsPart parts.items }
    ensures points { IfOk result (λ m. (c : Cut) → is_left_out m.items c
        ≡ is_left_out parts.items c) }
    ensures parts { IfOk result (λ m. All IsPart m.items) }
{
    let mut left = parts;
    sort_falling(&mut left);
    let mut joined = Vec::new(alloc);
    'parts: while let Some(part) = left.pop() {
        push_part(&mut joined, part)?;
    }
    Ok(joined)
}

// Puts the range between two packed cuts behind the others, where it isn't empty.
fn push_range(ranges: &mut Vec<Range>, low: PackedCut, high: PackedCut) -> Result<(), AllocError>
    ensures { OnOk result (ranges.new.items ≡ ranges.old.items ++ range low high) }
{
    if let Some(range) = Range::of(Cut::of_packed(low), Cut::of_packed(high)) {
        ranges.push(range)?;
    }
    Ok(())
}

// Whether no single packed cut stands before the part that begins first.
fn part_is_first(singles: &[PackedCut], parts: &[PackedRange]) -> bool
    requires { AreFalling singles.now parts.now }
    ensures part { IsTrue result → (b : PackedRange) (rest : List PackedRange) → parts.now ≡ rest ++ b ∷ []
        → All (λ c. is_lt (cut_cmp c b.low) ≡ false) singles.now }
    ensures single { result ≡ false → (c : Cut) (others : List Cut) → singles.now ≡ others ++ c ∷ []
        → All (λ b. is_lt (cut_cmp b.low c) ≡ false) parts.now }
    ensures none { IsTrue result → length parts.now ≡ 0 → length singles.now ≡ 0 }
    ensures some { result ≡ false → 0 < length singles.now }
{
    match (singles.last(), parts.last()) {
        (Some(cut), Some(part)) => part.low < *cut,
        (Some(_), None) => false,
        (None, _) => true,
    }
}

// Takes the part that begins first, the last one of either list.
fn take_first(singles: &mut Vec<PackedCut>, parts: &mut Vec<PackedRange>) -> Option<PackedRange>
    requires { AreFalling singles.old.items parts.old.items }
    ensures first { IfSome result (TakesFirst singles.old.items parts.old.items
        singles.new.items parts.new.items) }
    ensures none { result ≡ None → all_parts singles.old.items parts.old.items ≡ [] }
{
    if part_is_first(singles.as_slice(), parts.as_slice()) {
        return parts.pop();
    }
    let low = singles.pop()?;
    let high = low.right_behind();
    Some(PackedRange { low, high })
}

// Gives memory back where there is much, and most of it is not needed.
fn give_back<T>(list: &mut Vec<T>)
    ensures same { list.new.items ≡ list.old.items }
{
    let capacity = list.capacity();
    if capacity > LARGE && capacity / 2 > list.len() {
        list.shrink_to_fit();
    }
}

// The ranges from a packed cut on of what the parts leave over, by one sweep.
fn swept(
    alloc: Global,
    low: PackedCut,
    singles: Vec<PackedCut>,
    parts: Vec<PackedRange>,
) -> Result<Vec<Range>, AllocError>
    requires low { IsCut low }
    requires falling { AreFalling singles.items parts.items }
    ensures { IfOk result (λ r. r.items
        ≡ joined (range low end) (left_over (all_parts singles.items parts.items))) }
{
    let most = singles.len().saturating_add(parts.len()).saturating_add(1);
    let mut ranges = Vec::with_capacity(alloc, most)?;
    let (mut cuts, mut left) = (singles, parts);
    let mut from = low;
    'parts: while let Some(part) = take_first(&mut cuts, &mut left) {
        push_range(&mut ranges, from, part.low)?;
        from = from.later(part.high);
        give_back(&mut cuts);
    }
    push_range(&mut ranges, from, PackedCut::end())?;
    give_back(&mut ranges);
    Ok(ranges)
}

// The parts, and what lies at a packed cut and behind it.
fn closed(parts: Vec<PackedRange>, high: PackedCut) -> Result<Vec<PackedRange>, AllocError>
    requires { All IsPart parts.items }
    ensures points { IfOk result (λ all. (c : Cut) → is_left_out all.items c
        ≡ (is_left_out parts.items c || lies_between high end c)) }
    ensures parts { IfOk result (λ all. All IsPart all.items) }
{
    let end = PackedCut::end();
    if high.cmp(&end) != Ordering::Less {
        return Ok(parts);
    }
    let mut all = parts;
    all.push(PackedRange {
        low: high,
        high: end,
    })?;
    Ok(all)
}

impl LeftOut {
    /// No version is left out.
    pub fn none(alloc: Global) -> LeftOut
        ensures all { result ≡ all_versions }
        ensures normal { IsNormal result }
    {
        LeftOut {
            singles: Vec::new(alloc),
            settled: 0,
            parts: Vec::new(alloc),
            most_parts: FEW,
        }
    }

    /// Whether no version is left out.
    pub fn is_none(&self) -> bool
        ensures { IsTrue result ↔ (self.now ≡ all_versions) }
    {
        if !self.singles.is_empty() {
            return false;
        }
        self.parts.is_empty()
    }

    // Puts the new single packed cuts in order, where there are many.
    fn settle_singles(&mut self) -> Result<(), AllocError>
        ensures points { OnOk result ((c : Cut) → is_point self.new c ≡ is_point self.old c) }
        ensures normal { IsNormal self.new }
    {
        if self.singles.len() < self.settled.saturating_mul(2).saturating_add(FEW) {
            return Ok(());
        }
        order_singles(&mut self.singles, self.settled)?;
        self.settled = self.singles.len();
        Ok(())
    }

    // Joins the parts that meet, where there are many.
    fn settle_parts(&mut self, alloc: Global) -> Result<(), AllocError>
        ensures points { OnOk result ((c : Cut) → is_point self.new c ≡ is_point self.old c) }
        ensures normal { IsNormal self.new }
    {
        if self.parts.len() < self.most_parts {
            return Ok(());
        }
        let parts = replace(&mut self.parts, Vec::new(alloc));
        self.parts = merged(alloc, parts)?;
        self.most_parts = self.parts.len().saturating_mul(2).saturating_add(FEW);
        Ok(())
    }

    // Leaves out what lies between a packed cut and the one right behind it, too.
    fn leave_single(&mut self, cut: PackedCut) -> Result<(), AllocError>
        requires { IsSingle cut }
        ensures points { OnOk result ((c : Cut) → is_point self.new c
            ≡ (is_point self.old c && is_point (outside cut (right_behind cut)) c)) }
        ensures normal { IsNormal self.new }
    {
        self.settle_singles()?;
        self.singles.push(cut)?;
        Ok(())
    }

    // The same of what lies between two packed cuts.
    fn leave_part(&mut self, alloc: Global, part: PackedRange) -> Result<(), AllocError>
        requires { IsPart part }
        ensures points { OnOk result ((c : Cut) → is_point self.new c
            ≡ (is_point self.old c && is_point (outside part.low part.high) c)) }
        ensures normal { IsNormal self.new }
    {
        self.settle_parts(alloc)?;
        self.parts.push(part)?;
        Ok(())
    }

    /// Leaves out the versions between two packed cuts, too. Where memory lacks, what is left out is of no more use: it
    /// may lack what it had.
    pub fn leave_out(&mut self, alloc: Global, cuts: PackedRange) -> Result<(), AllocError>
        ensures points { OnOk result ((c : Cut) → is_point self.new c
            ≡ (is_point self.old c && is_point (outside cuts.low cuts.high) c)) }
        ensures normal { IsNormal self.new }
    {
        // Where a field is read, the invariant is at hand.
        let _ = &self.parts;
        if cuts.low.cmp(&cuts.high) != Ordering::Less {
            return Ok(());
        }
        if cuts.high.is_right_behind(cuts.low) {
            return self.leave_single(cuts.low);
        }
        self.leave_part(alloc, cuts)
    }

    /// The versions between two packed cuts that are left over.
    pub fn between(self, alloc: Global, cuts: PackedRange) -> Result<VersionSet, AllocError>
        ensures { IfOk result (λ s. s ≡ joined (range cuts.low cuts.high) self) }
    {
        // Its clauses tell that both cuts are in their one spelling.
        let _ = cuts.low.cmp(&cuts.high);
        let LeftOut {
            mut singles,
            settled,
            parts,
            ..
        } = self;
        order_singles(&mut singles, settled)?;
        let mut parts = closed(parts, cuts.high)?;
        sort_falling(&mut parts);
        let ranges = swept(alloc, cuts.low, singles, parts)?;
        match VersionSet::of_ranges(ranges) {
            Some(versions) => Ok(versions),
            None => unreachable!(),
        }
    }
}
