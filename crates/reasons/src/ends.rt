//! What claims leave out, between cuts that are numbered in order.

use crate::cover::Part;
use pep_clause::{Clause, Cut, Range, VersionSet};
use std::alloc::{AllocError, Global};

// Where a part begins or ends.
#[derive(Drop)]
struct End {
    cut: Cut,
    part: usize,
    is_high: bool,
}

/// What claims leave out, part by part, in the order of the claims.
#[derive(Drop)]
pub(crate) struct Ends {
    ends: Vec<End>,
    parts: Vec<Part>,
}

/// The same with the cuts by their numbers.
#[derive(Drop)]
pub(crate) struct Numbered {
    ends: Vec<End>,
    pub(crate) parts: Vec<Part>,
    // For each cut one of the ends that stand there.
    cuts: Vec<usize>,
}

impl Ends {
    pub(crate) fn none(alloc: Global) -> Ends {
        Ends {
            ends: Vec::new(alloc),
            parts: Vec::new(alloc),
        }
    }

    /// Puts what the claim leaves out between two cuts behind the others.
    pub(crate) fn push(&mut self, claim: usize, low: Cut, high: Cut) -> Result<(), AllocError> {
        if low >= high {
            return Ok(());
        }
        let part = self.parts.len();
        self.ends.push(End {
            cut: low,
            part,
            is_high: false,
        })?;
        self.ends.push(End {
            cut: high,
            part,
            is_high: true,
        })?;
        self.parts.push(Part {
            claim,
            low: 0,
            high: 0,
        })?;
        Ok(())
    }

    // Puts a cut behind the others where nothing begins or ends.
    fn push_cut(&mut self, cut: Cut) -> Result<(), AllocError> {
        self.ends.push(End {
            cut,
            part: usize::MAX,
            is_high: false,
        })?;
        Ok(())
    }

    /// The cuts by their numbers, of which the first and the last are to be these.
    pub(crate) fn numbered(
        self,
        alloc: Global,
        first: Cut,
        last: Cut,
    ) -> Result<Numbered, AllocError> {
        let mut all = self;
        all.push_cut(first)?;
        all.push_cut(last)?;
        let Ends {
            mut ends,
            mut parts,
        } = all;
        ends.sort_unstable_by(|a, b| a.cut.cmp(&b.cut));
        let cuts = number_parts(alloc, ends.as_slice(), parts.as_mut_slice())?;
        Ok(Numbered { ends, parts, cuts })
    }
}

// Whether the cut of the end is not that of the one before it.
fn is_next(ends: &[End], index: usize) -> bool {
    match (index.checked_sub(1), ends.get(index)) {
        (Some(before), Some(end)) => match ends.get(before) {
            Some(other) => other.cut != end.cut,
            None => true,
        },
        _ => true,
    }
}

fn number_end(parts: &mut [Part], part: usize, is_high: bool, number: usize) {
    if let Some(part) = parts.get_mut(part) {
        if is_high {
            part.high = number;
        } else {
            part.low = number;
        }
    }
}

// Puts the numbers of cuts into the parts, whose ends are sorted. For each cut one of the ends that stand there.
fn number_parts(alloc: Global, ends: &[End], parts: &mut [Part]) -> Result<Vec<usize>, AllocError> {
    let mut cuts = Vec::new(alloc);
    for (index, end) in ends.iter().enumerate() {
        if is_next(ends, index) {
            cuts.push(index)?;
        }
        number_end(parts, end.part, end.is_high, cuts.len().saturating_sub(1));
    }
    Ok(cuts)
}

impl Numbered {
    /// The number of the last cut.
    pub(crate) fn last(&self) -> usize {
        self.cuts.len().saturating_sub(1)
    }

    /// The cut with the number.
    pub(crate) fn cut(&self, alloc: Global, number: usize) -> Result<Option<Cut>, AllocError> {
        let Some(&index) = self.cuts.get(number) else {
            return Ok(None);
        };
        match self.ends.get(index) {
            Some(end) => Ok(Some(end.cut.copied(alloc).map_err(|_| AllocError)?)),
            None => Ok(None),
        }
    }
}

/// Puts what is in none of the ranges behind the rest.
pub(crate) fn push_others(
    alloc: Global,
    ends: &mut Ends,
    claim: usize,
    ranges: &[Range],
) -> Result<(), AllocError> {
    let mut low = Cut::least();
    for range in ranges {
        let end = range.low().copied(alloc).map_err(|_| AllocError)?;
        ends.push(claim, low, end)?;
        low = range.high().copied(alloc).map_err(|_| AllocError)?;
    }
    ends.push(claim, low, Cut::end())
}

/// Puts what the clause leaves out behind the rest.
pub(crate) fn push_cuts(
    alloc: Global,
    ends: &mut Ends,
    claim: usize,
    clause: &Clause,
) -> Result<(), AllocError> {
    let versions = VersionSet::of(alloc, clause).map_err(|_| AllocError)?;
    push_others(alloc, ends, claim, versions.ranges())
}
