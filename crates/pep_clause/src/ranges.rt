// How a set holds its ranges.

ghost use Rattle.std.specs.Prelude.{◌≡◌, ◌∷◌, [], option_to_list, IfOk};
ghost use Rattle.pep_clause.specs.SetView.{ranges_of};
ghost use Rattle.pep_clause.specs.VersionSet.{IsNormal};
ghost use Rattle.pep_clause.specs.Way.Joined.{joined};

use crate::range::Range;
use crate::sweep::moved_ranges;
use std::alloc::{AllocError, Global};
use std::slice::from_ref;

/// Ranges in order. Most sets have one, which needs no allocation.
#[derive(Drop)]
pub(crate) enum Ranges {
    One(Range),
    Any(Vec<Range>),
}

fn ranges_copied(alloc: Global, ranges: &[Range]) -> Result<Vec<Range>, AllocError>
    ensures { IfOk result (λ copy. copy.items ≡ ranges.now) }
{
    let mut copy = Vec::with_capacity(alloc, ranges.len())?;
    for range in ranges {
        copy.push(range.copied(alloc).map_err(|_| AllocError)?)?;
    }
    Ok(copy)
}

impl Ranges {
    /// The range, if there is one.
    pub(crate) fn of_option(alloc: Global, range: Option<Range>) -> Ranges
        ensures { ranges_of result ≡ option_to_list range }
    {
        match range {
            Some(range) => Ranges::One(range),
            None => Ranges::Any(Vec::new(alloc)),
        }
    }

    /// The ranges of a list.
    pub(crate) fn of_list(list: Vec<Range>) -> Ranges
        ensures { ranges_of result ≡ list.items }
    {
        if list.len() != 1 {
            return Ranges::Any(list);
        }
        let mut list = list;
        match list.pop() {
            Some(range) => Ranges::One(range),
            None => unreachable!(),
        }
    }

    pub(crate) fn as_slice(&self) -> &[Range]
        ensures { result.now ≡ ranges_of self.now }
    {
        match self {
            Ranges::One(range) => from_ref(range),
            Ranges::Any(list) => list.as_slice(),
        }
    }

    /// Equal ranges in storage of their own.
    pub(crate) fn copied(&self, alloc: Global) -> Result<Ranges, AllocError>
        ensures { IfOk result (λ copy. ranges_of copy ≡ ranges_of self.now) }
    {
        match self {
            Ranges::One(range) => Ok(Ranges::One(range.copied(alloc).map_err(|_| AllocError)?)),
            Ranges::Any(list) => Ok(Ranges::Any(ranges_copied(alloc, list.as_slice())?)),
        }
    }

    // The ranges as a list.
    fn into_list(self, alloc: Global) -> Result<Vec<Range>, AllocError>
        ensures { IfOk result (λ list. list.items ≡ ranges_of self) }
    {
        match self {
            Ranges::One(range) => Ok(Vec::from_array(alloc, [range])?),
            Ranges::Any(list) => Ok(list),
        }
    }

    /// What both have in common, which are used up: no cut is copied.
    pub(crate) fn common(self, alloc: Global, other_ranges: Ranges) -> Result<Ranges, AllocError>
        requires ranges { IsNormal (ranges_of self) }
        requires other_ranges { IsNormal (ranges_of other_ranges) }
        ensures { IfOk result (λ both. ranges_of both ≡ joined (ranges_of self) (ranges_of other_ranges)) }
    {
        match (self, other_ranges) {
            (Ranges::One(range), Ranges::One(other)) => {
                Ok(Ranges::of_option(alloc, range.common(other)))
            }
            (ranges, other_ranges) => {
                let list = ranges.into_list(alloc)?;
                let other_list = other_ranges.into_list(alloc)?;
                Ok(Ranges::of_list(moved_ranges(alloc, list, other_list)?))
            }
        }
    }
}
