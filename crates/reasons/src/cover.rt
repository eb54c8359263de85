//! A cover of all versions by what claims leave out, from left to right, and which of its claims are needed. This is a
//! hint for the search: no clause says that it is right.

ghost use Rattle.std.specs.Prelude.{◌≤◌, length};

use std::alloc::{AllocError, Global};

/// What a claim leaves out, between two cuts of a list, by their numbers in it.
#[derive(Clone, Copy)]
pub(crate) struct Part {
    pub(crate) claim: usize,
    pub(crate) low: usize,
    pub(crate) high: usize,
}

/// A claim, and the number of a cut from which on up to the next one no other claim that is needed leaves versions out.
#[derive(Clone, Copy)]
pub(crate) struct Needed {
    pub(crate) claim: usize,
    pub(crate) at: usize,
}

// Numbers of which some are marked: each stands for itself until it is, and then for one further on.
#[derive(Drop)]
struct Marks {
    next: Vec<usize>,
}

impl Marks {
    fn none(alloc: Global, count: usize) -> Result<Marks, AllocError> {
        let mut next = Vec::with_capacity(alloc, count)?;
        for number in 0..count {
            next.push(number)?;
        }
        Ok(Marks { next })
    }

    fn after(&self, number: usize) -> usize {
        match self.next.get(number) {
            Some(&next) => next,
            None => number,
        }
    }

    fn set(&mut self, number: usize, next: usize) {
        if let Some(place) = self.next.get_mut(number) {
            *place = next;
        }
    }

    fn has(&self, number: usize) -> bool {
        self.after(number) != number
    }

    // The first number from this one on that isn't marked. The way there is made shorter.
    fn unmarked(&mut self, number: usize) -> usize {
        let mut at = number;
        for _ in 0..self.next.len() {
            let next = self.after(at);
            if next == at {
                break;
            }
            let further = self.after(next);
            self.set(at, further);
            at = further;
        }
        at
    }

    // Marks the numbers from the low one to below the high one, and puts those that weren't behind the others.
    fn mark(&mut self, part: Part, fresh: &mut Vec<usize>) -> Result<(), AllocError> {
        let mut at = self.unmarked(part.low);
        for _ in part.low..part.high {
            if at >= part.high {
                break;
            }
            self.set(at, at + 1);
            fresh.push(at)?;
            at = self.unmarked(at + 1);
        }
        Ok(())
    }
}

// For each cut but the last the part that begins there and ends last.
fn longest(alloc: Global, parts: &[Part], last: usize) -> Result<Vec<Option<Part>>, AllocError> {
    let mut longest = vec![in alloc; None; last]?;
    for &part in parts {
        keep_longer(&mut longest, part);
    }
    Ok(longest)
}

fn keep_longer(longest: &mut Vec<Option<Part>>, part: Part) {
    if let Some(kept) = longest.get_mut(part.low) {
        let is_longer = match kept {
            Some(old) => old.high < part.high,
            None => true,
        };
        if is_longer {
            *kept = Some(part);
        }
    }
}

// The parts by which all up to the last cut is left out, each of which reaches furthest from the end of the one before
// it; or none.
fn chosen(alloc: Global, parts: &[Part], last: usize) -> Result<Option<Vec<Part>>, AllocError> {
    let longest = longest(alloc, parts, last)?;
    let mut chosen = Vec::new(alloc);
    let mut best = Part {
        claim: 0,
        low: 0,
        high: 0,
    };
    let mut reach = 0;
    for (low, begun) in longest.iter().enumerate() {
        if let Some(part) = begun {
            if part.high > best.high {
                best = *part;
            }
        }
        if low == reach {
            if best.high <= low {
                return Ok(None);
            }
            chosen.push(best)?;
            reach = best.high;
        }
    }
    Ok(Some(chosen))
}

// All parts of the claims of which some part is chosen.
fn parts_of_chosen(
    alloc: Global,
    parts: &[Part],
    chosen: &[Part],
    claims: usize,
) -> Result<Vec<Part>, AllocError> {
    let mut is_chosen = vec![in alloc; false; claims]?;
    for part in chosen {
        if let Some(place) = is_chosen.get_mut(part.claim) {
            *place = true;
        }
    }
    let mut kept = Vec::new(alloc);
    for &part in parts {
        if is_chosen.get(part.claim) == Some(&true) {
            kept.push(part)?;
        }
    }
    Ok(kept)
}

// Which claim leaves out what lies behind each cut, the last one of those that do; and of each claim these cuts, as
// a list that is linked.
#[derive(Drop)]
struct Owned {
    // The first cut of each claim, and behind each cut the next one of its claim, if they are below the number of cuts.
    first: Vec<usize>,
    after: Vec<usize>,
}

impl Owned {
    fn none(alloc: Global, last: usize, claims: usize) -> Result<Owned, AllocError> {
        Ok(Owned {
            first: vec![in alloc; last; claims]?,
            after: vec![in alloc; last; last]?,
        })
    }

    fn take(&mut self, claim: usize, cuts: &[usize]) {
        for &cut in cuts {
            if let (Some(first), Some(after)) = (
                self.first.get_mut(claim),
                self.after.get_mut(cut),
            ) {
                *after = *first;
                *first = cut;
            }
        }
    }

    // The first cut of the claim that isn't marked.
    fn unmarked(&self, claim: usize, marks: &Marks) -> Option<usize> {
        let mut at = *self.first.get(claim)?;
        for _ in 0..self.after.len() {
            let next = *self.after.get(at)?;
            if !marks.has(at) {
                return Some(at);
            }
            at = next;
        }
        None
    }
}

fn owners(alloc: Global, parts: &[Part], last: usize, claims: usize) -> Result<Owned, AllocError> {
    let mut owned = Owned::none(alloc, last, claims)?;
    let mut marks = Marks::none(alloc, last)?;
    let mut fresh = Vec::new(alloc);
    for part in parts.iter().rev() {
        marks.mark(*part, &mut fresh)?;
        owned.take(part.claim, fresh.as_slice());
        fresh.clear();
    }
    Ok(owned)
}

// How many parts in front are of one claim.
fn run_of(parts: &[Part]) -> usize
    ensures { result ≤ length parts.now }
{
    match parts.first() {
        Some(first) => parts
            .iter()
            .take_while(|part| part.claim == first.claim)
            .count(),
        None => 0,
    }
}

// The claims that are needed: each leaves out something that the kept ones before it and all behind it don't.
fn kept(
    alloc: Global,
    parts: &[Part],
    last: usize,
    claims: usize,
) -> Result<Vec<Needed>, AllocError> {
    let owned = owners(alloc, parts, last, claims)?;
    let mut marks = Marks::none(alloc, last)?;
    let mut fresh = Vec::new(alloc);
    let mut kept = Vec::new(alloc);
    let mut until = 0;
    for (index, part) in parts.iter().enumerate() {
        if index == until {
            let run = run_of(&parts[index..]);
            until = index + run;
            if let Some(at) = owned.unmarked(part.claim, &marks) {
                kept.push(Needed {
                    claim: part.claim,
                    at,
                })?;
                mark_all(&mut marks, &parts[index..until], &mut fresh)?;
            }
        }
    }
    Ok(kept)
}

fn mark_all(marks: &mut Marks, parts: &[Part], fresh: &mut Vec<usize>) -> Result<(), AllocError> {
    for &part in parts {
        marks.mark(part, fresh)?;
        fresh.clear();
    }
    Ok(())
}

/// Of so many claims a few that may leave out all up to the last cut, none of which may be left away; or none. The
/// parts stand in the order of their claims.
pub(crate) fn covering(
    alloc: Global,
    parts: &[Part],
    last: usize,
    claims: usize,
) -> Result<Vec<Needed>, AllocError> {
    let Some(chosen) = chosen(alloc, parts, last)? else {
        return Ok(Vec::new(alloc));
    };
    let parts = parts_of_chosen(alloc, parts, chosen.as_slice(), claims)?;
    kept(alloc, parts.as_slice(), last, claims)
}
