//! A few claims that may clash by themselves: a hint for the search. No clause says that they do.

use crate::apart::Point;
use crate::claims::{Claim, PlacedClaim};
use crate::cover::{Needed, covering};
use crate::ends::{Ends, Numbered, push_cuts, push_others};
use demands::Entry;
use packed_cuts::{PackedRange, PackedSet};
use pep_clause::{Clause, Cut, PackedCut, VersionSet};
use pep_require::Target;
use pep_version::{Key, Version, VersionFault};
use std::alloc::{AllocError, Global};

/// A few claims that may clash by themselves, by their indices, and points that each of them may leave out alone.
#[derive(Drop)]
pub(crate) struct Hint {
    pub(crate) few: Vec<usize>,
    pub(crate) points: Vec<Point>,
}

impl Hint {
    /// Two claims, or one twice, and no points.
    pub(crate) fn of_pair(alloc: Global, pair: (usize, usize)) -> Result<Hint, AllocError> {
        let few = vec![in alloc; pair.0.min(pair.1), pair.0.max(pair.1)]?;
        Ok(Hint {
            few,
            points: Vec::new(alloc),
        })
    }
}

// Moves the range inwards, to the versions that lie in the set too, as far as packed cuts tell.
fn narrow(range: &mut PackedRange, versions: &VersionSet) {
    match PackedSet::of(versions) {
        Some(set) if !set.outside => range.meet(set.range),
        _ => {}
    }
}

// The packed cuts between which all clauses admit versions, as far as packed cuts tell.
fn between(alloc: Global, clauses: &[Clause]) -> Result<PackedRange, AllocError> {
    let mut range = PackedRange::all();
    for clause in clauses {
        let versions = VersionSet::of(alloc, clause).map_err(|_| AllocError)?;
        narrow(&mut range, &versions);
    }
    Ok(range)
}

// The same of a claim. Of an entry no more is told than whether it admits a version.
fn range_of(alloc: Global, claim: &Claim) -> Result<PackedRange, AllocError> {
    match claim {
        Claim::Required(requirement) => match requirement.target() {
            Target::Bounds(clauses) => between(alloc, clauses.as_slice()),
            Target::Direct(_) => Ok(PackedRange::all()),
        },
        Claim::Entered(_, entry) if entry.versions().is_empty() => Ok(PackedRange::none()),
        Claim::Entered(..) => Ok(PackedRange::all()),
    }
}

// The claim whose versions begin last, and the one whose versions end first, by their indices, where no version is
// between them: one that admits no version by itself is both.
fn narrowest(alloc: Global, claims: &[PlacedClaim]) -> Result<Option<(usize, usize)>, AllocError> {
    let mut first = 0;
    let mut last = 0;
    let mut low = PackedCut::least();
    let mut high = PackedCut::end();
    for (index, placed) in claims.iter().enumerate() {
        let own = range_of(alloc, &placed.claim)?;
        if own.low >= own.high {
            return Ok(Some((index, index)));
        }
        if own.low > low {
            low = own.low;
            first = index;
        }
        if own.high < high {
            high = own.high;
            last = index;
        }
    }
    if low >= high {
        Ok(Some((first, last)))
    } else {
        Ok(None)
    }
}

// The text of the first URL that the claim demands.
fn url_of(claim: &Claim) -> Option<&str> {
    match claim {
        Claim::Required(requirement) => match requirement.target() {
            Target::Direct(url) => Some(url.text()),
            Target::Bounds(_) => None,
        },
        Claim::Entered(_, entry) => Some(entry.urls().items().first()?.as_str()),
    }
}

// Whether the claim demands two URLs.
fn has_two_urls(claim: &Claim) -> bool {
    match claim {
        Claim::Required(_) => false,
        Claim::Entered(_, entry) => entry.urls().items().len() > 1,
    }
}

// A claim that demands two URLs, or two claims with different ones, by their indices.
fn urls_apart(claims: &[PlacedClaim]) -> Option<(usize, usize)> {
    let mut first = None;
    for (index, placed) in claims.iter().enumerate() {
        if has_two_urls(&placed.claim) {
            return Some((index, index));
        }
        let Some(url) = url_of(&placed.claim) else {
            continue;
        };
        match first {
            Some((other, text)) => {
                if text != url {
                    return Some((other, index));
                }
            }
            None => first = Some((index, url)),
        }
    }
    None
}

// The first text that the claim demands of the version.
fn text_of(claim: &Claim) -> Option<&str> {
    match claim {
        Claim::Required(requirement) => match requirement.target() {
            Target::Bounds(clauses) => first_demanded(clauses.as_slice()),
            Target::Direct(_) => None,
        },
        Claim::Entered(_, entry) => Some(entry.texts().items().first()?.as_str()),
    }
}

fn first_demanded(clauses: &[Clause]) -> Option<&str> {
    for clause in clauses {
        if let Some(text) = clause.exact_text() {
            return Some(text);
        }
    }
    None
}

fn first_text(claims: &[PlacedClaim]) -> Option<(usize, &str)> {
    for (index, placed) in claims.iter().enumerate() {
        if let Some(text) = text_of(&placed.claim) {
            return Some((index, text));
        }
    }
    None
}

fn clauses_admit(alloc: Global, clauses: &[Clause], version: &Version) -> Result<bool, AllocError> {
    for clause in clauses {
        if !clause.admits(alloc, version).map_err(|_| AllocError)? {
            return Ok(false);
        }
    }
    Ok(true)
}

fn entry_admits(alloc: Global, entry: &Entry, version: &Version) -> Result<bool, AllocError> {
    let text = version.text(alloc).map_err(|_| AllocError)?;
    let is_text = entry
        .texts()
        .items()
        .iter()
        .all(|demanded| demanded.as_str() == text.as_str());
    if !is_text {
        return Ok(false);
    }
    let key = Key::of(alloc, version).map_err(|_| AllocError)?;
    Ok(entry.versions().contains(&key))
}

fn admits(alloc: Global, claim: &Claim, version: &Version) -> Result<bool, AllocError> {
    match claim {
        Claim::Required(requirement) => match requirement.target() {
            Target::Bounds(clauses) => clauses_admit(alloc, clauses.as_slice(), version),
            Target::Direct(_) => Ok(true),
        },
        Claim::Entered(_, entry) => entry_admits(alloc, entry, version),
    }
}

// The first claim that demands a text, and one that doesn't admit its version, by their indices.
fn text_apart(alloc: Global, claims: &[PlacedClaim]) -> Result<Option<(usize, usize)>, AllocError> {
    let Some((first, text)) = first_text(claims) else {
        return Ok(None);
    };
    let version = match Version::read(alloc, text) {
        Ok(version) => version,
        Err(VersionFault::NoMemory) => return Err(AllocError),
        Err(_) => return Ok(Some((first, first))),
    };
    for (index, placed) in claims.iter().enumerate() {
        if !admits(alloc, &placed.claim, &version)? {
            return Ok(Some((first, index)));
        }
    }
    Ok(None)
}

// ---- a cover of all versions by what claims leave out

fn push_claim(
    alloc: Global,
    ends: &mut Ends,
    index: usize,
    claim: &Claim,
) -> Result<(), AllocError> {
    match claim {
        Claim::Required(requirement) => {
            if let Target::Bounds(clauses) = requirement.target() {
                for clause in clauses {
                    push_cuts(alloc, ends, index, clause)?;
                }
            }
            Ok(())
        }
        Claim::Entered(_, entry) => push_others(alloc, ends, index, entry.versions().ranges()),
    }
}

// What the claims leave out.
fn left_out(alloc: Global, claims: &[PlacedClaim]) -> Result<Numbered, AllocError> {
    let mut ends = Ends::none(alloc);
    for (index, placed) in claims.iter().enumerate() {
        push_claim(alloc, &mut ends, index, &placed.claim)?;
    }
    ends.numbered(alloc, Cut::least(), Cut::end())
}

// A point for each claim that is needed, in the order of the cuts.
fn points_of(
    alloc: Global,
    numbered: &Numbered,
    needed: &[Needed],
) -> Result<Vec<Point>, AllocError> {
    let mut places = Vec::with_capacity(alloc, needed.len())?;
    for (owner, one) in needed.iter().enumerate() {
        places.push((one.at, owner))?;
    }
    places.sort_unstable();
    points_at(alloc, numbered, places.as_slice())
}

// Points at the cuts with these numbers, each with its owner.
fn points_at(
    alloc: Global,
    numbered: &Numbered,
    places: &[(usize, usize)],
) -> Result<Vec<Point>, AllocError> {
    let mut points = Vec::with_capacity(alloc, places.len())?;
    for &(at, owner) in places {
        if let Some(cut) = numbered.cut(alloc, at)? {
            points.push(Point { cut, owner })?;
        }
    }
    Ok(points)
}

// Claims that leave out all versions together, none of which may be left away, and for each a point.
fn hint_of(alloc: Global, numbered: &Numbered, claims: usize) -> Result<Hint, AllocError> {
    let needed = covering(alloc, numbered.parts.as_slice(), numbered.last(), claims)?;
    let points = points_of(alloc, numbered, needed.as_slice())?;
    let mut few = Vec::with_capacity(alloc, needed.len())?;
    for one in &needed {
        few.push(one.claim)?;
    }
    Ok(Hint { few, points })
}

/// Claims that may clash by the versions that they admit, and points.
pub(crate) fn clashing_versions(alloc: Global, claims: &[PlacedClaim]) -> Result<Hint, AllocError> {
    if let Some(pair) = narrowest(alloc, claims)? {
        return Hint::of_pair(alloc, pair);
    }
    if let Some(pair) = text_apart(alloc, claims)? {
        return Hint::of_pair(alloc, pair);
    }
    hint_of(alloc, &left_out(alloc, claims)?, claims.len())
}

/// Claims that may clash by their URLs.
pub(crate) fn clashing_urls(alloc: Global, claims: &[PlacedClaim]) -> Result<Hint, AllocError> {
    let pair = urls_apart(claims).unwrap_or((0, 0));
    Hint::of_pair(alloc, pair)
}
