//! Which claims on a package clash: as many as the verdict needs, and none that it doesn't need.
//!
//! A hint says which claims may clash by themselves: two with different URLs, a demanded text and a claim that leaves
//! its version out, two bounds, or claims that leave out all versions together. Nothing rests on the hint, since what
//! it says is tried. If the claims of the hint are enough, they are taken, and else all claims. Points may tell that
//! each of those that were taken is needed. A point is a cut that one of them alone leaves out. Each claim is tried
//! clause by clause, against the points beside what the clause leaves out. So k claims cost k times a logarithm of k.
//!
//! Where no points tell that, as of a pair of claims, the search divides what was taken. What the claims in hand
//! demand is an entry, and each half of the others is searched beside it: first the second half beside all of the
//! first one, and then the first half beside those that were found in the second. What isn't needed falls away with
//! its half. So two claims are divided if a pair was hinted at and is enough, and all claims if no hint was.

ghost use Rattle.std.specs.Prelude.{◌≡◌, ◌++◌, IfOk, IsTrue, List, [], length, map};
ghost use Rattle.demands.specs.Gathering.{bare_entry};
ghost use Rattle.demands.specs.Join.{JoinsEntries};
ghost use Rattle.demands.specs.Table.{IsValidEntry};
ghost use Rattle.demands.specs.Verdict.{IsVerdict};
ghost use Rattle.reasons.specs.Way.Apart.{AreApart, AreRising};
ghost use Rattle.reasons.specs.Claims.{AreAmong, AreInOrder, Claimed, PlacedParts};
ghost use Rattle.reasons.specs.Clash.{IsPartThatClashes};
ghost use Rattle.reasons.specs.Way.ClashSearch.{
  AreEnough,
  AreFound,
  AreNeeded,
  ArePicked,
  AreWithin,
  Clashing,
  IsLeast,
  IsTold,
  RiseFrom,
  StandsFor,
  TakesClaim,
  TakesClaims,
  indices,
  without_extras,
};
ghost use Rattle.reasons.specs.View.{claim_parts, claims_at, placed_parts};

use crate::apart::{Point, are_rising, is_apart, turns_of};
use crate::claims::{Claim, PlacedClaim};
use crate::likely::{Hint, clashing_urls, clashing_versions};
use demands::{Entry, PackageDemands, Sorted, Verdict};
use pep_marker::Name;
use std::alloc::{AllocError, Global};

// What is demanded so far of the name, and by the claim.
fn take_claim(
    alloc: Global,
    demands: PackageDemands,
    claim: &Claim,
    name: &Name,
) -> Result<PackageDemands, AllocError>
    ensures { IfOk result (TakesClaim name.now demands (claim_parts claim.now)) }
{
    if *claim.name() != *name {
        return Ok(demands);
    }
    let mut demands = demands;
    match claim {
        Claim::Required(requirement) => demands.take(alloc, requirement)?,
        Claim::Entered(_, entry) => demands.join(
            alloc,
            entry.copied(alloc).map_err(|_| AllocError)?,
        )?,
    }
    Ok(demands)
}

// What is demanded so far of the name, and by the claims at these indices.
fn take_found(
    alloc: Global,
    demands: PackageDemands,
    claims: &[PlacedClaim],
    found: &[usize],
    name: &Name,
) -> Result<PackageDemands, AllocError>
    requires { AreWithin (map placed_parts claims.now) found.now }
    ensures { IfOk result (TakesClaims name.now demands
        (claims_at (map placed_parts claims.now) found.now)) }
{
    let mut demands = demands;
    for &index in found {
        demands = take_claim(alloc, demands, &claims[index].claim, name)?;
    }
    Ok(demands)
}

// A copy of the entry without its extras, by which no verdict goes.
fn copy_without_extras(alloc: Global, entry: &Entry) -> Result<Entry, AllocError>
    ensures same { IfOk result (λ e. e ≡ without_extras entry.now) }
    ensures valid { IsValidEntry (without_extras entry.now) }
{
    let Ok(urls) = entry.urls().copied(alloc) else {
        return Err(AllocError);
    };
    let Ok(texts) = entry.texts().copied(alloc) else {
        return Err(AllocError);
    };
    let Ok(versions) = entry.versions().copied(alloc) else {
        return Err(AllocError);
    };
    Ok(Entry::of(Sorted::new(alloc), urls, texts, versions))
}

// What the entry demands without its extras, to take more to it.
fn begun(alloc: Global, entry: &Entry) -> Result<PackageDemands, AllocError>
    ensures joined { IfOk result (JoinsEntries bare_entry (without_extras entry.now)) }
    ensures valid { IsValidEntry (without_extras entry.now) }
{
    let mut demands = PackageDemands::bare();
    demands.join(alloc, copy_without_extras(alloc, entry)?)?;
    Ok(demands)
}

// The entry of what no claims demand.
fn bare_entry(alloc: Global) -> Result<Entry, AllocError>
    ensures { IfOk result (λ e. e ≡ bare_entry) }
{
    PackageDemands::bare().entry(alloc)
}

// All indices below the number.
fn indices_below(alloc: Global, count: usize) -> Result<Vec<usize>, AllocError>
    ensures { IfOk result (λ all. all.items ≡ indices count) }
{
    let mut all = Vec::new(alloc);
    for index in 0..count {
        all.push(index)?;
    }
    Ok(all)
}

// Claims on a name, of which some are sought that clash.
#[derive(Drop)]
struct Trial<'a> {
    alloc: Global,
    claims: &'a [PlacedClaim],
    name: &'a Name,
    // The verdict on all of them.
    verdict: Verdict,
}

impl Trial<'_> {
    // What is demanded by claims for which the entry stands, and by those at these indices.
    fn with_more(&self, entry: &Entry, more: &[usize]) -> Result<Entry, AllocError>
        requires within { AreWithin (map placed_parts self.now.claims.now) more.now }
        ensures { IfOk result (λ both. (some : List PlacedParts)
            → StandsFor self.now.name.now some entry.now
            → StandsFor self.now.name.now
            (some ++ claims_at (map placed_parts self.now.claims.now) more.now) both) }
    {
        let demands = begun(self.alloc, entry)?;
        let all = take_found(self.alloc, demands, self.claims, more, self.name)?;
        all.entry(self.alloc)
    }

    // Whether claims for which the entry stands are enough for the verdict.
    fn is_enough(&self, entry: &Entry) -> Result<bool, AllocError>
        requires verdict { IsVerdict (Claimed (map placed_parts self.now.claims.now)
            self.now.name.now) self.now.verdict }
        ensures { IfOk result (λ b. (some : List PlacedParts)
            → AreAmong some (map placed_parts self.now.claims.now)
            → StandsFor self.now.name.now some entry.now
            → IsTold self.now.name.now self.now.verdict some b) }
    {
        // Its clause tells that the entry is valid.
        let _ = entry.versions();
        let Ok(verdict) = entry.verdict(self.alloc) else {
            return Err(AllocError);
        };
        Ok(verdict == self.verdict)
    }

    // Whether the claims at these indices are enough for the verdict.
    fn are_enough(&self, few: &[usize]) -> Result<bool, AllocError>
        requires within { AreWithin (map placed_parts self.now.claims.now) few.now }
        requires verdict { IsVerdict (Claimed (map placed_parts self.now.claims.now)
            self.now.name.now) self.now.verdict }
        ensures { IfOk result (λ b. IsTold self.now.name.now self.now.verdict
            (claims_at (map placed_parts self.now.claims.now) few.now) b) }
    {
        // Each entry is dropped at the end of its block. What a later `?` would have to drop makes the proof longer.
        let demanded = {
            let bare = bare_entry(self.alloc)?;
            self.with_more(&bare, few)
        }?;
        self.is_enough(&demanded)
    }

    // Those of the claims at these indices that are needed beside claims for which the entry stands.
    fn needed(&self, entry: &Entry, picked: &[usize]) -> Result<Vec<usize>, AllocError>
        requires within { AreWithin (map placed_parts self.now.claims.now) picked.now }
        requires verdict { IsVerdict (Claimed (map placed_parts self.now.claims.now)
            self.now.name.now) self.now.verdict }
        ensures picked { IfOk result (λ found. ArePicked found.items picked.now) }
        ensures least { IfOk result (λ found. (some : List PlacedParts)
            → AreAmong some (map placed_parts self.now.claims.now)
            → StandsFor self.now.name.now some entry.now
            → Clashing self.now.name.now self.now.verdict
            (some ++ claims_at (map placed_parts self.now.claims.now) picked.now)
            → IsLeast self.now.name.now self.now.verdict some
            (claims_at (map placed_parts self.now.claims.now) found.items)) }
    {
        if picked.is_empty() || self.is_enough(entry)? {
            return Ok(Vec::new(self.alloc));
        }
        if picked.len() == 1 {
            return Ok(Vec::from_slice(self.alloc, picked)?);
        }
        let (front, back) = picked.split_at(picked.len() / 2);
        let behind = {
            let with_front = self.with_more(entry, front)?;
            self.needed(&with_front, back)
        }?;
        let mut found = {
            let with_behind = self.with_more(entry, behind.as_slice())?;
            self.needed(&with_behind, front)
        }?;
        found.extend_from_slice(behind.as_slice())?;
        Ok(found)
    }

    // Some of the claims at these indices, which are enough: they are enough too, and each of them is needed.
    fn least_of(&self, picked: &[usize]) -> Result<Vec<usize>, AllocError>
        requires enough { AreEnough self.now.name.now self.now.verdict
            (map placed_parts self.now.claims.now) picked.now }
        requires verdict { IsVerdict (Claimed (map placed_parts self.now.claims.now)
            self.now.name.now) self.now.verdict }
        ensures picked { IfOk result (λ found. ArePicked found.items picked.now) }
        ensures found { IfOk result (λ found. AreFound self.now.name.now self.now.verdict
            (map placed_parts self.now.claims.now) found.items) }
    {
        let found = {
            let bare = bare_entry(self.alloc)?;
            self.needed(&bare, picked)
        }?;
        Ok(found)
    }

    // A few claims that may be enough, and points. No clause says that they are.
    fn hint(&self) -> Result<Hint, AllocError> {
        if self.verdict == Verdict::Conflict {
            clashing_urls(self.alloc, self.claims)
        } else {
            clashing_versions(self.alloc, self.claims)
        }
    }

    // Those of the indices that are within the claims, where each is above those before it.
    fn rising(&self, hinted: &[usize]) -> Result<Vec<usize>, AllocError>
        ensures within { IfOk result (λ few.
            AreWithin (map placed_parts self.now.claims.now) few.items) }
        ensures rising { IfOk result (λ few. RiseFrom 0 few.items) }
    {
        let mut few = Vec::new(self.alloc);
        let mut next = 0;
        for &index in hinted {
            if index < next || index >= self.claims.len() {
                continue;
            }
            few.push(index)?;
            next = index + 1;
        }
        Ok(few)
    }

    // The indices of claims that are enough: those that are hinted at, or all.
    fn enough(&self, hinted: &[usize]) -> Result<Vec<usize>, AllocError>
        requires verdict { IsVerdict (Claimed (map placed_parts self.now.claims.now)
            self.now.name.now) self.now.verdict }
        ensures { IfOk result (λ picked. AreEnough self.now.name.now self.now.verdict
            (map placed_parts self.now.claims.now) picked.items) }
    {
        let few = self.rising(hinted)?;
        if self.are_enough(few.as_slice())? {
            return Ok(few);
        }
        indices_below(self.alloc, self.claims.len())
    }

    // Whether each of the claims at these indices stands apart, by points that are sorted.
    fn are_apart(
        &self,
        picked: &[usize],
        points: &[Point],
        turns: &[usize],
    ) -> Result<bool, AllocError>
        requires within { AreWithin (map placed_parts self.now.claims.now) picked.now }
        requires rising { AreRising points.now }
        ensures { IfOk result (λ b. IsTrue b → AreApart
            (claims_at (map placed_parts self.now.claims.now) picked.now) points.now
            (length picked.now)) }
    {
        for (own, &index) in picked.iter().enumerate() {
            let at = turns.get(own).copied().unwrap_or(0);
            if !is_apart(self.alloc, &self.claims[index].claim, points, at, own)? {
                return Ok(false);
            }
        }
        Ok(true)
    }

    // Whether the points tell that each of the claims at these indices is needed.
    fn are_needed(&self, picked: &[usize], points: &[Point]) -> Result<bool, AllocError>
        requires within { AreWithin (map placed_parts self.now.claims.now) picked.now }
        ensures { IfOk result (λ b. IsTrue b → AreNeeded self.now.name.now self.now.verdict []
            (claims_at (map placed_parts self.now.claims.now) picked.now)) }
    {
        if self.verdict != Verdict::Nothing || !are_rising(points) {
            return Ok(false);
        }
        let turns = turns_of(self.alloc, points, picked.len())?;
        self.are_apart(picked, points, turns.as_slice())
    }

    // The indices of claims that clash.
    fn found(&self) -> Result<Vec<usize>, AllocError>
        requires verdict { IsVerdict (Claimed (map placed_parts self.now.claims.now)
            self.now.name.now) self.now.verdict }
        ensures { IfOk result (λ found. AreFound self.now.name.now self.now.verdict
            (map placed_parts self.now.claims.now) found.items) }
    {
        let hint = self.hint()?;
        let picked = self.enough(hint.few.as_slice())?;
        if self.are_needed(picked.as_slice(), hint.points.as_slice())? {
            return Ok(picked);
        }
        self.least_of(picked.as_slice())
    }
}

/// Which of the claims on a name clash, by their indices: none where the verdict is open.
pub(crate) fn clash_of(
    alloc: Global,
    claims: &[PlacedClaim],
    name: &Name,
    verdict: Verdict,
) -> Result<Vec<usize>, AllocError>
    requires order { AreInOrder (map placed_parts claims.now) }
    requires verdict { IsVerdict (Claimed (map placed_parts claims.now) name.now) verdict }
    ensures { IfOk result (λ clash. IsPartThatClashes name.now verdict
        (map placed_parts claims.now) (claims_at (map placed_parts claims.now) clash.items)) }
{
    if verdict == Verdict::Possible {
        return Ok(Vec::new(alloc));
    }
    let trial = Trial {
        alloc,
        claims,
        name,
        verdict,
    };
    trial.found()
}
