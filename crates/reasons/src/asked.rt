//! Packages that are asked about, with the claims on them that were found.

ghost use Rattle.std.specs.Prelude.{◌≡◌, ◌↔◌, Contains, IfOk, IsTrue, map};
ghost use Rattle.pep_require.specs.Requirement.{IsAscending};
ghost use Rattle.reasons.specs.Way.Asked.{IsIndexOf, asked_parts, names_in, with_claim};
ghost use Rattle.reasons.specs.View.{placed_parts};

use crate::claims::PlacedClaim;
use demands::Verdict;
use pep_marker::Name;
use std::alloc::AllocError;

/// A package that is asked about: its name, its verdict, and the claims on it that were found so far.
#[derive(Drop)]
pub(crate) struct Asked {
    pub(crate) name: Name,
    pub(crate) verdict: Verdict,
    pub(crate) claims: Vec<PlacedClaim>,
}

// The index of the package with this name, if it is asked about.
fn index_of(asked: &[Asked], name: &Name) -> Option<usize>
    requires { IsAscending (names_in asked.now) }
    ensures { IsIndexOf (names_in asked.now) name.now result }
{
    match asked.binary_search_by(|other| other.name.cmp(name)) {
        Ok(index) => Some(index),
        Err(_) => None,
    }
}

/// Whether the package with this name is asked about.
pub(crate) fn is_asked(asked: &[Asked], name: &Name) -> bool
    requires { IsAscending (names_in asked.now) }
    ensures { IsTrue result ↔ Contains (names_in asked.now) name.now }
{
    index_of(asked, name).is_some()
}

/// The same packages, with one claim more where its package is asked about.
pub(crate) fn with_claim(asked: Vec<Asked>, claim: PlacedClaim) -> Result<Vec<Asked>, AllocError>
    requires { IsAscending (names_in asked.items) }
    ensures { IfOk result (λ new. map asked_parts new.items
        ≡ map (with_claim (placed_parts claim)) (map asked_parts asked.items)) }
{
    let mut asked = asked;
    let Some(index) = index_of(asked.as_slice(), claim.claim.name()) else {
        return Ok(asked);
    };
    let found = &mut asked[index];
    found.claims.push(claim)?;
    Ok(asked)
}
