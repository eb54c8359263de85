//! Claims of lists and of project files: their requirements.

ghost use Rattle.std.specs.Prelude.{◌≡◌, None, IfOk, map, option_map, option_copied};
ghost use Rattle.pep_require.specs.Requirement.{IsAscending};
ghost use Rattle.pep_require.specs.View.{requirement_parts};
ghost use Rattle.inputs.specs.declared.input.Kind.TheVariants as kind;
ghost use Rattle.reasons.specs.Way.Asked.{AllGain, asked_parts, names_in, with_found};
ghost use Rattle.reasons.specs.Way.ClaimSearch.{AreClaimsBy, FindsApplying, FindsCounted, FindsOnLine};
ghost use Rattle.reasons.specs.Places.{StandsIn};

use crate::asked::{Asked, is_asked, with_claim};
use crate::claims::{Claim, PlacedClaim};
use documents::project_of;
use inputs::text_of_line;
use pep_marker::{Environment, Name};
use pep_require::Requirement;
use std::alloc::{AllocError, Global};
use texts::first_part;

// The requirement, if it applies.
fn applying(
    alloc: Global,
    requirement: Requirement,
    environment: &Environment,
) -> Result<Option<Requirement>, AllocError>
    ensures { IfOk result (λ found. FindsApplying environment.now
        (requirement_parts requirement) (option_map requirement_parts found)) }
{
    match requirement.applies(alloc, environment) {
        Ok(true) => Ok(Some(requirement)),
        Ok(false) => Ok(None),
        Err(_) => Err(AllocError),
    }
}

// The requirement, if its package is asked about and it applies.
fn counted(
    alloc: Global,
    requirement: Requirement,
    environment: &Environment,
    asked: &[Asked],
) -> Result<Option<Requirement>, AllocError>
    requires { IsAscending (names_in asked.now) }
    ensures { IfOk result (λ found. FindsCounted environment.now (names_in asked.now)
        (requirement_parts requirement) (option_map requirement_parts found)) }
{
    if is_asked(asked, requirement.name()) {
        applying(alloc, requirement, environment)
    } else {
        Ok(None)
    }
}

// The requirement on a line of a list that is accepted, if it counts: the name is read first, and the
// rest where its package is asked about. Since the list was read before, only memory can run out.
fn requirement_on(
    alloc: Global,
    line: &[u8],
    environment: &Environment,
    asked: &[Asked],
) -> Result<Option<Requirement>, AllocError>
    requires { IsAscending (names_in asked.now) }
    ensures { IfOk result (λ found. FindsOnLine environment.now (names_in asked.now) line.now
        (option_map requirement_parts found)) }
{
    let Ok(found) = text_of_line(line) else {
        return Err(AllocError);
    };
    let Some(text) = found else {
        return Ok(None);
    };
    let Ok(name) = Requirement::name_of_line(alloc, text) else {
        return Err(AllocError);
    };
    if !is_asked(asked, &name) {
        return Ok(None);
    }
    let Ok(requirement) = Requirement::read(alloc, text) else {
        return Err(AllocError);
    };
    applying(alloc, requirement, environment)
}

// The packages with the requirement that was found at this place, if there is one.
fn with_found(
    asked: Vec<Asked>,
    input: u64,
    number: u64,
    found: Option<Requirement>,
) -> Result<Vec<Asked>, AllocError>
    requires { IsAscending (names_in asked.items) }
    ensures { IfOk result (λ new. map asked_parts new.items
        ≡ map (with_found input number (option_map requirement_parts found))
        (map asked_parts asked.items)) }
{
    let Some(requirement) = found else {
        return Ok(asked);
    };
    let claim = Claim::Required(requirement);
    with_claim(
        asked,
        PlacedClaim {
            input,
            number,
            claim,
        },
    )
}

/// The packages with the claims of an accepted list, which is the input with this number.
pub(crate) fn list_claims(
    alloc: Global,
    bytes: &[u8],
    input: u64,
    environment: &Environment,
    asked: Vec<Asked>,
) -> Result<Vec<Asked>, AllocError>
    requires { IsAscending (names_in asked.items) }
    ensures { IfOk result (λ new. AllGain
        (AreClaimsBy (StandsIn environment.now kind.List None bytes.now) input)
        asked.items new.items) }
{
    let mut asked = asked;
    let mut number: u64 = 0;
    let mut left = Some(bytes);
    while let Some(text) = left {
        let (line, after) = first_part(text, b'\n');
        number += 1;
        let found = requirement_on(alloc, line, environment, asked.as_slice())?;
        asked = with_found(asked, input, number, found)?;
        left = after;
    }
    Ok(asked)
}

/// The packages with the claims of an accepted project file, which is the input with this number.
pub(crate) fn project_claims(
    alloc: Global,
    bytes: &[u8],
    group: Option<&Name>,
    input: u64,
    environment: &Environment,
    asked: Vec<Asked>,
) -> Result<Vec<Asked>, AllocError>
    requires { IsAscending (names_in asked.items) }
    ensures { IfOk result (λ new. AllGain (AreClaimsBy
        (StandsIn environment.now kind.Project (option_copied group.entry) bytes.now) input)
        asked.items new.items) }
{
    let extra = environment.value("extra").unwrap_or("");
    let Ok(requirements) = project_of(alloc, bytes, extra, group) else {
        return Err(AllocError);
    };
    let mut asked = asked;
    let mut number: u64 = 0;
    for requirement in requirements {
        number += 1;
        let found = counted(alloc, requirement, environment, asked.as_slice())?;
        asked = with_found(asked, input, number, found)?;
    }
    Ok(asked)
}
