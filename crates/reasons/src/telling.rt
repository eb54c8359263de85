//! Why packages have their verdicts.

ghost use Rattle.std.specs.Prelude.{◌≡◌, ◌++◌, [], All, IfErr, IfOk, map, option_map};
ghost use Rattle.std.specs.List.{AllZip};
ghost use Rattle.std.specs.Option.{option_to_list};
ghost use Rattle.pep_require.specs.Requirement.{IsAscending};
ghost use Rattle.demands.specs.Table.{EntryDemands, IsTable, TableDemands};
ghost use Rattle.demands.specs.Verdict.{IsVerdict};
ghost use Rattle.inputs.specs.Gathered.{Gathered, IsAccepted};
ghost use Rattle.inputs.specs.Refusal.{RefusesInputs};
ghost use Rattle.reasons.specs.Way.Asked.{AllGain, asked_parts, names_in};
ghost use Rattle.reasons.specs.Claims.{AreInOrder, Claimed};
ghost use Rattle.reasons.specs.Way.ClaimSearch.{AreClaimsBy};
ghost use Rattle.reasons.specs.Clash.{AreReasons, IsReasonOf};
ghost use Rattle.reasons.specs.Way.ReasonSearch.{AreClosed, Explains, FindsClosed, TellsClash};
ghost use Rattle.reasons.specs.Places.{AreClaims, ClaimsAt};
ghost use Rattle.reasons.specs.View.{placed_parts, reason_parts};

use crate::asked::Asked;
use crate::claims::Reason;
use crate::clash::clash_of;
use crate::entered::table_claims;
use crate::listed::{list_claims, project_claims};
use demands::{Entry, Verdict};
use faults::Fault;
use inputs::{Input, Kind, gather};
use pep_marker::{Environment, Name};
use pep_table::{Gathering, Table};
use std::alloc::{AllocError, Global};

// The table that is gathered.
fn finished(alloc: Global, gathering: Gathering) -> Result<Table, AllocError>
    ensures { IfOk result (λ table. table ≡ gathering) }
{
    match gathering.finish(alloc) {
        Ok(table) => Ok(table),
        Err(_) => Err(AllocError),
    }
}

// The verdict on what a table demands of a name: open where that is nothing.
fn verdict_on(alloc: Global, table: &Table, name: &Name) -> Result<Verdict, AllocError>
    ensures { IfOk result (IsVerdict (TableDemands table.now name.now)) }
{
    match table.verdict(alloc, name) {
        Ok(Some(verdict)) => Ok(verdict),
        Ok(None) => Ok(Verdict::Possible),
        Err(_) => Err(AllocError),
    }
}

// The packages with the claims of an accepted input with this number.
fn claims_in(
    alloc: Global,
    input: &Input,
    number: u64,
    environment: &Environment,
    asked: Vec<Asked>,
) -> Result<Vec<Asked>, AllocError>
    requires { IsAscending (names_in asked.items) }
    ensures { IfOk result (λ new. AllGain
        (AreClaimsBy (ClaimsAt environment.now input.now) number) asked.items new.items) }
{
    let bytes = input.bytes.as_slice();
    match input.kind {
        Kind::List => list_claims(alloc, bytes, number, environment, asked),
        Kind::Project => {
            let group = input.group.as_ref();
            project_claims(alloc, bytes, group, number, environment, asked)
        }
        Kind::Table => table_claims(alloc, bytes, number, environment, asked),
    }
}

// The packages with the claims of inputs that are accepted: the second pass, in which only memory can
// run out.
fn claims_on(
    alloc: Global,
    inputs: &[Input],
    environment: &Environment,
    asked: Vec<Asked>,
) -> Result<Vec<Asked>, AllocError>
    requires { IsAscending (names_in asked.items) }
    ensures { IfOk result (λ new. AllGain (AreClaims environment.now inputs.now)
        asked.items new.items) }
{
    let mut asked = asked;
    let mut number: u64 = 0;
    for input in inputs {
        number += 1;
        asked = claims_in(alloc, input, number, environment, asked)?;
    }
    Ok(asked)
}

// The reason of a package, all claims on which are found.
fn reason_of(alloc: Global, asked: Asked) -> Result<Reason, AllocError>
    requires order { AreInOrder (map placed_parts asked.claims.items) }
    requires verdict { IsVerdict (Claimed (map placed_parts asked.claims.items) asked.name)
        asked.verdict }
    ensures { IfOk result (λ reason.
        TellsClash (asked_parts asked) (reason_parts reason)) }
{
    let Asked {
        name,
        verdict,
        claims,
    } = asked;
    let clash = clash_of(alloc, claims.as_slice(), &name, verdict)?;
    Ok(Reason {
        name,
        verdict,
        claims,
        clash,
    })
}

// The reasons of packages, all claims on which are found.
fn reasons_of(alloc: Global, asked: Vec<Asked>) -> Result<Vec<Reason>, AllocError>
    requires order { All (λ q. AreInOrder q.claims) (map asked_parts asked.items) }
    requires verdicts { All (λ q. IsVerdict (Claimed q.claims q.name) q.verdict)
        (map asked_parts asked.items) }
    ensures { IfOk result (λ reasons. AllZip TellsClash (map asked_parts asked.items)
        (map reason_parts reasons.items)) }
{
    let mut reasons = Vec::new(alloc);
    for each in asked {
        let reason = reason_of(alloc, each)?;
        reasons.push(reason)?;
    }
    Ok(reasons)
}

// Why packages, no claims on which are found yet, have their verdicts on what all inputs demand.
fn explained(
    alloc: Global,
    inputs: &[Input],
    environment: &Environment,
    asked: Vec<Asked>,
) -> Result<Vec<Reason>, AllocError>
    requires accepted { All (IsAccepted environment.now) inputs.now }
    requires order { IsAscending (names_in asked.items) }
    requires bare { All (λ q. q.claims ≡ []) (map asked_parts asked.items) }
    requires verdicts { All (λ q. IsVerdict (Gathered environment.now inputs.now q.name) q.verdict)
        (map asked_parts asked.items) }
    ensures { IfOk result (λ reasons. AllZip (Explains environment.now inputs.now)
        (map asked_parts asked.items) (map reason_parts reasons.items)) }
{
    let asked = claims_on(alloc, inputs, environment, asked)?;
    reasons_of(alloc, asked)
}

// Why the package with this name has this verdict, which is that on what all inputs demand.
fn reason_on(
    alloc: Global,
    inputs: &[Input],
    environment: &Environment,
    name: Name,
    verdict: Verdict,
) -> Result<Reason, AllocError>
    requires accepted { All (IsAccepted environment.now) inputs.now }
    requires verdict { IsVerdict (Gathered environment.now inputs.now name) verdict }
    ensures reason { IfOk result (λ reason.
        IsReasonOf environment.now inputs.now (reason_parts reason)) }
    ensures name { IfOk result (λ reason. reason.name ≡ name) }
{
    let claims = Vec::new(alloc);
    let mut asked = Vec::new(alloc);
    asked.push(Asked {
        name,
        verdict,
        claims,
    })?;
    let mut reasons = explained(alloc, inputs, environment, asked)?;
    let Some(reason) = reasons.pop() else {
        unreachable!()
    };
    Ok(reason)
}

/// Why the package with this name has its verdict on what all inputs demand in the environment. A
/// package on which nothing is demanded is open, without claims. Refused as by
/// [`merge_bytes`](inputs::merge_bytes).
pub fn why(
    alloc: Global,
    inputs: &[Input],
    environment: &Environment,
    name: Name,
) -> Result<Reason, Fault>
    ensures reason { IfOk result (λ reason.
        IsReasonOf environment.now inputs.now (reason_parts reason)) }
    ensures name { IfOk result (λ reason. reason.name ≡ name) }
    ensures refused { IfErr result (RefusesInputs environment.now inputs.now) }
{
    let gathering = gather(alloc, inputs, environment)?;
    let table = finished(alloc, gathering)?;
    let verdict = verdict_on(alloc, &table, &name)?;
    Ok(reason_on(alloc, inputs, environment, name, verdict)?)
}

// The package with this name and entry, if its verdict isn't open.
fn closed_package(alloc: Global, name: &Name, entry: &Entry) -> Result<Option<Asked>, AllocError>
    ensures { IfOk result (λ found.
        FindsClosed (EntryDemands entry.now) name.now (option_map asked_parts found)) }
{
    let Ok(verdict) = entry.verdict(alloc) else {
        return Err(AllocError);
    };
    if verdict == Verdict::Possible {
        return Ok(None);
    }
    let Ok(name) = name.copied(alloc) else {
        return Err(AllocError);
    };
    let claims = Vec::new(alloc);
    Ok(Some(Asked {
        name,
        verdict,
        claims,
    }))
}

// The packages with the one that was found, if there is one.
fn with_package(asked: Vec<Asked>, found: Option<Asked>) -> Result<Vec<Asked>, AllocError>
    ensures { IfOk result (λ new. map asked_parts new.items
        ≡ map asked_parts asked.items ++ option_to_list (option_map asked_parts found)) }
{
    let mut asked = asked;
    if let Some(closed) = found {
        asked.push(closed)?;
    }
    Ok(asked)
}

// The packages of a table whose verdict isn't open.
fn closed_packages(alloc: Global, table: &Table) -> Result<Vec<Asked>, AllocError>
    ensures { IfOk result (λ asked. AreClosed table.now (map asked_parts asked.items)) }
{
    let entries = table.entries();
    let mut asked = Vec::new(alloc);
    for entry in entries {
        let found = closed_package(alloc, &entry.0, &entry.1)?;
        asked = with_package(asked, found)?;
    }
    Ok(asked)
}

// The reasons of those packages of the table of all inputs whose verdict isn't open.
fn closed_reasons(
    alloc: Global,
    inputs: &[Input],
    environment: &Environment,
    table: &Table,
) -> Result<Vec<Reason>, AllocError>
    requires accepted { All (IsAccepted environment.now) inputs.now }
    requires table { IsTable (Gathered environment.now inputs.now) table.now }
    ensures { IfOk result (λ reasons.
        AreReasons environment.now inputs.now (map reason_parts reasons.items)) }
{
    let asked = closed_packages(alloc, table)?;
    explained(alloc, inputs, environment, asked)
}

/// The same of each package whose verdict isn't open, in the byte order of their names. The inputs
/// are read twice, however many these packages are.
pub fn clashes(
    alloc: Global,
    inputs: &[Input],
    environment: &Environment,
) -> Result<Vec<Reason>, Fault>
    ensures reasons { IfOk result (λ reasons.
        AreReasons environment.now inputs.now (map reason_parts reasons.items)) }
    ensures refused { IfErr result (RefusesInputs environment.now inputs.now) }
{
    let gathering = gather(alloc, inputs, environment)?;
    let table = finished(alloc, gathering)?;
    Ok(closed_reasons(alloc, inputs, environment, &table)?)
}
