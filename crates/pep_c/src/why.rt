//! Why packages have their verdicts, over bytes.

ghost use Rattle.std.specs.Prelude.{◌≡◌, ◌⊎◌, ◌≤◌, IfErr, IfOk, pos, string_bytes};
ghost use Rattle.faults.specs.NoMemory.{no_memory};
ghost use Rattle.pep_c.specs.Inputs.{RefusesInputs, RefusesMerge};
ghost use Rattle.pep_c.specs.Parts.{IsMiscut};
ghost use Rattle.pep_c.specs.Room.{GivesNothing, GivesText, TellsRefusal};
ghost use Rattle.pep_c.specs.Why.{RefusesReason, RefusesWhy, TellsClashes, TellsClashesOfParts};
ghost use Rattle.pep_c.specs.Why.{TellsWhy, TellsWhyOfParts};

use crate::names::read_name;
use crate::parts::{CutFault, Part, inputs_of};
use crate::reply::{ANSWERED, MISCUT, REFUSED, Reply, give_text, miscut, tell};
use faults::Fault;
use inputs::{Input, environment_of};
use reasons::{clashes, reasons_text, why};
use std::alloc::Global;

// The lines of why the package with this name has its verdict, in the environment of the file with
// these bytes.
fn told(alloc: Global, environment: &[u8], inputs: &[Input], name: &[u8]) -> Result<String, Fault>
    ensures told { IfOk result (λ text.
        TellsWhy environment.now inputs.now name.now (string_bytes text)) }
    ensures refused { IfErr result (λ fault. (fault ≡ no_memory)
        ⊎ RefusesReason environment.now inputs.now name.now fault) }
{
    let name = read_name(alloc, name)?;
    let environment = environment_of(alloc, environment)?;
    let reason = why(alloc, inputs, &environment, name)?;
    reason.text(alloc)
}

// .. of all packages that aren't open.
fn told_all(alloc: Global, environment: &[u8], inputs: &[Input]) -> Result<String, Fault>
    ensures told { IfOk result (λ text.
        TellsClashes environment.now inputs.now (string_bytes text)) }
    ensures refused { IfErr result
        (λ fault. (fault ≡ no_memory) ⊎ RefusesInputs environment.now inputs.now fault) }
{
    let environment = environment_of(alloc, environment)?;
    let found = clashes(alloc, inputs, &environment)?;
    reasons_text(alloc, found.as_slice())
}

/// Why the package with this name has its verdict on what such inputs demand (see [`why`](reasons::why)),
/// as lines (see [`Reason::text`](reasons::Reason::text)). A package on which nothing is demanded is
/// open, without claims.
///
/// It is `MISCUT` as with [`tubrambutan_merge`](crate::tubrambutan_merge). A refusal is that of the name,
/// 62 with 21; or else as with [`tubrambutan_merge`](crate::tubrambutan_merge).
#[unsafe(no_mangle)]
pub extern "C" fn tubrambutan_why(
    alloc: Global,
    environment: &[u8],
    parts: &[Part],
    bytes: &[u8],
    name: &[u8],
    room: &mut [u8],
) -> Reply
    ensures status { result.status ≤ REFUSED }
    ensures answer { result.answer ≡ pos 0 }
    ensures told { result.status ≡ ANSWERED → GivesText
        (TellsWhyOfParts environment.now parts.now bytes.now name.now)
        result.size room.old room.new }
    ensures miscut { result.status ≡ MISCUT → IsMiscut parts.now bytes.now
        × GivesNothing result.size room.old room.new }
    ensures refused { result.status ≡ REFUSED → TellsRefusal
        (RefusesWhy environment.now parts.now bytes.now name.now) result.size room.old room.new }
{
    match inputs_of(alloc, parts, bytes) {
        Ok(inputs) => give_text(
            alloc,
            told(alloc, environment, inputs.as_slice(), name),
            room,
        ),
        Err(CutFault::Miscut) => miscut(),
        Err(CutFault::Refused(fault)) => tell(alloc, &fault, room),
    }
}

/// The same lines for each package whose verdict isn't open, in the byte order of their names (see
/// [`clashes`](reasons::clashes)).
///
/// It is `MISCUT`, and refused, as [`tubrambutan_merge`](crate::tubrambutan_merge) is.
#[unsafe(no_mangle)]
pub extern "C" fn tubrambutan_clashes(
    alloc: Global,
    environment: &[u8],
    parts: &[Part],
    bytes: &[u8],
    room: &mut [u8],
) -> Reply
    ensures status { result.status ≤ REFUSED }
    ensures answer { result.answer ≡ pos 0 }
    ensures told { result.status ≡ ANSWERED → GivesText
        (TellsClashesOfParts environment.now parts.now bytes.now) result.size room.old room.new }
    ensures miscut { result.status ≡ MISCUT → IsMiscut parts.now bytes.now
        × GivesNothing result.size room.old room.new }
    ensures refused { result.status ≡ REFUSED → TellsRefusal
        (RefusesMerge environment.now parts.now bytes.now) result.size room.old room.new }
{
    match inputs_of(alloc, parts, bytes) {
        Ok(inputs) => give_text(alloc, told_all(alloc, environment, inputs.as_slice()), room),
        Err(CutFault::Miscut) => miscut(),
        Err(CutFault::Refused(fault)) => tell(alloc, &fault, room),
    }
}
