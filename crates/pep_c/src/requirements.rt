//! Requirements, over bytes.

ghost use Rattle.std.specs.Prelude.{◌≡◌, ◌⊎◌, IfErr, IfOk, pos, string_bytes};
ghost use Rattle.pep_require.specs.Reads.{Reads};
ghost use Rattle.pep_require.specs.View.{requirement_parts};
ghost use Rattle.faults.specs.NoMemory.{no_memory};
ghost use Rattle.pep_c.specs.Fields.{AreFieldsOf};
ghost use Rattle.pep_c.specs.Requirements.{IsRequirementText, RefusesRequirement};
ghost use Rattle.pep_c.specs.Room.{GivesText, TellsRefusal};

use crate::fields::fields_of;
use crate::first_line::{first_line, refused_line};
use crate::reply::{ANSWERED, REFUSED, Reply, give_text};
use faults::{Fault, LineFault};
use pep_require::Requirement;
use std::alloc::Global;

// The requirement that a text is.
fn requirement_of(alloc: Global, text: &str) -> Result<Requirement, Fault>
    ensures requirement { IfOk result (λ r. Reads text.now (requirement_parts r)) }
    ensures refused { IfErr result
        (λ fault. (fault ≡ no_memory) ⊎ RefusesRequirement text.now fault) }
{
    match Requirement::read(alloc, text) {
        Ok(requirement) => Ok(requirement),
        Err(fault) => Err(refused_line(fault)),
    }
}

// The requirement that the bytes are.
fn read_requirement(alloc: Global, bytes: &[u8]) -> Result<Requirement, Fault>
    ensures requirement { IfOk result (λ r. Reads bytes.now (requirement_parts r)) }
    ensures refused { IfErr result
        (λ fault. (fault ≡ no_memory) ⊎ RefusesRequirement bytes.now fault) }
{
    match str::from_utf8(bytes) {
        Ok(text) => requirement_of(alloc, text),
        Err(_) => Err(first_line(LineFault::NotUtf8)),
    }
}

// The normal text of a requirement.
fn requirement_text(alloc: Global, bytes: &[u8]) -> Result<String, Fault>
    ensures text { IfOk result (λ text. IsRequirementText bytes.now (string_bytes text)) }
    ensures refused { IfErr result
        (λ fault. (fault ≡ no_memory) ⊎ RefusesRequirement bytes.now fault) }
{
    let requirement = read_requirement(alloc, bytes)?;
    match requirement.text(alloc) {
        Ok(text) => Ok(text),
        Err(_) => Err(Fault::no_memory()),
    }
}

/// The normal text of the requirement that the bytes are (PEP 508, "Grammar"; see
/// [`Requirement::text`](pep_require::Requirement::text)). It is refused as line 1 of input 1, as 57
/// with 31 to 39 or 51; or as 60.
#[unsafe(no_mangle)]
pub extern "C" fn tubrambutan_requirement(alloc: Global, bytes: &[u8], room: &mut [u8]) -> Reply
    ensures status { (result.status ≡ ANSWERED) ⊎ (result.status ≡ REFUSED) }
    ensures answer { result.answer ≡ pos 0 }
    ensures text { result.status ≡ ANSWERED →
        GivesText (IsRequirementText bytes.now) result.size room.old room.new }
    ensures refused { result.status ≡ REFUSED →
        TellsRefusal (RefusesRequirement bytes.now) result.size room.old room.new }
{
    give_text(alloc, requirement_text(alloc, bytes), room)
}

// The lines of the requirement that the bytes are.
fn requirement_fields(alloc: Global, bytes: &[u8]) -> Result<String, Fault>
    ensures fields { IfOk result (λ text. AreFieldsOf bytes.now (string_bytes text)) }
    ensures refused { IfErr result
        (λ fault. (fault ≡ no_memory) ⊎ RefusesRequirement bytes.now fault) }
{
    let requirement = read_requirement(alloc, bytes)?;
    match fields_of(alloc, &requirement) {
        Ok(text) => Ok(text),
        Err(_) => Err(Fault::no_memory()),
    }
}

/// The parts of the requirement that the bytes are (PEP 508, "Grammar"), each on a line of its own: `name N`,
/// normalized; `extra E` for each extra, in byte order; `clause C` for each clause, in its normal form, or
/// `url U`, as it was written; and `marker M`, where there is one. A refusal names line 1 of input 1, with 57
/// and 31 to 39 or 51; or it is 60.
#[unsafe(no_mangle)]
pub extern "C" fn tubrambutan_requirement_parts(
    alloc: Global,
    bytes: &[u8],
    room: &mut [u8],
) -> Reply
    ensures status { (result.status ≡ ANSWERED) ⊎ (result.status ≡ REFUSED) }
    ensures answer { result.answer ≡ pos 0 }
    ensures fields { result.status ≡ ANSWERED →
        GivesText (AreFieldsOf bytes.now) result.size room.old room.new }
    ensures refused { result.status ≡ REFUSED →
        TellsRefusal (RefusesRequirement bytes.now) result.size room.old room.new }
{
    give_text(alloc, requirement_fields(alloc, bytes), room)
}
