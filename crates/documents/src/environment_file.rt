//! Environment files: the variables of markers and their texts, as TOML.

ghost use Rattle.std.specs.Prelude.{◌≡◌, ◌⊎◌, Err, IfErr, IfOk, None, Ok, Some};
ghost use Rattle.toml.specs.View.{table_view};
ghost use Rattle.pep_marker.specs.Pairs.{pair_texts};
ghost use Rattle.faults.specs.NoMemory.{no_memory};
ghost use Rattle.documents.specs.EnvironmentFile.{environment_file, pairs_of};

use crate::document::read_document;
use faults::{Cause, Fault, Place};
use pep_marker::{Environment, MarkerFault};
use std::alloc::Global;
use toml::Table;

/// The environment of a file, which is at most 16,777,216 bytes of TOML: its top-level keys are
/// variables of markers (PEP 508, "Environment Markers"), with texts as values.
///
/// The fault lies in the environment, and is that of the first check that fails: 56 for more bytes;
/// 51 where they aren't UTF-8; 52 where they nest too deep (see [`project_of`](crate::project_of)) or
/// are no TOML document; 55 where a value is no text; 59 with the fault of the keys and texts, in the
/// order of the keys' bytes, as [`Environment::of`] has it. Lack of memory, 60, has no place.
pub fn environment_of(alloc: Global, bytes: &[u8]) -> Result<Environment, Fault>
    ensures ok { IfOk result (λ environment. environment_file bytes.now ≡ Ok environment) }
    ensures refused { IfErr result (λ fault. (fault ≡ no_memory)
        ⊎ ((fault.place ≡ Place.Environment)
        × (environment_file bytes.now ≡ Err fault.cause))) }
{
    match environment_in(alloc, bytes) {
        Ok(environment) => Ok(environment),
        Err(cause) => Err(Fault::of(Place::Environment, cause)),
    }
}

// The same, with the cause alone.
fn environment_in(alloc: Global, bytes: &[u8]) -> Result<Environment, Cause>
    ensures ok { IfOk result (λ environment. environment_file bytes.now ≡ Ok environment) }
    ensures refused { IfErr result (λ cause. (cause ≡ Cause.NoMemory)
        ⊎ (environment_file bytes.now ≡ Err cause)) }
{
    let document = read_document(alloc, bytes)?;
    let pairs = pairs_of(alloc, &document)?;
    match Environment::of(alloc, pairs.as_slice()) {
        Ok(environment) => Ok(environment),
        Err(MarkerFault::NoMemory) => Err(Cause::NoMemory),
        Err(fault) => Err(Cause::BadEnvironment(fault)),
    }
}

// The keys of a document and their texts.
fn pairs_of<'a>(alloc: Global, document: &'a Table) -> Result<Vec<(&'a str, &'a str)>, Cause>
    ensures ok { IfOk result (λ pairs.
        pairs_of (table_view document.now) ≡ Some (pair_texts pairs.items)) }
    ensures refused { IfErr result (λ cause. (cause ≡ Cause.NoMemory)
        ⊎ ((cause ≡ Cause.WrongShape) × (pairs_of (table_view document.now) ≡ None))) }
{
    let mut pairs = Vec::with_capacity(alloc, document.len())?;
    for (key, value) in document.iter() {
        let Some(text) = value.as_str() else {
            return Err(Cause::WrongShape);
        };
        pairs.push((key.as_str(), text))?;
    }
    Ok(pairs)
}
