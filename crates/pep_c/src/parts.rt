//! Inputs that stand one behind the other in one buffer.

ghost use Rattle.std.specs.Prelude.{◌≡◌, ◌<◌, ◌++◌, List, ℕ, IfErr, IfOk, IfSome, IsNone, length};
ghost use Rattle.pep_c.specs.Parts.{AsksGroup, HoldsInputs, IsPart};
ghost use Rattle.pep_c.specs.Parts.{RefusesAskedGroup, RefusesPart, RefusesParts, kind_numbered};

use crate::names::read_name;
use faults::Fault;
use inputs::{Input, Kind};
use pep_marker::Name;
use std::alloc::{AllocError, AllocFailed, Global};

/// An input in a buffer: the number of its kind, how many bytes it has, and how many the name of the
/// dependency group has that stands in front of them.
#[repr(C)]
#[derive(Clone, Copy, Debug, PartialEq, Eq)]
pub struct Part {
    /// 0 for a list, 1 for a project file, 2 for a printed table.
    pub kind: u32,
    /// How many bytes of the buffer are the input's: those behind the name of its group.
    pub size: usize,
    /// How many bytes, behind the inputs before it, are the name of the dependency group that is asked
    /// for of a project file (PyPA "Dependency Groups", PEP 735); 0 where none is.
    pub group_size: usize,
}

/// Why a buffer isn't cut into inputs.
#[derive(Debug, Drop)]
pub(crate) enum CutFault {
    /// A kind is unknown, a group is asked for of no project file, or the sizes aren't those of the bytes.
    Miscut,
    /// What stands in the place of a group is no name, 62 with 21; or 60.
    Refused(Fault),
}

impl From<AllocError> for CutFault {
    ghost use Rattle.faults.specs.NoMemory.{no_memory};
    ghost use Rattle.pep_c.specs.declared.parts.CutFault.TheVariants.{Refused};

    ghost from_gives = { λ _ e. e ≡ Refused no_memory };

    fn from(_: AllocError) -> CutFault {
        CutFault::Refused(Fault::no_memory())
    }
}

impl<T: Drop> From<AllocFailed<T>> for CutFault {
    ghost use Rattle.faults.specs.NoMemory.{no_memory};
    ghost use Rattle.pep_c.specs.declared.parts.CutFault.TheVariants.{Refused};

    ghost from_gives = { λ _ e. e ≡ Refused no_memory };

    fn from(_: AllocFailed<T>) -> CutFault {
        CutFault::Refused(Fault::no_memory())
    }
}

// The kind with this number.
fn kind_numbered(number: u32) -> Option<Kind>
    ensures { result ≡ kind_numbered number }
{
    match number {
        0 => Some(Kind::List),
        1 => Some(Kind::Project),
        2 => Some(Kind::Table),
        _ => None,
    }
}

// So many bytes in front, and those behind them.
fn cut(bytes: &[u8], size: usize) -> Option<(&[u8], &[u8])>
    ensures cut { IfSome result (λ r. (bytes.now ≡ r.0.now ++ r.1.now)
        × (length r.0.now ≡ size)) }
    ensures few { IsNone result → length bytes.now < size }
{
    if bytes.len() < size {
        return None;
    }
    Some(bytes.split_at(size))
}

// The dependency group with this name, which stands in front of an input of this kind.
fn group_of(alloc: Global, kind: Kind, text: &[u8]) -> Result<Option<Name>, CutFault>
    ensures group { IfOk result (AsksGroup kind text.now) }
    ensures refused { IfErr result (RefusesAskedGroup kind text.now) }
{
    if text.is_empty() {
        return Ok(None);
    }
    match kind {
        Kind::Project => {}
        _ => return Err(CutFault::Miscut),
    }
    match read_name(alloc, text) {
        Ok(name) => Ok(Some(name)),
        Err(fault) => Err(CutFault::Refused(fault)),
    }
}

// The input that stands in front of the bytes, and those behind it.
fn input_of<'a>(alloc: Global, part: &Part, left: &'a [u8]) -> Result<(Input, &'a [u8]), CutFault>
    ensures input { IfOk result (λ r. (front : List ℕ) × (left.now ≡ front ++ r.1.now)
        × IsPart part.now front r.0) }
    ensures refused { IfErr result (RefusesPart part.now left.now) }
{
    let Some(kind) = kind_numbered(part.kind) else {
        return Err(CutFault::Miscut);
    };
    let Some((group, behind)) = cut(left, part.group_size) else {
        return Err(CutFault::Miscut);
    };
    let group = group_of(alloc, kind, group)?;
    let Some((own, rest)) = cut(behind, part.size) else {
        return Err(CutFault::Miscut);
    };
    let bytes = Vec::from_slice(alloc, own)?;
    Ok((Input { kind, bytes, group }, rest))
}

// The inputs that stand in the bytes, as the parts say.
pub(crate) fn inputs_of(alloc: Global, parts: &[Part], bytes: &[u8]) -> Result<Vec<Input>, CutFault>
    ensures inputs { IfOk result (λ inputs. HoldsInputs parts.now bytes.now inputs.items) }
    ensures refused { IfErr result (RefusesParts parts.now bytes.now) }
{
    let mut inputs = Vec::with_capacity(alloc, parts.len())?;
    let mut left = bytes;
    for part in parts {
        let (input, rest) = input_of(alloc, part, left)?;
        inputs.push(input)?;
        left = rest;
    }
    if left.is_empty() {
        Ok(inputs)
    } else {
        Err(CutFault::Miscut)
    }
}
