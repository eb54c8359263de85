//! Clauses within others, over bytes.

ghost use Rattle.std.specs.Prelude.{
  ◌≡◌,
  ◌⊎◌,
  ◌↔◌,
  IfErr,
  IfOk,
  IsTrue,
  None,
  Ok,
  Some,
  option_map,
  pos,
};
ghost use Rattle.pep_version.specs.Spelling.{Reads};
ghost use Rattle.faults.specs.NoMemory.{no_memory};
ghost use Rattle.pep_c.specs.ClauseLists.{AreClauses};
ghost use Rattle.pep_c.specs.Ranges.{IsSetOfClauses};
ghost use Rattle.pep_c.specs.Room.{GivesNothing, TellsRefusal};
ghost use Rattle.pep_c.specs.Within.{IsWithin, LieWithin, RefusesSecond, RefusesWithin};
ghost use Rattle.pep_c.specs.Way.Within.{first_demanded};

use crate::clause_lists::{admits_all, clauses_of};
use crate::ranges::set_of;
use crate::reply::{ANSWERED, REFUSED, Reply, give_answer};
use crate::versions::{read_version, truth_number};
use faults::{Cause, Fault, Place};
use pep_clause::VersionSet;
use pep_version::Version;
use specifiers::Clause;
use std::alloc::{AllocError, Global};

// The text that the first clause with `===` demands, if there is one.
fn exact_text(clauses: &[Clause]) -> Option<&str>
    ensures { option_map (λ text. text.now) result ≡ first_demanded clauses.now }
{
    for clause in clauses {
        let text = clause.exact_text();
        if text.is_some() {
            return text;
        }
    }
    None
}

// Whether the other clauses admit the version if the clauses do, which demand its text: so they admit no other one.
fn admit_too(
    alloc: Global,
    clauses: &[Clause],
    others: &[Clause],
    text: &str,
    version: &Version,
) -> Result<bool, AllocError>
    requires text { first_demanded clauses.now ≡ Some text.now }
    requires reads { Reads text.now (Ok version.now) }
    ensures { IfOk result (λ b. IsTrue b ↔ LieWithin clauses.now others.now) }
{
    let is_admitted = admits_all(alloc, clauses, version)?;
    if !is_admitted {
        return Ok(true);
    }
    admits_all(alloc, others, version)
}

// Whether the clauses, which demand the text, lie within the others. Where no version has the text, they admit none.
fn text_is_within(
    alloc: Global,
    clauses: &[Clause],
    others: &[Clause],
    text: &str,
) -> Result<bool, AllocError>
    requires { first_demanded clauses.now ≡ Some text.now }
    ensures { IfOk result (λ b. IsTrue b ↔ LieWithin clauses.now others.now) }
{
    match read_version(alloc, text.as_bytes()) {
        Ok(version) => admit_too(alloc, clauses, others, text, &version),
        Err(fault) => match fault.cause {
            Cause::NoMemory => Err(AllocError),
            _ => Ok(true),
        },
    }
}

// The versions that the clauses admit, but for those with `===`.
fn versions_of(alloc: Global, clauses: &[Clause]) -> Result<VersionSet, AllocError>
    ensures { IfOk result (IsSetOfClauses clauses.now) }
{
    match set_of(alloc, clauses) {
        Ok(set) => Ok(set),
        Err(_) => Err(AllocError),
    }
}

// Whether the clauses, which demand no text, lie within the others. Of the versions between two cuts, some have another
// text than is demanded.
fn set_is_within(alloc: Global, clauses: &[Clause], others: &[Clause]) -> Result<bool, AllocError>
    requires { first_demanded clauses.now ≡ None }
    ensures { IfOk result (λ b. IsTrue b ↔ LieWithin clauses.now others.now) }
{
    let set = versions_of(alloc, clauses)?;
    if exact_text(others).is_some() {
        return Ok(set.is_empty());
    }
    let other = versions_of(alloc, others)?;
    match set.joined(alloc, &other) {
        Ok(both) => Ok(both == set),
        Err(_) => Err(AllocError),
    }
}

// Whether the clauses lie within the others.
fn are_within(alloc: Global, clauses: &[Clause], others: &[Clause]) -> Result<bool, AllocError>
    ensures { IfOk result (λ b. IsTrue b ↔ LieWithin clauses.now others.now) }
{
    match exact_text(clauses) {
        Some(text) => text_is_within(alloc, clauses, others, text),
        None => set_is_within(alloc, clauses, others),
    }
}

// The clauses that the bytes write, as input 2.
fn other_clauses(alloc: Global, bytes: &[u8]) -> Result<Vec<Clause>, Fault>
    ensures clauses { IfOk result (λ clauses. AreClauses bytes.now clauses.items) }
    ensures refused { IfErr result (λ fault. (fault ≡ no_memory) ⊎ RefusesSecond bytes.now fault) }
{
    match clauses_of(alloc, bytes) {
        Ok(clauses) => Ok(clauses),
        Err(fault) => Err(Fault::of(Place::Input(2), fault.cause)),
    }
}

// Whether the clauses that the bytes write lie within those that the others write, as a number.
fn compared(alloc: Global, bytes: &[u8], others: &[u8]) -> Result<i32, Fault>
    ensures within { IfOk result (IsWithin bytes.now others.now) }
    ensures refused { IfErr result
        (λ fault. (fault ≡ no_memory) ⊎ RefusesWithin bytes.now others.now fault) }
{
    let clauses = clauses_of(alloc, bytes)?;
    let others = other_clauses(alloc, others)?;
    match are_within(alloc, clauses.as_slice(), others.as_slice()) {
        Ok(is_within) => Ok(truth_number(is_within)),
        Err(_) => Err(Fault::no_memory()),
    }
}

/// Whether the clauses that the bytes write lie within those that the others write: 1 if each version that all of the
/// first admit, all of the others admit too, those with `===` among them; and else 0. The clauses are read as by
/// [`tubrambutan_clauses`](crate::tubrambutan_clauses).
///
/// A refusal is that of the first, as line 1 of input 1, 57 with 51 or with 33 and 11 to 16; or else that of the
/// others, as line 1 of input 2; or 60.
#[unsafe(no_mangle)]
pub extern "C" fn tubrambutan_within(
    alloc: Global,
    bytes: &[u8],
    others: &[u8],
    room: &mut [u8],
) -> Reply
    ensures status { (result.status ≡ ANSWERED) ⊎ (result.status ≡ REFUSED) }
    ensures within { result.status ≡ ANSWERED → IsWithin bytes.now others.now result.answer
        × GivesNothing result.size room.old room.new }
    ensures no_answer { result.status ≡ REFUSED → result.answer ≡ pos 0 }
    ensures refused { result.status ≡ REFUSED → TellsRefusal
        (RefusesWithin bytes.now others.now) result.size room.old room.new }
{
    give_answer(alloc, compared(alloc, bytes, others), room)
}
