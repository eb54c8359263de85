//! Versions and clauses, over bytes.

ghost use Rattle.std.specs.Prelude.{◌≡◌, ◌⊎◌, IfErr, IfOk, Ok, pos, string_bytes};
ghost use Rattle.pep_version.specs.Spelling.{Reads};
ghost use Rattle.specifiers.specs.Clause.{IsClause};
ghost use Rattle.faults.specs.NoMemory.{no_memory};
ghost use Rattle.pep_c.specs.Room.{GivesNothing, GivesText, TellsRefusal};
ghost use Rattle.pep_c.specs.Versions.{AdmitsVersion, IsNoClause, IsOrder, IsVersionText};
ghost use Rattle.pep_c.specs.Versions.{RefusesClause, RefusesOrder, RefusesVersion};
ghost use Rattle.pep_c.specs.Versions.{order_number, truth_number};

use crate::first_line::{first_line, refused_line};
use crate::reply::{ANSWERED, REFUSED, Reply, give_answer, give_text};
use faults::{ArgumentFault, Fault, LineFault};
use pep_require::RequireFault;
use pep_version::{Version, VersionFault};
use specifiers::Clause;
use std::alloc::Global;
use std::cmp::Ordering;

// The version that a text spells.
fn version_of(alloc: Global, text: &str) -> Result<Version, Fault>
    ensures version { IfOk result (λ version. Reads text.now (Ok version)) }
    ensures refused { IfErr result
        (λ fault. (fault ≡ no_memory) ⊎ RefusesVersion text.now fault) }
{
    match Version::read(alloc, text) {
        Ok(version) => Ok(version),
        Err(fault) => Err(Fault::of_argument(ArgumentFault::Version(fault))),
    }
}

/// The version that the bytes spell.
pub(crate) fn read_version(alloc: Global, bytes: &[u8]) -> Result<Version, Fault>
    ensures version { IfOk result (λ version. Reads bytes.now (Ok version)) }
    ensures refused { IfErr result
        (λ fault. (fault ≡ no_memory) ⊎ RefusesVersion bytes.now fault) }
{
    match str::from_utf8(bytes) {
        Ok(text) => version_of(alloc, text),
        Err(_) => Err(Fault::of_argument(ArgumentFault::Version(VersionFault::NotAVersion))),
    }
}

// The normal text of a version.
fn version_text(alloc: Global, bytes: &[u8]) -> Result<String, Fault>
    ensures text { IfOk result (λ text. IsVersionText bytes.now (string_bytes text)) }
    ensures refused { IfErr result
        (λ fault. (fault ≡ no_memory) ⊎ RefusesVersion bytes.now fault) }
{
    let version = read_version(alloc, bytes)?;
    match version.text(alloc) {
        Ok(text) => Ok(text),
        Err(_) => Err(Fault::no_memory()),
    }
}

// An order as a number.
fn order_number(order: Ordering) -> i32
    ensures { result ≡ order_number order }
{
    match order {
        Ordering::Less => -1,
        Ordering::Equal => 0,
        Ordering::Greater => 1,
    }
}

// The order of two versions, as a number.
fn order(alloc: Global, first: &[u8], second: &[u8]) -> Result<i32, Fault>
    ensures order { IfOk result (IsOrder first.now second.now) }
    ensures refused { IfErr result
        (λ fault. (fault ≡ no_memory) ⊎ RefusesOrder first.now second.now fault) }
{
    let first = read_version(alloc, first)?;
    let second = read_version(alloc, second)?;
    Ok(order_number(first.order_to(&second)))
}

// The clause that a text writes.
fn clause_of(alloc: Global, text: &str) -> Result<Clause, Fault>
    ensures clause { IfOk result (IsClause text.now) }
    ensures refused { IfErr result (λ fault. (fault ≡ no_memory) ⊎ IsNoClause text.now fault) }
{
    match Clause::read(alloc, text) {
        Ok(clause) => Ok(clause),
        Err(fault) => Err(refused_line(RequireFault::from(fault))),
    }
}

/// The clause that the bytes write.
pub(crate) fn read_clause(alloc: Global, bytes: &[u8]) -> Result<Clause, Fault>
    ensures clause { IfOk result (IsClause bytes.now) }
    ensures refused { IfErr result (λ fault. (fault ≡ no_memory) ⊎ IsNoClause bytes.now fault) }
{
    match str::from_utf8(bytes) {
        Ok(text) => clause_of(alloc, text),
        Err(_) => Err(first_line(LineFault::NotUtf8)),
    }
}

/// A truth as a number.
pub(crate) fn truth_number(truth: bool) -> i32
    ensures { result ≡ truth_number truth }
{
    if truth { 1 } else { 0 }
}

// Whether a clause admits a version, as a number.
fn admitted(alloc: Global, clause: &[u8], version: &[u8]) -> Result<i32, Fault>
    ensures admitted { IfOk result (AdmitsVersion clause.now version.now) }
    ensures refused { IfErr result
        (λ fault. (fault ≡ no_memory) ⊎ RefusesClause clause.now version.now fault) }
{
    let clause = read_clause(alloc, clause)?;
    let version = read_version(alloc, version)?;
    match clause.admits(alloc, &version) {
        Ok(is_admitted) => Ok(truth_number(is_admitted)),
        Err(_) => Err(Fault::no_memory()),
    }
}

/// The normal text of the version that the bytes spell (PEP 440, "Normalization"; see
/// [`Version::text`](pep_version::Version::text)). It is refused as 62 with 1 or 2, or as 60.
#[unsafe(no_mangle)]
pub extern "C" fn tubrambutan_version(alloc: Global, bytes: &[u8], room: &mut [u8]) -> Reply
    ensures status { (result.status ≡ ANSWERED) ⊎ (result.status ≡ REFUSED) }
    ensures answer { result.answer ≡ pos 0 }
    ensures text { result.status ≡ ANSWERED →
        GivesText (IsVersionText bytes.now) result.size room.old room.new }
    ensures refused { result.status ≡ REFUSED →
        TellsRefusal (RefusesVersion bytes.now) result.size room.old room.new }
{
    give_text(alloc, version_text(alloc, bytes), room)
}

/// The order of the versions that the two texts spell (PEP 440, "Summary of permitted suffixes and
/// relative ordering"; see [`Key`](pep_version::Key)): -1 where the first is below the second, 0 where
/// they are the same, 1 where it is above. A refusal is that of the first, 62 with 1 or 2, or else that
/// of the second; or 60.
#[unsafe(no_mangle)]
pub extern "C" fn tubrambutan_compare(
    alloc: Global,
    first: &[u8],
    second: &[u8],
    room: &mut [u8],
) -> Reply
    ensures status { (result.status ≡ ANSWERED) ⊎ (result.status ≡ REFUSED) }
    ensures order { result.status ≡ ANSWERED → IsOrder first.now second.now result.answer
        × GivesNothing result.size room.old room.new }
    ensures no_answer { result.status ≡ REFUSED → result.answer ≡ pos 0 }
    ensures refused { result.status ≡ REFUSED → TellsRefusal
        (RefusesOrder first.now second.now) result.size room.old room.new }
{
    give_answer(alloc, order(alloc, first, second), room)
}

/// Whether the clause that the one text writes admits the version that the other spells (PEP 440,
/// "Version specifiers"; see [`Clause::admits`](specifiers::Clause::admits)): 1 or 0.
///
/// A refusal is that of the clause, as line 1 of input 1, 57 with 51 or with 33 and 11 to 16; or else
/// that of the version, 62 with 1 or 2; or 60.
#[unsafe(no_mangle)]
pub extern "C" fn tubrambutan_admits(
    alloc: Global,
    clause: &[u8],
    version: &[u8],
    room: &mut [u8],
) -> Reply
    ensures status { (result.status ≡ ANSWERED) ⊎ (result.status ≡ REFUSED) }
    ensures admits { result.status ≡ ANSWERED → AdmitsVersion clause.now version.now result.answer
        × GivesNothing result.size room.old room.new }
    ensures no_answer { result.status ≡ REFUSED → result.answer ≡ pos 0 }
    ensures refused { result.status ≡ REFUSED → TellsRefusal
        (RefusesClause clause.now version.now) result.size room.old room.new }
{
    give_answer(alloc, admitted(alloc, clause, version), room)
}
