//! Ranges of the versions that clauses admit, over bytes.

ghost use Rattle.std.specs.Prelude.{[], ◌≡◌, ◌⊎◌, ◌++◌, IfErr, IfOk, OnOk, map, pos, string_bytes};
ghost use Rattle.std.specs.List.{concat};
ghost use Rattle.texts.specs.Lines.{line};
ghost use Rattle.pep_table.specs.TableText.{range_text};
ghost use Rattle.faults.specs.NoMemory.{no_memory};
ghost use Rattle.pep_c.specs.ClauseLists.{RefusesClauses};
ghost use Rattle.pep_c.specs.Ranges.{AreRangeLines, IsSetOfClauses};
ghost use Rattle.pep_c.specs.Room.{GivesText, TellsRefusal};

use crate::clause_lists::clauses_of;
use crate::reply::{ANSWERED, REFUSED, Reply, give_text};
use faults::Fault;
use pep_clause::{Range, VersionSet};
use specifiers::{Clause, ClauseFault};
use std::alloc::Global;

/// The versions that the clauses other than those with `===` admit: by halves, so that many clauses take few sweeps.
pub(crate) fn set_of(alloc: Global, clauses: &[Clause]) -> Result<VersionSet, ClauseFault>
    ensures { IfOk result (IsSetOfClauses clauses.now) }
{
    let Some((clause, rest)) = clauses.split_first() else {
        return all_versions(alloc);
    };
    if rest.is_empty() {
        return VersionSet::of(alloc, clause);
    }
    let (front, behind) = clauses.split_at(clauses.len() / 2);
    let front = set_of(alloc, front)?;
    let behind = set_of(alloc, behind)?;
    front.common(alloc, behind)
}

// All versions.
fn all_versions(alloc: Global) -> Result<VersionSet, ClauseFault>
    ensures { IfOk result (IsSetOfClauses []) }
{
    let set = VersionSet::all(alloc)?;
    // Its clause tells that the set is normal.
    let _ = set.ranges();
    Ok(set)
}

// Appends a range on a line of its own.
fn push_range(text: &mut String, range: &Range) -> Result<(), ClauseFault>
    ensures { OnOk result (string_bytes text.new
        ≡ string_bytes text.old ++ line (range_text range.now)) }
{
    range.low().push_text(text)?;
    text.push_str(" to ")?;
    range.high().push_text(text)?;
    text.push_str("\n")?;
    Ok(())
}

// The ranges, each on a line of its own.
fn lines_of(alloc: Global, ranges: &[Range]) -> Result<String, ClauseFault>
    ensures { IfOk result (λ text.
        string_bytes text ≡ concat (map (λ r. line (range_text r)) ranges.now)) }
{
    let mut text = String::new(alloc);
    for range in ranges {
        push_range(&mut text, range)?;
    }
    Ok(text)
}

// The lines of the ranges of the clauses that the bytes write.
fn range_lines(alloc: Global, bytes: &[u8]) -> Result<String, Fault>
    ensures lines { IfOk result (λ text. AreRangeLines bytes.now (string_bytes text)) }
    ensures refused { IfErr result
        (λ fault. (fault ≡ no_memory) ⊎ RefusesClauses bytes.now fault) }
{
    let clauses = clauses_of(alloc, bytes)?;
    let Ok(set) = set_of(alloc, clauses.as_slice()) else {
        return Err(Fault::no_memory());
    };
    match lines_of(alloc, set.ranges()) {
        Ok(text) => Ok(text),
        Err(_) => Err(Fault::no_memory()),
    }
}

/// The versions that the clauses other than those with `===` admit, as sorted ranges between cuts, each on a line of
/// its own, as `before 1 to before 2.dev0` (see [`Cut::text`](pep_clause::Cut::text)). There is no line exactly if
/// these clauses admit no version. The clauses and the refusals are those of
/// [`tubrambutan_clauses`](crate::tubrambutan_clauses).
#[unsafe(no_mangle)]
pub extern "C" fn tubrambutan_ranges(alloc: Global, bytes: &[u8], room: &mut [u8]) -> Reply
    ensures status { (result.status ≡ ANSWERED) ⊎ (result.status ≡ REFUSED) }
    ensures answer { result.answer ≡ pos 0 }
    ensures ranges { result.status ≡ ANSWERED →
        GivesText (AreRangeLines bytes.now) result.size room.old room.new }
    ensures refused { result.status ≡ REFUSED →
        TellsRefusal (RefusesClauses bytes.now) result.size room.old room.new }
{
    give_text(alloc, range_lines(alloc, bytes), room)
}
