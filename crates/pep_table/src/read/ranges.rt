// The lines of ranges.

ghost use Rattle.std.specs.Prelude.{◌≡◌, ◌⊎◌, ◌↔◌, ◌++◌, ◌∷◌, []};
ghost use Rattle.std.specs.Prelude.{IfErr, IfOk, IfSome, IsTrue, None, OnOk, Some, codes, map};
ghost use Rattle.pep_clause.specs.Cut.{Cut, IsCut, cut_text};
ghost use Rattle.pep_clause.specs.VersionSet.{IsNormal, Range};
ghost use Rattle.pep_table.specs.Way.TableReading.{AreRanges, Front, HasNoFront, IsRange};
ghost use Rattle.pep_table.specs.Way.ReadText.{AreKindLines, HaltsAt, IsBehind};
ghost use Rattle.pep_table.specs.TableText.{range_text};

use crate::read::Halt;
use crate::read::split::split_at_byte;
use pep_clause::{Cut, Range, VersionSet};
use std::alloc::{AllocError, Global};

/// What stands in front of a range.
pub(crate) const RANGE: &str = "  range ";
/// What stands between its cuts.
pub(crate) const TO: &str = " to ";

fn cut_of(alloc: Global, text: &str) -> Result<Option<Cut>, AllocError>
    ensures read { IfOk result (λ read. (c : Cut) → IsCut c
        → ((read ≡ Some c) ↔ (cut_text c ≡ text.now))) }
    ensures spelled { IfOk result (λ read. IfSome read (λ c. IsCut c)) }
{
    Cut::read(alloc, text).map_err(|_| AllocError)
}

// The texts of the two cuts: in front of the second space, and behind the ` to ` that begins with it.
fn cut_texts(text: &str) -> Option<(&str, &str)>
    ensures some { IfSome result (λ p. text.now ≡ p.0.now ++ codes " to " ++ p.1.now) }
    ensures none { result ≡ None → (r : Range) → IsRange r → ¬ (range_text r ≡ text.now) }
    ensures first { IfSome result (λ p. (r : Range) → IsRange r → range_text r ≡ text.now
        → (p.0.now ≡ cut_text r.low) × (p.1.now ≡ cut_text r.high)) }
{
    let (_, version) = split_at_byte(text, b' ')?;
    let (_, rest) = split_at_byte(version, b' ')?;
    let (low, behind) = text.split_at(text.len() - rest.len() - 1);
    Some((low, behind.strip_prefix(TO)?))
}

// The range of a text, if it is one's.
fn range_of(alloc: Global, text: &str) -> Result<Option<Range>, AllocError>
    ensures some { IfOk result (λ read. IfSome read (λ r.
        (range_text r ≡ text.now) × IsRange r)) }
    ensures none { IfOk result (λ read. read ≡ None → (r : Range) → IsRange r
        → ¬ (range_text r ≡ text.now)) }
{
    let Some((low, high)) = cut_texts(text) else {
        return Ok(None);
    };
    let Some(low) = cut_of(alloc, low)? else {
        return Ok(None);
    };
    let Some(high) = cut_of(alloc, high)? else {
        return Ok(None);
    };
    Ok(Range::of(low, high))
}

// Whether the range begins above the end of the others.
fn is_behind(ranges: &[Range], range: &Range) -> bool
    requires { IsNormal ranges.now }
    ensures { IsTrue result ↔ IsNormal (ranges.now ++ range.now ∷ []) }
{
    // Its clauses tell that it is one.
    let (low, _) = (range.low(), range.high());
    match ranges.last() {
        Some(last) => last.high() < low,
        None => true,
    }
}

// The range goes to the end of the list. Most lists have one, and room for no more.
fn append_range(ranges: &mut Vec<Range>, range: Range) -> Result<(), AllocError>
    ensures { OnOk result (ranges.new.items ≡ ranges.old.items ++ range ∷ []) }
{
    if ranges.is_empty() {
        ranges.reserve_exact(1)?;
    }
    ranges.push(range)?;
    Ok(())
}

/// The set of the ranges on all lines of ranges in front, and the text behind them.
pub(crate) fn read_ranges(alloc: Global, text: &str) -> Result<(VersionSet, &str), Halt<'_>>
    ensures ok { IfOk result (λ r. Front (codes "range") text.now (map range_text r.0) r.1.now
        × IsNormal r.0) }
    ensures refused { IfErr result (λ e. (e ≡ Halt.NoMemory)
        ⊎ HasNoFront (codes "range") AreRanges text.now) }
    ensures stops { IfErr result (HaltsAt (IsBehind (AreKindLines (codes "range")) text.now)) }
{
    let mut ranges = Vec::new(alloc);
    let mut rest = text;
    while let Some(line) = rest.strip_prefix(RANGE) {
        let Some((range, behind)) = split_at_byte(line, b'\n') else {
            return Err(Halt::At(rest));
        };
        let Some(range) = range_of(alloc, range)? else {
            return Err(Halt::At(rest));
        };
        if !is_behind(ranges.as_slice(), &range) {
            return Err(Halt::At(rest));
        }
        append_range(&mut ranges, range)?;
        rest = behind;
    }
    // Each range was above the one before, so they are a set's.
    match VersionSet::of_ranges(ranges) {
        Some(versions) => Ok((versions, rest)),
        None => Err(Halt::At(rest)),
    }
}
