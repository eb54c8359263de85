//! What two lists of ranges have in common, by one sweep over both.

ghost use Rattle.std.specs.Prelude.{◌≡◌, ◌+◌, ◌++◌, ◌≤◌, IfOk, OnOk, length};
ghost use Rattle.std.specs.Ordering.{is_lt};
ghost use Rattle.std.specs.declared.cmp.Ordering.TheVariants.{Less};
ghost use Rattle.pep_clause.specs.Cut.{IsCut, cut_cmp};
ghost use Rattle.pep_clause.specs.OperatorTable.{range};
ghost use Rattle.pep_clause.specs.Way.Joined.{SameBehind, joined, later, range_joined};
ghost use Rattle.pep_clause.specs.VersionSet.{IsNormal};

use crate::cut::Cut;
use crate::range::{Range, later};
use crate::turns::Turns;
use std::alloc::{AllocError, Global};

// What lies between two cuts goes to the end of the list, if these are in order.
fn push_between(
    alloc: Global,
    done: &mut Vec<Range>,
    low: &Cut,
    high: &Cut,
) -> Result<(), AllocError>
    ensures { OnOk result (done.new.items ≡ done.old.items ++ range low.now high.now) }
{
    if low < high {
        let low = low.copied(alloc).map_err(|_| AllocError)?;
        let high = high.copied(alloc).map_err(|_| AllocError)?;
        done.push(Range::between(low, high))?;
    }
    Ok(())
}

// What two ranges have in common goes to the end of the list. It gives whether the first one ends
// before the other, which is found out here.
fn push_common(
    alloc: Global,
    done: &mut Vec<Range>,
    range: &Range,
    other: &Range,
) -> Result<bool, AllocError>
    ensures ok { OnOk result (done.new.items ≡ done.old.items
        ++ range_joined range.now other.now) }
    ensures first { IfOk result (λ first.
        first ≡ is_lt (cut_cmp range.now.high other.now.high)) }
{
    let (end, other_end) = (range.high(), other.high());
    let ends_first = end < other_end;
    let high = if ends_first { end } else { other_end };
    push_between(alloc, done, later(range.low(), other.low()), high)?;
    Ok(ends_first)
}

/// What two lists have in common. Each turn passes a range of one of them: one that doesn't end behind
/// the first of the other list has nothing more in common with that list.
pub(crate) fn swept_ranges(
    alloc: Global,
    ranges: &[Range],
    other_ranges: &[Range],
    turns: &mut Turns,
) -> Result<Vec<Range>, AllocError>
    requires ranges { IsNormal ranges.now }
    requires other_ranges { IsNormal other_ranges.now }
    ensures ok { IfOk result (λ done. done.items ≡ joined ranges.now other_ranges.now) }
    ensures turns { turns.new.passed ≤ turns.old.passed + (length ranges.now + length other_ranges.now) }
    ensures no_fewer { turns.old.passed ≤ turns.new.passed }
{
    // Between two ranges in common one of the lists goes on to its next.
    let most = ranges
        .len()
        .saturating_add(other_ranges.len().saturating_sub(1));
    let mut done = Vec::with_capacity(alloc, most)?;
    let (mut left, mut right) = (ranges, other_ranges);
    'sweep: loop {
        let [range, left_rest @ ..] = left else {
            return Ok(done);
        };
        let [other, right_rest @ ..] = right else {
            return Ok(done);
        };
        turns.tick();
        if push_common(alloc, &mut done, range, other)? {
            left = left_rest;
        } else {
            right = right_rest;
        }
    }
}

// What the range that ends first has in common with the other goes to the end of the list.
fn push_first(done: &mut Vec<Range>, mut first: Range, other: &mut Range) -> Result<(), AllocError>
    ensures both { OnOk result (done.new.items ≡ done.old.items
        ++ range (later cut_cmp first.low other.old.low) first.high) }
    ensures left { SameBehind first.high other.old other.new }
    ensures above { cut_cmp other.new.low other.new.high ≡ Less }
    ensures spelled { IsCut first.low × IsCut other.old.low }
{
    if first.part(other) {
        done.push(first)?;
    }
    Ok(())
}

/// What two lists that are used up have in common: the same sweep, whose ranges are moved.
pub(crate) fn moved_ranges(
    alloc: Global,
    ranges: Vec<Range>,
    other_ranges: Vec<Range>,
) -> Result<Vec<Range>, AllocError>
    requires ranges { IsNormal ranges.items }
    requires other_ranges { IsNormal other_ranges.items }
    ensures { IfOk result (λ done. done.items ≡ joined ranges.items other_ranges.items) }
{
    let most = ranges
        .len()
        .saturating_add(other_ranges.len().saturating_sub(1));
    let mut done = Vec::with_capacity(alloc, most)?;
    let (mut left, mut right) = (ranges.into_iter(), other_ranges.into_iter());
    let Some(mut range) = left.next() else {
        return Ok(done);
    };
    let Some(mut other) = right.next() else {
        return Ok(done);
    };
    'sweep: loop {
        if range.high() < other.high() {
            push_first(&mut done, range, &mut other)?;
            let Some(next) = left.next() else {
                return Ok(done);
            };
            range = next;
        } else {
            push_first(&mut done, other, &mut range)?;
            let Some(next) = right.next() else {
                return Ok(done);
            };
            other = next;
        }
    }
}
