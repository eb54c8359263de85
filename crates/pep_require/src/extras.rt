// The extras of a requirement line (PEP 508, "Extras").

ghost use Rattle.std.specs.Prelude.{
  ◌≡◌,
  ◌⊎◌,
  ◌↔◌,
  ◌==◌,
  ◌≤◌,
  ℕ,
  Contains,
  IfErr,
  IfOk,
  List,
  OnOk,
  length,
  not,
};
ghost use Rattle.std.specs.List.{prefix_len};
ghost use Rattle.pep_require.specs.Way.ExtrasParts.{NamesWithin, NoExtra, NoneWithin};
ghost use Rattle.pep_require.specs.LineParts.{RefusesExtras};
ghost use Rattle.pep_require.specs.Reads.{IsExtra};
ghost use Rattle.pep_require.specs.Requirement.{IsAscending};
ghost use Rattle.pep_require.specs.Way.Sink.{Adds, ExtrasNamed, with_named};

use crate::fault::RequireFault;
use crate::front::behind;
use crate::sink::LineSink;
use memchr::memchr;
use pep_marker::{MarkerFault, Name};
use std::alloc::Global;
use texts::stripped;

// The name of one extra, with white space round it.
fn extra(alloc: Global, piece: &str) -> Result<Name, RequireFault>
    ensures read { IfOk result (λ name. IsExtra piece.now name) }
    ensures refused { IfErr result (λ e. (e ≡ RequireFault.NoMemory)
        ⊎ ((e ≡ RequireFault.BadExtras) × NoExtra piece.now)) }
{
    match Name::in_front(alloc, stripped(piece)) {
        Ok((name, after)) => {
            if stripped(after).is_empty() {
                Ok(name)
            } else {
                Err(RequireFault::BadExtras)
            }
        }
        Err(MarkerFault::BadName) => Err(RequireFault::BadExtras),
        // The only other fault is lack of memory.
        Err(_) => Err(RequireFault::NoMemory),
    }
}

// The extras in front of the text, and none where it doesn't begin with `[`, go to the sink. What stands behind them is
// given.
#[inline(always)]
pub(crate) fn walk_extras<'a, S: LineSink>(
    alloc: Global,
    sink: &mut S,
    line: &mut S::Line,
    text: &'a str,
) -> Result<&'a str, RequireFault>
    ensures same { sink.new ≡ sink.old }
    ensures ok { IfOk result (λ rest. (names : List (List ℕ))
        × ExtrasNamed text.now names rest.now
        × Adds (S.holds sink.old line.old) (S.holds sink.old line.new) (with_named names)) }
    ensures refused { IfErr result (λ e. (e ≡ RequireFault.NoMemory)
        ⊎ RefusesExtras text.now e) }
{
    let Some(listed) = behind(text, '[') else {
        return Ok(text);
    };
    let (inner, closed) = listed.split_at(run_before(listed.as_bytes(), b']'));
    let Some(rest) = behind(closed, ']') else {
        return Err(RequireFault::BadExtras);
    };
    walk_names(alloc, sink, line, inner)?;
    Ok(rest)
}

// How many bytes stand in front of the first such byte, or else in the whole text.
pub(crate) fn run_before(text: &[u8], byte: u8) -> usize
    ensures count { result ≡ prefix_len (λ b. not (b == byte)) text.now }
    ensures within { result ≤ length text.now }
{
    match memchr(byte, text) {
        Some(at) => at,
        None => text.len(),
    }
}

// The names between the brackets, in the order of the text: white space alone, or names joined by `,`.
fn walk_names<S: LineSink>(
    alloc: Global,
    sink: &mut S,
    line: &mut S::Line,
    inner: &str,
) -> Result<(), RequireFault>
    ensures same { sink.new ≡ sink.old }
    ensures ok { OnOk result ((names : List (List ℕ)) × NamesWithin inner.now names
        × Adds (S.holds sink.old line.old) (S.holds sink.old line.new) (with_named names)) }
    ensures refused { IfErr result (λ e. (e ≡ RequireFault.NoMemory)
        ⊎ ((e ≡ RequireFault.BadExtras) × NoneWithin inner.now)) }
{
    if stripped(inner).is_empty() {
        return Ok(());
    }
    let mut left = inner;
    loop {
        let (piece, after) = left.split_at(run_before(left.as_bytes(), b','));
        let name = extra(alloc, piece)?;
        sink.extra(line, name)?;
        let Some(following) = behind(after, ',') else {
            return Ok(());
        };
        left = following;
    }
}

// Sorts the names, and keeps each once.
#[inline(always)]
pub(crate) fn sort(names: &mut Vec<Name>)
    ensures ascending { IsAscending names.new.items }
    ensures same { (n : List ℕ) → Contains names.new.items n ↔ Contains names.old.items n }
{
    if names.as_slice().len() < 2 {
        return;
    }
    sort_all(names);
}

fn sort_all(names: &mut Vec<Name>)
    ensures ascending { IsAscending names.new.items }
    ensures same { (n : List ℕ) → Contains names.new.items n ↔ Contains names.old.items n }
{
    names.sort_unstable();
    names.dedup();
    names.shrink_to_fit();
}
