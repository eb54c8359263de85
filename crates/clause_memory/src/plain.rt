//! Clauses whose version is a release, read at once: those of most lines.

ghost use Rattle.std.specs.Prelude.{◌≡◌, ◌≤◌, ◌++◌, ◌∷◌, IfSome, List, ℕ, false, length};
ghost use Rattle.texts.specs.Runs.{begins, without_leading_blanks};
ghost use Rattle.clause_memory.specs.Way.Taken.{goes_on};
ghost use Rattle.specifiers.specs.Front.{OperatorFrom};
ghost use Rattle.clause_memory.specs.Way.Plain.{MakesDemand, PlainlyDemands, ReadsOperand};

use crate::taking::is_open;
use packed_cuts::{PackedRange, PackedSet};
use pep_clause::{Op, PackedCut};
use texts::blank_run;

// How many numbers a release has at most of which there are packed cuts.
const MOST_NUMBERS: usize = 4;

// A release, and what stands behind it.
#[derive(Clone, Copy)]
struct Release<'a> {
    numbers: [u64; MOST_NUMBERS],
    count: usize,
    // Whether `.*` stands behind its numbers.
    starred: bool,
    rest: &'a [u8],
}

// What stands behind an operator.
#[derive(Clone, Copy)]
enum Operand<'a> {
    Release(Release<'a>),
    // A release of more numbers than packed cuts have.
    Long,
    Other,
}

// What stands behind this byte in front, where it stands there.
fn behind_byte(text: &[u8], byte: u8) -> Option<&[u8]>
    ensures { IfSome result (λ rest. text.now ≡ byte ∷ rest.now) }
{
    match text.split_first() {
        Some((first, rest)) if *first == byte => Some(rest),
        _ => None,
    }
}

// The release in front, with a `.*` that stands behind it.
#[inline(always)]
fn operand_at(text: &[u8]) -> Operand<'_>
    ensures { ReadsOperand text.now result }
{
    let mut numbers = [0; MOST_NUMBERS];
    let mut count = 0;
    let mut left = text;
    loop {
        let Some((number, rest)) = PackedCut::number_in(left) else {
            return Operand::Other;
        };
        if count == MOST_NUMBERS {
            return Operand::Long;
        }
        numbers[count] = number;
        count += 1;
        let Some(behind) = behind_byte(rest, b'.') else {
            return Operand::Release(Release {
                numbers,
                count,
                starred: false,
                rest,
            });
        };
        if let Some(rest) = behind_byte(behind, b'*') {
            return Operand::Release(Release {
                numbers,
                count,
                starred: true,
                rest,
            });
        }
        left = behind;
    }
}

// What the clause of this operator and release demands, where its packed cuts are told at once.
#[inline(always)]
fn release_demand(operator: Op, release: &[u64], starred: bool) -> Option<PackedSet>
    ensures { IfSome result (MakesDemand operator release.now starred) }
{
    let outside = operator.leaves_out();
    if starred {
        let range = PackedRange::of_prefix(operator, release)?;
        return Some(PackedSet { range, outside });
    }
    let range = PackedRange::of_release(operator, release)?;
    Some(PackedSet { range, outside })
}

// What is left of the text behind a clause, without white space before it, where `last` is what stands behind the
// clause's release: `None` where that goes on with a byte that ends no clause.
fn left_behind<'a>(text: &'a str, last: &[u8]) -> Option<&'a str>
    requires { (front : List ℕ) × (text.now ≡ front ++ last.now) }
    ensures left { IfSome result (λ rest. rest.now ≡ without_leading_blanks last.now) }
    ensures ends { IfSome result (λ rest. begins goes_on rest.now ≡ false) }
{
    let (_, last) = last.split_at(blank_run(last));
    if is_open(last) {
        return None;
    }
    let (_, rest) = text.split_at(text.len() - last.len());
    Some(rest)
}

/// What is told of a clause at once.
pub(crate) enum Plain<'a> {
    /// What it demands, and what stands behind it.
    Set(PackedSet, &'a str),
    /// Packed cuts of it are not told.
    Unpacked,
    /// Nothing.
    Unknown,
}

/// What the clause demands that stands in front of the text, with this operator and what stands behind it, where its
/// version is a release (PEP 440, "Final releases"), perhaps with `.*` behind it. It may be no clause where no packed
/// cuts are told.
#[inline(always)]
pub(crate) fn plain_demand<'a>(text: &'a str, operator: Op, operand: &str) -> Plain<'a>
    requires { OperatorFrom text.now operator operand.now }
    ensures { PlainlyDemands text.now result }
{
    match operand_at(operand.as_bytes()) {
        Operand::Release(release) => {
            let Some(rest) = left_behind(text, release.rest) else {
                return Plain::Unknown;
            };
            let numbers = &release.numbers[..release.count];
            match release_demand(operator, numbers, release.starred) {
                Some(demand) => Plain::Set(demand, rest),
                None => Plain::Unpacked,
            }
        }
        Operand::Long => Plain::Unpacked,
        Operand::Other => Plain::Unknown,
    }
}
