//! Sets of the versions between two packed cuts, or of all others.

ghost use Rattle.std.specs.Prelude.{◌≡◌, ◌∷◌, [], IfSome};
ghost use Rattle.pep_clause.specs.Cut.{IsCut};
ghost use Rattle.pep_clause.specs.OperatorTable.{outside};
ghost use Rattle.packed_cuts.specs.Way.PackedSet.{ranges_in};

use crate::packed_range::PackedRange;
use pep_clause::{Cut, Range, VersionSet};

/// The versions between two packed cuts, or all others.
#[derive(Clone, Copy)]
pub struct PackedSet {
    pub range: PackedRange,
    pub outside: bool,
}

// The versions between two cuts, where both are held packed.
fn between(low: &Cut, high: &Cut) -> Option<PackedRange>
    ensures low { IfSome result (λ b. b.low ≡ low.now) }
    ensures high { IfSome result (λ b. b.high ≡ high.now) }
{
    Some(PackedRange {
        low: low.packed()?,
        high: high.packed()?,
    })
}

// What two ranges leave out, the first of which begins under all versions, and the second of which ends behind all.
fn left_out(first: &Range, second: &Range) -> Option<PackedRange>
    ensures { IfSome result (λ b. outside b.low b.high ≡ first.now ∷ second.now ∷ []) }
{
    if *first.low() == Cut::least() && *second.high() == Cut::end() {
        return between(first.high(), second.low());
    }
    None
}

impl PackedSet {
    /// The versions of a set that is empty, has one range whose cuts are held packed, or leaves out just what lies
    /// between two such cuts. `None` says nothing of the set.
    pub fn of(versions: &VersionSet) -> Option<PackedSet>
        ensures ranges { IfSome result (λ s. ranges_in s ≡ versions.now) }
        ensures spelled { IfSome result (λ s. IsCut s.range.low × IsCut s.range.high) }
    {
        match versions.ranges() {
            [] => Some(PackedSet {
                range: PackedRange::none(),
                outside: false,
            }),
            [range] => Some(PackedSet {
                range: between(range.low(), range.high())?,
                outside: false,
            }),
            [first, second] => Some(PackedSet {
                range: left_out(first, second)?,
                outside: true,
            }),
            _ => None,
        }
    }
}
