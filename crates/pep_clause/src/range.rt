// Ranges between cuts.

ghost use Rattle.std.specs.Prelude.{◌≡◌, ◌&&◌, ◌↔◌, ◌∷◌, [], not, option_to_list, IfErr, IfOk, IfSome, IsSome};
ghost use Rattle.std.specs.Prelude.{if◌then◌else◌};
ghost use Rattle.std.specs.Cmp.{partial_equiv_from_equiv};
ghost use Rattle.std.specs.declared.cmp.Ordering.TheVariants.{Less};
ghost use Rattle.pep_clause.specs.Way.Joined.{SameBehind, later, range_joined, is_within};
ghost use Rattle.pep_clause.specs.Cut.{IsCut, cut_cmp, is_under};
ghost use Rattle.pep_clause.specs.OperatorTable.{range};
ghost use Rattle.pep_clause.specs.SetEquality.{same_range, same_range-equiv};

use crate::cut::Cut;
use pep_version::Key;
use specifiers::ClauseFault;
use std::alloc::Global;
use std::cmp::Ordering;
use std::marker::Model;
use std::mem::swap;

/// What lies under the high cut and not under the low one; the low cut is below the high one.
#[derive(Drop)]
pub struct Range {
    low: Cut,
    high: Cut,
}

impl Model for Range {
    ghost use Rattle.std.specs.Prelude.{◌≡◌};
    ghost use Rattle.std.specs.declared.cmp.Ordering.TheVariants.{Less};
    ghost use Rattle.pep_clause.specs.Cut.{IsCut, cut_cmp};
    ghost use Rattle.pep_clause.specs.VersionSet.{Range};

    ghost Value = { Range };

    ghost view = { λ a. record { low = a.low; high = a.high } };

    ghost invariant = { λ a. (cut_cmp a.low a.high ≡ Less) × IsCut a.low × IsCut a.high };
}

/// The cut that is not below the other.
pub(crate) fn later<'a>(a: &'a Cut, b: &'a Cut) -> &'a Cut
    ensures { result.now ≡ later cut_cmp a.now b.now }
{
    if a < b { b } else { a }
}

impl Range {
    /// The range between two cuts that are in order.
    pub(crate) fn between(low: Cut, high: Cut) -> Range
        requires low { IsCut low }
        requires high { IsCut high }
        requires in_order { cut_cmp low high ≡ Less }
        ensures { result ≡ (record {
          low = low;
          high = high;
        }) }
    {
        Range { low, high }
    }

    /// The range between two cuts, which are kept as they are, or none where the first is not below
    /// the second.
    pub fn of(low: Cut, high: Cut) -> Option<Range>
        ensures cuts { IfSome result (λ r. (r.low ≡ low) × (r.high ≡ high)) }
        ensures in_order { IsSome result ↔ (cut_cmp low high ≡ Less) }
        ensures range { option_to_list result ≡ range low high }
    {
        if low.order_to(&high) != Ordering::Less {
            return None;
        }
        Some(Range { low, high })
    }

    /// The range that both have in common, which are used up, or none.
    pub(crate) fn common(self, other: Range) -> Option<Range>
        ensures { option_to_list result ≡ range_joined self other }
    {
        let Range { low, high } = self;
        let Range {
            low: other_low,
            high: other_high,
        } = other;
        let low = if low < other_low { other_low } else { low };
        let high = if high < other_high { high } else { other_high };
        Range::of(low, high)
    }

    /// Makes the range what of it doesn't lie under the other's beginning, and says whether there is any;
    /// the other range is then left for what comes behind this one. The cuts are exchanged and no
    /// range is moved: what is left of the other may begin elsewhere below the end of this range.
    pub(crate) fn part(&mut self, other: &mut Range) -> bool
        ensures both { (if result then self.new ∷ [] else [])
            ≡ range (later cut_cmp self.old.low other.old.low) self.old.high }
        ensures left { SameBehind self.old.high other.old other.new }
        ensures above { cut_cmp other.new.low other.new.high ≡ Less }
        ensures spelled { IsCut self.old.low × IsCut other.old.low }
    {
        if self.low < other.low {
            if other.low < self.high {
                swap(&mut self.low, &mut other.low);
                return true;
            }
            return false;
        }
        true
    }

    /// Whether the range lies in the other.
    pub(crate) fn is_within(&self, other: &Range) -> bool
        ensures { result ≡ is_within self.now other.now }
    {
        self.low() >= other.low() && other.high() >= self.high()
    }

    /// Whether the version at this place is in the range.
    pub(crate) fn contains(&self, key: &Key) -> bool
        ensures { result ≡ (is_under self.now.high key.now && not (is_under self.now.low key.now)) }
    {
        self.high.is_above(key) && !self.low.is_above(key)
    }

    /// The cut where the range begins.
    pub fn low(&self) -> &Cut
        ensures low { result.now ≡ self.now.low }
        ensures spelled { IsCut self.now.low }
    {
        &self.low
    }

    /// The cut where the range ends.
    pub fn high(&self) -> &Cut
        ensures high { result.now ≡ self.now.high }
        ensures spelled { IsCut self.now.high }
        ensures above { cut_cmp self.now.low self.now.high ≡ Less }
    {
        &self.high
    }

    /// An equal range in storage of its own. The only fault is `NoMemory`.
    pub fn copied(&self, alloc: Global) -> Result<Range, ClauseFault>
        ensures same { IfOk result (λ r. r ≡ self.now) }
        ensures faults { IfErr result (λ e. e ≡ ClauseFault.NoMemory) }
    {
        let low = self.low.copied(alloc)?;
        let high = self.high.copied(alloc)?;
        Ok(Range { low, high })
    }
}

impl PartialEq for Range {
    ghost eq = { same_range };

    ghost laws = { partial_equiv_from_equiv same_range-equiv };

    fn eq(&self, other: &Range) -> bool {
        self.low == other.low && self.high == other.high
    }
}

impl Eq for Range {
    ghost laws = { same_range-equiv };
}
