//! The turns of a sweep, which clauses alone see.

ghost use Rattle.std.specs.Prelude.{◌≡◌, ◌+◌, ℕ};
ghost use Rattle.std.specs.Borrow.{ftrue};

use std::marker::{Model, PhantomData};

/// How many turns sweeps over ranges took, each of which passes one range. The count is for clauses
/// alone: at run time it has no bytes, and `tick` does nothing.
#[derive(Drop)]
pub struct Turns {
    marker: PhantomData<()>,
    pub ghost passed: { ℕ },
}

impl Model for Turns {
    ghost also_owns = { λ _. ftrue };
}

impl Turns {
    /// A count of no turn.
    pub fn none() -> Turns
        ensures { result.passed ≡ 0 }
    {
        Turns {
            marker: PhantomData,
        }
    }

    /// Counts a turn.
    pub(crate) fn tick(&mut self)
        ensures { self.new.passed ≡ self.old.passed + 1 }
    {}
}
