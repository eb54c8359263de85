// What is made of a marker while its tokens are read.

ghost use Rattle.std.specs.Prelude.{IfOk};
ghost use Rattle.pep_marker.specs.Way.Chains.{Joins};
ghost use Rattle.pep_marker.specs.Way.Compared.{compared_parts};

use crate::marker::Operator;
use crate::token::Side;
use std::alloc::{AllocError, Global};

// What joins markers: items under `and`, and and-chains under `or`.
#[derive(Clone, Copy)]
pub(crate) enum Link {
    And,
    Or,
}

// A comparison as it is written.
#[derive(Clone, Copy)]
pub(crate) struct Comparison<'a> {
    pub(crate) left: Side<'a>,
    pub(crate) operator: Operator,
    pub(crate) right: Side<'a>,
}

// Makes of a marker what it is read for: its tree, or its truth in an environment.
pub(crate) trait Making {
    ghost use Rattle.pep_marker.specs.Marker.{MarkerParts};

    // What is made of a marker.
    type Part: Drop;

    // It is made of this marker.
    ghost means: { Self → Self.Part → MarkerParts → Type 0 };

    // What is made of a comparison.
    fn compared(&self, alloc: Global, it: Comparison<'_>) -> Result<Self::Part, AllocError>
        ensures { IfOk result (λ p. means self.now p (compared_parts it.entry)) };

    // What is made of two markers under a link, of what is made of each.
    fn joined(
        &self,
        alloc: Global,
        link: Link,
        left: Self::Part,
        right: Self::Part,
    ) -> Result<Self::Part, AllocError>
        ensures { IfOk result (λ p. Joins link (means self.now left) (means self.now right)
            (means self.now p)) };
}
