// How a marker is read.

ghost use Rattle.std.specs.Prelude.{◌≡◌, IfOk};
ghost use Rattle.pep_marker.specs.Way.Token.{operand_of};
ghost use Rattle.pep_marker.specs.View.{operand_parts, tree_parts};

use crate::chains::made_of;
use crate::fault::MarkerFault;
use crate::making::{Comparison, Link, Making};
use crate::marker::{Marker, Operand, Tree};
use crate::token::Side;
use std::alloc::{AllocError, Global};

impl Marker {
    ghost use Rattle.std.specs.Prelude.{◌≡◌, ◌⊎◌, IfErr, IfOk};
    ghost use Rattle.pep_marker.specs.Marker.{IsMarker, IsNoMarker};
    ghost use Rattle.pep_marker.specs.View.{marker_parts};

    /// Reads a marker (PEP 508, "Grammar"): comparisons under `and` and `or`, with parentheses, of
    /// variables and of texts in quotes. White space is spaces and tabs, between the tokens and at
    /// both ends.
    ///
    /// A text that is no marker is refused as `BadMarker`, 26, or as `TooDeep`, 27. It is `TooDeep`
    /// where, from left to right, a 65th parenthesis is opened at once or a 1,025th comparison is
    /// read before there is another fault: only where it begins with tokens that have more than 64
    /// `(` or more than 1,024 operators. For a marker memory may run out, 29.
    pub fn read(alloc: Global, text: &str) -> Result<Marker, MarkerFault>
        ensures ok { IfOk result (λ m. IsMarker text.now (marker_parts m)) }
        ensures refused { IfErr result (λ e. (e ≡ MarkerFault.NoMemory) ⊎ IsNoMarker text.now e) }
    {
        let tree = made_of(alloc, &Trees, text)?;
        Ok(Marker { tree })
    }
}

// Makes the trees of markers.
struct Trees;

impl Making for Trees {
    type Part = Tree;

    ghost means = { λ _ t m. tree_parts t ≡ m };

    fn compared(&self, alloc: Global, it: Comparison<'_>) -> Result<Tree, AllocError> {
        let left = operand(alloc, it.left)?;
        let right = operand(alloc, it.right)?;
        Ok(Tree::Comparison(left, it.operator, right))
    }

    fn joined(
        &self,
        alloc: Global,
        link: Link,
        left: Tree,
        right: Tree,
    ) -> Result<Tree, AllocError> {
        let left = Box::new(alloc, left)?;
        let right = Box::new(alloc, right)?;
        Ok(match link {
            Link::And => Tree::And(left, right),
            Link::Or => Tree::Or(left, right),
        })
    }
}

fn operand(alloc: Global, side: Side) -> Result<Operand, AllocError>
    ensures { IfOk result (λ o. operand_parts o ≡ operand_of side.entry) }
{
    match side {
        Side::Variable(variable) => Ok(Operand::Variable(variable)),
        Side::Text(text) => Ok(Operand::Text(String::from_str(alloc, text)?)),
    }
}
