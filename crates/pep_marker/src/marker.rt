//! Environment markers (PEP 508, "Environment Markers"): a condition on an environment.

mod read;
mod text;

use crate::environment::Variable;
use specifiers::Op;

/// One side of a comparison: a variable, or a text that stood in quotes.
#[derive(Drop)]
pub enum Operand {
    Variable(Variable),
    Text(String),
}

/// An operator of version clauses, `in`, or `not in`.
#[derive(Clone, Copy, Debug, PartialEq, Eq)]
pub enum Operator {
    Version(Op),
    In,
    NotIn,
}

#[derive(Drop)]
pub(crate) enum Tree {
    Comparison(Operand, Operator, Operand),
    And(Box<Tree>, Box<Tree>),
    Or(Box<Tree>, Box<Tree>),
}

/// An environment marker (PEP 508, "Environment Markers"): a comparison, or two markers under `and`
/// or `or`.
#[derive(Drop)]
pub struct Marker {
    pub(crate) tree: Tree,
}
