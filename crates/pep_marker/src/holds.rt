// Whether a marker is true in an environment (PEP 508, "Environment Markers").

ghost use Rattle.std.specs.Prelude.{◌≡◌, ◌≢◌, ◌⊎◌, ◌&&◌, ◌||◌, IfErr, IfOk, Some};
ghost use Rattle.pep_marker.specs.Holds.{
  Compares,
  Evaluates,
  IsUndefined,
  both,
  is_extra,
  is_part,
  plain_truth,
  text_truth,
};
ghost use Rattle.pep_marker.specs.Name.{normalized};
ghost use Rattle.pep_marker.specs.Way.ComparedView.{VersionsSay, compared_bytes};
ghost use Rattle.pep_marker.specs.Way.Token.{operand_of};
ghost use Rattle.pep_marker.specs.View.{marker_parts, operand_parts, operator_parts, tree_parts};

use crate::compared_text::ComparedText;
use crate::environment::{Environment, Variable};
use crate::fault::MarkerFault;
use crate::making::{Comparison, Link, Making};
use crate::marker::{Marker, Operand, Operator, Tree};
use crate::token::Side;
use crate::value::{Value, clause_of};
use specifiers::Op;
use std::alloc::{AllocError, Global};

// True, false, or undefined.
type Truth = Option<bool>;

impl Marker {
    /// Whether the marker is true in the environment (PEP 508, "Environment Markers").
    ///
    /// Beside `extra` both texts are normalized as names are, and compared as texts. Else two texts
    /// are compared as versions where the right one makes a clause with the operator and the left
    /// one is a version, and as texts, by their bytes, where not; `===` compares texts in lower
    /// case, and `in` and `not in` ask for a part of a text. `~=` has no meaning for texts, and a
    /// marker with such a comparison is `Undefined`, 28: both sides of `and` and `or` count. Memory
    /// may run out, 29.
    pub fn holds(&self, alloc: Global, environment: &Environment) -> Result<bool, MarkerFault>
        ensures value { IfOk result (λ b. Evaluates environment.now (marker_parts self.now)
            (Some b)) }
        ensures faults { IfErr result (λ e. (e ≡ MarkerFault.NoMemory)
            ⊎ ((e ≡ MarkerFault.Undefined)
            × IsUndefined environment.now (marker_parts self.now))) }
    {
        match tree_truth(alloc, environment, &self.tree)? {
            Some(truth) => Ok(truth),
            None => Err(MarkerFault::Undefined),
        }
    }
}

// Both sides of `and` and `or` are evaluated.
fn tree_truth(alloc: Global, environment: &Environment, tree: &Tree) -> Result<Truth, AllocError>
    ensures { IfOk result (λ t. Evaluates environment.now (tree_parts tree.now) t) }
{
    match tree {
        Tree::Comparison(left, operator, right) => {
            let (left, right) = (left.side(), right.side());
            environment.compared(
                alloc,
                Comparison {
                    left,
                    operator: *operator,
                    right,
                },
            )
        }
        Tree::And(left, right) => {
            let left = tree_truth(alloc, environment, left)?;
            let right = tree_truth(alloc, environment, right)?;
            Ok(and_truth(left, right))
        }
        Tree::Or(left, right) => {
            let left = tree_truth(alloc, environment, left)?;
            let right = tree_truth(alloc, environment, right)?;
            Ok(or_truth(left, right))
        }
    }
}

impl Operand {
    // The side that it is of a comparison.
    fn side(&self) -> Side<'_>
        ensures { operand_of result ≡ operand_parts self.now }
    {
        match self {
            Operand::Variable(variable) => Side::Variable(*variable),
            Operand::Text(text) => Side::Text(text.as_str()),
        }
    }
}

// Judges markers, of which no trees are made.
impl Making for Environment {
    type Part = Truth;

    ghost means = { λ e t m. Evaluates e m t };

    // Not inlined: `tree_truth` calls itself for each comparison of a chain, and all its frames would
    // hold what is wanted here.
    #[inline(never)]
    fn compared(&self, alloc: Global, it: Comparison<'_>) -> Result<Truth, AllocError> {
        let left = ComparedText::of(self, it.left);
        let right = ComparedText::of(self, it.right);
        if is_extra(it.left) || is_extra(it.right) {
            return normal_truth(alloc, it.operator, left, right);
        }
        compared(alloc, it.operator, left, right)
    }

    fn joined(
        &self,
        _: Global,
        link: Link,
        left: Truth,
        right: Truth,
    ) -> Result<Truth, AllocError> {
        Ok(match link {
            Link::And => and_truth(left, right),
            Link::Or => or_truth(left, right),
        })
    }
}

fn and_truth(left: Truth, right: Truth) -> Truth
    ensures { result ≡ both (λ x y. x && y) left right }
{
    match (left, right) {
        (Some(left), Some(right)) => Some(left && right),
        _ => None,
    }
}

fn or_truth(left: Truth, right: Truth) -> Truth
    ensures { result ≡ both (λ x y. x || y) left right }
{
    match (left, right) {
        (Some(left), Some(right)) => Some(left || right),
        _ => None,
    }
}

fn is_extra(side: Side) -> bool
    ensures { result ≡ is_extra (operand_of side.entry) }
{
    matches!(side, Side::Variable(Variable::Extra))
}

// What the operator says of the normal forms of two texts.
fn normal_truth(
    alloc: Global,
    operator: Operator,
    left: ComparedText<'_>,
    right: ComparedText<'_>,
) -> Result<Truth, AllocError>
    ensures { IfOk result (λ t. t ≡ plain_truth (operator_parts operator)
        (normalized (compared_bytes left.entry)) (normalized (compared_bytes right.entry))) }
{
    let left = left.normal(alloc)?;
    let right = right.normal(alloc)?;
    Ok(plain_truth(operator, left.as_str(), right.as_str()))
}

// What the operator says of two texts, as versions where they are.
fn compared(
    alloc: Global,
    operator: Operator,
    left: ComparedText<'_>,
    right: ComparedText<'_>,
) -> Result<Truth, AllocError>
    ensures { IfOk result (λ t. Compares (operator_parts operator)
        (compared_bytes left.entry) (compared_bytes right.entry) t) }
{
    let Operator::Version(op) = operator else {
        return Ok(plain_truth(operator, left.text(), right.text()));
    };
    match version_truth(alloc, op, left, right)? {
        Some(truth) => Ok(Some(truth)),
        None => Ok(text_truth(op, left.text(), right.text())),
    }
}

// What the operator says of two versions; nothing where the texts are not compared as versions.
fn version_truth(
    alloc: Global,
    op: Op,
    left: ComparedText<'_>,
    right: ComparedText<'_>,
) -> Result<Option<bool>, AllocError>
    ensures { IfOk result (VersionsSay op (compared_bytes left.entry)
        (compared_bytes right.entry)) }
{
    if op == Op::Exact {
        return Ok(None);
    }
    match right {
        ComparedText::Written(text) => written_truth(alloc, op, left, text),
        ComparedText::Known(value) => known_truth(alloc, op, left, value),
    }
}

// The same where the right text stands in the marker: its clause is made.
fn written_truth(
    alloc: Global,
    op: Op,
    left: ComparedText<'_>,
    right: &str,
) -> Result<Option<bool>, AllocError>
    requires { op ≢ Op.Exact }
    ensures { IfOk result (VersionsSay op (compared_bytes left.entry) right.now) }
{
    if left.is_no_version() {
        return Ok(None);
    }
    match clause_of(alloc, op, right)? {
        Some(clause) => left.admitted_by(alloc, &clause),
        None => Ok(None),
    }
}

// The same where the right text is that of a variable, of which its clause of `==` is known.
fn known_truth(
    alloc: Global,
    op: Op,
    left: ComparedText<'_>,
    right: &Value,
) -> Result<Option<bool>, AllocError>
    requires { op ≢ Op.Exact }
    ensures { IfOk result (VersionsSay op (compared_bytes left.entry) right.now) }
{
    match right.matching() {
        Some(clause) => left.admitted_as(alloc, op, clause),
        None => Ok(None),
    }
}

// What the operator says of two texts that are not compared as versions.
fn plain_truth(operator: Operator, left: &str, right: &str) -> Truth
    ensures { result ≡ plain_truth (operator_parts operator) left.now right.now }
{
    match operator {
        Operator::In => Some(is_part(left, right)),
        Operator::NotIn => Some(!is_part(left, right)),
        Operator::Version(op) => text_truth(op, left, right),
    }
}

fn is_part(part: &str, text: &str) -> bool
    ensures { result ≡ is_part part.now text.now }
{
    text.contains(part)
}

fn text_truth(op: Op, left: &str, right: &str) -> Truth
    ensures { result ≡ text_truth op left.now right.now }
{
    match op {
        Op::Exact => Some(left.eq_ignore_ascii_case(right)),
        Op::Equal => Some(left == right),
        Op::NotEqual => Some(left != right),
        Op::Less => Some(left < right),
        Op::AtMost => Some(left <= right),
        Op::More => Some(left > right),
        Op::AtLeast => Some(left >= right),
        Op::Compatible => None,
    }
}
