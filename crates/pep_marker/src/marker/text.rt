// How a marker is written.

ghost use Rattle.std.specs.Prelude.{◌≡◌, [], ◌∷◌, ◌++◌, not, OnOk, string_bytes};
ghost use Rattle.pep_marker.specs.Marker as syntax;
ghost use Rattle.pep_marker.specs.Marker.{MarkerParts};
ghost use Rattle.pep_marker.specs.MarkerText.{
  in_parentheses,
  is_comparison,
  is_or,
  marker_operator_text,
  marker_text,
  operand_text,
  quote_of,
};
ghost use Rattle.pep_marker.specs.View.{operand_parts, operator_parts, tree_parts};

use crate::fault::MarkerFault;
use crate::marker::{Marker, Operand, Operator, Tree};
use std::alloc::{AllocError, Global};

impl Marker {
    ghost use Rattle.std.specs.Prelude.{◌≡◌, IfErr, IfOk, string_bytes};
    ghost use Rattle.pep_marker.specs.MarkerText.{marker_text};
    ghost use Rattle.pep_marker.specs.View.{marker_parts};

    /// The marker as it is written (PEP 508, "Grammar"): one space between tokens, texts in `"`, or
    /// in `'` where they hold a `"`, and parentheses only where it would else be read otherwise.
    /// The only fault is `NoMemory`, 29.
    pub fn text(&self, alloc: Global) -> Result<String, MarkerFault>
        ensures text { IfOk result (λ t. string_bytes t ≡ marker_text (marker_parts self.now)) }
        ensures faults { IfErr result (λ e. e ≡ MarkerFault.NoMemory) }
    {
        let mut text = String::new(alloc);
        push_tree(&mut text, &self.tree)?;
        Ok(text)
    }
}

// The quote that the text doesn't hold.
fn quote(text: &str) -> &'static str
    ensures { result.now ≡ quote_of text.now ∷ [] }
{
    if text.as_bytes().contains(&b'"') {
        "'"
    } else {
        "\""
    }
}

fn push_operand(text: &mut String, operand: &Operand) -> Result<(), AllocError>
    ensures { OnOk result (string_bytes text.new
        ≡ string_bytes text.old ++ operand_text (operand_parts operand.now)) }
{
    match operand {
        Operand::Variable(variable) => text.push_str(variable.name()),
        Operand::Text(quoted) => {
            let quote = quote(quoted.as_str());
            text.push_str(quote)?;
            text.push_str(quoted.as_str())?;
            text.push_str(quote)
        }
    }
}

fn operator_text(operator: Operator) -> &'static str
    ensures { result.now ≡ marker_operator_text (operator_parts operator) }
{
    match operator {
        Operator::Version(op) => op.text(),
        Operator::In => "in",
        Operator::NotIn => "not in",
    }
}

fn push_comparison(
    text: &mut String,
    left: &Operand,
    operator: Operator,
    right: &Operand,
) -> Result<(), AllocError>
    ensures { OnOk result (string_bytes text.new ≡ string_bytes text.old ++ marker_text
        (syntax.compare (operand_parts left.now) (operator_parts operator)
        (operand_parts right.now))) }
{
    push_operand(text, left)?;
    text.push_str(" ")?;
    text.push_str(operator_text(operator))?;
    text.push_str(" ")?;
    push_operand(text, right)
}

fn is_comparison(tree: &Tree) -> bool
    ensures { result ≡ is_comparison (tree_parts tree.now) }
{
    match tree {
        Tree::Comparison(_, _, _) => true,
        Tree::And(_, _) | Tree::Or(_, _) => false,
    }
}

fn is_or(tree: &Tree) -> bool
    ensures { result ≡ is_or (tree_parts tree.now) }
{
    match tree {
        Tree::Or(_, _) => true,
        Tree::Comparison(_, _, _) | Tree::And(_, _) => false,
    }
}

#[cycle(text)]
fn push_tree(text: &mut String, tree: &Tree) -> Result<(), AllocError>
    ensures { OnOk result (string_bytes text.new
        ≡ string_bytes text.old ++ marker_text (tree_parts tree.now)) }
{
    match tree {
        Tree::Comparison(left, operator, right) => push_comparison(text, left, *operator, right),
        Tree::And(left, right) => {
            push_in_parentheses(text, left, is_or(left))?;
            text.push_str(" and ")?;
            push_in_parentheses(text, right, !is_comparison(right))
        }
        Tree::Or(left, right) => {
            push_tree(text, left)?;
            text.push_str(" or ")?;
            push_in_parentheses(text, right, is_or(right))
        }
    }
}

// The marker, in parentheses where they are needed.
#[cycle(text)]
fn push_in_parentheses(text: &mut String, tree: &Tree, needed: bool) -> Result<(), AllocError>
    ensures { OnOk result (string_bytes text.new ≡ string_bytes text.old
        ++ in_parentheses needed (marker_text (tree_parts tree.now))) }
{
    if !needed {
        return push_tree(text, tree);
    }
    text.push_str("(")?;
    push_tree(text, tree)?;
    text.push_str(")")
}
