//! The clause in front of a text, as what it demands.

ghost use Rattle.std.specs.Prelude.{
  ◌≡◌,
  ◌⊎◌,
  ◌≤◌,
  ◌++◌,
  IfErr,
  IfOk,
  List,
  false,
  length,
  true,
  ℕ,
};
ghost use Rattle.std.specs.List.{list_all, prefix_len};
ghost use Rattle.texts.specs.Runs.{begins};
ghost use Rattle.specifiers.specs.Front.{OperatorFrom};
ghost use Rattle.pep_require.specs.LineParts.{RefusesBound};
ghost use Rattle.clause_memory.specs.Way.Taken.{TakesFront, goes_on};

use crate::memory::{ClauseMemory, Known};
use crate::plain::{Plain, plain_demand};
use demands::LineDemands;
use pep_clause::{Clause, Op, is_demanded_text, operand_in_front};
use pep_require::RequireFault;
use std::alloc::Global;

// How many bytes stand before a `,`, a `;` or a `)`.
fn piece_run(text: &[u8]) -> usize
    ensures count { result ≡ prefix_len goes_on text.now }
    ensures within { result ≤ length text.now }
{
    text.iter().take_while(|b| goes_on(**b)).count()
}

// What stands before the byte that ends a clause, and from there on.
fn cut_piece(text: &str) -> (&str, &str)
    ensures whole { result.0.now ++ result.1.now ≡ text.now }
    ensures piece { list_all goes_on result.0.now ≡ true }
    ensures ends { begins goes_on result.1.now ≡ false }
{
    text.split_at(piece_run(text.as_bytes()))
}

// Whether the byte may stand in a clause or beside it.
fn goes_on(b: u8) -> bool
    ensures { result ≡ goes_on b }
{
    b != b',' && b != b';' && b != b')'
}

/// Whether the text goes on with a byte that ends no clause.
pub(crate) fn is_open(text: &[u8]) -> bool
    ensures { result ≡ begins goes_on text.now }
{
    match text {
        [first, ..] => goes_on(*first),
        [] => false,
    }
}

// Keeps what the clause demands that this operator makes with the run in front of the operand, as it is written. What
// stands behind it is given.
fn take_behind<'a>(
    alloc: Global,
    operator: Op,
    operand: &'a str,
    demands: &mut LineDemands,
) -> Result<&'a str, RequireFault>
    ensures taken { IfOk result (λ rest. (x : List ℕ) → OperatorFrom x operator operand.now
        → TakesFront x rest.now demands.old demands.new) }
    ensures refused { IfErr result (λ e. (x : List ℕ) → OperatorFrom x operator operand.now
        → (e ≡ RequireFault.NoMemory) ⊎ RefusesBound x e) }
{
    if operator == Op::Exact {
        let (text, rest) = operand_in_front(operand);
        if is_demanded_text(text) {
            demands.put_text(text)?;
            return Ok(rest);
        }
    }
    let (clause, rest) = Clause::behind(alloc, operator, operand)?;
    demands.put_clause(alloc, &clause)?;
    Ok(rest)
}

impl ClauseMemory {
    /// Reads the clause in front of a text (PEP 508, "Grammar"), and keeps what it demands. What stands behind it is
    /// given. The refusals are `BadClause`, 33, with the clause's fault, and `NoMemory`, 40.
    #[inline(always)]
    pub(crate) fn take<'a>(
        &mut self,
        alloc: Global,
        text: &'a str,
        demands: &mut LineDemands,
    ) -> Result<&'a str, RequireFault>
        ensures taken { IfOk result (λ rest. TakesFront text.now rest.now demands.old demands.new) }
        ensures refused { IfErr result (λ e. (e ≡ RequireFault.NoMemory) ⊎ RefusesBound text.now e) }
    {
        let (operator, operand) = Op::in_front(text)?;
        if operator != Op::Exact {
            match plain_demand(text, operator, operand) {
                Plain::Set(demand, rest) => {
                    demands.admit_packed(&demand)?;
                    return Ok(rest);
                }
                Plain::Unpacked => {}
                Plain::Unknown => return self.take_remembered(
                    alloc, text, operator, operand, demands,
                ),
            }
        }
        take_behind(alloc, operator, operand, demands)
    }

    // The same of a clause that is looked up by its text, up to the byte that ends it. One that isn't remembered, ends
    // there and is short is remembered from then on.
    fn take_remembered<'a>(
        &mut self,
        alloc: Global,
        text: &'a str,
        operator: Op,
        operand: &'a str,
        demands: &mut LineDemands,
    ) -> Result<&'a str, RequireFault>
        requires { OperatorFrom text.now operator operand.now }
        ensures taken { IfOk result (λ rest. TakesFront text.now rest.now demands.old demands.new) }
        ensures refused { IfErr result (λ e. (e ≡ RequireFault.NoMemory) ⊎ RefusesBound text.now e) }
    {
        let (piece, end) = cut_piece(text);
        match self.known(piece) {
            Known::Packed(demand) => {
                demands.admit_packed(&demand)?;
                return Ok(end);
            }
            Known::Unpacked => return take_behind(alloc, operator, operand, demands),
            Known::Nothing => {}
        }
        let (clause, rest) = Clause::behind(alloc, operator, operand)?;
        let found = demands.put_clause(alloc, &clause)?;
        if !is_open(rest.as_bytes()) {
            self.remember(alloc, piece, &found)?;
        }
        Ok(rest)
    }
}
