// Version specifier clauses.

mod admits;
mod read;
mod text;

pub use crate::clause::read::{is_demanded_text, operand_in_front};
use crate::fault::ClauseFault;
use crate::op::Op;
use pep_version::Version;
use std::alloc::Global;
use std::marker::Model;

/// What stands behind the operator of a clause (PEP 440, "Version specifiers").
#[derive(Debug, Drop)]
pub enum Operand {
    /// A version.
    Version(Version),
    /// An epoch and a release with `.*` behind them ("Version matching", "Version exclusion"), as the final release
    /// that they are.
    Prefix(Version),
    /// The text of `===` in lower case ("Arbitrary equality").
    Text(String),
}

/// A version specifier clause (PEP 440, "Version specifiers"): an operator, and the version, the
/// prefix or the text that stands behind it.
#[derive(Debug, Drop)]
pub struct Clause {
    op: Op,
    operand: Operand,
}

impl Model for Clause {
    ghost use Rattle.specifiers.specs.Clause.{Clause};
    ghost use Rattle.specifiers.specs.ClauseView.{IsStored, clause_of};

    ghost Value = { Clause };

    ghost view = { λ a. clause_of a.op a.operand };

    ghost invariant = { λ a. IsStored a.op a.operand };
}

impl Clause {
    ghost use Rattle.std.specs.Prelude.{◌≡◌, IfErr, IfOk};
    ghost use Rattle.specifiers.specs.ClauseView.{IsStored, clause_of, operand_parts};
    ghost use Rattle.specifiers.specs.Operator.{operand, operator};
    ghost use Rattle.specifiers.specs.Valid.{IsValidClause};

    /// The clause of this operator and operand.
    pub(crate) fn made(op: Op, operand: Operand) -> Clause
        requires { IsStored op operand }
        ensures clause { result ≡ clause_of op operand }
        ensures valid { IsValidClause result }
    {
        Clause { op, operand }
    }

    /// The operator (PEP 440, "Version specifiers").
    pub fn op(&self) -> Op
        ensures operator { result ≡ operator self.now }
        ensures valid { IsValidClause self.now }
    {
        self.op
    }

    /// What stands behind the operator (PEP 440, "Version specifiers"): a version, a release with `.*`, or the text of
    /// `===`.
    pub fn operand(&self) -> &Operand
        ensures clause { clause_of (operator self.now) result.now ≡ self.now }
        ensures parts { operand_parts result.now ≡ operand self.now }
        ensures stored { IsStored (operator self.now) result.now }
    {
        &self.operand
    }

    /// An equal clause in storage of its own. The only fault is `NoMemory`.
    pub fn copied(&self, alloc: Global) -> Result<Clause, ClauseFault>
        ensures same { IfOk result (λ c. c ≡ self.now) }
        ensures faults { IfErr result (λ e. e ≡ ClauseFault.NoMemory) }
    {
        let operand = match &self.operand {
            Operand::Version(version) => Operand::Version(version.copied(alloc)?),
            Operand::Prefix(version) => Operand::Prefix(version.copied(alloc)?),
            Operand::Text(text) => Operand::Text(String::from_str(alloc, text.as_str())?),
        };
        Ok(Clause {
            op: self.op,
            operand,
        })
    }
}
