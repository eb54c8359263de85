// Laws of clauses, as contracts.

ghost use Rattle.std.specs.Prelude.{◌≡◌, ◌≢◌, ℕ, Err, List, Result};
ghost use Rattle.specifiers.specs.Clause.{
  Clause,
  ClauseOf,
  IsClause,
  IsOperatorAndRun,
  clause_text,
};
ghost use Rattle.specifiers.specs.Valid.{IsValidClause};

use crate::fault::ClauseFault;
use crate::op::Op;
use pep_version::laws;

/// A text is read as at most one clause.
pub fn one_clause()
    ensures { (text : List ℕ) (c d : Clause) → IsClause text c → IsClause text d → c ≡ d }
{}

/// An operator and a text behind it have at most one answer, a clause or a refusal, where memory
/// does not lack.
pub fn one_answer()
    ensures { (operator : Op) (text : List ℕ) (answer other : Result Clause ClauseFault)
        → ClauseOf operator text answer → ClauseOf operator text other
        → answer ≢ Err ClauseFault.NoMemory → other ≢ Err ClauseFault.NoMemory → answer ≡ other }
{}

/// What some text is read as, is read back from its own text: with `one_clause`, from no other
/// clause's.
pub fn clause_text_is_read()
    ensures { (text : List ℕ) (c : Clause) → IsClause text c → IsClause (clause_text c) c }
{
    laws::one_version();
    laws::text_is_read();
    laws::text_bytes();
}

/// The text of what some text is read as is an operator, and behind it characters that a clause may
/// have there.
pub fn clause_text_run()
    ensures { (text : List ℕ) (c : Clause) → IsClause text c → IsOperatorAndRun (clause_text c) }
{
    laws::text_bytes();
}

/// A valid clause, as `Clause::read` and `Clause::of` give, is read back from its own text.
pub fn valid_clause_is_read()
    ensures { (c : Clause) → IsValidClause c → IsClause (clause_text c) c }
{
    laws::one_version();
    laws::text_is_read();
    laws::text_bytes();
}
