// How a clause is read.

ghost use Rattle.std.specs.Prelude.{◌≡◌, ◌&&◌, Err, IfNone, IfSome, IsTrue, not, Ok};
ghost use Rattle.std.specs.Char.{is_ascii_uppercase};
ghost use Rattle.std.specs.List.{list_all};
ghost use Rattle.pep_version.specs.Version.{IsVersion};
ghost use Rattle.texts.specs.Lists.{is_empty};
ghost use Rattle.specifiers.specs.Clause.{
  IsClauseOf,
  TargetAnswers,
  demanded,
  ends_in_space,
  is_demanded_text,
  prefix_answer,
  version_answer,
  version_clause,
};
ghost use Rattle.specifiers.specs.Front.{after_run, clause_run};
ghost use Rattle.specifiers.specs.Operator.{of_version};
ghost use Rattle.texts.specs.Bytes.{is_clause_byte};

use crate::clause::{Clause, Operand};
use crate::fault::ClauseFault;
use crate::op::Op;
use pep_version::Version;
use std::alloc::Global;
use texts::{
    clause_run, has_clause_bytes, is_clause_byte, stripped, trimmed, without_trailing_space,
};

// Whether the text may stand behind `===`.
fn is_clause_text(text: &[u8]) -> bool
    ensures { result ≡ (not (is_empty text.now) && list_all is_clause_byte text.now) }
{
    !text.is_empty() && has_clause_bytes(text)
}

// Whether white space ends the text.
fn ends_in_space(text: &str) -> bool
    ensures { result ≡ ends_in_space text.now }
{
    without_trailing_space(text).len() != text.len()
}

// Whether the bytes may stand in a clause, and none is a letter in upper case.
fn are_lower(bytes: &[u8]) -> bool
    ensures { result ≡ list_all (λ b. is_clause_byte b && not (is_ascii_uppercase b)) bytes.now }
{
    bytes
        .iter()
        .all(|b| is_clause_byte(*b) && !b.is_ascii_uppercase())
}

/// Whether `===` and this text are a clause that demands the text as it is written (PEP 440, "Arbitrary
/// equality"): one or more letters in lower case, digits and bytes of `-_.*+!`.
pub fn is_demanded_text(text: &str) -> bool
    ensures text { result ≡ is_demanded_text text.now }
    ensures clause { IsTrue result → IsClauseOf Op.Exact text.now (demanded text.now) }
{
    !text.is_empty() && are_lower(text.as_bytes())
}

/// The longest run in front of a text of the bytes that may stand behind a clause's operator, which are letters,
/// digits and bytes of `-_.*+!` (PEP 508, "Grammar"), and what stands behind that, without white space before it.
#[inline(always)]
pub fn operand_in_front(text: &str) -> (&str, &str)
    ensures run { result.0.now ≡ clause_run text.now }
    ensures left { result.1.now ≡ after_run text.now }
{
    let (run, rest) = text.split_at(clause_run(text.as_bytes()));
    (run, stripped(rest))
}

// `===` and the text behind it.
fn demanded_clause(alloc: Global, text: &str) -> Result<Clause, ClauseFault>
    ensures { TargetAnswers Op.Exact text.now result }
{
    if !is_clause_text(text.as_bytes()) {
        return Err(ClauseFault::BadVersion);
    }
    let demanded = text.to_ascii_lowercase(alloc)?;
    Ok(Clause::made(Op::Exact, Operand::Text(demanded)))
}

// The clause of an operator and the version that stands before `.*`.
fn prefix_clause(operator: Op, version: Version) -> Result<Clause, ClauseFault>
    requires { IsVersion version }
    ensures { result ≡ prefix_answer operator (Ok version) }
{
    if operator.takes_prefix() && version.is_final() {
        return Ok(Clause::made(operator, Operand::Prefix(version)));
    }
    Err(ClauseFault::StarNotAllowed)
}

/// Why the operator and the version make no clause, if they make none.
pub(crate) fn version_fault(operator: Op, version: &Version) -> Option<ClauseFault>
    ensures made { IfNone result (version_clause operator version.now ≡ Ok (of_version operator version.now)) }
    ensures refused { IfSome result (λ e. version_clause operator version.now ≡ Err e) }
{
    if operator == Op::Exact {
        return Some(ClauseFault::BadVersion);
    }
    if !operator.takes_label_of(version) {
        return Some(ClauseFault::LocalNotAllowed);
    }
    if version.release().len() < operator.least_numbers() {
        return Some(ClauseFault::OneNumber);
    }
    None
}

// The clause of an operator and a version.
fn version_clause(operator: Op, version: Version) -> Result<Clause, ClauseFault>
    requires { IsVersion version }
    ensures { result ≡ version_answer operator (Ok version) }
{
    match version_fault(operator, &version) {
        Some(fault) => Err(fault),
        None => Ok(Clause::made(operator, Operand::Version(version))),
    }
}

// The clause of an operator and a text without white space at its ends.
#[inline(always)]
fn operand_clause(alloc: Global, operator: Op, text: &str) -> Result<Clause, ClauseFault>
    ensures { TargetAnswers operator text.now result }
{
    if operator == Op::Exact {
        return demanded_clause(alloc, text);
    }
    match text.strip_suffix(".*") {
        Some(front) if ends_in_space(front) => Err(ClauseFault::BadVersion),
        Some(front) => prefix_clause(operator, Version::read(alloc, front)?),
        None => version_clause(operator, Version::read(alloc, text)?),
    }
}

impl Clause {
    ghost use Rattle.std.specs.Prelude.{◌≡◌, ◌⊎◌, IfErr, IfOk};
    ghost use Rattle.specifiers.specs.Clause.{ClauseOf, ReadsClause};
    ghost use Rattle.specifiers.specs.Front.{ClauseFrom, RefusesFront, RefusesRun, RunFrom};
    ghost use Rattle.specifiers.specs.Valid.{IsValidClause};

    /// The clause of an operator and the text behind it (PEP 440, "Version specifiers"). White
    /// space at both ends of the text does not matter.
    ///
    /// Behind `==` and `!=` stands a version, which may have a local version label, or a release
    /// with its epoch and `.*` ("Version matching", "Version exclusion"); behind the others a
    /// version without a label ("Inclusive ordered comparison", "Exclusive ordered comparison"),
    /// with at least as many release numbers as the operator wants ([`Op::least_numbers`], "Compatible
    /// release"); behind `===` one or more letters, digits and bytes of `-_.*+!`, kept in lower
    /// case ("Arbitrary equality").
    ///
    /// Each refusal is the first check that fails: 12 `BadVersion` where no version stands before
    /// `.*` or in the text, or the text of `===` is empty or has another byte; 16 `NumberTooLarge`
    /// where it would be a version but for a number above 18446744073709551615; 13 `StarNotAllowed`
    /// where `.*` stands behind more than a release, or with another operator than `==` and `!=`;
    /// 14 `LocalNotAllowed` for a label with another operator; 15 `OneNumber` for fewer release
    /// numbers than the operator wants; 17 `NoMemory` where a growth is refused.
    #[inline(always)]
    pub fn of(alloc: Global, operator: Op, text: &str) -> Result<Clause, ClauseFault>
        ensures clause { ClauseOf operator text.now result }
        ensures valid { IfOk result (λ c. IsValidClause c) }
    {
        operand_clause(alloc, operator, trimmed(text))
    }

    /// The clause that a text writes: the longest operator that the text begins with, and what
    /// stands behind it (PEP 440, "Version specifiers"). White space at both ends of the text, and
    /// behind the operator, does not matter.
    ///
    /// A text that begins with no operator is refused with 11 `NoOperator`; else each refusal is
    /// that of `Clause::of`.
    pub fn read(alloc: Global, text: &str) -> Result<Clause, ClauseFault>
        ensures clause { ReadsClause text.now result }
        ensures valid { IfOk result (λ c. IsValidClause c) }
    {
        let (operator, operand) = Op::in_front(trimmed(text))?;
        Clause::of(alloc, operator, operand)
    }

    /// The clause of an operator and of the run in front of a text ([`operand_in_front`]), and what stands behind the
    /// run, without white space before that (PEP 508, "Grammar").
    ///
    /// Each refusal is that of `Clause::of` for the run: 12 `BadVersion`, 16 `NumberTooLarge`, 13 `StarNotAllowed`, 14
    /// `LocalNotAllowed` or 15 `OneNumber` where it makes no clause; 17 `NoMemory` where a growth is refused.
    #[inline(always)]
    pub fn behind<'a>(
        alloc: Global,
        operator: Op,
        operand: &'a str,
    ) -> Result<(Clause, &'a str), ClauseFault>
        ensures clause { IfOk result (λ found. RunFrom operator operand.now found.0 found.1.now) }
        ensures valid { IfOk result (λ found. IsValidClause found.0) }
        ensures refused { IfErr result (λ e. (e ≡ ClauseFault.NoMemory) ⊎ RefusesRun operator operand.now e) }
    {
        let (run, rest) = operand_in_front(operand);
        let clause = Clause::of(alloc, operator, run)?;
        Ok((clause, rest))
    }

    /// The clause in front of a text, as the first of a list of clauses stands there, and what stands behind it,
    /// without white space before that (PEP 508, "Grammar"). Spaces and tabs may stand before and behind the operator,
    /// and then the clause takes the longest run of letters, digits and bytes of `-_.*+!`.
    ///
    /// A text that begins with no operator is refused with 11 `NoOperator`; else each refusal is that of `Clause::of`
    /// for the run.
    pub fn at_front<'a>(alloc: Global, text: &'a str) -> Result<(Clause, &'a str), ClauseFault>
        ensures clause { IfOk result (λ found. ClauseFrom text.now found.0 found.1.now) }
        ensures valid { IfOk result (λ found. IsValidClause found.0) }
        ensures refused { IfErr result (λ e. (e ≡ ClauseFault.NoMemory) ⊎ RefusesFront text.now e) }
    {
        let (operator, operand) = Op::in_front(text)?;
        Clause::behind(alloc, operator, operand)
    }
}
