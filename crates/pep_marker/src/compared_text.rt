//! The texts of a comparison.

ghost use Rattle.std.specs.Prelude.{◌≡◌, ◌≢◌, ℕ, IfOk, IsTrue, List, MatchOption, Ok};
ghost use Rattle.std.specs.Option.{option_copied, option_map};
ghost use Rattle.pep_version.specs.Spelling.{Spells};
ghost use Rattle.pep_version.specs.Version as version;
ghost use Rattle.specifiers.specs.Admits.{admits};
ghost use Rattle.specifiers.specs.Clause.{ClauseOf};
ghost use Rattle.pep_marker.specs.Holds.{operand_value};
ghost use Rattle.pep_marker.specs.Name.{normalized};
ghost use Rattle.pep_marker.specs.NormalView.{normal_bytes};
ghost use Rattle.pep_marker.specs.Way.ComparedView.{VersionsSay, compared_bytes};
ghost use Rattle.pep_marker.specs.Way.Token.{operand_of};
ghost use Rattle.pep_marker.specs.Way.Value.{IsVersionOf};

use crate::environment::Environment;
use crate::normal::Normal;
use crate::token::Side;
use crate::value::{Value, version_of};
use pep_version::Version;
use specifiers::{Clause, Op};
use std::alloc::{AllocError, Global};

/// A text of the marker, or the value of a variable, of which more is known.
#[derive(Clone, Copy)]
pub(crate) enum ComparedText<'a> {
    Written(&'a str),
    Known(&'a Value),
}

impl<'a> ComparedText<'a> {
    /// The text of an operand in an environment.
    pub(crate) fn of(environment: &'a Environment, side: Side<'a>) -> ComparedText<'a>
        ensures { compared_bytes result ≡ operand_value environment.now (operand_of side.entry) }
    {
        match side {
            Side::Variable(variable) => ComparedText::Known(environment.known(variable)),
            Side::Text(text) => ComparedText::Written(text),
        }
    }

    pub(crate) fn text(self) -> &'a str
        ensures { result.now ≡ compared_bytes self.entry }
    {
        match self {
            ComparedText::Written(text) => text,
            ComparedText::Known(value) => value.text(),
        }
    }

    /// The normal form of the text, by the rule of names.
    pub(crate) fn normal(self, alloc: Global) -> Result<Normal<'a>, AllocError>
        ensures { IfOk result (λ n. normal_bytes n ≡ normalized (compared_bytes self.entry)) }
    {
        match self {
            ComparedText::Written(text) => Normal::of(alloc, text),
            ComparedText::Known(value) => Ok(Normal::Same(value.normal())),
        }
    }

    /// Whether the text is known to be no version.
    pub(crate) fn is_no_version(self) -> bool
        ensures { IsTrue result → (v : version.Version) → ¬ Spells (compared_bytes self.entry) v }
    {
        match self {
            ComparedText::Written(_) => false,
            ComparedText::Known(value) => value.version().is_none(),
        }
    }

    /// What the clause says of the text; nothing where it is no version.
    pub(crate) fn admitted_by(
        self,
        alloc: Global,
        clause: &Clause,
    ) -> Result<Option<bool>, AllocError>
        ensures { IfOk result (λ t. MatchOption t
            ((v : version.Version) → ¬ Spells (compared_bytes self.entry) v)
            (λ b. (v : version.Version) × Spells (compared_bytes self.entry) v
            × (b ≡ admits clause.now v))) }
    {
        match self {
            ComparedText::Written(text) => {
                let version = version_of(alloc, text)?;
                admitted(alloc, clause, version.as_ref())
            }
            ComparedText::Known(value) => admitted(alloc, clause, value.version()),
        }
    }

    /// What the operator says of the version that the text spells, and of what stands in this clause
    /// of `==`; nothing where it spells none, and where they make no clause.
    pub(crate) fn admitted_as(
        self,
        alloc: Global,
        op: Op,
        clause: &Clause,
    ) -> Result<Option<bool>, AllocError>
        ensures { IfOk result (λ t. (text : List ℕ) → ClauseOf Op.Equal text (Ok clause.now) →
            op ≢ Op.Exact → VersionsSay op (compared_bytes self.entry) text t) }
    {
        match self {
            ComparedText::Written(text) => {
                let version = version_of(alloc, text)?;
                Ok(said(clause, op, version.as_ref()))
            }
            ComparedText::Known(value) => Ok(said(clause, op, value.version())),
        }
    }
}

// What the clause of the operator and of what stands in the clause of `==` says of the version, if
// there is one.
fn said(clause: &Clause, op: Op, version: Option<&Version>) -> Option<bool>
    ensures { (left right : List ℕ) → IsVersionOf left (option_copied version.entry) →
        ClauseOf Op.Equal right (Ok clause.now) → op ≢ Op.Exact →
        VersionsSay op left right result }
{
    match version {
        Some(version) => clause.admits_by(op, version),
        None => None,
    }
}

// Whether the clause admits the version, if there is one.
fn admitted(
    alloc: Global,
    clause: &Clause,
    version: Option<&Version>,
) -> Result<Option<bool>, AllocError>
    ensures { IfOk result (λ t. t ≡ option_map (λ v. admits clause.now v.now) version.entry) }
{
    let Some(version) = version else {
        return Ok(None);
    };
    match clause.admits(alloc, version) {
        Ok(truth) => Ok(Some(truth)),
        Err(_) => Err(AllocError),
    }
}
