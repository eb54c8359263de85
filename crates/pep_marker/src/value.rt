//! What the text of a variable is, found out once for all comparisons.

ghost use Rattle.std.specs.Prelude.{◌≡◌, IfOk, MatchOption, Ok};
ghost use Rattle.pep_version.specs.Spelling.{Spells};
ghost use Rattle.pep_version.specs.Version as version;
ghost use Rattle.specifiers.specs.Clause as clause;
ghost use Rattle.specifiers.specs.Clause.{ClauseOf};
ghost use Rattle.pep_marker.specs.Name.{normalized};

use crate::name::normal_text;
use pep_version::{Version, VersionFault};
use specifiers::{Clause, ClauseFault, Op};
use std::alloc::{AllocError, Global};
use std::marker::Model;

/// The text of a variable, with its normal form, the version that it spells, and the clause of `==`
/// and the text: what the text is behind an operator.
#[derive(Debug, Drop)]
pub(crate) struct Value {
    text: String,
    normal: String,
    version: Option<Version>,
    matching: Option<Clause>,
}

impl Model for Value {
    ghost use Rattle.std.specs.Prelude.{◌≡◌, List, ℕ, string_bytes};
    ghost use Rattle.pep_marker.specs.Name.{normalized};
    ghost use Rattle.pep_marker.specs.Way.Value.{IsMatchingOf, IsVersionOf};

    ghost Value = { List ℕ };

    ghost view = { λ v. string_bytes v.text };

    ghost invariant = { λ v. (string_bytes v.normal ≡ normalized (string_bytes v.text))
        × IsVersionOf (string_bytes v.text) v.version
        × IsMatchingOf (string_bytes v.text) v.matching };
}

impl Value {
    /// The value with this text.
    pub(crate) fn of(alloc: Global, text: &str) -> Result<Value, AllocError>
        ensures { IfOk result (λ v. v ≡ text.now) }
    {
        let normal = normal_text(alloc, text)?;
        let version = version_of(alloc, text)?;
        let matching = clause_of(alloc, Op::Equal, text)?;
        Ok(Value {
            text: String::from_str(alloc, text)?,
            normal,
            version,
            matching,
        })
    }

    pub(crate) fn text(&self) -> &str
        ensures { result.now ≡ self.now }
    {
        self.text.as_str()
    }

    /// The normal form of the text, by the rule of names.
    pub(crate) fn normal(&self) -> &str
        ensures { result.now ≡ normalized self.now }
    {
        self.normal.as_str()
    }

    /// The version that the text spells, if it spells one.
    pub(crate) fn version(&self) -> Option<&Version>
        ensures { MatchOption result ((v : version.Version) → ¬ Spells self.now v)
            (λ found. Spells self.now found.now) }
    {
        self.version.as_ref()
    }

    /// The clause of `==` and the text, if they make one.
    pub(crate) fn matching(&self) -> Option<&Clause>
        ensures { MatchOption result ((c : clause.Clause) → ¬ ClauseOf Op.Equal self.now (Ok c))
            (λ found. ClauseOf Op.Equal self.now (Ok found.now)) }
    {
        self.matching.as_ref()
    }
}

/// The version that the text spells, if it spells one.
pub(crate) fn version_of(alloc: Global, text: &str) -> Result<Option<Version>, AllocError>
    ensures { IfOk result (λ found. MatchOption found
        ((v : version.Version) → ¬ Spells text.now v) (λ v. Spells text.now v)) }
{
    match Version::read(alloc, text) {
        Ok(version) => Ok(Some(version)),
        Err(fault) => match fault {
            VersionFault::NoMemory => Err(AllocError),
            _ => Ok(None),
        },
    }
}

/// The clause of the operator and the text, if they make one.
pub(crate) fn clause_of(alloc: Global, op: Op, text: &str) -> Result<Option<Clause>, AllocError>
    ensures { IfOk result (λ found. MatchOption found
        ((c : clause.Clause) → ¬ ClauseOf op text.now (Ok c)) (λ c. ClauseOf op text.now (Ok c))) }
{
    match Clause::of(alloc, op, text) {
        Ok(clause) => Ok(Some(clause)),
        Err(fault) => match fault {
            ClauseFault::NoMemory => Err(AllocError),
            _ => Ok(None),
        },
    }
}
