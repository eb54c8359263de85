// How a requirement line is read, part by part from left to right.

ghost use Rattle.std.specs.Prelude.{◌≡◌, ◌⊎◌, ◌∷◌, [], IfErr, IfOk, MatchOption, None, Some};
ghost use Rattle.pep_marker.specs.Name.{name_of};
ghost use Rattle.pep_require.specs.Faults.{after_name, beginning_fault, name_run};
ghost use Rattle.pep_require.specs.LineParts.{RefusesEnding};

use crate::fault::RequireFault;
use crate::front::behind;
use crate::keeping::{Keeper, Kept};
use crate::requirement::Requirement;
use crate::walking::walk;
use pep_marker::{Name, WrittenName};
use std::alloc::Global;
use texts::{LINE_LIMIT, stripped};

impl Requirement {
    ghost use Rattle.std.specs.Prelude.{IfErr, IfOk};
    ghost use Rattle.pep_require.specs.LineParts.{RefusesLine, StartsLine};
    ghost use Rattle.pep_require.specs.Reads.{Reads};
    ghost use Rattle.pep_require.specs.View.{requirement_parts};

    /// Reads a requirement line (PEP 508, "Grammar"): a name, extras in `[` `]`, clauses or `@` and
    /// a URL, and `;` and a marker, with spaces and tabs between them.
    ///
    /// The refusal is that of the first part at fault, from left to right: `LineTooLong`, 38, over
    /// 65,536 bytes; `OptionLine`, 37, where a `-` begins the line; `BadName`, 31, where no name
    /// does; `BadExtras`, 32; for the target `BadClause`, 33, with the fault of the first clause
    /// that is none, `BadUrl`, 34, or `UrlOverflow`, 39, of the reader of URLs, and `Trailing`,
    /// 36, for a missing `)`; `BadMarker`, 35, with the marker's fault; `Trailing`, 36, where
    /// something else stands behind the target. Memory may run out, 40.
    pub fn read(alloc: Global, line: &str) -> Result<Requirement, RequireFault>
        ensures ok { IfOk result (λ r. Reads line.now (requirement_parts r)) }
        ensures refused { IfErr result (RefusesLine line.now) }
    {
        let mut kept = Kept::new(alloc);
        let name = walk(alloc, &mut Keeper { alloc, text: line }, &mut kept, line)?;
        Ok(kept.requirement(name.kept(alloc)?))
    }

    /// The name that a requirement line begins with (PEP 508, "Grammar"). The rest of the line isn't read, so it may be
    /// no requirement: this tells which package a line is about before one reads it, or whether one has to.
    ///
    /// The refusals are those of [`Requirement::read`] for the beginning of the line, in its order: `LineTooLong`, 38,
    /// `OptionLine`, 37, and `BadName`, 31. Memory may run out, 40.
    pub fn name_of_line(alloc: Global, line: &str) -> Result<Name, RequireFault>
        ensures ok { IfOk result (λ name. StartsLine line.now name (after_name line.now)) }
        ensures refused { IfErr result (λ e. (e ≡ RequireFault.NoMemory)
            ⊎ (beginning_fault line.now ≡ Some e)) }
    {
        let start = name_at(line)?;
        Ok(start.name.kept(alloc)?)
    }
}

// The name that a requirement line begins with, as it is written, and what stands behind it, without white space before
// it.
#[derive(Drop)]
pub(crate) struct Start<'a> {
    pub(crate) name: WrittenName<'a>,
    pub(crate) rest: &'a str,
}

// The name at the front of a line, with the white space before and behind it.
#[inline(always)]
pub(crate) fn name_at<'a>(line: &'a str) -> Result<Start<'a>, RequireFault>
    ensures begun { IfOk result (λ _. beginning_fault line.now ≡ None) }
    ensures name { IfOk result (λ start. name_of (name_run line.now) ≡ Some start.name) }
    ensures rest { IfOk result (λ start. start.rest.now ≡ after_name line.now) }
    ensures refused { IfErr result (λ e. beginning_fault line.now ≡ Some e) }
{
    if line.len() > LINE_LIMIT {
        return Err(RequireFault::LineTooLong);
    }
    let text = stripped(line);
    if behind(text, '-').is_some() {
        return Err(RequireFault::OptionLine);
    }
    match WrittenName::in_front(text) {
        Some((name, rest)) => Ok(Start {
            name,
            rest: stripped(rest),
        }),
        None => Err(RequireFault::BadName),
    }
}

/// The text of the marker that this is, which is left of a line that is read up to its marker;
/// nothing where nothing is left. The only fault is `Trailing`, 36, where something else stands there
/// than `;` and what is to be a marker (PEP 508, "Grammar").
pub(crate) fn marker_text(left: &str) -> Result<Option<&str>, RequireFault>
    ensures found { IfOk result (λ found. MatchOption found (left.now ≡ [])
        (λ text. left.now ≡ 59 ∷ text.now)) }
    ensures refused { IfErr result (λ e. (e ≡ RequireFault.Trailing) × RefusesEnding left.now e) }
{
    if left.is_empty() {
        return Ok(None);
    }
    match behind(left, ';') {
        Some(text) => Ok(Some(text)),
        None => Err(RequireFault::Trailing),
    }
}
