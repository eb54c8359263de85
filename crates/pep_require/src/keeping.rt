// A sink that keeps the parts of a line.

ghost use Rattle.std.specs.Prelude.{◌≡◌, ◌≤◌, ◌++◌, ◌∷◌, [], IfOk, None, OnOk, length};
ghost use Rattle.pep_require.specs.Requirement.{bounds};
ghost use Rattle.pep_require.specs.Way.Sink.{more_clauses};
ghost use Rattle.pep_require.specs.View.{target_parts};

use crate::extras::{run_before, sort};
use crate::fault::RequireFault;
use crate::front::{behind, pieces};
use crate::requirement::{Requirement, Target};
use crate::sink::LineSink;
use crate::url_text::UrlText;
use pep_marker::{Marker, Name};
use specifiers::Clause;
use std::alloc::{AllocError, Global};

// Keeps the parts of this line.
#[derive(Drop)]
pub(crate) struct Keeper<'t> {
    pub(crate) alloc: Global,
    pub(crate) text: &'t str,
}

// The parts of a line but its name, the extras as they stand in it.
#[derive(Drop)]
pub(crate) struct Kept {
    pub(crate) extras: Vec<Name>,
    pub(crate) target: Target,
    pub(crate) marker: Option<Marker>,
}

impl Kept {
    ghost use Rattle.std.specs.Prelude.{List, ℕ};
    ghost use Rattle.pep_require.specs.Way.Kept.{Keeps};
    ghost use Rattle.pep_require.specs.Reads.{Reads};
    ghost use Rattle.pep_require.specs.Way.Sink.{IsWalked};
    ghost use Rattle.pep_require.specs.View.{requirement_parts};

    // Nothing of any line.
    pub(crate) fn new(alloc: Global) -> Kept
        ensures extras { result.extras.items ≡ [] }
        ensures target { target_parts result.target ≡ bounds [] }
        ensures marker { result.marker ≡ None }
    {
        Kept {
            extras: Vec::new(alloc),
            target: Target::Bounds(Vec::new(alloc)),
            marker: None,
        }
    }

    // The requirement that the line is read as of which this is kept.
    #[inline(always)]
    pub(crate) fn requirement(self, name: Name) -> Requirement
        ensures { (line : List ℕ) → IsWalked line name (Keeps self)
            → Reads line (requirement_parts result) }
    {
        let mut extras = self.extras;
        let mut target = self.target;
        sort(&mut extras);
        shrink(&mut target);
        Requirement {
            name,
            extras,
            target,
            marker: self.marker,
        }
    }
}

// Gives back the room that was kept for a clause behind a last `,`.
fn shrink(target: &mut Target)
    ensures { target_parts target.new ≡ target_parts target.old }
{
    if let Target::Bounds(clauses) = target {
        clauses.shrink_to_fit();
    }
}

// How many extras a line has at most: no `,` stands before the first one.
fn count_extras(line: &str) -> usize {
    let bytes = line.as_bytes();
    pieces(&bytes[..run_before(bytes, b']')])
}

// How many bytes stand in front of the first one that ends a list of clauses, or else in the whole text.
fn list_run(text: &[u8]) -> usize
    ensures { result ≤ length text.now }
{
    text.iter()
        .take_while(|b| !matches!(**b, b')' | b';'))
        .count()
}

// How many clauses a list has at most whose first one stands before this text: most lists have one, behind which no `,`
// stands.
fn count_clauses(rest: &str) -> usize {
    if behind(rest, ',').is_none() {
        return 1;
    }
    let bytes = rest.as_bytes();
    pieces(&bytes[..list_run(bytes)])
}

// A clause behind which this text stands goes to the end of the list, which has room for all clauses once it has the
// first.
#[inline(always)]
fn keep_clause(clauses: &mut Vec<Clause>, clause: Clause, rest: &str) -> Result<(), AllocError>
    ensures { OnOk result (clauses.new.items ≡ clauses.old.items ++ clause ∷ []) }
{
    if clauses.is_empty() {
        clauses.reserve_exact(count_clauses(rest))?;
    }
    clauses.push(clause)?;
    Ok(())
}

// A clause behind which this text stands goes to those of the target. A URL has none.
#[inline(always)]
fn target_clause(target: &mut Target, clause: Clause, rest: &str) -> Result<(), AllocError>
    ensures { OnOk result (target_parts target.new
        ≡ more_clauses (clause ∷ []) (target_parts target.old)) }
{
    match target {
        Target::Bounds(clauses) => keep_clause(clauses, clause, rest),
        Target::Direct(_) => Ok(()),
    }
}

// An extra goes to the end of the list, which has room for all extras of the line once it has the first.
fn keep_extra(names: &mut Vec<Name>, name: Name, line: &str) -> Result<(), AllocError>
    ensures { OnOk result (names.new.items ≡ names.old.items ++ name ∷ []) }
{
    if names.is_empty() {
        names.reserve_exact(count_extras(line))?;
    }
    names.push(name)?;
    Ok(())
}

impl<'t> LineSink for Keeper<'t> {
    ghost use Rattle.pep_require.specs.Way.Kept.{Keeps};

    type Line = Kept;

    ghost holds = { λ _ line p. Keeps line p };

    fn begin(&mut self, line: &mut Kept) {
        *line = Kept::new(self.alloc);
    }

    fn extra(&mut self, line: &mut Kept, name: Name) -> Result<(), AllocError> {
        keep_extra(&mut line.extras, name, self.text)
    }

    #[inline(always)]
    fn clause<'a>(&mut self, line: &mut Kept, text: &'a str) -> Result<&'a str, RequireFault> {
        let (clause, rest) = Clause::at_front(self.alloc, text)?;
        target_clause(&mut line.target, clause, rest)?;
        Ok(rest)
    }

    fn url(&mut self, line: &mut Kept, written: &str) -> Result<(), RequireFault> {
        line.target = Target::Direct(UrlText::read(self.alloc, written)?);
        Ok(())
    }

    fn marker(&mut self, line: &mut Kept, text: &str) -> Result<(), RequireFault> {
        line.marker = Some(Marker::read(self.alloc, text)?);
        Ok(())
    }
}
