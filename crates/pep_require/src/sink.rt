//! What takes the parts of a requirement line.

ghost use Rattle.std.specs.Prelude.{◌≡◌, ◌⊎◌, ◌∷◌, [], ℕ, List, IfErr, IfOk, OnOk, Some};
ghost use Rattle.specifiers.specs.Clause.{Clause};
ghost use Rattle.specifiers.specs.Front.{ClauseFrom};
ghost use Rattle.pep_marker.specs.Marker.{IsMarker, MarkerParts};
ghost use Rattle.pep_require.specs.LineParts.{
  RefusesBound,
  RefusesMarker,
  RefusesWritten,
  with_marker,
};
ghost use Rattle.pep_require.specs.Reads.{ReadsUrl};
ghost use Rattle.pep_require.specs.Requirement.{UrlParts, direct};
ghost use Rattle.pep_require.specs.Way.Sink.{
  Adds,
  AddsClauses,
  AddsTarget,
  with_extra,
  with_name,
};

use crate::fault::RequireFault;
use pep_marker::Name;
use std::alloc::AllocError;

/// Takes the parts of a requirement line, in the order of the line, as [`walk`](crate::walk) tells them: the line
/// begins, each extra, then each clause or else the URL, and the marker.
///
/// What is kept of the line goes into a value of the caller, which may serve for the next line too. The sink itself
/// stays as it is. So a line that is refused has changed that value alone. The name is the walk's answer, and no sink
/// is told it.
///
/// A sink reads the clause, the URL and the marker by itself, and refuses each text that is none. Public for the crates
/// above alone.
pub trait LineSink {
    ghost use Rattle.pep_require.specs.Requirement.{RequirementParts};

    /// What is kept of one line.
    type Line;

    /// What is kept says this of the parts that were told so far, under any name.
    ghost holds: { Self → Self.Line → RequirementParts → Type 0 };

    /// A line begins: nothing is kept of it yet, whatever was kept before.
    fn begin(&mut self, line: &mut Self::Line)
        ensures same { self.new ≡ self.old }
        ensures begun { (name : List ℕ) → holds self.old line.new (with_name name) };

    /// One more extra (PEP 508, "Extras"), in the order of the line, in which one may stand twice.
    fn extra(&mut self, line: &mut Self::Line, name: Name) -> Result<(), AllocError>
        ensures same { self.new ≡ self.old }
        ensures ok { OnOk result (Adds (holds self.old line.old) (holds self.old line.new)
            (with_extra name)) };

    /// One more clause, the one in front of the text (PEP 508, "Grammar"), with the longest run of characters that it
    /// may hold. What stands behind it is given back, without white space before that. The refusals are `BadClause`,
    /// 33, with the clause's fault, and out of memory, 40.
    fn clause<'a>(&mut self, line: &mut Self::Line, text: &'a str) -> Result<&'a str, RequireFault>
        ensures same { self.new ≡ self.old }
        ensures ok { IfOk result (λ rest. (c : Clause) × ClauseFrom text.now c rest.now
            × AddsClauses (holds self.old line.old) (holds self.old line.new) (c ∷ [])) }
        ensures refused { IfErr result (λ e. (e ≡ RequireFault.NoMemory) ⊎ RefusesBound text.now e) };

    /// The URL that is written so (PEP 508, "Grammar"), in place of clauses. The refusals are `BadUrl`, 34,
    /// `UrlOverflow`, 39, and lack of memory, 40: see [`UrlText::read`](crate::UrlText::read).
    fn url(&mut self, line: &mut Self::Line, written: &str) -> Result<(), RequireFault>
        ensures same { self.new ≡ self.old }
        ensures ok { OnOk result ((u : UrlParts) × ReadsUrl written.now u
            × AddsTarget (holds self.old line.old) (holds self.old line.new) (direct u)) }
        ensures refused { IfErr result (λ e. (e ≡ RequireFault.NoMemory)
            ⊎ RefusesWritten written.now e) };

    /// The marker that is written so (PEP 508, "Environment Markers"), behind the `;`. The refusals are `BadMarker`,
    /// 35, with the marker's fault, and out of memory, 40.
    fn marker(&mut self, line: &mut Self::Line, text: &str) -> Result<(), RequireFault>
        ensures same { self.new ≡ self.old }
        ensures ok { OnOk result ((m : MarkerParts) × IsMarker text.now m
            × Adds (holds self.old line.old) (holds self.old line.new) (with_marker (Some m))) }
        ensures refused { IfErr result (λ e. (e ≡ RequireFault.NoMemory)
            ⊎ RefusesMarker text.now e) };
}
