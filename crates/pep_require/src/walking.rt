// The walk of a requirement line, from left to right, into a sink.

ghost use Rattle.std.specs.Prelude.{◌≡◌, ◌⊎◌, IfErr, IfOk, None, OnOk, Option};
ghost use Rattle.pep_marker.specs.Marker.{MarkerParts};
ghost use Rattle.pep_require.specs.LineParts.{RefusesEnding, RefusesLine, with_marker};
ghost use Rattle.pep_require.specs.Reads.{ReadsMarker};
ghost use Rattle.pep_require.specs.Requirement.{RequirementParts};
ghost use Rattle.pep_require.specs.Way.Sink.{IsWalked};

use crate::extras::walk_extras;
use crate::fault::RequireFault;
use crate::read::{marker_text, name_at};
use crate::sink::LineSink;
use crate::target::walk_target;
use pep_marker::WrittenName;
use std::alloc::Global;
use texts::stripped;

// The marker of a line, whose end this text is, without white space before it.
#[inline(always)]
fn walk_ending<S: LineSink>(
    sink: &mut S,
    line: &mut S::Line,
    left: &str,
) -> Result<(), RequireFault>
    ensures same { sink.new ≡ sink.old }
    ensures ok { OnOk result ((m : Option MarkerParts) × ReadsMarker left.now m
        × ((p : RequirementParts) → p.marker ≡ None → S.holds sink.old line.old p
        → S.holds sink.old line.new (with_marker m p))) }
    ensures refused { IfErr result (λ e. (e ≡ RequireFault.NoMemory) ⊎ RefusesEnding left.now e) }
{
    match marker_text(left)? {
        Some(text) => sink.marker(line, text),
        None => Ok(()),
    }
}

/// Walks a requirement line once (PEP 508, "Grammar"): tells the sink its parts, in the order of the line, and gives
/// the name as it is written. What the sink then keeps holds of the parts that the line is read as, with the extras as
/// they stand in it.
///
/// The refusals are those of [`Requirement::read`](crate::Requirement::read), for the first part at fault, from left to
/// right. What a sink has kept of a line that is refused says nothing. Public for the crates above alone.
#[inline(always)]
pub fn walk<'a, S: LineSink>(
    alloc: Global,
    sink: &mut S,
    line: &mut S::Line,
    text: &'a str,
) -> Result<WrittenName<'a>, RequireFault>
    ensures same { sink.new ≡ sink.old }
    ensures ok { IfOk result (λ name. IsWalked text.now name (S.holds sink.old line.new)) }
    ensures refused { IfErr result (RefusesLine text.now) }
{
    sink.begin(line);
    let start = name_at(text)?;
    let behind_extras = walk_extras(alloc, sink, line, start.rest)?;
    let behind_target = walk_target(sink, line, stripped(behind_extras))?;
    walk_ending(sink, line, stripped(behind_target))?;
    Ok(start.name)
}
