//! The fault of a text that stands alone.

ghost use Rattle.std.specs.Prelude.{◌≡◌};
ghost use Rattle.pep_c.specs.FirstLine.{first_line, refused_line};

use faults::{Cause, Fault, LineFault, Place};
use pep_require::RequireFault;

/// It is told as that of the first line of the first input.
pub(crate) fn first_line(fault: LineFault) -> Fault
    ensures { result ≡ first_line fault }
{
    Fault {
        place: Place::Input(1),
        cause: Cause::Line(1, fault),
    }
}

/// Why the text is refused as a requirement or a part of one. Lack of memory has no place.
pub(crate) fn refused_line(fault: RequireFault) -> Fault
    ensures { result ≡ refused_line fault }
{
    match fault {
        RequireFault::NoMemory => Fault::no_memory(),
        fault => first_line(LineFault::Requirement(fault)),
    }
}
