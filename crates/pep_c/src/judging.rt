//! Markers in an environment, over bytes.

ghost use Rattle.std.specs.Prelude.{◌≡◌, ◌⊎◌, IfErr, IfOk, Some, pos};
ghost use Rattle.pep_marker.specs.Judged.{RefusesText, TextSays};
ghost use Rattle.faults.specs.NoMemory.{no_memory};
ghost use Rattle.pep_c.specs.Judging.{JudgesMarker, RefusesJudging, RefusesMarker, marker_fault};
ghost use Rattle.pep_c.specs.Room.{GivesNothing, TellsRefusal};

use crate::first_line::first_line;
use crate::reply::{ANSWERED, REFUSED, Reply, give_answer};
use crate::versions::truth_number;
use faults::{Fault, LineFault};
use inputs::environment_of;
use pep_marker::{Environment, Marker, MarkerFault};
use pep_require::RequireFault;
use std::alloc::Global;

// Why there is no truth, as a fault of the first line. Lack of memory has no place.
fn marker_fault(fault: MarkerFault) -> Fault
    ensures { result ≡ marker_fault fault }
{
    match fault {
        MarkerFault::NoMemory => Fault::no_memory(),
        MarkerFault::Undefined => first_line(LineFault::Undefined),
        fault => first_line(LineFault::Requirement(RequireFault::BadMarker(fault))),
    }
}

// Whether the marker holds that a text is.
fn text_truth(alloc: Global, environment: &Environment, text: &str) -> Result<bool, MarkerFault>
    ensures truth { IfOk result (λ b. TextSays environment.now text.now (Some b)) }
    ensures refused { IfErr result (RefusesText environment.now text.now) }
{
    let marker = Marker::read(alloc, text)?;
    marker.holds(alloc, environment)
}

// Whether the marker holds that the bytes are.
fn truth_of(alloc: Global, environment: &Environment, bytes: &[u8]) -> Result<bool, Fault>
    ensures truth { IfOk result (λ b. TextSays environment.now bytes.now (Some b)) }
    ensures refused { IfErr result
        (λ fault. (fault ≡ no_memory) ⊎ RefusesMarker environment.now bytes.now fault) }
{
    let Ok(text) = str::from_utf8(bytes) else {
        return Err(first_line(LineFault::NotUtf8));
    };
    match text_truth(alloc, environment, text) {
        Ok(truth) => Ok(truth),
        Err(fault) => Err(marker_fault(fault)),
    }
}

// Whether a marker holds in the environment of the file with these bytes, as a number.
fn judged(alloc: Global, environment: &[u8], marker: &[u8]) -> Result<i32, Fault>
    ensures judged { IfOk result (JudgesMarker environment.now marker.now) }
    ensures refused { IfErr result
        (λ fault. (fault ≡ no_memory) ⊎ RefusesJudging environment.now marker.now fault) }
{
    let environment = environment_of(alloc, environment)?;
    let truth = truth_of(alloc, &environment, marker)?;
    Ok(truth_number(truth))
}

/// Whether the marker in the bytes `marker` holds in the environment of the file with the bytes
/// `environment` (PEP 508, "Environment Markers"; see [`Marker::holds`](pep_marker::Marker::holds)): 1 or 0.
///
/// A refusal is that of the environment, as in [`tubrambutan_merge`](crate::tubrambutan_merge); or else that of the
/// marker as line 1 of input 1, 57 with 51, with 35 and 26 or 27, or with 28 where it is undefined there; or 60.
#[unsafe(no_mangle)]
pub extern "C" fn tubrambutan_judge(
    alloc: Global,
    environment: &[u8],
    marker: &[u8],
    room: &mut [u8],
) -> Reply
    ensures status { (result.status ≡ ANSWERED) ⊎ (result.status ≡ REFUSED) }
    ensures judged { result.status ≡ ANSWERED → JudgesMarker environment.now marker.now result.answer
        × GivesNothing result.size room.old room.new }
    ensures no_answer { result.status ≡ REFUSED → result.answer ≡ pos 0 }
    ensures refused { result.status ≡ REFUSED → TellsRefusal
        (RefusesJudging environment.now marker.now) result.size room.old room.new }
{
    give_answer(alloc, judged(alloc, environment, marker), room)
}
