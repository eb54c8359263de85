//! The merge and the check of inputs, in the environment of a file's bytes.

ghost use Rattle.std.specs.Prelude.{◌≡◌, ◌≢◌, ◌⊎◌, ◌≤◌, IfErr, IfOk, pos, string_bytes};
ghost use Rattle.faults.specs.NoMemory.{no_memory};
ghost use Rattle.pep_c.specs.Inputs.{Checks, Merges, RefusesAsked, RefusesInputs};
ghost use Rattle.pep_c.specs.Inputs.{ChecksParts, MergesParts, RefusesCheck, RefusesMerge};
ghost use Rattle.pep_c.specs.Inputs.{answer_number};
ghost use Rattle.pep_c.specs.Parts.{IsMiscut};
ghost use Rattle.pep_c.specs.Room.{GivesNothing, GivesText, TellsRefusal};

use crate::names::read_name;
use crate::parts::{CutFault, Part, inputs_of};
use crate::reply::{ANSWERED, MISCUT, REFUSED, Reply, give_answer, give_text, miscut, tell};
use crate::versions::read_version;
use faults::Fault;
use inputs::{Input, check_bytes, environment_of, merge_bytes};
use pep_table::Answer;
use std::alloc::Global;

// The text of the table of the inputs, in the environment of the file with these bytes.
fn merged(alloc: Global, environment: &[u8], inputs: &[Input]) -> Result<String, Fault>
    ensures merged { IfOk result (λ text.
        Merges environment.now inputs.now (string_bytes text)) }
    ensures refused { IfErr result
        (λ fault. (fault ≡ no_memory) ⊎ RefusesInputs environment.now inputs.now fault) }
{
    let environment = environment_of(alloc, environment)?;
    merge_bytes(alloc, inputs, &environment)
}

// An answer as a number.
fn answer_number(answer: Answer) -> i32
    ensures { result ≡ answer_number answer }
{
    match answer {
        Answer::Yes => 1,
        Answer::No => 0,
        Answer::Conflict => -1,
    }
}

// What the demands of the inputs on a name say of a version, in the environment of the file with
// these bytes, as a number.
fn checked(
    alloc: Global,
    environment: &[u8],
    inputs: &[Input],
    name: &[u8],
    version: &[u8],
    want_pre: bool,
) -> Result<i32, Fault>
    ensures checked { IfOk result
        (Checks environment.now inputs.now name.now version.now want_pre) }
    ensures refused { IfErr result (λ fault. (fault ≡ no_memory)
        ⊎ RefusesAsked environment.now inputs.now name.now version.now fault) }
{
    let version = read_version(alloc, version)?;
    let name = read_name(alloc, name)?;
    let environment = environment_of(alloc, environment)?;
    let answer = check_bytes(alloc, inputs, &environment, &name, &version, want_pre)?;
    Ok(answer_number(answer))
}

/// The text of the table of the inputs that stand in `bytes` as `parts` say (see
/// [`merge_bytes`](inputs::merge_bytes)), in the environment of the file with the bytes
/// `environment` (see [`environment_of`](inputs::environment_of)).
///
/// It is `MISCUT` where a part has a kind that is none, or asks for a dependency group of a list or a
/// table, or where the sizes of the parts together aren't the number of bytes. A refusal is that of the
/// text of a group that is no name, 62 with 21; or else that of the environment, 51, 52, 55, 56 or 59; or
/// that of an input, 51 to 57, or with a group 65 to 67; or 60. Where a part is
/// miscut and a group is no name, it is either of these.
#[unsafe(no_mangle)]
pub extern "C" fn tubrambutan_merge(
    alloc: Global,
    environment: &[u8],
    parts: &[Part],
    bytes: &[u8],
    room: &mut [u8],
) -> Reply
    ensures status { result.status ≤ REFUSED }
    ensures answer { result.answer ≡ pos 0 }
    ensures merged { result.status ≡ ANSWERED → GivesText
        (MergesParts environment.now parts.now bytes.now) result.size room.old room.new }
    ensures miscut { result.status ≡ MISCUT → IsMiscut parts.now bytes.now
        × GivesNothing result.size room.old room.new }
    ensures refused { result.status ≡ REFUSED → TellsRefusal
        (RefusesMerge environment.now parts.now bytes.now) result.size room.old room.new }
{
    match inputs_of(alloc, parts, bytes) {
        Ok(inputs) => give_text(alloc, merged(alloc, environment, inputs.as_slice()), room),
        Err(CutFault::Miscut) => miscut(),
        Err(CutFault::Refused(fault)) => tell(alloc, &fault, room),
    }
}

/// Whether a version of the package with this name meets what such inputs demand of it (see
/// [`check_bytes`](inputs::check_bytes)): 1 for yes, 0 for no, -1 where two different URLs are
/// demanded.
///
/// It is `MISCUT` as with [`tubrambutan_merge`]. A refusal is that of the version, 62 with 1 or 2; or
/// else that of the name, 62 with 21; or else as with [`tubrambutan_merge`].
#[unsafe(no_mangle)]
pub extern "C" fn tubrambutan_check(
    alloc: Global,
    environment: &[u8],
    parts: &[Part],
    bytes: &[u8],
    name: &[u8],
    version: &[u8],
    want_pre: bool,
    room: &mut [u8],
) -> Reply
    ensures status { result.status ≤ REFUSED }
    ensures checked { result.status ≡ ANSWERED → ChecksParts environment.now parts.now bytes.now
        name.now version.now want_pre result.answer × GivesNothing result.size room.old room.new }
    ensures no_answer { result.status ≢ ANSWERED → result.answer ≡ pos 0 }
    ensures miscut { result.status ≡ MISCUT → IsMiscut parts.now bytes.now
        × GivesNothing result.size room.old room.new }
    ensures refused { result.status ≡ REFUSED → TellsRefusal (RefusesCheck environment.now
        parts.now bytes.now name.now version.now) result.size room.old room.new }
{
    match inputs_of(alloc, parts, bytes) {
        Ok(inputs) => {
            let inputs = inputs.as_slice();
            let answer = checked(alloc, environment, inputs, name, version, want_pre);
            give_answer(alloc, answer, room)
        }
        Err(CutFault::Miscut) => miscut(),
        Err(CutFault::Refused(fault)) => tell(alloc, &fault, room),
    }
}
