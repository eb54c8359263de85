//! What all inputs demand: the text of its table, and what it says of a version.

ghost use Rattle.std.specs.Prelude.{All, IfErr, IfOk, string_bytes};
ghost use Rattle.demands.specs.Answer.{IsAnswer};
ghost use Rattle.demands.specs.Table.{TableDemands};
ghost use Rattle.pep_table.specs.TableText.{IsTableText};
ghost use Rattle.inputs.specs.Gathered.{Gathered, IsAccepted};
ghost use Rattle.inputs.specs.Merge.{IsMerge};
ghost use Rattle.inputs.specs.Refusal.{RefusesInputs};

use crate::gathering::{gather, gather_named};
use crate::input::Input;
use faults::Fault;
use pep_marker::{Environment, Name};
use pep_table::{Answer, Gathering, Printout, TableFault};
use pep_version::Version;
use std::alloc::{AllocError, Global};

// The text of the table of what is demanded in the environment.
fn text_of(
    alloc: Global,
    gathering: Gathering,
    environment: &Environment,
) -> Result<String, AllocError>
    ensures { IfOk result (λ text. IsTableText environment.now gathering (string_bytes text)) }
{
    gathering.text(alloc, environment).map_err(|_| AllocError)
}

/// The text of the table of what all inputs demand in the environment (see
/// [`Table::text`](pep_table::Table::text)): of those requirements that apply there (PEP 508,
/// "Environment Markers"), and of tables that were printed, whatever the order, grouping and repeats
/// of the inputs, and of the lines of lists.
///
/// An input that isn't accepted is refused, with its number, counted from 1, as the place: 56 where
/// it has more than 16,777,216 bytes; 51 to 55, or with a group 65 to 67, for a project file that
/// fails a check (see [`project_of`](crate::project_of)); 51 for a table file that isn't UTF-8; 57 for a line of a
/// list or of a table file, or a text of a project file (see [`gather`]). The first fault of the
/// first such input is answered. Lack of memory is 60, without a place.
pub fn merge_bytes(
    alloc: Global,
    inputs: &[Input],
    environment: &Environment,
) -> Result<String, Fault>
    ensures merged { IfOk result (λ text.
        IsMerge environment.now inputs.now (string_bytes text)) }
    ensures refused { IfErr result (RefusesInputs environment.now inputs.now) }
{
    let gathering = gather(alloc, inputs, environment)?;
    Ok(text_of(alloc, gathering, environment)?)
}

/// The text of the table of what is demanded in the environment, yet to be written (see
/// [`Gathering::printout`]).
pub fn printout_of(
    alloc: Global,
    gathering: Gathering,
    environment: &Environment,
) -> Result<Printout, AllocError>
    ensures { IfOk result (IsTableText environment.now gathering) }
{
    let printed = gathering.printout(alloc, environment);
    printed.map_err(|_| AllocError)
}

/// The text of [`merge_bytes`], yet to be written, with its refusals: so it is never held as a whole.
pub fn merge_printout(
    alloc: Global,
    inputs: &[Input],
    environment: &Environment,
) -> Result<Printout, Fault>
    ensures merged { IfOk result (IsMerge environment.now inputs.now) }
    ensures refused { IfErr result (RefusesInputs environment.now inputs.now) }
{
    let gathering = gather(alloc, inputs, environment)?;
    Ok(printout_of(alloc, gathering, environment)?)
}

// What is demanded says this of the version of the package.
fn answer(
    alloc: Global,
    gathering: Gathering,
    name: &Name,
    version: &Version,
    want_pre: bool,
) -> Result<Answer, TableFault>
    ensures answer { IfOk result (IsAnswer (TableDemands gathering name.now) version.now
        want_pre) }
{
    let table = gathering.finish(alloc)?;
    table.admits(alloc, name, version, want_pre)
}

/// Whether the version of the package meets what all inputs demand of it in the environment:
/// `Conflict` where two different URLs are demanded; else `Yes` where every demand admits it, and
/// it is no pre-release unless these are wanted; else `No`. Where nothing is demanded of the
/// package the answer is `Yes`, for a pre-release only if these are wanted.
///
/// All inputs are read, and refused as by [`merge_bytes`]; what they demand of other packages is
/// dropped where it is found.
pub fn check_bytes(
    alloc: Global,
    inputs: &[Input],
    environment: &Environment,
    name: &Name,
    version: &Version,
    want_pre: bool,
) -> Result<Answer, Fault>
    ensures accepted { IfOk result (λ answer. All (IsAccepted environment.now) inputs.now) }
    ensures answer { IfOk result (IsAnswer (Gathered environment.now inputs.now name.now)
        version.now want_pre) }
    ensures refused { IfErr result (RefusesInputs environment.now inputs.now) }
{
    let gathering = gather_named(alloc, inputs, environment, name)?;
    // Its clause tells that the parts make a version.
    let _ = version.release();
    match answer(alloc, gathering, name, version, want_pre) {
        Ok(answer) => Ok(answer),
        Err(_) => Err(Fault::no_memory()),
    }
}
