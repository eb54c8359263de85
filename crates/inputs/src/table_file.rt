//! Table files.

ghost use Rattle.std.specs.Prelude.{◌≡◌, ◌⊎◌, ℕ, IfErr, IfOk};
ghost use Rattle.demands.specs.Join.{JoinsTables};
ghost use Rattle.demands.specs.Table.{TableParts};
ghost use Rattle.pep_table.specs.NamedEntry.{wanted_part};
ghost use Rattle.inputs.specs.TableFiles.{IsRefusedTable, IsTableFile};
ghost use Rattle.inputs.specs.Way.Wanted.{wanted_name};

use documents::file_text;
use faults::{Cause, LineFault};
use pep_marker::{Environment, Name};
use pep_table::{Gathering, TableFault};
use std::alloc::Global;

// The cause of a fault of the text of a table.
fn table_cause(fault: TableFault) -> Cause
    ensures line { (n : ℕ) → fault ≡ TableFault.BadTable n
        → result ≡ Cause.Line n LineFault.BadTable }
    ensures environment { (n : ℕ) → fault ≡ TableFault.OtherEnvironment n
        → result ≡ Cause.Line n LineFault.OtherEnvironment }
    ensures memory { fault ≡ TableFault.NoMemory → result ≡ Cause.NoMemory }
{
    match fault {
        TableFault::BadTable(line) => Cause::Line(line as u64, LineFault::BadTable),
        TableFault::OtherEnvironment(line) => {
            Cause::Line(line as u64, LineFault::OtherEnvironment)
        }
        _ => Cause::NoMemory,
    }
}

/// What is demanded so far and by the table that the bytes, at most 16,777,216 of them, are the text of in the
/// environment, or the lines of: by the wanted name's entry alone, where there is one. The causes of a refusal, in this
/// order: 56 where there are more bytes; 51 where they aren't UTF-8; 57 with 43 for the text of a table in another
/// environment, and the first line that differs, or with 41 for the first line that can't stand in a table behind those
/// before it (see [`Table::read`](pep_table::Table::read)). Lack of memory is 60.
pub(crate) fn take_table(
    alloc: Global,
    gathering: Gathering,
    bytes: &[u8],
    environment: &Environment,
    wanted: Option<&Name>,
) -> Result<Gathering, Cause>
    ensures ok { IfOk result (λ new. (t : TableParts) × IsTableFile environment.now bytes.now t
        × JoinsTables gathering (wanted_part (wanted_name wanted.entry) t) new) }
    ensures refused { IfErr result (λ cause. (cause ≡ Cause.NoMemory)
        ⊎ IsRefusedTable environment.now bytes.now cause) }
{
    let text = file_text(bytes)?;
    match gathering.take_text(alloc, text, environment, wanted) {
        Ok(new) => Ok(new),
        Err(fault) => Err(table_cause(fault)),
    }
}
