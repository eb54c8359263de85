//! The bytes of sources and of files.

ghost use Rattle.std.specs.Prelude.{
  ◌≡◌,
  ◌⊎◌,
  ◌<◌,
  ◌≤◌,
  ◌+◌,
  ◌↔◌,
  IfOk,
  IfErr,
  IsErrOf,
  IsTrue,
  length,
  map,
  option_copied,
  string_bytes,
};
ghost use Rattle.std.specs.Io.KnownBytes.{Consumes, IsAtEnd};
ghost use Rattle.devices.specs.Device.{IsFresh};
ghost use Rattle.inputs.specs.Lists.{input_limit};
ghost use Rattle.inputs.specs.Refusal.{no_memory};
ghost use Rattle.inputs.specs.Streams.{ReadsUpTo};
ghost use Rattle.pep_tool.specs.RunFiles.{
  CannotRead,
  CannotReadOne,
  ReadsEnvironment,
  ReadsFile,
  ReadsInputs,
  RefusesEnvironment,
  kind_of,
  read_fault,
};

use devices::{Folder, OpenFault, Source};
use faults::{Cause, Fault, Place};
use inputs::{Input, Kind, environment_of};
use pep_marker::{Environment, Name};
use std::alloc::{AllocError, Global};
use texts::INPUT_LIMIT;

/// How many bytes are asked for at once.
pub(crate) const PIECE: usize = 65_536;

// How many bytes of an input or a file are read: one more than it may have.
const READ_LIMIT: usize = INPUT_LIMIT + 1;

// What lies in this place can't be opened, or reading it failed.
fn read_fault(place: Place) -> Fault
    ensures { result ≡ read_fault place }
{
    Fault {
        place,
        cause: Cause::ReadFault,
    }
}

// The bytes of a source in this place, and no more than the limit and one. As many are asked for at
// once as the buffer has.
fn read_all<S: Source>(
    alloc: Global,
    source: &mut S,
    place: Place,
    buffer: &mut [u8],
) -> Result<Vec<u8>, Fault>
    requires source { IsFresh (S.device source.old) }
    requires buffer { 0 < length buffer.old }
    ensures buffer { length buffer.new ≡ length buffer.old }
    ensures bytes { IfOk result (λ bytes. Consumes (S.left source.old)
        (S.left source.new) bytes.items) }
    ensures whole { IfOk result (λ bytes. length bytes.items ≤ input_limit →
        IsAtEnd (S.left source.new)) }
    ensures bound { IfOk result (λ bytes. length bytes.items ≤ input_limit + 1) }
    ensures most { ReadsUpTo (input_limit + 1) (S.left source.old) (S.left source.new) }
    ensures calls { (S.device source.new).calls ≤ input_limit + 1 }
    ensures same { (S.device source.new).identity ≡ (S.device source.old).identity }
    ensures failed { IsTrue (S.device source.new).failed ↔ IsErrOf result (read_fault place) }
    ensures faults { IfErr result (λ fault. (fault ≡ read_fault place) ⊎ (fault ≡ no_memory)) }
{
    let mut bytes = Vec::new(alloc);
    while bytes.len() < READ_LIMIT {
        let room = buffer.len().min(READ_LIMIT - bytes.len());
        let piece = &mut buffer[..room];
        match source.pull(piece) {
            Ok(0) => return Ok(bytes),
            Ok(count) => bytes.extend_from_slice(&piece[..count])?,
            Err(_) => return Err(read_fault(place)),
        }
    }
    Ok(bytes)
}

/// The bytes of the file with this path, and no more than the limit and one. As many are asked for at
/// once as the buffer has. A fault lies in this place.
pub(crate) fn read_file<D: Folder>(
    alloc: Global,
    folder: &D,
    path: &str,
    place: Place,
    buffer: &mut [u8],
) -> Result<Vec<u8>, Fault>
    requires { 0 < length buffer.old }
    ensures buffer { length buffer.new ≡ length buffer.old }
    ensures bytes { IfOk result (λ bytes. ReadsFile (D.file_at folder.now) D.File.left
        D.File.device path.now bytes.items) }
    ensures refused { IfErr result (λ fault. (fault ≡ no_memory)
        ⊎ CannotRead (D.file_at folder.now) D.File.left D.File.device path.now place fault) }
{
    let mut file = match folder.open(path) {
        Ok(file) => file,
        Err(OpenFault::NoMemory) => return Err(Fault::no_memory()),
        Err(OpenFault::CannotOpen) => return Err(read_fault(place)),
    };
    read_all(alloc, &mut file, place, buffer)
}

/// The environment that the file with this path has.
pub(crate) fn read_environment<D: Folder>(
    alloc: Global,
    folder: &D,
    path: &str,
) -> Result<Environment, Fault>
    ensures environment { IfOk result (ReadsEnvironment (D.file_at folder.now) D.File.left
        D.File.device path.now) }
    ensures refused { IfErr result (λ fault. (fault ≡ no_memory)
        ⊎ RefusesEnvironment (D.file_at folder.now) D.File.left D.File.device path.now fault) }
{
    let mut buffer = [0u8; PIECE];
    let bytes = read_file(alloc, folder, path, Place::Environment, &mut buffer)?;
    environment_of(alloc, bytes.as_slice())
}

/// The kind of the file with this path: one whose name ends in `.toml` is a project file, one whose
/// name ends in `.table` a table file.
pub(crate) fn kind_of(path: &str) -> Kind
    ensures { result ≡ kind_of path.now }
{
    if path.as_bytes().ends_with(b".toml") {
        Kind::Project
    } else if path.as_bytes().ends_with(b".table") {
        Kind::Table
    } else {
        Kind::List
    }
}

// The name, where there is one, once more.
fn name_copied(alloc: Global, name: Option<&Name>) -> Result<Option<Name>, AllocError>
    ensures { IfOk result (λ copy. copy ≡ option_copied name.entry) }
{
    let Some(name) = name else {
        return Ok(None);
    };
    match name.copied(alloc) {
        Ok(copy) => Ok(Some(copy)),
        Err(_) => Err(AllocError),
    }
}

/// The inputs that the files with these paths are, with this dependency group of the project files or
/// none. All of them are read before one is judged.
pub(crate) fn read_inputs<D: Folder>(
    alloc: Global,
    folder: &D,
    group: Option<&Name>,
    paths: &[String],
) -> Result<Vec<Input>, Fault>
    ensures inputs { IfOk result (λ inputs. ReadsInputs (D.file_at folder.now) D.File.left
        D.File.device (option_copied group.entry) (map string_bytes paths.now) inputs.items) }
    ensures refused { IfErr result (λ fault. (fault ≡ no_memory)
        ⊎ CannotReadOne (D.file_at folder.now) D.File.left D.File.device
        (option_copied group.entry) (map string_bytes paths.now) fault) }
{
    let mut inputs = Vec::with_capacity(alloc, paths.len())?;
    // One for all: to set 64 KiB to zero takes longer than to read a small file.
    let mut buffer = [0u8; PIECE];
    let mut number: u64 = 0;
    for path in paths {
        number += 1;
        let path = path.as_str();
        let bytes = read_file(alloc, folder, path, Place::Input(number), &mut buffer)?;
        inputs.push(Input {
            kind: kind_of(path),
            bytes,
            group: name_copied(alloc, group)?,
        })?;
    }
    Ok(inputs)
}
