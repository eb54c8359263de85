//! Names, over bytes.

ghost use Rattle.std.specs.Prelude.{◌≡◌, ◌⊎◌, IfErr, IfOk, Some, pos, string_bytes};
ghost use Rattle.pep_marker.specs.Name.{name_of};
ghost use Rattle.faults.specs.NoMemory.{no_memory};
ghost use Rattle.pep_c.specs.Names.{IsNoName};
ghost use Rattle.pep_c.specs.Room.{GivesText, TellsRefusal};

use crate::reply::{ANSWERED, REFUSED, Reply, give_text};
use faults::{ArgumentFault, Fault};
use pep_marker::{MarkerFault, Name};
use std::alloc::Global;

// The name that a text is.
fn name_of(alloc: Global, text: &str) -> Result<Name, Fault>
    ensures name { IfOk result (λ name. name_of text.now ≡ Some name) }
    ensures refused { IfErr result (λ fault. (fault ≡ no_memory) ⊎ IsNoName text.now fault) }
{
    match Name::read(alloc, text) {
        Ok(name) => Ok(name),
        Err(fault) => Err(Fault::of_argument(ArgumentFault::Name(fault))),
    }
}

/// The name that the bytes are.
pub(crate) fn read_name(alloc: Global, bytes: &[u8]) -> Result<Name, Fault>
    ensures name { IfOk result (λ name. name_of bytes.now ≡ Some name) }
    ensures refused { IfErr result (λ fault. (fault ≡ no_memory) ⊎ IsNoName bytes.now fault) }
{
    match str::from_utf8(bytes) {
        Ok(text) => name_of(alloc, text),
        Err(_) => Err(Fault::of_argument(ArgumentFault::Name(MarkerFault::BadName))),
    }
}

// The normalized text of a name.
fn name_text(alloc: Global, bytes: &[u8]) -> Result<String, Fault>
    ensures text { IfOk result (λ text. name_of bytes.now ≡ Some (string_bytes text)) }
    ensures refused { IfErr result (λ fault. (fault ≡ no_memory) ⊎ IsNoName bytes.now fault) }
{
    let name = read_name(alloc, bytes)?;
    match String::from_str(alloc, name.text()) {
        Ok(text) => Ok(text),
        Err(_) => Err(Fault::no_memory()),
    }
}

/// The normalized text of the name that the bytes are (PEP 503, "Normalized Names"). It is refused as
/// 62 with 21, or as 60.
#[unsafe(no_mangle)]
pub extern "C" fn tubrambutan_name(alloc: Global, bytes: &[u8], room: &mut [u8]) -> Reply
    ensures status { (result.status ≡ ANSWERED) ⊎ (result.status ≡ REFUSED) }
    ensures answer { result.answer ≡ pos 0 }
    ensures text { result.status ≡ ANSWERED →
        GivesText (λ text. name_of bytes.now ≡ Some text) result.size room.old room.new }
    ensures refused { result.status ≡ REFUSED →
        TellsRefusal (IsNoName bytes.now) result.size room.old room.new }
{
    give_text(alloc, name_text(alloc, bytes), room)
}
