//! What a call gives back.

ghost use Rattle.std.specs.Prelude.{◌≡◌, ◌⊎◌, Err, Ok, pos, string_bytes};
ghost use Rattle.std.specs.Prelude.{ℕ};
ghost use Rattle.std.specs.declared.string.String.{String};
ghost use Rattle.std.specs.declared.vec.Vec.{Vec};
ghost use Rattle.faults.specs.declared.fault.Fault.{Fault};
ghost use Rattle.pep_c.specs.Room.{GivesNothing, GoesOut, TellsRefusal};

use faults::Fault;
use std::alloc::Global;

/// The call was answered.
pub const ANSWERED: u32 = 0;

/// The sizes of the inputs aren't those of their bytes, or a kind is unknown.
pub const MISCUT: u32 = 1;

/// The call was refused, and the line of the refusal went out.
pub const REFUSED: u32 = 2;

// The line of lack of memory, where there is no memory for it.
const NO_MEMORY_LINE: &str = "refused code 60\n";

/// What a call gives back beside the text that goes out.
#[repr(C)]
#[derive(Clone, Copy, Debug, PartialEq, Eq)]
pub struct Reply {
    /// `ANSWERED`, `MISCUT` or `REFUSED`.
    pub status: u32,
    /// The answer of a call that asks something, and else 0.
    pub answer: i32,
    /// How many bytes the text has that goes out. It went out only if the room has as many.
    pub size: usize,
}

// Puts bytes in front of the room where they fit, and answers how many they are.
fn put_bytes(bytes: &[u8], room: &mut [u8]) -> usize
    ensures { GoesOut bytes.now result room.old room.new }
{
    if bytes.len() > room.len() {
        return bytes.len();
    }
    room[..bytes.len()].copy_from_slice(bytes);
    bytes.len()
}

// Puts a text there.
fn put(text: &str, room: &mut [u8]) -> usize
    ensures { GoesOut text.now result room.old room.new }
{
    put_bytes(text.as_bytes(), room)
}

// Puts numbers there.
fn put_numbers(numbers: &[u64], room: &mut [u64]) -> usize
    ensures { GoesOut numbers.now result room.old room.new }
{
    if numbers.len() > room.len() {
        return numbers.len();
    }
    room[..numbers.len()].copy_from_slice(numbers);
    numbers.len()
}

// Puts the line of a fault in front of the room where it fits, or that of lack of memory where there is
// none for it, and answers how many bytes it has.
fn put_line(alloc: Global, fault: &Fault, room: &mut [u8]) -> usize
    ensures { TellsRefusal (λ f. f ≡ fault.now) result room.old room.new }
{
    match fault.text(alloc) {
        Ok(line) => put(line.as_str(), room),
        Err(_) => put(NO_MEMORY_LINE, room),
    }
}

/// Tells why a call is refused.
pub(crate) fn tell(alloc: Global, fault: &Fault, room: &mut [u8]) -> Reply
    ensures status { result.status ≡ REFUSED }
    ensures answer { result.answer ≡ pos 0 }
    ensures told { TellsRefusal (λ f. f ≡ fault.now) result.size room.old room.new }
{
    Reply {
        status: REFUSED,
        answer: 0,
        size: put_line(alloc, fault, room),
    }
}

/// A text goes out, or the line of a refusal.
pub(crate) fn give_text(alloc: Global, outcome: Result<String, Fault>, room: &mut [u8]) -> Reply
    ensures status { (result.status ≡ ANSWERED) ⊎ (result.status ≡ REFUSED) }
    ensures answer { result.answer ≡ pos 0 }
    ensures text { result.status ≡ ANSWERED → (text : String Global) × (outcome ≡ Ok text)
        × GoesOut (string_bytes text) result.size room.old room.new }
    ensures refused { result.status ≡ REFUSED →
        TellsRefusal (λ fault. outcome ≡ Err fault) result.size room.old room.new }
{
    match outcome {
        Ok(text) => Reply {
            status: ANSWERED,
            answer: 0,
            size: put(text.as_str(), room),
        },
        Err(fault) => tell(alloc, &fault, room),
    }
}

/// Bytes go out, or the line of a refusal.
pub(crate) fn give_bytes(alloc: Global, outcome: Result<Vec<u8>, Fault>, room: &mut [u8]) -> Reply
    ensures status { (result.status ≡ ANSWERED) ⊎ (result.status ≡ REFUSED) }
    ensures answer { result.answer ≡ pos 0 }
    ensures bytes { result.status ≡ ANSWERED → (bytes : Vec ℕ Global) × (outcome ≡ Ok bytes)
        × GoesOut bytes.items result.size room.old room.new }
    ensures refused { result.status ≡ REFUSED →
        TellsRefusal (λ fault. outcome ≡ Err fault) result.size room.old room.new }
{
    match outcome {
        Ok(bytes) => Reply {
            status: ANSWERED,
            answer: 0,
            size: put_bytes(bytes.as_slice(), room),
        },
        Err(fault) => tell(alloc, &fault, room),
    }
}

/// Numbers go out into a room of their own, or the line of a refusal.
pub(crate) fn give_numbers(
    alloc: Global,
    outcome: Result<Vec<u64>, Fault>,
    numbers: &mut [u64],
    room: &mut [u8],
) -> Reply
    ensures status { (result.status ≡ ANSWERED) ⊎ (result.status ≡ REFUSED) }
    ensures answer { result.answer ≡ pos 0 }
    ensures numbers { result.status ≡ ANSWERED → (room.new ≡ room.old)
        × ((given : Vec ℕ Global) × (outcome ≡ Ok given)
        × GoesOut given.items result.size numbers.old numbers.new) }
    ensures refused { result.status ≡ REFUSED → (numbers.new ≡ numbers.old)
        × TellsRefusal (λ fault. outcome ≡ Err fault) result.size room.old room.new }
{
    match outcome {
        Ok(given) => Reply {
            status: ANSWERED,
            answer: 0,
            size: put_numbers(given.as_slice(), numbers),
        },
        Err(fault) => tell(alloc, &fault, room),
    }
}

/// An answer is given, or the line of a refusal goes out.
pub(crate) fn give_answer(alloc: Global, outcome: Result<i32, Fault>, room: &mut [u8]) -> Reply
    ensures status { (result.status ≡ ANSWERED) ⊎ (result.status ≡ REFUSED) }
    ensures answer { result.status ≡ ANSWERED → outcome ≡ Ok result.answer }
    ensures no_answer { result.status ≡ REFUSED → result.answer ≡ pos 0 }
    ensures nothing { result.status ≡ ANSWERED → GivesNothing result.size room.old room.new }
    ensures refused { result.status ≡ REFUSED →
        TellsRefusal (λ fault. outcome ≡ Err fault) result.size room.old room.new }
{
    match outcome {
        Ok(answer) => Reply {
            status: ANSWERED,
            answer,
            size: 0,
        },
        Err(fault) => tell(alloc, &fault, room),
    }
}

/// The inputs don't stand in the bytes as their parts say.
pub(crate) fn miscut() -> Reply
    ensures { result ≡ record { status = MISCUT; answer = pos 0; size = 0 } }
{
    Reply {
        status: MISCUT,
        answer: 0,
        size: 0,
    }
}
