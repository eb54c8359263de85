//! Keys and parts of versions, over bytes.

ghost use Rattle.std.specs.Prelude.{◌≡◌, ◌⊎◌, ◌++◌, IfErr, IfOk, List, OnOk, pos, ℕ};
ghost use Rattle.faults.specs.NoMemory.{no_memory};
ghost use Rattle.pep_c.specs.Keys.{AreKeys, AreNumbersOf, IsKeyIfVersion, IsKeyOf};
ghost use Rattle.pep_c.specs.Keys.{framed, part_numbers, phase_number, pre_numbers, version_numbers};
ghost use Rattle.pep_c.specs.Room.{GivesText, TellsRefusal};
ghost use Rattle.pep_c.specs.Versions.{RefusesVersion};

use crate::reply::{ANSWERED, REFUSED, Reply, give_bytes, give_numbers};
use crate::versions::read_version;
use faults::{Cause, Fault};
use pep_version::{Key, Phase, Version};
use std::alloc::{AllocError, Global};
use texts::first_part;

// The bytes of the key of the version that the bytes spell.
fn key_of(alloc: Global, bytes: &[u8]) -> Result<Vec<u8>, Fault>
    ensures key { IfOk result (λ key. IsKeyOf bytes.now key.items) }
    ensures refused { IfErr result
        (λ fault. (fault ≡ no_memory) ⊎ RefusesVersion bytes.now fault) }
{
    let version = read_version(alloc, bytes)?;
    let Ok(key) = Key::of(alloc, &version) else {
        return Err(Fault::no_memory());
    };
    match Vec::from_slice(alloc, key.bytes()) {
        Ok(bytes) => Ok(bytes),
        Err(_) => Err(Fault::no_memory()),
    }
}

// A key behind its length.
fn push_framed(keys: &mut Vec<u8>, key: &[u8]) -> Result<(), AllocError>
    ensures { OnOk result (keys.new.items ≡ keys.old.items ++ framed key.now) }
{
    keys.extend_from_slice(&(key.len() as u64).to_be_bytes())?;
    keys.extend_from_slice(key)?;
    Ok(())
}

// The bytes of the key of a text, and none where the text is no version.
fn key_if_version(alloc: Global, text: &[u8]) -> Result<Vec<u8>, AllocError>
    ensures { IfOk result (λ key. IsKeyIfVersion text.now key.items) }
{
    match key_of(alloc, text) {
        Ok(key) => Ok(key),
        Err(fault) => match fault.cause {
            Cause::NoMemory => Err(AllocError),
            _ => Ok(Vec::new(alloc)),
        },
    }
}

// The key of a text behind its length, or the length 0 where the text is no version.
fn push_key(alloc: Global, keys: &mut Vec<u8>, text: &[u8]) -> Result<(), AllocError>
    ensures { OnOk result ((key : List ℕ) × IsKeyIfVersion text.now key
        × (keys.new.items ≡ keys.old.items ++ framed key)) }
{
    let key = key_if_version(alloc, text)?;
    push_framed(keys, key.as_slice())?;
    Ok(())
}

// The keys of the texts between zero bytes.
fn keys_of(alloc: Global, texts: &[u8]) -> Result<Vec<u8>, Fault>
    ensures keys { IfOk result (λ keys. AreKeys texts.now keys.items) }
    ensures faults { IfErr result (λ fault. fault ≡ no_memory) }
{
    let mut keys = Vec::new(alloc);
    let mut rest = Some(texts);
    while let Some(left) = rest {
        let (text, behind) = first_part(left, 0);
        let Ok(()) = push_key(alloc, &mut keys, text) else {
            return Err(Fault::no_memory());
        };
        rest = behind;
    }
    Ok(keys)
}

fn phase_number(phase: Phase) -> u64
    ensures { result ≡ phase_number phase }
{
    match phase {
        Phase::Alpha => 1,
        Phase::Beta => 2,
        Phase::Rc => 3,
    }
}

fn pre_numbers(pre: Option<(Phase, u64)>) -> [u64; 2]
    ensures { result ≡ pre_numbers pre }
{
    match pre {
        Some((phase, number)) => [phase_number(phase), number],
        None => [0, 0],
    }
}

fn part_numbers(part: Option<u64>) -> [u64; 2]
    ensures { result ≡ part_numbers part }
{
    match part {
        Some(number) => [1, number],
        None => [0, 0],
    }
}

// The numbers of a version.
fn version_numbers(alloc: Global, version: &Version) -> Result<Vec<u64>, AllocError>
    ensures { IfOk result (λ numbers. numbers.items ≡ version_numbers version.now) }
{
    let mut numbers = Vec::with_capacity(alloc, 12)?;
    numbers.push(version.epoch())?;
    numbers.extend_from_slice(&pre_numbers(version.pre()))?;
    numbers.extend_from_slice(&part_numbers(version.post()))?;
    numbers.extend_from_slice(&part_numbers(version.dev()))?;
    numbers.extend_from_slice(version.release())?;
    Ok(numbers)
}

// The numbers of the version that the bytes spell.
fn numbers_of(alloc: Global, bytes: &[u8]) -> Result<Vec<u64>, Fault>
    ensures numbers { IfOk result (λ numbers. AreNumbersOf bytes.now numbers.items) }
    ensures refused { IfErr result
        (λ fault. (fault ≡ no_memory) ⊎ RefusesVersion bytes.now fault) }
{
    let version = read_version(alloc, bytes)?;
    match version_numbers(alloc, &version) {
        Ok(numbers) => Ok(numbers),
        Err(_) => Err(Fault::no_memory()),
    }
}

/// The key of the version that the bytes spell (see [`Key::bytes`](pep_version::Key::bytes)): the byte
/// order of keys is the order of versions (PEP 440, "Summary of permitted suffixes and relative ordering"),
/// and versions that are the same in order have one key. It is refused as 62 with 1 or 2, or as 60.
#[unsafe(no_mangle)]
pub extern "C" fn tubrambutan_key(alloc: Global, bytes: &[u8], room: &mut [u8]) -> Reply
    ensures status { (result.status ≡ ANSWERED) ⊎ (result.status ≡ REFUSED) }
    ensures answer { result.answer ≡ pos 0 }
    ensures key { result.status ≡ ANSWERED →
        GivesText (IsKeyOf bytes.now) result.size room.old room.new }
    ensures refused { result.status ≡ REFUSED →
        TellsRefusal (RefusesVersion bytes.now) result.size room.old room.new }
{
    give_bytes(alloc, key_of(alloc, bytes), room)
}

/// The keys of the versions that the texts between zero bytes spell, in turn: of each its length as eight
/// bytes, the most significant first, and the key. A text that is no version has the length 0. The only
/// refusal is 60.
#[unsafe(no_mangle)]
pub extern "C" fn tubrambutan_keys(alloc: Global, texts: &[u8], room: &mut [u8]) -> Reply
    ensures status { (result.status ≡ ANSWERED) ⊎ (result.status ≡ REFUSED) }
    ensures answer { result.answer ≡ pos 0 }
    ensures keys { result.status ≡ ANSWERED →
        GivesText (AreKeys texts.now) result.size room.old room.new }
    ensures refused { result.status ≡ REFUSED →
        TellsRefusal (λ fault. fault ≡ no_memory) result.size room.old room.new }
{
    give_bytes(alloc, keys_of(alloc, texts), room)
}

/// The numbers of the version that the bytes spell: the epoch; the phase of a pre-release (1 for `a`, 2 for
/// `b`, 3 for `rc`) and its number; 1 and the number of a post-release; 1 and the number of a developmental
/// release; each of these 0 and 0 where there is none; and then the numbers of the release, with the zeros
/// at its end. The size of the reply counts them. The local version label is what follows the `+` of the
/// normal text. It is refused as 62 with 1 or 2, or as 60, and then the line goes into the room.
#[unsafe(no_mangle)]
pub extern "C" fn tubrambutan_version_numbers(
    alloc: Global,
    bytes: &[u8],
    numbers: &mut [u64],
    room: &mut [u8],
) -> Reply
    ensures status { (result.status ≡ ANSWERED) ⊎ (result.status ≡ REFUSED) }
    ensures answer { result.answer ≡ pos 0 }
    ensures numbers { result.status ≡ ANSWERED → (room.new ≡ room.old)
        × GivesText (AreNumbersOf bytes.now) result.size numbers.old numbers.new }
    ensures refused { result.status ≡ REFUSED → (numbers.new ≡ numbers.old)
        × TellsRefusal (RefusesVersion bytes.now) result.size room.old room.new }
{
    give_numbers(alloc, numbers_of(alloc, bytes), numbers, room)
}
