//! Which shard of a list each of its lines is in.

ghost use Rattle.std.specs.Prelude.{◌≡◌, ◌⊎◌, ◌<◌, IfErr, IfOk, max};
ghost use Rattle.faults.specs.NoMemory.{no_memory};
ghost use Rattle.shards.specs.Shards.{
  AreShards,
  HasNoShard,
  HasNoShards,
  IsShardOfLine,
  number_of,
  shard_of,
};

use faults::{Cause, Fault, LineFault, Place};
use inputs::text_of_line;
use pep_marker::Name;
use pep_require::{RequireFault, Requirement};
use std::alloc::Global;
use texts::first_part;

// The bytes as one number, each a digit to the base 1,000,003.
fn number_of(bytes: &[u8]) -> u64
    ensures { result ≡ number_of bytes.now }
{
    let mut number: u64 = 0;
    for &byte in bytes {
        number = number.wrapping_mul(1_000_003).wrapping_add(u64::from(byte));
    }
    number
}

/// The shard of a name among so many, from 0; a count of 0 stands for 1. Names have the same shard on each
/// machine.
pub fn shard_of(name: &Name, count: u64) -> u64
    ensures shard { result ≡ shard_of count name.now }
    ensures bound { result < max 1 count }
{
    number_of(name.text().as_bytes()) % count.max(1)
}

// The shard of a line. A skipped line has the count, which is 1 at least.
fn shard_on(alloc: Global, line: &[u8], count: u64) -> Result<u64, LineFault>
    ensures shard { IfOk result (IsShardOfLine count line.now) }
    ensures refused { IfErr result (λ fault. (fault ≡ LineFault.Requirement RequireFault.NoMemory)
        ⊎ HasNoShard line.now fault) }
{
    let found = text_of_line(line)?;
    let Some(text) = found else {
        return Ok(count.max(1));
    };
    let name = Requirement::name_of_line(alloc, text)?;
    Ok(shard_of(&name, count))
}

/// The shard of the requirement on each line of a list among so many (see [`shard_of`]), whether or not
/// its marker holds; and the count itself, or 1 where it is 0, for a line that is empty or a comment. There is
/// one number more than there are line feeds.
///
/// A line is read up to the end of its name alone (PEP 508, "Names"), and a list may be of any size. The fault is
/// that of input 1, for the first line that is too long, 57 with 38, isn't UTF-8, 57 with 51, or begins with no name,
/// 57 with 37 or 31; or it is 60.
pub fn shards_of(alloc: Global, bytes: &[u8], count: u64) -> Result<Vec<u64>, Fault>
    ensures shards { IfOk result (λ shards. AreShards count bytes.now shards.items) }
    ensures refused { IfErr result (λ fault. (fault ≡ no_memory)
        ⊎ ((fault.place ≡ Place.Input 1) × HasNoShards bytes.now fault.cause)) }
{
    let mut shards = Vec::new(alloc);
    let mut number: u64 = 0;
    let mut rest = Some(bytes);
    while let Some(left) = rest {
        let (line, behind) = first_part(left, b'\n');
        number += 1;
        match shard_on(alloc, line, count) {
            Ok(shard) => shards.push(shard)?,
            Err(fault) => return Err(Fault::of(Place::Input(1), Cause::on_line(number, fault))),
        }
        rest = behind;
    }
    Ok(shards)
}
