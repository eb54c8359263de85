//! The shards of lists, over bytes.

ghost use Rattle.std.specs.Prelude.{◌≡◌, ◌⊎◌, pos};
ghost use Rattle.shards.specs.Shards.{AreShards};
ghost use Rattle.pep_c.specs.Room.{GivesText, TellsRefusal};
ghost use Rattle.pep_c.specs.Split.{RefusesSplit};

use crate::reply::{ANSWERED, REFUSED, Reply, give_numbers};
use shards::shards_of;
use std::alloc::Global;

/// The shard of the requirement on each line of a list among so many, from 0, whether or not its marker holds: lines
/// with one name have one shard, on each machine. A line that is empty or a comment has the count itself. A count of 0
/// stands for 1. There is one number more than there are line feeds, and the size of the reply counts them. The list
/// may be of any size.
///
/// A refusal is that of the first line of input 1 that is too long, 57 with 38, isn't UTF-8, 57 with 51, or begins with
/// no name, 57 with 37 or 31; or 60. Then the line goes into the room. See [`shards_of`].
#[unsafe(no_mangle)]
pub extern "C" fn tubrambutan_split(
    alloc: Global,
    bytes: &[u8],
    count: u64,
    numbers: &mut [u64],
    room: &mut [u8],
) -> Reply
    ensures status { (result.status ≡ ANSWERED) ⊎ (result.status ≡ REFUSED) }
    ensures answer { result.answer ≡ pos 0 }
    ensures shards { result.status ≡ ANSWERED → (room.new ≡ room.old)
        × GivesText (AreShards count bytes.now) result.size numbers.old numbers.new }
    ensures refused { result.status ≡ REFUSED → (numbers.new ≡ numbers.old)
        × TellsRefusal (RefusesSplit bytes.now) result.size room.old room.new }
{
    give_numbers(alloc, shards_of(alloc, bytes, count), numbers, room)
}
