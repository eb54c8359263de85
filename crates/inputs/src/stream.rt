//! A list that is merged while it is read.

ghost use Rattle.std.specs.Prelude.{
  ◌↔◌,
  ◌≤◌,
  ◌+◌,
  IfErr,
  IfOk,
  IsErrOf,
  IsTrue,
};
ghost use Rattle.devices.specs.Device.{IsFresh};
ghost use Rattle.inputs.specs.Lists.{input_limit};
ghost use Rattle.inputs.specs.Way.LineReading.{RefusesSource, TakesSource};
ghost use Rattle.inputs.specs.Streams.{ReadsList, ReadsUpTo};

use crate::gathering::DemandTaker;
use crate::lines::{LinesSoFar, Taker, refused_over, take_last, take_piece};
use devices::Source;
use faults::{Cause, Fault, Place};
use pep_marker::Environment;
use pep_table::{Gathering, Table};
use std::alloc::Global;
use texts::INPUT_LIMIT;

// How many bytes are asked for at once.
const PIECE: usize = 65_536;

// What was taken before, and the texts on the lines of the list that a source gives, one line after
// the other. The cause is that of the first fault, in the order of the bytes: a read that fails is
// one, behind the bytes read before it.
fn take_source<T: Taker, S: Source>(
    alloc: Global,
    taker: &mut T,
    taken: T::Taken,
    source: &mut S,
) -> Result<T::Taken, Cause>
    requires { IsFresh (S.device source.old) }
    ensures ok { IfOk result (TakesSource (T.takes taker.old) (S.left source.old)
        (S.left source.new) taken) }
    ensures refused { IfErr result (RefusesSource (T.takes taker.old) (T.refuses taker.old)
        (S.left source.old) (S.left source.new) (S.device source.new).failed taken) }
    ensures failed { IsTrue (S.device source.new).failed ↔ IsErrOf result Cause.ReadFault }
    ensures bytes { ReadsUpTo (input_limit + 1) (S.left source.old) (S.left source.new) }
    ensures calls { (S.device source.new).calls ≤ input_limit + 1 }
{
    let mut buffer = [0u8; PIECE];
    let mut so_far = LinesSoFar::new(alloc, taken);
    let mut count: usize = 0;
    'pieces: loop {
        let room = PIECE.min(INPUT_LIMIT + 1 - count);
        let piece = &mut buffer[..room];
        let given = match source.pull(piece) {
            Ok(0) => return take_last(alloc, taker, so_far),
            Ok(given) => given,
            Err(_) => return Err(Cause::ReadFault),
        };
        count += given;
        if count > INPUT_LIMIT {
            return Err(refused_over(alloc, taker, so_far, &piece[..given - 1]));
        }
        so_far = take_piece(alloc, taker, so_far, &piece[..given])?;
    }
}

/// What a list from a reader demands in the environment, as [`gather`](crate::gather) tells it
/// of input 1: merged while it is read, with one line of it held at a time, in whatever pieces its
/// bytes come. At most 16,777,217 bytes are read, by at most as many calls.
///
/// A fault is that of input 1, the first in the order of the bytes: those of a list, see `gather`,
/// or 58 where a read failed and no line before it is at fault. Lack of memory is 60, without a
/// place.
pub fn gather_reader<S: Source>(
    alloc: Global,
    source: &mut S,
    environment: &Environment,
) -> Result<Gathering, Fault>
    requires { IsFresh (S.device source.old) }
    ensures reads { ReadsList environment.now (S.left source.old) (S.left source.new)
        (S.device source.new) result }
{
    let mut taker = DemandTaker::new(alloc, environment, None);
    let nothing = Gathering::new(alloc);
    match take_source(alloc, &mut taker, nothing, source) {
        Ok(gathering) => Ok(gathering),
        Err(cause) => Err(Fault::of(Place::Input(1), cause)),
    }
}

/// The table of what a list from a reader demands in the environment, merged while it is read: see
/// [`gather_reader`].
pub fn merge_reader<S: Source>(
    alloc: Global,
    source: &mut S,
    environment: &Environment,
) -> Result<Table, Fault>
    requires { IsFresh (S.device source.old) }
    ensures reads { ReadsList environment.now (S.left source.old) (S.left source.new)
        (S.device source.new) result }
{
    let gathering = gather_reader(alloc, source, environment)?;
    match gathering.finish(alloc) {
        Ok(table) => Ok(table),
        Err(_) => Err(Fault::no_memory()),
    }
}
