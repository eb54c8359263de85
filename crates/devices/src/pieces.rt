//! Writing a text to the end in pieces, of which one at a time is held.

ghost use Rattle.std.specs.Prelude.{
  ◌≡◌,
  ◌++◌,
  ◌∷◌,
  [],
  List,
  OnErr,
  OnOk,
  false,
  is_err,
  true,
  ℕ,
};
ghost use Rattle.std.specs.Io.KnownBytes.{Appends};
ghost use Rattle.devices.specs.Way.Pieces.{TellsTaken, marked};
ghost use Rattle.texts.specs.TextOut.{Extends};

use crate::device::{Failed, Sink};
use crate::taken::{joined, nothing_told, told_by};
use crate::write::push_all;
use arrayvec::ArrayString;
use boxcar::tag::Tag;
use std::convert::Infallible;
use std::mem;
use texts::TextOut;

// So many bytes go to the sink at once.
const PIECE: usize = 8192;

/// What is printed part by part, and so never held as a whole.
pub trait Printed {
    /// Its text.
    ghost text: { Self → List ℕ };

    /// Writes the text, wherever it goes. Nothing else is wanted for it.
    fn put_text<T: TextOut>(&self, out: &mut T) -> Result<(), T::Fault>
        ensures ok { OnOk result (T.tells → T.written out.new ≡ T.written out.old ++ text self.now) }
        ensures kept { OnErr result (T.tells → Extends (T.written out.old) (T.written out.new)) };
}

// Holds parts until they make a piece.
struct Pieces<'a, W: Sink> {
    sink: &'a mut W,
    held: ArrayString<PIECE>,
    taken: Tag,
    ghost tells_taken: { (W.device sink.now).failed ≡ false
        → TellsTaken taken.numbers (W.written sink.now) held.bytes },
}

// Writes what is held.
fn write_held<W: Sink>(sink: &mut W, held: &mut ArrayString<PIECE>) -> Result<(), Failed>
    requires { (W.device sink.old).failed ≡ false }
    ensures writes { OnOk result
        (Appends (W.written sink.old) (W.written sink.new) held.old.bytes) }
    ensures empty { OnOk result (held.new.bytes ≡ []) }
    ensures failed { (W.device sink.new).failed ≡ is_err result }
{
    push_all(sink, held.as_str().as_bytes())?;
    held.clear();
    Ok(())
}

// Writes what is held, and then holds the part, or writes it too if it is longer than a piece. It is called once for
// each piece, and kept apart from what is done for each part.
#[cold]
#[inline(never)]
fn make_room<W: Sink>(sink: &mut W, held: &mut ArrayString<PIECE>, part: &str) -> Result<(), Failed>
    ensures taken { OnOk result ((taken : List ℕ)
        → TellsTaken taken (W.written sink.old) held.old.bytes
        → TellsTaken (taken ++ part.now) (W.written sink.new) held.new.bytes) }
    ensures was_ready { OnOk result ((W.device sink.old).failed ≡ false) }
    ensures failed { (W.device sink.new).failed ≡ is_err result }
{
    if sink.failed() {
        return Err(Failed);
    }
    write_held(sink, held)?;
    if held.try_push_str(part).is_ok() {
        return Ok(());
    }
    push_all(sink, part.as_bytes())?;
    Ok(())
}

// Holds a part more, and writes what there is no room for. Once the sink has failed, it doesn't matter what is held.
#[inline(always)]
fn hold<W: Sink>(sink: &mut W, held: &mut ArrayString<PIECE>, part: &str)
    ensures taken { (W.device sink.new).failed ≡ false → (taken : List ℕ)
        → TellsTaken taken (W.written sink.old) held.old.bytes
        → TellsTaken (taken ++ part.now) (W.written sink.new) held.new.bytes }
    ensures was_ready { (W.device sink.new).failed ≡ false → (W.device sink.old).failed ≡ false }
{
    if held.try_push_str(part).is_err() {
        // Where this fails the sink has failed, which is told at the end.
        let _ = make_room(sink, held, part);
    }
}

impl<W: Sink> TextOut for Pieces<'_, W> {
    ghost use Rattle.std.specs.Prelude.{⊤};

    // Where the sink has failed, parts are passed over: that it has is told at the end.
    type Fault = Infallible;

    ghost tells = { ⊤ };

    // The name tells that it is the same sink.
    ghost written = { λ p. p.sink.ghost_name ∷ p.taken.numbers };

    #[inline(always)]
    fn put_str(&mut self, part: &str) -> Result<(), Infallible> {
        // While it isn't known what is taken, the sink may be written to.
        let before = mem::replace(&mut self.taken, nothing_told());
        hold(self.sink, &mut self.held, part);
        self.taken = joined(&before, part);
        Ok(())
    }
}

impl<W: Sink> Pieces<'_, W> {
    // Takes the whole text.
    fn put_whole<P: Printed>(&mut self, printed: &P)
        ensures same_reference { self.new.sink.ghost_name ≡ self.old.sink.ghost_name }
        ensures taken { self.new.taken.numbers ≡ self.old.taken.numbers ++ P.text printed.now }
    {
        match printed.put_text(self) {
            Ok(()) => {}
            Err(never) => match never {},
        }
    }
}

// Writes what is still held, if no call has failed.
fn end<W: Sink>(sink: &mut W, held: &mut ArrayString<PIECE>) -> Result<(), Failed>
    ensures writes { OnOk result
        (Appends (W.written sink.old) (W.written sink.new) held.old.bytes) }
    ensures was_ready { OnOk result ((W.device sink.old).failed ≡ false) }
    ensures failed { (W.device sink.new).failed ≡ is_err result }
{
    if sink.failed() {
        return Err(Failed);
    }
    write_held(sink, held)
}

/// Writes the text to the end, in pieces of 8,192 bytes, each in as many calls as the sink wants. Of the text no more
/// is held than a piece, and no memory is asked for.
///
/// `Ok` means that exactly the text was written. Where the sink fails the text ends there; no clause says how much of
/// it was written.
pub fn push_pieces<W: Sink, P: Printed>(sink: &mut W, printed: &P) -> Result<(), Failed>
    requires { (W.device sink.old).failed ≡ false }
    ensures writes { OnOk result
        (Appends (W.written sink.old) (W.written sink.new) (P.text printed.now)) }
    ensures failed { (W.device sink.new).failed ≡ is_err result }
{
    let taken = told_by(sink);
    let mut pieces = Pieces {
        sink,
        held: ArrayString::new(),
        taken,
    };
    pieces.put_whole(printed);
    let Pieces {
        sink,
        mut held,
        taken: _,
    } = pieces;
    end(sink, &mut held)
}
