//! Writing a text to the end.

ghost use Rattle.std.specs.Prelude.{◌≡◌, IfErr, OnOk, is_err};
ghost use Rattle.std.specs.Io.KnownBytes.{Appends};
ghost use Rattle.devices.specs.Device.{IsFresh, WritesText};

use devices::{Printed, Sink, push_all, push_pieces};
use faults::{Cause, Fault, Place};

/// Writes the whole text, in as many calls as the sink wants.
///
/// `Ok` means that exactly these bytes were written. Where the sink fails the text ends there, a
/// part of its front was written, and the fault is a `WriteFault`, 63, which lies in no input.
pub fn write_text<W: Sink>(sink: &mut W, text: &str) -> Result<(), Fault>
    requires { IsFresh (W.device sink.old) }
    ensures writes { WritesText text.now (W.written sink.old) (W.written sink.new) result }
    ensures failed { (W.device sink.new).failed ≡ is_err result }
    ensures faults { IfErr result (λ fault. fault ≡ record {
      place = Place.Nowhere;
      cause =
          Cause.WriteFault;
    }) }
{
    match push_all(sink, text.as_bytes()) {
        Ok(()) => Ok(()),
        Err(_) => Err(Fault {
            place: Place::Nowhere,
            cause: Cause::WriteFault,
        }),
    }
}

/// Writes the whole text, which is never held as a whole, in pieces of 8,192 bytes.
///
/// `Ok` means that exactly this text was written. Where the sink fails the text ends there, and the fault is a
/// `WriteFault`, 63, which lies in no input.
pub(crate) fn write_printed<W: Sink, P: Printed>(sink: &mut W, printed: &P) -> Result<(), Fault>
    requires { IsFresh (W.device sink.old) }
    ensures writes { OnOk result
        (Appends (W.written sink.old) (W.written sink.new) (P.text printed.now)) }
    ensures failed { (W.device sink.new).failed ≡ is_err result }
    ensures faults { IfErr result (λ fault. fault ≡ record {
      place = Place.Nowhere;
      cause =
          Cause.WriteFault;
    }) }
{
    match push_pieces(sink, printed) {
        Ok(()) => Ok(()),
        Err(_) => Err(Fault {
            place: Place::Nowhere,
            cause: Cause::WriteFault,
        }),
    }
}
