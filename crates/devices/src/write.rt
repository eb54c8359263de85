//! Writing bytes to the end.

ghost use Rattle.std.specs.Prelude.{◌≡◌, false, is_err};
ghost use Rattle.devices.specs.Device.{WritesText};

use crate::device::{Failed, Sink};

/// Writes all the bytes, in as many calls as the sink wants.
///
/// `Ok` means that exactly these bytes were written. Where the sink fails the bytes end there: a
/// part of their front was written. A sink whose calls are used up has failed too.
pub fn push_all<W: Sink>(sink: &mut W, bytes: &[u8]) -> Result<(), Failed>
    requires { (W.device sink.old).failed ≡ false }
    ensures writes { WritesText bytes.now (W.written sink.old) (W.written sink.new) result }
    ensures failed { (W.device sink.new).failed ≡ is_err result }
{
    let mut done = 0;
    while done < bytes.len() {
        if sink.calls() == u64::MAX {
            sink.give_up();
            return Err(Failed);
        }
        match sink.push(&bytes[done..]) {
            Ok(count) => done += count,
            Err(fault) => return Err(fault),
        }
    }
    Ok(())
}
