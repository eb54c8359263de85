//! Devices that take bytes.

ghost use Rattle.std.specs.Prelude.{◌≡◌, ◌<◌, List, ℕ, Option, None, IfOk, length, true};
ghost use Rattle.std.specs.Io.{WritesAtMost};
ghost use Rattle.std.specs.Io.KnownBytes.{Keeps, WriteAppends};
ghost use Rattle.devices.specs.Device.{Device, IsReady, CountsCall};

use crate::device::{Counted, Failed};
use std::io::Write;

/// Takes bytes. It is not called again once a call has failed.
pub trait Sink {
    /// The bytes written, where the device tells them.
    ghost written: { Self → Option (List ℕ) } = { λ _. None };

    /// Its calls, whether one failed, and which device it is, where that is told.
    ghost device: { Self → Device };

    /// Writes some bytes of the front of `buf`, and answers how many. A call that takes no byte of
    /// a slice that isn't empty has failed.
    fn push(&mut self, buf: &[u8]) -> Result<usize, Failed>
        requires { IsReady (device self.old) }
        ensures bound { WritesAtMost result buf.now }
        ensures some { 0 < length buf.now → IfOk result (λ n. 0 < n) }
        ensures bytes { WriteAppends (written self.old) (written self.new) result buf.now }
        ensures counts { CountsCall (device self.old) (device self.new) result };

    /// Ends the sink as a failed call does, since no call is left. Nothing is written for it.
    fn give_up(&mut self)
        requires { (device self.old).calls ≡ 18446744073709551615 }
        ensures device { device self.new ≡ record (device self.old) { failed = true } }
        ensures bytes { Keeps (written self.old) (written self.new) };

    /// How many calls there were.
    fn calls(&self) -> u64
        ensures { result ≡ (device self.now).calls };

    /// Whether a call failed.
    fn failed(&self) -> bool
        ensures { result ≡ (device self.now).failed };
}

impl<D: Write> Sink for Counted<D> {
    ghost written = { λ s. D.contents s.inner };

    ghost device = { λ s. s.device };

    fn push(&mut self, buf: &[u8]) -> Result<usize, Failed> {
        self.calls += 1;
        match self.inner.write(buf) {
            Ok(count) if count > 0 || buf.is_empty() => Ok(count),
            _ => {
                self.failed = true;
                Err(Failed)
            }
        }
    }

    fn give_up(&mut self) {
        self.failed = true;
    }

    fn calls(&self) -> u64 {
        self.calls
    }

    fn failed(&self) -> bool {
        self.failed
    }
}
