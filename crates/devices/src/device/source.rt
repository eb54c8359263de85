//! Devices that give bytes.

ghost use Rattle.std.specs.Prelude.{◌≡◌, List, ℕ, Option, None};
ghost use Rattle.std.specs.Io.{ReadsAtMost};
ghost use Rattle.std.specs.Io.KnownBytes.{ReadConsumes};
ghost use Rattle.devices.specs.Device.{Device, IsReady, CountsCall};

use crate::device::{Counted, Failed};
use std::io::Read;

/// Gives bytes. It is not called again once a call has failed.
pub trait Source {
    /// The bytes left, where the device tells them.
    ghost left: { Self → Option (List ℕ) } = { λ _. None };

    /// Its calls, whether one failed, and which device it is, where that is told.
    ghost device: { Self → Device };

    /// Reads some bytes to the front of `buf`, and answers how many. None into a slice that isn't
    /// empty is the end.
    fn pull(&mut self, buf: &mut [u8]) -> Result<usize, Failed>
        requires { IsReady (device self.old) }
        ensures bound { ReadsAtMost result buf.new }
        ensures bytes { ReadConsumes (left self.old) (left self.new) result buf.new }
        ensures counts { CountsCall (device self.old) (device self.new) result };

    /// How many calls there were.
    fn calls(&self) -> u64
        ensures { result ≡ (device self.now).calls };

    /// Whether a call failed.
    fn failed(&self) -> bool
        ensures { result ≡ (device self.now).failed };
}

impl<D: Read> Source for Counted<D> {
    ghost left = { λ s. D.remaining s.inner };

    ghost device = { λ s. s.device };

    fn pull(&mut self, buf: &mut [u8]) -> Result<usize, Failed> {
        self.calls += 1;
        match self.inner.read(buf) {
            Ok(count) => Ok(count),
            Err(_) => {
                self.failed = true;
                Err(Failed)
            }
        }
    }

    fn calls(&self) -> u64 {
        self.calls
    }

    fn failed(&self) -> bool {
        self.failed
    }
}
