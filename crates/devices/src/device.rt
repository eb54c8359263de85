//! Devices that give or take bytes, and that count their calls.

mod bytes;
mod sink;
mod source;

ghost use Rattle.std.specs.Prelude.{◌≡◌};
ghost use Rattle.devices.specs.Device.{fresh_device};

pub use crate::device::bytes::Bytes;
pub use crate::device::sink::Sink;
pub use crate::device::source::Source;
use std::marker::Model;
use thiserror::Error;

/// A call on a device failed.
#[derive(Clone, Copy, Debug, PartialEq, Eq, Error)]
#[error("a read or a write failed")]
pub struct Failed;

/// A reader or a writer of std that counts its calls. Clauses see it as the reader or writer, and a
/// device.
#[derive(Drop)]
pub struct Counted<D> {
    inner: D,
    calls: u64,
    failed: bool,
}

impl<D> Model for Counted<D> {
    ghost use Rattle.std.specs.Prelude.{None};
    ghost use Rattle.devices.specs.Device.{Counting};

    ghost Value = { Counting D };

    ghost view = { λ s. record {
      inner = s.inner;
      device =
          record { calls = s.calls; failed = s.failed; identity = None };
    } };
}

impl<D> Counted<D> {
    /// A device with no call.
    pub fn new(inner: D) -> Self
        ensures { result ≡ record { inner = inner; device = fresh_device } }
    {
        Counted {
            inner,
            calls: 0,
            failed: false,
        }
    }
}
