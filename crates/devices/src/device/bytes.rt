//! Bytes at hand, as a device.

ghost use Rattle.std.specs.Prelude.{◌≡◌};

use crate::device::{Failed, Source};
use std::marker::Model;

/// Bytes at hand, which never fail. Clauses see the bytes left and the number of calls.
#[derive(Drop)]
pub struct Bytes<'a> {
    rest: &'a [u8],
    calls: u64,
}

impl<'a> Model for Bytes<'a> {
    ghost use Rattle.devices.specs.Device.{Reading};

    ghost Value = { Reading };

    ghost view = { λ s. record { left = s.rest.now; calls = s.calls } };
}

impl<'a> Bytes<'a> {
    /// A device with no call, that gives these bytes.
    pub fn new(bytes: &'a [u8]) -> Self
        ensures { result ≡ record { left = bytes.now; calls = 0 } }
    {
        Bytes {
            rest: bytes,
            calls: 0,
        }
    }
}

impl<'a> Source for Bytes<'a> {
    ghost use Rattle.std.specs.Prelude.{None, Some, false};

    ghost left = { λ s. Some s.left };

    ghost device = { λ s. record { calls = s.calls; failed = false; identity = None } };

    fn pull(&mut self, buf: &mut [u8]) -> Result<usize, Failed> {
        self.calls += 1;
        let count = self.rest.len().min(buf.len());
        let (front, rest) = self.rest.split_at(count);
        buf[..count].copy_from_slice(front);
        self.rest = rest;
        Ok(count)
    }

    fn calls(&self) -> u64 {
        self.calls
    }

    fn failed(&self) -> bool {
        false
    }
}
