use std::alloc::{AllocError, AllocFailed};
use thiserror::Error;

/// Why there is no table.
#[derive(Clone, Copy, Debug, PartialEq, Eq, Error)]
pub enum TableFault {
    /// 28: a requirement has a marker that is undefined in the environment. Requirements are
    /// counted from 1.
    #[error("requirement {0}: an undefined marker")]
    Undefined(usize),
    /// 41: the text is no table's; the line, counted from 1, is the first that can't stand after
    /// those before it, and of a header that ends too early the last one.
    #[error("line {0}: not a line that a table has there")]
    BadTable(usize),
    /// 43: the text is that of a table in another environment; the line, counted from 1, is the first
    /// of its header that differs from that of the environment at hand.
    #[error("line {0}: of another environment")]
    OtherEnvironment(usize),
    /// 42: a growth was refused.
    #[error("out of memory")]
    NoMemory,
}

impl TableFault {
    ghost use Rattle.std.specs.Prelude.{◌≡◌};
    ghost use Rattle.demands.specs.Code.{table_code};

    /// The code of the fault, see `docs/CODES.md`.
    pub fn code(self) -> u64
        ensures { result ≡ table_code self }
    {
        match self {
            TableFault::Undefined(_) => 28,
            TableFault::BadTable(_) => 41,
            TableFault::OtherEnvironment(_) => 43,
            TableFault::NoMemory => 42,
        }
    }
}

// Written out, since thiserror's `From` doesn't say which fault it gives.
impl From<AllocError> for TableFault {
    ghost use Rattle.std.specs.Prelude.{◌≡◌};
    ghost use Rattle.demands.specs.declared.fault.TableFault.TheVariants.{NoMemory};

    ghost from_gives = { λ _ e. e ≡ NoMemory };

    fn from(_: AllocError) -> TableFault {
        TableFault::NoMemory
    }
}

impl<T: Drop> From<AllocFailed<T>> for TableFault {
    ghost use Rattle.std.specs.Prelude.{◌≡◌};
    ghost use Rattle.demands.specs.declared.fault.TableFault.TheVariants.{NoMemory};

    ghost from_gives = { λ _ e. e ≡ NoMemory };

    fn from(_: AllocFailed<T>) -> TableFault {
        TableFault::NoMemory
    }
}
