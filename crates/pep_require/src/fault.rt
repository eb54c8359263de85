use pep_marker::MarkerFault;
use specifiers::ClauseFault;
use std::alloc::{AllocError, AllocFailed};
use thiserror::Error;

/// Why a line is refused as a requirement.
#[derive(Clone, Copy, Debug, PartialEq, Eq, Error)]
pub enum RequireFault {
    /// 31: the line begins with no name.
    #[error("not a name")]
    BadName,
    /// 32: the extras are faulty.
    #[error("not a list of extras")]
    BadExtras,
    /// 33: a clause is faulty.
    #[error("a faulty clause: {0}")]
    BadClause(ClauseFault),
    /// 34: the URL is faulty.
    #[error("not a URL")]
    BadUrl,
    /// 35: the marker is faulty.
    #[error("a faulty marker: {0}")]
    BadMarker(MarkerFault),
    /// 36: something else follows.
    #[error("something else follows")]
    Trailing,
    /// 37: the line begins with `-`.
    #[error("an option")]
    OptionLine,
    /// 38: the line has more than 65,536 bytes.
    #[error("a line that is too long")]
    LineTooLong,
    /// 39: the URL is too long for the reader of URLs.
    #[error("a URL that is too long")]
    UrlOverflow,
    /// 40: a growth was refused.
    #[error("out of memory")]
    NoMemory,
}

impl RequireFault {
    ghost use Rattle.std.specs.Prelude.{◌≡◌};
    ghost use Rattle.pep_require.specs.Code.{require_code, require_inner_code};

    /// The code of the fault, see `docs/CODES.md`.
    pub fn code(self) -> u64
        ensures { result ≡ require_code self }
    {
        match self {
            RequireFault::BadName => 31,
            RequireFault::BadExtras => 32,
            RequireFault::BadClause(_) => 33,
            RequireFault::BadUrl => 34,
            RequireFault::BadMarker(_) => 35,
            RequireFault::Trailing => 36,
            RequireFault::OptionLine => 37,
            RequireFault::LineTooLong => 38,
            RequireFault::UrlOverflow => 39,
            RequireFault::NoMemory => 40,
        }
    }

    /// The code of the fault inside it, of a clause or of a marker: see [`ClauseFault::code`] and
    /// [`MarkerFault::code`].
    pub fn inner_code(self) -> Option<u64>
        ensures { result ≡ require_inner_code self }
    {
        match self {
            RequireFault::BadClause(fault) => Some(fault.code()),
            RequireFault::BadMarker(fault) => Some(fault.code()),
            _ => None,
        }
    }
}

// Written out, since thiserror's `From` doesn't say which fault it gives.
impl From<AllocError> for RequireFault {
    ghost use Rattle.std.specs.Prelude.{◌≡◌};
    ghost use Rattle.pep_require.specs.declared.fault.RequireFault.TheVariants.{NoMemory};

    ghost from_gives = { λ _ e. e ≡ NoMemory };

    fn from(_: AllocError) -> RequireFault {
        RequireFault::NoMemory
    }
}

impl<T: Drop> From<AllocFailed<T>> for RequireFault {
    ghost use Rattle.std.specs.Prelude.{◌≡◌};
    ghost use Rattle.pep_require.specs.declared.fault.RequireFault.TheVariants.{NoMemory};

    ghost from_gives = { λ _ e. e ≡ NoMemory };

    fn from(_: AllocFailed<T>) -> RequireFault {
        RequireFault::NoMemory
    }
}

impl From<ClauseFault> for RequireFault {
    ghost use Rattle.std.specs.Prelude.{◌≡◌};
    ghost use Rattle.pep_require.specs.InnerFault.{fault_of_clause};

    ghost from_gives = { λ f e. e ≡ fault_of_clause f };

    fn from(fault: ClauseFault) -> RequireFault {
        match fault {
            ClauseFault::NoMemory => RequireFault::NoMemory,
            fault => RequireFault::BadClause(fault),
        }
    }
}

impl From<MarkerFault> for RequireFault {
    ghost use Rattle.std.specs.Prelude.{◌≡◌};
    ghost use Rattle.pep_require.specs.InnerFault.{fault_of_marker};

    ghost from_gives = { λ f e. e ≡ fault_of_marker f };

    fn from(fault: MarkerFault) -> RequireFault {
        match fault {
            MarkerFault::BadName => RequireFault::BadName,
            MarkerFault::NoMemory => RequireFault::NoMemory,
            fault => RequireFault::BadMarker(fault),
        }
    }
}
