use pep_version::VersionFault;
use std::alloc::{AllocError, AllocFailed};
use thiserror::Error;

/// Why a text is refused as a version specifier clause.
#[derive(Clone, Copy, Debug, PartialEq, Eq, Error)]
pub enum ClauseFault {
    /// 11: no operator stands in front.
    #[error("no operator")]
    NoOperator,
    /// 12: what follows the operator is no version, or for `===` no text that may stand there.
    #[error("not a version")]
    BadVersion,
    /// 13: `.*` behind more than a release, or with another operator than `==` and `!=`.
    #[error("`.*` may not stand here")]
    StarNotAllowed,
    /// 14: a local version label with another operator than `==` and `!=`.
    #[error("a local version label may not stand here")]
    LocalNotAllowed,
    /// 15: `~=` with a release of one number.
    #[error("`~=` wants two release numbers or more")]
    OneNumber,
    /// 16: a number of the version is above 18446744073709551615.
    #[error("a number of the version is too large")]
    NumberTooLarge,
    /// 17: a growth was refused.
    #[error("out of memory")]
    NoMemory,
}

impl ClauseFault {
    ghost use Rattle.std.specs.Prelude.{◌≡◌};
    ghost use Rattle.specifiers.specs.Code.{clause_code};

    /// The code of the fault, see `docs/CODES.md`.
    pub fn code(self) -> u64
        ensures { result ≡ clause_code self }
    {
        match self {
            ClauseFault::NoOperator => 11,
            ClauseFault::BadVersion => 12,
            ClauseFault::StarNotAllowed => 13,
            ClauseFault::LocalNotAllowed => 14,
            ClauseFault::OneNumber => 15,
            ClauseFault::NumberTooLarge => 16,
            ClauseFault::NoMemory => 17,
        }
    }
}

impl From<AllocError> for ClauseFault {
    ghost use Rattle.std.specs.Prelude.{◌≡◌};
    ghost use Rattle.specifiers.specs.declared.fault.ClauseFault.TheVariants.{NoMemory};

    ghost from_gives = { λ _ e. e ≡ NoMemory };

    fn from(_: AllocError) -> ClauseFault {
        ClauseFault::NoMemory
    }
}

impl<T: Drop> From<AllocFailed<T>> for ClauseFault {
    ghost use Rattle.std.specs.Prelude.{◌≡◌};
    ghost use Rattle.specifiers.specs.declared.fault.ClauseFault.TheVariants.{NoMemory};

    ghost from_gives = { λ _ e. e ≡ NoMemory };

    fn from(_: AllocFailed<T>) -> ClauseFault {
        ClauseFault::NoMemory
    }
}

impl From<VersionFault> for ClauseFault {
    ghost use Rattle.std.specs.Prelude.{◌≡◌};
    ghost use Rattle.specifiers.specs.Clause.{fault_of};

    ghost from_gives = { λ f e. e ≡ fault_of f };

    fn from(fault: VersionFault) -> ClauseFault {
        match fault {
            VersionFault::NotAVersion => ClauseFault::BadVersion,
            VersionFault::NumberTooLarge => ClauseFault::NumberTooLarge,
            VersionFault::NoMemory => ClauseFault::NoMemory,
        }
    }
}
