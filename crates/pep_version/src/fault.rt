use std::alloc::{AllocError, AllocFailed};
use thiserror::Error;

/// Why a text is refused as a version.
#[derive(Clone, Copy, Debug, PartialEq, Eq, Error)]
pub enum VersionFault {
    /// 1: the text is no spelling of a version.
    #[error("not a version")]
    NotAVersion,
    /// 2: the text would be a spelling, but for a number above 18446744073709551615.
    #[error("a number of the version is too large")]
    NumberTooLarge,
    /// 3: a growth was refused.
    #[error("out of memory")]
    NoMemory,
}

impl VersionFault {
    ghost use Rattle.std.specs.Prelude.{◌≡◌};
    ghost use Rattle.pep_version.specs.Code.{version_code};

    /// The code of the fault, see `docs/CODES.md`.
    pub fn code(self) -> u64
        ensures { result ≡ version_code self }
    {
        match self {
            VersionFault::NotAVersion => 1,
            VersionFault::NumberTooLarge => 2,
            VersionFault::NoMemory => 3,
        }
    }
}

impl From<AllocError> for VersionFault {
    ghost use Rattle.std.specs.Prelude.{◌≡◌};
    ghost use Rattle.pep_version.specs.declared.fault.VersionFault.TheVariants.{NoMemory};

    ghost from_gives = { λ _ e. e ≡ NoMemory };

    fn from(_: AllocError) -> VersionFault {
        VersionFault::NoMemory
    }
}

impl<T: Drop> From<AllocFailed<T>> for VersionFault {
    ghost use Rattle.std.specs.Prelude.{◌≡◌};
    ghost use Rattle.pep_version.specs.declared.fault.VersionFault.TheVariants.{NoMemory};

    ghost from_gives = { λ _ e. e ≡ NoMemory };

    fn from(_: AllocFailed<T>) -> VersionFault {
        VersionFault::NoMemory
    }
}
