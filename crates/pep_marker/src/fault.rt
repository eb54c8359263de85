use crate::environment::Variable;
use std::alloc::{AllocError, AllocFailed};
use thiserror::Error;

/// Why a name, an environment or a marker is refused.
#[derive(Clone, Copy, Debug, PartialEq, Eq, Error)]
pub enum MarkerFault {
    /// 21: the text is no name.
    #[error("not a name")]
    BadName,
    /// 22: there is no such variable.
    #[error("an unknown variable")]
    UnknownVariable,
    /// 23: a variable has no value.
    #[error("the variable `{0}` is missing")]
    MissingVariable(Variable),
    /// 24: a variable has two values.
    #[error("a variable is given twice")]
    RepeatedVariable,
    /// 25: a value holds a control character.
    #[error("a value with a control character")]
    BadValue,
    /// 26: the text is no marker.
    #[error("not a marker")]
    BadMarker,
    /// 27: more than 64 open parentheses or 1,024 comparisons.
    #[error("a marker that is too deep or too long")]
    TooDeep,
    /// 28: a comparison has no meaning.
    #[error("an undefined comparison")]
    Undefined,
    /// 29: a growth was refused.
    #[error("out of memory")]
    NoMemory,
}

impl MarkerFault {
    ghost use Rattle.std.specs.Prelude.{◌≡◌};
    ghost use Rattle.pep_marker.specs.Code.{marker_code};

    /// The code of the fault, see `docs/CODES.md`.
    pub fn code(self) -> u64
        ensures { result ≡ marker_code self }
    {
        match self {
            MarkerFault::BadName => 21,
            MarkerFault::UnknownVariable => 22,
            MarkerFault::MissingVariable(_) => 23,
            MarkerFault::RepeatedVariable => 24,
            MarkerFault::BadValue => 25,
            MarkerFault::BadMarker => 26,
            MarkerFault::TooDeep => 27,
            MarkerFault::Undefined => 28,
            MarkerFault::NoMemory => 29,
        }
    }
}

// Written out, since thiserror's `From` doesn't say which fault it gives.
impl From<AllocError> for MarkerFault {
    ghost use Rattle.std.specs.Prelude.{◌≡◌};
    ghost use Rattle.pep_marker.specs.declared.fault.MarkerFault.TheVariants.{NoMemory};

    ghost from_gives = { λ _ e. e ≡ NoMemory };

    fn from(_: AllocError) -> MarkerFault {
        MarkerFault::NoMemory
    }
}

impl<T: Drop> From<AllocFailed<T>> for MarkerFault {
    ghost use Rattle.std.specs.Prelude.{◌≡◌};
    ghost use Rattle.pep_marker.specs.declared.fault.MarkerFault.TheVariants.{NoMemory};

    ghost from_gives = { λ _ e. e ≡ NoMemory };

    fn from(_: AllocFailed<T>) -> MarkerFault {
        MarkerFault::NoMemory
    }
}
