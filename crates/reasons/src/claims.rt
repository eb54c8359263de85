//! Claims: what stands in one place of an input and demands something of one package.

ghost use Rattle.std.specs.Prelude.{◌≡◌};
ghost use Rattle.reasons.specs.Claims.{name_of};
ghost use Rattle.reasons.specs.View.{claim_parts};

use demands::{Entry, Verdict};
use pep_marker::Name;
use pep_require::Requirement;

/// What stands in one place of an input and demands something of one package.
#[derive(Drop)]
pub enum Claim {
    /// A requirement, of a list or of a project file (PEP 508, "Grammar").
    Required(Requirement),
    /// The entry of a name in a table.
    Entered(Name, Entry),
}

impl Claim {
    /// The name of the package.
    pub fn name(&self) -> &Name
        ensures { result.now ≡ name_of (claim_parts self.now) }
    {
        match self {
            Claim::Required(requirement) => requirement.name(),
            Claim::Entered(name, _) => name,
        }
    }
}

/// A claim at its place.
#[derive(Drop)]
pub struct PlacedClaim {
    /// The number of the input, counted from 1.
    pub input: u64,
    /// In it the number of the line, of an entry its first, or of a project file's text, from 1.
    pub number: u64,
    pub claim: Claim,
}

/// Why a package has its verdict.
#[derive(Drop)]
pub struct Reason {
    pub name: Name,
    pub verdict: Verdict,
    /// All claims on the package that apply, in the order of the inputs.
    pub claims: Vec<PlacedClaim>,
    /// Which of them clash, by their indices: none where the verdict is open.
    pub clash: Vec<usize>,
}
