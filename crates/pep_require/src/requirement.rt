//! Requirements (PEP 508): a name, extras, a target and a marker.

ghost use Rattle.std.specs.Prelude.{◌≡◌, ◌⊎◌, IfErr, IfOk, None, Ok, Some, true};
ghost use Rattle.std.specs.Option.{option_map};
ghost use Rattle.pep_marker.specs.View.{marker_parts};
ghost use Rattle.pep_require.specs.Requirement.{HasUndefinedMarker, MarkerSays};
ghost use Rattle.pep_require.specs.View.{requirement_parts, target_parts};

use crate::url_text::UrlText;
use pep_marker::{Environment, Marker, MarkerFault, Name};
use specifiers::Clause;
use std::alloc::Global;

/// What a requirement asks of the package: clauses that a version has to meet, and perhaps none, or
/// the URL to take it from.
#[derive(Drop)]
pub enum Target {
    Bounds(Vec<Clause>),
    Direct(UrlText),
}

/// A requirement line (PEP 508, "Grammar").
#[derive(Drop)]
pub struct Requirement {
    pub(crate) name: Name,
    pub(crate) extras: Vec<Name>,
    pub(crate) target: Target,
    pub(crate) marker: Option<Marker>,
}

impl Requirement {
    /// The name of the package (PEP 508, "Names").
    pub fn name(&self) -> &Name
        ensures { result.now ≡ (requirement_parts self.now).name }
    {
        &self.name
    }

    /// The extras, each once, in the order of their bytes (PEP 508, "Extras").
    pub fn extras(&self) -> &[Name]
        ensures { result.now ≡ (requirement_parts self.now).extras }
    {
        self.extras.as_slice()
    }

    /// The clauses or the URL.
    pub fn target(&self) -> &Target
        ensures { target_parts result.now ≡ (requirement_parts self.now).target }
    {
        &self.target
    }

    /// The marker, if there is one (PEP 508, "Environment Markers").
    pub fn marker(&self) -> Option<&Marker>
        ensures { option_map (λ m. marker_parts m.now) result
            ≡ (requirement_parts self.now).marker }
    {
        self.marker.as_ref()
    }

    /// Whether the requirement applies in the environment: where it has no marker, or the marker is
    /// true there (PEP 508, "Environment Markers"). A marker that is undefined there is
    /// `Undefined`, 28. Memory may run out, 29: see [`Marker::holds`].
    pub fn applies(&self, alloc: Global, environment: &Environment) -> Result<bool, MarkerFault>
        ensures value { IfOk result (λ b.
            MarkerSays environment.now (requirement_parts self.now).marker (Some b)) }
        ensures always { (requirement_parts self.now).marker ≡ None → result ≡ Ok true }
        ensures faults { IfErr result (λ e. (e ≡ MarkerFault.NoMemory)
            ⊎ ((e ≡ MarkerFault.Undefined)
            × HasUndefinedMarker environment.now (requirement_parts self.now))) }
    {
        match &self.marker {
            Some(marker) => marker.holds(alloc, environment),
            None => Ok(true),
        }
    }
}
