//! A memory of the markers that were judged in an environment.

ghost use Rattle.std.specs.Prelude.{◌≡◌, IfErr, IfOk, Some};
ghost use Rattle.pep_marker.specs.Judged.{RefusesText, TextSays};

use crate::chains::made_of;
use crate::environment::Environment;
use crate::fault::MarkerFault;
use std::alloc::{AllocError, Global};
use std::marker::Model;
use text_memory::{OfText, TextMemory};

// How many markers are remembered at most.
const MOST: usize = 4_096;
// How many bytes a text may have that is remembered.
const LONGEST: usize = 256;

/// The text of a marker, and whether it is true.
#[derive(Drop)]
struct Judged {
    text: String,
    truth: bool,
}

impl OfText for Judged {
    ghost use Rattle.std.specs.Prelude.{string_bytes};

    ghost text = { λ j. string_bytes j.text };

    fn text(&self) -> &[u8] {
        self.text.as_bytes()
    }
}

/// Judges markers in one environment, and remembers some of them by their texts. Clauses see the
/// environment.
#[derive(Drop)]
pub struct JudgedMarkers<'a> {
    environment: &'a Environment,
    memory: TextMemory<Judged>,
}

impl<'a> Model for JudgedMarkers<'a> {
    ghost use Rattle.std.specs.Prelude.{All};
    ghost use Rattle.pep_marker.specs.Environment.{EnvironmentParts};
    ghost use Rattle.pep_marker.specs.Judged.{IsRemembered};

    ghost Value = { EnvironmentParts };

    ghost view = { λ j. j.environment.now };

    ghost invariant = { λ j. All (IsRemembered j.environment.now) j.memory };
}

impl<'a> JudgedMarkers<'a> {
    /// No marker is judged yet in the environment.
    pub fn new(alloc: Global, environment: &'a Environment) -> JudgedMarkers<'a>
        ensures { result ≡ environment.now }
    {
        JudgedMarkers {
            environment,
            memory: TextMemory::new(alloc, MOST),
        }
    }

    /// The environment in which markers are judged.
    pub fn environment(&self) -> &'a Environment
        ensures { result.now ≡ self.now }
    {
        self.environment
    }

    /// Whether the text is a marker that is true in the environment (PEP 508, "Environment
    /// Markers"): what [`Marker::read`](crate::Marker::read) and
    /// [`Marker::holds`](crate::Marker::holds) say, found out once for a text that is remembered.
    ///
    /// A text that is no marker is `BadMarker`, 26, or `TooDeep`, 27; a marker that is undefined
    /// there is `Undefined`, 28. Memory may run out, 29.
    pub fn judge(&mut self, alloc: Global, text: &str) -> Result<bool, MarkerFault>
        ensures environment { self.new ≡ self.old }
        ensures value { IfOk result (λ b. TextSays self.old text.now (Some b)) }
        ensures faults { IfErr result (RefusesText self.old text.now) }
    {
        if text.len() > LONGEST {
            return truth_of(alloc, self.environment, text);
        }
        if let Some(judged) = self.memory.find(text.as_bytes()) {
            return Ok(judged.truth);
        }
        let truth = truth_of(alloc, self.environment, text)?;
        self.remember(alloc, text, truth)?;
        Ok(truth)
    }

    // Remembers the text, and whether it is true.
    fn remember(&mut self, alloc: Global, text: &str, truth: bool) -> Result<(), AllocError>
        requires { TextSays self.old text.now (Some truth) }
        ensures { self.new ≡ self.old }
    {
        let text = String::from_str(alloc, text)?;
        self.memory.put(alloc, Judged { text, truth })
    }
}

// The truth of the marker that the text is, of which no tree is made.
fn truth_of(alloc: Global, environment: &Environment, text: &str) -> Result<bool, MarkerFault>
    ensures value { IfOk result (λ b. TextSays environment.now text.now (Some b)) }
    ensures faults { IfErr result (RefusesText environment.now text.now) }
{
    match made_of(alloc, environment, text)? {
        Some(truth) => Ok(truth),
        None => Err(MarkerFault::Undefined),
    }
}
