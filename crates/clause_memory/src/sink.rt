//! What takes the parts of a line as what they demand.

ghost use Rattle.std.specs.Prelude.{◌≡◌, ◌⊎◌, IfErr, OnOk, Some, true};
ghost use Rattle.pep_marker.specs.Environment.{EnvironmentParts};
ghost use Rattle.pep_marker.specs.Judged.{TextSays};
ghost use Rattle.pep_require.specs.LineParts.{RefusesMarker, RefusesWritten};
ghost use Rattle.pep_require.specs.Reads.{ReadsUrl};
ghost use Rattle.demands.specs.Gathering.{bare_entry};
ghost use Rattle.clause_memory.specs.Way.Taken.{DemandsUrl};

use crate::memory::ClauseMemory;
use demands::LineDemands;
use pep_marker::{Environment, JudgedMarkers, MarkerFault, Name};
use pep_require::{LineSink, RequireFault, UrlText};
use std::alloc::{AllocError, Global};
use std::marker::Model;

/// What is kept of a line.
#[derive(Drop)]
pub struct LineSoFar {
    /// What its parts so far demand.
    pub demands: LineDemands,
    /// Whether its marker holds, if it has one: `None` where that is undefined.
    pub applies: Option<bool>,
}

impl LineSoFar {
    /// Nothing of a line.
    pub fn new(alloc: Global) -> LineSoFar
        ensures demands { result.demands ≡ bare_entry }
        ensures applies { result.applies ≡ Some true }
    {
        LineSoFar {
            demands: LineDemands::new(alloc),
            applies: Some(true),
        }
    }
}

/// Keeps what the parts of a line demand, and whether it applies in an environment. Clauses and markers are remembered.
/// Contracts see the environment alone: what is remembered saves time.
#[derive(Drop)]
pub struct DemandSink<'a> {
    alloc: Global,
    markers: JudgedMarkers<'a>,
    clauses: ClauseMemory,
}

impl<'a> Model for DemandSink<'a> {
    ghost use Rattle.pep_marker.specs.Environment.{EnvironmentParts};

    ghost Value = { EnvironmentParts };

    ghost view = { λ s. s.markers };
}

impl<'a> DemandSink<'a> {
    /// Nothing is remembered yet.
    pub fn new(alloc: Global, environment: &'a Environment) -> DemandSink<'a>
        ensures { result ≡ environment.now }
    {
        DemandSink {
            alloc,
            markers: JudgedMarkers::new(alloc, environment),
            clauses: ClauseMemory::new(alloc),
        }
    }

    /// The environment in which markers are judged.
    pub fn environment(&self) -> &'a Environment
        ensures { result.now ≡ self.now }
    {
        self.markers.environment()
    }
}

// Keeps the URL that is written so.
fn put_url(alloc: Global, demands: &mut LineDemands, written: &str) -> Result<(), RequireFault>
    ensures ok { OnOk result (DemandsUrl written.now demands.old demands.new) }
    ensures refused { IfErr result (λ e. (e ≡ RequireFault.NoMemory) ⊎ RefusesWritten written.now e) }
{
    if UrlText::has_common_form(written) {
        demands.put_url(written)?;
        return Ok(());
    }
    let url = UrlText::read(alloc, written)?;
    demands.put_url(url.text())?;
    Ok(())
}

impl LineSink for DemandSink<'_> {
    ghost use Rattle.clause_memory.specs.Way.Taken.{HoldsLine};

    type Line = LineSoFar;

    ghost holds = { λ e line p. HoldsLine e line p };

    #[inline(always)]
    fn begin(&mut self, line: &mut LineSoFar) {
        line.demands.clear();
        line.applies = Some(true);
    }

    fn extra(&mut self, line: &mut LineSoFar, name: Name) -> Result<(), AllocError> {
        line.demands.put_extra(&name)
    }

    #[inline(always)]
    fn clause<'b>(&mut self, line: &mut LineSoFar, text: &'b str) -> Result<&'b str, RequireFault> {
        self.clauses.take(self.alloc, text, &mut line.demands)
    }

    fn url(&mut self, line: &mut LineSoFar, written: &str) -> Result<(), RequireFault> {
        put_url(self.alloc, &mut line.demands, written)
    }

    fn marker(&mut self, line: &mut LineSoFar, text: &str) -> Result<(), RequireFault> {
        match self.markers.judge(self.alloc, text) {
            Ok(truth) => line.applies = Some(truth),
            Err(MarkerFault::Undefined) => line.applies = None,
            Err(fault) => return Err(RequireFault::from(fault)),
        }
        Ok(())
    }
}
