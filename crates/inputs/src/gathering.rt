//! What inputs demand in an environment.

ghost use Rattle.std.specs.Prelude.{
  ◌≡◌,
  ◌&&◌,
  [],
  All,
  IfErr,
  IfOk,
  List,
  None,
  Some,
  ℕ,
  option_copied,
};
ghost use Rattle.pep_marker.specs.Environment.{EnvironmentParts};
ghost use Rattle.pep_require.specs.Way.Sink.{IsWalked};
ghost use Rattle.demands.specs.Table.{HasExactPoints, IsTable};
ghost use Rattle.documents.specs.Texts.{lent_texts};
ghost use Rattle.inputs.specs.Way.GatheredLines.{
  GathersBytes,
  GathersInputs,
  RefusesAsInput,
  RefusesTexts,
};
ghost use Rattle.inputs.specs.Gathered.{Gathered, IsAccepted};
ghost use Rattle.inputs.specs.Way.LineReading.{TakesInTurn};
ghost use Rattle.inputs.specs.Refusal.{RefusesInputs};
ghost use Rattle.clause_memory.specs.Way.Taken.{HoldsLine};
ghost use Rattle.inputs.specs.Way.TakenTexts.{GathersText, RefusesTextIn};
ghost use Rattle.inputs.specs.Way.Wanted.{
  Wanted,
  wanted_name,
  wants,
};

use crate::input::{Input, Kind};
use crate::lines::{Taker, take_lines};
use crate::table_file::take_table;
use clause_memory::{DemandSink, LineSoFar};
use documents::ProjectFile;
use faults::{Cause, Fault, LineFault, Place};
use pep_marker::{Environment, Name, WrittenName};
use pep_require::walk;
use pep_table::Gathering;
use std::alloc::{AllocError, Global};
use std::marker::Model;

// Where what there is of a line is kept. Contracts see nothing of it: each line begins it anew.
#[derive(Drop)]
struct LineRoom {
    line: LineSoFar,
}

impl Model for LineRoom {
    ghost use Rattle.std.specs.Prelude.{⊤};

    ghost Value = { ⊤ };

    ghost view = { λ r. tt };
}

// Takes each text as a requirement, whose demands count if it applies in the environment of the sink, and, where
// one name alone is wanted, is on that.
#[derive(Drop)]
pub(crate) struct DemandTaker<'a> {
    pub(crate) alloc: Global,
    pub(crate) sink: DemandSink<'a>,
    pub(crate) wanted: Option<&'a Name>,
    room: LineRoom,
}

impl Taker for DemandTaker<'_> {
    ghost use Rattle.inputs.specs.Way.TakenTexts.{GathersText, RefusesTextIn};
    ghost use Rattle.inputs.specs.Way.Wanted.{wanted_name};

    type Taken = Gathering;

    ghost takes = { λ j text old new. GathersText j.sink (wanted_name j.wanted) text old new };

    ghost refuses = { λ j text fault. RefusesTextIn j.sink text fault };

    #[inline(always)]
    fn take(&mut self, gathering: Gathering, text: &str) -> Result<Gathering, LineFault> {
        let name = walk(self.alloc, &mut self.sink, &mut self.room.line, text)?;
        take_walked(
            self.alloc,
            gathering,
            &name,
            &mut self.room.line,
            self.wanted,
        )
    }
}

// Whether what is demanded of the package with this name counts.
fn is_wanted(alloc: Global, wanted: Option<&Name>, name: &WrittenName) -> Result<bool, AllocError>
    ensures { IfOk result (λ b. b ≡ wants (wanted_name wanted.entry) name.now) }
{
    let Some(wanted) = wanted else {
        return Ok(true);
    };
    Ok(name.kept(alloc)? == *wanted)
}

// Whether a line with this name counts.
fn counts(
    alloc: Global,
    applies: bool,
    wanted: Option<&Name>,
    name: &WrittenName,
) -> Result<bool, AllocError>
    ensures { IfOk result (λ b. b ≡ (applies && wants (wanted_name wanted.entry) name.now)) }
{
    if !applies {
        return Ok(false);
    }
    is_wanted(alloc, wanted, name)
}

// What is demanded so far and by a line that is walked, and begins with this name.
#[inline(always)]
fn take_walked(
    alloc: Global,
    gathering: Gathering,
    name: &WrittenName,
    line: &mut LineSoFar,
    wanted: Option<&Name>,
) -> Result<Gathering, LineFault>
    ensures ok { IfOk result (λ new. (e : EnvironmentParts) (text : List ℕ)
        → IsWalked text name.now (HoldsLine e line.old)
        → GathersText e (wanted_name wanted.entry) text gathering new) }
    ensures refused { IfErr result (λ fault. (e : EnvironmentParts) (text : List ℕ)
        → IsWalked text name.now (HoldsLine e line.old) → RefusesTextIn e text fault) }
{
    let Some(applies) = line.applies else {
        return Err(LineFault::Undefined);
    };
    let is_counted = counts(alloc, applies, wanted, name)?;
    if !is_counted {
        return Ok(gathering);
    }
    Ok(gathering.take_line(alloc, name, &mut line.demands)?)
}

impl<'a> DemandTaker<'a> {
    // No line is taken yet.
    pub(crate) fn new(
        alloc: Global,
        environment: &'a Environment,
        wanted: Option<&'a Name>,
    ) -> DemandTaker<'a>
        ensures environment { result.sink ≡ environment.now }
        ensures wanted { wanted_name result.wanted ≡ wanted_name wanted.entry }
    {
        DemandTaker {
            alloc,
            sink: DemandSink::new(alloc, environment),
            wanted,
            room: LineRoom {
                line: LineSoFar::new(alloc),
            },
        }
    }

    // What is demanded so far and by a list.
    fn take_list(&mut self, gathering: Gathering, bytes: &[u8]) -> Result<Gathering, Cause>
        ensures same { self.new ≡ self.old }
        ensures ok { IfOk result (GathersBytes self.old.sink (wanted_name self.old.wanted)
            Kind.List None bytes.now gathering) }
        ensures refused { IfErr result
            (RefusesAsInput self.old.sink Kind.List None bytes.now) }
    {
        let alloc = self.alloc;
        take_lines(alloc, self, gathering, bytes)
    }

    // What is demanded so far and by the texts of a project file. Behind an undefined marker the others are read too,
    // since one that is no requirement is told first. What they demand is dropped.
    fn take_texts(&mut self, gathering: Gathering, texts: &[&str]) -> Result<Gathering, Cause>
        ensures same { self.new ≡ self.old }
        ensures ok { IfOk result (TakesInTurn (GathersText self.old.sink
            (wanted_name self.old.wanted)) (lent_texts texts.now) gathering) }
        ensures refused { IfErr result (RefusesTexts self.old.sink (lent_texts texts.now)) }
    {
        let mut gathering = gathering;
        let mut number: u64 = 0;
        let mut undefined = None;
        for text in texts {
            number += 1;
            gathering = match self.take(gathering, text) {
                Ok(new) => new,
                Err(fault) => match fault {
                    LineFault::Undefined => {
                        undefined = undefined.or(Some(number));
                        Gathering::new(self.alloc)
                    }
                    _ => return Err(Cause::on_line(number, fault)),
                },
            };
        }
        match undefined {
            Some(number) => Err(Cause::on_line(number, LineFault::Undefined)),
            None => Ok(gathering),
        }
    }

    // What is demanded so far and by a project file.
    fn take_project(
        &mut self,
        gathering: Gathering,
        bytes: &[u8],
        group: Option<&Name>,
    ) -> Result<Gathering, Cause>
        ensures same { self.new ≡ self.old }
        ensures ok { IfOk result (GathersBytes self.old.sink (wanted_name self.old.wanted)
            Kind.Project (option_copied group.entry) bytes.now gathering) }
        ensures refused { IfErr result
            (RefusesAsInput self.old.sink Kind.Project (option_copied group.entry) bytes.now) }
    {
        let extra = self.sink.environment().value("extra").unwrap_or("");
        let file = ProjectFile::read(self.alloc, bytes)?;
        let texts = file.texts(self.alloc, extra, group)?;
        self.take_texts(gathering, texts.as_slice())
    }

    // What is demanded so far and by a table file.
    fn take_table(&self, gathering: Gathering, bytes: &[u8]) -> Result<Gathering, Cause>
        ensures ok { IfOk result (GathersBytes self.now.sink (wanted_name self.now.wanted)
            Kind.Table None bytes.now gathering) }
        ensures refused { IfErr result
            (RefusesAsInput self.now.sink Kind.Table None bytes.now) }
    {
        let environment = self.sink.environment();
        take_table(self.alloc, gathering, bytes, environment, self.wanted)
    }

    // What is demanded so far and by an input.
    fn take_input(&mut self, gathering: Gathering, input: &Input) -> Result<Gathering, Cause>
        ensures same { self.new ≡ self.old }
        ensures ok { IfOk result (GathersBytes self.old.sink (wanted_name self.old.wanted)
            input.now.kind input.now.group input.now.bytes.items gathering) }
        ensures refused { IfErr result (RefusesAsInput self.old.sink input.now.kind
            input.now.group input.now.bytes.items) }
    {
        let bytes = input.bytes.as_slice();
        match input.kind {
            Kind::List => self.take_list(gathering, bytes),
            Kind::Project => self.take_project(gathering, bytes, input.group.as_ref()),
            Kind::Table => self.take_table(gathering, bytes),
        }
    }
}

// What the inputs demand, one after the other: of the wanted name alone, where there is one.
fn take_inputs(
    alloc: Global,
    inputs: &[Input],
    environment: &Environment,
    wanted: Option<&Name>,
) -> Result<Gathering, Fault>
    ensures ok { IfOk result
        (GathersInputs environment.now (wanted_name wanted.entry) inputs.now []) }
    ensures refused { IfErr result (RefusesInputs environment.now inputs.now) }
{
    let mut taker = DemandTaker::new(alloc, environment, wanted);
    let mut gathering = Gathering::new(alloc);
    let mut number: u64 = 0;
    for input in inputs {
        number += 1;
        gathering = match taker.take_input(gathering, input) {
            Ok(new) => new,
            Err(cause) => return Err(Fault::of(Place::Input(number), cause)),
        };
    }
    Ok(gathering)
}

/// What all inputs demand in the environment, whatever the order, grouping and repeats of the
/// inputs, and of the lines of lists: the table of the demands of those requirements that apply
/// there (PEP 508, "Environment Markers"), and of printed tables. An input is a list, with a
/// requirement on each line, a project file, of which the extra is that of the environment and the
/// group, if there is one, that of the input, or a table file: see
/// [`list_of`](crate::list_of), [`project_of`](crate::project_of) and
/// [`Table::read`](pep_table::Table::read).
///
/// An input that isn't accepted is refused, with its number, counted from 1, as the place: with
/// the fault that `list_of` or `project_of` has, or with 57 and 28 for a requirement whose marker
/// is undefined in the environment; a table file with 56 where it has more than 16,777,216 bytes,
/// 51 where it isn't UTF-8, or 57 and 43 or 41 for the line that `Table::read` tells. The first
/// fault of the first such input is answered: each line of a list is read, judged and taken before
/// the next one, and of a project file all texts are read before an undefined marker is told. Want
/// of memory is 60, without a place.
pub fn gather(
    alloc: Global,
    inputs: &[Input],
    environment: &Environment,
) -> Result<Gathering, Fault>
    ensures accepted { IfOk result (λ gathering. All (IsAccepted environment.now) inputs.now) }
    ensures table { IfOk result (IsTable (Gathered environment.now inputs.now)) }
    ensures points { IfOk result (HasExactPoints (Gathered environment.now inputs.now)) }
    ensures refused { IfErr result (RefusesInputs environment.now inputs.now) }
{
    take_inputs(alloc, inputs, environment, None)
}

/// What all inputs demand of the package with this name alone. All of them are read, judged and
/// refused as by [`gather`]; what they demand of others isn't kept.
pub(crate) fn gather_named(
    alloc: Global,
    inputs: &[Input],
    environment: &Environment,
    name: &Name,
) -> Result<Gathering, Fault>
    ensures accepted { IfOk result (λ gathering. All (IsAccepted environment.now) inputs.now) }
    ensures table { IfOk result
        (IsTable (Wanted (Some name.now) (Gathered environment.now inputs.now))) }
    ensures refused { IfErr result (RefusesInputs environment.now inputs.now) }
{
    take_inputs(alloc, inputs, environment, Some(name))
}
