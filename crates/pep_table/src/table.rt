//! Tables: what is demanded of each package.

ghost use Rattle.std.specs.Prelude.{◌≡◌, ◌≢◌, ◌⊎◌, [], All, IfErr, IfOk, map};
ghost use Rattle.std.specs.Option.{option_map};
ghost use Rattle.pep_require.specs.Requirement.{HasDefinedMarker};
ghost use Rattle.pep_require.specs.View.{requirement_parts};
ghost use Rattle.demands.specs.Demand.{ApplyingDemands};
ghost use Rattle.demands.specs.Gathering.{IsFirstUndefined};
ghost use Rattle.demands.specs.Table.{HasExactPoints, IsTable, IsValidTable, entry_at};
ghost use Rattle.pep_table.specs.EntryRanges.{HasFewEntryRanges};

use crate::gathering::Gathering;
use demands::{Entry, Join, Kept, TableFault};
use pep_marker::{Environment, MarkerFault, Name};
use pep_require::Requirement;
use std::alloc::{AllocError, Global};
use std::marker::Model;

/// What is demanded of each package, by its name.
#[derive(Drop)]
pub struct Table {
    entries: Vec<(Name, Entry)>,
}

impl Model for Table {
    ghost use Rattle.demands.specs.Table.{IsValidTable, TableParts};

    ghost Value = { TableParts };

    ghost view = { λ t. t.entries.items };

    ghost invariant = { λ t. IsValidTable t.entries.items };
}

// The fault of the requirement with this number, whose marker is undefined where memory didn't
// run out.
fn fault_at(fault: MarkerFault, number: usize) -> TableFault
    ensures memory { fault ≡ MarkerFault.NoMemory → result ≡ TableFault.NoMemory }
    ensures undefined { fault ≢ MarkerFault.NoMemory → result ≡ TableFault.Undefined number }
{
    match fault {
        MarkerFault::NoMemory => TableFault::NoMemory,
        _ => TableFault::Undefined(number),
    }
}

impl Table {
    /// The table of nothing.
    pub fn empty(alloc: Global) -> Table
        ensures { result ≡ [] }
    {
        Table {
            entries: Vec::new(alloc),
        }
    }

    // The table of these names with their entries.
    pub(crate) fn of_entries(entries: Vec<(Name, Entry)>) -> Table
        requires { IsValidTable entries.items }
        ensures { result ≡ entries.items }
    {
        Table { entries }
    }

    /// The names in byte order, each with its entry.
    pub fn entries(&self) -> &[(Name, Entry)]
        ensures entries { result.now ≡ self.now }
        ensures valid { IsValidTable self.now }
    {
        self.entries.as_slice()
    }

    /// The same of a table that is used up.
    pub(crate) fn into_entries(self) -> Vec<(Name, Entry)>
        ensures { result.items ≡ self }
    {
        self.entries
    }

    /// The entry of the name, if there is one.
    pub fn get(&self, name: &Name) -> Option<&Entry>
        ensures { option_map (λ e. e.now) result ≡ entry_at self.now name.now }
    {
        match self.entries.binary_search_by(|entry| entry.0.cmp(name)) {
            Ok(i) => Some(&self.entries[i].1),
            Err(_) => None,
        }
    }

    /// The table of the requirements that apply in the environment. An entry has at most one range
    /// more than these have `!=` clauses on its name. The fault `Undefined`, 28,
    /// names the first requirement whose marker is undefined there, counted from 1; any other is
    /// `NoMemory`, 42.
    pub fn of(
        alloc: Global,
        requirements: &[Requirement],
        environment: &Environment,
    ) -> Result<Table, TableFault>
        ensures table { IfOk result (λ t. IsTable
            (ApplyingDemands environment.now (map requirement_parts requirements.now)) t) }
        ensures points { IfOk result (λ t. HasExactPoints
            (ApplyingDemands environment.now (map requirement_parts requirements.now)) t) }
        ensures few { IfOk result (λ t. HasFewEntryRanges environment.now
            (map requirement_parts requirements.now) t) }
        ensures defined { IfOk result (λ t. All (HasDefinedMarker environment.now)
            (map requirement_parts requirements.now)) }
        ensures refused { IfErr result (λ e. (e ≡ TableFault.NoMemory) ⊎ IsFirstUndefined
            environment.now (map requirement_parts requirements.now) e) }
    {
        let mut gathering = Gathering::new(alloc);
        for i in 0..requirements.len() {
            match gathering.take_applying(alloc, &requirements[i], environment) {
                Ok(more) => gathering = more,
                Err(fault) => return Err(fault_at(fault, i + 1)),
            }
        }
        gathering.finish(alloc)
    }

    /// An equal table in storage of its own. The only fault is `NoMemory`, 42.
    pub fn copied(&self, alloc: Global) -> Result<Table, TableFault>
        ensures same { IfOk result (λ t. t ≡ self.now) }
        ensures faults { IfErr result (λ e. e ≡ TableFault.NoMemory) }
    {
        let mut entries = Vec::with_capacity(alloc, self.entries.len())?;
        for (name, entry) in &self.entries {
            entries.push((name.kept(alloc)?, entry.copied(alloc)?))?;
        }
        Ok(Table { entries })
    }
}

impl Join for Table {
    ghost use Rattle.demands.specs.Join.{JoinsTables};
    ghost use Rattle.demands.specs.Table.{IsValidTable};
    ghost use Rattle.pep_table.specs.TableLaws.{IsJoin-JoinsTables};

    ghost is_value = { IsValidTable };

    ghost joins = { JoinsTables };

    ghost laws = { IsJoin-JoinsTables };

    fn joined(&self, alloc: Global, other: &Table) -> Result<Table, TableFault> {
        // Their clauses tell that both are valid.
        let _ = self.entries();
        let _ = other.entries();
        Gathering::new(alloc)
            .take_table(alloc, self.copied(alloc)?)?
            .take_table(alloc, other.copied(alloc)?)?
            .finish(alloc)
    }
}
