//! What requirements and tables demand, gathered one by one.

ghost use Rattle.std.specs.Prelude.{◌≡◌, ◌⊎◌, ◌++◌, ◌∷◌, [], IfErr, IfOk, OnOk, string_bytes};
ghost use Rattle.std.specs.Option.{option_copied};
ghost use Rattle.pep_require.specs.Requirement.{HasUndefinedMarker, RequirementParts};
ghost use Rattle.pep_require.specs.View.{requirement_parts};
ghost use Rattle.demands.specs.Gathering.{TakesApplying, TakesRequirement};
ghost use Rattle.demands.specs.Join.{JoinsTables};
ghost use Rattle.demands.specs.Way.LineDemands.{DemandsEntry};
ghost use Rattle.demands.specs.Table.{IsValidEntry, IsValidTable, TableParts};
ghost use Rattle.demands.specs.declared.verdict.Verdict.{Verdict};
ghost use Rattle.pep_table.specs.NamedEntry.{wanted_part};
ghost use Rattle.pep_table.specs.Refused.{IsRefusedAsTable};
ghost use Rattle.pep_table.specs.Way.Gathered.{log_table};
ghost use Rattle.pep_table.specs.TableText.{IsReadAs, IsTableText, Shows, entry_text};

use crate::gathered::{Gathered, GatheredEntries};
use crate::printout::{Printout, Row, Rows};
use crate::read::{EntryTaker, read_text};
use crate::table::Table;
use crate::text::header_of;
use demands::{Entry, LineDemands, PackageDemands, TableFault};
use pep_marker::{Environment, MarkerFault, Name, WrittenName};
use pep_require::Requirement;
use std::alloc::{AllocError, Global};
use std::marker::Model;

/// What the requirements and tables so far demand. Clauses see the table of it.
#[derive(Drop)]
pub struct Gathering {
    // Nothing is demanded, where it is `None`.
    gathered: Option<Box<Gathered>>,
}

impl Model for Gathering {
    ghost use Rattle.std.specs.Prelude.{option_map};
    ghost use Rattle.demands.specs.Table.{IsValidTable, TableParts};
    ghost use Rattle.pep_table.specs.Way.Gathered.{gathered_table};

    ghost Value = { TableParts };

    ghost view = { λ g. gathered_table (option_map (λ b. b.value) g.gathered) };

    ghost invariant = { λ g. IsValidTable (gathered_table (option_map (λ b. b.value) g.gathered)) };
}

// Appends the lines of what is gathered of a name.
fn push_gathered(
    alloc: Global,
    text: &mut String,
    name: Name,
    gathered: PackageDemands,
) -> Result<(), AllocError>
    requires { IsValidEntry gathered }
    ensures { OnOk result ((verdict : Verdict) × Shows gathered verdict
        × (string_bytes text.new ≡ string_bytes text.old ++ entry_text name verdict gathered)) }
{
    let row = Row::of(alloc, name, gathered)?;
    row.put_text(text)
}

// Joins what is demanded with the entries of a table: with that of the wanted name alone, where one is wanted.
#[derive(Drop)]
struct Joining<'a> {
    alloc: Global,
    wanted: Option<&'a Name>,
}

impl EntryTaker for Joining<'_> {
    ghost use Rattle.std.specs.Prelude.{◌∷◌, []};
    ghost use Rattle.std.specs.Option.{option_copied};
    ghost use Rattle.demands.specs.Join.{JoinsTables};
    ghost use Rattle.pep_table.specs.NamedEntry.{wanted_part};

    type Taken = Gathering;

    ghost takes = { λ j name entry old new.
        JoinsTables old (wanted_part (option_copied j.wanted) ((name, entry) ∷ [])) new };

    fn take(&self, taken: Gathering, name: Name, entry: Entry) -> Result<Gathering, AllocError> {
        // Its invariant tells that the table is valid.
        let _ = &taken.gathered;
        match self.wanted {
            Some(wanted) if name != *wanted => Ok(taken),
            _ => taken.join(self.alloc, name, entry),
        }
    }
}

impl Gathering {
    /// Nothing is demanded.
    pub fn new(alloc: Global) -> Gathering
        ensures { result ≡ [] }
    {
        // Memory is asked for when something is demanded.
        let _ = alloc;
        Gathering { gathered: None }
    }

    // What is demanded so far, to be changed.
    fn opened(self, alloc: Global) -> Result<Box<Gathered>, AllocError>
        ensures { IfOk result (λ b. log_table b.value ≡ self) }
    {
        match self.gathered {
            Some(gathered) => Ok(gathered),
            None => Ok(Box::new(alloc, Gathered::new(alloc))?),
        }
    }

    // What is demanded so far and, of the package with this name, by an entry.
    fn join(self, alloc: Global, name: Name, entry: Entry) -> Result<Gathering, AllocError>
        ensures { IfOk result (JoinsTables self ((name, entry) ∷ [])) }
    {
        let mut gathered = self.opened(alloc)?;
        gathered.join(alloc, name, entry)?;
        Ok(Gathering {
            gathered: Some(gathered),
        })
    }

    // The names in order, with what is demanded of them.
    fn into_entries(self, alloc: Global) -> Result<GatheredEntries, AllocError>
        ensures same { IfOk result (λ entries. entries ≡ self) }
        ensures valid { IsValidTable self }
    {
        match self.gathered {
            Some(gathered) => Box::into_inner(gathered).into_entries(alloc),
            None => Gathered::new(alloc).into_entries(alloc),
        }
    }

    /// What is demanded so far and by the requirement, whatever its marker. The only fault is
    /// `NoMemory`, 42.
    pub fn take(self, alloc: Global, requirement: &Requirement) -> Result<Gathering, TableFault>
        ensures taken { IfOk result (λ new.
            TakesRequirement self (requirement_parts requirement.now) new) }
        ensures faults { IfErr result (λ e. e ≡ TableFault.NoMemory) }
    {
        let name = requirement.name().written();
        let mut line = LineDemands::of(alloc, requirement)?;
        Ok(self.take_line(alloc, &name, &mut line)?)
    }

    /// What is demanded so far and, if it applies in the environment, by the requirement. A marker
    /// that is undefined there is `Undefined`, 28; any other fault is `NoMemory`, 29.
    pub fn take_applying(
        self,
        alloc: Global,
        requirement: &Requirement,
        environment: &Environment,
    ) -> Result<Gathering, MarkerFault>
        ensures taken { IfOk result (λ new. TakesApplying environment.now self
            (requirement_parts requirement.now ∷ []) new) }
        ensures faults { IfErr result (λ e. (e ≡ MarkerFault.NoMemory)
            ⊎ ((e ≡ MarkerFault.Undefined)
            × HasUndefinedMarker environment.now (requirement_parts requirement.now))) }
    {
        if !requirement.applies(alloc, environment)? {
            return Ok(self);
        }
        match self.take(alloc, requirement) {
            Ok(new) => Ok(new),
            Err(_) => Err(MarkerFault::NoMemory),
        }
    }

    /// What is demanded so far and by the table, whose names and ranges are moved. The only fault
    /// is `NoMemory`, 42.
    pub fn take_table(self, alloc: Global, table: Table) -> Result<Gathering, TableFault>
        ensures joined { IfOk result (λ new. JoinsTables self table new) }
        ensures valid { IsValidTable table }
        ensures faults { IfErr result (λ e. e ≡ TableFault.NoMemory) }
    {
        // A clause and an invariant tell that both tables are valid.
        let _ = table.entries();
        let _ = &self.gathered;
        let mut joined = self;
        for (name, entry) in table.into_entries() {
            joined = joined.join(alloc, name, entry)?;
        }
        Ok(joined)
    }

    /// What is demanded so far and by the table whose text this is in the environment, or whose lines, as by
    /// [`Table::read`]: of the wanted name alone, where there is one. Each entry is taken as it is read, so the table
    /// takes no memory. The faults are those of `Table::read`. Public for the crates above alone.
    pub fn take_text(
        self,
        alloc: Global,
        text: &str,
        environment: &Environment,
        wanted: Option<&Name>,
    ) -> Result<Gathering, TableFault>
        ensures joined { IfOk result (λ new. (t : TableParts) × IsValidTable t
            × IsReadAs environment.now t text.now
            × JoinsTables self (wanted_part (option_copied wanted.entry) t) new) }
        ensures refused { IfErr result (λ e. (e ≡ TableFault.NoMemory)
            ⊎ IsRefusedAsTable environment.now text.now e) }
    {
        // Its invariant tells that the table is valid.
        let _ = &self.gathered;
        let joining = Joining { alloc, wanted };
        read_text(alloc, text, environment, &joining, self)
    }

    /// What is demanded so far, and of one package by a line, whose sets are moved: the line may be anything until it
    /// is cleared.
    #[inline(always)]
    pub fn take_line(
        self,
        alloc: Global,
        name: &WrittenName,
        line: &mut LineDemands,
    ) -> Result<Gathering, AllocError>
        ensures joined { IfOk result (λ new. JoinsTables self ((name.now, line.old) ∷ []) new) }
        ensures taken { IfOk result (λ new. (r : RequirementParts) → r.name ≡ name.now
            → DemandsEntry r line.old → TakesRequirement self r new) }
    {
        // Its clause tells that the name is in its normalized form.
        let _ = name.text();
        let mut gathered = self.opened(alloc)?;
        gathered.take_line(alloc, name, line)?;
        Ok(Gathering {
            gathered: Some(gathered),
        })
    }

    /// The table of what is demanded. The only fault is `NoMemory`, 42.
    pub fn finish(self, alloc: Global) -> Result<Table, TableFault>
        ensures same { IfOk result (λ table. table ≡ self) }
        ensures faults { IfErr result (λ e. e ≡ TableFault.NoMemory) }
    {
        let left = self.into_entries(alloc)?;
        let mut entries = Vec::with_capacity(alloc, left.len())?;
        for (name, gathered) in left {
            entries.push((name, gathered.entry(alloc)?))?;
        }
        Ok(Table::of_entries(entries))
    }

    /// The text of the table of what is demanded in the environment: that of [`Table::text`], without
    /// the memory that the table takes. The only fault is `NoMemory`, 42.
    pub fn text(self, alloc: Global, environment: &Environment) -> Result<String, TableFault>
        ensures text { IfOk result (λ text. IsTableText environment.now self (string_bytes text)) }
        ensures faults { IfErr result (λ e. e ≡ TableFault.NoMemory) }
    {
        let left = self.into_entries(alloc)?;
        let mut text = header_of(alloc, environment)?;
        for (name, gathered) in left {
            push_gathered(alloc, &mut text, name, gathered)?;
        }
        Ok(text)
    }

    /// The same text, yet to be written: what wants memory for it is done, so that no fault is left but those of where
    /// it goes. The only fault is `NoMemory`, 42.
    pub fn printout(self, alloc: Global, environment: &Environment) -> Result<Printout, TableFault>
        ensures text { IfOk result (IsTableText environment.now self) }
        ensures faults { IfErr result (λ e. e ≡ TableFault.NoMemory) }
    {
        let left = self.into_entries(alloc)?;
        let header = header_of(alloc, environment)?;
        let mut rows = Rows::new(alloc)?;
        for (name, gathered) in left {
            let row = Row::of(alloc, name, gathered)?;
            rows.put(alloc, row)?;
        }
        Ok(Printout::of_rows(header, rows))
    }
}
