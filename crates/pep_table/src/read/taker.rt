//! What takes the entries of a table's lines, as they are read.

ghost use Rattle.std.specs.Prelude.{IfOk};

use demands::Entry;
use pep_marker::Name;
use std::alloc::AllocError;

/// Takes the entries of a table's lines, one after the other.
pub(crate) trait EntryTaker {
    ghost use Rattle.std.specs.Prelude.{List, ℕ};
    ghost use Rattle.demands.specs.Table.{EntryParts};

    /// What is taken so far.
    type Taken: Drop;

    /// What the entry of a name makes of what was taken before it.
    ghost takes: { Self → List ℕ → EntryParts → Self.Taken → Self.Taken → Type 0 };

    /// What was taken before, and the entry of this name.
    fn take(&self, taken: Self::Taken, name: Name, entry: Entry) -> Result<Self::Taken, AllocError>
        ensures { IfOk result (takes self.now name entry taken) };
}

/// Lists the entries with their names.
#[derive(Drop)]
pub(crate) struct Listing;

impl EntryTaker for Listing {
    ghost use Rattle.std.specs.Prelude.{◌≡◌, ◌++◌, ◌∷◌, []};

    type Taken = Vec<(Name, Entry)>;

    ghost takes = { λ _ name entry old new. new.items ≡ old.items ++ (name, entry) ∷ [] };

    fn take(
        &self,
        taken: Vec<(Name, Entry)>,
        name: Name,
        entry: Entry,
    ) -> Result<Vec<(Name, Entry)>, AllocError> {
        let mut entries = taken;
        entries.push((name, entry))?;
        Ok(entries)
    }
}

/// Keeps nothing of the entries: they are read, and refused, alone.
#[derive(Drop)]
pub(crate) struct Reading;

impl EntryTaker for Reading {
    ghost use Rattle.std.specs.Prelude.{⊤};

    type Taken = ();

    ghost takes = { λ _ _ _ _ _. ⊤ };

    fn take(&self, _taken: (), _name: Name, _entry: Entry) -> Result<(), AllocError> {
        Ok(())
    }
}
