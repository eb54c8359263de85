// What a table says of a package, and of a version of it.

ghost use Rattle.std.specs.Prelude.{◌≡◌, [], None, Ok, Some, IfErr, IfOk, IfSome, IsOk, IsSome};
ghost use Rattle.demands.specs.Answer.{IsAnswer};
ghost use Rattle.demands.specs.Table.{EntryParts, TableDemands, entry_at};
ghost use Rattle.demands.specs.Verdict.{IsEntryVerdict, IsVerdict};

use crate::table::Table;
use demands::{Answer, TableFault, Verdict, is_wanted};
use pep_marker::Name;
use pep_version::Version;
use std::alloc::Global;

impl Table {
    /// Whether the package can be had: none where nothing is demanded of it, else the verdict of its
    /// entry. `Nothing` means that no version whatever meets what is demanded. The only fault is
    /// `NoMemory`, 42, and there is none for a name without an entry or without demanded texts.
    pub fn verdict(&self, alloc: Global, name: &Name) -> Result<Option<Verdict>, TableFault>
        ensures absent { entry_at self.now name.now ≡ None → result ≡ Ok None }
        ensures verdict { (e : EntryParts) → entry_at self.now name.now ≡ Some e
            → IfOk result (λ verdict. IfSome verdict (IsEntryVerdict e) × IsSome verdict) }
        ensures demands { IfOk result (λ verdict. IfSome verdict
            (IsVerdict (TableDemands self.now name.now))) }
        ensures faults { IfErr result (λ e. e ≡ TableFault.NoMemory) }
        ensures plain { (e : EntryParts) → entry_at self.now name.now ≡ Some e → e.texts ≡ []
            → IsOk result }
    {
        match self.get(name) {
            Some(entry) => Ok(Some(entry.verdict(alloc)?)),
            None => Ok(None),
        }
    }

    /// Whether the version of the package meets what is demanded: see [`Entry::admits`]. Where
    /// nothing is demanded of it, every version does that is no pre-release, unless these are
    /// wanted. The only fault is `NoMemory`, 42.
    pub fn admits(
        &self,
        alloc: Global,
        name: &Name,
        version: &Version,
        want_pre: bool,
    ) -> Result<Answer, TableFault>
        ensures answer { IfOk result (IsAnswer (TableDemands self.now name.now) version.now
            want_pre) }
        ensures faults { IfErr result (λ e. e ≡ TableFault.NoMemory) }
    {
        if let Some(entry) = self.get(name) {
            return entry.admits(alloc, version, want_pre);
        }
        if is_wanted(version, want_pre) {
            Ok(Answer::Yes)
        } else {
            Ok(Answer::No)
        }
    }
}
