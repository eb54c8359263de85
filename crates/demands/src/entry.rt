//! What is demanded of one package.

ghost use Rattle.std.specs.Prelude.{◌≡◌, [], IfErr, IfOk, false};
ghost use Rattle.demands.specs.Table.{IsValidEntry};

use crate::fault::TableFault;
use crate::join::Join;
use crate::sorted::Sorted;
use pep_clause::VersionSet;
use pep_marker::Name;
use std::alloc::{AllocError, Global};
use std::marker::Model;

/// What is demanded of one package: its extras, the texts of the URLs to take it from, the texts
/// that `===` demands of its version, and the versions that all other clauses admit.
#[derive(Drop)]
pub struct Entry {
    extras: Sorted<Name>,
    urls: Sorted<String>,
    texts: Sorted<String>,
    versions: VersionSet,
}

impl Model for Entry {
    ghost use Rattle.demands.specs.Table.{EntryParts, IsValidEntry};

    ghost Value = { EntryParts };

    ghost view = { λ e. record {
      extras = e.extras;
      urls = e.urls;
      texts = e.texts;
      versions = e.versions;
    } };

    ghost invariant = { λ e. IsValidEntry (record {
      extras = e.extras;
      urls = e.urls;
      texts = e.texts;
      versions = e.versions;
    }) };
}

impl Entry {
    /// The entry of these parts. Each text of a URL has one byte or more, all from `!` to `~`, and each
    /// demanded text is one that `===` may demand, in lower case; the rest is true of all such parts. A
    /// table that is read back is made of them.
    pub fn of(
        extras: Sorted<Name>,
        urls: Sorted<String>,
        texts: Sorted<String>,
        versions: VersionSet,
    ) -> Entry
        requires { IsValidEntry (record {
          extras = extras;
          urls = urls;
          texts = texts;
          versions = versions;
        }) }
        ensures { result ≡ record {
          extras = extras;
          urls = urls;
          texts = texts;
          versions = versions;
        } }
    {
        Entry {
            extras,
            urls,
            texts,
            versions,
        }
    }

    /// The extras, in byte order (PEP 508, "Extras").
    pub fn extras(&self) -> &Sorted<Name>
        ensures extras { result.now ≡ self.now.extras }
        ensures valid { IsValidEntry self.now }
    {
        &self.extras
    }

    /// The texts by which the crate `url` prints the URLs, in byte order.
    pub fn urls(&self) -> &Sorted<String>
        ensures urls { result.now ≡ self.now.urls }
        ensures valid { IsValidEntry self.now }
    {
        &self.urls
    }

    /// The texts that `===` demands, in lower case and in byte order (PEP 440, "Arbitrary
    /// equality").
    pub fn texts(&self) -> &Sorted<String>
        ensures texts { result.now ≡ self.now.texts }
        ensures valid { IsValidEntry self.now }
    {
        &self.texts
    }

    /// The versions that all clauses but those with `===` admit.
    pub fn versions(&self) -> &VersionSet
        ensures versions { result.now ≡ self.now.versions }
        ensures valid { IsValidEntry self.now }
    {
        &self.versions
    }

    /// The versions of an entry that is used up.
    pub(crate) fn into_versions(self) -> VersionSet
        ensures { result ≡ self.versions }
    {
        self.versions
    }

    /// Whether more may be demanded than versions.
    pub(crate) fn has_others(&self) -> bool
        ensures { result ≡ false → (self.now.extras ≡ []) × (self.now.urls ≡ [])
            × (self.now.texts ≡ []) }
    {
        !(self.extras.items().is_empty()
            && self.urls.items().is_empty()
            && self.texts.items().is_empty())
    }

    /// An equal entry in storage of its own. The only fault is `NoMemory`, 42.
    pub fn copied(&self, alloc: Global) -> Result<Entry, TableFault>
        ensures same { IfOk result (λ e. e ≡ self.now) }
        ensures faults { IfErr result (λ e. e ≡ TableFault.NoMemory) }
    {
        Ok(Entry {
            extras: self.extras.copied(alloc)?,
            urls: self.urls.copied(alloc)?,
            texts: self.texts.copied(alloc)?,
            versions: versions_copied(alloc, &self.versions)?,
        })
    }
}

impl Join for Entry {
    ghost use Rattle.demands.specs.Join.{JoinsEntries};
    ghost use Rattle.demands.specs.Table.{IsValidEntry};
    ghost use Rattle.demands.specs.EntryLaws.{IsJoin-JoinsEntries};

    ghost is_value = { IsValidEntry };

    ghost joins = { JoinsEntries };

    ghost laws = { IsJoin-JoinsEntries };

    fn joined(&self, alloc: Global, other: &Entry) -> Result<Entry, TableFault> {
        Ok(Entry {
            extras: self.extras.joined(alloc, &other.extras)?,
            urls: self.urls.joined(alloc, &other.urls)?,
            texts: self.texts.joined(alloc, &other.texts)?,
            versions: Join::joined(&self.versions, alloc, &other.versions)?,
        })
    }
}

/// An equal set.
fn versions_copied(alloc: Global, versions: &VersionSet) -> Result<VersionSet, AllocError>
    ensures { IfOk result (λ s. s ≡ versions.now) }
{
    versions.copied(alloc).map_err(|_| AllocError)
}
