// What is demanded of a package besides its versions.

ghost use Rattle.std.specs.Prelude.{◌≡◌, ◌∷◌, [], IfOk, IsTrue, OnErr, OnOk};
ghost use Rattle.pep_require.specs.Requirement.{IsAscending};
ghost use Rattle.demands.specs.Gathering.{bare_entry};
ghost use Rattle.demands.specs.Join.{IsUnion};
ghost use Rattle.demands.specs.Way.Others.{JoinsOthers, entry_with, no_others};
ghost use Rattle.demands.specs.Table.{IsValidEntry};

use crate::collected::Collected;
use crate::entry::Entry;
use crate::sorted::Sorted;
use pep_clause::VersionSet;
use std::alloc::{AllocError, Global};
use std::marker::Model;
use texts::Arena;

/// The extras, URLs and texts that requirements demand of one package. Most packages have none. They
/// come one by one, which the sorted lists of an [`Entry`] would not take well.
#[derive(Drop)]
pub(crate) struct Others {
    extras: Collected,
    urls: Collected,
    texts: Collected,
}

impl Model for Others {
    ghost use Rattle.demands.specs.Way.Others.{OtherParts, others_of};

    ghost Value = { OtherParts };

    ghost view = { λ o. others_of o.extras o.urls o.texts };
}

impl Others {
    /// Nothing.
    pub(crate) fn new(alloc: Global) -> Others
        ensures { result ≡ no_others }
    {
        Others {
            extras: Collected::new(alloc),
            urls: Collected::new(alloc),
            texts: Collected::new(alloc),
        }
    }

    /// Nothing any more.
    #[inline(always)]
    pub(crate) fn clear(&mut self)
        ensures { self.new ≡ no_others }
    {
        if self.is_none() {
            return;
        }
        self.extras.clear();
        self.urls.clear();
        self.texts.clear();
    }

    /// Whether there is nothing.
    #[inline(always)]
    pub(crate) fn is_none(&self) -> bool
        ensures { IsTrue result → self.now ≡ no_others }
    {
        self.extras.is_empty() && self.urls.is_empty() && self.texts.is_empty()
    }

    /// Takes an extra.
    pub(crate) fn put_extra(&mut self, text: &str) -> Result<(), AllocError>
        ensures extras { OnOk result (IsUnion self.old.extras (text.now ∷ []) self.new.extras) }
        ensures kept_extras { OnErr result (self.new.extras ≡ self.old.extras) }
        ensures urls { self.new.urls ≡ self.old.urls }
        ensures texts { self.new.texts ≡ self.old.texts }
    {
        self.extras.put(text)
    }

    /// Takes the text of a URL.
    pub(crate) fn put_url(&mut self, text: &str) -> Result<(), AllocError>
        ensures extras { self.new.extras ≡ self.old.extras }
        ensures urls { OnOk result (IsUnion self.old.urls (text.now ∷ []) self.new.urls) }
        ensures kept_urls { OnErr result (self.new.urls ≡ self.old.urls) }
        ensures texts { self.new.texts ≡ self.old.texts }
    {
        self.urls.put(text)
    }

    /// Takes a demanded text.
    pub(crate) fn put_text(&mut self, text: &str) -> Result<(), AllocError>
        ensures extras { self.new.extras ≡ self.old.extras }
        ensures urls { self.new.urls ≡ self.old.urls }
        ensures texts { OnOk result (IsUnion self.old.texts (text.now ∷ []) self.new.texts) }
        ensures kept_texts { OnErr result (self.new.texts ≡ self.old.texts) }
    {
        self.texts.put(text)
    }

    /// Takes what the other ones are.
    pub(crate) fn join_others(&mut self, other: &Others) -> Result<(), AllocError>
        ensures extras { OnOk result (IsUnion self.old.extras other.now.extras self.new.extras) }
        ensures urls { OnOk result (IsUnion self.old.urls other.now.urls self.new.urls) }
        ensures texts { OnOk result (IsUnion self.old.texts other.now.texts self.new.texts) }
    {
        self.extras.join(&other.extras)?;
        self.urls.join(&other.urls)?;
        self.texts.join(&other.texts)
    }

    /// Does nothing. Its clause tells that nothing more is demanded by an entry without extras, URLs and texts.
    pub(crate) fn in_order(&self)
        ensures same { JoinsOthers self.now bare_entry self.now }
        ensures extras { IsAscending self.now.extras }
        ensures urls { IsAscending self.now.urls }
        ensures texts { IsAscending self.now.texts }
    {
        self.extras.in_order();
        self.urls.in_order();
        self.texts.in_order();
    }

    /// Takes what an entry demands.
    pub(crate) fn join(&mut self, entry: &Entry) -> Result<(), AllocError>
        ensures joined { OnOk result (JoinsOthers self.old entry.now self.new) }
    {
        self.extras.put_all(entry.extras().items())?;
        self.urls.put_all(entry.urls().items())?;
        self.texts.put_all(entry.texts().items())
    }

    /// The same in order.
    pub(crate) fn finish(self) -> Result<OtherTexts, AllocError>
        ensures same { IfOk result (λ o. o ≡ self) }
    {
        let Others {
            extras,
            urls,
            texts,
        } = self;
        Ok(OtherTexts {
            extras: extras.into_texts()?,
            urls: urls.into_texts()?,
            texts: texts.into_texts()?,
        })
    }
}

/// The extras, URLs and demanded texts of one package, each list in order. Public for the crate of tables.
#[derive(Drop)]
pub struct OtherTexts {
    extras: Arena,
    urls: Arena,
    texts: Arena,
}

impl Model for OtherTexts {
    ghost use Rattle.demands.specs.Way.Others.{OtherParts, others_of};

    ghost Value = { OtherParts };

    ghost view = { λ o. others_of o.extras o.urls o.texts };
}

impl OtherTexts {
    /// The extras.
    pub fn extras(&self) -> &Arena
        ensures { result.now ≡ self.now.extras }
    {
        &self.extras
    }

    /// The texts of the URLs.
    pub fn urls(&self) -> &Arena
        ensures { result.now ≡ self.now.urls }
    {
        &self.urls
    }

    /// The texts that `===` demands.
    pub fn texts(&self) -> &Arena
        ensures { result.now ≡ self.now.texts }
    {
        &self.texts
    }

    /// The entry of these and of the versions.
    pub(crate) fn entry(&self, alloc: Global, versions: VersionSet) -> Result<Entry, AllocError>
        requires { IsValidEntry (entry_with self.now versions) }
        ensures { IfOk result (λ e. e ≡ entry_with self.now versions) }
    {
        Ok(Entry::of(
            Sorted::of_texts(alloc, &self.extras)?,
            Sorted::of_texts(alloc, &self.urls)?,
            Sorted::of_texts(alloc, &self.texts)?,
            versions,
        ))
    }
}
