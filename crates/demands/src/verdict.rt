//! Whether a package can be had, and whether a version of it can.

ghost use Rattle.std.specs.Prelude.{
  ◌≡◌,
  ◌↔◌,
  ◌⊎◌,
  [],
  false,
  IfErr,
  IfOk,
  IsOk,
  IsTrue,
  length,
  true,
};
ghost use Rattle.pep_version.specs.Text.{normal_text};
ghost use Rattle.pep_version.specs.Version.{is_pre_release};
ghost use Rattle.pep_clause.specs.VersionSet.{In, is_in};
ghost use Rattle.demands.specs.Answer.{IsAnswer};
ghost use Rattle.demands.specs.Table.{EntryDemands, EntryParts, IsValidEntry};
ghost use Rattle.demands.specs.Verdict.{
  FitsEntry,
  HasVersionOfText,
  IsEntryVerdict,
  IsVerdict,
  verdict_word,
};
ghost use Rattle.demands.specs.Way.Judged.{IsJudgedBy, TellsTexts};

use crate::entry::Entry;
use crate::fault::TableFault;
use crate::text_list::TextList;
use pep_clause::VersionSet;
use pep_version::{Key, Version, VersionFault};
use std::alloc::{AllocError, Global};

/// Whether a package can be had at all, by the demands on it.
#[derive(Clone, Copy, Debug, PartialEq, Eq)]
pub enum Verdict {
    /// Printed `open`: some version meets the demands.
    Possible,
    /// Printed `none`: no version meets the demands.
    Nothing,
    /// Printed `conflict`: two different URLs are demanded.
    Conflict,
}

impl Verdict {
    /// The word by which it is printed.
    pub fn word(self) -> &'static str
        ensures { result.now ≡ verdict_word self }
    {
        match self {
            Verdict::Possible => "open",
            Verdict::Nothing => "none",
            Verdict::Conflict => "conflict",
        }
    }
}

/// Whether a version of a package meets the demands on it.
#[derive(Clone, Copy, Debug, PartialEq, Eq)]
pub enum Answer {
    /// Printed `yes`: the version meets every demand, and is no pre-release unless these are wanted.
    Yes,
    /// Printed `no`: it doesn't.
    No,
    /// Printed `conflict`: two different URLs are demanded.
    Conflict,
}

/// The texts that `===` demands of a package, as far as a verdict depends on them.
#[derive(Clone, Copy)]
pub(crate) enum TextDemand<'a> {
    NoText,
    OneText(&'a str),
    // No version has two normal texts.
    MoreTexts,
}

/// The demanded texts, as far as a verdict depends on them.
pub(crate) fn text_demand<L: TextList>(texts: &L) -> TextDemand<'_>
    ensures { TellsTexts result (L.texts texts.now) }
{
    match texts.count() {
        0 => TextDemand::NoText,
        1 => TextDemand::OneText(texts.text_at(0)),
        _ => TextDemand::MoreTexts,
    }
}

/// The verdict on an entry of which so many URLs, these texts and these versions are demanded.
pub(crate) fn verdict_of(
    alloc: Global,
    urls: usize,
    texts: TextDemand<'_>,
    versions: &VersionSet,
) -> Result<Verdict, AllocError>
    ensures verdict { (e : EntryParts) → IsJudgedBy urls texts.entry versions.now e
        → IfOk result (λ w. IsEntryVerdict e w × IsVerdict (EntryDemands e) w) }
    ensures plain { (e : EntryParts) → IsJudgedBy urls texts.entry versions.now e → e.texts ≡ []
        → IsOk result }
{
    if urls > 1 {
        return Ok(Verdict::Conflict);
    }
    if versions.is_empty() {
        return Ok(Verdict::Nothing);
    }
    match texts {
        TextDemand::NoText => Ok(Verdict::Possible),
        TextDemand::OneText(text) if has_version(alloc, text, versions)? => Ok(Verdict::Possible),
        _ => Ok(Verdict::Nothing),
    }
}

// Whether a version in the set has this as its normal text.
fn has_version(alloc: Global, text: &str, versions: &VersionSet) -> Result<bool, AllocError>
    ensures { IfOk result (λ b. IsTrue b ↔ HasVersionOfText versions.now text.now) }
{
    match Version::read(alloc, text) {
        Ok(version) => has_text(alloc, &version, text, versions),
        Err(VersionFault::NoMemory) => Err(AllocError),
        Err(_) => Ok(false),
    }
}

// Whether the version has this as its normal text and is in the set.
fn has_text(
    alloc: Global,
    version: &Version,
    text: &str,
    versions: &VersionSet,
) -> Result<bool, AllocError>
    ensures { IfOk result (λ b. IsTrue b
        ↔ ((normal_text version.now ≡ text.now) × In versions.now version.now)) }
{
    let Ok(normal) = version.text(alloc) else {
        return Err(AllocError);
    };
    if normal.as_str() != text {
        return Ok(false);
    }
    is_in(alloc, version, versions)
}

// Whether the version is in the set.
fn is_in(alloc: Global, version: &Version, versions: &VersionSet) -> Result<bool, AllocError>
    ensures { IfOk result (λ b. b ≡ is_in versions.now version.now) }
{
    match Key::of(alloc, version) {
        Ok(key) => Ok(versions.contains(&key)),
        Err(_) => Err(AllocError),
    }
}

/// Whether the version is wanted: pre-releases are, or it is none (PEP 440, "Handling of
/// pre-releases"). Public for the crate of tables.
pub fn is_wanted(version: &Version, want_pre: bool) -> bool
    ensures { IsTrue result ↔ ((want_pre ≡ true) ⊎ (is_pre_release version.now ≡ false)) }
{
    want_pre || !version.is_pre()
}

impl Entry {
    // How many URLs are demanded.
    fn url_count(&self) -> usize
        ensures count { result ≡ length self.now.urls }
        ensures valid { IsValidEntry self.now }
    {
        self.urls().items().len()
    }

    /// Whether a version can meet what is demanded: `Conflict` where two URLs are demanded; else
    /// `Nothing` where no version is in the set of versions and has each demanded text as its normal
    /// text (PEP 440, "Arbitrary equality"); else `Possible`. The only fault is `NoMemory`, 42, and
    /// without demanded texts there is none.
    pub fn verdict(&self, alloc: Global) -> Result<Verdict, TableFault>
        ensures entry { IfOk result (IsEntryVerdict self.now) }
        ensures demands { IfOk result (IsVerdict (EntryDemands self.now)) }
        ensures faults { IfErr result (λ e. e ≡ TableFault.NoMemory) }
        ensures plain { self.now.texts ≡ [] → IsOk result }
    {
        let urls = self.url_count();
        Ok(verdict_of(alloc, urls, text_demand(self.texts()), self.versions())?)
    }

    // Whether the version is in the ranges and has each demanded text as its normal text.
    fn fits(&self, alloc: Global, version: &Version) -> Result<bool, AllocError>
        ensures { IfOk result (λ b. IsTrue b ↔ FitsEntry self.now version.now) }
    {
        match text_demand(self.texts()) {
            TextDemand::NoText => is_in(alloc, version, self.versions()),
            TextDemand::OneText(text) => has_text(alloc, version, text, self.versions()),
            TextDemand::MoreTexts => Ok(false),
        }
    }

    /// Whether the version meets what is demanded: `Conflict` where two URLs are demanded; else
    /// `Yes` where every demand admits it, and it is no pre-release unless these are wanted; else
    /// `No`. The only fault is `NoMemory`, 42.
    pub fn admits(
        &self,
        alloc: Global,
        version: &Version,
        want_pre: bool,
    ) -> Result<Answer, TableFault>
        ensures answer { IfOk result (IsAnswer (EntryDemands self.now) version.now want_pre) }
        ensures faults { IfErr result (λ e. e ≡ TableFault.NoMemory) }
    {
        if self.url_count() > 1 {
            return Ok(Answer::Conflict);
        }
        // Its clause tells that the parts make a version.
        let _ = version.release();
        let fits = self.fits(alloc, version)?;
        if fits && is_wanted(version, want_pre) {
            Ok(Answer::Yes)
        } else {
            Ok(Answer::No)
        }
    }
}
