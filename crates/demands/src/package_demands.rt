//! What is demanded of one package: so far, and in all.

ghost use Rattle.std.specs.Prelude.{◌≡◌, [], IfOk, IsOk, OnOk, length, option_map};
ghost use Rattle.pep_require.specs.View.{requirement_parts};
ghost use Rattle.demands.specs.Gathering.{HasValidParts, TakesEntry, bare_entry};
ghost use Rattle.demands.specs.Join.{JoinsEntries};
ghost use Rattle.demands.specs.Way.Others.{JoinsOthers, entry_with, kept_others};
ghost use Rattle.demands.specs.Way.Judged.{TellsTexts};
ghost use Rattle.demands.specs.Way.Finished.{other_parts, ranges_entry};
ghost use Rattle.demands.specs.Table.{EntryDemands, IsValidEntry};
ghost use Rattle.demands.specs.Verdict.{IsVerdict};

use crate::entry::Entry;
use crate::kept_versions::KeptVersions;
use crate::line_demands::LineDemands;
use crate::others::{OtherTexts, Others};
use crate::sorted::Sorted;
use crate::verdict::{TextDemand, Verdict, text_demand, verdict_of};
use pep_clause::VersionSet;
use pep_require::Requirement;
use std::alloc::{AllocError, Global};
use std::marker::Model;

/// What requirements and entries so far demand of one package. Clauses see the entry of it.
#[derive(Drop)]
pub struct PackageDemands {
    versions: KeptVersions,
    // No extras, URLs and texts, where it is `None`.
    others: Option<Box<Others>>,
}

impl Model for PackageDemands {
    ghost use Rattle.std.specs.Prelude.{option_map};
    ghost use Rattle.demands.specs.Way.Others.{entry_with, kept_others};
    ghost use Rattle.demands.specs.Table.{EntryParts};

    ghost Value = { EntryParts };

    ghost view = { λ g. entry_with (kept_others (option_map (λ b. b.value) g.others)) g.versions };
}

// What is demanded besides versions, to be changed: nothing, where it is `None`.
fn opened(alloc: Global, others: Option<Box<Others>>) -> Result<Box<Others>, AllocError>
    ensures { IfOk result (λ b. b.value ≡ kept_others (option_map (λ b. b.value) others)) }
{
    match others {
        Some(kept) => Ok(kept),
        None => Ok(Box::new(alloc, Others::new(alloc))?),
    }
}

// Takes what an entry demands besides versions.
fn join_others(
    alloc: Global,
    others: &mut Option<Box<Others>>,
    entry: &Entry,
) -> Result<(), AllocError>
    ensures { OnOk result (JoinsOthers
        (kept_others (option_map (λ b. b.value) others.old)) entry.now
        (kept_others (option_map (λ b. b.value) others.new))) }
{
    if others.is_none() && !entry.has_others() {
        return Ok(());
    }
    let mut kept = opened(alloc, others.take())?;
    kept.join(entry)?;
    *others = Some(kept);
    Ok(())
}

// Takes what a line demands besides versions, which most lines don't.
fn join_line(
    alloc: Global,
    others: &mut Option<Box<Others>>,
    line: &LineDemands,
) -> Result<(), AllocError>
    ensures { OnOk result (JoinsOthers
        (kept_others (option_map (λ b. b.value) others.old)) line.now
        (kept_others (option_map (λ b. b.value) others.new))) }
{
    if line.others.is_none() {
        in_order(others);
        return Ok(());
    }
    join_more(alloc, others, &line.others)
}

// Takes what another entry demands besides versions.
fn join_kept(
    alloc: Global,
    others: &mut Option<Box<Others>>,
    more: Option<Box<Others>>,
) -> Result<(), AllocError>
    ensures { OnOk result (JoinsOthers
        (kept_others (option_map (λ b. b.value) others.old))
        (entry_with (kept_others (option_map (λ b. b.value) more)) [])
        (kept_others (option_map (λ b. b.value) others.new))) }
{
    match more {
        Some(more) => join_more(alloc, others, &more),
        None => {
            in_order(others);
            Ok(())
        }
    }
}

// Takes these.
fn join_more(
    alloc: Global,
    others: &mut Option<Box<Others>>,
    more: &Others,
) -> Result<(), AllocError>
    ensures { OnOk result (JoinsOthers
        (kept_others (option_map (λ b. b.value) others.old)) (entry_with more.now [])
        (kept_others (option_map (λ b. b.value) others.new))) }
{
    let mut kept = opened(alloc, others.take())?;
    kept.join_others(more)?;
    *others = Some(kept);
    Ok(())
}

// Does nothing. Its clause tells that these stay as they are where nothing more is demanded.
fn in_order(others: &Option<Box<Others>>)
    ensures { JoinsOthers (kept_others (option_map (λ b. b.value) others.now)) bare_entry
        (kept_others (option_map (λ b. b.value) others.now)) }
{
    if let Some(kept) = others {
        kept.in_order();
    }
}

// The entry of these versions, and nothing else.
fn entry_of(alloc: Global, versions: VersionSet) -> Entry
    ensures { result ≡ ranges_entry versions }
{
    // Its clause tells that the ranges are a normal list.
    let _ = versions.ranges();
    Entry::of(
        Sorted::new(alloc),
        Sorted::new(alloc),
        Sorted::new(alloc),
        versions,
    )
}

// What is demanded besides versions, in order.
fn finished_others(
    alloc: Global,
    others: Option<Box<Others>>,
) -> Result<Option<Box<OtherTexts>>, AllocError>
    ensures { IfOk result (λ new. kept_others (option_map (λ b. b.value) new)
        ≡ kept_others (option_map (λ b. b.value) others)) }
{
    let Some(others) = others else {
        return Ok(None);
    };
    let texts = Box::into_inner(others).finish()?;
    Ok(Some(Box::new(alloc, texts)?))
}

impl PackageDemands {
    /// What is demanded of a package by its name alone: nothing.
    pub fn bare() -> PackageDemands
        ensures { result ≡ bare_entry }
    {
        PackageDemands {
            versions: KeptVersions::all(),
            others: None,
        }
    }

    /// Takes what a requirement demands, whatever its name and its marker. Where memory lacks, what is
    /// gathered is of no more use: it may lack what it had.
    pub fn take(&mut self, alloc: Global, requirement: &Requirement) -> Result<(), AllocError>
        ensures taken { OnOk result (TakesEntry self.old (requirement_parts requirement.now)
            self.new) }
        ensures valid { OnOk result (HasValidParts (requirement_parts requirement.now)) }
    {
        // Its clause tells that the name is in its normalized form.
        let _ = requirement.name().text();
        let mut line = LineDemands::of(alloc, requirement)?;
        self.take_line(alloc, &mut line)
    }

    /// Takes what an entry demands, whose ranges are moved. Where memory lacks, what is gathered is
    /// of no more use: it may lack what it had.
    pub fn join(&mut self, alloc: Global, entry: Entry) -> Result<(), AllocError>
        ensures joined { OnOk result (JoinsEntries self.old entry self.new) }
        ensures valid { IsValidEntry entry }
    {
        // Its clause tells that the entry is valid.
        let _ = entry.versions();
        join_others(alloc, &mut self.others, &entry)?;
        self.versions.meet(alloc, entry.into_versions())
    }

    /// Takes what a line demands, whose sets are moved: it may be anything until it is cleared. Where memory
    /// lacks, what is gathered is of no more use: it may lack what it had.
    #[inline(always)]
    pub fn take_line(&mut self, alloc: Global, line: &mut LineDemands) -> Result<(), AllocError>
        ensures joined { OnOk result (JoinsEntries self.old line.old self.new) }
        ensures valid { IsValidEntry line.old }
    {
        line.as_entry();
        join_line(alloc, &mut self.others, line)?;
        self.versions.meet_line(alloc, line)
    }

    /// Takes what is gathered of the package elsewhere, which is moved. Where memory lacks, what is gathered is of no
    /// more use: it may lack what it had.
    pub fn join_demands(&mut self, alloc: Global, more: PackageDemands) -> Result<(), AllocError>
        ensures { OnOk result (JoinsEntries self.old more self.new) }
    {
        let PackageDemands { versions, others } = more;
        join_kept(alloc, &mut self.others, others)?;
        self.versions.meet_kept(alloc, versions)
    }

    /// What is gathered, which has to be an entry, as for `entry`.
    pub fn finish(self, alloc: Global) -> Result<Finished, AllocError>
        requires { IsValidEntry self }
        ensures { IfOk result (λ f. f ≡ self) }
    {
        let PackageDemands { versions, others } = self;
        let versions = versions.finish(alloc)?;
        let others = finished_others(alloc, others)?;
        Ok(Finished { others, versions })
    }

    /// The entry of what is gathered, which has to be one: what `take` and `join` made of `bare` is,
    /// unless one of them was refused.
    pub fn entry(self, alloc: Global) -> Result<Entry, AllocError>
        requires { IsValidEntry self }
        ensures { IfOk result (λ e. e ≡ self) }
    {
        let Finished { others, versions } = self.finish(alloc)?;
        match others {
            Some(others) => others.entry(alloc, versions),
            None => Ok(entry_of(alloc, versions)),
        }
    }
}

/// What is demanded of one package in all, as it is printed: no list of an entry is made for it. Clauses see the entry.
#[derive(Drop)]
pub struct Finished {
    // No extras, URLs and texts, where it is `None`.
    others: Option<Box<OtherTexts>>,
    versions: VersionSet,
}

impl Model for Finished {
    ghost use Rattle.std.specs.Prelude.{option_map};
    ghost use Rattle.demands.specs.Way.Others.{entry_with, kept_others};
    ghost use Rattle.demands.specs.Table.{EntryParts, IsValidEntry};

    ghost Value = { EntryParts };

    ghost view = { λ f. entry_with (kept_others (option_map (λ b. b.value) f.others)) f.versions };

    ghost invariant = { λ f. IsValidEntry
        (entry_with (kept_others (option_map (λ b. b.value) f.others)) f.versions) };
}

impl Finished {
    /// What is demanded besides versions. There is none of it where it is `None`.
    pub fn others(&self) -> Option<&OtherTexts>
        ensures { kept_others (option_map (λ o. o.now) result) ≡ other_parts self.now }
    {
        match &self.others {
            Some(others) => Some(&**others),
            None => None,
        }
    }

    /// The versions.
    pub fn versions(&self) -> &VersionSet
        ensures { result.now ≡ self.now.versions }
    {
        &self.versions
    }

    // How many URLs are demanded, and the demanded texts, as far as a verdict depends on them.
    fn demanded(&self) -> (usize, TextDemand<'_>)
        ensures urls { result.0 ≡ length self.now.urls }
        ensures texts { TellsTexts result.1 self.now.texts }
        ensures valid { IsValidEntry self.now }
    {
        match &self.others {
            Some(others) => (others.urls().len(), text_demand(others.texts())),
            None => (0, TextDemand::NoText),
        }
    }

    /// Whether a version can meet what is demanded: as [`Entry::verdict`](crate::Entry::verdict). Without
    /// demanded texts it wants no memory.
    pub fn verdict(&self, alloc: Global) -> Result<Verdict, AllocError>
        ensures demands { IfOk result (IsVerdict (EntryDemands self.now)) }
        ensures plain { self.now.texts ≡ [] → IsOk result }
    {
        let (urls, texts) = self.demanded();
        verdict_of(alloc, urls, texts, &self.versions)
    }
}
