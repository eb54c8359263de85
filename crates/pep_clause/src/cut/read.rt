// How a cut is read.

ghost use Rattle.std.specs.Prelude.{◌≡◌, ◌++◌, ◌↔◌, IfErr, IfOk, IfSome, IsTrue, Some, true};
ghost use Rattle.pep_version.specs.Order.{place_of};
ghost use Rattle.pep_version.specs.Text.{normal_text};
ghost use Rattle.pep_version.specs.Version.{IsVersion, Version};
ghost use Rattle.pep_version.specs.Final.{is_final};
ghost use Rattle.pep_clause.specs.Cut.{Cut, IsCut, cut_text};
ghost use Rattle.pep_clause.specs.OperatorTable.{past_release};

use crate::cut::Cut;
use crate::packed_cut::{PackedCut, is_short};
use crate::words;
use pep_version::{Version, VersionFault};
use specifiers::ClauseFault;
use std::alloc::{AllocError, Global};

// The version, if it is at its own place and this is its normal text: a cut's text has no other.
fn spelled_version(
    alloc: Global,
    version: Version,
    text: &str,
) -> Result<Option<Version>, AllocError>
    ensures kept { IfOk result (λ read. place_of version ≡ version
        → normal_text version ≡ text.now → read ≡ Some version) }
    ensures spelled { IfOk result (λ read. IfSome read (λ v. (v ≡ version)
        × (place_of version ≡ version) × (normal_text version ≡ text.now))) }
{
    if !is_short(version.release()) {
        return Ok(None);
    }
    let mut normal = String::with_capacity(alloc, text.len())?;
    version.push_text(&mut normal).map_err(|_| AllocError)?;
    if normal.as_str() == text {
        Ok(Some(version))
    } else {
        Ok(None)
    }
}

// The version behind the word, if the normal text of one that is at its own place stands there.
fn version_behind(alloc: Global, text: &str, word: &str) -> Result<Option<Version>, AllocError>
    ensures normal { IfOk result (λ read. (v : Version) → IsVersion v → place_of v ≡ v
        → text.now ≡ word.now ++ normal_text v → read ≡ Some v) }
    ensures spelled { IfOk result (λ read. IfSome read (λ v. IsVersion v × (place_of v ≡ v)
        × (text.now ≡ word.now ++ normal_text v))) }
{
    let Some(version) = text.strip_prefix(word) else {
        return Ok(None);
    };
    match Version::read(alloc, version) {
        Ok(read) => Ok(spelled_version(alloc, read, version)?),
        Err(VersionFault::NotAVersion) => Ok(None),
        Err(VersionFault::NumberTooLarge) => Ok(None),
        Err(VersionFault::NoMemory) => Err(AllocError),
    }
}

// The cut past everything of the version's release, if it is final: no other is in a cut's text.
fn past_final(alloc: Global, version: &Version) -> Result<Option<Cut>, AllocError>
    ensures kept { IfOk result (λ read. is_final version.now ≡ true
        → read ≡ Some (past_release version.now)) }
    ensures exact { IfOk result (λ read. IfSome read (λ c. (c ≡ past_release version.now)
        × (is_final version.now ≡ true) × IsCut c)) }
{
    if !version.is_final() {
        return Ok(None);
    }
    Ok(Some(Cut::past(alloc, version)?))
}

impl Cut {
    // The same as `read`, whatever the cut.
    fn read_any(alloc: Global, text: &str) -> Result<Option<Cut>, ClauseFault>
        ensures read { IfOk result (λ read. (c : Cut) → IsCut c
            → ((read ≡ Some c) ↔ (cut_text c ≡ text.now))) }
        ensures spelled { IfOk result (λ read. IfSome read (λ c. IsCut c)) }
        ensures faults { IfErr result (λ e. e ≡ ClauseFault.NoMemory) }
    {
        if text == words::END {
            return Ok(Some(Cut::end()));
        }
        if let Some(version) = version_behind(alloc, text, words::BEFORE)? {
            return Ok(Some(Cut::before(alloc, &version)?));
        }
        if let Some(version) = version_behind(alloc, text, words::PAST)? {
            return Ok(past_final(alloc, &version)?);
        }
        match version_behind(alloc, text, words::AFTER)? {
            Some(version) if version.label().is_empty() => Ok(None),
            Some(version) => Ok(Some(Cut::after(alloc, &version)?)),
            None => Ok(None),
        }
    }

    /// The cut whose text this is, as `Cut::text` writes it (PEP 440, "Normalization"), or none:
    /// another spelling of its version is no cut's text. The only fault is `NoMemory`.
    pub fn read(alloc: Global, text: &str) -> Result<Option<Cut>, ClauseFault>
        ensures read { IfOk result (λ read. (c : Cut) → IsCut c
            → ((read ≡ Some c) ↔ (cut_text c ≡ text.now))) }
        ensures spelled { IfOk result (λ read. IfSome read (λ c. IsCut c)) }
        ensures faults { IfErr result (λ e. e ≡ ClauseFault.NoMemory) }
    {
        match PackedCut::read(text) {
            Some(cut) => Ok(Some(Cut::of_packed(cut))),
            None => Cut::read_any(alloc, text),
        }
    }
}
