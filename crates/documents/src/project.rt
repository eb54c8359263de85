//! Project files: the requirements that `pyproject.toml` has (PyPA "pyproject.toml", PEP 621).

ghost use Rattle.std.specs.Prelude.{
  ◌≡◌,
  ◌⊎◌,
  Err,
  IfErr,
  IfOk,
  None,
  Ok,
  OnOk,
  Some,
  codes,
  map,
  option_copied,
};
ghost use Rattle.std.specs.List.{AllZip};
ghost use Rattle.toml.specs.View.{table_view};
ghost use Rattle.pep_marker.specs.Name.{normalized};
ghost use Rattle.pep_require.specs.Reads.{Reads};
ghost use Rattle.pep_require.specs.View.{requirement_parts};
ghost use Rattle.faults.specs.NoMemory.{no_memory};
ghost use Rattle.documents.specs.ProjectRequirements.{AskedTexts, IsProjectOf};
ghost use Rattle.documents.specs.Project.{
  checks_dynamic,
  extras_at,
  extras_of,
  has_text,
  project_texts,
};
ghost use Rattle.documents.specs.Document.{document_of, required};
ghost use Rattle.documents.specs.Way.ProjectExtras.{HasExtraTexts};
ghost use Rattle.documents.specs.RefusedProject.{IsRefusedProject, IsRefusedText};
ghost use Rattle.documents.specs.Texts.{lent_texts};

use crate::document::{name_in, read_document, texts_at, texts_of};
use crate::groups::group_texts;
use faults::{Cause, Fault, LineFault, Place};
use pep_marker::{Name, norm_of};
use pep_require::Requirement;
use std::alloc::Global;
use std::collections::BTreeSet;
use toml::Table;

/// The requirements of a project file, which is at most 16,777,216 bytes of TOML.
///
/// Without a group they are those of `project.dependencies`, and then, unless the extra is the empty
/// text, those of the extra's array in `project.optional-dependencies` (PyPA "pyproject.toml",
/// "dependencies" and "optional-dependencies"); of an extra that the file doesn't have there are none.
/// With one they are those of that group in `dependency-groups`, and of the groups that it includes,
/// each where it is included first; `project` isn't read (PyPA "Dependency Groups", PEP 735). Names of
/// extras and groups are compared when normalized (PEP 503, "Normalized Names").
///
/// The fault is that of input 1, by the first check that fails: 56 for more bytes; 51 where they aren't
/// UTF-8; 52 where they nest more than 700 levels or have more than 80 open brackets (outside strings
/// and comments each open bracket counts as one level, and so do each part of the header above and each
/// part of a dotted key behind its first), and where they are no TOML document. Then, without a group:
/// 53 without a key `project`; 55 where `project` is no table, or has a `dynamic` that is no array of
/// texts; 54 where `dynamic` names `dependencies`, or, unless the extra is the empty text,
/// `optional-dependencies`; 55 where it has a `dependencies` that is no array of texts, or an
/// `optional-dependencies` that is no table of such arrays, under keys that are names, all different
/// when normalized. With a group: 65 without a key `dependency-groups`; 55 where it is no table of
/// arrays under keys that are names; 66 where two of these are equal when normalized; 65 where none is
/// the group; and in the order in which the group's array is gone through, and that of each group where
/// it is included first: 55 for a value that is neither a text nor a table whose one key is
/// `include-group`, with a name; 65 for a group that isn't there; 67 for one that is being gone
/// through. Last, with and without a group, 57 with the fault of a text, counted from 1 in the order of
/// the texts (see [`Requirement::read`]). Lack of memory, 60, has no place.
pub fn project_of(
    alloc: Global,
    bytes: &[u8],
    extra: &str,
    group: Option<&Name>,
) -> Result<Vec<Requirement>, Fault>
    ensures ok { IfOk result (λ requirements.
        IsProjectOf extra.now (option_copied group.entry) bytes.now
        (map requirement_parts requirements.items)) }
    ensures refused { IfErr result (λ fault. (fault ≡ no_memory)
        ⊎ ((fault.place ≡ Place.Input 1)
        × IsRefusedProject extra.now (option_copied group.entry) bytes.now fault.cause)) }
{
    match project_requirements(alloc, bytes, extra, group) {
        Ok(requirements) => Ok(requirements),
        Err(cause) => Err(Fault::of(Place::Input(1), cause)),
    }
}

// The requirements of a project file, read and refused as by `project_of`, with the cause of the fault alone.
fn project_requirements(
    alloc: Global,
    bytes: &[u8],
    extra: &str,
    group: Option<&Name>,
) -> Result<Vec<Requirement>, Cause>
    ensures ok { IfOk result (λ requirements.
        IsProjectOf extra.now (option_copied group.entry) bytes.now
        (map requirement_parts requirements.items)) }
    ensures refused { IfErr result (λ cause. (cause ≡ Cause.NoMemory)
        ⊎ IsRefusedProject extra.now (option_copied group.entry) bytes.now cause) }
{
    let file = ProjectFile::read(alloc, bytes)?;
    let texts = file.texts(alloc, extra, group)?;
    requirements_of_texts(alloc, texts.as_slice())
}

/// A project file that is read once, to be asked for the texts of several extras and dependency groups (PyPA
/// "pyproject.toml", "Dependency Groups"). Each text is to be a requirement, see [`Requirement::read`].
#[derive(Drop)]
pub struct ProjectFile {
    /// The TOML document that the file is.
    pub document: Table,
}

impl ProjectFile {
    /// Reads the bytes as a TOML document. They are refused as by [`project_of`] where they are none: 56 for more than
    /// 16,777,216 bytes, 51 where they aren't UTF-8, and 52 where they nest too deep or are no document. Lack of memory
    /// is 60.
    pub fn read(alloc: Global, bytes: &[u8]) -> Result<ProjectFile, Cause>
        ensures ok { IfOk result (λ file. document_of bytes.now ≡ Ok (table_view file.document)) }
        ensures refused { IfErr result (λ cause. (cause ≡ Cause.NoMemory)
            ⊎ (document_of bytes.now ≡ Err cause)) }
    {
        let document = read_document(alloc, bytes)?;
        Ok(ProjectFile { document })
    }

    /// The texts that the file is asked for, in their order: those of the group (PEP 735), or where none is asked for,
    /// those of `project.dependencies` and, unless it is the empty text, of the extra (PEP 621).
    ///
    /// The refusals are the further ones of [`project_of`], by the first check that fails: 53, 54 or 55 without a
    /// group, 65, 55, 66 or 67 with one. Whether each text is a requirement isn't checked. Lack of memory is 60.
    pub fn texts<'a>(
        &'a self,
        alloc: Global,
        extra: &str,
        group: Option<&Name>,
    ) -> Result<Vec<&'a str>, Cause>
        ensures ok { IfOk result (λ texts. AskedTexts extra.now (option_copied group.entry)
            (table_view self.now.document) (Ok (lent_texts texts.items))) }
        ensures refused { IfErr result (λ cause. (cause ≡ Cause.NoMemory)
            ⊎ AskedTexts extra.now (option_copied group.entry) (table_view self.now.document)
            (Err cause)) }
    {
        match group {
            Some(group) => group_texts(alloc, &self.document, group),
            None => project_texts(alloc, &self.document, extra),
        }
    }
}

// The requirements that texts are.
fn requirements_of_texts(alloc: Global, texts: &[&str]) -> Result<Vec<Requirement>, Cause>
    ensures ok { IfOk result (λ requirements.
        AllZip Reads (lent_texts texts.now) (map requirement_parts requirements.items)) }
    ensures refused { IfErr result (λ cause. (cause ≡ Cause.NoMemory)
        ⊎ IsRefusedText (lent_texts texts.now) cause) }
{
    let mut requirements = Vec::with_capacity(alloc, texts.len())?;
    let mut number: u64 = 0;
    for text in texts {
        number += 1;
        match Requirement::read(alloc, text) {
            Ok(requirement) => requirements.push(requirement)?,
            Err(fault) => return Err(Cause::on_line(number, LineFault::Requirement(fault))),
        }
    }
    Ok(requirements)
}

// The texts of `dependencies`, and behind them those of the extra's array.
fn project_texts<'a>(alloc: Global, document: &'a Table, extra: &str) -> Result<Vec<&'a str>, Cause>
    ensures ok { IfOk result (λ texts.
        project_texts extra.now (table_view document.now) ≡ Ok (lent_texts texts.items)) }
    ensures refused { IfErr result (λ cause. (cause ≡ Cause.NoMemory)
        ⊎ (project_texts extra.now (table_view document.now) ≡ Err cause)) }
{
    let Some(found) = document.get("project") else {
        return Err(Cause::NoProject);
    };
    let Some(project) = found.as_table() else {
        return Err(Cause::WrongShape);
    };
    check_dynamic(alloc, project, extra)?;
    let mut texts = texts_at(alloc, project, "dependencies")?;
    let optional = extra_texts(alloc, project, extra)?;
    texts.extend_from_slice(optional.as_slice())?;
    Ok(texts)
}

// Refuses a project that doesn't say here what is asked for.
fn check_dynamic(alloc: Global, project: &Table, extra: &str) -> Result<(), Cause>
    ensures ok { OnOk result (checks_dynamic extra.now (table_view project.now) ≡ Ok tt) }
    ensures refused { IfErr result (λ cause. (cause ≡ Cause.NoMemory)
        ⊎ (checks_dynamic extra.now (table_view project.now) ≡ Err cause)) }
{
    let dynamic = texts_at(alloc, project, "dynamic")?;
    if has_text(dynamic.as_slice(), "dependencies") {
        return Err(Cause::Dynamic);
    }
    if !extra.is_empty() && has_text(dynamic.as_slice(), "optional-dependencies") {
        return Err(Cause::Dynamic);
    }
    Ok(())
}

// Whether the text is one of these.
fn has_text(texts: &[&str], wanted: &str) -> bool
    ensures { result ≡ has_text wanted.now (lent_texts texts.now) }
{
    texts.contains(&wanted)
}

// The texts of the extra's array in `optional-dependencies`, all of which is checked.
fn extra_texts<'a>(alloc: Global, project: &'a Table, extra: &str) -> Result<Vec<&'a str>, Cause>
    ensures ok { IfOk result (λ texts. HasExtraTexts
        (extras_at (codes "optional-dependencies") (table_view project.now)) (normalized extra.now)
        (lent_texts texts.items)) }
    ensures refused { IfErr result (λ cause. (cause ≡ Cause.NoMemory)
        ⊎ (extras_at (codes "optional-dependencies") (table_view project.now) ≡ Err cause)) }
{
    let Some(found) = project.get("optional-dependencies") else {
        return Ok(Vec::new(alloc));
    };
    let Some(extras) = found.as_table() else {
        return Err(Cause::WrongShape);
    };
    let Ok(wanted) = norm_of(alloc, extra) else {
        return Err(Cause::NoMemory);
    };
    wanted_texts(alloc, extras, wanted.as_str())
}

// The texts of the array whose normalized key is the wanted one, and none where there is no such
// key.
fn wanted_texts<'a>(alloc: Global, extras: &'a Table, wanted: &str) -> Result<Vec<&'a str>, Cause>
    ensures ok { IfOk result (λ texts. HasExtraTexts
        (required Cause.WrongShape (extras_of (table_view extras.now))) wanted.now
        (lent_texts texts.items)) }
    ensures refused { IfErr result (λ cause. (cause ≡ Cause.NoMemory)
        ⊎ ((cause ≡ Cause.WrongShape) × (extras_of (table_view extras.now) ≡ None))) }
{
    let mut names = BTreeSet::new(alloc);
    let mut found = Vec::new(alloc);
    for (key, value) in extras.iter() {
        let name = name_in(alloc, key)?;
        let is_wanted = name.text() == wanted;
        if !names.insert(name)? {
            return Err(Cause::WrongShape);
        }
        let texts = texts_of(alloc, value)?;
        if is_wanted {
            found = texts;
        }
    }
    Ok(found)
}
