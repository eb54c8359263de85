//! The parts of a requirement, line by line.

ghost use Rattle.std.specs.Prelude.{◌≡◌, ◌++◌, IfOk, OnOk, codes, map, string_bytes};
ghost use Rattle.std.specs.Option.{option_map};
ghost use Rattle.specifiers.specs.Clause.{clause_text};
ghost use Rattle.pep_marker.specs.View.{marker_parts};
ghost use Rattle.pep_require.specs.View.{requirement_parts, target_parts};
ghost use Rattle.pep_c.specs.Fields.{field, fields, marker_fields, requirement_fields, target_fields};

use pep_marker::{Marker, Name};
use pep_require::{Requirement, Target};
use specifiers::Clause;
use std::alloc::{AllocError, Global};

// A line: what stands on it, and the text of that.
fn push_field(text: &mut String, word: &str, written: &str) -> Result<(), AllocError>
    ensures { OnOk result (string_bytes text.new
        ≡ string_bytes text.old ++ field word.now written.now) }
{
    text.push_str(word)?;
    text.push_str(written)?;
    text.push_str("\n")?;
    Ok(())
}

fn push_extras(text: &mut String, extras: &[Name]) -> Result<(), AllocError>
    ensures { OnOk result (string_bytes text.new
        ≡ string_bytes text.old ++ fields (codes "extra ") extras.now) }
{
    for name in extras {
        push_field(text, "extra ", name.text())?;
    }
    Ok(())
}

fn push_clause(
    alloc: Global,
    text: &mut String,
    word: &str,
    clause: &Clause,
) -> Result<(), AllocError>
    ensures { OnOk result (string_bytes text.new
        ≡ string_bytes text.old ++ field word.now (clause_text clause.now)) }
{
    match clause.text(alloc) {
        Ok(written) => push_field(text, word, written.as_str()),
        Err(_) => Err(AllocError),
    }
}

/// A line for each clause, behind this word.
pub(crate) fn push_clauses(
    alloc: Global,
    text: &mut String,
    word: &str,
    clauses: &[Clause],
) -> Result<(), AllocError>
    ensures { OnOk result (string_bytes text.new
        ≡ string_bytes text.old ++ fields word.now (map clause_text clauses.now)) }
{
    for clause in clauses {
        push_clause(alloc, text, word, clause)?;
    }
    Ok(())
}

fn push_target(alloc: Global, text: &mut String, target: &Target) -> Result<(), AllocError>
    ensures { OnOk result (string_bytes text.new
        ≡ string_bytes text.old ++ target_fields (target_parts target.now)) }
{
    match target {
        Target::Bounds(clauses) => push_clauses(alloc, text, "clause ", clauses.as_slice()),
        Target::Direct(url) => push_field(text, "url ", url.written()),
    }
}

fn push_marker(alloc: Global, text: &mut String, marker: Option<&Marker>) -> Result<(), AllocError>
    ensures { OnOk result (string_bytes text.new ≡ string_bytes text.old
        ++ marker_fields (option_map (λ m. marker_parts m.now) marker.entry)) }
{
    let Some(marker) = marker else {
        return Ok(());
    };
    match marker.text(alloc) {
        Ok(written) => push_field(text, "marker ", written.as_str()),
        Err(_) => Err(AllocError),
    }
}

/// The lines of a requirement: `name N`, `extra E` for each extra, `clause C` for each clause or `url U` as
/// it was written, and `marker M` where there is one.
pub(crate) fn fields_of(alloc: Global, requirement: &Requirement) -> Result<String, AllocError>
    ensures { IfOk result (λ text.
        string_bytes text ≡ requirement_fields (requirement_parts requirement.now)) }
{
    let mut text = String::new(alloc);
    push_field(&mut text, "name ", requirement.name().text())?;
    push_extras(&mut text, requirement.extras())?;
    push_target(alloc, &mut text, requirement.target())?;
    push_marker(alloc, &mut text, requirement.marker())?;
    Ok(text)
}
