// How a requirement is written.

ghost use Rattle.std.specs.Prelude.{◌≡◌, ◌++◌, OnOk, map, string_bytes};
ghost use Rattle.std.specs.Option.{option_map};
ghost use Rattle.std.specs.List.{join_with_byte};
ghost use Rattle.specifiers.specs.Clause.{clause_text};
ghost use Rattle.pep_marker.specs.View.{marker_parts};
ghost use Rattle.pep_require.specs.RequirementText.{
  behind_commas,
  ending_text,
  extras_text,
  target_text,
};
ghost use Rattle.pep_require.specs.View.{target_parts};

use crate::fault::RequireFault;
use crate::requirement::{Requirement, Target};
use pep_marker::{Marker, Name};
use specifiers::Clause;
use std::alloc::{AllocError, Global};

impl Requirement {
    ghost use Rattle.std.specs.Prelude.{◌≡◌, IfErr, IfOk, string_bytes};
    ghost use Rattle.pep_require.specs.RequirementText.{requirement_text};
    ghost use Rattle.pep_require.specs.View.{requirement_parts};

    /// The requirement as one line (PEP 508, "Grammar"): the name, the extras in `[` `]`, the
    /// clauses joined by `,`, or ` @ ` and the URL as it was written, and ` ; ` and the marker. The
    /// only fault is lack of memory, 40.
    pub fn text(&self, alloc: Global) -> Result<String, RequireFault>
        ensures text { IfOk result (λ t. string_bytes t
            ≡ requirement_text (requirement_parts self.now)) }
        ensures faults { IfErr result (λ e. e ≡ RequireFault.NoMemory) }
    {
        let mut text = String::from_str(alloc, self.name.text())?;
        push_extras(&mut text, self.extras.as_slice())?;
        push_target(alloc, &mut text, &self.target)?;
        push_marker(alloc, &mut text, &self.marker)?;
        Ok(text)
    }
}

fn push_extras(text: &mut String, extras: &[Name]) -> Result<(), AllocError>
    ensures { OnOk result (string_bytes text.new
        ≡ string_bytes text.old ++ extras_text extras.now) }
{
    let Some((first, rest)) = extras.split_first() else {
        return Ok(());
    };
    text.push_str("[")?;
    text.push_str(first.text())?;
    push_other_extras(text, rest)?;
    text.push_str("]")?;
    Ok(())
}

fn push_other_extras(text: &mut String, extras: &[Name]) -> Result<(), AllocError>
    ensures { OnOk result (string_bytes text.new
        ≡ string_bytes text.old ++ behind_commas extras.now) }
{
    for name in extras {
        text.push_str(",")?;
        text.push_str(name.text())?;
    }
    Ok(())
}

fn push_clause(alloc: Global, text: &mut String, clause: &Clause) -> Result<(), AllocError>
    ensures { OnOk result (string_bytes text.new
        ≡ string_bytes text.old ++ clause_text clause.now) }
{
    let written = clause.text(alloc).map_err(|_| AllocError)?;
    text.push_str(written.as_str())
}

fn push_clauses(alloc: Global, text: &mut String, clauses: &[Clause]) -> Result<(), AllocError>
    ensures { OnOk result (string_bytes text.new
        ≡ string_bytes text.old ++ join_with_byte 44 (map clause_text clauses.now)) }
{
    let Some((first, rest)) = clauses.split_first() else {
        return Ok(());
    };
    push_clause(alloc, text, first)?;
    push_other_clauses(alloc, text, rest)?;
    Ok(())
}

fn push_other_clauses(
    alloc: Global,
    text: &mut String,
    clauses: &[Clause],
) -> Result<(), AllocError>
    ensures { OnOk result (string_bytes text.new
        ≡ string_bytes text.old ++ behind_commas (map clause_text clauses.now)) }
{
    for clause in clauses {
        text.push_str(",")?;
        push_clause(alloc, text, clause)?;
    }
    Ok(())
}

fn push_target(alloc: Global, text: &mut String, target: &Target) -> Result<(), AllocError>
    ensures { OnOk result (string_bytes text.new
        ≡ string_bytes text.old ++ target_text (target_parts target.now)) }
{
    match target {
        Target::Bounds(clauses) => push_clauses(alloc, text, clauses.as_slice()),
        Target::Direct(url) => {
            text.push_str(" @ ")?;
            text.push_str(url.written())
        }
    }
}

fn push_marker(alloc: Global, text: &mut String, marker: &Option<Marker>) -> Result<(), AllocError>
    ensures { OnOk result (string_bytes text.new
        ≡ string_bytes text.old ++ ending_text (option_map marker_parts marker.now)) }
{
    let Some(marker) = marker else {
        return Ok(());
    };
    let written = marker.text(alloc).map_err(|_| AllocError)?;
    text.push_str(" ; ")?;
    text.push_str(written.as_str())
}
