//! A list as requirements, one on each line, and their texts.

ghost use Rattle.std.specs.Prelude.{
  ◌≡◌,
  ◌⊎◌,
  ◌++◌,
  IfErr,
  IfOk,
  OnOk,
  codes,
  map,
  string_bytes,
};
ghost use Rattle.pep_require.specs.RequirementText.{requirement_text};
ghost use Rattle.pep_require.specs.View.{requirement_parts};
ghost use Rattle.inputs.specs.ListedText.{listed_text};
ghost use Rattle.inputs.specs.Lists.{IsRequirementList};
ghost use Rattle.inputs.specs.Refusal.{IsRefusedList, no_memory};

use crate::lines::{Taker, take_lines};
use faults::{Fault, LineFault, Place};
use pep_require::Requirement;
use std::alloc::{AllocError, Global};

// Takes each text as the requirement that it is.
#[derive(Drop)]
struct RequirementTaker {
    alloc: Global,
}

impl Taker for RequirementTaker {
    ghost use Rattle.std.specs.Prelude.{map};
    ghost use Rattle.pep_require.specs.View.{requirement_parts};
    ghost use Rattle.inputs.specs.Way.TakenTexts.{AddsText, RefusesText};

    type Taken = Vec<Requirement>;

    ghost takes = { λ _ text old new. AddsText text (map requirement_parts old.items)
        (map requirement_parts new.items) };

    ghost refuses = { λ _ text fault. RefusesText text fault };

    fn take(
        &mut self,
        mut requirements: Vec<Requirement>,
        text: &str,
    ) -> Result<Vec<Requirement>, LineFault> {
        let requirement = Requirement::read(self.alloc, text)?;
        requirements.push(requirement)?;
        Ok(requirements)
    }
}

/// The requirements of a list, which is at most 16,777,216 bytes: one on each line (PEP 508,
/// "Grammar"), of at most 65,536 bytes. A carriage return at a line's end and white space at both
/// ends are dropped; empty lines and lines that begin with `#` are skipped.
///
/// The fault is that of input 1, in the order of the bytes: 57 with 38 at the 65,537th byte of a
/// line, and at its end 57 with 51 where the line isn't UTF-8, else with the fault of its
/// requirement (see [`Requirement::read`]); 56 at the 16,777,217th byte, before any 57 on
/// the same byte. Lack of memory, 60, has no place.
pub fn list_of(alloc: Global, bytes: &[u8]) -> Result<Vec<Requirement>, Fault>
    ensures ok { IfOk result (λ requirements.
        IsRequirementList bytes.now (map requirement_parts requirements.items)) }
    ensures refused { IfErr result (λ fault. (fault ≡ no_memory)
        ⊎ ((fault.place ≡ Place.Input 1)
        × IsRefusedList bytes.now fault.cause)) }
{
    match take_lines(
        alloc,
        &mut RequirementTaker { alloc },
        Vec::new(alloc),
        bytes,
    ) {
        Ok(requirements) => Ok(requirements),
        Err(cause) => Err(Fault::of(Place::Input(1), cause)),
    }
}

// Appends the text of a requirement and a line feed.
fn push_requirement(
    alloc: Global,
    text: &mut String,
    requirement: &Requirement,
) -> Result<(), AllocError>
    ensures { OnOk result (string_bytes text.new ≡ string_bytes text.old
        ++ (requirement_text (requirement_parts requirement.now) ++ codes "\n")) }
{
    let written = requirement.text(alloc).map_err(|_| AllocError)?;
    text.push_str(written.as_str())?;
    text.push_str("\n")
}

/// The text of each requirement and a line feed.
pub fn lines_text(alloc: Global, requirements: &[Requirement]) -> Result<String, AllocError>
    ensures { IfOk result (λ text.
        string_bytes text ≡ listed_text (map requirement_parts requirements.now)) }
{
    let mut text = String::new(alloc);
    for requirement in requirements {
        push_requirement(alloc, &mut text, requirement)?;
    }
    Ok(text)
}
