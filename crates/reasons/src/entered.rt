//! Claims of printed tables: their entries.

ghost use Rattle.std.specs.Prelude.{◌≡◌, ◌+◌, ◌≤◌, None, IfOk, map};
ghost use Rattle.pep_require.specs.Requirement.{IsAscending};
ghost use Rattle.pep_table.specs.Refused.{feeds};
ghost use Rattle.inputs.specs.TableFiles.{IsTableFile};
ghost use Rattle.inputs.specs.declared.input.Kind.TheVariants as kind;
ghost use Rattle.reasons.specs.Way.Asked.{AllGain, asked_parts, names_in, with_claim};
ghost use Rattle.reasons.specs.Claims.{entered};
ghost use Rattle.reasons.specs.Way.ClaimSearch.{AreClaimsBy, entry_lines};
ghost use Rattle.reasons.specs.Places.{StandsIn};
ghost use Rattle.texts.specs.Limits.{input_limit};

use crate::asked::{Asked, is_asked, with_claim};
use crate::claims::{Claim, PlacedClaim};
use demands::Entry;
use documents::file_text;
use pep_marker::{Environment, Name};
use pep_table::Table;
use std::alloc::{AllocError, Global};

// How many lines the bytes have that end.
fn feeds(bytes: &[u8]) -> usize
    ensures { result ≡ feeds bytes.now }
{
    bytes.iter().filter(|byte| **byte == b'\n').count()
}

// How many lines the entry has in the text of a table.
fn entry_lines(entry: &Entry) -> usize
    requires { entry_lines entry.now ≤ input_limit + 1 }
    ensures { result ≡ entry_lines entry.now }
{
    let extras = entry.extras().items().len();
    let urls = entry.urls().items().len();
    let texts = entry.texts().items().len();
    let ranges = entry.versions().ranges().len();
    1 + extras + urls + texts + ranges
}

// The packages with the entry of a name, which begins on this line.
fn with_entry(
    alloc: Global,
    asked: Vec<Asked>,
    input: u64,
    number: usize,
    name: &Name,
    entry: &Entry,
) -> Result<Vec<Asked>, AllocError>
    requires { IsAscending (names_in asked.items) }
    ensures { IfOk result (λ new. map asked_parts new.items
        ≡ map (with_claim (record {
          input = input;
          number = number;
          claim = entered name.now entry.now;
        })) (map asked_parts asked.items)) }
{
    if !is_asked(asked.as_slice(), name) {
        return Ok(asked);
    }
    let Ok(name) = name.copied(alloc) else {
        return Err(AllocError);
    };
    let Ok(entry) = entry.copied(alloc) else {
        return Err(AllocError);
    };
    let claim = Claim::Entered(name, entry);
    let number = number as u64;
    with_claim(
        asked,
        PlacedClaim {
            input,
            number,
            claim,
        },
    )
}

// The packages with the entries of a table file, from the last one to the first: the lines behind are
// counted, since a header may stand in front.
fn with_entries(
    alloc: Global,
    bytes: &[u8],
    input: u64,
    environment: &Environment,
    entries: &[(Name, Entry)],
    asked: Vec<Asked>,
) -> Result<Vec<Asked>, AllocError>
    requires order { IsAscending (names_in asked.items) }
    requires file { IsTableFile environment.now bytes.now entries.now }
    ensures { IfOk result (λ new. AllGain
        (AreClaimsBy (StandsIn environment.now kind.Table None bytes.now) input)
        asked.items new.items) }
{
    let mut asked = asked;
    let mut number = feeds(bytes) + 1;
    let mut left = entries.len();
    while left > 0 {
        left -= 1;
        let (name, entry) = &entries[left];
        number -= entry_lines(entry);
        asked = with_entry(alloc, asked, input, number, name, entry)?;
    }
    Ok(asked)
}

/// The packages with the claims of an accepted table file, which is the input with this number. Since
/// the table was read before, only memory can run out.
pub(crate) fn table_claims(
    alloc: Global,
    bytes: &[u8],
    input: u64,
    environment: &Environment,
    asked: Vec<Asked>,
) -> Result<Vec<Asked>, AllocError>
    requires { IsAscending (names_in asked.items) }
    ensures { IfOk result (λ new. AllGain
        (AreClaimsBy (StandsIn environment.now kind.Table None bytes.now) input)
        asked.items new.items) }
{
    let Ok(text) = file_text(bytes) else {
        return Err(AllocError);
    };
    let Ok(table) = Table::read(alloc, text, environment) else {
        return Err(AllocError);
    };
    with_entries(alloc, bytes, input, environment, table.entries(), asked)
}
