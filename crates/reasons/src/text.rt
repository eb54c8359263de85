//! A reason as a text.

ghost use Rattle.std.specs.Prelude.{◌≡◌, ◌++◌, IfErr, IfOk, OnOk, codes, decimal, map, slice_index_or, string_bytes};
ghost use Rattle.reasons.specs.ReasonText.{claim_line, claim_lines, reason_text, reasons_text, written};
ghost use Rattle.faults.specs.NoMemory.{no_memory};
ghost use Rattle.reasons.specs.View.{claim_parts, claims_at, nowhere, placed_parts, reason_parts};

use crate::claims::{Claim, PlacedClaim, Reason};
use faults::Fault;
use itoa::Buffer;
use pep_table::entry_text;
use std::alloc::{AllocError, Global};

// Appends a number and a space.
fn push_number(text: &mut String, number: u64) -> Result<(), AllocError>
    ensures { OnOk result
        (string_bytes text.new ≡ string_bytes text.old ++ decimal number ++ codes " ") }
{
    let mut buffer = Buffer::new();
    text.push_str(buffer.format(number))?;
    text.push_str(" ")
}

// Appends the normal text of a requirement, or the name of an entry.
fn push_written(alloc: Global, text: &mut String, claim: &Claim) -> Result<(), AllocError>
    ensures { OnOk result (string_bytes text.new
        ≡ string_bytes text.old ++ written (claim_parts claim.now)) }
{
    match claim {
        Claim::Required(requirement) => match requirement.text(alloc) {
            Ok(line) => text.push_str(line.as_str()),
            Err(_) => Err(AllocError),
        },
        Claim::Entered(name, _) => text.push_str(name.text()),
    }
}

// Appends the line of a claim behind a word.
fn push_claim(
    alloc: Global,
    text: &mut String,
    word: &str,
    placed: &PlacedClaim,
) -> Result<(), AllocError>
    ensures { OnOk result (string_bytes text.new
        ≡ string_bytes text.old ++ claim_line word.now (placed_parts placed.now)) }
{
    text.push_str(word)?;
    text.push_str(" ")?;
    push_number(text, placed.input)?;
    push_number(text, placed.number)?;
    push_written(alloc, text, &placed.claim)?;
    text.push_str("\n")
}

// Appends the lines of all claims.
fn push_claims(alloc: Global, text: &mut String, claims: &[PlacedClaim]) -> Result<(), AllocError>
    ensures { OnOk result (string_bytes text.new ≡ string_bytes text.old
        ++ claim_lines (codes "claim") (map placed_parts claims.now)) }
{
    for placed in claims {
        push_claim(alloc, text, "claim", placed)?;
    }
    Ok(())
}

// Appends the line of the claim at an index that clashes; there is none at an index beyond the end.
fn push_member(
    alloc: Global,
    text: &mut String,
    claims: &[PlacedClaim],
    index: usize,
) -> Result<(), AllocError>
    ensures { OnOk result (string_bytes text.new ≡ string_bytes text.old ++ claim_line
        (codes "clash") (slice_index_or (map placed_parts claims.now) index nowhere)) }
{
    match claims.get(index) {
        Some(placed) => push_claim(alloc, text, "clash", placed),
        None => text.push_str("clash 0 0 \n"),
    }
}

// Appends the lines of those that clash.
fn push_clash(
    alloc: Global,
    text: &mut String,
    claims: &[PlacedClaim],
    clash: &[usize],
) -> Result<(), AllocError>
    ensures { OnOk result (string_bytes text.new ≡ string_bytes text.old ++ claim_lines
        (codes "clash") (claims_at (map placed_parts claims.now) clash.now)) }
{
    for &index in clash {
        push_member(alloc, text, claims, index)?;
    }
    Ok(())
}

// Appends a reason.
fn push_reason(alloc: Global, text: &mut String, reason: &Reason) -> Result<(), AllocError>
    ensures { OnOk result (string_bytes text.new
        ≡ string_bytes text.old ++ reason_text (reason_parts reason.now)) }
{
    let claims = reason.claims.as_slice();
    text.push_str(reason.name.text())?;
    text.push_str(" ")?;
    text.push_str(reason.verdict.word())?;
    text.push_str("\n")?;
    push_claims(alloc, text, claims)?;
    push_clash(alloc, text, claims, reason.clash.as_slice())
}

fn written_reasons(alloc: Global, reasons: &[Reason]) -> Result<String, AllocError>
    ensures { IfOk result (λ text.
        string_bytes text ≡ reasons_text (map reason_parts reasons.now)) }
{
    let mut text = String::new(alloc);
    for reason in reasons {
        push_reason(alloc, &mut text, reason)?;
    }
    Ok(text)
}

fn written_reason(alloc: Global, reason: &Reason) -> Result<String, AllocError>
    ensures { IfOk result (λ text. string_bytes text ≡ reason_text (reason_parts reason.now)) }
{
    let mut text = String::new(alloc);
    push_reason(alloc, &mut text, reason)?;
    Ok(text)
}

impl Claim {
    ghost use Rattle.std.specs.Prelude.{◌≡◌, IfErr, IfOk, string_bytes};
    ghost use Rattle.faults.specs.NoMemory.{no_memory};
    ghost use Rattle.reasons.specs.Claims.{IsClaimText};
    ghost use Rattle.reasons.specs.View.{claim_parts};

    /// The normal text of the claim: of a requirement its line, without a line feed (see
    /// [`Requirement::text`](pep_require::Requirement::text)); of a table's entry its lines, each with its line feed
    /// (see [`entry_text`]). The only fault is `NoMemory`, 60.
    pub fn text(&self, alloc: Global) -> Result<String, Fault>
        ensures text { IfOk result (λ text. IsClaimText (claim_parts self.now) (string_bytes text)) }
        ensures faults { IfErr result (λ fault. fault ≡ no_memory) }
    {
        match self {
            Claim::Required(requirement) => match requirement.text(alloc) {
                Ok(text) => Ok(text),
                Err(_) => Err(Fault::no_memory()),
            },
            Claim::Entered(name, entry) => match entry_text(alloc, name, entry) {
                Ok(text) => Ok(text),
                Err(_) => Err(Fault::no_memory()),
            },
        }
    }
}

impl Reason {
    ghost use Rattle.std.specs.Prelude.{◌≡◌, IfErr, IfOk, string_bytes};
    ghost use Rattle.faults.specs.NoMemory.{no_memory};
    ghost use Rattle.reasons.specs.ReasonText.{reason_text};
    ghost use Rattle.reasons.specs.View.{reason_parts};

    /// The reason as lines: the name and the word of the verdict; `claim I N TEXT` for each claim, with the number of
    /// its input, that of its line or text there, and its normal text, of a table's entry its name; and
    /// `clash I N TEXT` for each claim that clashes. The only fault is `NoMemory`, 60.
    pub fn text(&self, alloc: Global) -> Result<String, Fault>
        ensures text { IfOk result (λ text.
            string_bytes text ≡ reason_text (reason_parts self.now)) }
        ensures faults { IfErr result (λ fault. fault ≡ no_memory) }
    {
        Ok(written_reason(alloc, self)?)
    }
}

/// The lines of reasons, one reason behind the other: see [`Reason::text`]. The only fault is
/// `NoMemory`, 60.
pub fn reasons_text(alloc: Global, reasons: &[Reason]) -> Result<String, Fault>
    ensures text { IfOk result (λ text.
        string_bytes text ≡ reasons_text (map reason_parts reasons.now)) }
    ensures faults { IfErr result (λ fault. fault ≡ no_memory) }
{
    Ok(written_reasons(alloc, reasons)?)
}
