//! Reasons as lines: the verdict, and each claim with its place, those that clash with a star.

use faults::Fault;
use inputs::{Input, Kind};
use pep_marker::{Environment, Name};
use reasons::{PlacedClaim, Reason, clashes, why};
use std::alloc::{AllocError, Global};
use tests_kit::MACHINE;

/// An input's kind and its text.
pub(crate) type Part<'a> = (Kind, &'a str);

// The input of a kind and a text.
fn input_of(alloc: Global, kind: Kind, text: &str) -> Result<Input, AllocError> {
    let bytes = Vec::from_slice(alloc, text.as_bytes())?;
    Ok(Input {
        kind,
        bytes,
        group: None,
    })
}

// The inputs of these kinds and texts.
fn inputs_of(alloc: Global, parts: &[Part]) -> Result<Vec<Input>, AllocError> {
    let mut inputs = Vec::new(alloc);
    for &(kind, text) in parts {
        inputs.push(input_of(alloc, kind, text)?)?;
    }
    Ok(inputs)
}

// The place of a claim and its text.
fn placed_text(alloc: Global, placed: &PlacedClaim) -> Result<String, Fault> {
    let text = placed.claim.text(alloc)?;
    let input = placed.input;
    let number = placed.number;
    Ok(format!(in alloc; " | {input}:{number} {text}")?)
}

// The line of a reason.
fn reason_line(alloc: Global, reason: &Reason) -> Result<String, Fault> {
    let mut line = String::from_str(alloc, reason.verdict.word())?;
    for (index, placed) in reason.claims.iter().enumerate() {
        let text = placed_text(alloc, placed)?;
        line.push_str(text.as_str())?;
        if reason.clash.contains(&index) {
            line.push_str(" *")?;
        }
    }
    Ok(line)
}

// The environment of the machine.
fn machine(alloc: Global) -> Result<Environment, Fault> {
    match Environment::of(alloc, &MACHINE) {
        Ok(environment) => Ok(environment),
        Err(_) => Err(Fault::no_memory()),
    }
}

fn reason_of(alloc: Global, inputs: &[Input], name: &str) -> Result<Reason, Fault> {
    let Ok(name) = Name::read(alloc, name) else {
        return Err(Fault::no_memory());
    };
    why(alloc, inputs, &machine(alloc)?, name)
}

/// The line of the reason of a package with a name, or that of the fault.
pub(crate) fn why_line(alloc: Global, parts: &[Part], name: &str) -> Result<String, Fault> {
    let inputs = inputs_of(alloc, parts)?;
    match reason_of(alloc, inputs.as_slice(), name) {
        Ok(reason) => reason_line(alloc, &reason),
        Err(fault) => fault.text(alloc),
    }
}

// The names of reasons, each with its line.
fn reason_lines(alloc: Global, reasons: &[Reason]) -> Result<String, Fault> {
    let mut lines = String::new(alloc);
    for reason in reasons {
        let line = reason_line(alloc, reason)?;
        let name = reason.name.text();
        let own = format!(in alloc; "{name} {}\n", line.as_str())?;
        lines.push_str(own.as_str())?;
    }
    Ok(lines)
}

fn reasons_of(alloc: Global, inputs: &[Input]) -> Result<Vec<Reason>, Fault> {
    clashes(alloc, inputs, &machine(alloc)?)
}

/// The lines of the reasons of all packages that aren't open, or that of the fault.
pub(crate) fn clashes_lines(alloc: Global, parts: &[Part]) -> Result<String, Fault> {
    let inputs = inputs_of(alloc, parts)?;
    match reasons_of(alloc, inputs.as_slice()) {
        Ok(reasons) => reason_lines(alloc, reasons.as_slice()),
        Err(fault) => fault.text(alloc),
    }
}
