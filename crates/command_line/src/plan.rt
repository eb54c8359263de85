//! What the words of the command line ask for.

ghost use Rattle.std.specs.Prelude.{
  ◌≡◌,
  ◌≢◌,
  ◌⊎◌,
  IfErr,
  IfOk,
  None,
  Some,
  map,
  string_bytes,
};
ghost use Rattle.clap.specs.Words.{kind_of};
ghost use Rattle.command_line.specs.Plan.{AskNothing, Asks, IsBadWords, request};
ghost use Rattle.faults.specs.NoMemory.{no_memory};

mod command;
mod met;

use clap::Error;
use clap::error::ErrorKind;
use command::program;
use faults::{Cause, Fault, Place};
use met::plan_met;
use std::alloc::Global;

/// What the program is asked to do. Its texts are words that aren't read yet.
#[derive(Debug, Drop)]
pub enum Plan {
    /// No words: the table of standard input, as one list.
    Standard,
    /// `version TEXT`: the normal text of a version.
    ShowVersion {
        text: String,
    },
    /// `lines [--group G] FILE`: the requirements of the file with this path; of a project file with
    /// `--group` those of a dependency group.
    ShowLines {
        group: Option<String>,
        file: String,
    },
    /// `merge --env E [--group G] FILE..`: the table of one file or more, in the environment that a
    /// file has.
    Merge {
        env: String,
        group: Option<String>,
        files: Vec<String>,
    },
    /// `check --env E [--group G] [--pre] NAME VERSION FILE..`: whether the version of the package
    /// meets the requirements of one file or more, in the environment that a file has; with `--pre`
    /// a pre-release may meet them too.
    Check {
        env: String,
        group: Option<String>,
        pre: bool,
        name: String,
        version: String,
        files: Vec<String>,
    },
}

// The fault of words that are refused, with the text that tells why.
fn refused(text: String) -> Fault
    ensures { IsBadWords result }
{
    Fault {
        place: Place::Nowhere,
        cause: Cause::BadWords(text),
    }
}

// The fault of words that clap refuses, with its text.
fn words_fault(alloc: Global, error: &Error) -> Fault
    ensures { (result ≡ no_memory) ⊎ (IsBadWords result
        × (kind_of error.now ≢ ErrorKind.OutOfMemory)) }
{
    if error.kind() == ErrorKind::OutOfMemory {
        return Fault::no_memory();
    }
    match error.to_string(alloc) {
        Ok(text) => refused(text),
        Err(_) => Fault::no_memory(),
    }
}

// The fault of words in which no command is met; clap has no text for them.
fn no_command(alloc: Global) -> Fault
    ensures { (result ≡ no_memory) ⊎ IsBadWords result }
{
    match String::from_str(alloc, "error: no command is given\n") {
        Ok(text) => refused(text),
        Err(_) => Fault::no_memory(),
    }
}

// The plan that was met, or the fault where there is none.
fn plan_or_fault(alloc: Global, plan: Option<Plan>) -> Result<Plan, Fault>
    ensures some { IfOk result (λ p. plan ≡ Some p) }
    ensures none { IfErr result (λ fault. (plan ≡ None)
        × ((fault ≡ no_memory) ⊎ IsBadWords fault)) }
{
    match plan {
        Some(plan) => Ok(plan),
        None => Err(no_command(alloc)),
    }
}

/// What the words of the command line ask for, the program's own name not among them. They are read
/// by `clap`.
///
/// No words are the standard plan. Words that `clap` refuses, a request for help among them, are
/// `BadWords`, 61, with the text of `clap`; words in which it meets no command are too. A growth that
/// is refused is 60.
pub fn plan_of(alloc: Global, words: &[String]) -> Result<Plan, Fault>
    ensures plan { IfOk result (λ p. Asks (map string_bytes words.now) (request p)) }
    ensures refused { IfErr result (λ fault. (fault ≡ no_memory)
        ⊎ (IsBadWords fault × AskNothing (map string_bytes words.now))) }
{
    if words.is_empty() {
        return Ok(Plan::Standard);
    }
    match program(alloc)?.try_get_matches_from(words) {
        Ok(matches) => plan_or_fault(alloc, plan_met(alloc, &matches)?),
        Err(error) => Err(words_fault(alloc, &error)),
    }
}
