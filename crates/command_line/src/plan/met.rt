//! The plan of the command that `clap` met in the words.

ghost use Rattle.std.specs.Prelude.{◌≡◌, IfOk, None, Some};
ghost use Rattle.std.specs.Prelude.{map, option_and_then, option_map, string_bytes};
ghost use Rattle.clap.specs.Words.{first_of, found_of, rows_of, subcommand_rows_of};
ghost use Rattle.command_line.specs.Plan.{
  check_of,
  flag_of,
  lines_of,
  merge_of,
  request,
  request_of,
  version_of,
};

use crate::plan::Plan;
use clap::ArgMatches;
use std::alloc::{AllocError, Global};

// The texts as strings of their own.
fn owned(alloc: Global, texts: &[&str]) -> Result<Vec<String>, AllocError>
    ensures { IfOk result (λ list. map string_bytes list.items ≡ map (λ t. t.now) texts.now) }
{
    let mut list = Vec::with_capacity(alloc, texts.len())?;
    for text in texts {
        list.push(String::from_str(alloc, text)?)?;
    }
    Ok(list)
}

// Whether the flag was given. `get_flag` would do, but doesn't say what it makes of a text that is
// neither `true` nor `false`.
fn is_given(found: &ArgMatches<'_>, flag: &str) -> bool
    ensures { result ≡ flag_of flag.now (rows_of (found_of found.now)) }
{
    found.get_one::<bool>(flag).unwrap_or(false)
}

// The text of an argument, as a string of its own.
fn text_given(
    alloc: Global,
    found: &ArgMatches<'_>,
    name: &str,
) -> Result<Option<String>, AllocError>
    ensures { IfOk result (λ given.
        option_map string_bytes given ≡ first_of name.now (rows_of (found_of found.now))) }
{
    match found.get_str(name) {
        Some(text) => Ok(Some(String::from_str(alloc, text)?)),
        None => Ok(None),
    }
}

// What `version` was given.
fn version_met(alloc: Global, found: &ArgMatches<'_>) -> Result<Option<Plan>, AllocError>
    ensures { IfOk result (λ plan.
        option_map request plan ≡ version_of (rows_of (found_of found.now))) }
{
    match text_given(alloc, found, "TEXT")? {
        Some(text) => Ok(Some(Plan::ShowVersion { text })),
        None => Ok(None),
    }
}

// What `lines` was given.
fn lines_met(alloc: Global, found: &ArgMatches<'_>) -> Result<Option<Plan>, AllocError>
    ensures { IfOk result (λ plan.
        option_map request plan ≡ lines_of (rows_of (found_of found.now))) }
{
    let Some(file) = text_given(alloc, found, "FILE")? else {
        return Ok(None);
    };
    let group = text_given(alloc, found, "group")?;
    Ok(Some(Plan::ShowLines { group, file }))
}

// What `merge` was given.
fn merge_met(alloc: Global, found: &ArgMatches<'_>) -> Result<Option<Plan>, AllocError>
    ensures { IfOk result (λ plan.
        option_map request plan ≡ merge_of (rows_of (found_of found.now))) }
{
    let (Some(env), Some(files)) = (found.get_str("env"), found.get_strs("FILE")) else {
        return Ok(None);
    };
    Ok(Some(Plan::Merge {
        env: String::from_str(alloc, env)?,
        group: text_given(alloc, found, "group")?,
        files: owned(alloc, files)?,
    }))
}

// What `check` was given.
fn check_met(alloc: Global, found: &ArgMatches<'_>) -> Result<Option<Plan>, AllocError>
    ensures { IfOk result (λ plan.
        option_map request plan ≡ check_of (rows_of (found_of found.now))) }
{
    let (Some(env), Some(name), Some(version), Some(files)) = (
        found.get_str("env"),
        found.get_str("NAME"),
        found.get_str("VERSION"),
        found.get_strs("FILE"),
    ) else {
        return Ok(None);
    };
    Ok(Some(Plan::Check {
        env: String::from_str(alloc, env)?,
        group: text_given(alloc, found, "group")?,
        pre: is_given(found, "pre"),
        name: String::from_str(alloc, name)?,
        version: String::from_str(alloc, version)?,
        files: owned(alloc, files)?,
    }))
}

/// The plan of the command that was met, where it was given all that it wants.
pub(crate) fn plan_met(alloc: Global, matches: &ArgMatches<'_>) -> Result<Option<Plan>, AllocError>
    ensures { IfOk result (λ plan. option_map request plan
        ≡ option_and_then request_of (subcommand_rows_of matches.now)) }
{
    let Some((name, found)) = matches.subcommand() else {
        return Ok(None);
    };
    match name {
        "version" => version_met(alloc, found),
        "lines" => lines_met(alloc, found),
        "merge" => merge_met(alloc, found),
        "check" => check_met(alloc, found),
        _ => Ok(None),
    }
}
