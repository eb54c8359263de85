//! The command line, as `clap` reads it. Its texts of help and usage are for people, and no clause
//! speaks of them.

ghost use Rattle.std.specs.Prelude.{◌≡◌, IfOk, false};
ghost use Rattle.clap.specs.Words.{app_of, rule_of};
ghost use Rattle.command_line.specs.Plan.{
  IsLocal,
  check_command,
  environment_option,
  files_argument,
  group_option,
  lines_command,
  merge_command,
  pre_flag,
  program,
  text_argument,
  text_option,
  version_command,
};

use clap::{Arg, ArgAction, Command};
use std::alloc::{AllocError, Global};

// What the help of the program tells beside its commands.
const PROGRAM_HELP: &str =
    "Without a command, standard input is one list: its table is printed, in the environment of\n\
    CPython 3.9.18 on Linux and x86-64.\n\
    \n\
    A file whose name ends in .toml is a project file (PEP 621), one whose name ends in .table a\n\
    printed table. Every other file is a list.\n\
    \n\
    The status is 0, 1 for a check that isn't `yes`, or 2 for whatever is refused.";

// .. and that of `check`.
const CHECK_HELP: &str =
    "The status is 0 for `yes`, 1 for `no` and `conflict`, and 2 for whatever is refused.";

// A text that has to be there.
fn text_argument<'a>(alloc: Global, name: &'a str, help: &'a str) -> Arg<'a>
    ensures rule { rule_of result ≡ text_argument name.now }
    ensures local { result.global ≡ false }
{
    Arg::new(alloc, name)
        .required(true)
        .action(ArgAction::Set)
        .help(help)
}

// An option with a text, as `--name VALUE`.
fn text_option<'a>(alloc: Global, name: &'a str, value_name: &'a str, help: &'a str) -> Arg<'a>
    ensures rule { rule_of result ≡ text_option name.now }
    ensures local { result.global ≡ false }
{
    Arg::new(alloc, name)
        .long(name)
        .value_name(value_name)
        .action(ArgAction::Set)
        .help(help)
}

// The paths of one file or more.
fn files_argument<'a>(alloc: Global) -> Arg<'a>
    ensures rule { rule_of result ≡ files_argument }
    ensures local { result.global ≡ false }
{
    Arg::new(alloc, "FILE")
        .required(true)
        .num_args(1..)
        .action(ArgAction::Append)
        .help(
            "The path of a project file (.toml), of a printed table (.table) or of a list (any other)",
        )
}

// The option `--env E`, which has to be there.
fn environment_option<'a>(alloc: Global) -> Arg<'a>
    ensures rule { rule_of result ≡ environment_option }
    ensures local { result.global ≡ false }
{
    let help = "The path of the environment: a TOML file with a text for each variable of PEP 508";
    text_option(alloc, "env", "E", help).required(true)
}

// The option `--group G`.
fn group_option<'a>(alloc: Global) -> Arg<'a>
    ensures rule { rule_of result ≡ group_option }
    ensures local { result.global ≡ false }
{
    let help = "The dependency group of project files that counts, in place of their dependencies";
    text_option(alloc, "group", "G", help)
}

// The flag `--pre`.
fn pre_flag<'a>(alloc: Global) -> Arg<'a>
    ensures rule { rule_of result ≡ pre_flag }
    ensures local { result.global ≡ false }
{
    Arg::new(alloc, "pre")
        .long("pre")
        .action(ArgAction::SetTrue)
        .help("Takes a pre-release too")
}

fn version_command<'a>(alloc: Global) -> Result<Command<'a>, AllocError>
    ensures { IfOk result (λ c. IsLocal c version_command) }
{
    let text = text_argument(alloc, "TEXT", "A version, in any spelling of PEP 440");
    Command::new(alloc, "version")
        .about("Prints the normal text of a version")
        .arg(text)
}

fn lines_command<'a>(alloc: Global) -> Result<Command<'a>, AllocError>
    ensures { IfOk result (λ c. IsLocal c lines_command) }
{
    let file = text_argument(
        alloc,
        "FILE",
        "The path of a project file (.toml) or of a list",
    );
    Command::new(alloc, "lines")
        .about("Prints the requirements of a file, one on each line")
        .arg(group_option(alloc))?
        .arg(file)
}

fn merge_command<'a>(alloc: Global) -> Result<Command<'a>, AllocError>
    ensures { IfOk result (λ c. IsLocal c merge_command) }
{
    Command::new(alloc, "merge")
        .about("Merges the requirements of files, and prints their table")
        .arg(environment_option(alloc))?
        .arg(group_option(alloc))?
        .arg(files_argument(alloc))
}

fn check_command<'a>(alloc: Global) -> Result<Command<'a>, AllocError>
    ensures { IfOk result (λ c. IsLocal c check_command) }
{
    let environment = environment_option(alloc);
    let group = group_option(alloc);
    let pre = pre_flag(alloc);
    let name = text_argument(alloc, "NAME", "The name of a package");
    let version = text_argument(alloc, "VERSION", "A version of it");
    let files = files_argument(alloc);
    Command::new(alloc, "check")
        .about("Prints whether a version meets the requirements of files: yes, no or conflict")
        .after_help(CHECK_HELP)
        .arg(environment)?
        .arg(group)?
        .arg(pre)?
        .arg(name)?
        .arg(version)?
        .arg(files)
}

/// The program with all its commands.
pub(crate) fn program<'a>(alloc: Global) -> Result<Command<'a>, AllocError>
    ensures { IfOk result (λ c. app_of c ≡ program) }
{
    Command::new(alloc, "tubrambutan")
        .about("Merges Python requirements; without words, the list on standard input")
        .after_help(PROGRAM_HELP)
        .bin_name("tubrambutan")?
        .no_binary_name(true)
        .subcommand_required(true)
        .subcommand(version_command(alloc)?)?
        .subcommand(lines_command(alloc)?)?
        .subcommand(merge_command(alloc)?)?
        .subcommand(check_command(alloc)?)
}
