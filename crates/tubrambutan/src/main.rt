//! The program. Without words it merges the list of requirements on standard input and prints its
//! table; `merge` does so with lists, project files and printed tables, in the environment of a file, and `check`
//! prints whether a version meets them. `version TEXT` prints the normal text of a version, `lines
//! FILE` the requirements of a list or a project file. A refusal is told on standard error, with
//! status 2.
#![tactic(auto)]

use pep_tool::{Counted, run};
use std::process::ExitCode;
use std::rt::Env;
use std::{env, io};

// The words of the command line, without the program's own name.
fn words_of<R: Env + AllocGlobal>(rt: &R) -> io::Result<Vec<String>> {
    Ok(env::args(rt)?.skip(1).collect(rt.alloc())?)
}

fn main(rt: HostRuntime) -> ExitCode {
    let words = match words_of(&rt) {
        Ok(words) => words,
        Err(error) => return refuse_words(&rt, &error),
    };
    let mut input = Counted::new(rt.stdin());
    let mut output = Counted::new(rt.stdout());
    let mut faults = Counted::new(rt.stderr());
    let status = run(&rt, words.as_slice(), &mut input, &mut output, &mut faults);
    ExitCode::from(status)
}

// Words that can't be had: memory ran out, or one of them isn't UTF-8.
fn refuse_words(rt: &impl Eprint, error: &io::Error) -> ExitCode {
    let line = if error.kind() == io::ErrorKind::OutOfMemory {
        "refused code 60"
    } else {
        "refused code 61\nerror: a word of the command line is not UTF-8"
    };
    let _ = rt.eprintln(line);
    ExitCode::from(2)
}
