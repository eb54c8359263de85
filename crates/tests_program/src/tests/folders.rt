//! The program over folders of the tests, whose files fail at a call, and over the disk.

use crate::tests::lines::expect_line;
use crate::tests::plans::owned;
use crate::tests::streams::{NEVER, Reader};
use pep_tool::{Bytes, Counted, Disk, Folder, OpenFault, Source, run_in};
use std::alloc::AllocError;
use std::env::Env;
use std::fs::Files;
use std::path::PathBuf;
use std::process::Abort;
use std::{env, fs, process};

// A run over the files of the folder and over an input that it would refuse: its status, how often it
// read the input, what it prints and what it tells.
fn run_line<D: Folder>(rt: &(impl Abort + AllocGlobal), folder: &D, words: &[&str]) -> String {
    let words = owned(rt, words);
    words_line(rt, folder, words.as_slice())
}

// The same with owned words.
fn words_line<D: Folder>(rt: &(impl Abort + AllocGlobal), folder: &D, words: &[String]) -> String {
    let mut input = Bytes::new(b"-");
    let mut printed = Vec::new(rt.alloc());
    let mut told = Vec::new(rt.alloc());
    let status = run_in(
        rt.alloc(),
        folder,
        words,
        &mut input,
        &mut Counted::new(&mut printed),
        &mut Counted::new(&mut told),
    );
    let reads = input.calls();
    outcome_line(rt, status, reads, printed.as_slice(), told.as_slice())
}

// What a run is told as, where its outputs are texts.
fn outcome_line(
    rt: &(impl Abort + AllocGlobal),
    status: u8,
    reads: u64,
    printed: &[u8],
    told: &[u8],
) -> String {
    let printed = str::from_utf8(printed).unwrap_or("?");
    let told = str::from_utf8(told).unwrap_or("?");
    let line = format!(in rt.alloc(); "{status} {reads} [{printed}] [{told}]");
    line.expect(rt, "room for a line")
}

// A folder of one file, whose bytes it tells.
#[derive(Drop)]
struct OneFile<'a> {
    path: &'a str,
    bytes: &'a [u8],
}

impl<'a> Folder for OneFile<'a> {
    ghost use Rattle.std.specs.Prelude.{None, Some, bytes_eq, false, if◌then◌else◌, true};

    type File = Bytes<'a>;

    ghost file_at = { λ s path. if bytes_eq path s.path.now
        then record { bytes = Some s.bytes.now; identity = None; may_open = true; may_fail = false }
        else record { bytes = None; identity = None; may_open = false; may_fail = true } };

    fn open(&self, path: &str) -> Result<Bytes<'a>, OpenFault> {
        if path == self.path {
            Ok(Bytes::new(self.bytes))
        } else {
            Err(OpenFault::CannotOpen)
        }
    }
}

// Paths, and what `lines` with them is over a folder with a list at `r`. A table file has no lines to
// show, whether or not it can be opened.
const PATHS: [(&str, &str); 6] = [
    ("r", "0 0 [a>=1\nb[x]\n] []"),
    ("q", "2 0 [] [refused input 1 code 58\n]"),
    ("t.table", "2 0 [] [refused input 1 code 64\n]"),
    (".table", "2 0 [] [refused input 1 code 64\n]"),
    ("r/x.toml.table", "2 0 [] [refused input 1 code 64\n]"),
    ("t.Table", "2 0 [] [refused input 1 code 58\n]"),
];

#[test]
fn paths(rt: HostRuntime) {
    let folder = OneFile {
        path: "r",
        bytes: b"A >= 1\nb [x]",
    };
    for &(path, want) in &PATHS {
        let found = run_line(&rt, &folder, &["lines", path]);
        expect_line(&rt, found.as_str(), want);
    }
}

// The environment of the machine.
const MACHINE: &[u8] = b"os_name = \"posix\"\nsys_platform = \"linux\"\n\
    platform_machine = \"x86_64\"\nplatform_python_implementation = \"CPython\"\n\
    platform_release = \"6.1.0-18-amd64\"\nplatform_system = \"Linux\"\n\
    platform_version = \"#1 SMP\"\npython_version = \"3.9\"\npython_full_version = \"3.9.18\"\n\
    implementation_name = \"cpython\"\nimplementation_version = \"3.9.18\"\n";

// A folder whose files come a few bytes at a time and tell their paths. `r` fails at a call, opening
// `memory` wants memory, and only two other files are there.
#[derive(Drop)]
struct Failing {
    fails_at: u64,
}

impl Folder for Failing {
    ghost use Rattle.std.specs.Prelude.{None, Some, true};

    type File = Reader<'static>;

    ghost file_at = { λ _ path. record {
      bytes = None;
      identity = Some path;
      may_open = true;
      may_fail = true;
    } };

    fn open(&self, path: &str) -> Result<Reader<'static>, OpenFault> {
        match path {
            "r" => Ok(Reader::named("r", b"-e .\na>=1\n", self.fails_at)),
            "bad" => Ok(Reader::named("bad", b"a>=\n", NEVER)),
            "machine.toml" => Ok(Reader::named("machine.toml", MACHINE, NEVER)),
            "memory" => Err(OpenFault::NoMemory),
            _ => Err(OpenFault::CannotOpen),
        }
    }
}

// A run over such a folder, with words apart by blanks.
fn failing_line(rt: &(impl Abort + AllocGlobal), words: &str, fails_at: u64) -> String {
    let words: Result<Vec<&str>, AllocError> = words.split(' ').collect(rt.alloc());
    let words = words.expect(rt, "room for words");
    run_line(rt, &Failing { fails_at }, words.as_slice())
}

// Words, the number of the call of `r` that fails, and what the run is.
const FAILING: [(&str, u64, &str); 14] = [
    // The first line is faulty, and the list comes in two pieces; the third call finds its end.
    ("lines r", 1, "2 0 [] [refused input 1 code 58\n]"),
    ("lines r", 2, "2 0 [] [refused input 1 code 58\n]"),
    ("lines r", 3, "2 0 [] [refused input 1 code 58\n]"),
    ("lines r", 4, "2 0 [] [refused input 1 line 1 code 57 37\n]"),
    ("lines q", NEVER, "2 0 [] [refused input 1 code 58\n]"),
    ("lines memory", NEVER, "2 0 [] [refused code 60\n]"),
    // All files are read before the first is judged.
    (
        "merge --env machine.toml r bad",
        1,
        "2 0 [] [refused input 1 code 58\n]",
    ),
    (
        "merge --env machine.toml r bad",
        2,
        "2 0 [] [refused input 1 code 58\n]",
    ),
    (
        "merge --env machine.toml r q",
        2,
        "2 0 [] [refused input 1 code 58\n]",
    ),
    (
        "merge --env machine.toml bad r",
        2,
        "2 0 [] [refused input 2 code 58\n]",
    ),
    (
        "merge --env machine.toml bad r",
        3,
        "2 0 [] [refused input 2 code 58\n]",
    ),
    (
        "merge --env machine.toml bad r",
        4,
        "2 0 [] [refused input 1 line 1 code 57 33 12\n]",
    ),
    (
        "merge --env machine.toml bad memory",
        NEVER,
        "2 0 [] [refused code 60\n]",
    ),
    (
        "merge --env r q",
        2,
        "2 0 [] [refused environment code 58\n]",
    ),
];

#[test]
fn files_that_fail(rt: HostRuntime) {
    for &(words, fails_at, want) in &FAILING {
        let found = failing_line(&rt, words, fails_at);
        expect_line(&rt, found.as_str(), want);
    }
}

// The name of a folder of this test's own.
fn temporary_name(rt: &HostRuntime, test: &str) -> Result<String, AllocError> {
    format!(in rt.alloc(); "tubrambutan-{}-{test}", process::id(rt.process()))
}

// The path of the folder of this name.
fn temporary_path(rt: &(impl Abort + Env + AllocGlobal), name: &str) -> PathBuf {
    let parent = env::temp_dir(rt).expect(rt, "the folder of temporary files");
    parent.join(rt.alloc(), name).expect(rt, "room for a path")
}

// This folder, made anew.
fn temporary(rt: &(impl Abort + Env + Files + AllocGlobal), name: &str) -> PathBuf {
    let folder = temporary_path(rt, name);
    let _ = fs::remove_dir_all(rt, folder.as_path());
    fs::create_dir(rt, folder.as_path()).expect(rt, "a folder");
    folder
}

// A run over the disk.
fn disk_line(rt: &(impl Abort + Files + AllocGlobal), path: &str) -> String {
    run_line(rt, &Disk(rt), &["lines", path])
}

// A run over a file of these bytes in the folder of this name, which is removed behind it.
fn file_line(rt: &(impl Abort + Env + Files + AllocGlobal), name: &str, bytes: &[u8]) -> String {
    let folder = temporary(rt, name);
    let file = folder
        .join(rt.alloc(), "list")
        .expect(rt, "room for a path");
    fs::write(rt, file.as_path(), bytes).expect(rt, "a file");
    let line = disk_line(rt, file.as_str());
    fs::remove_dir_all(rt, folder.as_path()).expect(rt, "a folder to remove");
    line
}

#[test]
fn a_file_on_disk(rt: HostRuntime) {
    let name = temporary_name(&rt, "files").expect(&rt, "room for a name");
    let found = file_line(&rt, name.as_str(), b"A>=1\nb[x]\n");
    expect_line(&rt, found.as_str(), "0 0 [a>=1\nb[x]\n] []");
    let found = disk_line(&rt, "a\0b");
    expect_line(&rt, found.as_str(), "2 0 [] [refused input 1 code 58\n]");
}
