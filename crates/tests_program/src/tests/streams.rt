//! The program over readers and writers that fail at a call, that give bytes without end, or that
//! take none.

use crate::tests::calls::{fault_text, machine};
use crate::tests::lines::expect_line;
use crate::tests::plans::owned;
use pep_table::Table;
use pep_tool::{Bytes, Counted, Failed, Fault, Sink, Source, merge_reader, run, write_text};
use std::alloc::{AllocError, Global};
use std::fs::Files;
use std::io;
use std::io::Write;
use std::process::Abort;
use tests_kit::STANDARD_HEADER;

const LIST: &[u8] = b"flask>=2.0\nFlask<3\n";

// How many bytes a call moves at most.
const PIECE: usize = 7;

// A call with a number that no run reaches.
pub(crate) const NEVER: u64 = u64::MAX;

// A reader with a name that gives a few bytes at a time, and whose call of this number fails.
#[derive(Drop)]
pub(crate) struct Reader<'a> {
    name: &'a str,
    bytes: Bytes<'a>,
    piece: usize,
    failed: bool,
    fails_at: u64,
}

impl<'a> Reader<'a> {
    ghost use Rattle.std.specs.Prelude.{◌≡◌, false};

    fn new(bytes: &'a [u8], fails_at: u64) -> Self
        ensures calls { result.bytes.calls ≡ 0 }
        ensures failed { result.failed ≡ false }
    {
        Reader::named("", bytes, fails_at)
    }

    pub(crate) fn in_pieces(bytes: &'a [u8], piece: usize, fails_at: u64) -> Self
        ensures calls { result.bytes.calls ≡ 0 }
        ensures failed { result.failed ≡ false }
    {
        Reader {
            piece,
            ..Reader::new(bytes, fails_at)
        }
    }

    pub(crate) fn named(name: &'a str, bytes: &'a [u8], fails_at: u64) -> Self
        ensures name { result.name.now ≡ name.now }
        ensures calls { result.bytes.calls ≡ 0 }
        ensures failed { result.failed ≡ false }
    {
        Reader {
            name,
            bytes: Bytes::new(bytes),
            piece: PIECE,
            failed: false,
            fails_at,
        }
    }
}

impl Source for Reader<'_> {
    ghost use Rattle.std.specs.Prelude.{Some};

    ghost device = { λ s. record {
      calls = s.bytes.calls;
      failed = s.failed;
      identity = Some s.name.now;
    } };

    fn pull(&mut self, buf: &mut [u8]) -> Result<usize, Failed> {
        let room = buf.len().min(self.piece);
        let pulled = self.bytes.pull(&mut buf[..room]);
        if self.bytes.calls() == self.fails_at {
            self.failed = true;
            return Err(Failed);
        }
        pulled
    }

    fn calls(&self) -> u64 {
        self.bytes.calls()
    }

    fn failed(&self) -> bool {
        self.failed
    }
}

// A reader of comments that never ends, and counts the bytes that it gave.
#[derive(Drop)]
struct Endless {
    // How many bytes a call gives at most.
    piece: usize,
    // Each call gives a line feed at every so many bytes, and none where this is 0.
    line: usize,
    // The call with this number begins with a line at fault.
    faulty: u64,
    given: u64,
    calls: u64,
}

impl Endless {
    ghost use Rattle.std.specs.Prelude.{◌≡◌};

    fn new(piece: usize, line: usize, faulty: u64) -> Self
        ensures { result.calls ≡ 0 }
    {
        Endless {
            piece,
            line,
            faulty,
            given: 0,
            calls: 0,
        }
    }
}

// Fills the bytes with comments and line feeds.
fn fill(bytes: &mut [u8], line: usize) {
    for (place, byte) in bytes.iter_mut().enumerate() {
        *byte = if place.checked_rem(line) == Some(0) {
            b'\n'
        } else {
            b'#'
        };
    }
}

// Writes over the front of the bytes.
fn put(bytes: &mut [u8], front: &[u8]) {
    for (byte, own) in bytes.iter_mut().zip(front) {
        *byte = *own;
    }
}

impl Source for Endless {
    ghost use Rattle.std.specs.Prelude.{None, false};

    ghost device = { λ s. record { calls = s.calls; failed = false; identity = None } };

    fn pull(&mut self, buf: &mut [u8]) -> Result<usize, Failed> {
        self.calls += 1;
        let room = buf.len().min(self.piece);
        let piece = &mut buf[..room];
        fill(piece, self.line);
        if self.calls == self.faulty {
            put(piece, b"\na>=\n");
        }
        self.given = self.given.saturating_add(room as u64);
        Ok(room)
    }

    fn calls(&self) -> u64 {
        self.calls
    }

    fn failed(&self) -> bool {
        false
    }
}

// A writer that takes a few bytes at a time, and whose call of this number fails.
#[derive(Drop)]
struct Writer {
    bytes: Vec<u8>,
    calls: u64,
    failed: bool,
    fails_at: u64,
}

impl Writer {
    ghost use Rattle.std.specs.Prelude.{◌≡◌, false};

    fn new(alloc: Global, fails_at: u64) -> Self
        ensures calls { result.calls ≡ 0 }
        ensures failed { result.failed ≡ false }
    {
        Writer {
            bytes: Vec::new(alloc),
            calls: 0,
            failed: false,
            fails_at,
        }
    }
}

impl Sink for Writer {
    ghost use Rattle.std.specs.Prelude.{None};

    ghost device = { λ s. record { calls = s.calls; failed = s.failed; identity = None } };

    fn push(&mut self, buf: &[u8]) -> Result<usize, Failed> {
        self.calls += 1;
        let count = buf.len().min(PIECE);
        if self.calls == self.fails_at || self.bytes.extend_from_slice(&buf[..count]).is_err() {
            self.failed = true;
            return Err(Failed);
        }
        Ok(count)
    }

    fn give_up(&mut self) {
        self.failed = true;
    }

    fn calls(&self) -> u64 {
        self.calls
    }

    fn failed(&self) -> bool {
        self.failed
    }
}

// A writer of std that takes no byte.
#[derive(Drop)]
struct Full;

impl Write for Full {
    fn write(&mut self, _buf: &[u8]) -> io::Result<usize> {
        Ok(0)
    }

    fn flush(&mut self) -> io::Result<()> {
        Ok(())
    }
}

// What stands behind the calls of a device that failed.
fn mark(failed: bool) -> &'static str {
    if failed { "!" } else { "" }
}

// The bytes as a text, where they are one.
fn text(bytes: &[u8]) -> &str {
    str::from_utf8(bytes).unwrap_or("?")
}

// What is printed, with a mark in the place of the header of the standard environment.
fn shown(alloc: Global, printed: &[u8]) -> Result<String, AllocError> {
    match text(printed).strip_prefix(STANDARD_HEADER) {
        Some(lines) => format!(in alloc; "@{lines}"),
        None => String::from_str(alloc, text(printed)),
    }
}

// Behind a run: its status, the calls of its reader and of the writer of its output, what is printed
// and what is told.
fn devices_line(
    rt: &(impl Abort + AllocGlobal),
    status: u8,
    input: &Reader,
    output: &Writer,
    faults: &Writer,
) -> String {
    let (reads, writes) = (input.calls(), output.calls);
    let (read, written) = (mark(input.failed), mark(output.failed));
    let told = text(faults.bytes.as_slice());
    let shown = shown(rt.alloc(), output.bytes.as_slice()).expect(rt, "room for lines");
    let line = format!(in rt.alloc();
        "{status} {reads}{read} {writes}{written} [{shown}] [{told}]"
    );
    line.expect(rt, "room for a line")
}

// A run over a reader and two writers whose calls of these numbers fail: its status, and what the
// devices are behind it.
fn run_line(
    rt: &(impl Abort + Files + AllocGlobal),
    words: &[&str],
    list: &[u8],
    fails_at: [u64; 3],
) -> String {
    let words = owned(rt, words);
    words_line(rt, words.as_slice(), list, fails_at)
}

// The same with owned words.
fn words_line(
    rt: &(impl Abort + Files + AllocGlobal),
    words: &[String],
    list: &[u8],
    fails_at: [u64; 3],
) -> String {
    let mut input = Reader::new(list, fails_at[0]);
    let mut output = Writer::new(rt.alloc(), fails_at[1]);
    let mut faults = Writer::new(rt.alloc(), fails_at[2]);
    let status = run(rt, words, &mut input, &mut output, &mut faults);
    devices_line(rt, status, &input, &output, &faults)
}

// A list, the number of the call of its reader that fails, and what the run is. The list comes in
// three pieces, and the fourth call finds its end.
const READS: [(&[u8], u64, &str); 9] = [
    (LIST, 1, "2 1! 0 [] [refused input 1 code 58\n]"),
    (LIST, 2, "2 2! 0 [] [refused input 1 code 58\n]"),
    (LIST, 3, "2 3! 0 [] [refused input 1 code 58\n]"),
    (LIST, 4, "2 4! 0 [] [refused input 1 code 58\n]"),
    (
        LIST,
        5,
        "0 4 56 [@flask open\n  range before 2 to before 3.dev0\n] []",
    ),
    // The first line is faulty, and the read behind it would fail.
    (
        b"-e .\na>=1\n",
        2,
        "2 1 0 [] [refused input 1 line 1 code 57 37\n]",
    ),
    (
        b"a>=\n",
        2,
        "2 1 0 [] [refused input 1 line 1 code 57 33 12\n]",
    ),
    (b"a>=1", 2, "2 2! 0 [] [refused input 1 code 58\n]"),
    (
        b"a>=",
        NEVER,
        "2 2 0 [] [refused input 1 line 1 code 57 33 12\n]",
    ),
];

#[test]
fn reads_that_fail(rt: HostRuntime) {
    for &(list, fails_at, want) in &READS {
        let found = run_line(&rt, &[], list, [fails_at, NEVER, NEVER]);
        expect_line(&rt, found.as_str(), want);
    }
}

// A list of 106 bytes, which comes in 16 pieces.
const LONG_LIST: &[u8] = b"flask>=2.0\nFlask<3\ntomli ; python_version < '3.11'\npytest~=7.1\n\
    # a line that is no requirement, and long\n\n";

// A run over the long list whose read with this number fails.
fn cut_line(rt: &(impl Abort + Files + AllocGlobal), fails_at: u64) -> String {
    run_line(rt, &[], LONG_LIST, [fails_at, NEVER, NEVER])
}

// What such a run is.
fn wanted_line(rt: &(impl Abort + AllocGlobal), fails_at: u64) -> String {
    let line = format!(in rt.alloc(); "2 {fails_at}! 0 [] [refused input 1 code 58\n]");
    line.expect(rt, "room for a line")
}

#[test]
fn each_read_that_fails(rt: HostRuntime) {
    for fails_at in 1..=17u64 {
        let want = wanted_line(&rt, fails_at);
        expect_line(&rt, cut_line(&rt, fails_at).as_str(), want.as_str());
    }
}

// The number of the call of the writer of the output that fails, and what the run is. The table goes
// in 56 pieces, the fiftieth of which has the end of the header in it.
const WRITES: [(u64, &str); 8] = [
    (1, "2 4 1! [] [refused code 63\n]"),
    (2, "2 4 2! [pep-tab] [refused code 63\n]"),
    (3, "2 4 3! [pep-table 2\nen] [refused code 63\n]"),
    (51, "2 4 51! [@flask] [refused code 63\n]"),
    (52, "2 4 52! [@flask open\n ] [refused code 63\n]"),
    (
        55,
        "2 4 55! [@flask open\n  range before 2 to be] [refused code 63\n]",
    ),
    (
        56,
        "2 4 56! [@flask open\n  range before 2 to before 3.] [refused code 63\n]",
    ),
    (
        57,
        "0 4 56 [@flask open\n  range before 2 to before 3.dev0\n] []",
    ),
];

#[test]
fn writes_that_fail(rt: HostRuntime) {
    for &(fails_at, want) in &WRITES {
        let found = run_line(&rt, &[], LIST, [NEVER, fails_at, NEVER]);
        expect_line(&rt, found.as_str(), want);
    }
}

// The number of the call of the writer of faults that fails, and what the run is. The line goes in
// three pieces, and the text of clap behind it.
const TELLS: [(u64, &str); 7] = [
    (1, "2 0 0 [] []"),
    (2, "2 0 0 [] [refused]"),
    (3, "2 0 0 [] [refused code 6]"),
    (4, "2 0 0 [] [refused code 61\nerror]"),
    (5, "2 0 0 [] [refused code 61\nerror: unrec]"),
    (6, "2 0 0 [] [refused code 61\nerror: unrecognized]"),
    (7, "2 0 0 [] [refused code 61\nerror: unrecognized subcom]"),
];

#[test]
fn faults_that_cannot_be_told(rt: HostRuntime) {
    for &(fails_at, want) in &TELLS {
        let found = run_line(&rt, &["table"], LIST, [1, NEVER, fails_at]);
        expect_line(&rt, found.as_str(), want);
    }
}

// A run over a reader without end: its status, how many bytes it read by how many calls, and what it
// told.
fn endless_line(
    rt: &(impl Abort + Files + AllocGlobal),
    piece: usize,
    line: usize,
    faulty: u64,
) -> String {
    let mut input = Endless::new(piece, line, faulty);
    let mut output = Writer::new(rt.alloc(), NEVER);
    let mut faults = Writer::new(rt.alloc(), NEVER);
    let status = run(rt, &[], &mut input, &mut output, &mut faults);
    let (given, calls) = (input.given, input.calls);
    let told = text(faults.bytes.as_slice());
    format!(in rt.alloc(); "{status} {given} {calls} [{told}]").expect(rt, "room for a line")
}

// How many bytes a call gives, between line feeds, the call with a line at fault, and what the run is.
// In the last row that line stands in the piece that goes on behind the largest size.
const ENDLESS: [(usize, usize, u64, &str); 3] = [
    (
        70_000,
        1024,
        NEVER,
        "2 16777217 257 [refused input 1 code 56\n]",
    ),
    (
        70_000,
        0,
        NEVER,
        "2 131072 2 [refused input 1 line 1 code 57 38\n]",
    ),
    (
        1000,
        1000,
        16_778,
        "2 16777217 16778 [refused input 1 line 16779 code 57 33 12\n]",
    ),
];

#[test]
fn readers_without_end(rt: HostRuntime) {
    for &(piece, line, faulty, want) in &ENDLESS {
        let found = endless_line(&rt, piece, line, faulty);
        expect_line(&rt, found.as_str(), want);
    }
}

// Why a merge is refused, or a word where it isn't.
fn refusal(rt: &(impl Abort + AllocGlobal), merged: Result<Table, Fault>) -> String {
    match merged {
        Ok(_) => String::from_str(rt.alloc(), "merged").expect(rt, "room for a word"),
        Err(fault) => fault_text(rt, &fault),
    }
}

// Why a merge over a reader without end is refused, and how many bytes it read by how many calls.
fn endless_merge(rt: &(impl Abort + AllocGlobal), piece: usize, line: usize) -> String {
    let machine = machine(rt);
    let mut input = Endless::new(piece, line, NEVER);
    let told = refusal(rt, merge_reader(rt.alloc(), &mut input, &machine));
    let (given, calls) = (input.given, input.calls);
    format!(in rt.alloc(); "{given} {calls} [{told}]").expect(rt, "room for a line")
}

// How many bytes a call gives, between line feeds, and what the merge is: line feeds without end, and a
// line without end. (`.ci/failing_devices` has line feeds one by one.)
const ENDLESS_MERGES: [(usize, usize, &str); 2] = [
    (64, 1, "16777217 262145 [refused input 1 code 56\n]"),
    (1, 0, "65537 65537 [refused input 1 line 1 code 57 38\n]"),
];

#[test]
fn merges_over_readers_without_end(rt: HostRuntime) {
    for &(piece, line, want) in &ENDLESS_MERGES {
        let found = endless_merge(&rt, piece, line);
        expect_line(&rt, found.as_str(), want);
    }
}

// A run over a list and writers of std: its status, the calls of its reader, what is printed and what
// is told.
fn std_line(rt: &(impl Abort + Files + AllocGlobal)) -> String {
    let mut printed = Vec::new(rt.alloc());
    let mut told = Vec::new(rt.alloc());
    let mut input = Counted::new(LIST);
    let status = run(
        rt,
        &[],
        &mut input,
        &mut Counted::new(&mut printed),
        &mut Counted::new(&mut told),
    );
    let (reads, read) = (input.calls(), mark(input.failed()));
    let printed = shown(rt.alloc(), printed.as_slice()).expect(rt, "room for what is printed");
    let told = text(told.as_slice());
    let line = format!(in rt.alloc(); "{status} {reads}{read} [{printed}] [{told}]");
    line.expect(rt, "room for a line")
}

#[test]
fn devices_over_std(rt: HostRuntime) {
    let line = std_line(&rt);
    expect_line(
        &rt,
        line.as_str(),
        "0 2 [@flask open\n  range before 2 to before 3.dev0\n] []",
    );
}

// Whether the text is written to a full writer, whether the writer failed, and its calls.
fn written_to_full(text: &str) -> (bool, bool, u64) {
    let mut full = Counted::new(Full);
    let is_written = write_text(&mut full, text).is_ok();
    (is_written, full.failed(), full.calls())
}

// What a full writer takes of no bytes, and whether it failed.
fn taken_of_none() -> (Option<usize>, bool) {
    let mut full = Counted::new(Full);
    let taken = full.push(b"").ok();
    (taken, full.failed())
}

#[test]
fn a_writer_that_takes_no_byte(rt: HostRuntime) {
    assert!(rt; written_to_full("x") == (false, true, 1));
    assert!(rt; written_to_full("") == (true, false, 0));
    assert!(rt; taken_of_none() == (Some(0), false));
}

#[test]
fn bytes_at_hand(rt: HostRuntime) {
    let mut source = Bytes::new(b"abc");
    let mut buffer = [0u8; 2];
    assert!(rt; source.pull(&mut buffer).ok() == Some(2) && buffer == *b"ab");
    assert!(rt; source.pull(&mut buffer).ok() == Some(1) && buffer == *b"cb");
    assert!(rt; source.pull(&mut buffer).ok() == Some(0));
    assert!(rt; source.calls() == 3 && !source.failed());
}
