//! The program, but for its streams.

ghost use Rattle.std.specs.Prelude.{
  ◌≡◌,
  ◌≤◌,
  ◌+◌,
  IfOk,
  IfErr,
  OnOk,
  OnErr,
  false,
  map,
  string_bytes,
};
ghost use Rattle.std.specs.Io.KnownBytes.{Keeps};
ghost use Rattle.devices.specs.Device.{IsFresh};
ghost use Rattle.devices.specs.Folder.{unknown_files};
ghost use Rattle.inputs.specs.Lists.{input_limit};
ghost use Rattle.inputs.specs.Streams.{ReadsUpTo};
ghost use Rattle.command_line.specs.Plan.{Asks, standard};
ghost use Rattle.pep_tool.specs.Run.{PrintsReply, Refuses, Runs, Tells, WritesLine};

mod body;
mod reading;
mod reply;

use crate::write::{write_printed, write_text};
use command_line::plan_of;
use devices::{Counted, Disk, Folder, Sink, Source};
use faults::Fault;
use reply::reply_to;
use std::alloc::Global;
use std::rt::Files;

// What is told where no memory is left for the line of a fault.
const NO_MEMORY_LINE: &str = "refused code 60\n";

// The exit status of a refusal.
const REFUSED: u8 = 2;

/// The program, but for its streams: does what the words ask for, and answers the exit status.
///
/// Without words it reads the input as one list, merges it while it is read (see
/// [`gather_reader`](crate::gather_reader)), and then writes the text of its table to `output`, status
/// 0: the table in the environment of CPython 3.9.18 on Linux and x86-64, without an extra. With words
/// nothing of the input is read, and they ask for one of these:
///
/// - `version TEXT`: the normal text of the version (PEP 440, "Normalization") and a line feed,
///   status 0.
/// - `lines [--group G] FILE`: each requirement's text (PEP 508, "Grammar") and a line feed, of the
///   file with this path, without an extra; status 0.
/// - `merge --env E [--group G] FILE..`: the text of the table of the files (see
///   [`merge_bytes`](crate::merge_bytes)), in the environment of the file E (see
///   [`environment_of`](crate::environment_of)); status 0.
/// - `check --env E [--group G] [--pre] NAME VERSION FILE..`: `yes`, `no` or `conflict` and a line
///   feed (see [`check_bytes`](crate::check_bytes)), with pre-releases wanted where `--pre` is given;
///   status 0 for `yes`, else 1.
///
/// With `--group` what counts of project files is that dependency group (PEP 735). A file whose name
/// ends in `.toml` is a project file (PEP 621), one whose name ends in `.table` a printed table, every
/// other file a list; E is an environment whatever its name. Of the input and of each file at most
/// 16,777,217 bytes are read. A check reads VERSION first, then NAME. Then G is read, where it is
/// given, before any file; then E is read and judged, then all files are read in their order, and then
/// they are judged.
///
/// Any refusal is status 2, with the line of [`Fault::text`] on `faults` and nothing on `output`
/// but where writing there failed:
///
/// - 61 for other words, with the text of `clap`.
/// - 62 with 1 or 2 for a text that is no version, with 21 for a NAME or a G that is
///   no name.
/// - 58 where a file can't be opened or reading failed. It lies in the environment, or in the input
///   with the file's number. A file's comes before any fault of the bytes of inputs; without words
///   a failed read has its place among the bytes: the fault of a line that ended before it is told.
/// - The refusals of [`environment_of`](crate::environment_of) and of
///   [`merge_bytes`](crate::merge_bytes); for `lines` those of [`list_of`](crate::list_of) and
///   [`project_of`](crate::project_of), and 64 for a table file, which has no requirements.
/// - 60 for lack of memory, and 63 where writing failed.
///
/// A failure to write to `faults` changes nothing.
pub fn run<R: Files + AllocGlobal, I: Source, O: Sink, F: Sink>(
    rt: &R,
    words: &[String],
    input: &mut I,
    output: &mut O,
    faults: &mut F,
) -> u8
    requires input { IsFresh (I.device input.old) }
    requires output { IsFresh (O.device output.old) }
    requires faults { IsFresh (F.device faults.old) }
    ensures runs { Runs unknown_files ⟦<Counted<R::File> as Source>⟧.left
        ⟦<Counted<R::File> as Source>⟧.device I.left I.device O.written O.device F.written F.device
        (map string_bytes words.now) input.old input.new output.old output.new faults.old faults.new
        result }
{
    run_in(rt.alloc(), &Disk(rt), words, input, output, faults)
}

/// The same as [`run`], with the files of any folder. Where the folder tells the bytes of the file,
/// they are what is listed or refused, and 58 comes only where opening it may fail, or where a read
/// of it failed.
pub fn run_in<D: Folder, I: Source, O: Sink, F: Sink>(
    alloc: Global,
    folder: &D,
    words: &[String],
    input: &mut I,
    output: &mut O,
    faults: &mut F,
) -> u8
    requires input { IsFresh (I.device input.old) }
    requires output { IsFresh (O.device output.old) }
    requires faults { IsFresh (F.device faults.old) }
    ensures runs { Runs (D.file_at folder.now) D.File.left D.File.device I.left I.device O.written
        O.device F.written F.device (map string_bytes words.now) input.old input.new output.old
        output.new faults.old faults.new result }
{
    match print_reply(alloc, folder, words, input, output) {
        Ok(status) => status,
        Err(fault) => {
            tell(alloc, &fault, faults);
            REFUSED
        }
    }
}

// Writes what the words ask for, and answers the exit status.
fn print_reply<D: Folder, I: Source, O: Sink>(
    alloc: Global,
    folder: &D,
    words: &[String],
    input: &mut I,
    output: &mut O,
) -> Result<u8, Fault>
    requires input { IsFresh (I.device input.old) }
    requires output { IsFresh (O.device output.old) }
    ensures status { IfOk result (λ status. status ≤ 1) }
    ensures no_failure { OnOk result
        (((I.device input.new).failed ≡ false) × ((O.device output.new).failed ≡ false)) }
    ensures printed { IfOk result (PrintsReply (D.file_at folder.now) D.File.left D.File.device
        (map string_bytes words.now) (I.left input.old) (I.left input.new) (O.written output.old)
        (O.written output.new)) }
    ensures refused { IfErr result (Refuses (D.file_at folder.now) D.File.left D.File.device
        (map string_bytes words.now) (I.left input.old) (I.left input.new) (I.device input.new)
        (O.device output.new) output.old output.new) }
    ensures silent { OnErr result
        ((O.device output.new).failed ≡ false →
        Keeps (O.written output.old) (O.written output.new)) }
    ensures unread { ¬ Asks (map string_bytes words.now) standard → input.new ≡ input.old }
    ensures bytes { ReadsUpTo (input_limit + 1) (I.left input.old) (I.left input.new) }
    ensures calls { (I.device input.new).calls ≤ input_limit + 1 }
{
    let plan = plan_of(alloc, words)?;
    let reply = reply_to(alloc, folder, &plan, input)?;
    write_printed(output, &reply.body)?;
    Ok(reply.status)
}

// Writes the line of a fault, or that of lack of memory where there is none for it.
fn tell<F: Sink>(alloc: Global, fault: &Fault, faults: &mut F)
    requires { IsFresh (F.device faults.old) }
    ensures { Tells fault.now (F.written faults.old) (F.written faults.new) (F.device faults.new) }
{
    match fault.text(alloc) {
        Ok(text) => tell_line(faults, text.as_str()),
        Err(_) => tell_line(faults, NO_MEMORY_LINE),
    }
}

// Writes a line as far as the sink takes it.
fn tell_line<F: Sink>(faults: &mut F, line: &str)
    requires { IsFresh (F.device faults.old) }
    ensures { WritesLine line.now (F.written faults.old) (F.written faults.new)
        (F.device faults.new) }
{
    let _ = write_text(faults, line);
}
