//! What the program replies to what it is asked.

ghost use Rattle.std.specs.Prelude.{
  ◌≡◌,
  ◌≢◌,
  ◌⊎◌,
  ◌≤◌,
  ◌+◌,
  [],
  IfOk,
  IfErr,
  OnOk,
  Ok,
  Some,
  false,
  map,
  option_copied,
  option_map,
  string_bytes,
};
ghost use Rattle.pep_marker.specs.Name.{name_of};
ghost use Rattle.pep_require.specs.View.{requirement_parts};
ghost use Rattle.pep_version.specs.Spelling.{Reads};
ghost use Rattle.devices.specs.Device.{IsFresh};
ghost use Rattle.inputs.specs.Lists.{Lists};
ghost use Rattle.inputs.specs.Lists.{input_limit};
ghost use Rattle.command_line.specs.Plan.{request, standard};
ghost use Rattle.inputs.specs.Refusal.{no_memory};
ghost use Rattle.inputs.specs.Streams.{ReadsUpTo, RefusesReading};
ghost use Rattle.pep_tool.specs.RunReplies.{
  IsReply,
  ChecksFiles,
  IsGroup,
  IsUnlisted,
  IsVersionLine,
  ListsFile,
  MergesFiles,
  MergesInput,
  RefusesCheck,
  RefusesGroup,
  RefusesLines,
  RefusesMerge,
  RefusesName,
  RefusesRequest,
  RefusesVersion,
  answer_line,
  answer_status,
  check_asked,
};
ghost use Rattle.pep_tool.specs.Body.{body_text};
ghost use Rattle.pep_tool.specs.Standard.{standard_environment};

use crate::program::body::Body;
use crate::program::reading::{PIECE, kind_of, read_environment, read_file, read_inputs};
use crate::standard::standard_environment;
use command_line::Plan;
use devices::{Folder, Source};
use faults::{ArgumentFault, Cause, Fault, Place};
use inputs::{
    Kind, check_bytes, gather_reader, lines_text, list_of, merge_printout, printout_of, project_of,
};
use pep_marker::Name;
use pep_require::Requirement;
use pep_table::{Answer, Printout};
use pep_version::Version;
use std::alloc::Global;

/// What is printed, and the exit status.
#[derive(Drop)]
pub(crate) struct Reply {
    pub(crate) body: Body,
    pub(crate) status: u8,
}

impl Reply {
    // A text, at status 0.
    fn of_text(text: String) -> Reply
        ensures text { body_text result.body ≡ string_bytes text }
        ensures status { result.status ≡ 0 }
    {
        Reply {
            body: Body::Text(text),
            status: 0,
        }
    }

    // The text of a table, at status 0.
    fn of_table(printout: Printout) -> Reply
        ensures text { body_text result.body ≡ printout }
        ensures status { result.status ≡ 0 }
    {
        Reply {
            body: Body::Table(printout),
            status: 0,
        }
    }
}

/// What is printed for a plan, and the exit status.
pub(crate) fn reply_to<D: Folder, I: Source>(
    alloc: Global,
    folder: &D,
    plan: &Plan,
    input: &mut I,
) -> Result<Reply, Fault>
    requires { IsFresh (I.device input.old) }
    ensures no_failure { OnOk result ((I.device input.new).failed ≡ false) }
    ensures reply { IfOk result (λ reply. IsReply (D.file_at folder.now) D.File.left
        D.File.device (request plan.now) (I.left input.old) (I.left input.new)
        (body_text reply.body) reply.status) }
    ensures refused { IfErr result (λ fault. (fault ≡ no_memory)
        ⊎ RefusesRequest (D.file_at folder.now) D.File.left D.File.device (request plan.now)
        (I.left input.old) (I.left input.new) (I.device input.new) fault) }
    ensures status { IfOk result (λ reply. reply.status ≤ 1) }
    ensures unread { request plan.now ≢ standard → input.new ≡ input.old }
    ensures bytes { ReadsUpTo (input_limit + 1) (I.left input.old) (I.left input.new) }
    ensures calls { (I.device input.new).calls ≤ input_limit + 1 }
{
    match plan {
        Plan::Standard => Ok(Reply::of_table(merge_input(alloc, input)?)),
        Plan::ShowVersion { text } => Ok(Reply::of_text(version_line(alloc, text.as_str())?)),
        Plan::ShowLines { group, file } => {
            Ok(Reply::of_text(file_lines(alloc, folder, group, file.as_str())?))
        }
        Plan::Merge { env, group, files } => {
            let printout = merge_files(alloc, folder, env.as_str(), group, files.as_slice())?;
            Ok(Reply::of_table(printout))
        }
        Plan::Check {
            env,
            group,
            pre,
            name,
            version,
            files,
        } => {
            let (env, name, version) = (env.as_str(), name.as_str(), version.as_str());
            let files = files.as_slice();
            let answer = check_files(alloc, folder, env, group, *pre, name, version, files)?;
            answer_reply(alloc, answer)
        }
    }
}

// The version that a word spells.
fn read_version(alloc: Global, text: &str) -> Result<Version, Fault>
    ensures version { IfOk result (λ version. Reads text.now (Ok version)) }
    ensures refused { IfErr result
        (λ fault. (fault ≡ no_memory) ⊎ RefusesVersion text.now fault) }
{
    match Version::read(alloc, text) {
        Ok(version) => Ok(version),
        Err(fault) => Err(Fault::of_argument(ArgumentFault::Version(fault))),
    }
}

// The name that a word is.
fn read_name(alloc: Global, text: &str) -> Result<Name, Fault>
    ensures name { IfOk result (λ name. name_of text.now ≡ Some name) }
    ensures refused { IfErr result (λ fault. (fault ≡ no_memory) ⊎ RefusesName text.now fault) }
{
    match Name::read(alloc, text) {
        Ok(name) => Ok(name),
        Err(fault) => Err(Fault::of_argument(ArgumentFault::Name(fault))),
    }
}

// The dependency group that a word names, where one is asked for.
fn read_group(alloc: Global, group: &Option<String>) -> Result<Option<Name>, Fault>
    ensures group { IfOk result (IsGroup (option_map string_bytes group.now)) }
    ensures refused { IfErr result (λ fault. (fault ≡ no_memory)
        ⊎ RefusesGroup (option_map string_bytes group.now) fault) }
{
    match group {
        Some(text) => Ok(Some(read_name(alloc, text.as_str())?)),
        None => Ok(None),
    }
}

// The line of the version that a text spells.
fn version_line(alloc: Global, text: &str) -> Result<String, Fault>
    ensures line { IfOk result (λ line. IsVersionLine text.now (string_bytes line)) }
    ensures refused { IfErr result
        (λ fault. (fault ≡ no_memory) ⊎ RefusesVersion text.now fault) }
{
    let version = read_version(alloc, text)?;
    let Ok(mut line) = version.text(alloc) else {
        return Err(Fault::no_memory());
    };
    line.push_str("\n")?;
    Ok(line)
}

// The text of the table of the input, in the standard environment: merged while it is read.
fn merge_input<S: Source>(alloc: Global, source: &mut S) -> Result<Printout, Fault>
    requires { IsFresh (S.device source.old) }
    ensures merged { IfOk result (MergesInput (S.left source.old) (S.left source.new)) }
    ensures no_failure { OnOk result ((S.device source.new).failed ≡ false) }
    ensures bytes { ReadsUpTo (input_limit + 1) (S.left source.old) (S.left source.new) }
    ensures calls { (S.device source.new).calls ≤ input_limit + 1 }
    ensures refused { IfErr result (λ fault. (fault ≡ no_memory)
        ⊎ RefusesReading standard_environment (S.left source.old) (S.left source.new)
        (S.device source.new) fault) }
{
    let environment = standard_environment(alloc)?;
    let gathering = gather_reader(alloc, source, &environment)?;
    Ok(printout_of(alloc, gathering, &environment)?)
}

// The requirements that a list or a project file has, without an extra, or of a dependency group.
fn requirements_to_show(
    alloc: Global,
    kind: Kind,
    bytes: &[u8],
    group: Option<&Name>,
) -> Result<Vec<Requirement>, Fault>
    requires { kind ≢ Kind.Table }
    ensures ok { IfOk result (λ requirements. Lists [] kind (option_copied group.entry) bytes.now
        (map requirement_parts requirements.items)) }
    ensures refused { IfErr result (λ fault. (fault ≡ no_memory)
        ⊎ ((fault.place ≡ Place.Input 1)
        × IsUnlisted kind (option_copied group.entry) bytes.now fault.cause)) }
{
    match kind {
        Kind::List => list_of(alloc, bytes),
        Kind::Project => project_of(alloc, bytes, "", group),
        Kind::Table => unreachable!(),
    }
}

// The lines of the requirements of the file with this path.
fn file_lines<D: Folder>(
    alloc: Global,
    folder: &D,
    group: &Option<String>,
    path: &str,
) -> Result<String, Fault>
    ensures lists { IfOk result (λ text. ListsFile (D.file_at folder.now) D.File.left
        D.File.device (option_map string_bytes group.now) path.now (string_bytes text)) }
    ensures refused { IfErr result (λ fault. (fault ≡ no_memory)
        ⊎ RefusesLines (D.file_at folder.now) D.File.left D.File.device
        (option_map string_bytes group.now) path.now fault) }
{
    let name = read_group(alloc, group)?;
    let kind = kind_of(path);
    if kind == Kind::Table {
        return Err(Fault {
            place: Place::Input(1),
            cause: Cause::NoRequirements,
        });
    }
    let mut buffer = [0u8; PIECE];
    let bytes = read_file(alloc, folder, path, Place::Input(1), &mut buffer)?;
    let requirements = requirements_to_show(alloc, kind, bytes.as_slice(), name.as_ref())?;
    Ok(lines_text(alloc, requirements.as_slice())?)
}

// The text of the table of the files, in the environment of a file.
fn merge_files<D: Folder>(
    alloc: Global,
    folder: &D,
    env: &str,
    group: &Option<String>,
    files: &[String],
) -> Result<Printout, Fault>
    ensures merged { IfOk result (MergesFiles (D.file_at folder.now) D.File.left
        D.File.device env.now (option_map string_bytes group.now) (map string_bytes files.now)) }
    ensures refused { IfErr result (λ fault. (fault ≡ no_memory)
        ⊎ RefusesMerge (D.file_at folder.now) D.File.left D.File.device env.now
        (option_map string_bytes group.now) (map string_bytes files.now) fault) }
{
    let name = read_group(alloc, group)?;
    let environment = read_environment(alloc, folder, env)?;
    let inputs = read_inputs(alloc, folder, name.as_ref(), files)?;
    merge_printout(alloc, inputs.as_slice(), &environment)
}

// Whether the version of the package meets the requirements of the files, in the environment of a
// file.
fn check_files<D: Folder>(
    alloc: Global,
    folder: &D,
    env: &str,
    group: &Option<String>,
    pre: bool,
    name: &str,
    version: &str,
    files: &[String],
) -> Result<Answer, Fault>
    ensures checked { IfOk result (ChecksFiles (D.file_at folder.now) D.File.left D.File.device
        (check_asked env.now group.now pre name.now version.now files.now)) }
    ensures refused { IfErr result (λ fault. (fault ≡ no_memory)
        ⊎ RefusesCheck (D.file_at folder.now) D.File.left D.File.device
        (check_asked env.now group.now pre name.now version.now files.now) fault) }
{
    let version = read_version(alloc, version)?;
    let name = read_name(alloc, name)?;
    let group = read_group(alloc, group)?;
    let environment = read_environment(alloc, folder, env)?;
    let inputs = read_inputs(alloc, folder, group.as_ref(), files)?;
    check_bytes(alloc, inputs.as_slice(), &environment, &name, &version, pre)
}

// How an answer is printed, and the exit status at it.
fn answer_printed(answer: Answer) -> (&'static str, u8)
    ensures line { result.0.now ≡ answer_line answer }
    ensures status { result.1 ≡ answer_status answer }
    ensures bound { result.1 ≤ 1 }
{
    match answer {
        Answer::Yes => ("yes\n", 0),
        Answer::No => ("no\n", 1),
        Answer::Conflict => ("conflict\n", 1),
    }
}

// What is printed of an answer, and its exit status.
fn answer_reply(alloc: Global, answer: Answer) -> Result<Reply, Fault>
    ensures text { IfOk result (λ reply. body_text reply.body ≡ answer_line answer) }
    ensures status { IfOk result (λ reply. reply.status ≡ answer_status answer) }
    ensures bound { IfOk result (λ reply. reply.status ≤ 1) }
    ensures faults { IfErr result (λ fault. fault ≡ no_memory) }
{
    let (line, status) = answer_printed(answer);
    Ok(Reply {
        body: Body::Text(String::from_str(alloc, line)?),
        status,
    })
}
