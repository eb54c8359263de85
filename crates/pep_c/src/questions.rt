//! Questions on inputs that are read once, over bytes.

ghost use Rattle.std.specs.Prelude.{◌≡◌, ◌⊎◌, ◌==◌, ◌≤◌, IfErr, IfOk, pos};
ghost use Rattle.std.specs.List.{AllZip};
ghost use Rattle.demands.specs.Table.{TableDemands};
ghost use Rattle.faults.specs.NoMemory.{no_memory};
ghost use Rattle.pep_version.specs.Version.{IsVersion};
ghost use Rattle.pep_c.specs.Inputs.{IsAsked, RefusesInputs, RefusesMerge};
ghost use Rattle.pep_c.specs.Parts.{IsMiscut};
ghost use Rattle.pep_c.specs.Questions.{AnswersInputs, AnswersParts, AnswersQuestion, AnswersQuestions};
ghost use Rattle.pep_c.specs.Questions.{AsksNothing, asked_name, asked_version, question_byte};
ghost use Rattle.pep_c.specs.Room.{GivesNothing, GivesText, TellsRefusal};

use crate::names::read_name;
use crate::parts::{CutFault, Part, inputs_of};
use crate::reply::{ANSWERED, MISCUT, REFUSED, Reply, give_bytes, miscut, tell};
use crate::versions::read_version;
use faults::{Cause, Fault};
use inputs::{Input, environment_of, gather, laws};
use pep_marker::Name;
use pep_table::{Answer, Table};
use pep_version::Version;
use std::alloc::{AllocError, Global};
use texts::first_part;

// What stands before the first space, and behind it.
fn split_question(question: &[u8]) -> (&[u8], &[u8])
    ensures name { result.0.now ≡ asked_name question.now }
    ensures version { result.1.now ≡ asked_version question.now }
{
    'bytes: for i in 0..question.len() {
        if question[i] == b' ' {
            return (&question[..i], &question[i + 1..]);
        }
    }
    (question, &[])
}

// The name and the version that a question asks for.
fn asked(alloc: Global, question: &[u8]) -> Result<(Name, Version), Fault>
    ensures asked { IfOk result (λ r.
        IsAsked (asked_name question.now) (asked_version question.now) r.0 r.1) }
    ensures version { IfOk result (λ r. IsVersion r.1) }
    ensures refused { IfErr result (λ fault. (fault ≡ no_memory) ⊎ AsksNothing question.now) }
{
    let (name, version) = split_question(question);
    let version = read_version(alloc, version)?;
    let name = read_name(alloc, name)?;
    // Its clause tells that the parts make a version.
    let _ = version.release();
    Ok((name, version))
}

// The answer of a call that wants pre-releases, by whether the version is one.
fn question_byte(answer: Answer, is_pre: bool) -> u8
    ensures { result ≡ question_byte answer is_pre }
{
    match (answer, is_pre) {
        (Answer::No, _) => 0,
        (Answer::Yes, false) => 1,
        (Answer::Yes, true) => 3,
        (Answer::Conflict, _) => 4,
    }
}

// What the table says of a question.
fn answer_on(alloc: Global, table: &Table, question: &[u8]) -> Result<u8, AllocError>
    ensures { IfOk result (AnswersQuestion (TableDemands table.now) question.now) }
{
    match asked(alloc, question) {
        Ok((name, version)) => match table.admits(alloc, &name, &version, true) {
            Ok(answer) => Ok(question_byte(answer, version.is_pre())),
            Err(_) => Err(AllocError),
        },
        Err(fault) => match fault.cause {
            Cause::NoMemory => Err(AllocError),
            _ => Ok(2),
        },
    }
}

// What the table says of the questions between zero bytes.
fn answers_on(alloc: Global, table: &Table, questions: &[u8]) -> Result<Vec<u8>, AllocError>
    ensures { IfOk result (λ answers.
        AnswersQuestions (TableDemands table.now) questions.now answers.items) }
{
    let mut answers = Vec::new(alloc);
    let mut rest = Some(questions);
    while let Some(left) = rest {
        let (question, behind) = first_part(left, 0);
        let answer = answer_on(alloc, table, question)?;
        answers.push(answer)?;
        rest = behind;
    }
    Ok(answers)
}

// What the demands of the inputs say of the questions, in the environment of the file with these bytes.
fn answers_each(
    alloc: Global,
    environment: &[u8],
    inputs: &[Input],
    questions: &[u8],
) -> Result<Vec<u8>, Fault>
    ensures answers { IfOk result (λ answers.
        AnswersInputs environment.now inputs.now questions.now answers.items) }
    ensures refused { IfErr result
        (λ fault. (fault ≡ no_memory) ⊎ RefusesInputs environment.now inputs.now fault) }
{
    let environment = environment_of(alloc, environment)?;
    let gathering = gather(alloc, inputs, &environment)?;
    let Ok(table) = gathering.finish(alloc) else {
        return Err(Fault::no_memory());
    };
    // What the table says, the demands of the inputs say.
    laws::gathered_answers();
    match answers_on(alloc, &table, questions) {
        Ok(answers) => Ok(answers),
        Err(_) => Err(Fault::no_memory()),
    }
}

/// What such inputs say of versions of packages: they are read once, and asked for each question
/// between zero bytes, which is a name, a space, and a version. Each has one byte: 0 where a demand isn't
/// met; 1 where all are and the version is no pre-release, 3 where all are and it is one; 4 where two
/// different URLs are demanded; and 2 where the question has no name or no version. So no bytes are one
/// question that has neither. See [`Table::admits`](pep_table::Table::admits).
///
/// It is `MISCUT`, and refused, as [`tubrambutan_merge`](crate::tubrambutan_merge) is.
#[unsafe(no_mangle)]
pub extern "C" fn tubrambutan_check_each(
    alloc: Global,
    environment: &[u8],
    parts: &[Part],
    bytes: &[u8],
    questions: &[u8],
    room: &mut [u8],
) -> Reply
    ensures status { result.status ≤ REFUSED }
    ensures answer { result.answer ≡ pos 0 }
    ensures answers { result.status ≡ ANSWERED → GivesText
        (AnswersParts environment.now parts.now bytes.now questions.now)
        result.size room.old room.new }
    ensures miscut { result.status ≡ MISCUT → IsMiscut parts.now bytes.now
        × GivesNothing result.size room.old room.new }
    ensures refused { result.status ≡ REFUSED → TellsRefusal
        (RefusesMerge environment.now parts.now bytes.now) result.size room.old room.new }
{
    match inputs_of(alloc, parts, bytes) {
        Ok(inputs) => {
            let answers = answers_each(alloc, environment, inputs.as_slice(), questions);
            give_bytes(alloc, answers, room)
        }
        Err(CutFault::Miscut) => miscut(),
        Err(CutFault::Refused(fault)) => tell(alloc, &fault, room),
    }
}
