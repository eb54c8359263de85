//! Lists of clauses, over bytes.

ghost use Rattle.std.specs.Prelude.{false, ◌≡◌, ◌⊎◌, ◌++◌, ◌∷◌, IfErr, IfOk, List, OnOk, [], map, pos, string_bytes};
ghost use Rattle.std.specs.List.{list_all};
ghost use Rattle.texts.specs.Bytes.{is_white_space};
ghost use Rattle.specifiers.specs.Admits.{admits};
ghost use Rattle.specifiers.specs.Clause.{Clause, clause_text};
ghost use Rattle.faults.specs.NoMemory.{no_memory};
ghost use Rattle.pep_c.specs.ClauseLists.{AnswersEach, AnswersText, AnswersTexts, AreClauseLines};
ghost use Rattle.pep_c.specs.ClauseLists.{AreClauses, RefusesClauses, WriteClauses, answer_byte};
ghost use Rattle.pep_c.specs.Fields.{fields};
ghost use Rattle.pep_c.specs.Room.{GivesText, TellsRefusal};
ghost use Rattle.pep_c.specs.Versions.{IsNoClause};

use crate::fields::push_clauses;
use crate::reply::{ANSWERED, REFUSED, Reply, give_bytes, give_text};
use crate::versions::{read_clause, read_version};
use faults::{Cause, Fault};
use pep_version::Version;
use specifiers::Clause;
use std::alloc::{AllocError, Global};
use texts::{first_part, is_white_space};

// Whether there is nothing but white space.
fn is_space(piece: &[u8]) -> bool
    ensures { result ≡ list_all is_white_space piece.now }
{
    piece.iter().all(|b| is_white_space(*b))
}

// The clause that a piece writes, unless it is white space alone.
fn push_clause(alloc: Global, clauses: &mut Vec<Clause>, piece: &[u8]) -> Result<(), Fault>
    ensures pushed { OnOk result ((cs : List Clause) × WriteClauses (piece.now ∷ []) cs
        × (clauses.new.items ≡ clauses.old.items ++ cs)) }
    ensures refused { IfErr result (λ fault. (fault ≡ no_memory)
        ⊎ ((list_all is_white_space piece.now ≡ false) × IsNoClause piece.now fault)) }
{
    if is_space(piece) {
        return Ok(());
    }
    let clause = read_clause(alloc, piece)?;
    let Ok(()) = clauses.push(clause) else {
        return Err(Fault::no_memory());
    };
    Ok(())
}

/// The clauses that the bytes write.
pub(crate) fn clauses_of(alloc: Global, bytes: &[u8]) -> Result<Vec<Clause>, Fault>
    ensures clauses { IfOk result (λ clauses. AreClauses bytes.now clauses.items) }
    ensures refused { IfErr result
        (λ fault. (fault ≡ no_memory) ⊎ RefusesClauses bytes.now fault) }
{
    let mut clauses = Vec::new(alloc);
    let mut rest = Some(bytes);
    while let Some(left) = rest {
        let (piece, behind) = first_part(left, b',');
        push_clause(alloc, &mut clauses, piece)?;
        rest = behind;
    }
    Ok(clauses)
}

// The normal texts of the clauses that the bytes write.
fn clause_lines(alloc: Global, bytes: &[u8]) -> Result<String, Fault>
    ensures lines { IfOk result (λ text. AreClauseLines bytes.now (string_bytes text)) }
    ensures refused { IfErr result
        (λ fault. (fault ≡ no_memory) ⊎ RefusesClauses bytes.now fault) }
{
    let clauses = clauses_of(alloc, bytes)?;
    let mut text = String::new(alloc);
    match push_clauses(alloc, &mut text, "", clauses.as_slice()) {
        Ok(()) => Ok(text),
        Err(_) => Err(Fault::no_memory()),
    }
}

/// Whether all clauses admit the version.
pub(crate) fn admits_all(
    alloc: Global,
    clauses: &[Clause],
    version: &Version,
) -> Result<bool, AllocError>
    ensures { IfOk result (λ b. b ≡ list_all (λ c. admits c version.now) clauses.now) }
{
    for clause in clauses {
        match clause.admits(alloc, version) {
            Ok(true) => {}
            Ok(false) => return Ok(false),
            Err(_) => return Err(AllocError),
        }
    }
    Ok(true)
}

// The answer on a version, by whether all clauses admit it, and whether it is a pre-release.
fn answer_byte(is_admitted: bool, is_pre: bool) -> u8
    ensures { result ≡ answer_byte is_admitted is_pre }
{
    match (is_admitted, is_pre) {
        (false, _) => 0,
        (true, false) => 1,
        (true, true) => 3,
    }
}

// The answer of the clauses on the version that a text spells.
fn answer_of(alloc: Global, clauses: &[Clause], text: &[u8]) -> Result<u8, AllocError>
    ensures { IfOk result (AnswersText clauses.now text.now) }
{
    match read_version(alloc, text) {
        Ok(version) => {
            let is_admitted = admits_all(alloc, clauses, &version)?;
            Ok(answer_byte(is_admitted, version.is_pre()))
        }
        Err(fault) => match fault.cause {
            Cause::NoMemory => Err(AllocError),
            _ => Ok(2),
        },
    }
}

// The answers on the versions that the texts between zero bytes spell.
fn answers_of(alloc: Global, clauses: &[Clause], texts: &[u8]) -> Result<Vec<u8>, AllocError>
    ensures { IfOk result (λ answers. AnswersTexts clauses.now texts.now answers.items) }
{
    let mut answers = Vec::new(alloc);
    let mut rest = Some(texts);
    while let Some(left) = rest {
        let (text, behind) = first_part(left, 0);
        let answer = answer_of(alloc, clauses, text)?;
        answers.push(answer)?;
        rest = behind;
    }
    Ok(answers)
}

// The answers of the clauses that the bytes write.
fn answers_each(alloc: Global, bytes: &[u8], texts: &[u8]) -> Result<Vec<u8>, Fault>
    ensures answers { IfOk result (λ answers. AnswersEach bytes.now texts.now answers.items) }
    ensures refused { IfErr result
        (λ fault. (fault ≡ no_memory) ⊎ RefusesClauses bytes.now fault) }
{
    let clauses = clauses_of(alloc, bytes)?;
    match answers_of(alloc, clauses.as_slice(), texts) {
        Ok(answers) => Ok(answers),
        Err(_) => Err(Fault::no_memory()),
    }
}

/// The normal texts of the clauses that the bytes write, with a comma between two (PEP 440, "Version
/// specifiers"), each on a line of its own. A piece between commas that is white space alone is passed
/// over. The first piece that is no clause is refused as line 1 of input 1, 57 with 51 or with 33 and 11 to
/// 16; or the refusal is 60.
#[unsafe(no_mangle)]
pub extern "C" fn tubrambutan_clauses(alloc: Global, bytes: &[u8], room: &mut [u8]) -> Reply
    ensures status { (result.status ≡ ANSWERED) ⊎ (result.status ≡ REFUSED) }
    ensures answer { result.answer ≡ pos 0 }
    ensures lines { result.status ≡ ANSWERED →
        GivesText (AreClauseLines bytes.now) result.size room.old room.new }
    ensures refused { result.status ≡ REFUSED →
        TellsRefusal (RefusesClauses bytes.now) result.size room.old room.new }
{
    give_text(alloc, clause_lines(alloc, bytes), room)
}

/// Which versions are admitted by all clauses that the bytes write (see [`tubrambutan_clauses`], whose
/// refusals it has): for each text between zero bytes one byte: 0 if one of the clauses doesn't admit the version that
/// the text spells; 1 if they all do and it is no pre-release, 3 if they all do and it is one; and 2 if the
/// text is no version.
#[unsafe(no_mangle)]
pub extern "C" fn tubrambutan_admits_each(
    alloc: Global,
    bytes: &[u8],
    texts: &[u8],
    room: &mut [u8],
) -> Reply
    ensures status { (result.status ≡ ANSWERED) ⊎ (result.status ≡ REFUSED) }
    ensures answer { result.answer ≡ pos 0 }
    ensures answers { result.status ≡ ANSWERED →
        GivesText (AnswersEach bytes.now texts.now) result.size room.old room.new }
    ensures refused { result.status ≡ REFUSED →
        TellsRefusal (RefusesClauses bytes.now) result.size room.old room.new }
{
    give_bytes(alloc, answers_each(alloc, bytes, texts), room)
}
