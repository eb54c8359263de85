// How a table's text is read, from its front, a line after the other.

mod items;
mod ranges;
mod split;
mod taker;

ghost use Rattle.std.specs.Prelude.{◌≡◌, ◌≤◌, ◌+◌, ◌⊎◌, ◌↔◌, ◌++◌, ◌∷◌, [], ℕ, List};
ghost use Rattle.std.specs.Prelude.{IfErr, IfOk, IfSome, IsTrue, None, Some};
ghost use Rattle.pep_require.specs.Requirement.{IsAscending};
ghost use Rattle.pep_table.specs.Way.EntryReading.{
  HasHead,
  HasNext,
  HasNoHead,
  HasNoNext,
  HasNoParts,
  HasOtherVerdict,
  HasParts,
  TakesEntries,
  last_name,
};
ghost use Rattle.demands.specs.Table.{IsValidTable, TableParts};
ghost use Rattle.pep_marker.specs.Environment.{IsEnvironment};
ghost use Rattle.pep_marker.specs.Header.{FindsHeader};
ghost use Rattle.pep_marker.specs.Name.{IsNormalName};
ghost use Rattle.pep_table.specs.Refused.{AreIndented, BeginsEntry, IsRefusedAsTable, feeds};
ghost use Rattle.pep_table.specs.Way.ReadText.{DecidesText, HaltsAt, IsBehind, StopsIn, TellsLine};
ghost use Rattle.pep_table.specs.TableText.{AreNoLines, AreTableLines, IsReadAs, Shows};
ghost use Rattle.demands.specs.Verdict.{verdict_word};

pub(crate) use crate::read::items::{Extras, LineKind, TextLines};
use crate::read::items::{listed_name, read_items};
use crate::read::ranges::read_ranges;
pub(crate) use crate::read::ranges::{RANGE, TO};
use crate::read::split::split_at_byte;
pub(crate) use crate::read::taker::EntryTaker;
use crate::read::taker::{Listing, Reading};
use crate::table::Table;
use demands::{Entry, TableFault, Verdict};
use pep_marker::{Environment, HeaderIn, Name};
use std::alloc::{AllocError, AllocFailed, Global};

/// Why reading stops: memory ran out, or the line in front of this text can't stand there.
pub(crate) enum Halt<'a> {
    NoMemory,
    At(&'a str),
}

impl From<AllocError> for Halt<'_> {
    ghost use Rattle.std.specs.Prelude.{◌≡◌};
    ghost use Rattle.pep_table.specs.declared.read.Halt.TheVariants.{NoMemory};

    ghost from_gives = { λ _ e. e ≡ NoMemory };

    fn from(_: AllocError) -> Self {
        Halt::NoMemory
    }
}

impl<T: Drop> From<AllocFailed<T>> for Halt<'_> {
    ghost use Rattle.std.specs.Prelude.{◌≡◌};
    ghost use Rattle.pep_table.specs.declared.read.Halt.TheVariants.{NoMemory};

    ghost from_gives = { λ _ e. e ≡ NoMemory };

    fn from(_: AllocFailed<T>) -> Self {
        Halt::NoMemory
    }
}

// The verdict of a word.
fn verdict_of(word: &str) -> Option<Verdict>
    ensures some { IfSome result (λ verdict. verdict_word verdict ≡ word.now) }
    ensures none { result ≡ None → (verdict : Verdict) → ¬ (verdict_word verdict ≡ word.now) }
{
    [Verdict::Possible, Verdict::Nothing, Verdict::Conflict]
        .into_iter()
        .find(|verdict| verdict.word() == word)
}

// The name of an entry's first line, its text there, the verdict, and the text behind the line.
fn read_head(alloc: Global, text: &str) -> Result<(Name, &str, Verdict, &str), Halt<'_>>
    ensures ok { IfOk result (λ r. HasHead text.now r.0 r.2 r.3.now) }
    ensures text { IfOk result (λ r. r.1.now ≡ r.0) }
    ensures refused { IfErr result (λ e. (e ≡ Halt.NoMemory) ⊎ HasNoHead text.now) }
    ensures stops { IfErr result (HaltsAt (λ rest. rest ≡ text.now)) }
{
    let Some((line, rest)) = split_at_byte(text, b'\n') else {
        return Err(Halt::At(text));
    };
    let Some((written, word)) = split_at_byte(line, b' ') else {
        return Err(Halt::At(text));
    };
    let Some(verdict) = verdict_of(word) else {
        return Err(Halt::At(text));
    };
    match listed_name(alloc, written)? {
        Some(name) => Ok((name, written, verdict, rest)),
        None => Err(Halt::At(text)),
    }
}

// The parts of an entry behind its first line, and the text behind it.
fn read_parts(alloc: Global, text: &str) -> Result<(Entry, &str), Halt<'_>>
    ensures ok { IfOk result (λ r. HasParts text.now r.0 r.1.now) }
    ensures refused { IfErr result (λ e. (e ≡ Halt.NoMemory) ⊎ HasNoParts text.now) }
    ensures stops { IfErr result (HaltsAt (IsBehind AreIndented text.now)) }
{
    let (extras, rest) = read_items(alloc, &Extras, text)?;
    let (urls, rest) = read_items(alloc, &TextLines::Urls, rest)?;
    let (texts, rest) = read_items(alloc, &TextLines::Demanded, rest)?;
    let (versions, rest) = read_ranges(alloc, rest)?;
    Ok((Entry::of(extras, urls, texts, versions), rest))
}

// Whether the text of a name stands behind that of the last one. That is empty, and so below every name, where there is
// none.
fn is_behind(last: &str, name: &str) -> bool
    ensures { IsNormalName name.now
        → (IsTrue result ↔ IsAscending (last_name last.now ++ name.now ∷ [])) }
{
    last < name
}

// Where the entry at the front of this text has a wrong verdict: there, unless the line behind the
// entry can't stand after it.
fn wrong_verdict<'a>(alloc: Global, name: &Name, text: &'a str, behind: &'a str) -> Halt<'a>
    ensures { HaltsAt (λ rest. (rest ≡ text.now) ⊎ (rest ≡ behind.now)) result }
{
    if behind.is_empty() {
        return Halt::At(text);
    }
    match read_head(alloc, behind) {
        Ok((_, next, _, _)) if is_behind(name.text(), next) => Halt::At(text),
        Ok(_) => Halt::At(behind),
        Err(halt) => halt,
    }
}

// The parts of an entry with this verdict, and the text behind them. The entry begins with `text`.
fn read_judged<'a>(
    alloc: Global,
    name: &Name,
    verdict: Verdict,
    text: &'a str,
    parts: &'a str,
) -> Result<(Entry, &'a str), Halt<'a>>
    ensures ok { IfOk result (λ r. HasParts parts.now r.0 r.1.now × Shows r.0 verdict) }
    ensures refused { IfErr result (λ e. (e ≡ Halt.NoMemory)
        ⊎ (HasNoParts parts.now ⊎ HasOtherVerdict verdict parts.now)) }
    ensures stops { IfErr result (HaltsAt (λ rest. (rest ≡ text.now)
        ⊎ IsBehind AreIndented parts.now rest)) }
{
    let (entry, behind) = read_parts(alloc, parts)?;
    if entry.verdict(alloc).map_err(|_| AllocError)? != verdict {
        return Err(wrong_verdict(alloc, name, text, behind));
    }
    Ok((entry, behind))
}

// The name of the entry in front, which stands behind the last one, its text there, the entry, and the text behind it.
fn read_entry<'a>(
    alloc: Global,
    last: &str,
    text: &'a str,
) -> Result<(Name, &'a str, Entry, &'a str), Halt<'a>>
    ensures ok { IfOk result (λ r. HasNext (last_name last.now) text.now r.0 r.2 r.3.now) }
    ensures text { IfOk result (λ r. r.1.now ≡ r.0) }
    ensures refused { IfErr result (λ e. (e ≡ Halt.NoMemory)
        ⊎ HasNoNext (last_name last.now) text.now) }
    ensures stops { IfErr result (HaltsAt (IsBehind BeginsEntry text.now)) }
{
    let (name, written, verdict, parts) = read_head(alloc, text)?;
    if !is_behind(last, written) {
        return Err(Halt::At(text));
    }
    match read_judged(alloc, &name, verdict, text, parts) {
        Ok((entry, behind)) => Ok((name, written, entry, behind)),
        Err(halt) => Err(halt),
    }
}

// What the taker makes of the entries of a table's lines.
fn read_entries<'a, T: EntryTaker>(
    alloc: Global,
    text: &'a str,
    taker: &T,
    taken: T::Taken,
) -> Result<T::Taken, Halt<'a>>
    ensures ok { IfOk result (λ new. (t : TableParts) × IsValidTable t × AreTableLines t text.now
        × TakesEntries (T.takes taker.now) t taken new) }
    ensures refused { IfErr result (λ e. (e ≡ Halt.NoMemory) ⊎ AreNoLines text.now) }
    ensures stops { IfErr result (HaltsAt (StopsIn text.now)) }
{
    let mut taken = taken;
    let mut last = "";
    let mut rest = text;
    while !rest.is_empty() {
        let (name, written, entry, behind) = read_entry(alloc, last, rest)?;
        taken = taker.take(taken, name, entry)?;
        last = written;
        rest = behind;
    }
    Ok(taken)
}

// The number of the line at which this rest of the text begins, counted from 1.
fn line_number(text: &str, rest: &str) -> usize
    ensures number { (front : List ℕ) → text.now ≡ front ++ rest.now → result ≡ feeds front + 1 }
    ensures low { 1 ≤ result }
    ensures high { result ≤ feeds text.now + 1 }
{
    match text.strip_suffix(rest) {
        Some(front) => 1
            + front
                .as_bytes()
                .iter()
                .filter(|byte| **byte == b'\n')
                .count(),
        None => 1,
    }
}

// The number of the line that is told where this rest of a header can't stand: that at which it
// begins, and where nothing is left the last one.
fn bad_header_line(text: &str, rest: &str) -> usize
    ensures low { 1 ≤ result }
    ensures high { result ≤ feeds text.now + 1 }
{
    let number = line_number(text, rest);
    if rest.is_empty() {
        number.saturating_sub(1).max(1)
    } else {
        number
    }
}

// The fault of a text that can't be read as a table's lines.
fn halted(text: &str, halt: Halt<'_>) -> TableFault
    ensures memory { halt.entry ≡ Halt.NoMemory → result ≡ TableFault.NoMemory }
    ensures line { HaltsAt (λ rest. (front : List ℕ) → text.now ≡ front ++ rest
        → result ≡ TableFault.BadTable (feeds front + 1)) halt.entry }
{
    match halt {
        Halt::NoMemory => TableFault::NoMemory,
        Halt::At(rest) => TableFault::BadTable(line_number(text, rest)),
    }
}

// Why a text is refused that has the header of another environment, which differs at this line,
// and these lines behind it.
fn other_fault(alloc: Global, text: &str, number: usize, lines: &str) -> TableFault
    ensures { (result ≡ TableFault.NoMemory)
        ⊎ ((result ≡ TableFault.OtherEnvironment number)
        × (t : TableParts) × IsValidTable t × AreTableLines t lines.now)
        ⊎ (TellsLine text.now lines.now result × AreNoLines lines.now) }
{
    match read_entries(alloc, lines, &Reading, ()) {
        Ok(_) => TableFault::OtherEnvironment(number),
        Err(halt) => halted(text, halt),
    }
}

// What stands in front of the text, seen from the environment.
fn header_in<'a>(
    alloc: Global,
    text: &'a str,
    environment: &Environment,
) -> Result<HeaderIn<'a>, AllocError>
    ensures found { IfOk result (FindsHeader environment.now text.now) }
    ensures environment { IsEnvironment environment.now }
{
    environment.header_in(alloc, text).map_err(|_| AllocError)
}

// The lines with which the text ends of a table in the environment: those behind its header, or all.
fn lines_to_read<'a>(
    alloc: Global,
    text: &'a str,
    environment: &Environment,
) -> Result<&'a str, TableFault>
    ensures lines { IfOk result (λ lines. DecidesText environment.now text.now lines.now) }
    ensures refused { IfErr result (λ e. (e ≡ TableFault.NoMemory)
        ⊎ IsRefusedAsTable environment.now text.now e) }
{
    match header_in(alloc, text, environment)? {
        HeaderIn::Missing => Ok(text),
        HeaderIn::Own(lines) => Ok(lines),
        HeaderIn::Other(number, lines) => Err(other_fault(alloc, text, number, lines)),
        HeaderIn::Bad(rest) => Err(TableFault::BadTable(bad_header_line(text, rest))),
    }
}

/// What the taker makes of the entries of the table whose text this is in the environment, or whose lines. The faults
/// are those of [`Table::read`].
pub(crate) fn read_text<T: EntryTaker>(
    alloc: Global,
    text: &str,
    environment: &Environment,
    taker: &T,
    taken: T::Taken,
) -> Result<T::Taken, TableFault>
    ensures ok { IfOk result (λ new. (t : TableParts) × IsValidTable t × IsReadAs environment.now t text.now
        × TakesEntries (T.takes taker.now) t taken new) }
    ensures refused { IfErr result (λ e. (e ≡ TableFault.NoMemory)
        ⊎ IsRefusedAsTable environment.now text.now e) }
{
    let lines = lines_to_read(alloc, text, environment)?;
    match read_entries(alloc, lines, taker, taken) {
        Ok(new) => Ok(new),
        Err(halt) => Err(halted(text, halt)),
    }
}

impl Table {
    /// The table whose text this is in the environment, as `Table::text` writes it, the verdict words
    /// included, or whose lines alone it is.
    ///
    /// The fault `OtherEnvironment`, 43, is that of the text of a table in another environment: it
    /// names the first line that differs from the header of this one. `BadTable`, 41, is that of any
    /// other text: it names the first line that can't stand after those before it, in a header too, and
    /// of a header that ends too early the last one; for a wrong verdict
    /// the first line of its entry, unless the line behind the entry can't stand there; for a last line
    /// without a line feed that line. Lines are counted from 1. Any other is `NoMemory`, 42.
    pub fn read(alloc: Global, text: &str, environment: &Environment) -> Result<Table, TableFault>
        ensures text { IfOk result (λ t. IsReadAs environment.now t text.now) }
        ensures valid { IfOk result (λ t. IsValidTable t) }
        ensures refused { IfErr result (λ e. (e ≡ TableFault.NoMemory)
            ⊎ IsRefusedAsTable environment.now text.now e) }
    {
        let entries = read_text(alloc, text, environment, &Listing, Vec::new(alloc))?;
        Ok(Table::of_entries(entries))
    }
}
