// The text of a table.

ghost use Rattle.std.specs.Prelude.{
  ◌≡◌,
  ◌++◌,
  codes,
  string_bytes,
  IfErr,
  IfOk,
  OnErr,
  OnOk,
  map,
  option_map,
};
ghost use Rattle.pep_marker.specs.Header.{header};
ghost use Rattle.pep_table.specs.TableText.{
  IsTableText,
  Shows,
  entry_text,
  kind_lines,
  line,
  other_lines,
  range_text,
};
ghost use Rattle.demands.specs.Way.Finished.{other_parts};
ghost use Rattle.demands.specs.Way.Others.{kept_others};
ghost use Rattle.demands.specs.Verdict.{verdict_word};
ghost use Rattle.texts.specs.TextOut.{Extends};

use crate::read::{Extras, LineKind, RANGE, TO, TextLines};
use crate::table::Table;
use demands::{Entry, Finished, OtherTexts, TableFault, TextList, Verdict};
use pep_clause::Range;
use pep_marker::{Environment, Name};
use std::alloc::{AllocError, Global};
use texts::TextOut;

fn put_line<T: TextOut>(text: &mut T, front: &str, value: &str) -> Result<(), T::Fault>
    ensures ok { OnOk result (T.tells → T.written text.new ≡ T.written text.old
        ++ line (front.now ++ value.now)) }
    ensures kept { OnErr result (T.tells → Extends (T.written text.old) (T.written text.new)) }
{
    text.put_str(front)?;
    text.put_str(value)?;
    text.put_str("\n")?;
    Ok(())
}

// Writes a line of the kind for each of the texts.
fn put_texts<T: TextOut, K: LineKind, L: TextList>(
    text: &mut T,
    kind: &K,
    texts: &L,
) -> Result<(), T::Fault>
    ensures ok { OnOk result (T.tells → T.written text.new ≡ T.written text.old
        ++ kind_lines (K.word kind.now) (L.texts texts.now)) }
    ensures kept { OnErr result (T.tells → Extends (T.written text.old) (T.written text.new)) }
{
    for i in 0..texts.count() {
        put_line(text, kind.front(), texts.text_at(i))?;
    }
    Ok(())
}

fn put_range<T: TextOut>(text: &mut T, range: &Range) -> Result<(), T::Fault>
    ensures ok { OnOk result (T.tells → T.written text.new ≡ T.written text.old
        ++ line (codes "  range " ++ range_text range.now)) }
    ensures kept { OnErr result (T.tells → Extends (T.written text.old) (T.written text.new)) }
{
    text.put_str(RANGE)?;
    range.low().put_text(text)?;
    text.put_str(TO)?;
    range.high().put_text(text)?;
    text.put_str("\n")?;
    Ok(())
}

fn put_ranges<T: TextOut>(text: &mut T, ranges: &[Range]) -> Result<(), T::Fault>
    ensures ok { OnOk result (T.tells → T.written text.new ≡ T.written text.old
        ++ kind_lines (codes "range") (map range_text ranges.now)) }
    ensures kept { OnErr result (T.tells → Extends (T.written text.old) (T.written text.new)) }
{
    for range in ranges {
        put_range(text, range)?;
    }
    Ok(())
}

fn put_head<T: TextOut>(text: &mut T, name: &str, verdict: Verdict) -> Result<(), T::Fault>
    ensures ok { OnOk result (T.tells → T.written text.new ≡ T.written text.old
        ++ line (name.now ++ codes " " ++ verdict_word verdict)) }
    ensures kept { OnErr result (T.tells → Extends (T.written text.old) (T.written text.new)) }
{
    text.put_str(name)?;
    text.put_str(" ")?;
    text.put_str(verdict.word())?;
    text.put_str("\n")?;
    Ok(())
}

// Writes the lines of what is demanded besides versions.
fn put_others<T: TextOut, E: TextList, L: TextList>(
    text: &mut T,
    extras: &E,
    urls: &L,
    texts: &L,
) -> Result<(), T::Fault>
    ensures ok { OnOk result (T.tells → T.written text.new ≡ T.written text.old
        ++ other_lines (record {
          extras = E.texts extras.now;
          urls = L.texts urls.now;
          texts = L.texts texts.now;
        })) }
    ensures kept { OnErr result (T.tells → Extends (T.written text.old) (T.written text.new)) }
{
    put_texts(text, &Extras, extras)?;
    put_texts(text, &TextLines::Urls, urls)?;
    put_texts(text, &TextLines::Demanded, texts)
}

// Writes the lines of an entry under its verdict.
fn put_lines<T: TextOut>(
    text: &mut T,
    name: &Name,
    verdict: Verdict,
    entry: &Entry,
) -> Result<(), T::Fault>
    ensures ok { OnOk result (T.tells → T.written text.new ≡ T.written text.old
        ++ entry_text name.now verdict entry.now) }
    ensures kept { OnErr result (T.tells → Extends (T.written text.old) (T.written text.new)) }
{
    put_head(text, name.text(), verdict)?;
    put_others(text, entry.extras(), entry.urls(), entry.texts())?;
    put_ranges(text, entry.versions().ranges())
}

/// Appends the lines of an entry.
pub(crate) fn push_entry(
    alloc: Global,
    text: &mut String,
    name: &Name,
    entry: &Entry,
) -> Result<(), AllocError>
    ensures { OnOk result ((verdict : Verdict) × Shows entry.now verdict
        × (string_bytes text.new ≡ string_bytes text.old
        ++ entry_text name.now verdict entry.now)) }
{
    let verdict = entry.verdict(alloc).map_err(|_| AllocError)?;
    put_lines(text, name, verdict, entry)
}

/// The lines of the entry of a name, as they stand in the text of a table (see [`Table::text`]). The only fault is
/// `NoMemory`, 42.
pub fn entry_text(alloc: Global, name: &Name, entry: &Entry) -> Result<String, TableFault>
    ensures text { IfOk result (λ text. (verdict : Verdict) × Shows entry.now verdict
        × (string_bytes text ≡ entry_text name.now verdict entry.now)) }
    ensures faults { IfErr result (λ e. e ≡ TableFault.NoMemory) }
{
    let mut lines = String::new(alloc);
    push_entry(alloc, &mut lines, name, entry)?;
    Ok(lines)
}

// The same of what is kept of a name, if there is any.
fn put_kept<T: TextOut>(text: &mut T, others: Option<&OtherTexts>) -> Result<(), T::Fault>
    ensures ok { OnOk result (T.tells → T.written text.new ≡ T.written text.old
        ++ other_lines (kept_others (option_map (λ o. o.now) others.entry))) }
    ensures kept { OnErr result (T.tells → Extends (T.written text.old) (T.written text.new)) }
{
    match others {
        Some(others) => put_others(text, others.extras(), others.urls(), others.texts()),
        None => Ok(()),
    }
}

/// Writes the lines of a name of which this is demanded, under its verdict.
pub(crate) fn put_finished<T: TextOut>(
    text: &mut T,
    name: &Name,
    verdict: Verdict,
    finished: &Finished,
) -> Result<(), T::Fault>
    ensures ok { OnOk result (T.tells → T.written text.new ≡ T.written text.old
        ++ entry_text name.now verdict finished.now) }
    ensures kept { OnErr result (T.tells → Extends (T.written text.old) (T.written text.new)) }
{
    put_head(text, name.text(), verdict)?;
    put_kept(text, finished.others())?;
    put_ranges(text, finished.versions().ranges())
}

/// The header of the environment.
pub(crate) fn header_of(alloc: Global, environment: &Environment) -> Result<String, AllocError>
    ensures { IfOk result (λ text. string_bytes text ≡ header environment.now) }
{
    environment.header(alloc).map_err(|_| AllocError)
}

impl Table {
    /// The text of the table in the environment: its header (see [`Environment::header`]), and behind
    /// it for each name in byte order a line with its verdict (`open`, `none`, `conflict`), and below
    /// it, indented by two spaces, a line for each extra, URL, demanded text and range of versions.
    /// The only fault is `NoMemory`, 42.
    pub fn text(&self, alloc: Global, environment: &Environment) -> Result<String, TableFault>
        ensures text { IfOk result (λ text.
            IsTableText environment.now self.now (string_bytes text)) }
        ensures faults { IfErr result (λ e. e ≡ TableFault.NoMemory) }
    {
        let mut text = header_of(alloc, environment)?;
        for (name, entry) in self.entries() {
            push_entry(alloc, &mut text, name, entry)?;
        }
        Ok(text)
    }
}
