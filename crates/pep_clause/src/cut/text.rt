// How a cut is written.

ghost use Rattle.std.specs.Prelude.{◌≡◌, ◌++◌, string_bytes, IfErr, IfOk, OnErr, OnOk};
ghost use Rattle.pep_version.specs.KeyReading.{behind_place};
ghost use Rattle.pep_version.specs.Text.{KeepsFront};
ghost use Rattle.pep_clause.specs.Cut.{cut_text};
ghost use Rattle.pep_clause.specs.CutView.{CutReadsBack, cut_at, cut_word};
ghost use Rattle.texts.specs.TextOut.{Extends};

use crate::cut::{Cut, Form};
use crate::words;
use pep_version::{Version, behind_release};
use specifiers::ClauseFault;
use std::alloc::Global;
use texts::TextOut;

impl Cut {
    /// The text of the cut: its word, which is `before`, `after` or `past`, and the normal text of
    /// the version (PEP 440, "Normalization"), for `past` of the release with its epoch; or `end`.
    /// The only fault is `NoMemory`.
    pub fn text(&self, alloc: Global) -> Result<String, ClauseFault>
        ensures text { IfOk result (λ t. string_bytes t ≡ cut_text self.now) }
        ensures faults { IfErr result (λ e. e ≡ ClauseFault.NoMemory) }
    {
        let mut text = String::new(alloc);
        self.push_text(&mut text)?;
        Ok(text)
    }

    /// Appends the text of the cut. The only fault is `NoMemory`; a refusal leaves what stood in
    /// the text, with perhaps a part behind it.
    pub fn push_text(&self, text: &mut String) -> Result<(), ClauseFault>
        ensures ok { OnOk result (string_bytes text.new
            ≡ string_bytes text.old ++ cut_text self.now) }
        ensures faults { IfErr result (λ e. e ≡ ClauseFault.NoMemory) }
        ensures kept { OnErr result (KeepsFront (string_bytes text.old) (string_bytes text.new)) }
    {
        self.put_text(text)?;
        Ok(())
    }

    /// Writes the text of the cut to what takes it part by part, as `push_text` does to a `String`. No memory is asked
    /// for. A fault is one of what takes it; what had been taken before stays, with perhaps a part behind it.
    pub fn put_text<T: TextOut>(&self, text: &mut T) -> Result<(), T::Fault>
        ensures ok { OnOk result (T.tells → T.written text.new
            ≡ T.written text.old ++ cut_text self.now) }
        ensures kept { OnErr result (T.tells → Extends (T.written text.old) (T.written text.new)) }
    {
        match &self.form {
            Form::Small(cut) => cut.put_text(text),
            Form::Large(bytes) => put_text_of(text, bytes.as_slice()),
        }
    }
}

// Writes the text of the cut with these bytes.
fn put_text_of<T: TextOut>(text: &mut T, bytes: &[u8]) -> Result<(), T::Fault>
    requires { CutReadsBack bytes.now }
    ensures ok { OnOk result (T.tells → T.written text.new
        ≡ T.written text.old ++ cut_text (cut_at bytes.now)) }
    ensures kept { OnErr result (T.tells → Extends (T.written text.old) (T.written text.new)) }
{
    text.put_str(word(bytes, Version::behind_front(bytes)))?;
    Version::put_front(text, bytes)
}

// The word of a cut with these bytes, of which the last ones stand behind the key of its version.
fn word(bytes: &[u8], rest: &[u8]) -> &'static str
    ensures { result.now ≡ cut_word (behind_place bytes.now) rest.now }
{
    match (behind_release(bytes), rest) {
        ([0x60, ..], _) => words::PAST,
        (_, []) => words::BEFORE,
        _ => words::AFTER,
    }
}
