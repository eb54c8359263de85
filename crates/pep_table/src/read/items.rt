// Lines of one kind: extras, URLs and demanded texts.

ghost use Rattle.std.specs.Prelude.{
  ◌≡◌,
  ◌⊎◌,
  ◌↔◌,
  ◌++◌,
  ◌∷◌,
  [],
  IfErr,
  IfOk,
  IfSome,
  IsTrue,
  List,
  None,
  codes,
  map,
  ℕ,
};
ghost use Rattle.pep_marker.specs.Name.{IsNormalName};
ghost use Rattle.pep_require.specs.Requirement.{IsAscending};
ghost use Rattle.pep_table.specs.Way.TableReading.{AreItems, Front, HasNoFront, kind_front};
ghost use Rattle.pep_table.specs.Way.ReadText.{AreKindLines, HaltsAt, IsBehind};
ghost use Rattle.pep_table.specs.Way.TextLines.{may_stand};

use crate::read::Halt;
use crate::read::split::split_at_byte;
use demands::{Kept, Sorted};
use pep_clause::is_demanded_text;
use pep_marker::{MarkerFault, Name};
use pep_require::UrlText;
use std::alloc::{AllocError, Global};

/// A kind of lines.
pub(crate) trait LineKind {
    ghost use Rattle.std.specs.Prelude.{List, ℕ};

    /// What stands on them.
    type Item: Kept;

    /// The word of the kind.
    ghost word: { Self → List ℕ };

    /// Holds of the texts that may stand behind it.
    ghost is_item: { Self → List ℕ → Type 0 };

    /// What stands in front of such a text.
    fn front(&self) -> &'static str
        ensures { result.now ≡ kind_front (word self.now) };

    /// The item of a text, if it may stand there.
    fn item(&self, alloc: Global, text: &str) -> Result<Option<Self::Item>, AllocError>
        ensures some { IfOk result (λ r. IfSome r (λ x.
            (Self.Item.text x ≡ text.now) × is_item self.now text.now)) }
        ensures none { IfOk result (λ r. r ≡ None → ¬ is_item self.now text.now) };
}

/// The lines of extras.
#[derive(Clone, Copy)]
pub(crate) struct Extras;

/// Lines on which a text of its own stands.
#[derive(Clone, Copy)]
pub(crate) enum TextLines {
    /// The lines of URLs.
    Urls,
    /// The lines of demanded texts.
    Demanded,
}

/// The name whose text this is.
pub(crate) fn listed_name(alloc: Global, text: &str) -> Result<Option<Name>, AllocError>
    ensures some { IfOk result (λ r. IfSome r (λ x. (x ≡ text.now) × IsNormalName text.now)) }
    ensures none { IfOk result (λ r. r ≡ None → ¬ IsNormalName text.now) }
{
    match Name::read(alloc, text) {
        Ok(name) if name.text() == text => Ok(Some(name)),
        Err(MarkerFault::NoMemory) => Err(AllocError),
        _ => Ok(None),
    }
}

impl LineKind for Extras {
    ghost use Rattle.std.specs.Prelude.{codes};
    ghost use Rattle.pep_marker.specs.Name.{IsNormalName};

    type Item = Name;

    ghost word = { λ _. codes "extra" };

    ghost is_item = { λ _ text. IsNormalName text };

    fn front(&self) -> &'static str {
        "  extra "
    }

    fn item(&self, alloc: Global, text: &str) -> Result<Option<Name>, AllocError> {
        listed_name(alloc, text)
    }
}

impl TextLines {
    // Whether the text may stand on such a line.
    fn may_stand(&self, text: &str) -> bool
        ensures { result ≡ may_stand self.now text.now }
    {
        match self {
            TextLines::Urls => !text.is_empty() && UrlText::is_printable(text),
            TextLines::Demanded => is_demanded_text(text),
        }
    }
}

impl LineKind for TextLines {
    ghost use Rattle.std.specs.Prelude.{IsTrue};
    ghost use Rattle.pep_table.specs.Way.TextLines.{may_stand, text_word};

    type Item = String;

    ghost word = { text_word };

    ghost is_item = { λ kind text. IsTrue (may_stand kind text) };

    fn front(&self) -> &'static str {
        match self {
            TextLines::Urls => "  url ",
            TextLines::Demanded => "  text ",
        }
    }

    fn item(&self, alloc: Global, text: &str) -> Result<Option<String>, AllocError> {
        if self.may_stand(text) {
            Ok(Some(String::from_str(alloc, text)?))
        } else {
            Ok(None)
        }
    }
}

// Whether the item stands behind the others.
fn is_behind<T: Kept>(items: &[T], item: &T) -> bool
    requires { IsAscending (map T.text items.now) }
    ensures { IsTrue result ↔ IsAscending (map T.text items.now ++ T.text item.now ∷ []) }
{
    match items.last() {
        Some(last) => last.cmp(item).is_lt(),
        None => true,
    }
}

/// The items of all lines of the kind in front, each of which stands behind the one before, and the
/// text behind them.
pub(crate) fn read_items<'a, K: LineKind>(
    alloc: Global,
    kind: &K,
    text: &'a str,
) -> Result<(Sorted<K::Item>, &'a str), Halt<'a>>
    ensures ok { IfOk result (λ r. Front (K.word kind.now) text.now r.0 r.1.now
        × AreItems (K.is_item kind.now) r.0) }
    ensures refused { IfErr result (λ e. (e ≡ Halt.NoMemory)
        ⊎ HasNoFront (K.word kind.now) (AreItems (K.is_item kind.now)) text.now) }
    ensures stops { IfErr result (HaltsAt (IsBehind (AreKindLines (K.word kind.now)) text.now)) }
{
    let mut items = Vec::new(alloc);
    let mut rest = text;
    while let Some(line) = rest.strip_prefix(kind.front()) {
        let Some((item, behind)) = split_at_byte(line, b'\n') else {
            return Err(Halt::At(rest));
        };
        let Some(item) = kind.item(alloc, item)? else {
            return Err(Halt::At(rest));
        };
        if !is_behind(items.as_slice(), &item) {
            return Err(Halt::At(rest));
        }
        items.push(item)?;
        rest = behind;
    }
    Ok((Sorted::of_ascending(items), rest))
}
