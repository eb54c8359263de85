//! Names as they are written.

ghost use Rattle.std.specs.Prelude.{
  ◌≡◌,
  IfOk,
  IfSome,
  MatchOption,
  None,
  Some,
  drop,
  length,
  take_while,
};
ghost use Rattle.pep_marker.specs.Name.{IsNormalName, name_of, normalized};
ghost use Rattle.texts.specs.Bytes.{is_name_byte};

use crate::name::{Name, has_name_ends, normal_run, normal_text};
use std::alloc::{AllocError, Global};
use std::marker::Model;
use texts::name_run;

/// A name as it is written in a text (PEP 508, "Names"). It is normalized where it is kept, so one that came before may
/// be told by its text alone. Clauses see the normalized name. Public for the crates above alone.
#[derive(Drop)]
pub struct WrittenName<'a> {
    text: &'a str,
    // Whether the text is known to be in its normalized form.
    is_normal: bool,
}

impl<'a> Model for WrittenName<'a> {
    ghost use Rattle.std.specs.Prelude.{IsTrue, List, ℕ};
    ghost use Rattle.pep_marker.specs.Name.{IsNormalName, is_name, normalized};

    ghost Value = { List ℕ };

    ghost view = { λ n. normalized n.text.now };

    ghost invariant = { λ n. IsTrue (is_name n.text.now)
        × (IsTrue n.is_normal → IsNormalName n.text.now) };
}

impl<'a> WrittenName<'a> {
    /// The name in front of a text, which goes on as long as there are bytes that a name may hold (PEP 508, "Names"),
    /// and what stands behind it. `None` exactly where these bytes are no name.
    #[inline(always)]
    pub fn in_front(text: &'a str) -> Option<(WrittenName<'a>, &'a str)>
        ensures name { MatchOption result (name_of (take_while is_name_byte text.now) ≡ None)
            (λ found. name_of (take_while is_name_byte text.now) ≡ Some found.0) }
        ensures rest { IfSome result (λ found.
            found.1.now ≡ drop (length (take_while is_name_byte text.now)) text.now) }
    {
        if let Some(count) = normal_run(text.as_bytes()) {
            let (text, rest) = text.split_at(count);
            let is_normal = true;
            return Some((WrittenName { text, is_normal }, rest));
        }
        let (text, rest) = text.split_at(name_run(text.as_bytes()));
        if !has_name_ends(text.as_bytes()) {
            return None;
        }
        let is_normal = false;
        Some((WrittenName { text, is_normal }, rest))
    }

    /// The name with this normalized text.
    pub(crate) fn of_normal(text: &'a str) -> WrittenName<'a>
        requires { IsNormalName text.now }
        ensures { result ≡ text.now }
    {
        WrittenName {
            text,
            is_normal: true,
        }
    }

    /// The name as it is written.
    pub fn text(&self) -> &'a str
        ensures text { normalized result.now ≡ self.now }
        ensures normal { IsNormalName self.now }
    {
        self.text
    }

    /// The normalized name, in storage of its own.
    pub fn kept(&self, alloc: Global) -> Result<Name, AllocError>
        ensures { IfOk result (λ n. n ≡ self.now) }
    {
        if self.is_normal {
            return Name::of_normal(alloc, self.text);
        }
        match Name::normalized_in(self.text.as_bytes()) {
            Some(name) => Ok(name),
            None => {
                let written = normal_text(alloc, self.text)?;
                Name::of_normal(alloc, written.as_str())
            }
        }
    }
}
