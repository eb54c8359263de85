//! Lists of texts, however they are kept.

use crate::sorted::{Kept, Sorted};
use texts::Arena;

/// Texts one after the other, as values or in one list of bytes. Public for the crate of tables.
pub trait TextList {
    ghost use Rattle.std.specs.Prelude.{◌≡◌, ◌<◌, [], List, ℕ, get_or, length};

    /// The texts.
    ghost texts: { Self → List (List ℕ) };

    /// How many texts there are.
    fn count(&self) -> usize
        ensures { result ≡ length (texts self.now) };

    /// The text at an index.
    fn text_at(&self, index: usize) -> &str
        requires { index < length (texts self.now) }
        ensures { result.now ≡ get_or (texts self.now) index [] };
}

impl TextList for Arena {
    ghost texts = { λ a. a };

    fn count(&self) -> usize {
        self.len()
    }

    fn text_at(&self, index: usize) -> &str {
        self.text(index)
    }
}

impl<T: Kept> TextList for Sorted<T> {
    ghost texts = { λ s. s };

    fn count(&self) -> usize {
        self.items().len()
    }

    fn text_at(&self, index: usize) -> &str {
        self.items()[index].as_text()
    }
}
