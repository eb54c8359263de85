// Equality of sorted values and of entries.

ghost use Rattle.std.specs.Prelude.{◌≡◌, ◌↔◌, IsTrue};
ghost use Rattle.std.specs.Cmp.{partial_equiv_from_equiv};
ghost use Rattle.demands.specs.SameTables.{
  SameEntries,
  same_entry,
  same_entry-equiv,
  same_texts,
  same_texts-equiv,
};

use crate::entry::Entry;
use crate::sorted::{Kept, Sorted};

impl<T: Kept> PartialEq for Sorted<T> {
    ghost eq = { same_texts };

    ghost laws = { partial_equiv_from_equiv same_texts-equiv };

    /// Whether both have the same texts.
    fn eq(&self, other: &Sorted<T>) -> bool
        ensures texts { result ≡ same_texts self.now other.now }
        ensures exactly { IsTrue result ↔ (self.now ≡ other.now) }
    {
        self.items() == other.items()
    }
}

impl<T: Kept> Eq for Sorted<T> {
    ghost laws = { same_texts-equiv };
}

impl PartialEq for Entry {
    ghost eq = { same_entry };

    ghost laws = { partial_equiv_from_equiv same_entry-equiv };

    /// Whether both demand the same: extras, URLs and texts, and the same versions.
    fn eq(&self, other: &Entry) -> bool
        ensures parts { result ≡ same_entry self.now other.now }
        ensures exactly { IsTrue result ↔ (self.now ≡ other.now) }
        ensures versions { IsTrue result ↔ SameEntries self.now other.now }
    {
        self.extras() == other.extras()
            && self.urls() == other.urls()
            && self.texts() == other.texts()
            && self.versions() == other.versions()
    }
}

impl Eq for Entry {
    ghost laws = { same_entry-equiv };
}
