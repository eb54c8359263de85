// Equality of tables.

ghost use Rattle.std.specs.Prelude.{◌≡◌, ◌↔◌, IsTrue};
ghost use Rattle.std.specs.Cmp.{partial_equiv_from_equiv};
ghost use Rattle.demands.specs.SameTables.{SameTables, same_table, same_table-equiv};

use crate::table::Table;

impl PartialEq for Table {
    ghost eq = { same_table };

    ghost laws = { partial_equiv_from_equiv same_table-equiv };

    /// Whether both demand the same, name by name. Two tables are equal exactly where they have the
    /// same names, each with the same extras, URLs, demanded texts and versions.
    fn eq(&self, other: &Table) -> bool
        ensures entries { result ≡ same_table self.now other.now }
        ensures exactly { IsTrue result ↔ (self.now ≡ other.now) }
        ensures versions { IsTrue result ↔ SameTables self.now other.now }
    {
        self.entries() == other.entries()
    }
}

impl Eq for Table {
    ghost laws = { same_table-equiv };
}
