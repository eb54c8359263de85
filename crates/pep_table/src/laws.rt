//! Laws of the definitions.

ghost use Rattle.std.specs.Prelude.{◌≡◌, ◌↔◌, ℕ, [], Bool, Contains, IsUtf8, List};
ghost use Rattle.std.specs.List.{AllZip};
ghost use Rattle.pep_version.specs.Version.{IsVersion, Version};
ghost use Rattle.pep_marker.specs.Environment.{EnvironmentParts, IsEnvironment};
ghost use Rattle.pep_marker.specs.Header.{header};
ghost use Rattle.demands.specs.Answer.{IsAnswer};
ghost use Rattle.demands.specs.Demand.{
  ApplyingDemands,
  Demand,
  HaveSameDemands,
  Listed,
  RequirementDemands,
  Together,
};
ghost use Rattle.demands.specs.Gathering.{TakesApplying, TakesRequirement};
ghost use Rattle.demands.specs.Join.{IsJoin, IsUnion, JoinsAll, JoinsTables};
ghost use Rattle.pep_table.specs.MergeTree.{
  IsAcceptedTree,
  MakesTable,
  MergeTree,
  MergesAlike,
  TreeDemands,
  all_joined,
  input,
  joined,
  printed,
};
ghost use Rattle.demands.specs.Table.{
  HasExactPoints,
  IsTable,
  IsValidTable,
  TableDemands,
  TableParts,
};
ghost use Rattle.pep_table.specs.EntryRanges.{HasFewEntryRanges};
ghost use Rattle.pep_table.specs.TableText.{AreTableLines, IsReadAs, IsTableText};
ghost use Rattle.demands.specs.Verdict.{IsVerdict};
ghost use Rattle.pep_require.specs.Requirement.{IsAscending, RequirementParts};

use demands::{Answer, Join, Verdict};

/// A table has one text in an environment.
pub fn one_table_text()
    ensures { (e : EnvironmentParts) (t : TableParts) (x y : List ℕ) → IsTableText e t x
        → IsTableText e t y → x ≡ y }
{}

/// A text is that of one table, in environments of one header, and no table's lines; and it is read as
/// one table in an environment.
pub fn one_table_of_text()
    ensures read { (e : EnvironmentParts) (s t : TableParts) (x : List ℕ) → IsReadAs e s x
        → IsReadAs e t x → IsValidTable s → IsValidTable t → s ≡ t }
    ensures printed { (e f : EnvironmentParts) (s t : TableParts) (x : List ℕ) → IsEnvironment e
        → IsEnvironment f → IsTableText e s x → IsTableText f t x → IsValidTable s
        → IsValidTable t → (s ≡ t) × (header e ≡ header f) }
    ensures apart { (f : EnvironmentParts) (s t : TableParts) (x : List ℕ) → IsTableText f s x
        → IsValidTable t → ¬ AreTableLines t x }
{}

/// The lines of a table are UTF-8.
pub fn table_lines_are_utf8()
    ensures { (t : TableParts) (x : List ℕ) → IsValidTable t → AreTableLines t x → IsUtf8 x }
{}

/// The union of sorted lists of texts does not depend on order, grouping and repeats.
pub fn union_is_join()
    ensures { IsJoin IsAscending IsUnion }
{}

/// Two merges of the same demands print the same bytes, whatever their order, grouping and repeats,
/// and whether or not a table is printed and read back on the way.
pub fn merges_alike()
    ensures { MergesAlike }
{}

/// What calls promise are the steps of such merges: [`Table::of`](crate::Table::of) of the
/// requirements of an input, [`Join::joined`] and [`join_all`](crate::join_all), and
/// [`Table::read`](crate::Table::read) of what [`Table::text`](crate::Table::text) printed.
pub fn merge_steps()
    ensures of { (e : EnvironmentParts) (rs : List RequirementParts) (t : TableParts)
        → IsTable (ApplyingDemands e rs) t → HasExactPoints (ApplyingDemands e rs) t
        → MakesTable e (input rs) t }
    ensures joined { (e : EnvironmentParts) (a b : MergeTree) (s t r : TableParts)
        → MakesTable e a s → MakesTable e b t → JoinsTables s t r → MakesTable e (joined a b) r }
    ensures all { (e : EnvironmentParts) (a : MergeTree) (trees : List MergeTree) (s : TableParts)
        (ts : List TableParts) (r : TableParts) → MakesTable e a s
        → AllZip (MakesTable e) trees ts → JoinsAll IsValidTable JoinsTables s ts r
        → MakesTable e (all_joined a trees) r }
    ensures read { (e : EnvironmentParts) (a : MergeTree) (s t : TableParts) (x : List ℕ)
        → MakesTable e a s → IsTableText e s x → IsReadAs e t x → IsValidTable t
        → MakesTable e (printed a) t }
{}

/// The table that a merge makes is that of the demands of all its inputs, with just their points.
pub fn tree_is_table()
    ensures { (e : EnvironmentParts) (tree : MergeTree) (t : TableParts) → IsAcceptedTree e tree
        → MakesTable e tree t
        → IsTable (TreeDemands e tree) t × HasExactPoints (TreeDemands e tree) t }
{}

/// Equal starts, and items with the same members, are joined to one value, whatever the order of
/// the items and their repeats.
pub fn join_all_is_one<J: Join>()
    ensures { (a b c : J) (xs ys : List J) → ((x : J) → Contains xs x ↔ Contains ys x)
        → JoinsAll J.is_value J.joins a xs b → JoinsAll J.is_value J.joins a ys c → b ≡ c }
{}

/// The join of the tables of two sets of demands is the table of both sets, and where each has just
/// the points that its demands have, so has the join. So it is for listed demands, and for those of
/// merge trees: of a tree that is one input, for the demands of the requirements that apply.
pub fn joined_is_table()
    ensures table { (q w : List (List ℕ × Demand)) (s t r : TableParts) → IsTable (Listed q) s
        → IsTable (Listed w) t → JoinsTables s t r → IsTable (Together (Listed q) (Listed w)) r }
    ensures points { (q w : List (List ℕ × Demand)) (s t r : TableParts) → IsTable (Listed q) s
        → HasExactPoints (Listed q) s → IsTable (Listed w) t → HasExactPoints (Listed w) t
        → JoinsTables s t r → HasExactPoints (Together (Listed q) (Listed w)) r }
    ensures trees { (e f : EnvironmentParts) (a b : MergeTree) (s t r : TableParts)
        → IsTable (TreeDemands e a) s → IsTable (TreeDemands f b) t → JoinsTables s t r
        → IsTable (Together (TreeDemands e a) (TreeDemands f b)) r }
    ensures tree_points { (e f : EnvironmentParts) (a b : MergeTree) (s t r : TableParts)
        → IsTable (TreeDemands e a) s → HasExactPoints (TreeDemands e a) s
        → IsTable (TreeDemands f b) t → HasExactPoints (TreeDemands f b) t → JoinsTables s t r
        → HasExactPoints (Together (TreeDemands e a) (TreeDemands f b)) r }
{}

/// A table of demands that takes a requirement is the table of these demands and those of the
/// requirement, and keeps just the points that all of them have.
pub fn taken_is_table()
    ensures { (q : List (List ℕ × Demand)) (s t : TableParts) (r : RequirementParts)
        → IsTable (Listed q) s → HasExactPoints (Listed q) s → TakesRequirement s r t
        → IsTable (Together (Listed q) (RequirementDemands r)) t
        × HasExactPoints (Together (Listed q) (RequirementDemands r)) t }
{}

/// .. and so is one that takes requirements which apply in an environment.
pub fn applying_is_table()
    ensures { (e : EnvironmentParts) (q : List (List ℕ × Demand)) (rs : List RequirementParts)
        (s t : TableParts) → IsTable (Listed q) s → HasExactPoints (Listed q) s
        → TakesApplying e s rs t → IsTable (Together (Listed q) (ApplyingDemands e rs)) t
        × HasExactPoints (Together (Listed q) (ApplyingDemands e rs)) t }
{}

/// A table that takes requirements one after the other, from nothing, has in each entry at most one
/// range more than those that apply have `!=` clauses on its name.
pub fn few_ranges()
    ensures { (e : EnvironmentParts) (rs : List RequirementParts) (t : TableParts)
        → TakesApplying e [] rs t → HasFewEntryRanges e rs t }
{}

/// A table is the table of its own demands, with just their points.
pub fn own_table()
    ensures { (t : TableParts) → IsValidTable t
        → IsTable (TableDemands t) t × HasExactPoints (TableDemands t) t }
{}

/// A set of demands has one table, in whatever order and however often each is told.
pub fn one_table_of_demands()
    ensures { (q w : List (List ℕ × Demand)) (s t : TableParts)
        → HaveSameDemands (Listed q) (Listed w) → IsTable (Listed q) s → IsTable (Listed w) t
        → s ≡ t }
{}

/// A set of demands has one verdict on a name.
pub fn one_verdict()
    ensures { (q : List (List ℕ × Demand)) (name : List ℕ) (v w : Verdict)
        → IsVerdict (Listed q name) v → IsVerdict (Listed q name) w → v ≡ w }
{}

/// What a table says of a version of a package, and of the package, all demands say of which it is
/// the table: listed demands, and those of a merge tree; of a tree that is one input, the demands of
/// the requirements that apply, as of [`Table::of`](crate::Table::of).
pub fn table_answers()
    ensures answers { (q : List (List ℕ × Demand)) (t : TableParts) (name : List ℕ) (v : Version)
        (want_pre : Bool) (a : Answer) → IsTable (Listed q) t → IsVersion v
        → IsAnswer (TableDemands t name) v want_pre a → IsAnswer (Listed q name) v want_pre a }
    ensures verdicts { (q : List (List ℕ × Demand)) (t : TableParts) (name : List ℕ)
        (verdict : Verdict) → IsTable (Listed q) t → IsVerdict (TableDemands t name) verdict
        → IsVerdict (Listed q name) verdict }
    ensures tree_answers { (e : EnvironmentParts) (tree : MergeTree) (t : TableParts)
        (name : List ℕ) (v : Version) (want_pre : Bool) (a : Answer) → IsTable (TreeDemands e tree) t
        → IsVersion v → IsAnswer (TableDemands t name) v want_pre a
        → IsAnswer (TreeDemands e tree name) v want_pre a }
    ensures tree_verdicts { (e : EnvironmentParts) (tree : MergeTree) (t : TableParts)
        (name : List ℕ) (verdict : Verdict) → IsTable (TreeDemands e tree) t
        → IsVerdict (TableDemands t name) verdict → IsVerdict (TreeDemands e tree name) verdict }
{}
