//! Laws of the definitions.

ghost use Rattle.std.specs.Prelude.{◌≡◌, ◌∷◌, ◌++◌, [], ℕ, All, Bool, List};
ghost use Rattle.pep_version.specs.Version.{IsVersion, Version};
ghost use Rattle.pep_marker.specs.Environment.{EnvironmentParts, IsEnvironment};
ghost use Rattle.pep_marker.specs.Header.{header};
ghost use Rattle.pep_require.specs.Requirement.{RequirementParts};
ghost use Rattle.demands.specs.Answer.{IsAnswer};
ghost use Rattle.demands.specs.Demand.{HaveSameDemands};
ghost use Rattle.demands.specs.Join.{JoinsTables};
ghost use Rattle.demands.specs.Table.{HasExactPoints, IsTable, TableDemands, TableParts};
ghost use Rattle.demands.specs.Verdict.{IsVerdict};
ghost use Rattle.pep_table.specs.TableText.{IsTableText};
ghost use Rattle.faults.specs.declared.fault.Cause.{Cause};
ghost use Rattle.documents.specs.RefusedProject.{IsOverflow};
ghost use Rattle.inputs.specs.declared.input.Input.{Input};
ghost use Rattle.inputs.specs.declared.input.Kind.TheVariants as Kind;
ghost use Rattle.inputs.specs.Gathered.{
  Gathered,
  HaveSameLines,
  HaveSameRequirements,
  IsAccepted,
};
ghost use Rattle.inputs.specs.Lists.{IsRequirementList};
ghost use Rattle.inputs.specs.Merge.{IsMerge};
ghost use Rattle.inputs.specs.Origins.{Origin, OriginDemands, both};
ghost use Rattle.inputs.specs.Refusal.{IsRefused, IsRefusedList};
ghost use Rattle.inputs.specs.Streams.{IsTableOfList};

pub use documents::laws::{group_is_walked, one_project, refused_project_is_not_read};
use pep_table::{Answer, Verdict};

/// Inputs that demand the same have one text, whatever the order, the grouping and the repeats of
/// their lines, in environments of one header.
pub fn one_text()
    ensures { (e f : EnvironmentParts) (a b : List Input) (x y : List ℕ) → header e ≡ header f
        → IsMerge e a x → IsMerge f b y → HaveSameDemands (Gathered e a) (Gathered f b) → x ≡ y }
{}

/// What inputs demand has one table, whatever the order, the grouping and the repeats of their
/// lines.
pub fn one_table()
    ensures { (e f : EnvironmentParts) (a b : List Input) (s t : TableParts)
        → HaveSameDemands (Gathered e a) (Gathered f b)
        → IsTable (Gathered e a) s → IsTable (Gathered f b) t → s ≡ t }
{}

/// Inputs that have the same requirements and the same tables demand the same, whatever the order
/// and the repeats of the inputs and of their requirements, and whichever input each one stands in.
pub fn same_requirements()
    ensures { (e : EnvironmentParts) (a b : List Input) → HaveSameRequirements e a b
        → HaveSameDemands (Gathered e a) (Gathered e b) }
{}

/// Accepted inputs with the same lines of lists, texts of project files and tables demand the same,
/// whatever the order and the repeats of the inputs, and of the lines of lists and the texts of
/// project files, and whichever input each of these stands in.
pub fn same_lines()
    ensures { (e : EnvironmentParts) (a b : List Input) → All (IsAccepted e) a
        → All (IsAccepted e) b → HaveSameLines e a b
        → HaveSameDemands (Gathered e a) (Gathered e b) }
{}

/// .. and so their merges have one text.
pub fn one_text_of_lines()
    ensures { (e : EnvironmentParts) (a b : List Input) (x y : List ℕ) → IsMerge e a x
        → IsMerge e b y → HaveSameLines e a b → x ≡ y }
{}

/// A table that was printed of inputs stands for them: with it in their place, as a table file, the
/// merge has the same text. By `one_text_of_lines` it may stand at any place among the others.
pub fn printed_in_place()
    ensures { (e : EnvironmentParts) (a b : List Input) (i : Input) (x y z : List ℕ)
        → IsMerge e a x → i.kind ≡ Kind.Table → i.bytes.items ≡ x → IsMerge e (i ∷ b) y
        → IsMerge e (a ++ b) z → y ≡ z }
{}

/// Environments of one header are one: an input is accepted in both or in none, inputs demand the same
/// in both, and their merge is the same. So what is printed in the one is read in the other.
pub fn one_environment()
    ensures accepted { (e f : EnvironmentParts) (i : Input) → IsEnvironment e → IsEnvironment f
        → header e ≡ header f → IsAccepted e i → IsAccepted f i }
    ensures demands { (e f : EnvironmentParts) (a : List Input) → IsEnvironment e
        → IsEnvironment f → header e ≡ header f
        → HaveSameDemands (Gathered e a) (Gathered f a) }
    ensures merges { (e f : EnvironmentParts) (a : List Input) (x : List ℕ) → IsEnvironment e
        → IsEnvironment f → header e ≡ header f → IsMerge e a x → IsMerge f a x }
{}

/// The table of a list that was read is that of an input with the same bytes, and its text is the
/// merge of this input: so what is said of inputs, and of their merges, is said of lists that are
/// read.
pub fn read_is_merged()
    ensures accepted { (e : EnvironmentParts) (i : Input) (t : TableParts) → i.kind ≡ Kind.List
        → IsTableOfList e i.bytes.items t → All (IsAccepted e) (i ∷ []) }
    ensures table { (e : EnvironmentParts) (i : Input) (t : TableParts) → i.kind ≡ Kind.List
        → IsTableOfList e i.bytes.items t → IsTable (Gathered e (i ∷ [])) t
        × HasExactPoints (Gathered e (i ∷ [])) t }
    ensures text { (e : EnvironmentParts) (i : Input) (t : TableParts) (x : List ℕ)
        → i.kind ≡ Kind.List → IsTableOfList e i.bytes.items t → IsTableText e t x
        → IsMerge e (i ∷ []) x }
{}

/// What a table says of a version of a package, and of the package, all demands say of which it is
/// the table: those of inputs, as of [`gather`](crate::gather), those of bytes that are one input, as
/// of [`merge_reader`](crate::merge_reader), those of requirements that apply, and those of two such
/// together.
pub fn gathered_answers()
    ensures answers { (e : EnvironmentParts) (o : Origin) (t : TableParts) (name : List ℕ)
        (v : Version) (want_pre : Bool) (a : Answer) → IsTable (OriginDemands e o) t → IsVersion v
        → IsAnswer (TableDemands t name) v want_pre a
        → IsAnswer (OriginDemands e o name) v want_pre a }
    ensures verdicts { (e : EnvironmentParts) (o : Origin) (t : TableParts) (name : List ℕ)
        (verdict : Verdict) → IsTable (OriginDemands e o) t
        → IsVerdict (TableDemands t name) verdict → IsVerdict (OriginDemands e o name) verdict }
{}

/// The join of two such tables, as of one of inputs with one of a list that was read, is the table of
/// what both demand, and where each has just the points of its demands, so has the join.
pub fn gathered_are_joined()
    ensures table { (e : EnvironmentParts) (o p : Origin) (s t r : TableParts)
        → IsTable (OriginDemands e o) s → IsTable (OriginDemands e p) t → JoinsTables s t r
        → IsTable (OriginDemands e (both o p)) r }
    ensures points { (e : EnvironmentParts) (o p : Origin) (s t r : TableParts)
        → IsTable (OriginDemands e o) s → HasExactPoints (OriginDemands e o) s
        → IsTable (OriginDemands e p) t → HasExactPoints (OriginDemands e p) t
        → JoinsTables s t r → HasExactPoints (OriginDemands e (both o p)) r }
{}

/// Bytes are one list of requirements at most.
pub fn one_list()
    ensures { (bytes : List ℕ) (rs qs : List RequirementParts) → IsRequirementList bytes rs
        → IsRequirementList bytes qs → rs ≡ qs }
{}

/// Bytes that are refused as a list of requirements are the list of none. Of an overflow of the
/// reader of URLs, nothing is known.
pub fn refused_list_is_not_read()
    ensures { (bytes : List ℕ) (c : Cause) (rs : List RequirementParts) → ¬ IsOverflow c
        → IsRefusedList bytes c → ¬ IsRequirementList bytes rs }
{}

/// An input that is refused in an environment, with whatever cause, isn't accepted there. Of an
/// overflow of the reader of URLs, nothing is known.
pub fn refused_is_not_accepted()
    ensures { (e : EnvironmentParts) (i : Input) (c : Cause) → ¬ IsOverflow c
        → IsRefused e i.kind i.group i.bytes.items c → ¬ IsAccepted e i }
{}
