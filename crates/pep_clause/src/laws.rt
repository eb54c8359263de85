// Laws of version sets and cuts, as contracts, and those of clauses.

ghost use Rattle.std.specs.Prelude.{◌≡◌, List};
ghost use Rattle.std.specs.declared.cmp.Ordering.TheVariants.{Less};
ghost use Rattle.pep_version.specs.Order.{place_of};
ghost use Rattle.pep_version.specs.Version.{IsVersion, Version};
ghost use Rattle.specifiers.specs.Admits.{admits};
ghost use Rattle.specifiers.specs.Operator.{begin_of, end_of, leaves_out, of_version};
ghost use Rattle.specifiers.specs.Valid.{IsValidClause};
ghost use Rattle.pep_clause.specs.Cut.{Cut, IsCut, cut_cmp};
ghost use Rattle.pep_clause.specs.CutBytes.{CutsKeepOrder};
ghost use Rattle.pep_clause.specs.CutOrder.{LiesStrictlyIn};
ghost use Rattle.pep_clause.specs.Ends.{begin_cut, between, end_cut};
ghost use Rattle.pep_clause.specs.PackedCut.{PackedCutsKeepOrder};
ghost use Rattle.pep_clause.specs.SetEquality.{SamePoints, SameVersions};
ghost use Rattle.pep_clause.specs.VersionSet.{IsNormal, Range, is_in};

use specifiers::Op;
pub use specifiers::laws::{
    clause_text_is_read, clause_text_run, one_answer, one_clause, valid_clause_is_read,
};

/// A version set has one normal list: two normal lists of ranges with the same points are one list.
pub fn one_list()
    ensures { (ranges others : List Range) → IsNormal ranges → IsNormal others
        → SamePoints ranges others → ranges ≡ others }
{}

/// Two normal lists of ranges that hold the same versions are one list.
pub fn one_list_of_versions()
    ensures { (ranges others : List Range) → IsNormal ranges → IsNormal others
        → SameVersions ranges others → ranges ≡ others }
{}

/// Between two cuts, one below the other, there is a version: it lies under the one alone, and
/// whatever lies under the other lies under it too.
pub fn between_cuts()
    ensures { (c d : Cut) → IsCut c → IsCut d → cut_cmp c d ≡ Less → LiesStrictlyIn c d }
{}

/// The clause of an operator and a version admits the versions between the cuts where the operator lets them begin and
/// end, or with `!=` the others.
pub fn ends_of_operators()
    ensures { (o : Op) (v other : Version) → IsValidClause (of_version o v) → IsVersion other
        → is_in (between (leaves_out o) (begin_cut (begin_of o) v) (end_cut (end_of o) v)) other
        ≡ admits (of_version o v) other }
{}

/// Sets hold all versions that are the same in order or none of them: a version is in a set exactly
/// if its place is.
pub fn place_is_in()
    ensures { (ranges : List Range) (v : Version) → is_in ranges (place_of v) ≡ is_in ranges v }
{}

/// Byte order of cuts is their order, cuts in their one spelling have bytes of their own, and a version
/// lies under a cut exactly if its key is below the cut's bytes.
pub fn cuts_keep_order()
    ensures { CutsKeepOrder }
{}

/// The numbers of packed cuts have sixteen bytes and the order of their cuts, and a cut in its one spelling is read
/// back from its number.
pub fn packed_cuts_keep_order()
    ensures { PackedCutsKeepOrder }
{}
