//! Laws of the definitions.

ghost use Rattle.std.specs.Prelude.{
  ◌≡◌,
  ◌≤◌,
  ◌↔◌,
  ℕ,
  Contains,
  Err,
  List,
  Ok,
  Option,
  count_by,
  length,
  true,
};
ghost use Rattle.std.specs.Str.{is_utf8};
ghost use Rattle.toml.specs.Parse.{parse_document};
ghost use Rattle.pep_require.specs.Requirement.{RequirementParts};
ghost use Rattle.faults.specs.declared.fault.Cause.{Cause};
ghost use Rattle.documents.specs.Document.{document_of, required};
ghost use Rattle.documents.specs.Groups.{Group, IsGroupFault, IsGroupWhole, IsTextOfGroup};
ghost use Rattle.documents.specs.GroupWalk.{ComesTo, at_first, open_group};
ghost use Rattle.documents.specs.Nesting.{deepens, is_shallow, opens};
ghost use Rattle.documents.specs.ProjectRequirements.{IsProjectOf};
ghost use Rattle.documents.specs.RefusedProject.{IsOverflow, IsRefusedProject};
ghost use Rattle.texts.specs.Limits.{input_limit};

/// Bytes with at most 80 opening brackets, and at most 700 of these and of dots, are never refused for
/// their nesting, wherever these stand; and text of at most the largest input that isn't refused for its
/// nesting is the document that the reader of TOML makes of it.
pub fn few_brackets_are_shallow()
    ensures shallow { (bytes : List ℕ) → count_by deepens bytes ≤ 700 → count_by opens bytes ≤ 80
        → is_shallow bytes ≡ true }
    ensures document { (bytes : List ℕ) → length bytes ≤ input_limit → is_utf8 bytes ≡ true
        → is_shallow bytes ≡ true
        → document_of bytes ≡ required Cause.NotToml (parse_document bytes) }
{}

/// Bytes are a project file of one list of requirements at most, for an extra or a dependency group.
pub fn one_project()
    ensures { (extra : List ℕ) (group : Option (List ℕ)) (bytes : List ℕ)
        (rs qs : List RequirementParts) → IsProjectOf extra group bytes rs
        → IsProjectOf extra group bytes qs → rs ≡ qs }
{}

/// Bytes that are refused as a project file, for an extra or a dependency group, have no
/// requirements for it. Of an overflow of the reader of URLs, nothing is known.
pub fn refused_project_is_not_read()
    ensures { (extra : List ℕ) (group : Option (List ℕ)) (bytes : List ℕ) (c : Cause)
        (rs : List RequirementParts) → ¬ IsOverflow c → IsRefusedProject extra group bytes c
        → ¬ IsProjectOf extra group bytes rs }
{}

/// The walk through a dependency group comes to texts exactly where each group that it reaches by
/// includes (PyPA "Dependency Groups") is there, has in its array what may stand there, and doesn't
/// come back to itself; and then these are the texts of the groups that it reaches. Where the walk is
/// refused, one of them isn't so, which is the fault.
pub fn group_is_walked()
    ensures texts { (groups : List Group) (root : List ℕ) (xs : List (List ℕ))
        → ComesTo (open_group (at_first groups) root) (Ok xs) → IsGroupWhole groups root
        × ((x : List ℕ) → Contains xs x ↔ IsTextOfGroup groups root x) }
    ensures fault { (groups : List Group) (root : List ℕ) (c : Cause)
        → ComesTo (open_group (at_first groups) root) (Err c) → IsGroupFault groups root c }
    ensures whole { (groups : List Group) (root : List ℕ) → IsGroupWhole groups root
        → (xs : List (List ℕ)) × ComesTo (open_group (at_first groups) root) (Ok xs) }
{}
