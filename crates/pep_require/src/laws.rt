//! Laws of requirement lines, as contracts.

ghost use Rattle.std.specs.Prelude.{◌≡◌, ◌≢◌, ◌≤◌, ℕ, List, length};
ghost use Rattle.pep_require.specs.Code.{IsSameFault};
ghost use Rattle.pep_require.specs.CommonUrl.{IsCommonUrl, IsOwnText};
ghost use Rattle.pep_require.specs.LineParts.{RefusesLine};
ghost use Rattle.pep_require.specs.Reads.{Reads};
ghost use Rattle.texts.specs.Limits.{line_limit};
ghost use Rattle.pep_require.specs.Requirement.{RequirementParts};
ghost use Rattle.pep_require.specs.RequirementText.{requirement_text};

use crate::fault::RequireFault;
use specifiers::laws;

/// A URL of the common form is a URL, by the crate `url`, and printed as it is written: `https://`, `http://` or
/// `git+https://`, a host in lower case whose last label begins with a letter, and a path, a query and a fragment in
/// which nothing has to be escaped.
pub fn common_url_is_its_text()
    ensures { (x : List ℕ) → IsCommonUrl x → IsOwnText x }
{}

/// A line is read as at most one requirement (PEP 508, "Grammar").
pub fn one_requirement()
    ensures { (line : List ℕ) (r s : RequirementParts) → Reads line r → Reads line s → r ≡ s }
{}

/// A line that is refused is no requirement, unless memory ran out or the reader of URLs overflowed.
pub fn refused_is_not_read()
    ensures { (line : List ℕ) (r : RequirementParts) (fault : RequireFault)
        → fault ≢ RequireFault.NoMemory → fault ≢ RequireFault.UrlOverflow
        → RefusesLine line fault → ¬ Reads line r }
{}

/// A line has one fault, that of the first check that fails, but for which fault its marker has. That
/// says nothing where memory ran out or the reader of URLs overflowed.
pub fn one_fault()
    ensures { (line : List ℕ) (fault other : RequireFault)
        → fault ≢ RequireFault.NoMemory → fault ≢ RequireFault.UrlOverflow
        → other ≢ RequireFault.NoMemory → other ≢ RequireFault.UrlOverflow
        → RefusesLine line fault → RefusesLine line other → IsSameFault fault other }
{}

/// What some line is read as, is read back from its own text, if that is no longer than a line may
/// be: with `one_requirement`, from no other requirement's.
pub fn requirement_text_is_read()
    ensures { (line : List ℕ) (r : RequirementParts) → Reads line r
        → length (requirement_text r) ≤ line_limit → Reads (requirement_text r) r }
{
    laws::clause_text_is_read();
    laws::clause_text_run();
}
