// The words that the text of a cut begins with, for its writers and its readers.

/// It stands in front of a version. The cut lies just before that version.
pub(crate) const BEFORE: &str = "before ";
/// It stands in front of a release. The cut lies past all versions of that release.
pub(crate) const PAST: &str = "past ";
/// It stands in front of a version. The cut lies just after that version.
pub(crate) const AFTER: &str = "after ";
/// It is a whole text. The cut lies past all versions.
pub(crate) const END: &str = "end";
