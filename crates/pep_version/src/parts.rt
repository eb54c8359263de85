/// The phase of a pre-release (PEP 440, "Pre-releases").
#[derive(Clone, Copy, Debug, PartialEq, Eq)]
pub enum Phase {
    Alpha,
    Beta,
    Rc,
}

/// A segment of a local version label (PEP 440, "Local version identifiers"): a number, or a word
/// of lower-case letters and digits with at least one letter.
#[derive(Debug, Drop)]
pub enum Label {
    Number(u64),
    Word(String),
}
