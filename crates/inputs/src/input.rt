//! What is merged.

use pep_marker::Name;

/// The kind of an input.
#[derive(Clone, Copy, Debug, PartialEq, Eq)]
pub enum Kind {
    /// A list of requirements, one a line.
    List,
    /// A project file, `pyproject.toml` (PyPA "pyproject.toml", PEP 621).
    Project,
    /// The text of a table in the environment at hand, as the program prints it, or its lines alone, of
    /// which nothing tells in which environment they were made.
    Table,
}

/// An input: its kind and its bytes, and the dependency group that is asked for of a project file
/// (PyPA "Dependency Groups", PEP 735), if there is one. Lists and tables have no groups.
#[derive(Debug, Drop)]
pub struct Input {
    pub kind: Kind,
    pub bytes: Vec<u8>,
    pub group: Option<Name>,
}
