//! The texts of names.

ghost use Rattle.std.specs.Prelude.{◌≡◌, IfOk, IfSome};
ghost use Rattle.pep_marker.specs.NameText.{name_bytes};

use arrayvec::ArrayString;
use std::alloc::{AllocError, Global};

/// How many bytes a text has at most that lies in the value.
pub(crate) const SHORT: usize = 24;

/// The text of a name: in the value itself where it is short, as nearly all are, so that it asks for no memory.
#[derive(Debug, Drop)]
pub(crate) enum NameText {
    Short(ArrayString<SHORT>),
    Long(String),
}

impl NameText {
    /// The text in a value of its own.
    pub(crate) fn of(alloc: Global, text: &str) -> Result<NameText, AllocError>
        ensures { IfOk result (λ t. name_bytes t ≡ text.now) }
    {
        match NameText::short(text) {
            Some(short) => Ok(short),
            None => Ok(NameText::Long(String::from_str(alloc, text)?)),
        }
    }

    /// The text in the value itself, where it is short.
    pub(crate) fn short(text: &str) -> Option<NameText>
        ensures { IfSome result (λ t. name_bytes t ≡ text.now) }
    {
        match ArrayString::from(text) {
            Ok(short) => Some(NameText::Short(short)),
            Err(_) => None,
        }
    }

    /// The same text in another value.
    pub(crate) fn copied(&self, alloc: Global) -> Result<NameText, AllocError>
        ensures { IfOk result (λ t. name_bytes t ≡ name_bytes self.now) }
    {
        match self {
            NameText::Short(text) => Ok(NameText::Short(*text)),
            NameText::Long(text) => Ok(NameText::Long(String::from_str(alloc, text.as_str())?)),
        }
    }

    /// The text.
    pub(crate) fn as_str(&self) -> &str
        ensures { result.now ≡ name_bytes self.now }
    {
        match self {
            NameText::Short(text) => text.as_str(),
            NameText::Long(text) => text.as_str(),
        }
    }
}
