// The normal form of a text beside `extra` (PEP 503, "Normalized Names").

ghost use Rattle.std.specs.Prelude.{◌≡◌, IfOk};
ghost use Rattle.pep_marker.specs.Name.{normalized};
ghost use Rattle.pep_marker.specs.NormalView.{normal_bytes};

use crate::name::{all_stay, normal_text};
use std::alloc::{AllocError, Global};

// The text itself, as most are written, or its normal form in storage of its own.
#[derive(Drop)]
pub(crate) enum Normal<'a> {
    Same(&'a str),
    Written(String),
}

impl<'a> Normal<'a> {
    // The normal form of the text.
    pub(crate) fn of(alloc: Global, text: &'a str) -> Result<Normal<'a>, AllocError>
        ensures { IfOk result (λ n. normal_bytes n ≡ normalized text.now) }
    {
        if all_stay(text.as_bytes()) {
            return Ok(Normal::Same(text));
        }
        Ok(Normal::Written(normal_text(alloc, text)?))
    }

    pub(crate) fn as_str(&self) -> &str
        ensures { result.now ≡ normal_bytes self.now }
    {
        match self {
            Normal::Same(text) => text,
            Normal::Written(text) => text.as_str(),
        }
    }
}
