//! A memory of clauses by their texts.

ghost use Rattle.std.specs.Prelude.{◌≡◌, IfSome, Some, length, take};
ghost use Rattle.clause_memory.specs.Way.PackedClause.{
  IsKnown,
  IsRemembered,
  KnowsDemand,
  remembered,
};

use packed_cuts::{PackedRange, PackedSet};
use std::alloc::{AllocError, Global};
use std::marker::Model;
use text_memory::{OfText, TextMemory};

// How many bytes a text may have that is remembered: so a slot has 64 bytes, beside its sum of four.
const LONGEST: usize = 21;
// How many texts are remembered at most, in 1 MiB of slots.
const MOST: usize = 16_384;

/// What is remembered of a text.
#[derive(Clone, Copy)]
pub(crate) enum Known {
    /// It is a clause, with white space round it, that demands these versions.
    Packed(PackedSet),
    /// It is a clause whose versions have no packed cuts.
    Unpacked,
    Nothing,
}

/// The text of a clause, with its length, and what it demands, where that is known: else the line goes the whole way.
#[derive(Clone, Copy)]
pub(crate) struct Remembered {
    range: PackedRange,
    outside: bool,
    is_known: bool,
    len: u8,
    text: [u8; LONGEST],
}

// The bytes and something behind them, if they aren't too many.
fn kept_bytes(text: &[u8]) -> Option<[u8; LONGEST]>
    ensures { IfSome result (λ kept. take (length text.now) kept ≡ text.now) }
{
    let mut kept = [0; LONGEST];
    let end = text.len();
    if end > kept.len() {
        return None;
    }
    kept[..end].copy_from_slice(text);
    Some(kept)
}

impl Remembered {
    // A text with what it demands, if it isn't too long.
    fn of(text: &[u8], found: &Option<PackedSet>) -> Option<Remembered>
        requires { KnowsDemand text.now found.now }
        ensures { IfSome result (λ it. IsRemembered (Some it)) }
    {
        let len = u8::try_from(text.len()).ok()?;
        let kept = kept_bytes(text)?;
        let unknown = Remembered {
            range: PackedRange::all(),
            outside: false,
            is_known: false,
            len,
            text: kept,
        };
        match found {
            Some(demand) => Some(Remembered {
                range: demand.range,
                outside: demand.outside,
                is_known: true,
                ..unknown
            }),
            None => Some(unknown),
        }
    }

    fn known(&self) -> Known
        ensures { result ≡ remembered self.now }
    {
        if !self.is_known {
            return Known::Unpacked;
        }
        Known::Packed(PackedSet {
            range: self.range,
            outside: self.outside,
        })
    }
}

impl OfText for Remembered {
    ghost use Rattle.clause_memory.specs.Way.PackedClause.{remembered_text};

    ghost text = { remembered_text };

    fn text(&self) -> &[u8] {
        let (text, _) = self.text.split_at(LONGEST.min(usize::from(self.len)));
        text
    }
}

/// Remembers clauses by their texts, with what they demand, but for those with `===` and most whose version is a
/// release: these are read as fast as they are found. Contracts see nothing of it: what is remembered saves time alone.
#[derive(Drop)]
pub(crate) struct ClauseMemory {
    memory: TextMemory<Remembered>,
}

impl Model for ClauseMemory {
    ghost use Rattle.std.specs.Prelude.{All, ⊤};
    ghost use Rattle.clause_memory.specs.Way.PackedClause.{IsRemembered};

    ghost Value = { ⊤ };

    ghost view = { λ m. tt };

    ghost invariant = { λ m. All IsRemembered m.memory };
}

impl ClauseMemory {
    /// Nothing is remembered yet.
    pub(crate) fn new(alloc: Global) -> ClauseMemory {
        ClauseMemory {
            memory: TextMemory::new(alloc, MOST),
        }
    }

    /// What is remembered of a text.
    pub(crate) fn known(&self, text: &str) -> Known
        ensures { IsKnown text.now result }
    {
        if text.len() > LONGEST {
            return Known::Nothing;
        }
        match self.memory.find(text.as_bytes()) {
            Some(remembered) => remembered.known(),
            None => Known::Nothing,
        }
    }

    /// Remembers what the clause demands that the text is, if the text is short.
    pub(crate) fn remember(
        &mut self,
        alloc: Global,
        text: &str,
        found: &Option<PackedSet>,
    ) -> Result<(), AllocError>
        requires { KnowsDemand text.now found.now }
    {
        if let Some(kept) = Remembered::of(text.as_bytes(), found) {
            self.memory.put(alloc, kept)?;
        }
        Ok(())
    }
}
