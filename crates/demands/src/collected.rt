//! Texts that come one by one, of which each counts once.

ghost use Rattle.std.specs.Prelude.{◌≡◌, ◌∷◌, [], All, IfOk, IsTrue, OnErr, OnOk, map};
ghost use Rattle.pep_require.specs.Requirement.{IsAscending};
ghost use Rattle.pep_require.specs.Way.Collected.{collected_texts};
ghost use Rattle.demands.specs.Join.{IsUnion};

use crate::sorted::Kept;
use std::alloc::{AllocError, Global};
use std::marker::Model;
use texts::Arena;

// As many texts may be kept above twice those that were left when they were last put in order.
const SPARE: usize = 4;

// Where no more texts are kept, one that comes is looked for among them first.
const FEW: usize = 8;

/// Texts of which each counts once. They are kept as they come, and put in order at the end, and
/// where their number has doubled: so what repeats takes at most twice as much room again, and that
/// of a few texts. Clauses see them in order, each once.
#[derive(Drop)]
pub(crate) struct Collected {
    texts: Arena,
    limit: usize,
}

impl Model for Collected {
    ghost use Rattle.std.specs.Prelude.{List, ℕ};
    ghost use Rattle.pep_require.specs.Way.Collected.{collected_texts};

    ghost Value = { List (List ℕ) };

    ghost view = { λ c. collected_texts c.texts };
}

// Puts the texts in order, and keeps each once.
fn put_in_order(texts: &mut Arena) -> Result<(), AllocError>
    ensures once { OnOk result (texts.new ≡ collected_texts texts.old) }
    ensures kept { OnErr result (collected_texts texts.new ≡ collected_texts texts.old) }
{
    texts.sort()?;
    texts.dedup()?;
    Ok(())
}

impl Collected {
    /// No text.
    pub(crate) fn new(alloc: Global) -> Collected
        ensures { result ≡ [] }
    {
        Collected {
            texts: Arena::new(alloc),
            limit: SPARE,
        }
    }

    /// No text any more.
    pub(crate) fn clear(&mut self)
        ensures { self.new ≡ [] }
    {
        self.texts.clear();
        self.limit = SPARE;
    }

    /// Whether there is no text.
    #[inline(always)]
    pub(crate) fn is_empty(&self) -> bool
        ensures { IsTrue result → self.now ≡ [] }
    {
        self.texts.len() == 0
    }

    /// Does nothing. Its clause tells that the texts are in order.
    pub(crate) fn in_order(&self)
        ensures { IsAscending self.now }
    {
        // Where a field is read, the invariant is at hand.
        let _ = &self.texts;
    }

    // Puts the texts in order, where their number has reached the limit.
    fn settle(&mut self) -> Result<(), AllocError>
        ensures { self.new ≡ self.old }
    {
        if self.texts.len() < self.limit {
            return Ok(());
        }
        put_in_order(&mut self.texts)?;
        self.limit = self.texts.len().saturating_mul(2).saturating_add(SPARE);
        Ok(())
    }

    // Whether the text is found, where few are kept.
    fn has(&self, text: &str) -> bool
        ensures { IsTrue result → IsUnion self.now (text.now ∷ []) self.now }
    {
        self.texts.len() <= FEW && self.texts.has(text)
    }

    /// Takes one text more. Where that fails, what is collected stays.
    pub(crate) fn put(&mut self, text: &str) -> Result<(), AllocError>
        ensures put { OnOk result (IsUnion self.old (text.now ∷ []) self.new) }
        ensures kept { OnErr result (self.new ≡ self.old) }
    {
        if self.has(text) {
            return Ok(());
        }
        self.settle()?;
        self.texts.push(text)?;
        Ok(())
    }

    // Takes the text of the value.
    fn put_value<T: Kept>(&mut self, value: &T) -> Result<(), AllocError>
        ensures put { OnOk result (IsUnion self.old (T.text value.now ∷ []) self.new) }
        ensures value { T.is_value value.now }
    {
        value.as_value();
        self.put(value.as_text())
    }

    /// Takes the texts of the values. Where that fails, what is collected is of no more use.
    pub(crate) fn put_all<T: Kept>(&mut self, values: &[T]) -> Result<(), AllocError>
        ensures put { OnOk result (IsUnion self.old (map T.text values.now) self.new) }
        ensures values { OnOk result (All T.is_value values.now) }
    {
        self.in_order();
        for value in values {
            self.put_value(value)?;
        }
        Ok(())
    }

    /// Takes the texts of the other one. Where that fails, what is collected is of no more use.
    pub(crate) fn join(&mut self, other: &Collected) -> Result<(), AllocError>
        ensures joined { OnOk result (IsUnion self.old other.now self.new) }
    {
        self.in_order();
        for index in 0..other.texts.len() {
            self.put(other.texts.text(index))?;
        }
        Ok(())
    }

    /// The texts in order, each once.
    pub(crate) fn into_texts(self) -> Result<Arena, AllocError>
        ensures same { IfOk result (λ texts. texts ≡ self) }
    {
        let mut texts = self.texts;
        put_in_order(&mut texts)?;
        Ok(texts)
    }
}
