//! What was found out about texts, found again by the text.

ghost use Rattle.std.specs.Prelude.{◌≡◌, [], All, Contains, IfOk, IfSome, None, OnOk, Some};
ghost use Rattle.text_memory.specs.Way.Memory.{IsFrom, IsKept};

use crate::sum::sum_of;
use std::alloc::{AllocError, Global};
use std::marker::Model;
use std::mem::replace;

// How many slots there are for texts whose sums fall together.
const WAYS: usize = 4;
// How many slots there are at first, and four times as many where half as many texts came.
const FEWEST: usize = 64;

/// What was found out about a text, with the text.
pub trait OfText {
    ghost use Rattle.std.specs.Prelude.{List, ℕ};

    /// The bytes of the text.
    ghost text: { Self → List ℕ };

    /// The bytes of the text.
    fn text(&self) -> &[u8]
        ensures { result.now ≡ text self.now };
}

/// Keeps what was found out about texts, but for what gives way to others. Clauses see its slots, some of which are
/// empty.
#[derive(Drop)]
pub struct TextMemory<T> {
    slots: Vec<Option<T>>,
    // The sums of the texts in the slots, by which others are passed over. Nothing but time rests on them.
    sums: Vec<u32>,
    // How many texts came since there are so many slots.
    come: usize,
    most: usize,
}

impl<T> Model for TextMemory<T> {
    ghost use Rattle.std.specs.Prelude.{List, Option};

    ghost Value = { List (Option T) };

    ghost view = { λ m. m.slots.items };
}

// Empty slots.
fn empty_slots<T: Drop>(alloc: Global, count: usize) -> Result<Vec<Option<T>>, AllocError>
    ensures empty { IfOk result (λ slots. All (λ s. s ≡ None) slots.items) }
{
    let mut slots = Vec::with_capacity(alloc, count)?;
    for _ in 0..count {
        slots.push(None)?;
    }
    Ok(slots)
}

// The first slot for texts with this sum among so many, a power of two.
fn first_slot(sum: u32, count: usize) -> usize {
    sum as usize & count.saturating_sub(1) & !(WAYS - 1)
}

impl<T: OfText + Drop> TextMemory<T> {
    /// A memory without slots, which gets so many of them at most, a power of two.
    pub fn new(alloc: Global, most: usize) -> TextMemory<T>
        ensures { result ≡ [] }
    {
        TextMemory {
            slots: Vec::new(alloc),
            sums: Vec::new(alloc),
            come: 0,
            most,
        }
    }

    /// What is kept of the text, if there is a slot with it.
    #[inline(always)]
    pub fn find(&self, text: &[u8]) -> Option<&T>
        ensures kept { IfSome result (λ it. Contains self.now (Some it.now)) }
        ensures text { IfSome result (λ it. T.text it.now ≡ text.now) }
    {
        let sum = sum_of(text);
        let first = first_slot(sum, self.slots.len());
        for i in 0..WAYS {
            let place = first.saturating_add(i);
            if self.sums.get(place).copied() == Some(sum)
                && let Some(Some(it)) = self.slots.get(place)
                && it.text() == text
            {
                return Some(it);
            }
        }
        None
    }

    /// Keeps this, in an empty slot or in the place of another one. There is room for more, where many came.
    pub fn put(&mut self, alloc: Global, it: T) -> Result<(), AllocError>
        ensures { All (IsFrom self.old it) self.new }
    {
        self.make_room(alloc)?;
        self.come = self.come.saturating_add(1);
        self.keep(it);
        Ok(())
    }

    // The slot for what has this sum: an empty one, or one of them in turn.
    fn slot_for(&self, sum: u32) -> usize {
        let first = first_slot(sum, self.slots.len());
        for i in 0..WAYS {
            if let Some(None) = self.slots.get(first.saturating_add(i)) {
                return first.saturating_add(i);
            }
        }
        first | (self.come & (WAYS - 1))
    }

    // Puts this into a slot.
    fn keep(&mut self, it: T)
        ensures { All (IsFrom self.old it) self.new }
    {
        let sum = sum_of(it.text());
        let place = self.slot_for(sum);
        if let Some(kept) = self.sums.get_mut(place) {
            *kept = sum;
        }
        if let Some(slot) = self.slots.get_mut(place) {
            *slot = Some(it);
        }
    }

    // More slots, where half as many texts came.
    fn make_room(&mut self, alloc: Global) -> Result<(), AllocError>
        ensures { All (IsKept self.old) self.new }
    {
        let count = self.slots.len();
        if self.come < count / 2 || count >= self.most {
            return Ok(());
        }
        self.grow(alloc, FEWEST.max(count.saturating_mul(4)).min(self.most))
    }

    // So many slots, with what is kept.
    fn grow(&mut self, alloc: Global, count: usize) -> Result<(), AllocError>
        ensures { All (IsKept self.old) self.new }
    {
        let slots = empty_slots(alloc, count)?;
        self.sums = vec![in alloc; 0; count]?;
        let mut old = replace(&mut self.slots, slots);
        self.come = 0;
        'old: while let Some(slot) = old.pop() {
            if let Some(it) = slot {
                self.keep(it);
            }
        }
        Ok(())
    }
}
