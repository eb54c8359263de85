// Texts in one list of bytes.

ghost use Rattle.std.specs.Prelude.{
  ◌≡◌,
  ◌↔◌,
  ◌<◌,
  ◌++◌,
  ◌∷◌,
  [],
  Contains,
  IfOk,
  IsTrue,
  OnErr,
  OnOk,
  get_or,
  length,
};
ghost use Rattle.std.specs.List.{dedup};
ghost use Rattle.std.specs.List.Sorted.{IsPermutation, IsSortedBy};
ghost use Rattle.std.specs.Ordering.{is_lt};
ghost use Rattle.texts.specs.Way.Arena.{IsPiece, piece_cmp, same_piece, same_text, text_at, text_cmp};
ghost use Rattle.texts.specs.Way.Heads.{head_of};

use crate::compare::compare_texts;
use crate::heads::head_of;
use std::alloc::{AllocError, Global};
use std::cmp::Ordering;
use std::marker::Model;

// Where a text stands among the bytes, and its first bytes as a number, which tells most texts apart with no look at
// them.
#[derive(Clone, Copy)]
struct Piece {
    head: u64,
    start: usize,
    len: usize,
}

/// Texts in one list of bytes, so that none has storage of its own. Clauses see the list of them.
#[derive(Drop)]
pub struct Arena {
    bytes: String,
    pieces: Vec<Piece>,
    // So many of them, those in front, were put in order. That saves comparisons, and no order rests on it.
    sorted: usize,
}

impl Model for Arena {
    ghost use Rattle.std.specs.Prelude.{All, List, ℕ, map, string_bytes};
    ghost use Rattle.texts.specs.Way.Arena.{IsPiece, text_at};

    ghost Value = { List (List ℕ) };

    ghost view = { λ a. map (text_at (string_bytes a.bytes)) a.pieces.items };

    ghost invariant = { λ a. All (IsPiece (string_bytes a.bytes)) a.pieces.items };
}

// The bytes of a piece, whether or not it is one.
fn bytes_at<'a>(bytes: &'a [u8], piece: &Piece) -> &'a [u8]
    ensures { result.now ≡ text_at bytes.now piece.now }
{
    let (_, rest) = bytes.split_at(piece.start.min(bytes.len()));
    let (text, _) = rest.split_at(piece.len.min(rest.len()));
    text
}

// The text of a piece.
fn str_at<'a>(bytes: &'a str, piece: &Piece) -> &'a str
    requires { IsPiece bytes.now piece.now }
    ensures { result.now ≡ text_at bytes.now piece.now }
{
    let end = piece.start + piece.len;
    &bytes[piece.start..end]
}

// Whether a piece is the text with this number.
fn is_text(bytes: &[u8], piece: &Piece, head: u64, text: &[u8]) -> bool
    requires piece { IsPiece bytes.now piece.now }
    requires head { head ≡ head_of text.now }
    ensures { IsTrue result ↔ (text_at bytes.now piece.now ≡ text.now) }
{
    piece.head == head && bytes_at(bytes, piece) == text
}

// The order of two pieces.
fn compare(bytes: &[u8], first: &Piece, second: &Piece) -> Ordering
    ensures { result ≡ piece_cmp bytes.now first.now second.now }
{
    if first.head != second.head {
        return first.head.cmp(&second.head);
    }
    compare_texts(bytes_at(bytes, first), bytes_at(bytes, second))
}

// Sorts the pieces behind so many, in place.
fn sort_new(bytes: &[u8], pieces: &mut [Piece], sorted: usize)
    ensures { IsPermutation pieces.old pieces.new }
{
    let (_, new) = pieces.split_at_mut(sorted.min(pieces.len()));
    new.sort_unstable_by(|first, second| compare(bytes, first, second));
}

// Puts the pieces in order. So many in front are: they are merged with the others, which wants no more room than these
// have.
fn sort_pieces(bytes: &[u8], pieces: &mut Vec<Piece>, sorted: usize) -> Result<(), AllocError>
    ensures permutation { IsPermutation pieces.old.items pieces.new.items }
    ensures sorted { OnOk result
        (IsSortedBy (λ p q. is_lt (piece_cmp bytes.now p q)) pieces.new.items) }
{
    sort_new(bytes, pieces.as_mut_slice(), sorted);
    pieces.sort_by(|first, second| compare(bytes, first, second))
}

// Drops each piece whose text is that of the one before it.
fn dedup_pieces(bytes: &[u8], pieces: &mut Vec<Piece>)
    ensures { pieces.new.items ≡ dedup (same_piece bytes.now) pieces.old.items }
{
    pieces.dedup_by(|next, last| compare(bytes, next, last).is_eq());
}

impl Arena {
    /// No text.
    pub fn new(alloc: Global) -> Arena
        ensures { result ≡ [] }
    {
        Arena {
            bytes: String::new(alloc),
            pieces: Vec::new(alloc),
            sorted: 0,
        }
    }

    /// No text is left, and the room for texts stays.
    pub fn clear(&mut self)
        ensures { self.new ≡ [] }
    {
        self.pieces.clear();
        self.bytes.clear();
        self.sorted = 0;
    }

    /// How many texts there are.
    pub fn len(&self) -> usize
        ensures { result ≡ length self.now }
    {
        self.pieces.len()
    }

    /// Puts a text behind the others. Where there is no memory, they stay as they are.
    pub fn push(&mut self, text: &str) -> Result<(), AllocError>
        ensures pushed { OnOk result (self.new ≡ self.old ++ text.now ∷ []) }
        ensures kept { OnErr result (self.new ≡ self.old) }
    {
        let start = self.bytes.len();
        self.bytes.push_str(text)?;
        let piece = Piece {
            head: head_of(text.as_bytes()),
            start,
            len: text.len(),
        };
        self.pieces.push(piece)?;
        Ok(())
    }

    /// The text at an index.
    pub fn text(&self, index: usize) -> &str
        requires { index < length self.now }
        ensures { result.now ≡ get_or self.now index [] }
    {
        str_at(self.bytes.as_str(), &self.pieces[index])
    }

    /// Whether the text is among them. It looks at each one.
    pub fn has(&self, text: &str) -> bool
        ensures { IsTrue result ↔ Contains self.now text.now }
    {
        let head = head_of(text.as_bytes());
        for piece in &self.pieces {
            if is_text(self.bytes.as_bytes(), piece, head, text.as_bytes()) {
                return true;
            }
        }
        false
    }

    /// Puts the texts in the order of their bytes. Where some were put in order before, those alone that came behind
    /// them are sorted, and merged with them. Where there is no memory, they are the same texts in some order.
    pub fn sort(&mut self) -> Result<(), AllocError>
        ensures permutation { IsPermutation self.old self.new }
        ensures sorted { OnOk result (IsSortedBy (λ x y. is_lt (text_cmp x y)) self.new) }
    {
        sort_pieces(self.bytes.as_bytes(), &mut self.pieces, self.sorted)?;
        self.sorted = self.pieces.len();
        Ok(())
    }

    // Whether most bytes are of no text.
    fn is_loose(&self) -> bool {
        let mut used: usize = 0;
        for piece in &self.pieces {
            used = used.saturating_add(piece.len);
        }
        used < self.bytes.len() / 2
    }

    // The same texts, with no other bytes beside theirs.
    fn packed(&self) -> Result<Arena, AllocError>
        ensures { IfOk result (λ all. all ≡ self.now) }
    {
        let mut all = Arena::new(*self.bytes.allocator());
        for piece in &self.pieces {
            all.push(str_at(self.bytes.as_str(), piece))?;
        }
        all.sorted = self.sorted;
        Ok(all)
    }

    // Drops each text that repeats the one before it. Its bytes stay.
    fn drop_repeats(&mut self)
        ensures { self.new ≡ dedup same_text self.old }
    {
        dedup_pieces(self.bytes.as_bytes(), &mut self.pieces);
        self.sorted = self.sorted.min(self.pieces.len());
    }

    /// Drops each text that repeats the one before it. Where most bytes are then of no text, those of the others are
    /// copied: where there is no memory for that, it fails, and has dropped the same texts.
    pub fn dedup(&mut self) -> Result<(), AllocError>
        ensures { self.new ≡ dedup same_text self.old }
    {
        self.drop_repeats();
        if self.is_loose() {
            *self = self.packed()?;
        }
        Ok(())
    }
}
