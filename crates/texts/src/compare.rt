// The order of texts by their bytes.

ghost use Rattle.std.specs.Prelude.{◌≡◌};
ghost use Rattle.texts.specs.Way.Arena.{text_cmp};

use crate::heads::head_of;
use std::cmp::Ordering;

// How many bytes a number of `head_of` stands for.
const WORD: usize = 8;

/// How two texts compare by their bytes. Texts of one list often begin alike, and so eight bytes are compared at once.
pub(crate) fn compare_texts(first: &[u8], second: &[u8]) -> Ordering
    ensures { result ≡ text_cmp first.now second.now }
{
    let (mut left, mut right) = (first, second);
    'words: while left.len() >= WORD && right.len() >= WORD {
        let (head, other) = (head_of(left), head_of(right));
        if head != other {
            return head.cmp(&other);
        }
        let (_, behind) = left.split_at(WORD);
        let (_, others) = right.split_at(WORD);
        (left, right) = (behind, others);
    }
    left.cmp(right)
}
