//! Short names in their normalized form.

ghost use Rattle.std.specs.Prelude.{◌≡◌, ◌≤◌, ◌+◌, ◌++◌, ◌∷◌, [], IfSome, Some, length, take};
ghost use Rattle.std.specs.List.{prefix_len};
ghost use Rattle.pep_marker.specs.Name.{name_of};
ghost use Rattle.pep_marker.specs.Way.PutLetters.{PutsLetters};
ghost use Rattle.texts.specs.Bytes.{is_separator};

use crate::forms::form_of;
use crate::name::begins_with_separator;
use crate::name_text::SHORT;
use texts::is_separator;

/// A name in its normalized form, of few bytes.
#[derive(Clone, Copy)]
pub(crate) struct ShortForm {
    pub(crate) bytes: [u8; SHORT],
    pub(crate) len: usize,
}

// Writes a byte behind so many others: how many there are then, if there is room.
fn put(bytes: &mut [u8; SHORT], len: usize, byte: u8) -> Option<usize>
    ensures written { IfSome result (λ end. take end bytes.new ≡ take len bytes.old ++ byte ∷ []) }
    ensures within { IfSome result (λ end. end ≤ length bytes.new) }
{
    if len >= SHORT {
        return None;
    }
    bytes[len] = byte;
    Some(len + 1)
}

// Writes the letters and digits in front of a text in lower case behind so many bytes, as far as there is room: how
// many these are.
#[inline(always)]
fn put_letters(bytes: &mut [u8; SHORT], len: usize, text: &[u8]) -> usize
    requires { len ≤ 24 }
    ensures within { len + result ≤ length bytes.new }
    ensures in_text { result ≤ length text.now }
    ensures written { PutsLetters text.now (take len bytes.old) (take (len + result) bytes.new) result }
{
    let room = text.len().min(SHORT - len);
    let mut count = 0;
    while count < room {
        let form = form_of(text[count]);
        if form <= b'.' {
            break;
        }
        bytes[len + count] = form;
        count += 1;
    }
    count
}

// How many separators stand in front.
fn separator_run(text: &[u8]) -> usize
    ensures count { result ≡ prefix_len is_separator text.now }
    ensures within { result ≤ length text.now }
{
    text.iter().take_while(|b| is_separator(**b)).count()
}

/// The name that this is (PEP 508, "Names"), in its normalized form (PEP 503, "Normalized Names"). `None` where it is
/// no name, or a long one.
pub(crate) fn short_form(text: &[u8]) -> Option<ShortForm>
    ensures name { IfSome result (λ found. name_of text.now ≡ Some (take found.len found.bytes)) }
    ensures within { IfSome result (λ found. found.len ≤ length found.bytes) }
{
    if begins_with_separator(text) {
        return None;
    }
    let mut bytes = [0; SHORT];
    let mut len = 0;
    let mut left = text;
    loop {
        let count = put_letters(&mut bytes, len, left);
        if count == 0 {
            return None;
        }
        len += count;
        let (_, rest) = left.split_at(count);
        if rest.is_empty() {
            return Some(ShortForm { bytes, len });
        }
        if !begins_with_separator(rest) {
            return None;
        }
        len = put(&mut bytes, len, b'-')?;
        let (_, others) = rest.split_at(separator_run(rest));
        left = others;
    }
}
