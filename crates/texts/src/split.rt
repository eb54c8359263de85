// Texts split at one byte.

ghost use Rattle.std.specs.Prelude.{◌≡◌, ◌<◌, ◌==◌, ◌∷◌, length, IfSome};
ghost use Rattle.std.specs.List.{slice_split};
ghost use Rattle.texts.specs.Way.Split.{left_parts};

/// The first part of a text that is split at each such byte, and what stands behind the first of
/// these bytes: `None` where the text has none, and is one part. Splitting what is left again gives
/// the other parts in turn.
pub fn first_part(text: &[u8], byte: u8) -> (&[u8], Option<&[u8]>)
    ensures parts { slice_split (λ b. b == byte) text.now ≡ result.0.now
        ∷ left_parts byte result.1 }
    ensures shorter { IfSome result.1 (λ rest. length rest.now < length text.now) }
{
    'bytes: for i in 0..text.len() {
        if text[i] == byte {
            return (&text[..i], Some(&text[i + 1..]));
        }
    }
    (text, None)
}
