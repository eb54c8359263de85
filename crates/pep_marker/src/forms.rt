//! What stands for the bytes of a name in its normalized form.

ghost use Rattle.std.specs.Prelude.{◌≡◌, ◌==◌, ◌<◌, ◌≤◌, nat_lt, true};
ghost use Rattle.std.specs.Char.{to_ascii_lowercase};
ghost use Rattle.pep_marker.specs.Way.PlainBytes.{is_plain};
ghost use Rattle.texts.specs.Bytes.{is_letter_or_digit, is_name_byte, is_separator};

// At the place of a letter or digit it stands in lower case, at that of a separator `-` or `.`, and at each other place
// something below these. No byte but a digit or a letter in lower case stands at its own place.
static FORMS: [u8; 256] = *b"\
    ,,,,,,,,,,,,,,,,,,,,,,,,,,,,,,,,\
    ,,,,,,,,,,,,!.-,0123456789,,,,,,\
    ,abcdefghijklmnopqrstuvwxyz,,,,-\
    ,abcdefghijklmnopqrstuvwxyz,,,,,\
    ,,,,,,,,,,,,,,,,,,,,,,,,,,,,,,,,\
    ,,,,,,,,,,,,,,,,,,,,,,,,,,,,,,,,\
    ,,,,,,,,,,,,,,,,,,,,,,,,,,,,,,,,\
    ,,,,,,,,,,,,,,,,,,,,,,,,,,,,,,,,";

/// What stands for a byte in the normalized form of a name (PEP 503, "Normalized Names"): for a letter or digit this in
/// lower case, for a separator `-` or `.`, and for another byte one below these. Only a digit or a letter in lower case
/// stands for itself.
#[inline(always)]
pub(crate) fn form_of(b: u8) -> u8
    ensures letter { 46 < result → is_letter_or_digit b ≡ true }
    ensures lower { 46 < result → result ≡ to_ascii_lowercase b }
    ensures separator { 44 < result → result ≤ 46 → is_separator b ≡ true }
    ensures name { nat_lt 44 result ≡ is_name_byte b }
    ensures plain { (result == b) ≡ is_plain b }
{
    FORMS[b as usize]
}
