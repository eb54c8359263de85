//! Classes of bytes.

ghost use Rattle.std.specs.Prelude.{◌≡◌};
ghost use Rattle.texts.specs.Bytes.{
  is_blank_byte,
  is_clause_byte,
  is_letter_or_digit,
  is_name_byte,
  is_separator,
  is_white_space,
};

/// Whether the byte is a space, a tab, a line feed, a vertical tab, a form feed or a carriage
/// return (PEP 440, "Leading and Trailing Whitespace").
pub fn is_white_space(b: u8) -> bool
    ensures { result ≡ is_white_space b }
{
    matches!(b, b' ' | b'\t'..=b'\r')
}

/// Whether the byte is `-`, `_` or `.`: these separate the parts of a version (PEP 440,
/// "Pre-release separators") and those of a project's name (PEP 503, "Normalized Names").
pub fn is_separator(b: u8) -> bool
    ensures { result ≡ is_separator b }
{
    matches!(b, b'-' | b'_' | b'.')
}

/// Whether the byte is an ASCII letter or digit.
#[tactic(auto, unfolding(crate::specs::Bytes::is_letter_or_digit))]
pub fn is_letter_or_digit(b: u8) -> bool
    ensures { result ≡ is_letter_or_digit b }
{
    b.is_ascii_alphabetic() || b.is_ascii_digit()
}

/// Whether a name may hold the byte: an ASCII letter or digit, `-`, `_` or `.` (PEP 508, "Names").
#[tactic(auto, unfolding(crate::specs::Bytes::is_letter_or_digit))]
pub fn is_name_byte(b: u8) -> bool
    ensures { result ≡ is_name_byte b }
{
    // Most bytes of a name are these.
    if b.is_ascii_lowercase() || b.is_ascii_digit() {
        return true;
    }
    b.is_ascii_uppercase() || is_separator(b)
}

/// Whether the byte may stand in a clause behind its operator: a letter, a digit, or one of
/// `-_.*+!` (PEP 440, "Version specifiers").
pub fn is_clause_byte(b: u8) -> bool
    ensures { result ≡ is_clause_byte b }
{
    b.is_ascii_alphanumeric() || matches!(b, b'-' | b'_' | b'.' | b'*' | b'+' | b'!')
}

/// Whether the byte is white space in a line, a requirement or a marker: a space or a tab (PEP 508,
/// "Grammar").
pub fn is_blank_byte(b: u8) -> bool
    ensures { result ≡ is_blank_byte b }
{
    b == b' ' || b == b'\t'
}
