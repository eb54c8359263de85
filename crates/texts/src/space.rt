// White space at the ends of a text.

ghost use Rattle.std.specs.Prelude.{◌≡◌};
ghost use Rattle.texts.specs.Space.{trimmed, without_leading_space, without_trailing_space};

use crate::bytes::is_white_space;

fn without_leading_space(text: &str) -> &str
    ensures { result.now ≡ without_leading_space text.now }
{
    let mut rest = text;
    while let [first, ..] = rest.as_bytes() {
        if !is_white_space(*first) {
            break;
        }
        rest = &rest[1..];
    }
    rest
}

/// The text without white space at its end (PEP 440, "Leading and Trailing Whitespace").
pub fn without_trailing_space(text: &str) -> &str
    ensures { result.now ≡ without_trailing_space text.now }
{
    let mut rest = text;
    while let [others @ .., last] = rest.as_bytes() {
        if !is_white_space(*last) {
            break;
        }
        rest = &rest[..others.len()];
    }
    rest
}

/// The text without white space at both ends (PEP 440, "Leading and Trailing Whitespace").
pub fn trimmed(text: &str) -> &str
    ensures { result.now ≡ trimmed text.now }
{
    without_trailing_space(without_leading_space(text))
}
