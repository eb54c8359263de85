// What stands at the front of a text.

ghost use Rattle.std.specs.Prelude.{
  ◌≡◌,
  ◌<◌,
  ◌+◌,
  ◌==◌,
  ◌∷◌,
  MatchOption,
  false,
  count_by,
};
ghost use Rattle.texts.specs.Runs.{begins};

/// What stands behind this ASCII character in front, where it stands there.
pub(crate) fn behind(text: &str, character: char) -> Option<&str>
    requires { character < 128 }
    ensures { MatchOption result (begins (λ b. b == character) text.now ≡ false)
        (λ behind. text.now ≡ character ∷ behind.now) }
{
    text.strip_prefix(character)
}

// How many pieces a text has, with a `,` between each two.
pub(crate) fn pieces(text: &[u8]) -> usize
    ensures { result ≡ count_by (λ b. b == 44) text.now + 1 }
{
    text.iter().filter(|b| **b == b',').count() + 1
}
