// The first bytes of a text as a number.

ghost use Rattle.std.specs.Prelude.{◌≡◌};
ghost use Rattle.texts.specs.Way.Heads.{head_of};

/// The first eight bytes as a number, with 0 for a byte that is not there. Where two such numbers differ, they are in
/// the order of the texts.
pub fn head_of(text: &[u8]) -> u64
    ensures { result ≡ head_of text.now }
{
    match text {
        [a, b, c, d, e, f, g, h, ..] => u64::from_be_bytes([*a, *b, *c, *d, *e, *f, *g, *h]),
        _ => short_head(text),
    }
}

// The same of a text of any length, byte by byte.
fn short_head(text: &[u8]) -> u64
    ensures { result ≡ head_of text.now }
{
    let mut head = 0;
    for i in 0..8 {
        head = head * 256 + u64::from(text.get(i).copied().unwrap_or(0));
    }
    head
}
