// Texts cut at a byte.

ghost use Rattle.std.specs.Prelude.{◌≡◌, ◌<◌, IfSome, None};
ghost use Rattle.pep_table.specs.Way.TableReading.{IsCutAt, Lacks};

use memchr::memchr;

/// What stands in front of the first such byte, and behind it. The byte is an ASCII character. It does what
/// `split_once` does, in fewer instructions: a table is little else than its lines and spaces.
pub(crate) fn split_at_byte(text: &str, byte: u8) -> Option<(&str, &str)>
    requires { byte < 128 }
    ensures some { IfSome result (λ p. IsCutAt byte text.now p.0.now p.1.now) }
    ensures none { result ≡ None → Lacks byte text.now }
{
    let at = memchr(byte, text.as_bytes())?;
    let (front, _) = text.split_at(at);
    let (_, behind) = text.split_at(at + 1);
    Some((front, behind))
}
