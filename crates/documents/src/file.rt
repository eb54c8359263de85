//! The texts of files that are read as a whole.

ghost use Rattle.std.specs.Prelude.{◌≡◌, ◌⊎◌, ◌<◌, ◌≤◌, IfErr, IfOk, IsUtf8, length};
ghost use Rattle.texts.specs.Limits.{input_limit};

use faults::Cause;
use texts::INPUT_LIMIT;

/// The text that the bytes of a file are. They are refused as `TooLarge`, 56, where there are more than 16,777,216, or
/// else as `NotUtf8`, 51, where they aren't UTF-8. Public for the crates above alone.
pub fn file_text(bytes: &[u8]) -> Result<&str, Cause>
    ensures same { IfOk result (λ text. text.now ≡ bytes.now) }
    ensures size { IfOk result (λ _. length bytes.now ≤ input_limit) }
    ensures encoding { IfOk result (λ _. IsUtf8 bytes.now) }
    ensures refused { IfErr result (λ cause.
        ((cause ≡ Cause.TooLarge) × (input_limit < length bytes.now))
        ⊎ ((cause ≡ Cause.NotUtf8) × (length bytes.now ≤ input_limit) × ¬ IsUtf8 bytes.now)) }
{
    if bytes.len() > INPUT_LIMIT {
        return Err(Cause::TooLarge);
    }
    std::str::from_utf8(bytes).map_err(|_| Cause::NotUtf8)
}
