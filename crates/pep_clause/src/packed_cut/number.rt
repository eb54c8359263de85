// How the number in front of a text is read.

ghost use Rattle.std.specs.Prelude.{◌≡◌, ◌<◌, IfSome, false, length};
ghost use Rattle.std.specs.Char.{is_ascii_digit};
ghost use Rattle.pep_clause.specs.Way.Numbers.{NumberFrom};
ghost use Rattle.texts.specs.Runs.{begins};

use crate::packed_cut::PackedCut;

// Numbers of packed cuts are smaller; one digit behind such a number still fits.
const LARGE: u64 = 1 << 32;

impl PackedCut {
    /// The number that all digits in front of a text write, as a release may have it, and what stands behind it. `None`
    /// where no digit stands there, or one behind a number that is too large for a packed cut: no clause says so.
    // It is called for each number of most lines.
    #[inline(always)]
    pub fn number_in(text: &[u8]) -> Option<(u64, &[u8])>
        ensures number { IfSome result (λ found. NumberFrom text.now found.0 found.1.now) }
        ensures whole { IfSome result (λ found. begins is_ascii_digit found.1.now ≡ false) }
        ensures shorter { IfSome result (λ found. length found.1.now < length text.now) }
    {
        let mut value: u64 = 0;
        let mut rest = text;
        while let Some((first, behind)) = rest.split_first() {
            if !first.is_ascii_digit() {
                break;
            }
            if value >= LARGE {
                return None;
            }
            value = value * 10 + u64::from(*first - b'0');
            rest = behind;
        }
        if rest.len() == text.len() {
            return None;
        }
        Some((value, rest))
    }
}
