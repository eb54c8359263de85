// Numbers as they are written.

ghost use Rattle.std.specs.Prelude.{◌≡◌, ◌≤◌, ◌^◌, ◌+◌, ◌*◌, IfNone, IfSome, IsTrue, MatchOption};
ghost use Rattle.std.specs.List.{list_all};
ghost use Rattle.std.specs.Char.{digit_value, is_ascii_digit};
ghost use Rattle.std.specs.Str.Parse.{digits_value};

// The number with one digit more, if that fits.
fn with_digit(value: u64, digit: u8) -> Option<u64>
    requires { IsTrue (is_ascii_digit digit) }
    ensures none { IfNone result (2 ^ 64 ≤ value * 10 + digit_value digit) }
    ensures some { IfSome result (λ sum. sum ≡ value * 10 + digit_value digit) }
{
    let tens = value.checked_mul(10)?;
    tens.checked_add(u64::from(digit - b'0'))
}

/// The number that the digits write, or `None` where it does not fit 64 bits.
pub(crate) fn number(digits: &[u8]) -> Option<u64>
    requires { IsTrue (list_all is_ascii_digit digits.now) }
    ensures { MatchOption result (2 ^ 64 ≤ digits_value 10 digits.now) (λ n. n
        ≡ digits_value 10 digits.now) }
{
    let mut value: u64 = 0;
    for b in digits {
        let Some(next) = with_digit(value, *b) else {
            return None;
        };
        value = next;
    }
    Some(value)
}

/// Whether the text is digits, and perhaps none.
pub(crate) fn all_digits(text: &[u8]) -> bool
    ensures { result ≡ list_all is_ascii_digit text.now }
{
    text.iter().all(u8::is_ascii_digit)
}
