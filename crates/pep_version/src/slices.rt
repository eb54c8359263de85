// The splitting of a text into the digits and words of a version, before any number is read.
// Letters are taken without regard to case (PEP 440, "Case sensitivity").

ghost use Rattle.std.specs.Prelude.{
  ◌≡◌,
  false,
  true,
  IfSome,
  IsTrue,
  MatchOption,
  Some,
};
ghost use Rattle.std.specs.Char.{is_ascii_alphanumeric};
ghost use Rattle.std.specs.List.{list_all};
ghost use Rattle.pep_version.specs.Way.Slices.{
  AreReadable,
  IsDigits,
  label_of,
  left_of,
  left_runs,
  lower,
  number_of,
  optional_of,
  phase_left_of,
  pre_of,
  value_of,
  version_of_slices,
};
ghost use Rattle.pep_version.specs.Way.Reading.{
  behind,
  behind_phase,
  behind_word,
  front,
  goes_on,
  implicit_number,
  is_label_text,
  number_behind,
  or_else,
  passes,
  read_dev,
  read_epoch,
  read_label,
  read_post,
  read_pre,
  read_version,
  read_word_and_number,
  release_behind,
  release_front,
  starts_digit,
  stripped,
  table,
  without_separator,
  without_v,
};
ghost use Rattle.pep_version.specs.Spelling.{
  dev_words,
  is_run,
  post_words,
  separated_parts,
};

use crate::parts::Phase;
use texts::is_separator;

/// The slices of a text that write a version: digits where a number stands, and the label behind
/// its `+`. A number that is not written is no digits.
#[derive(Clone, Copy)]
pub(crate) struct Slices<'a> {
    pub(crate) epoch: &'a [u8],
    pub(crate) release: &'a [u8],
    pub(crate) pre: Option<(Phase, &'a [u8])>,
    pub(crate) post: Option<&'a [u8]>,
    pub(crate) dev: Option<&'a [u8]>,
    pub(crate) label: Option<&'a [u8]>,
}

fn starts_digit(text: &[u8]) -> bool
    ensures { result ≡ starts_digit (lower text.now) }
{
    matches!(text, [b'0'..=b'9', ..])
}

// The digits at the front, and what is behind them.
fn split_digits(text: &[u8]) -> (&[u8], &[u8])
    ensures digits { result.0.now ≡ front (lower text.now) }
    ensures rest { lower result.1.now ≡ behind (lower text.now) }
    ensures all { IsDigits result.0 }
{
    'bytes: for i in 0..text.len() {
        if !text[i].is_ascii_digit() {
            return (&text[..i], &text[i..]);
        }
    }
    (text, &text[text.len()..])
}

// The text without a separator at its front.
fn without_separator(text: &[u8]) -> &[u8]
    ensures { lower result.now ≡ without_separator (lower text.now) }
{
    match text {
        [first, rest @ ..] if is_separator(*first) => rest,
        _ => text,
    }
}

// What stands behind a word in lower case.
fn strip_word<'a>(text: &'a [u8], word: &[u8]) -> Option<&'a [u8]>
    ensures { left_of result ≡ stripped word.now (lower text.now) }
{
    let mut rest = text;
    'letters: for letter in word {
        let [first, behind @ ..] = rest else {
            return None;
        };
        if *letter != first.to_ascii_lowercase() {
            return None;
        }
        rest = behind;
    }
    Some(rest)
}

// What stands behind the first of two words that fits.
fn strip_either<'a>(text: &'a [u8], first: &[u8], second: &[u8]) -> Option<&'a [u8]>
    ensures { left_of result ≡ or_else (stripped first.now (lower text.now))
        (stripped second.now (lower text.now)) }
{
    if let Some(rest) = strip_word(text, first) {
        return Some(rest);
    }
    strip_word(text, second)
}

// What stands behind the word of a post-release (PEP 440, "Post release spelling").
fn strip_post(text: &[u8]) -> Option<&[u8]>
    ensures { left_of result ≡ behind_word post_words (lower text.now) }
{
    if let Some(rest) = strip_either(text, b"post", b"rev") {
        return Some(rest);
    }
    strip_word(text, b"r")
}

// The phase that the word of a pre-release names, and what stands behind the word (PEP 440,
// "Pre-release spelling").
fn strip_phase(text: &[u8]) -> Option<(Phase, &[u8])>
    ensures { phase_left_of result ≡ behind_phase table (lower text.now) }
{
    if let Some(rest) = strip_either(text, b"alpha", b"a") {
        return Some((Phase::Alpha, rest));
    }
    if let Some(rest) = strip_either(text, b"beta", b"b") {
        return Some((Phase::Beta, rest));
    }
    if let Some(rest) = strip_either(text, b"preview", b"pre") {
        return Some((Phase::Rc, rest));
    }
    let rest = strip_either(text, b"rc", b"c")?;
    Some((Phase::Rc, rest))
}

// The digits behind a word and an optional separator, and what is behind them.
fn digits_behind(text: &[u8]) -> (&[u8], &[u8])
    ensures number { Some (value_of result.0, lower result.1.now)
        ≡ number_behind (Some (lower text.now)) }
    ensures digits { IsDigits result.0 }
{
    split_digits(without_separator(text))
}

// The number of a post-release with a word, and what is behind it.
fn post_number(text: &[u8]) -> Option<(&[u8], &[u8])>
    ensures number { number_of result ≡ read_word_and_number post_words (lower text.now) }
    ensures digits { IfSome result (λ p. IsDigits p.0) }
{
    let rest = strip_post(without_separator(text))?;
    Some(digits_behind(rest))
}

// The number of a developmental release, and what is behind it.
fn dev_number(text: &[u8]) -> Option<(&[u8], &[u8])>
    ensures number { number_of result ≡ read_word_and_number dev_words (lower text.now) }
    ensures digits { IfSome result (λ p. IsDigits p.0) }
{
    let rest = strip_word(without_separator(text), b"dev")?;
    Some(digits_behind(rest))
}

// The number behind a `-` (PEP 440, "Implicit post releases").
fn implicit_number(text: &[u8]) -> Option<(&[u8], &[u8])>
    ensures number { number_of result ≡ implicit_number (lower text.now) }
    ensures digits { IfSome result (λ p. IsDigits p.0) }
{
    match text {
        [b'-', rest @ ..] if starts_digit(rest) => Some(split_digits(rest)),
        _ => None,
    }
}

// The pre-release part (PEP 440, "Pre-releases"), and what is behind it.
fn split_pre(text: &[u8]) -> (Option<(Phase, &[u8])>, &[u8])
    ensures part { (pre_of result.0, lower result.1.now) ≡ read_pre (lower text.now) }
    ensures digits { IfSome result.0 (λ p. IsDigits p.1) }
{
    let Some((phase, rest)) = strip_phase(without_separator(text)) else {
        return (None, text);
    };
    let (digits, rest) = digits_behind(rest);
    (Some((phase, digits)), rest)
}

// The post-release part (PEP 440, "Post-releases"), and what is behind it.
fn split_post(text: &[u8]) -> (Option<&[u8]>, &[u8])
    ensures part { (optional_of result.0, lower result.1.now) ≡ read_post (lower text.now) }
    ensures digits { IfSome result.0 IsDigits }
{
    if let Some((digits, rest)) = implicit_number(text) {
        return (Some(digits), rest);
    }
    if let Some((digits, rest)) = post_number(text) {
        return (Some(digits), rest);
    }
    (None, text)
}

// The developmental release part (PEP 440, "Developmental releases"), and what is behind it.
fn split_dev(text: &[u8]) -> (Option<&[u8]>, &[u8])
    ensures part { (optional_of result.0, lower result.1.now) ≡ read_dev (lower text.now) }
    ensures digits { IfSome result.0 IsDigits }
{
    if let Some((digits, rest)) = dev_number(text) {
        return (Some(digits), rest);
    }
    (None, text)
}

// The text without a `v` at its front (PEP 440, "Preceding v character").
fn without_v(text: &[u8]) -> &[u8]
    ensures { lower result.now ≡ without_v (lower text.now) }
{
    match text {
        [b'v' | b'V', rest @ ..] => rest,
        _ => text,
    }
}

// The digits of the epoch, if one is written, and what is behind it (PEP 440, "Version epochs").
fn split_epoch(text: &[u8]) -> (&[u8], &[u8])
    ensures part { (value_of result.0, lower result.1.now) ≡ read_epoch (lower text.now) }
    ensures digits { IsDigits result.0 }
{
    let (digits, rest) = split_digits(text);
    match rest {
        [b'!', rest @ ..] => (digits, rest),
        _ => (&text[..0], text),
    }
}

// Whether a release goes on: with a digit, or with a dot and a digit behind it.
fn goes_on(text: &[u8]) -> bool
    ensures { result ≡ goes_on (lower text.now) }
{
    match text {
        [b'.', rest @ ..] => starts_digit(rest),
        _ => starts_digit(text),
    }
}

// The release, and what is behind it.
fn split_release(text: &[u8]) -> (&[u8], &[u8])
    ensures release { result.0.now ≡ release_front (lower text.now) }
    ensures rest { lower result.1.now ≡ release_behind (lower text.now) }
{
    'bytes: for i in 0..text.len() {
        if !goes_on(&text[i..]) {
            return (&text[..i], &text[i..]);
        }
    }
    (text, &text[text.len()..])
}

// Whether the bytes are letters and digits.
fn has_run_bytes(run: &[u8]) -> bool
    ensures { result ≡ list_all is_ascii_alphanumeric run.now }
{
    run.iter().all(u8::is_ascii_alphanumeric)
}

// Whether the text is one or more letters and digits.
#[tactic(auto, using(crate::proofs::SliceLemmas::no_byte, crate::proofs::SliceLemmas::run_bytes))]
fn is_run(run: &[u8]) -> bool
    ensures { result ≡ is_run (lower run.now) }
{
    !run.is_empty() && has_run_bytes(run)
}

// Whether the text is runs with a separator between each two (PEP 440, "Local version segments").
fn is_label(text: &[u8]) -> bool
    ensures { result ≡ list_all is_run (separated_parts (lower text.now)) }
{
    text.split(|b| is_separator(*b)).all(|run| is_run(run))
}

// What is left behind the last part: nothing, or `+` and a label, whose text is handed back.
fn split_label(text: &[u8]) -> Option<Option<&[u8]>>
    ensures found { MatchOption result (is_label_text (lower text.now)
        ≡ false) (λ label. (is_label_text (lower text.now) ≡ true)
        × (label_of label ≡ read_label (lower text.now))) }
    ensures runs { IfSome result (λ label. IsTrue (list_all is_run (left_runs label))) }
{
    match text {
        [] => Some(None),
        [b'+', label @ ..] if is_label(label) => Some(Some(label)),
        _ => None,
    }
}

/// The slices of a text that is a version in its spelling, or `None` where the text spells no
/// version.
pub(crate) fn slices_of(text: &[u8]) -> Option<Slices<'_>>
    ensures found { MatchOption result (passes (lower text.now)
        ≡ false) (λ c. (passes (lower text.now) ≡ true)
        × (version_of_slices c ≡ read_version (lower text.now))) }
    ensures right { IfSome result AreReadable }
{
    let text = without_v(text);
    if !starts_digit(text) {
        return None;
    }
    let (epoch, text) = split_epoch(text);
    if !starts_digit(text) {
        return None;
    }
    let (release, text) = split_release(text);
    let (pre, text) = split_pre(text);
    let (post, text) = split_post(text);
    let (dev, text) = split_dev(text);
    Some(Slices {
        epoch,
        release,
        pre,
        post,
        dev,
        label: split_label(text)?,
    })
}
