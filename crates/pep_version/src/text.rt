// The normal text of each part of a version.

ghost use Rattle.std.specs.Prelude.{
  ◌≡◌,
  ◌+◌,
  ◌++◌,
  ◌/◌,
  ◌%◌,
  ◌<◌,
  ◌==◌,
  ◌∷◌,
  [],
  codes,
  decimal,
  if◌then◌else◌,
  map,
  OnErr,
  OnOk,
  Some,
};
ghost use Rattle.pep_version.specs.Text.{
  epoch_text,
  dev_text,
  label_text,
  part_text,
  phase_text,
  post_text,
  pre_text,
  release_text,
  segment_text,
};
ghost use Rattle.pep_version.specs.View.{segment_of};
ghost use Rattle.texts.specs.TextOut.{Extends};

use crate::parts::{Label, Phase};
use itoa::Buffer;
use texts::TextOut;

// The numbers below 100, each with two digits.
const PAIRS: &str = "\
    00010203040506070809\
    10111213141516171819\
    20212223242526272829\
    30313233343536373839\
    40414243444546474849\
    50515253545556575859\
    60616263646566676869\
    70717273747576777879\
    80818283848586878889\
    90919293949596979899";

fn one_digit(n: u64) -> &'static str
    requires { n < 10 }
    ensures { result.now ≡ decimal n }
{
    let at = n as usize * 2 + 1;
    &PAIRS[at..at + 1]
}

// The two digits of a number below 100, the first of which may be 0.
fn two_digits(n: u64) -> &'static str
    requires { n < 100 }
    ensures { result.now ≡ (48 + n / 10) ∷ (48 + n % 10) ∷ [] }
{
    let at = n as usize * 2;
    &PAIRS[at..at + 2]
}

// Most numbers in versions have up to three digits.
#[inline(never)]
pub(crate) fn put_number<T: TextOut>(text: &mut T, n: u64) -> Result<(), T::Fault>
    ensures ok { OnOk result (T.tells → T.written text.new ≡ T.written text.old ++ decimal n) }
    ensures kept { OnErr result (T.tells → Extends (T.written text.old) (T.written text.new)) }
{
    if n < 10 {
        return text.put_str(one_digit(n));
    }
    if n < 100 {
        return text.put_str(two_digits(n));
    }
    if n < 1000 {
        text.put_str(one_digit(n / 100))?;
        return text.put_str(two_digits(n % 100));
    }
    put_large_number(text, n)
}

// It has room of its own, which small numbers don't want.
#[inline(never)]
fn put_large_number<T: TextOut>(text: &mut T, n: u64) -> Result<(), T::Fault>
    ensures ok { OnOk result (T.tells → T.written text.new ≡ T.written text.old ++ decimal n) }
    ensures kept { OnErr result (T.tells → Extends (T.written text.old) (T.written text.new)) }
{
    let mut buffer = Buffer::new();
    text.put_str(buffer.format(n))
}

// The dot before a part, unless the part is the first.
pub(crate) fn put_dot<T: TextOut>(text: &mut T, position: usize) -> Result<(), T::Fault>
    ensures ok { OnOk result (T.tells → T.written text.new ≡ T.written text.old
        ++ (if position == 0 then [] else codes ".")) }
    ensures kept { OnErr result (T.tells → Extends (T.written text.old) (T.written text.new)) }
{
    if position > 0 {
        text.put_str(".")?;
    }
    Ok(())
}

// Writes one number more of a release.
fn put_next<T: TextOut>(text: &mut T, n: u64) -> Result<(), T::Fault>
    ensures ok { OnOk result (T.tells → T.written text.new ≡ T.written text.old
        ++ 46 ∷ decimal n) }
    ensures kept { OnErr result (T.tells → Extends (T.written text.old) (T.written text.new)) }
{
    text.put_str(".")?;
    put_number(text, n)
}

// Writes two numbers of a release.
fn put_two<T: TextOut>(text: &mut T, first: u64, second: u64) -> Result<(), T::Fault>
    ensures ok { OnOk result (T.tells → T.written text.new ≡ T.written text.old
        ++ (decimal first ++ 46 ∷ decimal second)) }
    ensures kept { OnErr result (T.tells → Extends (T.written text.old) (T.written text.new)) }
{
    put_number(text, first)?;
    put_next(text, second)
}

// Writes two numbers more.
fn put_next_two<T: TextOut>(text: &mut T, first: u64, second: u64) -> Result<(), T::Fault>
    ensures ok { OnOk result (T.tells → T.written text.new ≡ T.written text.old
        ++ 46 ∷ (decimal first ++ 46 ∷ decimal second)) }
    ensures kept { OnErr result (T.tells → Extends (T.written text.old) (T.written text.new)) }
{
    text.put_str(".")?;
    put_two(text, first, second)
}

/// Appends the epoch, unless it is 0.
pub(crate) fn put_epoch<T: TextOut>(text: &mut T, epoch: u64) -> Result<(), T::Fault>
    ensures ok { OnOk result (T.tells → T.written text.new ≡ T.written text.old ++ epoch_text epoch) }
    ensures kept { OnErr result (T.tells → Extends (T.written text.old) (T.written text.new)) }
{
    if epoch != 0 {
        put_number(text, epoch)?;
        text.put_str("!")?;
    }
    Ok(())
}

/// Writes the numbers of a release with dots between them (PEP 440, "Final releases"). Public for the crate of cuts,
/// which has numbers and no version.
pub fn put_release<T: TextOut>(text: &mut T, release: &[u64]) -> Result<(), T::Fault>
    ensures ok { OnOk result (T.tells → T.written text.new ≡ T.written text.old
        ++ release_text release.now) }
    ensures kept { OnErr result (T.tells → Extends (T.written text.old) (T.written text.new)) }
{
    // Those of most releases are put with no loop.
    match release {
        [first] => put_number(text, *first),
        [first, second] => put_two(text, *first, *second),
        [first, second, third] => {
            put_number(text, *first)?;
            put_next_two(text, *second, *third)
        }
        [first, second, third, fourth] => {
            put_two(text, *first, *second)?;
            put_next_two(text, *third, *fourth)
        }
        _ => {
            for (i, n) in release.iter().enumerate() {
                put_dot(text, i)?;
                put_number(text, *n)?;
            }
            Ok(())
        }
    }
}

fn phase_text(phase: Phase) -> &'static str
    ensures { result.now ≡ phase_text phase }
{
    match phase {
        Phase::Alpha => "a",
        Phase::Beta => "b",
        Phase::Rc => "rc",
    }
}

// Few versions are pre-releases, and so this is kept apart.
#[cold]
#[inline(never)]
fn put_phase<T: TextOut>(text: &mut T, phase: Phase, n: u64) -> Result<(), T::Fault>
    ensures ok { OnOk result (T.tells → T.written text.new ≡ T.written text.old
        ++ pre_text (Some (phase, n))) }
    ensures kept { OnErr result (T.tells → Extends (T.written text.old) (T.written text.new)) }
{
    text.put_str(phase_text(phase))?;
    put_number(text, n)
}

/// Appends the pre-release part.
pub(crate) fn put_pre<T: TextOut>(text: &mut T, pre: Option<(Phase, u64)>) -> Result<(), T::Fault>
    ensures ok { OnOk result (T.tells → T.written text.new ≡ T.written text.old ++ pre_text pre) }
    ensures kept { OnErr result (T.tells → Extends (T.written text.old) (T.written text.new)) }
{
    if let Some((phase, n)) = pre {
        put_phase(text, phase, n)?;
    }
    Ok(())
}

/// Appends the word and the number of a part, if the part is there.
pub(crate) fn put_part<T: TextOut>(
    text: &mut T,
    word: &str,
    number: Option<u64>,
) -> Result<(), T::Fault>
    ensures ok { OnOk result (T.tells → T.written text.new ≡ T.written text.old
        ++ part_text word.now number) }
    ensures kept { OnErr result (T.tells → Extends (T.written text.old) (T.written text.new)) }
{
    if let Some(n) = number {
        text.put_str(word)?;
        put_number(text, n)?;
    }
    Ok(())
}

/// Writes the pre-release part, the post-release part and the developmental release part (PEP 440, "Pre-releases",
/// "Post-releases", "Developmental releases"), of which any may be missing. Public for the crate of cuts, which has
/// numbers and no version.
pub fn put_suffixes<T: TextOut>(
    text: &mut T,
    pre: Option<(Phase, u64)>,
    post: Option<u64>,
    dev: Option<u64>,
) -> Result<(), T::Fault>
    ensures ok { OnOk result (T.tells → T.written text.new ≡ T.written text.old
        ++ (pre_text pre ++ post_text post ++ dev_text dev)) }
    ensures kept { OnErr result (T.tells → Extends (T.written text.old) (T.written text.new)) }
{
    put_pre(text, pre)?;
    // The ends of most clauses have one of these suffixes.
    match (post, dev) {
        (None, None) => Ok(()),
        (None, Some(0)) => text.put_str(".dev0"),
        (Some(0), Some(0)) => text.put_str(".post0.dev0"),
        _ => {
            put_part(text, ".post", post)?;
            put_part(text, ".dev", dev)
        }
    }
}

fn put_segment<T: TextOut>(text: &mut T, segment: &Label) -> Result<(), T::Fault>
    ensures ok { OnOk result (T.tells → T.written text.new ≡ T.written text.old
        ++ segment_text (segment_of segment.now)) }
    ensures kept { OnErr result (T.tells → Extends (T.written text.old) (T.written text.new)) }
{
    match segment {
        Label::Number(n) => put_number(text, *n)?,
        Label::Word(word) => text.put_str(word.as_str())?,
    }
    Ok(())
}

/// Appends the label.
pub(crate) fn put_label<T: TextOut>(text: &mut T, label: &[Label]) -> Result<(), T::Fault>
    ensures ok { OnOk result (T.tells → T.written text.new ≡ T.written text.old
        ++ label_text (map segment_of label.now)) }
    ensures kept { OnErr result (T.tells → Extends (T.written text.old) (T.written text.new)) }
{
    if !label.is_empty() {
        text.put_str("+")?;
    }
    for (i, segment) in label.iter().enumerate() {
        put_dot(text, i)?;
        put_segment(text, segment)?;
    }
    Ok(())
}
