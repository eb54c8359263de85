// The numbers and words of a text that was sliced.

ghost use Rattle.std.specs.Prelude.{
  ◌≡◌,
  ◌∷◌,
  ◌<◌,
  length,
  string_bytes,
  IfOk,
  IfSome,
  IsTrue,
};
ghost use Rattle.std.specs.List.{list_all};
ghost use Rattle.pep_version.specs.Way.Slices.{
  IsDigits,
  label_of,
  left_runs,
  lower,
  optional_of,
  pre_of,
  value_of,
};
ghost use Rattle.pep_version.specs.Way.Segments.{NumberOf, OptionalOf, PreOf, SegmentOf, SegmentsOf};
ghost use Rattle.pep_version.specs.Spelling.{is_run, segment_of_run, separated_parts};

use crate::fault::VersionFault;
use crate::number::{all_digits, number};
use crate::parts::{Label, Phase};
use std::alloc::{AllocError, Global};
use texts::is_separator;

/// The number that the digits write.
pub(crate) fn written_number(digits: &[u8]) -> Result<u64, VersionFault>
    requires { IsDigits digits }
    ensures { NumberOf (value_of digits.entry) result }
{
    number(digits).ok_or(VersionFault::NumberTooLarge)
}

/// The number of a part, if the part is there.
#[inline(always)]
pub(crate) fn optional_number(digits: Option<&[u8]>) -> Result<Option<u64>, VersionFault>
    requires { IfSome digits IsDigits }
    ensures { OptionalOf (optional_of digits.entry) result }
{
    match digits {
        Some(digits) => Ok(Some(written_number(digits)?)),
        None => Ok(None),
    }
}

/// The phase and the number of a pre-release part, if it is there.
pub(crate) fn pre_number(pre: Option<(Phase, &[u8])>) -> Result<Option<(Phase, u64)>, VersionFault>
    requires { IfSome pre (λ p. IsDigits p.1) }
    ensures { PreOf (pre_of pre.entry) result }
{
    match pre {
        Some((phase, digits)) => Ok(Some((phase, written_number(digits)?))),
        None => Ok(None),
    }
}

// The letters and digits in lower case.
fn lower_text(alloc: Global, run: &[u8]) -> Result<String, AllocError>
    requires { IsTrue (is_run (lower run.now)) }
    ensures { IfOk result (λ t. string_bytes t ≡ lower run.now) }
{
    let mut text = String::with_capacity(alloc, run.len())?;
    for b in run {
        text.push(char::from(b.to_ascii_lowercase()))?;
    }
    Ok(text)
}

fn read_segment(alloc: Global, run: &[u8]) -> Result<Label, VersionFault>
    requires { IsTrue (is_run (lower run.now)) }
    ensures { SegmentOf (segment_of_run (lower run.now)) result }
{
    if all_digits(run) {
        Ok(Label::Number(written_number(run)?))
    } else {
        Ok(Label::Word(lower_text(alloc, run)?))
    }
}

// The first run of a label, and what stands behind its separator.
fn first_run(text: &[u8]) -> (&[u8], Option<&[u8]>)
    ensures runs { separated_parts (lower text.now) ≡ lower result.0.now ∷ left_runs result.1 }
    ensures shorter { IfSome result.1 (λ rest. length rest.now < length text.now) }
{
    'bytes: for i in 0..text.len() {
        if is_separator(text[i]) {
            return (&text[..i], Some(&text[i + 1..]));
        }
    }
    (text, None)
}

/// The segments of a label, if it is there: most versions have none.
pub(crate) fn label_segments(
    alloc: Global,
    label: Option<&[u8]>,
) -> Result<Vec<Label>, VersionFault>
    requires { IsTrue (list_all is_run (left_runs label)) }
    ensures { SegmentsOf (label_of label.entry) result }
{
    match label {
        Some(_) => read_segments(alloc, label),
        None => Ok(Vec::new(alloc)),
    }
}

// The segments of a label.
fn read_segments(alloc: Global, label: Option<&[u8]>) -> Result<Vec<Label>, VersionFault>
    requires { IsTrue (list_all is_run (left_runs label)) }
    ensures { SegmentsOf (label_of label.entry) result }
{
    let mut segments = Vec::new(alloc);
    let mut rest = label;
    while let Some(text) = rest {
        let (run, after) = first_run(text);
        segments.push(read_segment(alloc, run)?)?;
        rest = after;
    }
    Ok(segments)
}
