// The normal text of the version whose key bytes are, part by part. No version is made, and so no memory is needed.

ghost use Rattle.std.specs.Prelude.{
  ◌≡◌,
  ◌++◌,
  ◌==◌,
  [],
  codes,
  get_or,
  if◌then◌else◌,
  map,
  nat_lt,
  OnErr,
  OnOk,
};
ghost use Rattle.std.specs.List.{AllByRecursion, join_with_byte};
ghost use Rattle.pep_version.specs.KeyReading.{
  read_label,
  read_release,
  read_segment,
  read_segments,
  read_version,
};
ghost use Rattle.pep_version.specs.Text.{label_text, normal_text, release_text, segment_text};
ghost use Rattle.pep_version.specs.Version.{IsSegment, IsVersion};
ghost use Rattle.texts.specs.TextOut.{Extends};

use crate::key::read::{behind_release, take_dev, take_number, take_post, take_stage, take_word};
use crate::text::{put_dot, put_epoch, put_number, put_part, put_pre};
use crate::version::Version;
use texts::TextOut;

// Writes 0 in the place of a release without a number.
fn put_zero<T: TextOut>(text: &mut T, count: usize) -> Result<(), T::Fault>
    ensures ok { OnOk result (T.tells → T.written text.new ≡ T.written text.old
        ++ (if count == 0 then codes "0" else [])) }
    ensures kept { OnErr result (T.tells → Extends (T.written text.old) (T.written text.new)) }
{
    if count == 0 {
        text.put_str("0")?;
    }
    Ok(())
}

// Writes the release.
fn put_release_at<T: TextOut>(text: &mut T, bytes: &[u8]) -> Result<(), T::Fault>
    ensures ok { OnOk result (T.tells → T.written text.new ≡ T.written text.old
        ++ release_text (read_release bytes.now).0) }
    ensures kept { OnErr result (T.tells → Extends (T.written text.old) (T.written text.new)) }
{
    let mut rest = bytes;
    let mut count: usize = 0;
    while let [mark, behind @ ..] = rest {
        if *mark == 0 {
            return put_zero(text, count);
        }
        let (number, more) = take_number(behind);
        put_dot(text, count)?;
        put_number(text, number)?;
        count += 1;
        rest = more;
    }
    put_zero(text, count)
}

// The bytes behind a segment of a label.
fn behind_segment(bytes: &[u8]) -> &[u8]
    ensures { result.now ≡ (read_segment bytes.now).1 }
{
    let [mark, behind @ ..] = bytes else {
        return bytes;
    };
    if *mark != 1 {
        let (_, rest) = take_number(behind);
        return rest;
    }
    let (_, rest) = take_word(behind);
    rest
}

// Writes a segment of a label.
fn put_segment_at<T: TextOut>(text: &mut T, bytes: &[u8]) -> Result<(), T::Fault>
    requires { IsSegment (read_segment bytes.now).0 }
    ensures ok { OnOk result (T.tells → T.written text.new ≡ T.written text.old
        ++ segment_text (read_segment bytes.now).0) }
    ensures kept { OnErr result (T.tells → Extends (T.written text.old) (T.written text.new)) }
{
    let [mark, behind @ ..] = bytes else {
        return put_number(text, 0);
    };
    if *mark != 1 {
        let (number, _) = take_number(behind);
        return put_number(text, number);
    }
    let (word, _) = take_word(behind);
    let Ok(letters) = std::str::from_utf8(word) else {
        unreachable!();
    };
    text.put_str(letters)
}

// Writes the segments of a label with dots between them.
fn put_segments_at<T: TextOut>(text: &mut T, bytes: &[u8]) -> Result<(), T::Fault>
    requires { AllByRecursion IsSegment (read_segments bytes.now).0 }
    ensures ok { OnOk result (T.tells → T.written text.new ≡ T.written text.old
        ++ join_with_byte 46 (map segment_text (read_segments bytes.now).0)) }
    ensures kept { OnErr result (T.tells → Extends (T.written text.old) (T.written text.new)) }
{
    let mut rest = bytes;
    let mut count: usize = 0;
    while let [mark, ..] = rest {
        if *mark == 0 {
            return Ok(());
        }
        put_dot(text, count)?;
        put_segment_at(text, rest)?;
        count += 1;
        rest = behind_segment(rest);
    }
    Ok(())
}

// The bytes behind the segments of a label.
fn behind_segments(bytes: &[u8]) -> &[u8]
    ensures { result.now ≡ (read_segments bytes.now).1 }
{
    let mut rest = bytes;
    while let [mark, behind @ ..] = rest {
        if *mark == 0 {
            return behind;
        }
        rest = behind_segment(rest);
    }
    rest
}

// The bytes behind a label.
fn behind_label(bytes: &[u8]) -> &[u8]
    ensures { result.now ≡ (read_label bytes.now).1 }
{
    let [mark, behind @ ..] = bytes else {
        return bytes;
    };
    if *mark == 0 {
        return behind;
    }
    behind_segments(behind)
}

// Whether a list of segments stands here that has one.
fn has_segment(bytes: &[u8]) -> bool
    ensures { result ≡ nat_lt 0 (get_or bytes.now 0 0) }
{
    match bytes {
        [mark, ..] => *mark > 0,
        [] => false,
    }
}

// Writes the label.
fn put_label_at<T: TextOut>(text: &mut T, bytes: &[u8]) -> Result<(), T::Fault>
    requires { AllByRecursion IsSegment (read_label bytes.now).0 }
    ensures ok { OnOk result (T.tells → T.written text.new ≡ T.written text.old
        ++ label_text (read_label bytes.now).0) }
    ensures kept { OnErr result (T.tells → Extends (T.written text.old) (T.written text.new)) }
{
    let [mark, behind @ ..] = bytes else {
        return Ok(());
    };
    if *mark == 0 {
        return Ok(());
    }
    if !has_segment(behind) {
        return Ok(());
    }
    text.put_str("+")?;
    put_segments_at(text, behind)
}

impl Version {
    /// The bytes behind the key at the front (see [`Key::bytes`](crate::Key::bytes)), found with no version
    /// made. Public for the crate of cuts.
    pub fn behind_front(bytes: &[u8]) -> &[u8]
        ensures { result.now ≡ (read_version bytes.now).1 }
    {
        let (_, rest) = take_stage(behind_release(bytes));
        let (_, rest) = take_post(rest);
        let (_, rest) = take_dev(rest);
        behind_label(rest)
    }

    /// Writes the normal text of the version whose place has its key at the front of these bytes (see
    /// [`Key::bytes`](crate::Key::bytes)), wherever it goes, with no version made. Public for the crate of cuts.
    pub fn put_front<T: TextOut>(text: &mut T, bytes: &[u8]) -> Result<(), T::Fault>
        requires { IsVersion (read_version bytes.now).0 }
        ensures ok { OnOk result (T.tells → T.written text.new ≡ T.written text.old
            ++ normal_text (read_version bytes.now).0) }
        ensures kept { OnErr result (T.tells → Extends (T.written text.old) (T.written text.new)) }
    {
        let (epoch, release) = take_number(bytes);
        let (pre, rest) = take_stage(behind_release(bytes));
        let (post, rest) = take_post(rest);
        let (dev, label) = take_dev(rest);
        put_epoch(text, epoch)?;
        put_release_at(text, release)?;
        put_pre(text, pre)?;
        put_part(text, ".post", post)?;
        put_part(text, ".dev", dev)?;
        put_label_at(text, label)
    }
}
