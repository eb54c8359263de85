// The bytes of a key, part by part.

ghost use Rattle.std.specs.Prelude.{◌≡◌, ◌++◌, ◌∷◌, map, OnOk};
ghost use Rattle.pep_version.specs.ByteOrder.{ended};
ghost use Rattle.pep_version.specs.KeyBytes.{
  dev_bytes,
  label_bytes,
  marked_bytes,
  number_bytes,
  phase_byte,
  post_bytes,
  release_number_bytes,
  segment_bytes,
  stage_bytes_of,
};
ghost use Rattle.pep_version.specs.Order.{without_end_zeros};
ghost use Rattle.pep_version.specs.Version.{word as Word};
ghost use Rattle.pep_version.specs.View.{segment_of};

use crate::parts::{Label, Phase};
use smallvec::SmallVec;
use std::alloc::AllocError;

// As many bytes as the keys of most versions have.
pub(crate) const INLINE: usize = 64;

/// The bytes of a key in storage of their own, see [`Key::into_bytes`](crate::Key::into_bytes); those of most versions'
/// keys lie in the value itself.
pub type KeyBytes = SmallVec<u8, INLINE>;

fn push_number(bytes: &mut KeyBytes, n: u64) -> Result<(), AllocError>
    ensures { OnOk result (bytes.new.items ≡ bytes.old.items ++ number_bytes n) }
{
    bytes.extend_from_slice(&n.to_be_bytes())
}

// A byte and a number behind it.
fn push_marked(bytes: &mut KeyBytes, mark: u8, n: u64) -> Result<(), AllocError>
    ensures { OnOk result (bytes.new.items ≡ bytes.old.items ++ (mark ∷ number_bytes n)) }
{
    let [a, b, c, d, e, f, g, h] = n.to_be_bytes();
    bytes.extend_from_slice(&[mark, a, b, c, d, e, f, g, h])
}

/// Appends the numbers of a release and the byte behind them.
pub(crate) fn push_release(bytes: &mut KeyBytes, release: &[u64]) -> Result<(), AllocError>
    ensures { OnOk result (bytes.new.items ≡ bytes.old.items
        ++ ended release_number_bytes release.now) }
{
    for n in release {
        push_marked(bytes, 1, *n)?;
    }
    bytes.push(0)?;
    Ok(())
}

/// The byte of a pre-release's phase.
pub(crate) fn phase_byte(phase: Phase) -> u8
    ensures { result ≡ phase_byte phase }
{
    match phase {
        Phase::Alpha => 0x20,
        Phase::Beta => 0x30,
        Phase::Rc => 0x40,
    }
}

// Appends the stage of a version with these parts.
fn push_stage(
    bytes: &mut KeyBytes,
    pre: Option<(Phase, u64)>,
    post: Option<u64>,
    dev: Option<u64>,
) -> Result<(), AllocError>
    ensures { OnOk result (bytes.new.items ≡ bytes.old.items ++ stage_bytes_of pre post dev) }
{
    match (pre, post, dev) {
        (Some((phase, n)), _, _) => push_marked(bytes, phase_byte(phase), n)?,
        (None, None, Some(_)) => bytes.push(0x10)?,
        _ => bytes.push(0x50)?,
    }
    Ok(())
}

// Appends a part that may be absent: a byte for its absence, or another one and its number.
fn push_part(
    bytes: &mut KeyBytes,
    absent: u8,
    present: u8,
    part: Option<u64>,
) -> Result<(), AllocError>
    ensures { OnOk result (bytes.new.items
        ≡ bytes.old.items ++ marked_bytes absent present part) }
{
    match part {
        None => bytes.push(absent)?,
        Some(n) => push_marked(bytes, present, n)?,
    }
    Ok(())
}

fn push_word(bytes: &mut KeyBytes, word: &[u8]) -> Result<(), AllocError>
    ensures { OnOk result (bytes.new.items ≡ bytes.old.items ++ segment_bytes (Word word.now)) }
{
    bytes.push(1)?;
    bytes.extend_from_slice(word)?;
    bytes.push(0)?;
    Ok(())
}

fn push_segment(bytes: &mut KeyBytes, segment: &Label) -> Result<(), AllocError>
    ensures { OnOk result (bytes.new.items ≡ bytes.old.items
        ++ segment_bytes (segment_of segment.now)) }
{
    match segment {
        Label::Number(n) => push_marked(bytes, 2, *n),
        Label::Word(text) => push_word(bytes, text.as_bytes()),
    }
}

fn push_segments(bytes: &mut KeyBytes, label: &[Label]) -> Result<(), AllocError>
    ensures { OnOk result (bytes.new.items ≡ bytes.old.items
        ++ ended segment_bytes (map segment_of label.now)) }
{
    for segment in label {
        push_segment(bytes, segment)?;
    }
    Ok(bytes.push(0)?)
}

// Appends a label.
fn push_label(bytes: &mut KeyBytes, label: &[Label]) -> Result<(), AllocError>
    ensures { OnOk result (bytes.new.items ≡ bytes.old.items
        ++ label_bytes (map segment_of label.now)) }
{
    if label.is_empty() {
        bytes.push(0)?;
        return Ok(());
    }
    bytes.push(1)?;
    push_segments(bytes, label)
}

/// Appends an epoch and a release, which has no zeros at its end in a key.
pub(crate) fn push_place(
    bytes: &mut KeyBytes,
    epoch: u64,
    release: &[u64],
) -> Result<(), AllocError>
    ensures { OnOk result (bytes.new.items ≡ bytes.old.items
        ++ (number_bytes epoch ++ ended release_number_bytes release.now)) }
{
    push_number(bytes, epoch)?;
    push_release(bytes, release)
}

/// Appends what stands behind the release: the suffixes and the label.
pub(crate) fn push_suffix(
    bytes: &mut KeyBytes,
    pre: Option<(Phase, u64)>,
    post: Option<u64>,
    dev: Option<u64>,
    label: &[Label],
) -> Result<(), AllocError>
    ensures { OnOk result (bytes.new.items ≡ bytes.old.items ++ (stage_bytes_of pre post dev
        ++ (post_bytes post ++ (dev_bytes dev ++ label_bytes (map segment_of label.now))))) }
{
    push_stage(bytes, pre, post, dev)?;
    push_part(bytes, 0, 1, post)?;
    push_part(bytes, 1, 0, dev)?;
    push_label(bytes, label)
}
