// Keys of versions without a label, as most cuts of specifiers are: they are written in an array,
// which is then given its length.

ghost use Rattle.std.specs.Prelude.{
  ◌≡◌,
  ◌≤◌,
  ◌+◌,
  ◌++◌,
  ◌∷◌,
  [],
  None,
  length,
  take,
  IfSome,
  IsSome,
};
ghost use Rattle.pep_version.specs.ByteOrder.{ended};
ghost use Rattle.pep_version.specs.KeyBytes.{
  dev_bytes,
  key_bytes,
  label_bytes,
  marked_bytes,
  number_bytes,
  post_bytes,
  release_number_bytes,
  stage_bytes_of,
};
ghost use Rattle.pep_version.specs.Text.{public_version};

use crate::key::bytes::{INLINE, KeyBytes, phase_byte};
use crate::key::without_end_zeros;
use crate::parts::Phase;
use std::alloc::Global;

// Writes the bytes there, and gives where they end, unless there is no room.
fn put(buffer: &mut [u8], at: usize, bytes: &[u8]) -> Option<usize>
    ensures front { IfSome result (λ end. take end buffer.new ≡ take at buffer.old ++ bytes.now) }
    ensures end { IfSome result (λ end. end ≡ at + length bytes.now) }
    ensures within { IfSome result (λ end. end ≤ length buffer.new) }
    ensures room { at + length bytes.now ≤ length buffer.old → IsSome result }
{
    let end = at.checked_add(bytes.len())?;
    if end > buffer.len() {
        return None;
    }
    buffer[at..end].copy_from_slice(bytes);
    Some(end)
}

// A byte and a number behind it.
fn put_marked(buffer: &mut [u8], at: usize, mark: u8, n: u64) -> Option<usize>
    ensures front { IfSome result (λ end. take end buffer.new
        ≡ take at buffer.old ++ (mark ∷ number_bytes n)) }
    ensures end { IfSome result (λ end. end ≡ at + 9) }
    ensures within { IfSome result (λ end. end ≤ length buffer.new) }
    ensures room { at + 9 ≤ length buffer.old → IsSome result }
{
    // Two writes: of one array of nine each byte is written apart.
    let behind = put(buffer, at, &[mark])?;
    put(buffer, behind, &n.to_be_bytes())
}

// The numbers of a release and the byte behind them.
#[inline(always)]
fn put_release(buffer: &mut [u8], at: usize, release: &[u64]) -> Option<usize>
    ensures front { IfSome result (λ end. take end buffer.new
        ≡ take at buffer.old ++ ended release_number_bytes release.now) }
    ensures end { IfSome result (λ end.
        end ≡ at + length (ended release_number_bytes release.now)) }
    ensures within { IfSome result (λ end. end ≤ length buffer.new) }
    ensures room { at + length (ended release_number_bytes release.now) ≤ length buffer.old
        → IsSome result }
{
    let mut end = at;
    for n in release {
        end = put_marked(buffer, end, 1, *n)?;
    }
    put(buffer, end, &[0])
}

// The stage of a version with these parts.
fn put_stage(
    buffer: &mut [u8],
    at: usize,
    pre: Option<(Phase, u64)>,
    post: Option<u64>,
    dev: Option<u64>,
) -> Option<usize>
    ensures front { IfSome result (λ end. take end buffer.new
        ≡ take at buffer.old ++ stage_bytes_of pre post dev) }
    ensures end { IfSome result (λ end. end ≡ at + length (stage_bytes_of pre post dev)) }
    ensures within { IfSome result (λ end. end ≤ length buffer.new) }
    ensures room { at + length (stage_bytes_of pre post dev) ≤ length buffer.old → IsSome result }
{
    match (pre, post, dev) {
        (Some((phase, n)), _, _) => put_marked(buffer, at, phase_byte(phase), n),
        (None, None, Some(_)) => put(buffer, at, &[0x10]),
        _ => put(buffer, at, &[0x50]),
    }
}

// A part that may be absent: a byte for its absence, or another one and its number.
fn put_part(
    buffer: &mut [u8],
    at: usize,
    absent: u8,
    present: u8,
    part: Option<u64>,
) -> Option<usize>
    ensures front { IfSome result (λ end. take end buffer.new
        ≡ take at buffer.old ++ marked_bytes absent present part) }
    ensures end { IfSome result (λ end. end ≡ at + length (marked_bytes absent present part)) }
    ensures within { IfSome result (λ end. end ≤ length buffer.new) }
    ensures room { at + length (marked_bytes absent present part) ≤ length buffer.old
        → IsSome result }
{
    match part {
        None => put(buffer, at, &[absent]),
        Some(n) => put_marked(buffer, at, present, n),
    }
}

// What stands behind the release.
#[inline(always)]
fn put_suffix(
    buffer: &mut [u8],
    at: usize,
    pre: Option<(Phase, u64)>,
    post: Option<u64>,
    dev: Option<u64>,
) -> Option<usize>
    ensures front { IfSome result (λ end. take end buffer.new ≡ take at buffer.old
        ++ (stage_bytes_of pre post dev ++ (post_bytes post ++ (dev_bytes dev ++ label_bytes [])))) }
    ensures within { IfSome result (λ end. end ≤ length buffer.new) }
    ensures room { at + length (stage_bytes_of pre post dev
        ++ (post_bytes post ++ (dev_bytes dev ++ label_bytes []))) ≤ length buffer.old
        → IsSome result }
{
    if pre.is_none() && post.is_none() && dev.is_none() {
        return put(buffer, at, &[0x50, 0, 1, 0]);
    }
    let end = put_stage(buffer, at, pre, post, dev)?;
    let end = put_part(buffer, end, 0, 1, post)?;
    let end = put_part(buffer, end, 1, 0, dev)?;
    put(buffer, end, &[0])
}

// The key with these parts, whose release has no zeros at its end. Inlined, since its callers know how long the
// buffer is.
#[inline(always)]
fn put_key(
    buffer: &mut [u8],
    epoch: u64,
    release: &[u64],
    pre: Option<(Phase, u64)>,
    post: Option<u64>,
    dev: Option<u64>,
) -> Option<usize>
    ensures front { IfSome result (λ end. take end buffer.new ≡ (number_bytes epoch
        ++ ended release_number_bytes release.now) ++ (stage_bytes_of pre post dev
        ++ (post_bytes post ++ (dev_bytes dev ++ label_bytes [])))) }
    ensures within { IfSome result (λ end. end ≤ length buffer.new) }
    ensures room { length ((number_bytes epoch
        ++ ended release_number_bytes release.now) ++ (stage_bytes_of pre post dev
        ++ (post_bytes post ++ (dev_bytes dev ++ label_bytes [])))) ≤ length buffer.old
        → IsSome result }
{
    let behind = put(buffer, 0, &epoch.to_be_bytes())?;
    let behind = put_release(buffer, behind, release)?;
    put_suffix(buffer, behind, pre, post, dev)
}

/// The bytes of the key with these parts, whose release has no zeros at its end, unless they are
/// too many to lie in the value.
pub(crate) fn short_bytes(
    alloc: Global,
    epoch: u64,
    release: &[u64],
    post: Option<u64>,
    dev: Option<u64>,
) -> Option<KeyBytes>
    ensures bytes { IfSome result (λ b. b.items ≡ (number_bytes epoch
        ++ ended release_number_bytes release.now) ++ (stage_bytes_of None post dev
        ++ (post_bytes post ++ (dev_bytes dev ++ label_bytes [])))) }
    ensures fits { length ((number_bytes epoch
        ++ ended release_number_bytes release.now) ++ (stage_bytes_of None post dev
        ++ (post_bytes post ++ (dev_bytes dev ++ label_bytes [])))) ≤ INLINE → IsSome result }
{
    let mut buffer = [0; INLINE];
    let end = put_key(&mut buffer, epoch, release, None, post, dev)?;
    Some(KeyBytes::from_buf_and_len(alloc, buffer, end))
}

/// The bytes of the key of the version of epoch 0 with this release and these suffixes, and nothing
/// more (see [`Key::bytes`](crate::Key::bytes)), written into the room; `None` where they are too
/// many for it. Public for the crate of cuts.
pub fn public_key_bytes<'a>(
    room: &'a mut [u8],
    release: &[u64],
    pre: Option<(Phase, u64)>,
    post: Option<u64>,
    dev: Option<u64>,
) -> Option<&'a [u8]>
    ensures bytes { IfSome result (λ b.
        b.now ≡ key_bytes (public_version release.now pre post dev)) }
    ensures fits { length (key_bytes (public_version release.now pre post dev)) ≤ length room.old
        → IsSome result }
{
    let end = put_key(room, 0, without_end_zeros(release), pre, post, dev)?;
    Some(&room[..end])
}
