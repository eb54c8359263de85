// The version before which a packed cut stands, from its number.

ghost use Rattle.std.specs.Prelude.{◌≡◌, ◌++◌, ◌<◌, ◌≤◌, ◌^◌, ◌%◌, take, OnErr, OnOk};
ghost use Rattle.pep_version.specs.Text.{normal_text, public_version};
ghost use Rattle.pep_version.specs.KeyBytes.{key_bytes};
ghost use Rattle.pep_version.specs.Order.{short_release};
ghost use Rattle.pep_clause.specs.PackedCut.{
  dev_at,
  digit_unit,
  front_text,
  is_past,
  numbers_at,
  past_bytes,
  post_at,
  pre_at,
  release_word_at,
  version_at,
};
ghost use Rattle.texts.specs.TextOut.{Extends};

use crate::packed_cut::CUT_ROOM;
use crate::packed_cut::word::{DIGIT, NUMBER, PAST_STAGE};
use crate::words;
use pep_version::{Phase, public_key_bytes, put_release, put_suffixes};
use texts::TextOut;

// The pre-release of a stage.
fn pre_at(stage: u64, number: u64) -> Option<(Phase, u64)>
    ensures { result ≡ pre_at stage number }
{
    match stage {
        1 => Some((Phase::Alpha, number)),
        2 => Some((Phase::Beta, number)),
        3 => Some((Phase::Rc, number)),
        _ => None,
    }
}

fn post_at(digit: u64) -> Option<u64>
    ensures { result ≡ post_at digit }
{
    if digit == 0 { None } else { Some(digit - 1) }
}

fn dev_at(digit: u64) -> Option<u64>
    ensures { result ≡ dev_at digit }
{
    if digit == DIGIT - 1 {
        None
    } else {
        Some(digit)
    }
}

// The last digit.
fn digit(word: u128) -> u64
    ensures { result ≡ word % digit_unit }
{
    (word % DIGIT as u128) as u64
}

// The four numbers of a release's word.
fn numbers_at(word: u128) -> [u64; 4]
    requires { word < 2 ^ 100 }
    ensures { result ≡ numbers_at word }
{
    let unit = NUMBER as u128;
    let (three, fourth) = (word / unit, word % unit);
    let (two, third) = (three / unit, three % unit);
    let (first, second) = (two / unit, two % unit);
    [first as u64, second as u64, third as u64, fourth as u64]
}

// How many of four numbers are left without the zeros at their end, the first of which stays.
fn short_count(numbers: [u64; 4]) -> usize
    ensures numbers { take result numbers ≡ short_release numbers }
    ensures some { 0 < result }
    ensures most { result ≤ 4 }
{
    let [_, second, third, fourth] = numbers;
    if fourth != 0 {
        4
    } else if third != 0 {
        3
    } else if second != 0 {
        2
    } else {
        1
    }
}

// The numbers of the release of a packed cut's word, those that it doesn't have being 0.
fn numbers_of(word: u128) -> [u64; 4]
    ensures { result ≡ numbers_at (release_word_at word) }
{
    let unit = DIGIT as u128;
    numbers_at(word / unit / unit / unit / unit)
}

// The suffixes of a word.
#[derive(Clone, Copy)]
struct Suffixes {
    pre: Option<(Phase, u64)>,
    post: Option<u64>,
    dev: Option<u64>,
}

fn suffixes_at(word: u128) -> Suffixes
    ensures version { public_version (version_at word).release result.pre result.post result.dev
        ≡ version_at word }
{
    let unit = DIGIT as u128;
    let behind_post = word / unit;
    let behind_pre = behind_post / unit;
    Suffixes {
        pre: pre_at(digit(behind_pre / unit), digit(behind_pre)),
        post: post_at(digit(behind_post)),
        dev: dev_at(digit(word)),
    }
}

/// Whether the word is that of a cut past a release.
pub(crate) fn is_past(word: u128) -> bool
    ensures { result ≡ is_past word }
{
    let unit = DIGIT as u128;
    digit(word / unit / unit / unit) == PAST_STAGE
}

/// The word in front of the version in the text of a cut.
pub(crate) fn front_text(word: u128) -> &'static str
    ensures { result.now ≡ front_text (is_past word) }
{
    if is_past(word) {
        words::PAST
    } else {
        words::BEFORE
    }
}

/// The bytes of the key of the version with the release and the suffixes of the word, written into the room.
pub(crate) fn key_bytes_at<'a>(room: &'a mut [u8; CUT_ROOM], word: u128) -> &'a [u8]
    ensures { result.now ≡ key_bytes (version_at word) }
{
    let numbers = numbers_of(word);
    let release = &numbers[..short_count(numbers)];
    let suffixes = suffixes_at(word);
    match public_key_bytes(room, release, suffixes.pre, suffixes.post, suffixes.dev) {
        Some(bytes) => bytes,
        None => unreachable!(),
    }
}

/// The same without what stands behind the release of the key, which is that of a release alone, and then 0x60, above
/// each byte that a key has there.
// A merge compares packed cuts by their words, so few callers want these bytes.
#[cold]
#[inline(never)]
pub(crate) fn past_bytes_at<'a>(room: &'a mut [u8; CUT_ROOM], word: u128) -> &'a [u8]
    ensures { result.now ≡ past_bytes (key_bytes (version_at word)) }
{
    let mut own = [0; CUT_ROOM];
    let key = key_bytes_at(&mut own, word);
    let end = key.len() - 4;
    room[..end].copy_from_slice(&key[..end]);
    room[end] = 0x60;
    &room[..end + 1]
}

/// Writes the normal text of the version with the release and the suffixes of the word.
pub(crate) fn put_version_at<T: TextOut>(text: &mut T, word: u128) -> Result<(), T::Fault>
    ensures ok { OnOk result (T.tells → T.written text.new ≡ T.written text.old
        ++ normal_text (version_at word)) }
    ensures kept { OnErr result (T.tells → Extends (T.written text.old) (T.written text.new)) }
{
    let numbers = numbers_of(word);
    put_release(text, &numbers[..short_count(numbers)])?;
    // They are taken from the word when they are wanted, and so don't take registers before.
    let suffixes = suffixes_at(word);
    put_suffixes(text, suffixes.pre, suffixes.post, suffixes.dev)
}
