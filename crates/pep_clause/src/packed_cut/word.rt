// The number of a packed cut, from the parts of a version.

ghost use Rattle.std.specs.Prelude.{◌≡◌, ◌↔◌, ◌<◌, ◌≤◌, ◌^◌, length, IfSome, IsSome};
ghost use Rattle.pep_version.specs.Order.{pre_number_of, stage_of};
ghost use Rattle.pep_clause.specs.PackedCut.{
  AreShortNumbers,
  IsShortSuffix,
  dev_digit,
  digit_unit,
  four,
  last_digit,
  past_stage,
  post_digit,
  release_word,
  suffixed_word,
};

use pep_version::Phase;

// A number of a release has at most 25 bits.
pub(crate) const NUMBER: u64 = 1 << 25;

// A digit has at most 7 bits.
pub(crate) const DIGIT: u64 = 1 << 7;

// In the word of a cut past a release, this stands in place of a stage. It is above each stage.
pub(crate) const PAST_STAGE: u64 = 5;

/// The numbers of a release, with 0 for those that it lacks of four. `None` where it has more than four.
pub(crate) fn four(release: &[u64]) -> Option<[u64; 4]>
    ensures numbers { IfSome result (λ n. n ≡ four release.now) }
    ensures exactly { IsSome result ↔ (length release.now ≤ 4) }
{
    match release {
        [] => Some([0, 0, 0, 0]),
        [a] => Some([*a, 0, 0, 0]),
        [a, b] => Some([*a, *b, 0, 0]),
        [a, b, c] => Some([*a, *b, *c, 0]),
        [a, b, c, d] => Some([*a, *b, *c, *d]),
        _ => None,
    }
}

/// The four numbers as one, where none is large.
pub(crate) fn word_of(numbers: [u64; 4]) -> Option<u128>
    ensures word { IfSome result (λ w. w ≡ release_word numbers) }
    ensures low { IfSome result (λ w. w < 2 ^ 100) }
    ensures exactly { IsSome result ↔ AreShortNumbers numbers }
{
    let [a, b, c, d] = numbers;
    if a >= NUMBER || b >= NUMBER || c >= NUMBER || d >= NUMBER {
        return None;
    }
    let unit = NUMBER as u128;
    let front = (a as u128 * unit + b as u128) * unit + c as u128;
    Some(front * unit + d as u128)
}

// Where a version stands within its release.
fn stage(pre: Option<(Phase, u64)>, post: Option<u64>, dev: Option<u64>) -> u64
    ensures { result ≡ stage_of pre post dev }
{
    match (pre, post, dev) {
        (Some((Phase::Alpha, _)), _, _) => 1,
        (Some((Phase::Beta, _)), _, _) => 2,
        (Some((Phase::Rc, _)), _, _) => 3,
        (None, None, Some(_)) => 0,
        _ => 4,
    }
}

// The number of the pre-release, 0 where there is none.
fn pre_number(pre: Option<(Phase, u64)>) -> u64
    ensures { result ≡ pre_number_of pre }
{
    match pre {
        Some((_, number)) => number,
        None => 0,
    }
}

// One more than the number of the post-release, 0 where there is none.
fn post_digit(post: Option<u64>) -> Option<u64>
    ensures digit { IfSome result (λ n. n ≡ post_digit post) }
    ensures low { IfSome result (λ n. n < digit_unit) }
    ensures exactly { IsSome result ↔ (post_digit post < digit_unit) }
{
    match post {
        Some(number) if number < DIGIT - 1 => Some(number + 1),
        Some(_) => None,
        None => Some(0),
    }
}

// The number of the developmental release, 127 where there is none.
fn dev_digit(dev: Option<u64>) -> Option<u64>
    ensures digit { IfSome result (λ n. n ≡ dev_digit dev) }
    ensures low { IfSome result (λ n. n < digit_unit) }
    ensures exactly { IsSome result ↔ IfSome dev (λ n. n < last_digit) }
{
    match dev {
        Some(number) if number < DIGIT - 1 => Some(number),
        Some(_) => None,
        None => Some(DIGIT - 1),
    }
}

/// The word of a release with the digits of the suffixes behind it, where they are small.
pub(crate) fn suffixed(
    release: u128,
    pre: Option<(Phase, u64)>,
    post: Option<u64>,
    dev: Option<u64>,
) -> Option<u128>
    requires { release < 2 ^ 100 }
    ensures word { IfSome result (λ w. w ≡ suffixed_word release (stage_of pre post dev)
        (pre_number_of pre) (post_digit post) (dev_digit dev)) }
    ensures exactly { IsSome result ↔ IsShortSuffix pre post dev }
{
    let number = pre_number(pre);
    if number >= DIGIT {
        return None;
    }
    let post_part = post_digit(post)?;
    let dev_part = dev_digit(dev)?;
    let unit = DIGIT as u128;
    let front = (release * unit + stage(pre, post, dev) as u128) * unit + number as u128;
    Some((front * unit + post_part as u128) * unit + dev_part as u128)
}

/// The word past a release.
pub(crate) fn past(release: u128) -> u128
    requires { release < 2 ^ 100 }
    ensures { result ≡ suffixed_word release past_stage 0 0 last_digit }
{
    let unit = DIGIT as u128;
    let front = (release * unit + PAST_STAGE as u128) * unit * unit * unit;
    front + (unit - 1)
}
