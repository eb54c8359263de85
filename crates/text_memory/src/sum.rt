// A number of a text, by which it is found again.

use texts::head_of;

// An odd number whose bits look random.
const FACTOR: u64 = 0x9E37_79B9_7F4A_7C15;

// The number with eight bytes more. A short text fills the upper bytes alone, so they are mixed into the lower ones.
fn mixed(sum: u64, bytes: u64) -> u64 {
    let sum = sum ^ bytes;
    let sum = (sum ^ (sum >> 32)).wrapping_mul(FACTOR);
    sum ^ (sum >> 32)
}

// A number of all bytes of a text, eight at a time: nothing but time rests on it. The last ones, which may count twice,
// come first, so that a text of eight bytes or more is read by whole numbers.
#[inline(always)]
pub(crate) fn sum_of(text: &[u8]) -> u32 {
    let (_, last) = text.split_at(text.len().saturating_sub(8));
    let mut sum = mixed(0, head_of(last));
    for bytes in text.chunks_exact(8) {
        sum = mixed(sum, head_of(bytes));
    }
    (sum & 0xFFFF_FFFF) as u32
}
