//! Long texts of parts that come again.

use std::alloc::{AllocError, Global};
use std::ops::Range;

/// The first text, so many times the second one, and the third.
pub fn repeated(
    alloc: Global,
    front: &str,
    part: &str,
    count: usize,
    behind: &str,
) -> Result<String, AllocError> {
    let mut text = String::from_str(alloc, front)?;
    for _ in 0..count {
        text.push_str(part)?;
    }
    text.push_str(behind)?;
    Ok(text)
}

/// Appends each number between the two texts. Numbers of equally many digits are in byte order too.
pub fn push_numbered(
    alloc: Global,
    text: &mut String,
    before: &str,
    numbers: Range<u32>,
    after: &str,
) -> Result<(), AllocError> {
    for number in numbers {
        let item = format!(in alloc; "{before}{number}{after}")?;
        text.push_str(item.as_str())?;
    }
    Ok(())
}
