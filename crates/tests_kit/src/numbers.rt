//! Numbers of a seed.

/// A sequence of numbers, the same one for each seed.
#[derive(Drop)]
pub struct Numbers {
    /// Where the sequence is.
    pub state: u32,
}

impl Numbers {
    /// The next one, below a limit.
    pub fn below(&mut self, limit: u32) -> u32 {
        self.state = self
            .state
            .wrapping_mul(1_664_525)
            .wrapping_add(1_013_904_223);
        (self.state >> 8).checked_rem(limit).unwrap_or(0)
    }

    /// One of the texts, or an empty one where there are none.
    pub fn one_of<'a>(&mut self, texts: &[&'a str]) -> &'a str {
        let limit = u32::try_from(texts.len()).unwrap_or(u32::MAX);
        let index = self.below(limit) as usize;
        texts.get(index).copied().unwrap_or("")
    }
}
