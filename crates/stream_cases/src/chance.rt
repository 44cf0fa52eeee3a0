//! Numbers that look like chance.

/// Numbers that look like chance, each made of the one before.
#[derive(Clone, Copy)]
pub(crate) struct Chance {
    pub(crate) state: u64,
}

impl Chance {
    /// The next number.
    pub(crate) fn next(&mut self) -> u64 {
        self.state = self
            .state
            .wrapping_mul(6364136223846793005)
            .wrapping_add(1442695040888963407);
        self.state >> 33
    }

    /// Whether one of so many comes; 0 is taken for 1.
    pub(crate) fn is_one_of(&mut self, count: u64) -> bool {
        self.next() % count.max(1) == 0
    }

    /// One of these words.
    pub(crate) fn word(&mut self, words: &[&'static str]) -> &'static str {
        let count = (words.len() as u64).max(1);
        let place = (self.next() % count) as usize;
        words.get(place).copied().unwrap_or("")
    }
}
