//! What the command line's words request.

/// The words after a benchmark's name, and whether it is to be small.
#[derive(Clone, Copy)]
pub struct Asked<'w> {
    pub words: &'w [String],
    pub is_quick: bool,
}

impl<'w> Asked<'w> {
    /// The number for this size.
    pub fn choose(self, full: u64, quick: u64) -> u64 {
        if self.is_quick { quick } else { full }
    }

    /// The number at an index among the words; if none is there, that for this size.
    pub fn number(self, index: usize, full: u64, quick: u64) -> u64 {
        let otherwise = self.choose(full, quick);
        match self.words.get(index) {
            Some(word) => word.as_str().parse::<u64>().unwrap_or(otherwise),
            None => otherwise,
        }
    }

    /// The word at an index.
    pub fn word(self, index: usize) -> Option<&'w str> {
        Some(self.words.get(index)?.as_str())
    }
}
