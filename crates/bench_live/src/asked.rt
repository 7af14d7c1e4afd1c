//! What the command line's words request.

/// A benchmark's name, the words after it, and whether it is to be small.
#[derive(Clone, Copy)]
pub struct Asked<'w> {
    pub name: &'w str,
    pub words: &'w [String],
    pub is_quick: bool,
}

impl Asked<'_> {
    /// The number at an index among the words; if none is there, that for this size.
    pub fn number(self, index: usize, full: u64, quick: u64) -> u64 {
        let otherwise = if self.is_quick { quick } else { full };
        match self.words.get(index) {
            Some(word) => word.as_str().parse::<u64>().unwrap_or(otherwise),
            None => otherwise,
        }
    }
}
