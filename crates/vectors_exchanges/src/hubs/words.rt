//! Words that are read one after the other.
use vectors::Cursor;

/// What is left of the words of a case.
#[derive(Drop)]
pub struct Words<'a> {
    rest: &'a [Vec<u8>],
}

impl<'a> Words<'a> {
    /// The words from the first one on.
    pub fn new(words: &'a [Vec<u8>]) -> Words<'a> {
        Words { rest: words }
    }

    /// The next word.
    pub fn next(&mut self) -> Option<&'a [u8]> {
        let (first, others) = self.rest.split_first()?;
        self.rest = others;
        Some(first.as_slice())
    }

    /// The next word as a number in decimal digits.
    pub fn number(&mut self) -> Option<usize> {
        let word = self.next()?;
        let mut digits = Cursor::new(word);
        let value = digits.number()?;
        if digits.peek().is_some() {
            return None;
        }
        Some(value)
    }
}
