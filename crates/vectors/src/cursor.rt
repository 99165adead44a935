//! A line that is read from its front.

/// What is left of a line.
#[derive(Clone, Copy, Drop)]
pub struct Cursor<'a> {
    rest: &'a [u8],
}

impl<'a> Cursor<'a> {
    /// The line from its first byte on.
    pub fn new(line: &'a [u8]) -> Cursor<'a> {
        Cursor { rest: line }
    }

    /// What is left.
    pub fn rest(&self) -> &'a [u8] {
        self.rest
    }

    /// The next byte, which stays.
    pub fn peek(&self) -> Option<u8> {
        self.rest.first().copied()
    }

    /// The next byte.
    pub fn next(&mut self) -> Option<u8> {
        let (first, others) = self.rest.split_first()?;
        self.rest = others;
        Some(*first)
    }

    /// Passes the byte where it is the next one, and says whether it was.
    pub fn passes(&mut self, byte: u8) -> bool {
        if self.peek() != Some(byte) {
            return false;
        }
        self.next();
        true
    }

    /// Passes blanks.
    pub fn pass_blanks(&mut self) {
        for _ in 0..self.rest.len() {
            if !self.passes(b' ') {
                return;
            }
        }
    }

    /// The bytes up to the next blank or the end.
    pub fn word(&mut self) -> &'a [u8] {
        let all = self.rest;
        for place in 0..all.len() {
            if all[place] == b' ' {
                self.rest = &all[place..];
                return &all[..place];
            }
        }
        self.rest = &all[all.len()..];
        all
    }

    /// A number in decimal digits, where one stands next and fits.
    pub fn number(&mut self) -> Option<usize> {
        let mut value: Option<usize> = None;
        for _ in 0..self.rest.len() {
            match self.peek() {
                Some(digit) if digit.is_ascii_digit() => {
                    let so_far = value.unwrap_or(0);
                    value = Some(
                        so_far
                            .checked_mul(10)?
                            .checked_add(usize::from(digit - b'0'))?,
                    );
                    self.next();
                }
                _ => return value,
            }
        }
        value
    }
}
