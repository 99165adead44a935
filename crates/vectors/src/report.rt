//! What a player writes.
ghost use Rattle.std.specs.Prelude.{◌<◌};

use http_types::{HeaderMap, NoMemory};
use std::alloc::{AllocError, Global};
use std::fmt::Display;

/// A text that is written piece by piece. No call fails: the report keeps in mind that memory ran out, and tells whoever
/// reads it.
#[derive(Drop)]
pub struct Report {
    bytes: Vec<u8>,

    // Memory ran out for a part of it.
    is_short: bool,
}

impl Report {
    /// An empty report.
    pub fn new(alloc: Global) -> Report {
        Report {
            bytes: Vec::new(alloc),
            is_short: false,
        }
    }

    /// Its bytes, unless memory ran out for a part of it.
    pub fn whole(&self) -> Result<&[u8], NoMemory> {
        if self.is_short {
            return Err(AllocError);
        }
        Ok(self.bytes.as_slice())
    }

    /// The bytes that there was memory for.
    pub fn so_far(&self) -> &[u8] {
        self.bytes.as_slice()
    }

    /// Whether it has none.
    pub fn is_empty(&self) -> bool {
        self.bytes.is_empty()
    }

    /// Forgets its bytes, but not that memory ran out.
    pub fn clear(&mut self) {
        self.bytes.clear();
    }

    /// Drops a blank at its end.
    pub fn trim_end(&mut self) {
        if self.bytes.last() == Some(&b' ') {
            self.bytes.pop();
        }
    }

    /// Memory ran out for something that belongs in it.
    pub fn lose(&mut self) {
        self.is_short = true;
    }

    /// Puts one byte after the others.
    pub fn put(&mut self, byte: u8) {
        if self.bytes.push(byte).is_err() {
            self.is_short = true;
        }
    }

    /// Puts bytes after the others, as they are.
    pub fn put_all(&mut self, bytes: &[u8]) {
        if self.bytes.extend_from_slice(bytes).is_err() {
            self.is_short = true;
        }
    }

    /// Puts a text after the others.
    pub fn put_text(&mut self, text: &str) {
        self.put_all(text.as_bytes());
    }

    /// Puts a number, in decimal digits.
    pub fn put_decimal(&mut self, number: u64) {
        self.put_text(itoa::Buffer::new().format(number));
    }

    /// Puts the text that the value prints.
    pub fn put_printed<T: Display>(&mut self, alloc: Global, value: &T) {
        match value.to_string(alloc) {
            Ok(text) => self.put_text(text.as_str()),
            Err(_) => self.lose(),
        }
    }

    /// Puts the text that the value prints, in double quotes.
    pub fn quote_printed<T: Display>(&mut self, alloc: Global, value: &T) {
        match value.to_string(alloc) {
            Ok(text) => self.put_quoted(text.as_bytes()),
            Err(_) => self.lose(),
        }
    }

    /// Puts each field of a head: a blank, the name, `=`, and the value in double quotes.
    pub fn put_fields(&mut self, fields: &HeaderMap) {
        for (name, value) in fields {
            self.put_field(name.as_str(), value.as_bytes());
        }
    }

    /// Puts a field: a blank, the name, `=`, and the value in double quotes.
    pub fn put_field(&mut self, name: &str, value: &[u8]) {
        self.put_text(" ");
        self.put_text(name);
        self.put_text("=");
        self.put_quoted(value);
    }

    /// Takes over that memory ran out for a part of another report, if it did.
    pub fn heed(&mut self, other: &Report) {
        self.is_short = self.is_short || other.is_short;
    }

    /// Puts what another report has, and heeds it.
    pub fn put_report(&mut self, other: &Report) {
        self.put_all(other.bytes.as_slice());
        self.heed(other);
    }

    /// Puts what another report has in double quotes, and heeds it.
    pub fn quote_report(&mut self, other: &Report) {
        self.put_quoted(other.bytes.as_slice());
        self.heed(other);
    }

    /// Compares this report, which is of a value, with that of the value's copy, and puts that it is another where it is.
    pub fn compare_copy(&mut self, copy: &Report) {
        self.heed(copy);
        if self.bytes.as_slice() != copy.bytes.as_slice() {
            self.put_text(" and another copy");
        }
    }

    /// Loses what was to be done where there was no memory for it.
    pub fn need(&mut self, done: Result<(), NoMemory>) {
        if done.is_err() {
            self.lose();
        }
    }

    /// Puts `done`, unless memory ran out for what was to be done.
    pub fn put_done(&mut self, done: Result<(), NoMemory>) {
        match done {
            Ok(()) => self.put_text("done"),
            Err(_) => self.lose(),
        }
    }

    /// Puts bytes in double quotes, in the form in which vectors are written.
    pub fn put_quoted(&mut self, bytes: &[u8]) {
        self.put(b'"');
        for byte in bytes {
            self.put_escaped(*byte);
        }
        self.put(b'"');
    }

    // Puts a byte that stands in double quotes.
    fn put_escaped(&mut self, byte: u8) {
        match byte {
            b'\r' => self.put_all(b"\\r"),
            b'\n' => self.put_all(b"\\n"),
            b'\t' => self.put_all(b"\\t"),
            b'\\' => self.put_all(b"\\\\"),
            b'"' => self.put_all(b"\\\""),
            b' '..=b'~' => self.put(byte),
            _ => {
                self.put_all(b"\\x");
                self.put(hex_digit(byte / 16));
                self.put(hex_digit(byte % 16));
            }
        }
    }
}

fn hex_digit(value: u8) -> u8
    requires is_digit { value < 16 }
{
    if value < 10 {
        b'0' + value
    } else {
        b'a' + (value - 10)
    }
}
