//! The laxer copy of an answer's head: without the blanks before the first colon of each header line (RFC 7230, section
//! 3.2.4).
ghost use Rattle.std.specs.Prelude.{◌≡◌, ◌≤◌, [], ◌∷◌, ℕ, List, false, true, IfOk, IfErr, OnOk, length, take};
ghost use Rattle.httparse.specs.Ascii.{colon, line_feed};
ghost use Rattle.httparse.specs.Grammar.{is_ows};
ghost use Rattle.model_client.specs.LaxText.{without_blanks, unpadded};
ghost use Rattle.h1_decoder.specs.LaxCopy.{IsCopying, copy_with};

use bytes::Bytes;
use http_types::{NoMemory, ParseError};
use std::alloc::Global;
use std::marker::Model;

/// A copy in the making. Of a header line the bytes before its first colon are kept apart.
#[derive(Debug, Drop)]
struct LaxCopy {
    /// What is copied.
    text: Vec<u8>,

    /// The bytes of the line that is copied, as long as no colon has come.
    name: Vec<u8>,

    /// Whether the bytes are those of a header line before its colon.
    in_name: bool,
}

/// The piece without these blanks.
pub(crate) fn unpadded(alloc: Global, piece: &[u8]) -> Result<Bytes, ParseError>
    ensures copy { IfOk result (λ copy. copy ≡ unpadded piece.now) }
    ensures no_memory { IfErr result (λ e. e ≡ ParseError.NoMemory) }
{
    match copy_of(alloc, piece) {
        Ok(copy) => Ok(copy),
        Err(NoMemory) => Err(ParseError::NoMemory),
    }
}

fn copy_of(alloc: Global, piece: &[u8]) -> Result<Bytes, NoMemory>
    ensures { IfOk result (λ copy. copy ≡ unpadded piece.now) }
{
    let mut copy = LaxCopy {
        text: Vec::with_capacity(alloc, piece.len())?,
        name: Vec::new(alloc),
        in_name: false,
    };
    for byte in piece {
        copy.put(*byte)?;
    }
    copy.end()?;
    Ok(Bytes::copy_from_slice(alloc, &copy.text)?)
}

impl Model for LaxCopy {
    ghost use Rattle.h1_decoder.specs.LaxCopy.{Copying};

    ghost Value = { Copying };

    ghost view = { λ c. record { text = c.text.items; name = c.name.items; in_name = c.in_name } };
}

impl LaxCopy {
    /// Takes in one more byte.
    fn put(&mut self, byte: u8) -> Result<(), NoMemory>
        requires { IsCopying self.old }
        ensures copying { OnOk result (IsCopying self.new) }
        ensures on { OnOk result ((rest : List ℕ) → copy_with self.new rest ≡ copy_with self.old (byte ∷ rest)) }
    {
        match byte {
            _ if !self.in_name => self.put_plain(byte),
            b':' => self.put_colon(),
            b'\n' => self.put_feed(),
            _ => {
                self.name.push(byte)?;
                Ok(())
            }
        }
    }

    /// Copies what is kept apart: nothing follows.
    fn end(&mut self) -> Result<(), NoMemory>
        requires { IsCopying self.old }
        ensures { OnOk result (self.new.text ≡ copy_with self.old []) }
    {
        Ok(self.text.extend_from_slice(&self.name)?)
    }

    /// Takes in a byte of the first line, or one after a colon.
    fn put_plain(&mut self, byte: u8) -> Result<(), NoMemory>
        requires copying { IsCopying self.old }
        requires plain { self.old.in_name ≡ false }
        ensures copying { OnOk result (IsCopying self.new) }
        ensures on { OnOk result ((rest : List ℕ) → copy_with self.new rest ≡ copy_with self.old (byte ∷ rest)) }
    {
        self.text.push(byte)?;
        self.in_name = byte == b'\n';
        Ok(())
    }

    /// Takes in the first colon of a line.
    fn put_colon(&mut self) -> Result<(), NoMemory>
        requires copying { IsCopying self.old }
        requires in_name { self.old.in_name ≡ true }
        ensures copying { OnOk result (IsCopying self.new) }
        ensures on { OnOk result ((rest : List ℕ) → copy_with self.new rest ≡ copy_with self.old (colon ∷ rest)) }
    {
        let len = len_without_blanks(&self.name);
        self.text.extend_from_slice(&self.name[..len])?;
        self.text.push(b':')?;
        self.name.clear();
        self.in_name = false;
        Ok(())
    }

    /// Takes in the line feed of a line without a colon.
    fn put_feed(&mut self) -> Result<(), NoMemory>
        requires copying { IsCopying self.old }
        requires in_name { self.old.in_name ≡ true }
        ensures copying { OnOk result (IsCopying self.new) }
        ensures on { OnOk result ((rest : List ℕ) → copy_with self.new rest ≡ copy_with self.old (line_feed ∷ rest)) }
    {
        self.text.extend_from_slice(&self.name)?;
        self.text.push(b'\n')?;
        self.name.clear();
        Ok(())
    }
}

/// How many bytes are there without the blanks and tabs at the end.
fn len_without_blanks(bytes: &[u8]) -> usize
    ensures in_range { result ≤ length bytes.now }
    ensures cut { take result bytes.now ≡ without_blanks bytes.now }
{
    let mut len = 0;
    for at in 0..bytes.len() {
        if !is_blank(bytes[at]) {
            len = at + 1;
        }
    }
    len
}

fn is_blank(byte: u8) -> bool
    ensures { result ≡ is_ows byte }
{
    byte == b' ' || byte == b'\t'
}
