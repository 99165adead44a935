//! The text of a trailer section, as far as it has come.
ghost use Rattle.std.specs.Prelude.{◌≡◌, ◌++◌, ◌==◌, [], length, IsOk, IfOk, OnOk, OnErr};
ghost use Rattle.httparse.specs.Ascii.{crlf_bytes};

use bytes::Bytes;
use http_map::NoMemory;
use std::alloc::{AllocError, Global};
use std::marker::Model;

/// The text of the trailer lines so far, each with its line end. A clause sees it as the list of its bytes.
#[derive(Debug, Drop)]
pub(crate) struct Section {
    text: Option<Vec<u8>>,
}

impl Model for Section {
    ghost use Rattle.std.specs.Prelude.{ℕ, List, [], option_map, unwrap_or};

    ghost Value = { List ℕ };

    ghost view = { λ section. unwrap_or (option_map (λ text. text.items) section.text) [] };
}

impl Section {
    /// No text, and no memory taken.
    pub(crate) fn new() -> Section
        ensures { result ≡ [] }
    {
        Section { text: None }
    }

    /// The bytes so far.
    pub(crate) fn as_slice(&self) -> &[u8]
        ensures { result.now ≡ self.now }
    {
        match &self.text {
            Some(text) => text.as_slice(),
            None => &[],
        }
    }

    /// The same text.
    pub(crate) fn copy(&self) -> Result<Section, NoMemory>
        ensures { IfOk result (λ copy. copy ≡ self.now) }
    {
        let text = match &self.text {
            Some(text) => Some(text.clone()?),
            None => None,
        };
        Ok(Section { text })
    }

    /// Adds bytes, or changes nothing.
    pub(crate) fn append(&mut self, alloc: Global, bytes: &[u8]) -> Result<(), NoMemory>
        ensures ok { OnOk result (self.new ≡ self.old ++ bytes.now) }
        ensures err { OnErr result (self.new ≡ self.old) }
        ensures no_memory_needed { bytes.now ≡ [] → IsOk result }
    {
        if bytes.is_empty() {
            return Ok(());
        }
        match &mut self.text {
            Some(text) => text.extend_from_slice(bytes),
            None => {
                self.text = Some(Vec::from_slice(alloc, bytes)?);
                Ok(())
            }
        }
    }
}

/// The text of a section that came in two parts, and the empty line after it.
pub(crate) fn whole_text(alloc: Global, kept: &[u8], more: &[u8]) -> Result<Bytes, NoMemory>
    ensures { IfOk result (λ text. text ≡ (kept.now ++ more.now) ++ crlf_bytes) }
{
    let len = kept.len().saturating_add(more.len()).saturating_add(2);
    let mut text = Vec::with_capacity(alloc, len)?;
    text.extend_from_slice(kept)?;
    text.extend_from_slice(more)?;
    text.extend_from_slice(b"\r\n")?;
    match Bytes::from_vec(text) {
        Ok(text) => Ok(text),
        Err(_) => Err(AllocError),
    }
}
