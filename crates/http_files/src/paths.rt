//! Where a target's file lies.
ghost use Rattle.std.specs.Prelude.{◌≡◌, ◌≢◌, ◌++◌, ◌⊎◌, [], ◌∷◌, List, ℕ, length, drop, true, false, IsSome, IfSome, IfOk, IfErr, OnOk, IsUtf8, IsTrue, ◌↔◌};
ghost use Rattle.std.specs.String.{string_bytes};
ghost use Rattle.percent_encoding.specs.Percent.{percent_decode};
ghost use Rattle.http_files.specs.Inside.{IsPlainName, dotted};
ghost use Rattle.http_files.specs.Names.{is_plain, says_nothing, fault_of, names_of, path_from, Says};
ghost use Rattle.http_files.specs.declared.error.PathError.TheVariants as path_error;

use crate::PathError;
use percent_encoding::{DecodeError, percent_decode};
use std::alloc::Global;
use std::marker::Model;

/// A folder whose files are served. Its path has at least one byte, so that no file's path begins with a slash because
/// nothing stands before it.
#[derive(Drop)]
pub struct Folder {
    path: String,
}

impl Model for Folder {
    ghost use Rattle.std.specs.Prelude.{◌≢◌, List, ℕ, []};
    ghost use Rattle.std.specs.String.{string_bytes};

    ghost Value = { List ℕ };

    ghost view = { λ f. string_bytes f.path };

    ghost invariant = { λ f. string_bytes f.path ≢ [] };
}

/// The path of a file, or of a folder, that lies in a folder: the folder's path, and then plain names, each after a slash.
/// None is empty, `.` or `..`, none has a slash or a NUL byte. It says nothing of symbolic links: one in the folder may lead
/// outside.
#[derive(Drop)]
pub struct FilePath {
    text: String,

    // How many bytes of it are the folder's.
    folder: usize,
}

impl Model for FilePath {
    ghost use Rattle.std.specs.Prelude.{◌≤◌, length, take};
    ghost use Rattle.std.specs.String.{string_bytes};
    ghost use Rattle.http_files.specs.Inside.{Placed, IsInside};

    ghost Value = { Placed };

    ghost view = { λ p. record { folder = take p.folder (string_bytes p.text); text = string_bytes p.text } };

    ghost invariant = { λ p. (p.folder ≤ length (string_bytes p.text)) × IsInside (take p.folder (string_bytes p.text)) (string_bytes p.text) };
}

impl Folder {
    /// The folder of this path, which may not be empty.
    pub fn new(path: String) -> Option<Folder>
        ensures some { IsSome result ↔ (string_bytes path ≢ []) }
        ensures path { IfSome result (λ folder. folder ≡ string_bytes path) }
    {
        if path.is_empty() {
            return None;
        }
        Some(Folder { path })
    }

    /// Its path.
    pub fn as_str(&self) -> &str
        ensures { result.now ≡ self.now }
    {
        self.path.as_str()
    }

    /// The path of the file that a target's path names, which has its escapes (RFC 3986, section 2.1): that of its names,
    /// of which empty ones and `.` say nothing.
    ///
    /// `Malformed` where it is no text or the first name that isn't plain has a NUL byte or a slash, `Outside` where that
    /// is `..`, and `NoMemory`.
    pub fn file(&self, alloc: Global, target: &str) -> Result<FilePath, PathError>
        ensures value { IsUtf8 (percent_decode target.now) → Says (path_from self.now (names_of (percent_decode target.now))) result self.now }
        ensures no_text { ¬ IsUtf8 (percent_decode target.now) → IfErr result (λ e. (e ≡ path_error.Malformed) ⊎ (e ≡ path_error.NoMemory)) }
        ensures text { OnOk result (IsUtf8 (percent_decode target.now)) }
    {
        let decoded = match percent_decode(target.as_bytes()).decode_utf8(alloc) {
            Ok(decoded) => decoded,
            Err(DecodeError::Utf8(_)) => return Err(PathError::Malformed),
            Err(DecodeError::OutOfMemory) => return Err(PathError::NoMemory),
        };
        self.place(alloc, decoded.as_str())
    }

    // The path of the file that a text without escapes names.
    fn place(&self, alloc: Global, text: &str) -> Result<FilePath, PathError>
        ensures { Says (path_from self.now (names_of text.now)) result self.now }
    {
        let mut path = String::from_str(alloc, &self.path)?;
        for name in text.split('/').filter(|name| !says_nothing(name)) {
            append_name(&mut path, name)?;
        }
        Ok(FilePath {
            text: path,
            folder: self.path.len(),
        })
    }
}

impl FilePath {
    /// Its text.
    pub fn as_str(&self) -> &str
        ensures { result.now ≡ self.now.text }
    {
        self.text.as_str()
    }

    /// The path of this name in the folder that this path names.
    ///
    /// `Outside` where the name is `..`, `Malformed` where else it isn't plain, and `NoMemory`.
    pub fn child(&self, name: &str) -> Result<FilePath, PathError>
        ensures ok { IfOk result (λ child. (is_plain name.now ≡ true) × (child.text ≡ self.now.text ++ 47 ∷ name.now) × (child.folder ≡ self.now.folder)) }
        ensures err { IfErr result (λ e. (e ≡ path_error.NoMemory) ⊎ ((is_plain name.now ≡ false) × (e ≡ fault_of name.now))) }
    {
        let mut text = self.text.clone()?;
        append_name(&mut text, name)?;
        Ok(FilePath {
            text,
            folder: self.folder,
        })
    }

    /// Whether one of its names begins with a dot, as those of files do that a listing doesn't show.
    pub fn is_hidden(&self) -> bool
        ensures { result ≡ dotted 0 (drop (length self.now.folder) self.now.text) }
    {
        has_dotted(&self.text.as_bytes()[self.folder..])
    }
}

// Whether a slash stands right before a dot.
fn has_dotted(text: &[u8]) -> bool
    ensures { result ≡ dotted 0 text.now }
{
    let mut previous = 0;
    for byte in text {
        if previous == b'/' && *byte == b'.' {
            return true;
        }
        previous = *byte;
    }
    false
}

// Appends a slash and a name, which has to be plain.
fn append_name(path: &mut String, name: &str) -> Result<(), PathError>
    ensures ok { OnOk result ((is_plain name.now ≡ true) × (string_bytes path.new ≡ string_bytes path.old ++ 47 ∷ name.now)) }
    ensures plain { OnOk result (IsPlainName name.now) }
    ensures err { IfErr result (λ e. (e ≡ path_error.NoMemory) ⊎ ((is_plain name.now ≡ false) × (e ≡ fault_of name.now))) }
{
    if !is_plain(name) {
        return Err(fault_of(name));
    }
    path.push_str("/")?;
    path.push_str(name)?;
    Ok(())
}

// Whether it is a plain name.
fn is_plain(name: &str) -> bool
    ensures value { result ≡ is_plain name.now }
    ensures plain { IsTrue result → IsPlainName name.now }
{
    let bytes = name.as_bytes();
    !says_nothing(name) && name != ".." && !bytes.contains(&b'/') && !bytes.contains(&0)
}

// Whether it is a name that says nothing.
fn says_nothing(name: &str) -> bool
    ensures { result ≡ says_nothing name.now }
{
    name.is_empty() || name == "."
}

// Why a name isn't served.
fn fault_of(name: &str) -> PathError
    ensures { result ≡ fault_of name.now }
{
    if name == ".." {
        PathError::Outside
    } else {
        PathError::Malformed
    }
}
