//! Media types.
ghost use Rattle.std.specs.Prelude.{◌≡◌, ◌↔◌, ◌∷◌, [], ◌≤◌, ℕ, List, IsTrue, Some, MatchOption, IfOk, IfErr, IsErrOf, length, map, string_bytes};
ghost use Rattle.std.specs.List.{prefix_len};
ghost use Rattle.std.specs.Str.{IsAscii};
ghost use Rattle.http_header.specs.FieldValue.{FieldValue, plain_value};
ghost use Rattle.http_values.specs.MediaType.{IsMimeText, IsSomeMime};
ghost use Rattle.http_values.specs.MediaTypeCuts.{in_class, IsRun, IsTokenCut, IsValueCut, IsParameterCut, AreParameters, IsEssenceCut};
ghost use Rattle.http_values.specs.Mime.{HasNoName, IsFirstValue, pair_of, pairs_of};
ghost use Rattle.http_values.specs.MimeValue.{mime_text, SaysMime, SameMime};

use crate::read::{FromText, ReadError};
use http_header::is_token_char;
use http_types::HeaderValue;
use http_types::header::{TryIntoHeaderValue, ValueError};
use std::alloc::{AllocError, Global};
use std::{fmt, str};

/// A media type (RFC 7231, section 3.1.1.1) in a profile: the value of a parameter is a token, or
/// printable ASCII without `"` and `\` between quotes. It prints as it was read.
#[derive(Debug, Drop)]
pub struct Mime {
    text: String,
    kind: String,
    subtype: String,
    params: Vec<Parameter>,
}

// A parameter as it was read: its name, and its value without the quotes.
#[derive(Debug, Drop)]
pub(crate) struct Parameter {
    name: String,
    value: String,
}

impl Clone for Parameter {
    ghost is_clone = { λ p copy. pair_of copy ≡ pair_of p };

    fn clone(&self) -> Result<Parameter, AllocError> {
        Ok(Parameter {
            name: self.name.clone()?,
            value: self.value.clone()?,
        })
    }
}

// A class of bytes.
#[derive(Clone, Copy)]
pub(crate) enum Class {
    // Those of a token.
    Token,
    // The blank.
    Blank,
    // Those that may stand between quotes.
    Quotable,
}

#[tactic(auto, using(std::proofs::lemmas::Bool::Decides::nat_tests))]
fn is_of(class: Class, b: u8) -> bool
    ensures { result ≡ in_class class b }
{
    match class {
        Class::Token => is_token_char(b),
        Class::Blank => b == b' ',
        Class::Quotable => 32 <= b && b <= 126 && b != b'"' && b != b'\\',
    }
}

// How many bytes of the class the text begins with.
fn run_len(class: Class, text: &[u8]) -> usize
    ensures value { result ≡ prefix_len (in_class class) text.now }
    ensures bound { result ≤ length text.now }
{
    let mut n = 0;
    while n < text.len() && is_of(class, text[n]) {
        n += 1;
    }
    n
}

// Those bytes, and what follows.
fn cut_run(class: Class, text: &[u8]) -> (&[u8], &[u8])
    ensures { IsRun class text.now result.0.now result.1.now }
{
    let n = run_len(class, text);
    (&text[..n], &text[n..])
}

fn cut_token(text: &[u8]) -> Option<(&[u8], &[u8])>
    ensures { MatchOption result ((token rest : List ℕ) → ¬ (IsTokenCut text.now token rest)) (λ x. IsTokenCut text.now x.0.now x.1.now) }
{
    let (token, rest) = cut_run(Class::Token, text);
    if token.is_empty() {
        return None;
    }
    Some((token, rest))
}

// What follows the byte, where the text begins with it.
fn after(byte: u8, text: &[u8]) -> Option<&[u8]>
    ensures { MatchOption result ((rest : List ℕ) → ¬ (text.now ≡ byte ∷ rest)) (λ rest. text.now ≡ byte ∷ rest.now) }
{
    match text {
        [first, rest @ ..] if *first == byte => Some(rest),
        _ => None,
    }
}

fn cut_value(text: &[u8]) -> Option<(&[u8], &[u8])>
    ensures { MatchOption result ((value rest : List ℕ) → ¬ (IsValueCut text.now value rest)) (λ x. IsValueCut text.now x.0.now x.1.now) }
{
    let Some(inner) = after(b'"', text) else {
        return cut_token(text);
    };
    let (value, rest) = cut_run(Class::Quotable, inner);
    let Some(rest) = after(b'"', rest) else {
        return None;
    };
    Some((value, rest))
}

fn cut_parameter(text: &[u8]) -> Option<(&[u8], &[u8], &[u8])>
    ensures { MatchOption result ((name value rest : List ℕ) → ¬ (IsParameterCut text.now name value rest)) (λ x. IsParameterCut text.now x.0.now x.1.now x.2.now) }
{
    let (_, rest) = cut_run(Class::Blank, text);
    let Some(behind) = after(b';', rest) else {
        return None;
    };
    let (_, named) = cut_run(Class::Blank, behind);
    let Some((name, rest)) = cut_token(named) else {
        return None;
    };
    let Some(valued) = after(b'=', rest) else {
        return None;
    };
    let Some((value, rest)) = cut_value(valued) else {
        return None;
    };
    Some((name, value, rest))
}

fn cut_essence(text: &[u8]) -> Option<(&[u8], &[u8], &[u8])>
    ensures { MatchOption result ((kind subtype rest : List ℕ) → ¬ (IsEssenceCut text.now kind subtype rest)) (λ x. IsEssenceCut text.now x.0.now x.1.now x.2.now) }
{
    let Some((kind, rest)) = cut_token(text) else {
        return None;
    };
    let Some(behind) = after(b'/', rest) else {
        return None;
    };
    let Some((subtype, rest)) = cut_token(behind) else {
        return None;
    };
    Some((kind, subtype, rest))
}

// A copy of an ASCII text.
fn owned(alloc: Global, bytes: &[u8]) -> Result<String, ReadError>
    requires ascii { IsAscii bytes.now }
    ensures ok { IfOk result (λ text. string_bytes text ≡ bytes.now) }
    ensures err { IfErr result (λ e. e ≡ ReadError.NoMemory) }
{
    match str::from_utf8(bytes) {
        Ok(text) => Ok(String::from_str(alloc, text)?),
        Err(_) => Err(ReadError::NoMemory),
    }
}

// Whether the text is that of parameters.
fn are_parameters(text: &[u8]) -> bool
    ensures { IsTrue result ↔ ((params : List (List ℕ × List ℕ)) × AreParameters text.now params) }
{
    let mut rest = text;
    while !rest.is_empty() {
        let Some((_, _, behind)) = cut_parameter(rest) else {
            return false;
        };
        rest = behind;
    }
    true
}

// The parameters of the text. Where memory ran out, it is not known whether the text is that of parameters.
fn read_parameters(alloc: Global, text: &[u8]) -> Result<Vec<Parameter>, ReadError>
    ensures ok { IfOk result (λ params. AreParameters text.now (pairs_of params.items)) }
    ensures invalid { IsErrOf result ReadError.Invalid → ¬ ((params : List (List ℕ × List ℕ)) × AreParameters text.now params) }
{
    let mut params = Vec::new(alloc);
    let mut rest = text;
    while !rest.is_empty() {
        let Some((name, value, behind)) = cut_parameter(rest) else {
            return Err(ReadError::Invalid);
        };
        let Ok(name) = owned(alloc, name) else {
            return Err(ReadError::NoMemory);
        };
        let Ok(value) = owned(alloc, value) else {
            return Err(ReadError::NoMemory);
        };
        if params.push(Parameter { name, value }).is_err() {
            return Err(ReadError::NoMemory);
        }
        rest = behind;
    }
    Ok(params)
}

// The parameters of the text. It is read a second time only where memory ran out.
fn parameters_of(alloc: Global, text: &[u8]) -> Result<Vec<Parameter>, ReadError>
    ensures ok { IfOk result (λ params. AreParameters text.now (pairs_of params.items)) }
    ensures invalid { IsErrOf result ReadError.Invalid ↔ ¬ ((params : List (List ℕ × List ℕ)) × AreParameters text.now params) }
{
    match read_parameters(alloc, text) {
        Ok(params) => Ok(params),
        Err(ReadError::Invalid) => Err(ReadError::Invalid),
        Err(ReadError::NoMemory) if are_parameters(text) => Err(ReadError::NoMemory),
        Err(ReadError::NoMemory) => Err(ReadError::Invalid),
    }
}

// Equal parameters.
fn copied(params: &Vec<Parameter>) -> Result<Vec<Parameter>, AllocError>
    ensures { IfOk result (λ copy. pairs_of copy.items ≡ pairs_of params.now.items) }
{
    let copies = params.clone()?;
    Ok(copies)
}

impl Mime {
    /// An equal media type, of the same text, as `clone` gives it too.
    pub fn copy(&self) -> Result<Mime, AllocError>
        ensures { IfOk result (λ copy. SameMime self.now copy) }
    {
        Ok(Mime {
            text: self.text.clone()?,
            kind: self.kind.clone()?,
            subtype: self.subtype.clone()?,
            params: copied(&self.params)?,
        })
    }

    /// The type.
    pub fn type_(&self) -> &str
        ensures { result.now ≡ string_bytes self.now.kind }
    {
        self.kind.as_str()
    }

    /// The subtype.
    pub fn subtype(&self) -> &str
        ensures { result.now ≡ string_bytes self.now.subtype }
    {
        self.subtype.as_str()
    }

    /// The value of the first parameter of the name, in either case, without its quotes.
    pub fn get_param(&self, name: &str) -> Option<&str>
        ensures { MatchOption result (HasNoName name.now (pairs_of self.now.params.items)) (λ value. IsFirstValue name.now (pairs_of self.now.params.items) value.now) }
    {
        for param in self.params.iter() {
            if param.name.eq_ignore_ascii_case(name) {
                return Some(param.value.as_str());
            }
        }
        None
    }

    /// The text that was read.
    pub fn as_str(&self) -> &str
        ensures { result.now ≡ mime_text self.now }
    {
        self.text.as_str()
    }
}

impl Clone for Mime {
    ghost is_clone = { λ mime copy. SameMime mime copy };

    fn clone(&self) -> Result<Mime, AllocError> {
        self.copy()
    }
}

impl FromText for Mime {
    ghost reads = { SaysMime };

    ghost is_text = { IsSomeMime };

    /// Reads a media type and keeps its text.
    fn from_text(alloc: Global, s: &str) -> Result<Mime, ReadError> {
        let Some((kind, subtype, rest)) = cut_essence(s.as_bytes()) else {
            return Err(ReadError::Invalid);
        };
        let params = match parameters_of(alloc, rest) {
            Ok(params) => params,
            Err(error) => return Err(error),
        };
        let Ok(kind) = owned(alloc, kind) else {
            return Err(ReadError::NoMemory);
        };
        let Ok(subtype) = owned(alloc, subtype) else {
            return Err(ReadError::NoMemory);
        };
        let Ok(text) = String::from_str(alloc, s) else {
            return Err(ReadError::NoMemory);
        };
        Ok(Mime {
            text,
            kind,
            subtype,
            params,
        })
    }
}

impl fmt::Display for Mime {
    ghost output = { λ m. Some (mime_text m) };

    fn fmt<W: fmt::Write>(&self, f: &mut fmt::Formatter<W>) -> fmt::Result {
        f.write_str(self.text.as_str())
    }
}

impl TryIntoHeaderValue for Mime {
    ghost field_value = { λ m. plain_value (mime_text m) };

    /// The text that was read, without a copy.
    fn try_into_value(self, alloc: Global) -> Result<HeaderValue, ValueError> {
        let Mime {
            text,
            kind: _,
            subtype: _,
            params: _,
        } = self;
        text.try_into_value(alloc)
    }
}

/// A text is that of one type, one subtype and one list of parameters at most.
pub fn mime_is_unique()
    ensures { (text kind subtype kind' subtype' : List ℕ) (ps qs : List (List ℕ × List ℕ)) → IsMimeText text kind subtype ps → IsMimeText text kind' subtype' qs
        → (kind ≡ kind') × (subtype ≡ subtype') × (ps ≡ qs) }
{}
