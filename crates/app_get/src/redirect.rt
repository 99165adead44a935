//! Where a redirect leads, and what is asked there.
ghost use Rattle.std.specs.Prelude.{◌≡◌, ◌⊎◌, None, Ok, Some, true, false, IsErr, IfOk, IfErr};
ghost use Rattle.url.specs.Parser.{parse_url};
ghost use Rattle.app_get.specs.Redirects.{is_redirect, turns_to_get, is_same_place, IsHop, hop_method};
ghost use Rattle.app_get.specs.Following.{NamesNone};

use crate::error::GetError;
use crate::target::Target;
use http_types::HeaderValue;
use std::alloc::Global;
use url::{ParseError, Url};

/// What redirects have changed of a request.
#[derive(Clone, Copy)]
pub struct Hop {
    /// It is asked by GET, and without a body.
    pub by_get: bool,

    /// It goes, or went, to another host or port than the first.
    pub is_foreign: bool,
}

impl Hop {
    /// No redirect has come.
    pub fn first() -> Hop
        ensures { (result.by_get ≡ false) × (result.is_foreign ≡ false) }
    {
        Hop {
            by_get: false,
            is_foreign: false,
        }
    }

    /// After a redirect of this status, which answered this method.
    pub fn after(self, status: u16, method: &[u8], is_same: bool) -> Hop
        ensures { IsHop self status method.now is_same result }
    {
        Hop {
            by_get: self.by_get || turns_to_get(status, method),
            is_foreign: self.is_foreign || !is_same,
        }
    }

    /// The method, where the first one was this.
    pub fn method<'a>(self, first: &'a [u8]) -> &'a [u8]
        ensures { result.now ≡ hop_method self first.now }
    {
        if self.by_get { b"GET" } else { first }
    }
}

/// Whether such an answer is a redirect that may be followed (RFC 9110, section 15.4).
pub fn is_redirect(status: u16) -> bool
    ensures { result ≡ is_redirect status }
{
    status == 301 || status == 302 || status == 303 || status == 307 || status == 308
}

fn turns_to_get(status: u16, method: &[u8]) -> bool
    ensures { result ≡ turns_to_get status method.now }
{
    (status == 303 && !(method == b"HEAD".as_slice()))
        || ((status == 301 || status == 302) && method == b"POST".as_slice())
}

/// Whether both lead to the same port of the same host.
pub fn is_same_place(old: &Target, new: &Target) -> bool
    ensures { result ≡ is_same_place old.now new.now }
{
    old.port == new.port && old.named_host() == new.named_host()
}

/// Reads a URL that the user names. What a URL can't hold is escaped, as the URL Standard has it.
pub fn read_url(alloc: Global, text: &str) -> Result<Url, GetError>
    ensures ok { IfOk result (λ url. parse_url None text.now ≡ Ok url) }
    ensures err { IfErr result (λ error. (error ≡ GetError.NoMemory) ⊎ ((error ≡ GetError.Url) × IsErr (parse_url None text.now))) }
{
    match Url::parse(alloc, text) {
        Ok(url) => Ok(url),
        Err(ParseError::OutOfMemory) => Err(GetError::NoMemory),
        Err(ParseError::Overflow) => Err(GetError::NoMemory),
        Err(_) => Err(GetError::Url),
    }
}

/// The URL that a Location names, beside the URL that was asked for (RFC 3986, section 5.2, as the URL Standard has it).
pub fn resolve(base: &Url, location: &HeaderValue) -> Result<Url, GetError>
    ensures ok { IfOk result (λ url. parse_url (Some base.now) location.now.bytes ≡ Ok url) }
    ensures err { IfErr result (λ error. (error ≡ GetError.NoMemory) ⊎ ((error ≡ GetError.Location) × NamesNone base.now (Some location.now))) }
{
    let Ok(text) = location.to_str() else {
        return Err(GetError::Location);
    };
    match base.join(text) {
        Ok(url) => Ok(url),
        Err(ParseError::OutOfMemory) => Err(GetError::NoMemory),
        Err(ParseError::Overflow) => Err(GetError::NoMemory),
        Err(_) => Err(GetError::Location),
    }
}
