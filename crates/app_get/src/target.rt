//! Where a URL leads.
ghost use Rattle.std.specs.Prelude.{◌≡◌, IfOk, IfErr};
ghost use Rattle.url.specs.Parts.{has_credentials};
ghost use Rattle.app_get.specs.Heads.{target_authority};
ghost use Rattle.app_get.specs.Places.{target_host, IsTargetOf, IsNoTarget};

use crate::error::GetError;
use http_types::Uri;
use http_uri::UriError;
use std::alloc::Global;
use url::Url;

/// The port of HTTP.
const HTTP_PORT: u16 = 80;

/// Where a URL leads.
#[derive(Drop)]
pub struct Target {
    pub uri: Uri,
    pub port: u16,
}

impl Target {
    /// Of a URL of the scheme http that names no user.
    pub fn of(alloc: Global, url: &Url) -> Result<Target, GetError>
        ensures ok { IfOk result (IsTargetOf url.now) }
        ensures err { IfErr result (IsNoTarget url.now) }
    {
        if url.scheme() != "http" {
            return Err(GetError::Scheme);
        }
        if has_user(url) {
            return Err(GetError::User);
        }
        match Uri::from_str(alloc, url.as_str()) {
            Ok(uri) => Ok(Target {
                uri,
                port: url.port().unwrap_or(HTTP_PORT),
            }),
            Err(UriError::OutOfMemory) => Err(GetError::NoMemory),
            Err(_) => Err(GetError::Url),
        }
    }

    /// The host, an address of IPv6 without its brackets.
    pub fn host(&self) -> &str {
        bare(self.named_host())
    }

    /// The host as the URL names it, an address of IPv6 in its brackets.
    pub fn named_host(&self) -> &str
        ensures { result.now ≡ target_host self.now }
    {
        match self.uri.host() {
            Some(host) => host,
            None => "",
        }
    }

    /// The host and, where the URL names it, the port.
    pub fn authority(&self) -> &str
        ensures { result.now ≡ target_authority self.now }
    {
        match self.uri.authority() {
            Some(authority) => authority.as_str(),
            None => "",
        }
    }
}

// Whether a URL names a user or a password.
fn has_user(url: &Url) -> bool
    ensures { result ≡ has_credentials url.now }
{
    !url.username().is_empty() || url.password().is_some()
}

fn bare(host: &str) -> &str {
    match host.strip_prefix('[') {
        Some(rest) => rest.strip_suffix(']').unwrap_or(rest),
        None => host,
    }
}
