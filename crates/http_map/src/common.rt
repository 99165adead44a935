//! The header names that actix-http defines beside the standard ones.
ghost use Rattle.std.specs.Prelude.{◌≡◌, codes};

use http_header::HeaderName;

/// `cache-status`: how caches handled a response (RFC 9211).
pub fn cache_status() -> HeaderName
    ensures { result ≡ codes "cache-status" }
{
    HeaderName::from_static("cache-status")
}

/// `cdn-cache-control`: cache rules for content delivery networks alone (RFC 9213).
pub fn cdn_cache_control() -> HeaderName
    ensures { result ≡ codes "cdn-cache-control" }
{
    HeaderName::from_static("cdn-cache-control")
}

/// `clear-site-data`: what a browser is to forget of a site.
pub fn clear_site_data() -> HeaderName
    ensures { result ≡ codes "clear-site-data" }
{
    HeaderName::from_static("clear-site-data")
}

/// `cross-origin-embedder-policy`: which resources of other origins a document may load.
pub fn cross_origin_embedder_policy() -> HeaderName
    ensures { result ≡ codes "cross-origin-embedder-policy" }
{
    HeaderName::from_static("cross-origin-embedder-policy")
}

/// `cross-origin-opener-policy`: whether a document shares its group with those of other origins.
pub fn cross_origin_opener_policy() -> HeaderName
    ensures { result ≡ codes "cross-origin-opener-policy" }
{
    HeaderName::from_static("cross-origin-opener-policy")
}

/// `cross-origin-resource-policy`: which origins may load a resource.
pub fn cross_origin_resource_policy() -> HeaderName
    ensures { result ≡ codes "cross-origin-resource-policy" }
{
    HeaderName::from_static("cross-origin-resource-policy")
}

/// `permissions-policy`: which features of the browser a document may use.
pub fn permissions_policy() -> HeaderName
    ensures { result ≡ codes "permissions-policy" }
{
    HeaderName::from_static("permissions-policy")
}

/// `x-forwarded-for`: the address of the client that a proxy stands for.
pub fn x_forwarded_for() -> HeaderName
    ensures { result ≡ codes "x-forwarded-for" }
{
    HeaderName::from_static("x-forwarded-for")
}

/// `x-forwarded-host`: the host that the client asked a proxy for.
pub fn x_forwarded_host() -> HeaderName
    ensures { result ≡ codes "x-forwarded-host" }
{
    HeaderName::from_static("x-forwarded-host")
}

/// `x-forwarded-proto`: the protocol by which the client reached a proxy.
pub fn x_forwarded_proto() -> HeaderName
    ensures { result ≡ codes "x-forwarded-proto" }
{
    HeaderName::from_static("x-forwarded-proto")
}
