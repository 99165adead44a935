//! Of which type a file is, by its name.

const TYPES: [(&str, &str); 34] = [
    ("html", "text/html; charset=utf-8"),
    ("htm", "text/html; charset=utf-8"),
    ("css", "text/css; charset=utf-8"),
    ("js", "text/javascript; charset=utf-8"),
    ("mjs", "text/javascript; charset=utf-8"),
    ("json", "application/json"),
    ("txt", "text/plain; charset=utf-8"),
    ("md", "text/plain; charset=utf-8"),
    ("rs", "text/plain; charset=utf-8"),
    ("rt", "text/plain; charset=utf-8"),
    ("antt", "text/plain; charset=utf-8"),
    ("toml", "text/plain; charset=utf-8"),
    ("csv", "text/csv; charset=utf-8"),
    ("xml", "application/xml"),
    ("svg", "image/svg+xml"),
    ("png", "image/png"),
    ("jpg", "image/jpeg"),
    ("jpeg", "image/jpeg"),
    ("gif", "image/gif"),
    ("webp", "image/webp"),
    ("avif", "image/avif"),
    ("ico", "image/x-icon"),
    ("pdf", "application/pdf"),
    ("wasm", "application/wasm"),
    ("woff", "font/woff"),
    ("woff2", "font/woff2"),
    ("ttf", "font/ttf"),
    ("mp3", "audio/mpeg"),
    ("ogg", "audio/ogg"),
    ("wav", "audio/wav"),
    ("mp4", "video/mp4"),
    ("webm", "video/webm"),
    ("zip", "application/zip"),
    ("gz", "application/gzip"),
];

/// The media type of a file with this name, by what stands after its last dot (RFC 7231, section 3.1.1.1). Of a name that
/// isn't known it is a stream of bytes.
pub fn content_type(name: &str) -> &'static str {
    let end = end_of(name);
    for (known, media_type) in TYPES {
        if known.eq_ignore_ascii_case(end) {
            return media_type;
        }
    }
    "application/octet-stream"
}

// What stands after a name's last dot.
fn end_of(name: &str) -> &str {
    match name.rsplit_once('.') {
        Some((_, end)) => end,
        None => "",
    }
}
