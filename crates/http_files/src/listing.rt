//! The page of a folder, and of a message.
ghost use Rattle.std.specs.Prelude.{◌≡◌};
ghost use Rattle.http_files.specs.Pages.{latest, later, over, page_changed};

use httpdate::HttpDate;
use percent_encoding::{NON_ALPHANUMERIC, utf8_percent_encode};
use std::alloc::{AllocError, Global};

/// A name in a folder. Folders come before files, and then the names in order.
#[derive(Debug, Drop, PartialEq, Eq, PartialOrd, Ord)]
pub struct Entry {
    pub is_file: bool,
    pub name: String,

    /// Bytes.
    pub size: u64,

    /// When it was changed, in seconds after the start of 1970, where that is known.
    pub changed: Option<u64>,
}

const STYLE: &str =
    ":root{color-scheme:light dark}body{font:16px/1.5 system-ui,sans-serif;max-width:52rem;margin:2rem auto;\
padding:0 1rem}h1{font-size:1.25rem;overflow-wrap:anywhere}table{width:100%;border-collapse:collapse}td{padding:.3rem .5rem;\
border-bottom:1px solid color-mix(in srgb,currentColor 15%,transparent)}td+td{text-align:right;white-space:nowrap;\
font-variant-numeric:tabular-nums;opacity:.75}a{text-decoration:none;overflow-wrap:anywhere}a:hover{text-decoration:underline}\
tr:hover{background:color-mix(in srgb,currentColor 6%,transparent)}";

/// A folder's page, in HTML: its names with their sizes and dates, in the order that is given. `place` is the target's
/// path, with its escapes read.
pub fn folder_page(alloc: Global, place: &str, entries: &[Entry]) -> Result<String, AllocError> {
    let mut page = String::new(alloc);
    begin(&mut page, place)?;
    page.push_str("<table>")?;
    if place != "/" {
        page.push_str("<tr><td><a href=\"../\">../</a></td><td></td><td></td></tr>")?;
    }
    for entry in entries {
        push_entry(alloc, &mut page, entry)?;
    }
    page.push_str("</table></body></html>\n")?;
    Ok(page)
}

/// When a folder's page was last changed, in seconds after the start of 1970: with the folder or with one of its names,
/// whichever was later. It isn't told where one of these times isn't known, nor where it isn't over at this moment, which is in
/// milliseconds: within that second the page may change again (RFC 9110, section 8.8.2.2).
#[tactic(auto, using(crate::proofs::PageLemmas::latest_on))]
pub fn page_changed(folder: Option<u64>, entries: &[Entry], moment: Option<u64>) -> Option<u64>
    ensures { result ≡ page_changed folder entries.now moment }
{
    let mut changed = folder;
    for entry in entries {
        changed = later(changed, entry.changed);
    }
    over(changed, moment)
}

// The later one of two times, where both are known.
fn later(one: Option<u64>, other: Option<u64>) -> Option<u64>
    ensures { result ≡ later one other }
{
    match (one, other) {
        (Some(one), Some(other)) => Some(one.max(other)),
        _ => None,
    }
}

// A second that is over at this moment.
fn over(second: Option<u64>, moment: Option<u64>) -> Option<u64>
    ensures { result ≡ over second moment }
{
    match (second, moment) {
        (Some(second), Some(moment)) if second < moment / 1000 => Some(second),
        _ => None,
    }
}

/// A page with one sentence, in HTML.
pub fn message_page(alloc: Global, message: &str) -> Result<String, AllocError> {
    let mut page = String::new(alloc);
    begin(&mut page, message)?;
    page.push_str("</body></html>\n")?;
    Ok(page)
}

fn begin(page: &mut String, title: &str) -> Result<(), AllocError> {
    page.push_str("<!doctype html><html lang=\"en\"><head><meta charset=\"utf-8\">")?;
    page.push_str(
        "<meta name=\"viewport\" content=\"width=device-width,initial-scale=1\"><title>",
    )?;
    push_escaped(page, title)?;
    page.push_str("</title><style>")?;
    page.push_str(STYLE)?;
    page.push_str("</style></head><body><h1>")?;
    push_escaped(page, title)?;
    page.push_str("</h1>")
}

fn push_entry(alloc: Global, page: &mut String, entry: &Entry) -> Result<(), AllocError> {
    let end = if entry.is_file { "" } else { "/" };
    // `./` in front keeps a name with a colon from being a scheme (RFC 3986, section 4.2).
    page.push_str("<tr><td><a href=\"./")?;
    utf8_percent_encode(&entry.name, NON_ALPHANUMERIC).append_to(page)?;
    page.push_str(end)?;
    page.push_str("\">")?;
    push_escaped(page, &entry.name)?;
    page.push_str(end)?;
    page.push_str("</a></td><td>")?;
    if entry.is_file {
        push_size(alloc, page, entry.size)?;
    }
    page.push_str("</td><td>")?;
    if let Some(changed) = entry.changed {
        push_date(page, changed)?;
    }
    page.push_str("</td></tr>")
}

// A count of bytes in the largest unit of which there is at least one.
fn push_size(alloc: Global, page: &mut String, size: u64) -> Result<(), AllocError> {
    let (unit, name) = match size {
        0..1024 => (1, "B"),
        1024..1_048_576 => (1024, "KiB"),
        1_048_576..1_073_741_824 => (1_048_576, "MiB"),
        _ => (1_073_741_824, "GiB"),
    };
    let text = format!(in alloc; "{} {name}", size / unit)?;
    page.push_str(&text)
}

// A date's day and minute, as `06 Nov 1994 08:49`.
fn push_date(page: &mut String, seconds: u64) -> Result<(), AllocError> {
    let Ok(date) = HttpDate::from_unix_secs(seconds) else {
        return Ok(());
    };
    let text = date.to_bytes();
    for byte in &text[5..22] {
        page.push(*byte as char)?;
    }
    Ok(())
}

// A text in HTML, where it stands between tags.
fn push_escaped(page: &mut String, text: &str) -> Result<(), AllocError> {
    for letter in text.chars() {
        match letter {
            '&' => page.push_str("&amp;")?,
            '<' => page.push_str("&lt;")?,
            '>' => page.push_str("&gt;")?,
            '"' => page.push_str("&quot;")?,
            _ => page.push(letter)?,
        }
    }
    Ok(())
}
