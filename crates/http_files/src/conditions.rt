//! What a request's conditions say of a file.
ghost use Rattle.std.specs.Prelude.{◌≡◌};
ghost use Rattle.http_files.specs.Conditions.{unchanged_since, holds, verdict_of};
ghost use Rattle.http_files.specs.Tags.{lists, is_tag, without_weak, lists_strong, has_strong, is_strong_tag};

use crate::Coding;
use httpdate::HttpDate;
use std::alloc::{AllocError, Global};

/// A file's entity tag (RFC 7232, section 2.3): its length in bytes, when it was changed, in seconds and nanoseconds, and how it
/// is coded. So two codings of a file have two tags.
pub fn etag(
    alloc: Global,
    length: u64,
    seconds: u64,
    nanoseconds: u32,
    coding: Coding,
) -> Result<String, AllocError> {
    let ending = coding.ending();
    format!(in alloc; "\"{length:x}-{seconds:x}-{nanoseconds:x}{ending}\"")
}

/// Whether a list of entity tags has this one, or is `*` (RFC 7232, section 3.2). Weak tags are as good as strong ones.
pub fn lists_etag(list: &str, tag: &str) -> bool
    ensures { result ≡ lists list.now tag.now }
{
    list.split(',').any(|item| is_tag(item, tag))
}

// Whether an item of such a list is the tag, or `*`.
fn is_tag(item: &str, tag: &str) -> bool
    ensures { result ≡ is_tag tag.now item.now }
{
    let item = without_weak(item.trim());
    item == tag || item == "*"
}

// A tag without the mark of a weak one.
fn without_weak(item: &str) -> &str
    ensures { result.now ≡ without_weak item.now }
{
    match item.strip_prefix("W/") {
        Some(strong) => strong,
        None => item,
    }
}

/// Whether a list of entity tags has this one by the strong comparison, or is `*` (RFC 9110, section 13.1.1). A weak tag is
/// none of them.
pub fn lists_strong_etag(list: &str, tag: &str) -> bool
    ensures { result ≡ lists_strong list.now tag.now }
{
    list.trim() == "*" || has_strong(list, tag)
}

// Whether an item of such a list is the tag.
fn has_strong(list: &str, tag: &str) -> bool
    ensures { result ≡ has_strong list.now tag.now }
{
    list.split(',').any(|item| is_strong_tag(item, tag))
}

// Whether an item is the tag, and neither is weak.
fn is_strong_tag(item: &str, tag: &str) -> bool
    ensures { result ≡ is_strong_tag tag.now item.now }
{
    let item = item.trim();
    item == tag && !item.starts_with("W/")
}

/// Whether a file that was changed at this second is no younger than a date (RFC 9110, section 13.1.4). What is no date says
/// nothing.
pub fn is_unchanged_since(date: &[u8], seconds: u64) -> Option<bool>
    ensures { result ≡ unchanged_since date.now seconds }
{
    match HttpDate::parse_ascii(date) {
        Ok(date) => Some(seconds <= date.unix_secs()),
        Err(_) => None,
    }
}

/// The conditions of a GET or a HEAD: whether each of them holds, where the request has it (RFC 9110, section 13.1). One that
/// says nothing, as a date that is none, counts as missing.
#[derive(Clone, Copy, Debug, PartialEq, Eq)]
pub struct Conditions {
    /// The file has one of the tags.
    pub if_match: Option<bool>,

    /// It is no younger than the date.
    pub if_unmodified_since: Option<bool>,

    /// It has none of the tags.
    pub if_none_match: Option<bool>,

    /// It is younger than the date.
    pub if_modified_since: Option<bool>,
}

/// How a GET or a HEAD is answered by its conditions.
#[derive(Clone, Copy, Debug, PartialEq, Eq)]
pub enum Verdict {
    /// As without them.
    Served,

    /// With 304: the client has the file.
    Unmodified,

    /// With 412: the file isn't the one that the client means.
    Failed,
}

impl Conditions {
    /// What they say together, in the order of RFC 9110, section 13.2.2: a date counts only where the tags that come before it
    /// are missing, and 412 comes before 304.
    pub fn verdict(self) -> Verdict
        ensures { result ≡ verdict_of self }
    {
        if !holds(self.if_match, self.if_unmodified_since) {
            Verdict::Failed
        } else if !holds(self.if_none_match, self.if_modified_since) {
            Verdict::Unmodified
        } else {
            Verdict::Served
        }
    }
}

// Whether the condition of tags holds, and where that is missing the one of a date.
fn holds(tags: Option<bool>, date: Option<bool>) -> bool
    ensures { result ≡ holds tags date }
{
    match (tags, date) {
        (Some(tags), _) => tags,
        (None, Some(date)) => date,
        (None, None) => true,
    }
}
