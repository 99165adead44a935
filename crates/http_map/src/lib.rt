//! The header map of an HTTP message: names in the order of their first insertion, each with its
//! values, after the module `header` of actix-http. With it come the names and values that go into a
//! map, and what they are made of.
//!
//! # Examples
//!
//! `append` adds a value to those of a name, and `insert` puts one in their place. A name is looked up as
//! a constant or as a text in any case.
//!
//! ```ignore
//! let mut map = HeaderMap::new(alloc);
//! map.append(SET_COOKIE, value_of_str(alloc, "one=1")?)?;
//! map.append(ACCEPT, value_of_str(alloc, "text/plain")?)?;
//! map.append(SET_COOKIE, value_of_str(alloc, "two=2")?)?;
//! // The map gives set-cookie: one=1, set-cookie: two=2, accept: text/plain.
//! assert!(rt; map.len() == 3 && map.len_keys() == 2 && map.contains_key("Set-Cookie"));
//!
//! let mut old = map.insert(SET_COOKIE, value_of_str(alloc, "six=6")?)?;
//! // The old values are one=1 and two=2.
//! assert!(rt; old.len() == 2 && map.len() == 2 && map.get("SET-COOKIE").is_some());
//! assert!(rt; map.get(HOST).is_none() && map.get("no name at all").is_none());
//! ```
//!
//! All values of a name, once more if need be, and those that pass a test:
//!
//! ```ignore
//! let values = map.get_all(COOKIE);
//! let again = values.clone()?;
//! assert!(rt; values.len() == again.len());
//! map.retain(|name, value| *name != COOKIE || value.as_bytes().starts_with(b"id="));
//! ```
//!
//! A map of pairs, its copy, and what it gives when it is emptied, where a name stands beside its first
//! value alone:
//!
//! ```ignore
//! let mut map = HeaderMap::try_from_pairs(alloc, pairs.into_iter())?;
//! let copy = map.clone()?;
//! for (name, value) in map.drain() {
//!     // Some(set-cookie) with one=1, None with two=2, Some(accept) with text/plain
//! }
//! assert!(rt; map.is_empty() && copy.len() == 3);
//! ```
//!
//! # Contract
//!
//! A clause sees a map as the list of its names, each with the list of its values: every call gives
//! exactly what that list gives, and leaves what it says; a call that finds no memory leaves the map as it was.
#![tactic(auto)]

mod any_case;
mod as_name;
mod common;
mod into_pair;
mod into_value;
mod iter;
mod map;
pub mod names;
mod owned;
mod removed;
mod table;
mod values;

pub use as_name::AsHeaderName;
pub use http_header::{HeaderName, HeaderValue};
pub use into_pair::{InvalidHeaderPart, NameText, TryIntoHeaderPair};
pub use into_value::{TryIntoHeaderValue, ValueError, value_of_bytes, value_of_str};
pub use iter::{Iter, Keys};
pub use map::HeaderMap;
pub use names::{
    ACCEPT, CONNECTION, CONTENT_LENGTH, CONTENT_TYPE, COOKIE, DATE, EXPECT, HOST,
    SEC_WEBSOCKET_ACCEPT, SEC_WEBSOCKET_KEY, SEC_WEBSOCKET_VERSION, SET_COOKIE, TRANSFER_ENCODING,
    UPGRADE,
};
pub use owned::{Drain, IntoIter};
pub use removed::Removed;

/// The allocator had no memory, or a count of values would have passed the greatest `usize`.
pub type NoMemory = std::alloc::AllocError;
