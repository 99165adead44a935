//! Bytes that wait to be written, in segments.
//!
//! A connection puts heads and bodies behind one another, and who writes them to a socket takes them from the front. Here
//! they stand in one buffer, except for pieces of bodies that are worth sharing: these stay where they are.
//!
//! # Contract
//!
//! A clause sees a [`Segments`] as `Queued`: all bytes that wait, and the places of the bytes of each piece, in order. A
//! text adds bytes, a piece adds bytes and a place, `advance` drops from the front of both. What is put is there whole, or
//! nothing is changed and memory was wanting.
//!
//! # Example
//!
//! ```ignore
//! let mut queue = Segments::new(alloc);
//! queue.put_text(b"HTTP/1.1 200 OK\r\ncontent-length: 2\r\n\r\n")?;
//! queue.put_shared(Bytes::from_static(b"hi"))?;
//! let head = queue.front().len();
//! queue.advance(head);
//! assert!(rt; queue.front() == b"hi".as_slice());
//! ```
#![tactic(auto)]

mod copies;
mod piece;
mod queue;

pub use queue::{LEAST_SHARED, Segments};
