//! Frames: their headers, their texts, and the payload of a Close.
pub(crate) mod close;
pub(crate) mod header;
pub(crate) mod text;
