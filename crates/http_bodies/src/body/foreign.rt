//! Values of other crates that are bodies.
mod inner;
mod owned;
mod shared;
