//! Bodies.
mod kind;
mod size;

pub use kind::BodyKind;
pub use size::BodySize;
