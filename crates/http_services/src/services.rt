//! Services.
mod counted;
mod expect;
mod handler;
mod upgrade;

pub use counted::{CountedService, PlainService};
pub use expect::ExpectHandler;
pub use handler::{FnService, Handler};
pub use upgrade::UpgradeHandler;
