//! A small site with routes and JSON, as a service: what the example servers serve, and what to begin from.
//!
//! # Example
//!
//! ```ignore
//! let routes = all_routes(rt.alloc())?;
//! let service = CountedService::new(Site::new(rt.alloc(), &routes));
//! let mut dispatcher = Dispatcher::new(rt.alloc(), transport, service, ServiceConfig::default(), peer, NoRecord);
//! ```
#![tactic(auto)]

mod answers;
mod lines;
mod receive;
mod routes;
mod site;
mod sums;

pub use answers::Page;
pub use lines::Lines;
pub use routes::{Route, all_routes};
pub use site::{Site, Visit};
