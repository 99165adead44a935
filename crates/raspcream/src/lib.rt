//! One side of an HTTP/1 connection, a server's or a client's, as a static library for C. `include/raspcream.h` at the top of
//! the repository is what its users read.
//!
//! C holds a pointer to a `Machine`, and there is one call: its number says what is asked (`op`), and the header gives each
//! number a name. What is told stands in a `Reply`, whose spans point into the machine.
//!
//! # Contract
//!
//! After a code other than 0 the connection is as before. After code 0 it has made the step of the event that the number
//! names (`specs/Calls`), of `h1_connection` or `h1_client`: so their laws hold of what C holds. The memory behind the pointer
//! comes back with the machine in it, and at the end as room that may be freed.
#![tactic(auto)]

mod answer;
mod call;
mod client;
mod config;
mod exports;
mod fields;
mod handed;
mod machine;
mod op;
mod pointers;
mod reply;
mod request;
mod server;
mod socket;
mod told;
