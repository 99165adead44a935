//! Tests of header maps, a response's builder, sources and sinks, bodies, the queue of a request's body and services, through
//! what `http_map`, `http_types` and `http_services` make public.
//!
//! A contract holds for every call, so nothing that a clause says is tested again. A test stands here for what no clause
//! can say and what needs code: the callers that the crates' pages show, faults in mid-stream, that a task is really woken,
//! and that a call which may want memory has it where there is some. What has an input and an expected answer is a vector.
#![tactic(auto)]

#[cfg(test)]
mod bodies;
#[cfg(test)]
mod builder;
#[cfg(test)]
mod ends;
#[cfg(test)]
mod map;
#[cfg(test)]
mod payloads;
#[cfg(test)]
mod serving;
