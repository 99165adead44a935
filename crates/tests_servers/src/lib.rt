//! Tests of dispatchers of frames over transports in memory, through what `ws_dispatcher` makes public. These are also its only
//! callers that are proved: they show that what its calls require can be met.
#![tactic(auto)]

#[cfg(test)]
mod echo;
#[cfg(test)]
mod faults;
#[cfg(test)]
mod services;
