//! Somebody who is waited for and never comes.
ghost use Rattle.futures.specs.Poll.{OnPending};
ghost use Rattle.futures.specs.Task.{IsArmed, Keeps};

use futures::channel::oneshot::{Receiver, Sender, channel};
use futures::task::{Context, Poll};
use http_types::NoMemory;
use std::alloc::Global;

/// Both ends of a channel over which nothing is sent. Who waits for it is pending, and isn't woken.
#[derive(Drop)]
pub struct Silence {
    sender: Sender<()>,
    receiver: Receiver<()>,
}

impl Silence {
    /// Nobody waits for it yet.
    pub fn new(alloc: Global) -> Result<Silence, NoMemory> {
        let (sender, receiver) = channel(alloc)?;
        Ok(Silence { sender, receiver })
    }

    /// Waits for the receiver to go, which it doesn't as long as both ends are here.
    pub fn poll<T: Drop>(&mut self, cx: &mut Context<'_>) -> Poll<T>
        ensures registered { OnPending result (IsArmed cx.new) }
        ensures kept { Keeps cx.old cx.new }
    {
        match self.sender.poll_canceled(cx) {
            Poll::Pending => Poll::Pending,
            Poll::Ready(()) => cx.yield_now(),
        }
    }
}
