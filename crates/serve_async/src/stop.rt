//! The end of a server.
ghost use Rattle.futures.specs.Task.{Keeps};

use futures::Future;
use futures::task::{Context, Poll};
use std::alloc::{AllocError, Global};
use std::sync::Arc;
use std::sync::atomic::AtomicBool;
use std::sync::atomic::Ordering::SeqCst;
use tokio::sync::{Notify, OwnedNotified};

/// Tells servers to end, of any thread: no more connections are let in, and those that are open end once no request is.
#[derive(Drop)]
pub struct Stop {
    is_told: Arc<AtomicBool>,
    bell: Arc<Notify>,
}

/// What one task hears of it.
#[derive(Drop)]
pub struct Hearing {
    is_told: Arc<AtomicBool>,
    bell: OwnedNotified,

    // The task's waker is left with the bell.
    is_waiting: bool,
}

impl Stop {
    /// Nothing was told.
    pub fn new(alloc: Global) -> Result<Stop, AllocError> {
        Ok(Stop {
            is_told: Arc::new(alloc, AtomicBool::new(false))?,
            bell: Arc::new(alloc, Notify::new(alloc)?)?,
        })
    }

    /// The same, for another thread.
    pub fn share(&self) -> Result<Stop, AllocError> {
        Ok(Stop {
            is_told: Arc::try_clone(&self.is_told)?,
            bell: Arc::try_clone(&self.bell)?,
        })
    }

    /// Tells it.
    pub fn tell(&self) {
        self.is_told.store(true, SeqCst);
        self.bell.notify_waiters();
    }

    /// What a task hears of it.
    pub fn hearing(&self) -> Result<Hearing, AllocError> {
        Ok(Hearing {
            is_told: Arc::try_clone(&self.is_told)?,
            bell: Notify::notified_owned(Arc::try_clone(&self.bell)?),
            is_waiting: false,
        })
    }
}

impl Hearing {
    /// Ready once it was told. The first poll leaves the task's waker, if there is memory for it, and no other has to: so
    /// only one task may poll it.
    pub fn poll(&mut self, cx: &mut Context<'_>) -> Poll<()>
        ensures { Keeps cx.old cx.new }
    {
        if self.is_told.load(SeqCst) {
            return Poll::Ready(());
        }
        if self.is_waiting {
            return Poll::Pending;
        }
        match self.bell.poll(cx) {
            Poll::Pending => {
                self.is_waiting = true;
                Poll::Pending
            }
            Poll::Ready(Ok(())) => Poll::Ready(()),
            Poll::Ready(Err(_)) => Poll::Pending,
        }
    }
}
