//! What waits to be written.
ghost use Rattle.std.specs.Prelude.{◌≡◌, ◌++◌, [], ◌∷◌, ◌↔◌, OnOk, OnErr, IfNone, IsOk, length, IsTrue, option_to_list};
ghost use Rattle.ws_dispatcher.specs.Queued.{queued, HasRoom};

use std::alloc::{AllocError, Global};
use std::collections::VecDeque;

/// What is queued: something to write, or that the dispatcher is to close.
#[derive(Debug, Drop)]
pub enum Message<T> {
    /// This is written.
    Item(T),

    /// What is buffered is sent, and then the dispatcher ends.
    Close,
}

/// What waits to be written, in order: messages, and errors that end the dispatcher.
#[derive(Drop)]
pub struct Queue<I, E> {
    items: VecDeque<Result<Message<I>, E>>,
}

impl<I: Drop, E: Drop> Queue<I, E> {
    /// An empty queue. It takes no memory.
    pub fn new(alloc: Global) -> Queue<I, E>
        ensures { queued result ≡ [] }
    {
        Queue {
            items: VecDeque::new(alloc),
        }
    }

    /// Puts a message or an error at the end. Out of memory, the queue is as it was.
    pub fn send(&mut self, item: Result<Message<I>, E>) -> Result<(), AllocError>
        ensures ok { OnOk result (queued self.new ≡ queued self.old ++ item ∷ []) }
        ensures err { OnErr result (queued self.new ≡ queued self.old) }
        ensures room { HasRoom self.old → IsOk result }
    {
        if self.items.push_back(item).is_err() {
            return Err(AllocError);
        }
        Ok(())
    }

    /// How many wait.
    pub fn len(&self) -> usize
        ensures { result ≡ length (queued self.now) }
    {
        self.items.len()
    }

    /// Whether none waits.
    pub fn is_empty(&self) -> bool
        ensures { IsTrue result ↔ (queued self.now ≡ []) }
    {
        self.items.is_empty()
    }

    /// The first one, which leaves the queue.
    pub(crate) fn pop(&mut self) -> Option<Result<Message<I>, E>>
        ensures items { queued self.old ≡ option_to_list result ++ queued self.new }
        ensures none { IfNone result (queued self.old ≡ []) }
    {
        self.items.pop_front()
    }

    /// Makes room for one more, so that the next `send` takes no memory.
    pub(crate) fn make_room(&mut self) -> Result<(), AllocError>
        ensures ok { OnOk result (HasRoom self.new) }
        ensures same { queued self.new ≡ queued self.old }
    {
        self.items.reserve(1)
    }
}
