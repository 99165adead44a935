// The requests that wait for their answers.
ghost use Rattle.std.specs.Prelude.{◌≡◌, ◌∷◌, ◌++◌, [], drop, length, not, OnOk, OnErr};
ghost use Rattle.model_client.specs.ClientKept.{is_waited_for};
ghost use Rattle.h1_client.specs.Parts.{IsFirst, AreFirst};

use http_types::{Method, NoMemory};
use std::alloc::{AllocError, Global};
use std::collections::VecDeque;
use std::marker::Model;

/// A request whose answer wasn't handed out: its method, and whether no other may follow it.
#[derive(Drop)]
pub struct Waiting {
    method: Method,
    closes: bool,
}

impl Model for Waiting {
    ghost use Rattle.model_client.specs.ClientKept as machine;

    ghost Value = { machine.Waiting };

    ghost view = { λ w. record { method = w.method; closes = w.closes } };
}

impl Waiting {
    /// A request of this method.
    pub fn new(method: Method, closes: bool) -> Waiting
        ensures { result ≡ record { method = method; closes = closes } }
    {
        Waiting { method, closes }
    }

    // What its answer needs of it.
    fn asked(&self) -> First
        ensures { IsFirst self.now result }
    {
        First {
            is_head: self.method.as_str().as_bytes() == b"HEAD".as_slice(),
            closes: self.closes,
        }
    }
}

/// What an answer needs of its request: whether that is HEAD, and whether the connection closes after it.
#[derive(Clone, Copy)]
pub struct First {
    pub is_head: bool,
    pub closes: bool,
}

/// The requests that wait, the first first.
#[derive(Drop)]
pub struct Queue {
    requests: VecDeque<Waiting>,
}

impl Model for Queue {
    ghost use Rattle.std.specs.Prelude.{List};
    ghost use Rattle.model_client.specs.ClientKept as machine;

    ghost Value = { List machine.Waiting };

    ghost view = { λ q. q.requests.items };
}

impl Queue {
    /// None waits, and no memory is taken.
    pub fn new(alloc: Global) -> Queue
        ensures { result ≡ [] }
    {
        Queue {
            requests: VecDeque::new(alloc),
        }
    }

    /// Whether none waits.
    pub fn is_empty(&self) -> bool
        ensures { is_waited_for self.now ≡ not result }
    {
        self.requests.is_empty()
    }

    /// How many wait.
    pub fn len(&self) -> usize
        ensures { result ≡ length self.now }
    {
        self.requests.len()
    }

    /// What an answer needs of the first.
    pub fn first(&self) -> Option<First>
        ensures { AreFirst self.now result }
    {
        match self.requests.front() {
            Some(waiting) => Some(waiting.asked()),
            None => None,
        }
    }

    /// One more waits.
    pub fn push(&mut self, waiting: Waiting) -> Result<(), NoMemory>
        ensures ok { OnOk result (self.new ≡ self.old ++ waiting ∷ []) }
        ensures err { OnErr result (self.new ≡ self.old) }
    {
        match self.requests.push_back(waiting) {
            Ok(()) => Ok(()),
            Err(_) => Err(AllocError),
        }
    }

    /// The first waits no more.
    pub fn pop(&mut self)
        ensures { self.new ≡ drop 1 self.old }
    {
        let _ = self.requests.pop_front();
    }
}
