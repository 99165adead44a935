// What a client connection keeps between two events, part by part.
ghost use Rattle.std.specs.Prelude.{◌≡◌, false};
ghost use Rattle.model_client.specs.ClientKept.{fresh_client, is_free};
ghost use Rattle.h1_client.specs.Parts.{kept_of, MayBeSearched, IsSettled, IsSound};

use crate::ClientEnd;
use crate::connection::bodies::Reading;
use crate::connection::input::Input;
use crate::connection::output::Output;
use crate::connection::queue::Queue;
use crate::connection::requests::Sending;
use std::alloc::Global;

/// The parts that the machine keeps, under its names.
#[derive(Drop)]
pub struct Parts {
    /// The bytes taken and not passed.
    pub input: Input,
    pub has_ended: bool,
    pub is_over: bool,

    /// The requests that wait for their answers.
    pub waiting: Queue,

    /// Whether no other request may follow: one that waits is the last, or an answer was.
    pub is_last: bool,

    /// The body of the last request, until it has ended.
    pub sending: Option<Sending>,

    /// The body of the last answer.
    pub reading: Option<Reading>,
    pub closes: bool,

    /// What is to be written.
    pub output: Output,

    /// The last tick, 0 before the first.
    pub moment: u64,

    /// The end that a fault has brought.
    pub failed: Option<ClientEnd>,
}

impl Parts {
    /// Those of a connection to which nothing has happened. They take no memory.
    pub fn new(alloc: Global) -> Parts
        ensures kept { kept_of result ≡ fresh_client }
        ensures sound { IsSound result }
    {
        Parts {
            input: Input::new(alloc),
            has_ended: false,
            is_over: false,
            waiting: Queue::new(alloc),
            is_last: false,
            sending: None,
            reading: None,
            closes: false,
            output: Output::new(alloc),
            moment: 0,
            failed: None,
        }
    }

    /// Whether nothing of the last answer is left to do.
    pub fn is_free(&self) -> bool
        ensures { result ≡ is_free (kept_of self.now) }
    {
        match &self.reading {
            Some(body) => body.is_done,
            None => true,
        }
    }

    /// Searches for the next head where one may come.
    pub fn settle(&mut self)
        requires { MayBeSearched self.old }
        ensures { IsSettled self.old self.new }
    {
        if self.is_free() {
            self.input.search();
        }
    }
}
