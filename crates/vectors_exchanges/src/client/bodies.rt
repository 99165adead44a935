//! Bodies of answers.
use crate::client::MISPLACED;
use h1_client::{BodyFault, ClientConnection, Pulled};
use std::alloc::Global;
use vectors::Report;

/// What was pulled of a body and not told.
#[derive(Drop)]
pub struct Body {
    bytes: Report,
    trailers: Report,

    // What the last pull gave that wasn't a part of the body.
    stop: &'static str,
}

impl Body {
    /// Nothing was pulled.
    pub fn new(alloc: Global) -> Body {
        Body {
            bytes: Report::new(alloc),
            trailers: Report::new(alloc),
            stop: MISPLACED,
        }
    }

    /// Pulls as far as the body comes.
    pub fn pull(&mut self, connection: &mut ClientConnection) {
        for _ in 0..u64::MAX {
            if !connection.can_pull() {
                return;
            }
            match connection.pull() {
                Ok(pulled) => {
                    if self.keep(&pulled) {
                        return;
                    }
                }
                Err(_) => return self.bytes.lose(),
            }
        }
    }

    // Keeps what came, and says whether that was the last for now.
    fn keep(&mut self, pulled: &Pulled) -> bool {
        match pulled {
            Pulled::Bytes(bytes) => {
                self.bytes.put_all(bytes.as_slice());
                return false;
            }
            Pulled::Trailers(trailers) => {
                self.trailers.put_fields(trailers);
                return false;
            }
            Pulled::End => self.stop = "end",
            Pulled::Broken(BodyFault::Corrupted) => self.stop = "corrupted",
            Pulled::Broken(BodyFault::Incomplete) => self.stop = "incomplete",
            Pulled::Pending => self.stop = "pending",
        }
        true
    }

    /// `body`: pulls as far as the body comes, and writes its bytes, its trailers, and how it stops.
    pub fn tell(&mut self, connection: &mut ClientConnection, found: &mut Report) {
        self.pull(connection);
        found.quote_report(&self.bytes);
        found.put_report(&self.trailers);
        found.put_text(" ");
        found.put_text(self.stop);
        self.forget();
    }

    /// `drop`: the rest of the body isn't wanted.
    pub fn drop_rest(&mut self, connection: &mut ClientConnection, found: &mut Report) {
        self.forget();
        if !connection.can_drop_body() {
            return found.put_text(MISPLACED);
        }
        connection.drop_body();
        found.put_text("done");
    }

    fn forget(&mut self) {
        self.bytes.clear();
        self.trailers.clear();
        self.stop = MISPLACED;
    }
}
