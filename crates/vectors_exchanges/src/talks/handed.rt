//! What one end hands out.
use h1_connection::{BodyFault, HeaderMap, NoMemory, Pulled};
use std::alloc::Global;
use vectors::Report;

/// What one end handed out so far, a line for each message.
#[derive(Drop)]
pub struct Handed {
    /// The lines. That of the newest message has its head alone while its body comes.
    pub text: Report,

    // The bytes of that body, and whether it may go on.
    body: Report,
    is_open: bool,
}

impl Handed {
    /// Nothing was handed out.
    pub fn new(alloc: Global) -> Handed {
        Handed {
            text: Report::new(alloc),
            body: Report::new(alloc),
            is_open: false,
        }
    }

    /// A head was put. Its body comes now, if it has one.
    pub fn begin(&mut self, has_body: bool) {
        self.is_open = true;
        if !has_body {
            self.stop("end");
        }
    }

    /// Takes what was pulled of the body. It tells whether something came.
    pub fn take(&mut self, pulled: &Result<Pulled, NoMemory>) -> bool {
        match pulled {
            Ok(Pulled::Bytes(bytes)) => self.body.put_all(bytes.as_slice()),
            Ok(Pulled::Trailers(_)) => self.stop("trailers"),
            Ok(Pulled::End) => self.stop("end"),
            Ok(Pulled::Broken(BodyFault::Corrupted)) => self.stop("corrupted"),
            Ok(Pulled::Broken(BodyFault::Incomplete)) => self.stop("incomplete"),
            Ok(Pulled::Pending) => return false,
            Err(_) => return self.lose(),
        }
        true
    }

    /// Nothing more comes of the body, for the reason that the word names.
    pub fn stop(&mut self, word: &str) {
        if !self.is_open {
            return;
        }
        self.text.put_text(" ");
        self.text.quote_report(&self.body);
        self.text.put_text(" ");
        self.text.put_text(word);
        self.text.put_text("\n");
        self.body.clear();
        self.is_open = false;
    }

    /// Memory ran out for what was to be done, so that nothing came of it: `false`.
    pub fn lose(&mut self) -> bool {
        self.text.lose();
        false
    }

    /// Whether there was memory for what was to be done.
    pub fn keeps(&mut self, done: Result<(), NoMemory>) -> bool {
        match done {
            Ok(()) => true,
            Err(_) => self.lose(),
        }
    }
}

/// Each line of a head, with a blank before it, but for the date, which is that of no moment here.
pub fn put_lines(lines: &HeaderMap, text: &mut Report) {
    for (name, value) in lines {
        if name.as_str() != "date" {
            text.put_field(name.as_str(), value.as_bytes());
        }
    }
}

/// The version in a head.
pub fn version_name(is_older: bool) -> &'static str {
    if is_older { " 1.0" } else { " 1.1" }
}
