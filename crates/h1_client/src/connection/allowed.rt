// Which events may come next.
ghost use Rattle.std.specs.Prelude.{◌≡◌, ◌&&◌, not, bytes_eq, codes, is_none, ℕ, List};
ghost use Rattle.h1_encoder.specs.Meaning.{size_of};
ghost use Rattle.model_h1.specs.Setting.{Setting};
ghost use Rattle.model_client.specs.ClientEvent as on;
ghost use Rattle.model_client.specs.ClientKept.{client_allows, client_closing, is_dropped, is_moment, can_be_sent, can_be_framed, lacks_length, states_length};
ghost use Rattle.model_client.specs.RequestText.{asked_shape};
ghost use Rattle.h1_encoder.specs.RequestMeaning.{asked_minor};
ghost use Rattle.h1_client.specs.ClientMeaning.{setting_of, request_of};
ghost use Rattle.h1_client.specs.Parts.{kept_of, IsSound};

use crate::connection::parts::Parts;
use h1_encoder::has_text;
use http_framing::BodySize;
use http_types::{RequestHead, ServiceConfig, Version};

/// The first millisecond of the year 10000.
const MOMENTS_END: u64 = 253_402_300_800_000;

impl Parts {
    // The connection is neither over nor closes.
    fn is_running(&self) -> bool
        ensures { result ≡ (not self.now.is_over && is_none (client_closing (kept_of self.now))) }
    {
        !self.is_over && self.closing().is_none()
    }

    pub fn can_ask(&self, config: &ServiceConfig, head: &RequestHead, size: BodySize) -> bool
        requires { IsSound self.now }
        ensures { result ≡ client_allows (setting_of config.now) (kept_of self.now) (on.ask (request_of head.now) (size_of size)) }
    {
        if !self.is_running() || self.sending.is_some() {
            return false;
        }
        if self.is_last || !can_be_sent(head, size) {
            return false;
        }
        self.output.len() < config.h1_write_buffer_size()
    }

    pub fn can_chunk(&self, config: &ServiceConfig) -> bool
        ensures { (bytes : List ℕ) → result ≡ client_allows (setting_of config.now) (kept_of self.now) (on.chunk bytes) }
    {
        if !self.is_running() || self.sending.is_none() {
            return false;
        }
        self.output.len() < config.h1_write_buffer_size()
    }

    pub fn can_end_body(&self) -> bool
        ensures ends { (setting : Setting) → result ≡ client_allows setting (kept_of self.now) on.body_end }
        ensures fails { (setting : Setting) → result ≡ client_allows setting (kept_of self.now) on.body_error }
    {
        self.is_running() && self.sending.is_some()
    }

    pub fn can_read(&self) -> bool
        ensures read { (setting : Setting) (bytes : List ℕ) → result ≡ client_allows setting (kept_of self.now) (on.read bytes) }
        ensures eof { (setting : Setting) → result ≡ client_allows setting (kept_of self.now) on.eof }
    {
        self.is_running() && !self.has_ended
    }

    pub fn can_next(&self) -> bool
        ensures { (setting : Setting) → result ≡ client_allows setting (kept_of self.now) on.next }
    {
        if self.is_over {
            return false;
        }
        self.closing().is_some() || self.is_free()
    }

    pub fn can_drop_body(&self) -> bool
        ensures { (setting : Setting) → result ≡ client_allows setting (kept_of self.now) on.drop_body }
    {
        self.is_running() && !self.is_free()
    }

    pub fn can_pull(&self) -> bool
        ensures { (setting : Setting) → result ≡ client_allows setting (kept_of self.now) on.pull }
    {
        self.is_running() && !self.is_free() && !self.is_dropped()
    }

    // The rest of the last answer's body isn't wanted.
    fn is_dropped(&self) -> bool
        ensures { result ≡ is_dropped (kept_of self.now) }
    {
        match &self.reading {
            Some(body) => body.was_dropped,
            None => false,
        }
    }

    pub fn can_write(&self) -> bool
        ensures { (setting : Setting) (limit : ℕ) → result ≡ client_allows setting (kept_of self.now) (on.write limit) }
    {
        !self.is_over
    }

    pub fn can_tick(&self, moment: u64) -> bool
        ensures { (setting : Setting) → result ≡ client_allows setting (kept_of self.now) (on.tick moment) }
    {
        !self.is_over && self.moment <= moment && moment < MOMENTS_END
    }
}

// Whether a server finds the end of such a request: HTTP/1.0 or 1.1, of a method other than CONNECT, with a body that can
// be framed, and with a length where HTTP/1.0 needs one.
fn can_be_sent(head: &RequestHead, size: BodySize) -> bool
    ensures { result ≡ can_be_sent (request_of head.now) (size_of size) }
{
    if !has_text(head.version) || is_connect(head) {
        return false;
    }
    can_be_framed(head.version, size) && !lacks_length(head, size)
}

fn is_connect(head: &RequestHead) -> bool
    ensures { result ≡ bytes_eq head.now.method (codes "CONNECT") }
{
    head.method.as_str().as_bytes() == b"CONNECT".as_slice()
}

// HTTP/1.0 knows no chunks.
fn can_be_framed(version: Version, size: BodySize) -> bool
    ensures { result ≡ can_be_framed (asked_minor version) (asked_shape (size_of size)) }
{
    match size {
        BodySize::None | BodySize::Sized(_) => true,
        BodySize::Stream => version == Version::HTTP_11,
    }
}

// A POST of HTTP/1.0 states its length (RFC 1945, section 8.3).
fn lacks_length(head: &RequestHead, size: BodySize) -> bool
    ensures { result ≡ lacks_length (request_of head.now) (size_of size) }
{
    if head.version != Version::HTTP_10 || states_length(size) {
        return false;
    }
    head.method.as_str().as_bytes() == b"POST".as_slice()
}

// A line states the length, also one of 0.
fn states_length(size: BodySize) -> bool
    ensures { result ≡ states_length (size_of size) }
{
    match size {
        BodySize::Sized(_) => true,
        BodySize::None | BodySize::Stream => false,
    }
}
