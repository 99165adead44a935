// The conditions of the calls, each asked for itself, and what else the connection says of itself.
ghost use Rattle.std.specs.Prelude.{◌≡◌, ◌-◌, ℕ, List, length, option_map};
ghost use Rattle.h1_encoder.specs.Meaning.{size_of};
ghost use Rattle.model_client.specs.ClientEvent as on;
ghost use Rattle.model_client.specs.ClientKept.{client_allows, client_closing, is_reusable};
ghost use Rattle.h1_client.specs.ClientMeaning.{setting_of, request_of, end_of};

use crate::ClientEnd;
use crate::connection::ClientConnection;
use http_framing::BodySize;
use http_types::RequestHead;

impl ClientConnection {
    /// Whether this request may be asked: the body of the last one has ended, no request or answer was the last, there is
    /// room, and a server finds the end of the request. That is one of HTTP/1.0 or 1.1, of a method other than CONNECT; in
    /// HTTP/1.0 without chunks, and a POST with a length.
    pub fn can_ask(&self, head: &RequestHead, size: BodySize) -> bool
        ensures { result ≡ client_allows (setting_of self.now.settings) self.now.kept (on.ask (request_of head.now) (size_of size)) }
    {
        self.parts.can_ask(&self.config, head, size)
    }

    /// Whether a piece of a request's body may be handed in.
    pub fn can_chunk(&self) -> bool
        ensures { (bytes : List ℕ) → result ≡ client_allows (setting_of self.now.settings) self.now.kept (on.chunk bytes) }
    {
        self.parts.can_chunk(&self.config)
    }

    /// Whether a request's body may end or fail.
    pub fn can_end_body(&self) -> bool
        ensures ends { result ≡ client_allows (setting_of self.now.settings) self.now.kept on.body_end }
        ensures fails { result ≡ client_allows (setting_of self.now.settings) self.now.kept on.body_error }
    {
        self.parts.can_end_body()
    }

    /// Whether bytes may be read, or the input may end.
    pub fn can_read(&self) -> bool
        ensures read { (bytes : List ℕ) → result ≡ client_allows (setting_of self.now.settings) self.now.kept (on.read bytes) }
        ensures eof { result ≡ client_allows (setting_of self.now.settings) self.now.kept on.eof }
    {
        self.parts.can_read()
    }

    /// Whether the next answer may be asked for: nothing of the last one is left to do, or the connection closes.
    pub fn can_next(&self) -> bool
        ensures { result ≡ client_allows (setting_of self.now.settings) self.now.kept on.next }
    {
        self.parts.can_next()
    }

    /// Whether more of the last answer's body may be asked for: it has one whose end, fault or drop hasn't come.
    pub fn can_pull(&self) -> bool
        ensures { result ≡ client_allows (setting_of self.now.settings) self.now.kept on.pull }
    {
        self.parts.can_pull()
    }

    /// Whether the rest of the last answer's body may be dropped: it has one whose end or fault hasn't come.
    pub fn can_drop_body(&self) -> bool
        ensures { result ≡ client_allows (setting_of self.now.settings) self.now.kept on.drop_body }
    {
        self.parts.can_drop_body()
    }

    /// Whether bytes may be written: all the time but after the connection's end.
    pub fn can_write(&self) -> bool
        ensures { (limit : ℕ) → result ≡ client_allows (setting_of self.now.settings) self.now.kept (on.write limit) }
    {
        self.parts.can_write()
    }

    /// Whether this moment may come: it isn't before the last one.
    pub fn can_tick(&self, moment: u64) -> bool
        ensures { result ≡ client_allows (setting_of self.now.settings) self.now.kept (on.tick moment) }
    {
        self.parts.can_tick(moment)
    }

    /// Why the connection is to end, where it is: the first reason that holds.
    pub fn closing(&self) -> Option<ClientEnd>
        ensures { option_map end_of result ≡ client_closing self.now.kept }
    {
        self.parts.closing()
    }

    /// Whether another request may be asked after all that was is done: each request is written and answered whole, and the
    /// connection stays open. A pool of connections keeps such a one.
    pub fn is_reusable(&self) -> bool
        ensures { result ≡ is_reusable self.now.kept }
    {
        self.parts.is_reusable()
    }

    /// How many requests wait for their answers: those that were asked, without those whose final answers were handed out.
    /// Nothing bounds it but what the caller asks.
    pub fn waiting(&self) -> usize
        ensures { result ≡ length self.now.kept.waiting }
    {
        self.parts.waiting.len()
    }

    /// The bytes of the input that are held: those that were taken and not passed.
    pub fn held_bytes(&self) -> &[u8]
        ensures { result.now ≡ self.now.kept.unread }
    {
        self.parts.input.as_slice()
    }

    /// How many more bytes of the input may be held. A read takes no more.
    pub fn read_room(&self) -> usize
        ensures { result ≡ self.now.settings.h1_hold_size - length self.now.kept.unread }
    {
        self.config
            .h1_hold_size()
            .saturating_sub(self.parts.input.len())
    }

    /// How many bytes may be put after those that wait to be written before requests and pieces of their bodies have to
    /// wait: while it is above 0 there is room.
    pub fn write_room(&self) -> usize
        ensures { result ≡ self.now.settings.h1_write_buffer_size - length self.now.kept.buffered }
    {
        self.config
            .h1_write_buffer_size()
            .saturating_sub(self.parts.output.len())
    }
}
