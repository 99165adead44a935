// The conditions of the calls, each asked for itself.
ghost use Rattle.std.specs.Prelude.{◌≡◌, ◌-◌, ℕ, List, length, true, is_some};
ghost use Rattle.model_h1.specs.Answer.{AnswerHead, BodySize};
ghost use Rattle.model_h1.specs.Deadline.{IsDeadline};
ghost use Rattle.model_h1.specs.Sums as sums;
ghost use Rattle.model_h1.specs.Event as on;
ghost use Rattle.model_h1.specs.Frame.{Message};
ghost use Rattle.model_state.specs.Local.{closing_by, allowed_by};
ghost use Rattle.model_state.specs.Deadline.{deadline_by};
ghost use Rattle.h1_connection.specs.EventMeaning.{setting_of};
ghost use Rattle.h1_connection.specs.Given.{next_allowed, frame_allowed};
ghost use Rattle.h1_connection.specs.State.{IsAllowed, Stands};

use crate::connection::Connection;

impl Connection {
    /// Whether bytes may be read, or the input may end.
    pub fn can_read(&self) -> bool
        ensures read { (bytes : List ℕ) → result ≡ allowed_by (setting_of self.now.settings) self.now.kept (on.read bytes) }
        ensures eof { result ≡ allowed_by (setting_of self.now.settings) self.now.kept on.eof }
    {
        self.parts.can_read(&self.config)
    }

    /// Whether the next head may be asked for: no request is open, or the connection closes and all was written. Where
    /// bytes of the last answer wait, they are to be written first.
    pub fn can_next(&self) -> bool
        ensures value { result ≡ next_allowed (setting_of self.now.settings) self.now.kept }
        ensures allowed { result ≡ true → IsAllowed self.now on.next }
        ensures written { result ≡ true → is_some (closing_by (setting_of self.now.settings) self.now.kept) ≡ true → length self.now.kept.buffered ≡ 0 }
    {
        self.parts.can_ask(&self.config)
    }

    /// Whether more of a body may be asked for, or its rest dropped.
    pub fn can_pull(&self) -> bool
        ensures value { result ≡ allowed_by (setting_of self.now.settings) self.now.kept on.drop_body }
        ensures pull { result ≡ true → IsAllowed self.now on.pull }
    {
        self.parts.can_pull(&self.config)
    }

    /// Whether the next frame may be asked for: the connection was upgraded to WebSocket, and doesn't close.
    pub fn can_pull_frame(&self) -> bool
        ensures value { result ≡ frame_allowed (setting_of self.now.settings) self.now.kept }
        ensures pull { result ≡ true → IsAllowed self.now on.pull }
    {
        self.parts.can_pull_frame(&self.config)
    }

    /// Whether an upgrade of the open request to WebSocket may be accepted, of whose frames none has a payload of more
    /// than `limit` bytes: the request has a raw body, of which nothing was asked for, and no answer, and as many bytes
    /// as such a frame has may be held.
    pub fn can_accept(&self, limit: usize) -> bool
        ensures { result ≡ allowed_by (setting_of self.now.settings) self.now.kept (on.accept limit) }
    {
        self.parts.can_accept(&self.config, limit)
    }

    /// Whether a message may be sent: the connection was upgraded to WebSocket and doesn't close, and there is room.
    pub fn can_send(&self) -> bool
        ensures { (message : Message) → result ≡ allowed_by (setting_of self.now.settings) self.now.kept (on.send message) }
    {
        self.parts.can_send(&self.config)
    }

    /// Whether the open request's client waits to be told to go on.
    pub fn can_continue(&self) -> bool
        ensures { result ≡ allowed_by (setting_of self.now.settings) self.now.kept on.send_continue }
    {
        self.parts.can_continue(&self.config)
    }

    /// Whether the open request may be answered.
    pub fn can_answer(&self) -> bool
        ensures { (head : AnswerHead) (size : BodySize) → result ≡ allowed_by (setting_of self.now.settings) self.now.kept (on.answer head size) }
    {
        self.parts.can_answer(&self.config)
    }

    /// Whether a piece of the answer's body may be handed in.
    pub fn can_chunk(&self) -> bool
        ensures { (bytes : List ℕ) → result ≡ allowed_by (setting_of self.now.settings) self.now.kept (on.chunk bytes) }
    {
        self.parts.can_chunk(&self.config)
    }

    /// Whether the answer's body may end or fail.
    pub fn can_end_answer(&self) -> bool
        ensures ends { result ≡ allowed_by (setting_of self.now.settings) self.now.kept on.body_end }
        ensures fails { result ≡ allowed_by (setting_of self.now.settings) self.now.kept on.body_error }
    {
        self.parts.can_end_answer(&self.config)
    }

    /// Whether bytes may be written: all the time but after the connection's end.
    pub fn can_write(&self) -> bool
        ensures { (limit : ℕ) → result ≡ allowed_by (setting_of self.now.settings) self.now.kept (on.write limit) }
    {
        self.parts.can_write(&self.config)
    }

    /// Whether this moment may come.
    pub fn can_tick(&self, moment: u64) -> bool
        ensures { result ≡ allowed_by (setting_of self.now.settings) self.now.kept (on.tick moment) }
    {
        self.parts.can_tick(&self.config, moment)
    }

    /// Whether the connection may be drained.
    pub fn can_drain(&self) -> bool
        ensures { result ≡ allowed_by (setting_of self.now.settings) self.now.kept on.drain }
    {
        self.parts.can_drain(&self.config)
    }

    /// The least moment whose tick would tell that a time has run out, in milliseconds after the start of 1970; none where
    /// no tick would. Who drives the connection may sleep until then.
    pub fn deadline(&self) -> Option<u64>
        ensures value { result ≡ deadline_by (setting_of self.now.settings) self.now.kept }
        ensures traced { (trace : List sums.Step) → Stands self.now trace → IsDeadline (setting_of self.now.settings) trace result }
    {
        self.parts.deadline(&self.config)
    }

    /// How many more bytes of the input may be held. A read takes no more.
    pub fn read_room(&self) -> usize
        ensures { result ≡ self.now.settings.h1_hold_size - length self.now.kept.unread }
    {
        self.config
            .h1_hold_size()
            .saturating_sub(self.parts.input.len())
    }

    /// How many bytes may be put after those that wait to be written before pieces of a body have to wait: while it is
    /// above 0 there is room for one.
    pub fn write_room(&self) -> usize
        ensures { result ≡ self.now.settings.h1_write_buffer_size - length self.now.kept.buffered }
    {
        self.config
            .h1_write_buffer_size()
            .saturating_sub(self.parts.output.len())
    }
}
