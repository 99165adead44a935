// Why a connection closes.
ghost use Rattle.std.specs.Prelude.{◌≡◌, ◌&&◌, ◌||◌, not, None, option_map};
ghost use Rattle.std.specs.Option.{option_or};
ghost use Rattle.model_h1.specs.Closing.{end_where};
ghost use Rattle.model_h1.specs.End as ends;
ghost use Rattle.model_state.specs.Kept.{of_exchange, is_open, is_upgraded};
ghost use Rattle.model_state.specs.Local.{closing_by, answered_end, drained_end, input_end, is_exhausted, has_no_frame};
ghost use Rattle.h1_connection.specs.EventMeaning.{setting_of, end_of};
ghost use Rattle.h1_connection.specs.Parts.{kept_of, HasNoneBehind, MayBeSearched, IsSound};

use crate::End;
use crate::connection::parts::Parts;
use http_types::ServiceConfig;

impl Parts {
    /// Why the connection closes, if it does: the first reason that holds.
    pub fn closing(&self, config: &ServiceConfig) -> Option<End>
        requires { MayBeSearched self.now }
        ensures { option_map end_of result ≡ closing_by (setting_of config.now) (kept_of self.now) }
    {
        match self.failed {
            Some(end) => Some(end),
            None => self.closing_unless_failed(config),
        }
    }

    /// The same behind an event, where it is noted since when the connection closes: where none is, it doesn't.
    pub fn noted_closing(&self, config: &ServiceConfig) -> Option<End>
        requires { IsSound config.now self.now }
        ensures { option_map end_of result ≡ closing_by (setting_of config.now) (kept_of self.now) }
    {
        match self.closing_since {
            Some(_) => self.closing(config),
            None => None,
        }
    }

    fn closing_unless_failed(&self, config: &ServiceConfig) -> Option<End>
        requires { MayBeSearched self.now }
        ensures { option_map end_of result
            ≡ option_or (answered_end (kept_of self.now).exchange) (option_or (drained_end (kept_of self.now)) (input_end (setting_of config.now) (kept_of self.now))) }
    {
        match self.answered_end() {
            Some(end) => Some(end),
            None => self.closing_unless_answered(config),
        }
    }

    fn closing_unless_answered(&self, config: &ServiceConfig) -> Option<End>
        requires { MayBeSearched self.now }
        ensures { option_map end_of result ≡ option_or (drained_end (kept_of self.now)) (input_end (setting_of config.now) (kept_of self.now)) }
    {
        if self.is_drained() {
            return Some(End::Drained);
        }
        if self.has_ended {
            return self.input_end(config);
        }
        None
    }

    // Behind a complete answer: it was the last, or the request's body isn't read to its end.
    fn answered_end(&self) -> Option<End>
        ensures { option_map end_of result ≡ answered_end (kept_of self.now).exchange }
    {
        match &self.exchange {
            Some(exchange) => exchange.end(),
            None => None,
        }
    }

    // The connection is to end, and no answer is waited for.
    fn is_drained(&self) -> bool
        ensures { result ≡ (self.now.is_draining && (not (is_open (kept_of self.now)) || is_upgraded (kept_of self.now))) }
    {
        if !self.is_draining {
            return false;
        }
        let is_open = self.is_open();
        !is_open || self.is_upgraded()
    }

    // At the end of the input: half-closed connections aren't kept, or nothing more comes that could be handed out.
    fn input_end(&self, config: &ServiceConfig) -> Option<End>
        requires { MayBeSearched self.now }
        ensures { option_map end_of result ≡ option_or (end_where (not config.now.h1_allow_half_closed) ends.half_closed) (end_where (is_exhausted (kept_of self.now)) ends.input_ended) }
    {
        if !config.h1_allow_half_closed() {
            return Some(End::HalfClosed);
        }
        if self.is_exhausted() {
            return Some(End::InputEnded);
        }
        None
    }

    // Nothing that was read could still be handed out: no request is open and no head is coming, or of a WebSocket no
    // whole frame is there.
    fn is_exhausted(&self) -> bool
        requires { MayBeSearched self.now }
        ensures { result ≡ is_exhausted (kept_of self.now) }
    {
        if self.is_upgraded() {
            return self.waits_for_frame();
        }
        let is_open = self.is_open();
        !is_open && !self.input.is_coming()
    }

    fn waits_for_frame(&self) -> bool
        requires unsearched { self.now.input.piece ≡ None }
        requires behind { HasNoneBehind (kept_of self.now) self.now.input.ahead }
        ensures { result ≡ of_exchange (λ x. has_no_frame self.now.input.unread x.rest) (kept_of self.now) }
    {
        match &self.exchange {
            Some(exchange) => exchange.rest.waits_for_frame(&self.input),
            None => false,
        }
    }
}
