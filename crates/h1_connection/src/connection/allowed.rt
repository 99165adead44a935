// Which events may come next.
ghost use Rattle.std.specs.Prelude.{◌≡◌, ◌+◌, ◌&&◌, ◌||◌, not, nat_le, is_some, ℕ, List};
ghost use Rattle.model_h1.specs.Answer.{AnswerHead, BodySize};
ghost use Rattle.model_h1.specs.Event as on;
ghost use Rattle.model_h1.specs.Frame.{Message};
ghost use Rattle.model_h1.specs.Limits.{MAX_FRAME_HEAD};
ghost use Rattle.model_state.specs.Kept.{of_exchange, is_frames, is_unanswered, is_answered, is_upgraded};
ghost use Rattle.model_state.specs.Local.{closing_by, allowed_by, has_body_left, waits_for_answer, is_answering, is_moment};
ghost use Rattle.h1_connection.specs.Given.{next_allowed, frame_allowed};
ghost use Rattle.h1_connection.specs.EventMeaning.{setting_of, event_of};
ghost use Rattle.h1_connection.specs.Parts.{kept_of, reply_of, IsSound};

use crate::Event;
use crate::connection::exchange::Exchange;
use crate::connection::parts::Parts;
use http_types::ServiceConfig;

/// The first millisecond of the year 10000.
pub const MOMENTS_END: u64 = 253_402_300_800_000;

/// The most bytes of a frame that are not its payload (RFC 6455, section 5.2).
const FRAME_HEAD_SIZE: usize = 14;

impl Parts {
    /// Whether the event may come next.
    pub fn allowed(&self, config: &ServiceConfig, event: &Event) -> bool
        requires { IsSound config.now self.now }
        ensures { result ≡ allowed_by (setting_of config.now) (kept_of self.now) (event_of event.now) }
    {
        match event {
            Event::Read(_) => self.can_read(config),
            Event::Eof => self.can_read(config),
            Event::Next => self.can_next(config),
            Event::Pull => self.may_pull(config),
            Event::DropBody => self.can_pull(config),
            Event::Continue => self.can_continue(config),
            Event::Answer(_, _) => self.can_answer(config),
            Event::Chunk(_) => self.can_chunk(config),
            Event::BodyEnd => self.can_end_answer(config),
            Event::BodyError => self.can_end_answer(config),
            Event::Write(_) => self.can_write(config),
            Event::Tick(moment) => self.can_tick(config, *moment),
            Event::Drain => self.can_drain(config),
            Event::Accept(limit) => self.can_accept(config, *limit),
            Event::Send(_) => self.can_send(config),
        }
    }

    // The connection is neither over nor closes.
    fn is_running(&self, config: &ServiceConfig) -> bool
        requires { IsSound config.now self.now }
        ensures { result ≡ (not self.now.is_over && not (is_some (closing_by (setting_of config.now) (kept_of self.now)))) }
    {
        !self.is_over && self.noted_closing(config).is_none()
    }

    #[tactic(auto, unfolding(model_state::specs::Local::allowed_by))]
    pub fn can_read(&self, config: &ServiceConfig) -> bool
        requires { IsSound config.now self.now }
        ensures read { (bytes : List ℕ) → result ≡ allowed_by (setting_of config.now) (kept_of self.now) (on.read bytes) }
        ensures eof { result ≡ allowed_by (setting_of config.now) (kept_of self.now) on.eof }
    {
        self.is_running(config) && !self.has_ended
    }

    #[tactic(auto, unfolding(model_state::specs::Local::allowed_by))]
    pub fn can_next(&self, config: &ServiceConfig) -> bool
        requires { IsSound config.now self.now }
        ensures { result ≡ allowed_by (setting_of config.now) (kept_of self.now) on.next }
    {
        let is_open = self.is_open();
        let closes = self.noted_closing(config).is_some();
        !self.is_over && (closes || !is_open)
    }

    /// The same, and where the connection closes nothing waits to be written.
    pub fn can_ask(&self, config: &ServiceConfig) -> bool
        requires { IsSound config.now self.now }
        ensures { result ≡ next_allowed (setting_of config.now) (kept_of self.now) }
    {
        let closes = self.noted_closing(config).is_some();
        let is_written = self.output.is_empty();
        self.can_next(config) && (!closes || is_written)
    }

    #[tactic(auto, unfolding(model_state::specs::Local::allowed_by))]
    pub fn can_pull(&self, config: &ServiceConfig) -> bool
        requires { IsSound config.now self.now }
        ensures { result ≡ allowed_by (setting_of config.now) (kept_of self.now) on.drop_body }
    {
        let is_left = self.has_body_left();
        self.is_running(config) && is_left
    }

    /// The same, of a frame.
    #[tactic(auto, unfolding(model_state::specs::Local::allowed_by))]
    pub fn can_pull_frame(&self, config: &ServiceConfig) -> bool
        requires { IsSound config.now self.now }
        ensures { result ≡ frame_allowed (setting_of config.now) (kept_of self.now) }
    {
        let is_upgraded = self.is_upgraded();
        self.is_running(config) && is_upgraded
    }

    // A pull, of a body or of a frame.
    fn may_pull(&self, config: &ServiceConfig) -> bool
        requires { IsSound config.now self.now }
        ensures { result ≡ allowed_by (setting_of config.now) (kept_of self.now) on.pull }
    {
        if self.can_pull(config) {
            return true;
        }
        self.can_pull_frame(config)
    }

    #[tactic(auto, unfolding(model_state::specs::Local::allowed_by))]
    pub fn can_accept(&self, config: &ServiceConfig, limit: usize) -> bool
        requires { IsSound config.now self.now }
        ensures { result ≡ allowed_by (setting_of config.now) (kept_of self.now) (on.accept limit) }
    {
        let may_upgrade = self.may_upgrade();
        self.is_running(config) && may_upgrade && holds_frame(config, limit)
    }

    #[tactic(auto, unfolding(model_state::specs::Local::allowed_by))]
    pub fn can_send(&self, config: &ServiceConfig) -> bool
        requires { IsSound config.now self.now }
        ensures { (message : Message) → result ≡ allowed_by (setting_of config.now) (kept_of self.now) (on.send message) }
    {
        let has_room = self.output.len() < config.h1_write_buffer_size();
        let is_upgraded = self.is_upgraded();
        self.is_running(config) && is_upgraded && has_room
    }

    #[tactic(auto, unfolding(model_state::specs::Local::allowed_by))]
    pub fn can_continue(&self, config: &ServiceConfig) -> bool
        requires { IsSound config.now self.now }
        ensures { result ≡ allowed_by (setting_of config.now) (kept_of self.now) on.send_continue }
    {
        let waits = self.waits_for_continue();
        self.is_running(config) && waits
    }

    #[tactic(auto, unfolding(model_state::specs::Local::allowed_by))]
    pub fn can_answer(&self, config: &ServiceConfig) -> bool
        requires { IsSound config.now self.now }
        ensures { (head : AnswerHead) (size : BodySize) → result ≡ allowed_by (setting_of config.now) (kept_of self.now) (on.answer head size) }
    {
        let waits = self.waits_for_answer();
        self.is_running(config) && waits
    }

    #[tactic(auto, unfolding(model_state::specs::Local::allowed_by))]
    pub fn can_chunk(&self, config: &ServiceConfig) -> bool
        requires { IsSound config.now self.now }
        ensures { (bytes : List ℕ) → result ≡ allowed_by (setting_of config.now) (kept_of self.now) (on.chunk bytes) }
    {
        let has_room = self.output.len() < config.h1_write_buffer_size();
        let is_answering = self.is_answering();
        self.is_running(config) && is_answering && has_room
    }

    #[tactic(auto, unfolding(model_state::specs::Local::allowed_by))]
    pub fn can_end_answer(&self, config: &ServiceConfig) -> bool
        requires { IsSound config.now self.now }
        ensures ends { result ≡ allowed_by (setting_of config.now) (kept_of self.now) on.body_end }
        ensures fails { result ≡ allowed_by (setting_of config.now) (kept_of self.now) on.body_error }
    {
        let is_answering = self.is_answering();
        self.is_running(config) && is_answering
    }

    // `config` is named by the clause alone.
    #[tactic(auto, unfolding(model_state::specs::Local::allowed_by))]
    pub fn can_write(&self, config: &ServiceConfig) -> bool
        ensures { (limit : ℕ) → result ≡ allowed_by (setting_of config.now) (kept_of self.now) (on.write limit) }
    {
        let _ = config;
        !self.is_over
    }

    // The same, of a moment, which never goes back.
    #[tactic(auto, unfolding(model_state::specs::Local::allowed_by))]
    pub fn can_tick(&self, config: &ServiceConfig, moment: u64) -> bool
        ensures { result ≡ allowed_by (setting_of config.now) (kept_of self.now) (on.tick moment) }
    {
        let _ = config;
        !self.is_over && self.clock.now() <= moment && moment < MOMENTS_END
    }

    #[tactic(auto, unfolding(model_state::specs::Local::allowed_by))]
    pub fn can_drain(&self, config: &ServiceConfig) -> bool
        requires { IsSound config.now self.now }
        ensures { result ≡ allowed_by (setting_of config.now) (kept_of self.now) on.drain }
    {
        self.is_running(config) && !self.is_draining
    }

    // The open request has a body whose end, fault or drop hasn't come.
    fn has_body_left(&self) -> bool
        ensures { result ≡ (not (is_upgraded (kept_of self.now)) && has_body_left (kept_of self.now)) }
    {
        match &self.exchange {
            Some(exchange) => exchange.has_body_left(),
            None => false,
        }
    }

    // The open request is raw and waits for its answer, and nothing of its body was asked for or dropped.
    fn may_upgrade(&self) -> bool
        ensures { result ≡ (waits_for_answer (kept_of self.now) && of_exchange (λ x. x.asked.is_raw && not (x.was_pulled || x.was_dropped)) (kept_of self.now)) }
    {
        match &self.exchange {
            Some(exchange) => {
                let waits = exchange.waits_for_answer();
                let is_raw = exchange.request.asked.is_raw();
                let is_whole = !(exchange.was_pulled || exchange.was_dropped);
                waits && (is_raw && is_whole)
            }
            None => false,
        }
    }

    // The open request has no answer.
    fn waits_for_answer(&self) -> bool
        ensures { result ≡ waits_for_answer (kept_of self.now) }
    {
        match &self.exchange {
            Some(exchange) => exchange.waits_for_answer(),
            None => false,
        }
    }

    // Nor was its client, which waits to be told to go on, told so.
    fn waits_for_continue(&self) -> bool
        ensures { result ≡ (waits_for_answer (kept_of self.now) && of_exchange (λ x. x.expects && not x.had_continue) (kept_of self.now)) }
    {
        match &self.exchange {
            Some(exchange) => {
                let waits = exchange.waits_for_answer();
                waits && exchange.request.expects && !exchange.had_continue
            }
            None => false,
        }
    }

    // An answer is handed in and isn't complete.
    fn is_answering(&self) -> bool
        ensures { result ≡ is_answering (kept_of self.now) }
    {
        match &self.exchange {
            Some(exchange) => exchange.reply.is_sending(),
            None => false,
        }
    }
}

impl Exchange {
    // There is a body whose end, fault or drop hasn't come, and the answer isn't complete.
    fn has_body_left(&self) -> bool
        ensures { result ≡ (not (is_frames self.now.rest) && (self.now.request.has_body && not (self.now.body_is_done || self.now.was_dropped)
            && (is_frames self.now.rest || not (is_answered (reply_of self.now.reply))))) }
    {
        let is_left = self.request.has_body && !(self.body_is_done || self.was_dropped);
        let is_open = self.is_open();
        !self.rest.is_frames() && (is_left && is_open)
    }

    // There is no answer, and no frames are read.
    fn waits_for_answer(&self) -> bool
        ensures { result ≡ (is_unanswered (reply_of self.now.reply) && not (is_frames self.now.rest)) }
    {
        let is_frames = self.rest.is_frames();
        self.reply.is_unanswered() && !is_frames
    }
}

// Whether as many bytes may be held as a frame has at most whose payload has so many.
fn holds_frame(config: &ServiceConfig, limit: usize) -> bool
    ensures { result ≡ nat_le (limit + MAX_FRAME_HEAD) config.now.h1_hold_size }
{
    let hold_size = config.h1_hold_size();
    match limit.checked_add(FRAME_HEAD_SIZE) {
        Some(size) => size <= hold_size,
        None => false,
    }
}
