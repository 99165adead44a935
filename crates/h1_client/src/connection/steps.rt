// What bytes, the end of the input, writes and ticks do to the parts.
ghost use Rattle.std.specs.Prelude.{◌≡◌, ◌≤◌, ◌<◌, length, take, IfOk, OnOk, OnErr};
ghost use Rattle.model_h1.specs.Limits.{MAX_MOMENT};
ghost use Rattle.model_h1.specs.Setting.{Setting};
ghost use Rattle.model_client.specs.ClientEvent as on;
ghost use Rattle.h1_client.specs.ClientMeaning.{setting_of};
ghost use Rattle.h1_client.specs.Parts.{kept_of, IsSound, Steps};

use crate::connection::parts::Parts;
use http_types::{NoMemory, ServiceConfig};

impl Parts {
    /// Takes the bytes that there is room for, and says how many.
    pub fn read(&mut self, config: &ServiceConfig, bytes: &[u8]) -> Result<usize, NoMemory>
        requires { IsSound self.old }
        ensures ok { IfOk result (λ count. Steps (setting_of config.now) self.old (on.read bytes.now) (on.took count) self.new) }
        ensures sound { OnOk result (IsSound self.new) }
        ensures err { OnErr result (self.new ≡ self.old) }
    {
        let count = self.input.take(bytes, config.h1_hold_size())?;
        self.pass_body();
        self.settle();
        Ok(count)
    }

    /// The server sends no more bytes.
    pub fn eof(&mut self)
        requires { IsSound self.old }
        ensures ok { (setting : Setting) → Steps setting self.old on.eof on.done self.new }
        ensures sound { IsSound self.new }
    {
        self.has_ended = true;
        self.end_body_of_answer();
        self.pass_body();
        self.settle();
    }

    /// Lets the first bytes go that were to be written.
    pub fn advance(&mut self, count: usize)
        requires sound { IsSound self.old }
        requires fits { count ≤ length (kept_of self.old).buffered }
        ensures ok { (setting : Setting) → Steps setting self.old (on.write count) (on.gave (take count (kept_of self.old).buffered)) self.new }
        ensures sound { IsSound self.new }
    {
        self.output.advance(count);
    }

    /// A moment has come.
    pub fn tick(&mut self, moment: u64)
        requires sound { IsSound self.old }
        requires before { moment < MAX_MOMENT }
        ensures ok { (setting : Setting) → Steps setting self.old (on.tick moment) on.done self.new }
        ensures sound { IsSound self.new }
    {
        self.moment = moment;
    }
}
