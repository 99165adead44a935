//! Laws of the text that a connection writes.

ghost use Rattle.std.specs.Prelude.{◌≡◌, ℕ, ◌<◌, true, List, [], ◌++◌, drop, map, All, Some};
ghost use Rattle.httpdate.specs.declared.date.HttpDate.{HttpDate as Date};
ghost use Rattle.httpdate.specs.Date.{unix_secs, date_text};
ghost use Rattle.model_h1.specs.AnswerText.{date_of};
ghost use Rattle.model_h1.specs.Setting.{Setting};
ghost use Rattle.model_h1.specs.Sums.{Step};
ghost use Rattle.model_h1.specs.Text.{text};
ghost use Rattle.model_h1.specs.Trace.{IsTrace};
ghost use Rattle.model_h1.specs.Laws.Exchanges.{is_whole, exchanges, exchanges_text, refusal, refusal_text, too_slow, heads, answers, answers_in};

/// The text of a second is that of its date in the calendar, and before the year 10000 each second has one.
pub fn date_is_the_calendars()
    ensures same { (seconds : ℕ) (date : Date) → unix_secs date ≡ seconds → date_of seconds ≡ date_text date }
    ensures exists { (seconds : ℕ) → seconds < 253_402_300_800
        → (date : Date) × (unix_secs date ≡ seconds) × (date_of seconds ≡ date_text date) }
{}

/// Answers stand in the order of their requests: the text of a trace is that of its exchanges, one for each head that
/// was handed out, and behind them at most one refusal. The text of an exchange is made of its own head and its own
/// reply alone. Each answer that was handed in is the reply of one exchange; each exchange but the newest has a whole
/// answer; and where no head came in time there is no exchange.
pub fn answers_stand_in_request_order()
    ensures text { (setting : Setting) (trace : List Step) → IsTrace setting trace
        → text setting trace ≡ exchanges_text setting (exchanges trace) ++ refusal_text (refusal trace) }
    ensures heads { (trace : List Step) → map (λ e. e.head) (exchanges trace) ≡ heads trace }
    ensures answers { (setting : Setting) (trace : List Step) → IsTrace setting trace → answers_in (exchanges trace) ≡ answers trace }
    ensures whole { (setting : Setting) (trace : List Step) → IsTrace setting trace
        → All (λ e. is_whole e.reply ≡ true) (drop 1 (exchanges trace)) }
    ensures slow { (setting : Setting) (trace : List Step) (moment : ℕ) → IsTrace setting trace
        → refusal trace ≡ Some (too_slow moment) → exchanges trace ≡ [] }
{}
