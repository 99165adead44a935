//! The words of the program.
ghost use Rattle.std.specs.Prelude.{◌≡◌, ℕ, IfSome, IsNone, map, string_bytes};
ghost use Rattle.board_server.specs.Words.{Spells, AreNumbers, AreWords};

/// The most connections.
const MOST: usize = 65_536;

/// The words: the port, how many connections are served at most, and how often each is polled at most.
#[derive(Clone, Copy, Debug, PartialEq, Eq)]
pub(crate) struct Words {
    pub(crate) port: u16,
    pub(crate) most: usize,
    pub(crate) polls: u64,
}

/// Reads the words.
pub(crate) fn read_words(words: &[String]) -> Option<Words>
    ensures some { IfSome result (λ w. AreWords (map (λ s. string_bytes s) words.now) w.port w.most w.polls) }
    ensures none { IsNone result → (port most polls : ℕ) → ¬ AreWords (map (λ s. string_bytes s) words.now) port most polls }
{
    let [port, most, polls] = words else {
        return None;
    };
    read_numbers(port.as_str(), most.as_str(), polls.as_str())
}

/// Reads three numbers, of which the second isn't too large, and the last isn't 0.
fn read_numbers(port: &str, most: &str, polls: &str) -> Option<Words>
    ensures some { IfSome result (λ w. AreNumbers port.now most.now polls.now w.port w.most w.polls) }
    ensures none { IsNone result → (p m n : ℕ) → ¬ AreNumbers port.now most.now polls.now p m n }
{
    let port = port_of(port)?;
    let most = count_of(most)?;
    let polls = polls_of(polls)?;
    if most > MOST || polls == 0 {
        return None;
    }
    Some(Words { port, most, polls })
}

/// A port.
fn port_of(word: &str) -> Option<u16>
    ensures some { IfSome result (λ n. Spells 16 word.now n) }
    ensures none { IsNone result → (n : ℕ) → ¬ Spells 16 word.now n }
{
    match word.parse() {
        Ok(port) => Some(port),
        Err(_) => None,
    }
}

/// A count.
fn count_of(word: &str) -> Option<usize>
    ensures some { IfSome result (λ n. Spells 64 word.now n) }
    ensures none { IsNone result → (n : ℕ) → ¬ Spells 64 word.now n }
{
    match word.parse() {
        Ok(count) => Some(count),
        Err(_) => None,
    }
}

/// A number of polls.
fn polls_of(word: &str) -> Option<u64>
    ensures some { IfSome result (λ n. Spells 64 word.now n) }
    ensures none { IsNone result → (n : ℕ) → ¬ Spells 64 word.now n }
{
    match word.parse() {
        Ok(polls) => Some(polls),
        Err(_) => None,
    }
}
