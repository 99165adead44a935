//! The laws of the answer that is found in what came of a server.

ghost use Rattle.std.specs.Prelude.{◌≡◌, ℕ, List};
ghost use Rattle.model_client.specs.AnswerParse.{Received};
ghost use Rattle.model_proxy.specs.Answers.{Found, IsAnswer};

/// Any bytes have an answer, if only one that isn't whole yet or is bad.
pub fn an_answer_is_always_found()
    ensures { (r : Received) (method : List ℕ) → (found : Found) × IsAnswer r method found }
{}

/// And they have one alone: a forwarder has no choice what it reads.
pub fn one_answer_is_found()
    ensures { (r : Received) (method : List ℕ) (a b : Found) → IsAnswer r method a → IsAnswer r method b → a ≡ b }
{}
