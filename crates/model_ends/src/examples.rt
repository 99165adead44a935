//! Worked examples: what a history has asked and handed out, and what is no body.

ghost use Rattle.std.specs.Prelude.{◌≡◌, [], ◌∷◌, codes, map, true, false};
ghost use Rattle.model_h1.specs.Request.{fixed_body};
ghost use Rattle.model_h1.specs.Handed.{item_bytes, item_end};
ghost use Rattle.model_client.specs.AnswerReading.{answer_is};
ghost use Rattle.model_client.specs.Examples.{ok};
ghost use Rattle.model_h1.specs.Laws.ExampleTraces.{usual};
ghost use Rattle.model_ends.specs.Connected.{AreConnected, ArePlain};
ghost use Rattle.model_ends.specs.AskedTrace.{requests_asked, is_all_asked, carried_so_far};
ghost use Rattle.model_ends.specs.HandedBody.{IsHandedBody};
ghost use Rattle.model_client.specs.ReadOut.{read_out};
ghost use Rattle.model_ends.specs.TwoEndsSamples.{begun_post, whole_post, get_happened, get_served, kept_answered};

/// A POST of three bytes: while one has come it is under way, and once all have, it is whole.
pub fn a_request_is_asked()
    ensures begun { map is_all_asked (requests_asked begun_post) ≡ false ∷ [] }
    ensures begun_bytes { map carried_so_far (requests_asked begun_post) ≡ codes "a" ∷ [] }
    ensures whole { map is_all_asked (requests_asked whole_post) ≡ true ∷ [] }
    ensures whole_bytes { map carried_so_far (requests_asked whole_post) ≡ codes "abc" ∷ [] }
{}

/// Its answer, of which two pieces and the end are handed out.
pub fn an_answer_is_read()
    ensures { read_out whole_post ≡ record {
      stray = [];
      answers = record {
        reading = answer_is (ok (fixed_body 2));
        items = item_bytes (codes "h") ∷ item_bytes (codes "i") ∷ item_end ∷ [];
      } ∷ [];
    } }
{}

/// A body of two bytes is handed out in two pieces and with its end, or in one piece so far. No end comes twice, none in front
/// of a piece, and none before all bytes have come.
pub fn bodies()
    ensures whole { IsHandedBody false true (codes "hi") (item_bytes (codes "h") ∷ item_bytes (codes "i") ∷ item_end ∷ []) }
    ensures begun { IsHandedBody false true (codes "hi") (item_bytes (codes "h") ∷ []) }
    ensures no_second_end { ¬ (IsHandedBody false true [] (item_end ∷ item_end ∷ [])) }
    ensures no_early_end { ¬ (IsHandedBody false true (codes "hi") (item_end ∷ item_bytes (codes "hi") ∷ [])) }
{}

/// A whole exchange, from the event that asks a GET to the answer that the client hands out, is one of a client and a server that
/// are driven against each other, and all in it is plain: so the laws speak of something.
pub fn a_whole_exchange_is_plain()
    ensures connected { AreConnected usual usual get_happened kept_answered get_served }
    ensures plain { ArePlain usual usual get_happened get_served }
{}
