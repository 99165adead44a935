//! Worked examples: ordinary heads meet what the laws ask of them.

ghost use Rattle.std.specs.Prelude.{◌≡◌, [], ◌∷◌, codes, true, false};
ghost use Rattle.model_h1.specs.Request.{close, keep_alive};
ghost use Rattle.model_h1.specs.Answer.{size_none, size_of, size_stream, shape_none, asked_of, type_of};
ghost use Rattle.model_h1.specs.AnswerText.{head_text};
ghost use Rattle.model_h1.specs.Laws.ExampleTraces.{ok, usual, get_head};
ghost use Rattle.model_client.specs.AnswerParse.{is_interim, counts_each};
ghost use Rattle.model_client.specs.WrittenHead.{written_lines, IsReadBack};
ghost use Rattle.model_client.specs.RequestText.{IsPlainGiven};
ghost use Rattle.model_ends.specs.PlainExchange.{IsPlainTrace};
ghost use Rattle.model_ends.specs.SentAnswer.{CountsAnswers, IsWaiting, sent_answer};
ghost use Rattle.model_ends.specs.AgreementSamples.{head_head, no_content, not_modified, not_modified_with_length, given, IsPlainAnswer, get_trace};

/// The head of an empty answer at the first moment is read back as it is written.
pub fn an_ordinary_head_is_read_back()
    ensures { IsReadBack (head_text 1 ok shape_none (size_of 0) keep_alive 0) 1 200 (codes "OK") (written_lines 1 ok shape_none (size_of 0) keep_alive 0) }
{}

/// An answer without a body says where it ends.
pub fn an_empty_answer_is_plain()
    ensures { IsPlainAnswer get_head (given ok (size_of 0) [] false) true }
{}

/// So does one of two bytes in two pieces; with the first piece alone it is under way.
pub fn an_answer_of_a_length_is_plain()
    ensures whole { IsPlainAnswer get_head (given ok (size_of 2) (codes "a" ∷ codes "b" ∷ []) true) true }
    ensures part { IsPlainAnswer get_head (given ok (size_of 2) (codes "a" ∷ []) false) false }
{}

/// So does a stream in two pieces, of which the second is empty; until it is ended it is under way.
pub fn a_stream_is_plain()
    ensures whole { IsPlainAnswer get_head (given ok size_stream (codes "ab" ∷ [] ∷ []) true) true }
    ensures part { IsPlainAnswer get_head (given ok size_stream (codes "ab" ∷ [] ∷ []) false) false }
{}

/// So does one to HEAD, which states a length and carries nothing: its head is all of it.
pub fn an_answer_to_head_is_plain()
    ensures { IsPlainAnswer head_head (given ok (size_of 2) [] false) true }
{}

/// 204 and 304 have no body, and need no length; a 304 may tell the length that another answer would have had.
pub fn some_statuses_are_plain()
    ensures no_content { IsPlainAnswer get_head (given no_content size_none [] true) true }
    ensures not_modified { IsPlainAnswer get_head (given not_modified size_none [] true) true }
    ensures with_length { IsPlainAnswer get_head (given not_modified_with_length size_none [] true) true }
{}

/// An answer to HEAD that states no length is read as one that closes, while the server keeps the connection.
pub fn head_without_a_length()
    ensures plain { IsPlainAnswer head_head (given ok size_none [] true) true }
    ensures server { type_of usual false (asked_of head_head) ok size_none ≡ keep_alive }
    ensures client { (sent_answer usual head_head (given ok size_none [] true)).answer.connection ≡ close }
{}

/// A client's POST of three bytes is plain, where a server holds 8,192 bytes.
pub fn an_ordinary_post_is_plain()
    ensures { IsPlainGiven 8192
        (record {
          head = record {
            method = codes "POST";
            target = codes "/";
            minor = 1;
            in_camel_case = false;
            headers = record { name = codes "host"; value = codes "a" } ∷ [];
          };
          size = size_of 3;
          kind = keep_alive;
          moment = 0;
          pieces = codes "a" ∷ codes "bc" ∷ [];
        }) }
{}

/// 1xx but 101 are statuses after which a request waits on, and 100 is one of them.
pub fn interim_statuses()
    ensures counts { CountsAnswers is_interim }
    ensures continues { is_interim 100 ≡ true }
{}

/// A whole trace, one request from its bytes to those of its answer, meets all that the agreement of two ends asks: whether the
/// client counts a 100 as an answer or waits on after it.
pub fn a_whole_trace_is_plain()
    ensures plain { IsPlainTrace usual get_trace }
    ensures counts_each { IsWaiting counts_each get_trace }
    ensures waits_on { IsWaiting is_interim get_trace }
{}
