//! The laws of what heads that were read say.
ghost use Rattle.http_types.specs.ConnectionType.{IsTypeOf};
ghost use Rattle.http_types.specs.RequestHead.{request_flags};
ghost use Rattle.h1_decoder.specs.HeadItem.{SaysHead, connection_type_of};
ghost use Rattle.model_client.specs.AnswerReading.{Answer, answer_is, IsAnswerReading};
ghost use Rattle.h1_decoder.specs.ResponseItem.{SaysAnswer};
ghost use Rattle.h1_decoder.specs.declared.decoder.HeadItem.{HeadItem};
ghost use Rattle.h1_decoder.specs.declared.response.ResponseItem.{ResponseItem};
ghost use Rattle.model_h1.specs.Request.{Head, head_is};
ghost use Rattle.model_h1.specs.RequestHead.{IsReading};
ghost use Rattle.std.specs.Prelude.{ℕ, List};

/// What the marks and the version of an answer's head ask of the connection is what was read: a body that only the end of
/// the input ends closes it.
pub fn marks_tell_the_answers_connection()
    ensures { (piece : List ℕ) (item : ResponseItem) (a : Answer) → IsAnswerReading piece (answer_is a) → SaysAnswer item a
        → IsTypeOf item.head.flags item.head.version (connection_type_of a.connection) }
{}

/// What its marks and its version ask of the connection is what was read.
pub fn marks_tell_the_connection()
    ensures { (piece : List ℕ) (item : HeadItem) (h : Head) → IsReading piece (head_is h) → SaysHead item h
        → IsTypeOf (request_flags item.head) item.head.version (connection_type_of h.connection) }
{}
