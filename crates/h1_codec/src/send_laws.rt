//! Laws of messages that are sent.
ghost use Rattle.std.specs.Prelude.{◌≡◌, ◌++◌, Some, true, false};
ghost use Rattle.http_framing.specs.declared.body.size.BodySize.{BodySize as Size};
ghost use Rattle.http_types.specs.Response.{FullResponse};
ghost use Rattle.model_h1.specs.Setting.{Setting, keeps};
ghost use Rattle.model_h1.specs.Text.{answer_head_text};
ghost use Rattle.h1_encoder.specs.Encoding.{encoded_all};
ghost use Rattle.h1_encoder.specs.Meaning.{answer_of, size_of};
ghost use Rattle.h1_codec.specs.ServerState.{codec_settings, codec_asked, codec_moment, is_enabled, begun, Writes};
ghost use Rattle.h1_codec.specs.declared.server_codec.Codec.{Codec};
ghost use Rattle.h1_codec.specs.View.{View};
ghost use Rattle.h1_codec.specs.Sends.{Sends, filled};

use crate::Message;
use http_framing::{BodySize, Encoder};

/// What one poll sends and what the next one sends is sent as by one: the head, the chunks and the end stand in order,
/// once each, and nothing is lost between the polls.
pub fn polls_send_one_message<U, H>()
where
    U: Encoder<Message<(H, BodySize)>>,
    ensures { (u v w : View U H) → Sends U.writes u v → Sends U.writes v w → Sends U.writes u w }
{}

/// A whole answer that a server's codec sent is the head's text of the definitions, for each setting that keeps connections
/// alive where the codec does, and the text of all chunks of the body that have bytes, with its end.
pub fn an_answer_is_its_text()
    ensures { (old new : View Codec (FullResponse Unit)) (answer : FullResponse Unit) (size : Size) (sends : Sends Writes old new) (setting : Setting)
        → old.head ≡ Some (answer, size) → old.is_ended ≡ false → new.is_ended ≡ true
        → keeps setting.keep_alive ≡ is_enabled (codec_settings old.codec).keep_alive
        → sends.text ≡ answer_head_text setting false (codec_asked old.codec) (answer_of answer.head) (size_of size) (codec_moment old.codec)
        ++ encoded_all (begun (codec_asked old.codec) answer.head size) (filled sends.given) }
{}
