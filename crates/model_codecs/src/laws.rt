//! What a codec gives of what the other end wrote.

ghost use Rattle.std.specs.Prelude.{◌≡◌, ℕ, ◌<◌, false, List, [], ◌++◌, length, map, replicate, Some, None, Option, Result, IfOk, IfErr, OnOk, OnErr};
ghost use Rattle.std.specs.List.{AllByRecursion};
ghost use Rattle.h1_decoder.specs.declared.decoder.HeadItem.{HeadItem};
ghost use Rattle.model_client.specs.AnswerParse.{AnswerMessage, counts_each, AreAnswersIn};
ghost use Rattle.model_client.specs.RequestText.{IsPlainGiven};
ghost use Rattle.model_h1.specs.Parse as parse;
ghost use Rattle.model_h1.specs.Setting.{Setting};
ghost use Rattle.model_h1.specs.Sums.{Step};
ghost use Rattle.model_h1.specs.Text.{text};
ghost use Rattle.model_ends.specs.PlainExchange.{IsPlainTrace};
ghost use Rattle.model_ends.specs.SentAnswer.{SentAnswer, AreSent, AreHeld, sent_text, answers_sent};
ghost use Rattle.model_ends.specs.SentRequest.{SentRequest, IsAsked, sent_request, asked_text};
ghost use Rattle.h1_codec.specs.Kinds.{requests};
ghost use Rattle.h1_codec.specs.FramedMessages.{Standing};
ghost use Rattle.h1_codec.specs.ServerState.{codec_standing, CodecLeft, HasLookedAt};
ghost use Rattle.h1_codec.specs.Steps.{IsStep};
ghost use Rattle.h1_codec.specs.declared.server_codec.Codec.{Codec};
ghost use Rattle.http_framing.specs.declared.body.size.BodySize.{BodySize};
ghost use Rattle.http_types.specs.RequestHeadType.{shown_head};
ghost use Rattle.http_types.specs.declared.error.ParseError.{ParseError};
ghost use Rattle.http_types.specs.declared.requests.head_type.RequestHeadType.{RequestHeadType};
ghost use Rattle.h1_decoder.specs.declared.response.ResponseItem.{ResponseItem};
ghost use Rattle.h1_codec.specs.Kinds.{answers};
ghost use Rattle.h1_codec.specs.ServerAnswers.{IsHead};
ghost use Rattle.h1_codec.specs.declared.framed_message.Message.{Message};
ghost use Rattle.h1_codec.specs.declared.framed_message.Message.TheVariants.{Item, Chunk};
ghost use Rattle.h1_codec.specs.ClientAnswers.{IsHeadStep, IsChunkStep, ChunkLeft};
ghost use Rattle.h1_codec.specs.ClientPieces.{as_head};
ghost use Rattle.h1_codec.specs.ClientState.{of_codec, of_payload, client_standing, client_is_head, HeadLooked, PayloadLooked};
ghost use Rattle.h1_codec.specs.Writing.{Writes};
ghost use Rattle.h1_codec.specs.declared.client_error.ClientError.{ClientError};
ghost use Rattle.h1_codec.specs.declared.payload.ClientPayloadCodec.{ClientPayloadCodec};
ghost use Rattle.h1_codec.specs.declared.client_codec.ClientCodec.{ClientCodec};
ghost use Rattle.model_codecs.specs.Answers.{IsHeadAsked, IsChunkAsked, is_head, Turn, AreTurns, all_came, AreToTurns, AreRead, AreAllWhole};
ghost use Rattle.model_codecs.specs.Acts.{Act, bytes_came, HasAnswered, IsRun};
ghost use Rattle.model_codecs.specs.Given.{AreGiven};
ghost use Rattle.model_codecs.specs.Heard.{heard, refusal, heard_answers, answer_refusal, IsIdle, AreGivenOf};
ghost use Rattle.model_codecs.specs.Requests.{IsFresh, sent_of, WrittenRequest, IsWritten, given_of, text_of};

/// A server's codec that has read nothing gives the requests that were sent, in whatever pieces their bytes come: each head as
/// it was sent, all bytes of its body, and its end.
pub fn a_codec_gives_what_was_asked()
    ensures { (codec : Codec) (limit : ℕ) (sent : List SentRequest) (acts : List (Act HeadItem)) (more rest : List ℕ) (last : Standing) → 0 < limit
        → IsFresh (codec_standing codec) limit → AllByRecursion (IsAsked limit) sent → IsRun requests false (codec_standing codec) [] acts last rest
        → bytes_came acts ++ more ≡ asked_text sent → AreGiven requests false (map sent_of sent) acts more }
{}

/// Whatever bytes come to a server's codec that has read nothing, and in whatever pieces: what it gives is the beginning of the
/// one parse of them, each head with the bytes of its body and its end. An error is the fault for which that refuses the next head,
/// or a broken body, or says that as many bytes as the limit are left that hold no head's end. Where all bytes came and there is no further item,
/// all of the parse is given.
pub fn a_codec_gives_the_parse()
    ensures { (codec : Codec) (limit : ℕ) (acts : List (Act HeadItem)) (more rest : List ℕ) (last : Standing) (ms : List parse.Message)
        → IsFresh (codec_standing codec) limit → IsRun requests false (codec_standing codec) [] acts last rest
        → parse.IsParse (record { bytes = bytes_came acts ++ more; upgraded = None; ended = false; hold_size = limit }) ms
        → AreGivenOf requests false limit (heard (bytes_came acts ++ more) ms) (refusal ms) acts more rest }
{}

/// So do the codecs of a client in a turn, behind a request of this method: with the bytes that were left from before, what they
/// give is the beginning of the answers that the bytes hold, as those to requests of this method alone.
pub fn client_codecs_give_the_parse()
    ensures { (codec : ClientCodec) (limit count : ℕ) (method left : List ℕ) (acts : List (Act ResponseItem)) (more rest : List ℕ) (last : Standing)
        (ms : List AnswerMessage) → IsIdle (client_standing (of_codec codec)) limit left
        → IsRun answers (is_head method) (client_standing (of_codec codec)) left acts last rest → length ms < count
        → AreAnswersIn counts_each (record { bytes = left ++ (bytes_came acts ++ more); ended = false; hold_size = Some limit }) (replicate count method) ms
        → AreGivenOf answers (is_head method) limit (heard_answers (is_head method) (left ++ (bytes_came acts ++ more)) ms) (answer_refusal ms) acts more rest }
{}

/// What a client's codec writes for a request, its head, the pieces of its body and its end, is the text of the request.
pub fn requests_are_written()
    ensures { (w : WrittenRequest) → IsWritten w → w.text ≡ (sent_request (given_of w)).head ++ (sent_request (given_of w)).body }
{}

/// A server's codec that has read nothing gives the plain requests that a client's codec wrote, in whatever pieces their bytes
/// come.
pub fn a_codec_gives_what_a_client_wrote()
    ensures { (codec : Codec) (limit : ℕ) (wrote : List WrittenRequest) (acts : List (Act HeadItem)) (more rest : List ℕ) (last : Standing) → 0 < limit
        → IsFresh (codec_standing codec) limit → AllByRecursion IsWritten wrote → AllByRecursion (IsPlainGiven limit) (map given_of wrote)
        → IsRun requests false (codec_standing codec) [] acts last rest → bytes_came acts ++ more ≡ text_of wrote
        → AreGiven requests false (map sent_of (map sent_request (map given_of wrote))) acts more }
{}

/// The codecs of a client that have read nothing give the answers that were sent, in whatever pieces their bytes come, where
/// each request is written once the answer before its own is read to its end: each answer in the turn of its request, its head
/// as it was sent, all bytes of its body, and the end of that; and in the newest turn as much of its answer as came.
pub fn client_codecs_give_what_was_answered()
    ensures { (codec : ClientCodec) (limit : ℕ) (sent : List SentAnswer) (turns : List Turn) (more : List ℕ) → 0 < limit
        → IsFresh (client_standing (of_codec codec)) limit → AreSent sent → AreAllWhole sent → AreHeld (Some limit) sent → AreToTurns sent turns
        → AreTurns (client_standing (of_codec codec)) [] turns → all_came turns ++ more ≡ sent_text sent → AreRead sent turns more }
{}

/// So do they with the text of a connection whose exchanges are plain, and whose answers are whole.
pub fn client_codecs_give_what_a_connection_sent()
    ensures { (codec : ClientCodec) (limit : ℕ) (setting : Setting) (trace : List Step) (turns : List Turn) (more : List ℕ) → 0 < limit
        → IsFresh (client_standing (of_codec codec)) limit → IsPlainTrace setting trace → AreAllWhole (answers_sent setting trace)
        → AreHeld (Some limit) (answers_sent setting trace) → AreToTurns (answers_sent setting trace) turns
        → AreTurns (client_standing (of_codec codec)) [] turns → all_came turns ++ more ≡ text setting trace
        → AreRead (answers_sent setting trace) turns more }
{}

/// What the contract of `Codec::decode` says of an answer is what the laws ask of one.
pub fn items_are_answers()
    ensures { (old new : Codec) (bytes rest : List ℕ) (result : Result (Option (Message HeadItem)) ParseError)
        → IsStep requests (codec_standing old) bytes result (codec_standing new) rest
        → IfOk result (λ answer. IsHead requests false (codec_standing old) bytes answer (codec_standing new) rest)
        → IfErr result (λ e. CodecLeft e old bytes new rest) → OnOk result (HasLookedAt old bytes → (more : List ℕ) → HasLookedAt new (rest ++ more))
        → (codec_standing new).search.limit ≡ (codec_standing old).search.limit
        → HasAnswered requests false (codec_standing old) bytes result (codec_standing new) rest }
{}

/// What the contract of `ClientCodec::decode` says of an answer is what the laws ask of one, where the codec reads what comes
/// next.
pub fn heads_are_answers()
    ensures { (old new : ClientCodec) (bytes rest : List ℕ) (result : Result (Option ResponseItem) ClientError) (item : Result (Option (Message ResponseItem)) ParseError)
        → IsHeadAsked result item → IsHeadStep (of_codec old) bytes result (of_codec new) rest
        → IfOk result (λ answer. IsHead answers (client_is_head (of_codec old)) (client_standing (of_codec old)) bytes (as_head answer) (client_standing (of_codec new)) rest)
        → OnErr result ((new ≡ old) × (rest ≡ bytes)) → OnOk result (HeadLooked old bytes → (more : List ℕ) → HeadLooked new (rest ++ more))
        → (client_standing (of_codec new)).search.limit ≡ (client_standing (of_codec old)).search.limit
        → (client_standing (of_codec old)).body ≡ None
        → HasAnswered answers (client_is_head (of_codec old)) (client_standing (of_codec old)) bytes item (client_standing (of_codec new)) rest }
{}

/// So is what the contract of `ClientPayloadCodec::decode` says.
pub fn pieces_are_answers()
    ensures { (old new : ClientPayloadCodec) (bytes rest : List ℕ) (result : Result (Option (Option (List ℕ))) ClientError)
        (item : Result (Option (Message ResponseItem)) ParseError) → IsChunkAsked result item
        → IsChunkStep (of_payload old) bytes result (of_payload new) rest → IfErr result (λ e. ChunkLeft e (of_payload old) bytes (of_payload new) rest)
        → OnOk result (PayloadLooked old bytes → (more : List ℕ) → PayloadLooked new (rest ++ more))
        → (client_standing (of_payload new)).search.limit ≡ (client_standing (of_payload old)).search.limit
        → HasAnswered answers (client_is_head (of_payload old)) (client_standing (of_payload old)) bytes item (client_standing (of_payload new)) rest }
{}

/// A request that is written begins a turn: the codec stands where it stood, and answers have a body unless the method is HEAD.
/// A piece of its body, and its end, change nothing of what is read.
pub fn requests_begin_turns()
    ensures head { (old new : ClientCodec) (head : RequestHeadType) (size : BodySize) (text : List ℕ) → Writes old (Item (head, size)) text new
        → (client_standing (of_codec new) ≡ client_standing (of_codec old)) × (client_is_head (of_codec new) ≡ is_head (shown_head head).method) }
    ensures piece { (old new : ClientCodec) (piece : Option (List ℕ)) (text : List ℕ) → Writes old (Chunk piece) text new
        → (client_standing (of_codec new) ≡ client_standing (of_codec old)) × (client_is_head (of_codec new) ≡ client_is_head (of_codec old)) }
{}
