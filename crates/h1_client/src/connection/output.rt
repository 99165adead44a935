// What is to be written to the server.
ghost use Rattle.std.specs.Prelude.{◌≡◌, ◌<◌, ◌≤◌, ◌++◌, [], IsTrue, false, length, take, drop, IsOk, OnOk, OnErr};
ghost use Rattle.h1_encoder.specs.Meaning.{size_of, model_type, model_shape};
ghost use Rattle.model_h1.specs.AnswerText.{end_text};
ghost use Rattle.model_h1.specs.Limits.{MAX_MOMENT};
ghost use Rattle.model_client.specs.RequestText.{request_text, asked_shape};
ghost use Rattle.model_client.specs.ClientStep.{piece_of};
ghost use Rattle.h1_encoder.specs.RequestMeaning.{asked_head, has_text};
ghost use Rattle.h1_client.specs.ClientMeaning.{marked_type};

use bytes::BytesMut;
use h1_encoder::{Asked, Shape, put_end, put_piece, put_request_head};
use http_framing::BodySize;
use http_types::{ConnectionType, NoMemory, RequestHead, Version};
use std::alloc::Global;
use std::marker::Model;

/// A queue of bytes, which a clause sees as the list of them. It grows at its end by texts, and is given away from its
/// front. A text is put after the others whole, or nothing is changed.
#[derive(Drop)]
pub struct Output {
    bytes: BytesMut,
}

impl Model for Output {
    ghost use Rattle.std.specs.Prelude.{ℕ, List};

    ghost Value = { List ℕ };

    ghost view = { λ output. output.bytes.items };
}

impl Output {
    /// No bytes, and no memory taken.
    pub fn new(alloc: Global) -> Output
        ensures { result ≡ [] }
    {
        Output {
            bytes: BytesMut::new(alloc),
        }
    }

    /// How many bytes there are.
    pub fn len(&self) -> usize
        ensures { result ≡ length self.now }
    {
        self.bytes.len()
    }

    /// The bytes, oldest first.
    pub fn as_slice(&self) -> &[u8]
        ensures { result.now ≡ self.now }
    {
        self.bytes.as_slice()
    }

    /// Lets the first bytes go.
    pub fn advance(&mut self, count: usize)
        requires { count ≤ length self.old }
        ensures { self.new ≡ drop count self.old }
    {
        self.bytes.advance(count);
        if self.bytes.is_empty() {
            self.bytes.clear();
        }
    }

    /// Takes the last bytes back, up to so many.
    pub fn truncate(&mut self, len: usize)
        ensures { self.new ≡ take len self.old }
    {
        self.bytes.truncate(len);
    }

    /// The head of a request.
    pub fn put_head(
        &mut self,
        head: &RequestHead,
        size: BodySize,
        moment: u64,
    ) -> Result<(), NoMemory>
        requires moment { moment < MAX_MOMENT }
        requires version { IsTrue (has_text head.now.version) }
        ensures ok { OnOk result (self.new ≡ self.old
            ++ request_text (asked_head head.now) (asked_shape (size_of size)) (size_of size) (model_type (marked_type head.now)) moment) }
        ensures err { OnErr result (self.new ≡ self.old) }
    {
        put_request_head(&mut self.bytes, head, size, head.connection_type(), moment)
    }

    /// What of a piece of a request's body goes out. Where nothing does, it takes no memory.
    pub fn put_piece(&mut self, shape: Shape, missing: u64, bytes: &[u8]) -> Result<(), NoMemory>
        ensures ok { OnOk result (self.new ≡ self.old ++ piece_of (model_shape shape) missing bytes.now) }
        ensures err { OnErr result (self.new ≡ self.old) }
        ensures no_memory_needed { piece_of (model_shape shape) missing bytes.now ≡ [] → IsOk result }
    {
        put_piece(&mut self.bytes, no_head(), shape, missing, bytes)
    }

    /// What ends a request's body. Where nothing does, it takes no memory.
    pub fn put_end(&mut self, shape: Shape) -> Result<(), NoMemory>
        ensures ok { OnOk result (self.new ≡ self.old ++ end_text (model_shape shape)) }
        ensures err { OnErr result (self.new ≡ self.old) }
        ensures no_memory_needed { end_text (model_shape shape) ≡ [] → IsOk result }
    {
        put_end(&mut self.bytes, no_head(), shape)
    }
}

// The bodies of requests go out as those of answers to any request but HEAD.
fn no_head() -> Asked
    ensures { result.is_head ≡ false }
{
    Asked::new(Version::HTTP_11, false, false, ConnectionType::KeepAlive)
}
