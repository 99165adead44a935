//! What was handed out of a body.
ghost use Rattle.std.specs.Prelude.{◌≡◌, ◌≤◌, length, min};
ghost use Rattle.http_map.specs.HeaderMap.{value_count};
ghost use Rattle.raspcream.specs.Numbers.{pulled_kind};
ghost use Rattle.raspcream.specs.Shown.{ShowsPulled};
ghost use Rattle.raspcream.specs.declared.reply.TheConstants.{MAX_FIELDS};

use crate::reply::{
    BROKEN, END, PENDING, PIECE, Reply, TRAILERS, fault_number, tell, tell_bytes, tell_fields,
};
use bytes::Bytes;
use h1_connection::{HeaderMap, Pulled};

/// The last piece of a body, and its trailers: C's spans lie in there.
#[derive(Drop)]
pub struct Handed {
    piece: Option<Bytes>,
    trailers: Option<HeaderMap>,
}

impl Handed {
    /// Nothing.
    pub fn new() -> Handed {
        Handed {
            piece: None,
            trailers: None,
        }
    }

    /// Keeps what came, and tells it.
    pub fn keep(&mut self, pulled: Pulled, out: &mut Reply)
        ensures kind { out.new.kind ≡ pulled_kind pulled }
        ensures few { out.old.count ≤ MAX_FIELDS → out.new.count ≤ MAX_FIELDS }
        ensures shown { ShowsPulled pulled out.new }
    {
        match pulled {
            Pulled::Bytes(bytes) => self.keep_piece(bytes, out),
            Pulled::Trailers(trailers) => self.keep_trailers(trailers, out),
            Pulled::End => tell(out, END, 0),
            Pulled::Broken(fault) => tell(out, BROKEN, fault_number(fault)),
            Pulled::Pending => tell(out, PENDING, 0),
        }
    }

    // Spans are taken once what they are of lies where it stays.
    fn keep_piece(&mut self, bytes: Bytes, out: &mut Reply)
        ensures kind { out.new.kind ≡ 6 }
        ensures few { out.old.count ≤ MAX_FIELDS → out.new.count ≤ MAX_FIELDS }
        ensures shown { out.new.bytes.len ≡ length bytes }
    {
        let bytes = self.piece.insert(bytes);
        tell_bytes(out, PIECE, bytes.as_slice());
    }

    fn keep_trailers(&mut self, trailers: HeaderMap, out: &mut Reply)
        ensures kind { out.new.kind ≡ 7 }
        ensures few { out.old.count ≤ MAX_FIELDS → out.new.count ≤ MAX_FIELDS }
        ensures shown { out.new.count ≡ min (value_count trailers) MAX_FIELDS }
    {
        let trailers = self.trailers.insert(trailers);
        out.kind = TRAILERS;
        tell_fields(trailers, out);
    }
}
