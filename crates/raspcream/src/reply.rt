//! What a call tells C.
ghost use Rattle.std.specs.Prelude.{◌≡◌, ◌≤◌, ◌↔◌, length, min, IsOk};
ghost use Rattle.http_map.specs.HeaderMap.{value_count};
ghost use Rattle.h1_encoder.specs.Meaning.{size_of};
ghost use Rattle.h1_payload.specs.Rests.{fault_of};
ghost use Rattle.raspcream.specs.Bits.{bit_said};
ghost use Rattle.raspcream.specs.Calls.{IsCleared};
ghost use Rattle.raspcream.specs.Numbers.{size_said, code_said, body_said, length_said, body_fault_said};
ghost use Rattle.raspcream.specs.Shown.{KeepsRest};
ghost use Rattle.raspcream.specs.declared.reply.TheConstants.{MAX_FIELDS};

use crate::pointers::{Header, Span, span_of};
use h1_connection::BodyFault;
use http_framing::{BodyKind, BodySize};
use http_types::HeaderMap;

/// How many header lines a reply has room for: as many as a head may have.
pub const MAX_FIELDS: usize = 96;

/// What C reads after a call.
#[repr(C)]
#[derive(Clone, Copy)]
pub struct Reply {
    pub kind: u32,
    pub reason: u32,
    pub number: u64,
    pub bytes: Span,
    pub method: Span,
    pub target: Span,
    pub minor: u32,
    pub body: u32,
    pub state: Numbers,
    pub count: usize,
    pub fields: [Header; 96],
}

/// The numbers of a connection.
#[repr(C)]
#[derive(Clone, Copy)]
pub struct Numbers {
    /// What may come next, a bit for each call.
    pub can: u32,

    /// How many requests of a client wait for their answers; of a server 0.
    pub waiting: u32,

    /// How many bytes wait to be written, and how many more there is room for.
    pub buffered: u64,
    pub write_room: u64,

    /// How many bytes of the input are held, and how many more there is room for.
    pub held: u64,
    pub read_room: u64,

    /// The moment at which a time runs out, in milliseconds after the start of 1970; all ones where none does.
    pub deadline: u64,
}

/// Why a call failed: then nothing of the connection has changed.
#[derive(Clone, Copy)]
pub enum Failure {
    /// Memory ran out.
    NoMemory,

    /// It may not come now.
    Misplaced,

    /// An argument is wrong.
    Invalid,
}

/// The code that C gets.
pub fn code_of(answer: Result<(), Failure>) -> u32
    ensures ok { result ≡ 0 ↔ IsOk answer }
    ensures value { result ≡ code_said answer }
{
    match answer {
        Ok(()) => 0,
        Err(Failure::NoMemory) => 1,
        Err(Failure::Misplaced) => 2,
        Err(Failure::Invalid) => 3,
    }
}

pub const DONE: u32 = 0;

pub const TOOK: u32 = 1;

pub const HEAD: u32 = 2;

pub const FAULT: u32 = 3;

pub const PENDING: u32 = 4;

pub const CLOSED: u32 = 5;

pub const PIECE: u32 = 6;

pub const TRAILERS: u32 = 7;

pub const END: u32 = 8;

pub const BROKEN: u32 = 9;

pub const GIVES: u32 = 10;

pub const EXPIRED: u32 = 11;

pub const ABANDONED: u32 = 12;

pub const FRAME: u32 = 13;

pub const PROTOCOL: u32 = 14;

pub const REFUSED: u32 = 15;

pub const STATE: u32 = 16;

pub const HOLDS: u32 = 17;

pub const AHEAD: u32 = 18;

/// Nothing: no span of an earlier call is left.
pub fn clear(out: &mut Reply)
    ensures { IsCleared out.new }
{
    out.kind = DONE;
    out.reason = 0;
    out.number = 0;
    out.bytes = span_of(b"");
    out.method = span_of(b"");
    out.target = span_of(b"");
    out.minor = 0;
    out.body = 0;
    out.count = 0;
    out.state = Numbers {
        can: 0,
        waiting: 0,
        buffered: 0,
        write_room: 0,
        held: 0,
        read_room: 0,
        deadline: u64::MAX,
    };
}

/// The kind, and the reason that goes with it.
pub fn tell(out: &mut Reply, kind: u32, reason: u32)
    ensures kind { out.new.kind ≡ kind }
    ensures reason { out.new.reason ≡ reason }
    ensures count { out.new.count ≡ out.old.count }
{
    out.kind = kind;
    out.reason = reason;
}

/// A number.
pub fn tell_number(out: &mut Reply, kind: u32, number: usize)
    ensures kind { out.new.kind ≡ kind }
    ensures number { out.new.number ≡ number }
    ensures count { out.new.count ≡ out.old.count }
{
    out.kind = kind;
    out.number = number as u64;
}

/// Bytes.
pub fn tell_bytes(out: &mut Reply, kind: u32, bytes: &[u8])
    ensures kind { out.new.kind ≡ kind }
    ensures len { out.new.bytes.len ≡ length bytes.now }
    ensures count { out.new.count ≡ out.old.count }
{
    out.kind = kind;
    out.bytes = span_of(bytes);
}

/// Header lines, of which those of one name stand together: as many as there is room for.
pub fn tell_fields(map: &HeaderMap, out: &mut Reply)
    ensures count { out.new.count ≡ min (value_count map.now) MAX_FIELDS }
    ensures few { out.new.count ≤ MAX_FIELDS }
    ensures rest { KeepsRest out.old out.new }
{
    let mut index: usize = 0;
    for (name, value) in map.iter() {
        let line = Header {
            name: span_of(name.as_bytes()),
            value: span_of(value.as_bytes()),
        };
        put_field(out, index, line);
        index = index.saturating_add(1);
    }
    out.count = map.len().min(MAX_FIELDS);
}

// The line at this place, where there is room for it.
fn put_field(out: &mut Reply, index: usize, line: Header)
    ensures { KeepsRest out.old out.new }
{
    if index < MAX_FIELDS {
        out.fields[index] = line;
    }
}

/// How a body ends.
pub fn tell_body(body: BodyKind, out: &mut Reply)
    ensures kind { out.new.kind ≡ out.old.kind }
    ensures body { out.new.body ≡ body_said body }
    ensures number { out.new.number ≡ length_said body }
    ensures method { out.new.method ≡ out.old.method }
    ensures target { out.new.target ≡ out.old.target }
    ensures reason { out.new.reason ≡ out.old.reason }
    ensures minor { out.new.minor ≡ out.old.minor }
    ensures count { out.new.count ≡ out.old.count }
{
    out.number = 0;
    match body {
        BodyKind::None => out.body = 0,
        BodyKind::Length(length) => {
            out.body = 1;
            out.number = length;
        }
        BodyKind::Chunked => out.body = 2,
        BodyKind::Raw => out.body = 3,
    }
}

/// The size that C names: all ones for as many bytes as come, one less for no body.
pub fn size_of_number(number: u64) -> BodySize
    ensures { size_of result ≡ size_said number }
{
    if number == u64::MAX {
        BodySize::Stream
    } else if number == u64::MAX - 1 {
        BodySize::None
    } else {
        BodySize::Sized(number)
    }
}

/// What is wrong with a body, as a number.
pub fn fault_number(fault: BodyFault) -> u32
    ensures { result ≡ body_fault_said (fault_of fault) }
{
    match fault {
        BodyFault::Corrupted => 1,
        BodyFault::Incomplete => 2,
    }
}

/// A bit, where it is set.
pub fn bit(is_set: bool, place: u32) -> u32
    ensures { result ≡ bit_said is_set place }
{
    if is_set { place } else { 0 }
}
