//! What is told of a server's side.
ghost use Rattle.std.specs.Prelude.{◌≡◌, ◌≤◌};
ghost use Rattle.model_state.specs.Local.{closing_by};
ghost use Rattle.h1_connection.specs.EventMeaning.{setting_of, end_of, fault_of};
ghost use Rattle.raspcream.specs.Bits.{calls_said};
ghost use Rattle.raspcream.specs.Numbers.{kind_of, expiry_kind, minor_said, head_fault_said, end_said, reason_said};
ghost use Rattle.raspcream.specs.Served.{AreNumbersOf};
ghost use Rattle.raspcream.specs.Shown.{ShowsHead, ShowsNext, ShowsExpiry};
ghost use Rattle.raspcream.specs.declared.reply.TheConstants.{MAX_FIELDS};

use crate::pointers::span_of;
use crate::reply::{
    ABANDONED, CLOSED, DONE, EXPIRED, FAULT, HEAD, Numbers, PENDING, Reply, bit, tell, tell_body,
    tell_fields,
};
use h1_connection::{Connection, End, Expiry, HeadFault, HeadItem, NextKind};
use http_types::Version;

/// Why it ends, as a number from 1 on.
fn end_number(end: End) -> u32
    ensures { result ≡ end_said (end_of end) }
{
    match end {
        End::Malformed => 1,
        End::TooLarge => 2,
        End::SlowRequestTimeout => 3,
        End::KeepAliveExpired => 4,
        End::Protocol => 5,
        End::Body => 6,
        End::BodyShort => 7,
        End::Asked => 8,
        End::BrokenBody => 9,
        End::UnreadBody => 10,
        End::Drained => 11,
        End::HalfClosed => 12,
        End::InputEnded => 13,
    }
}

/// What is wrong with a head, as a number.
fn fault_number(fault: HeadFault) -> u32
    ensures { result ≡ head_fault_said (fault_of fault) }
{
    match fault {
        HeadFault::Malformed => 1,
        HeadFault::TooLarge => 2,
    }
}

/// Which of the two versions it is.
pub fn minor_number(version: Version) -> u32
    ensures { result ≡ minor_said version }
{
    if version == Version::HTTP_10 { 0 } else { 1 }
}

/// What a head says.
fn tell_head(item: &HeadItem, out: &mut Reply)
    ensures kind { out.new.kind ≡ out.old.kind }
    ensures shown { ShowsHead item.now out.new }
    ensures few { out.new.count ≤ MAX_FIELDS }
{
    out.method = span_of(item.head.method.as_str().as_bytes());
    out.target = span_of(item.target.as_slice());
    out.minor = minor_number(item.head.version);
    tell_body(item.body, out);
    tell_fields(&item.head.headers, out);
}

/// What came.
pub fn tell_next(item: &HeadItem, kind: NextKind, out: &mut Reply)
    ensures kind { out.new.kind ≡ kind_of kind }
    ensures few { out.old.count ≤ MAX_FIELDS → out.new.count ≤ MAX_FIELDS }
    ensures shown { ShowsNext item.now kind out.new }
{
    match kind {
        NextKind::Head => {
            out.kind = HEAD;
            tell_head(item, out);
        }
        NextKind::Fault(fault) => tell(out, FAULT, fault_number(fault)),
        NextKind::Pending => tell(out, PENDING, 0),
        NextKind::Closed(end) => tell(out, CLOSED, end_number(end)),
    }
}

/// What a moment brings.
pub fn tell_expiry(expiry: Expiry, out: &mut Reply)
    ensures kind { out.new.kind ≡ expiry_kind expiry }
    ensures few { out.old.count ≤ MAX_FIELDS → out.new.count ≤ MAX_FIELDS }
    ensures shown { ShowsExpiry expiry out.new }
{
    match expiry {
        Expiry::None => tell(out, DONE, 0),
        Expiry::Expired(end) => tell(out, EXPIRED, end_number(end)),
        Expiry::Abandoned => tell(out, ABANDONED, 0),
    }
}

/// Why it is to end, as a number; 0 where it isn't.
pub fn reason_of(it: &Connection) -> u32
    ensures { result ≡ reason_said (closing_by (setting_of it.now.settings) it.now.kept) }
{
    match it.closing() {
        Some(end) => end_number(end),
        None => 0,
    }
}

/// Its numbers.
pub fn numbers_of(it: &Connection) -> Numbers
    ensures { AreNumbersOf it.now result }
{
    Numbers {
        can: calls_of(it),
        waiting: 0,
        buffered: it.buffered() as u64,
        write_room: it.write_room() as u64,
        held: it.held() as u64,
        read_room: it.read_room() as u64,
        deadline: it.deadline().unwrap_or(u64::MAX),
    }
}

// What may come next, a bit for each call.
fn calls_of(it: &Connection) -> u32
    ensures { result ≡ calls_said it.now }
{
    bit(it.can_read(), 1)
        | bit(it.can_next(), 2)
        | bit(it.can_pull(), 4 | 8)
        | bit(it.can_continue(), 16)
        | bit(it.can_answer(), 32)
        | bit(it.can_chunk(), 64)
        | bit(it.can_end_answer(), 128)
        | bit(it.can_write(), 256)
        | bit(it.can_drain(), 512)
        | bit(it.can_accept(0), 1024)
        | bit(it.can_pull_frame(), 2048)
        | bit(it.can_send(), 4096)
}
