//! Vectors of judgements: heads, each with the doubt that comes first of it.
use bytes::Bytes;
use h1_decoder::{HeadItem, request_head};
use h1_strict::{HeadDoubt, check_head};
use http_types::{NoMemory, ParseError};
use std::alloc::Global;
use vectors::{Case, Player, Report};

/// `judge PIECE`: `right`, or the status of the answer that a doubt asks for, `400` or `served`, and the doubt; `unread`
/// where the engine itself refuses the head.
pub struct Judgements;

impl Player for Judgements {
    fn play(&self, alloc: Global, case: &Case<'_>, found: &mut Report) -> Result<bool, NoMemory> {
        if case.call != b"judge".as_slice() {
            return Ok(false);
        }
        let piece = Bytes::copy_from_slice(alloc, case.argument(0))?;
        match request_head(alloc, piece) {
            Ok(item) => found.put_text(judged(&item)),
            Err(ParseError::NoMemory) => found.lose(),
            Err(_) => found.put_text("unread"),
        }
        Ok(true)
    }
}

fn judged(item: &HeadItem) -> &'static str {
    match check_head(item) {
        Ok(()) => "right",
        Err(doubt) if doubt.status().is_some() => refusal(doubt),
        Err(HeadDoubt::CloseAmongOthers) => "served close-among-others",
        Err(HeadDoubt::UpgradeAmongOthers) => "served upgrade-among-others",
        Err(_) => "served",
    }
}

fn refusal(doubt: HeadDoubt) -> &'static str {
    match doubt {
        HeadDoubt::HostMissing => "400 host-missing",
        HeadDoubt::HostRepeated => "400 host-repeated",
        HeadDoubt::HostInvalid => "400 host-invalid",
        HeadDoubt::HostOther => "400 host-other",
        HeadDoubt::TargetForm => "400 target-form",
        HeadDoubt::ConnectBody => "400 connect-body",
        HeadDoubt::UpgradeVersion => "400 upgrade-version",
        HeadDoubt::UpgradeOption => "400 upgrade-option",
        HeadDoubt::UpgradeBody => "400 upgrade-body",
        HeadDoubt::CloseAmongOthers | HeadDoubt::UpgradeAmongOthers => "400",
    }
}
