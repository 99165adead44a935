//! In which coding a file is sent, of those that it is there in.
ghost use Rattle.std.specs.Prelude.{◌≡◌};
ghost use Rattle.http_files.specs.Codings.{noted, weight, chosen};

/// How the bytes of a file are coded (RFC 9110, section 8.4.1).
#[derive(Clone, Copy, Debug, PartialEq, Eq)]
pub enum Coding {
    /// Not at all.
    Identity,

    /// As `gzip` (RFC 1952).
    Gzip,

    /// As `br` (RFC 7932).
    Brotli,
}

/// How much a client wants each coding, in thousandths, where its `Accept-Encoding` names it (RFC 9110, section 12.5.3).
#[derive(Clone, Copy, Debug, PartialEq, Eq)]
pub struct Accepted {
    pub brotli: Option<u16>,
    pub gzip: Option<u16>,
    pub identity: Option<u16>,

    /// `*`: each coding that isn't named.
    pub others: Option<u16>,
}

impl Coding {
    /// What stands behind a file's name where its bytes are coded so.
    pub fn ending(self) -> &'static str {
        match self {
            Coding::Identity => "",
            Coding::Gzip => ".gz",
            Coding::Brotli => ".br",
        }
    }

    /// Its registered name, as `Content-Encoding` has it, where it is one.
    pub fn name(self) -> Option<&'static str> {
        match self {
            Coding::Identity => None,
            Coding::Gzip => Some("gzip"),
            Coding::Brotli => Some("br"),
        }
    }
}

impl Accepted {
    /// Of a request without the field.
    pub const NOTHING: Accepted = Accepted {
        brotli: None,
        gzip: None,
        identity: None,
        others: None,
    };

    /// The same with one more item of the field: a coding's name in lower case, and how much it is wanted. A name that isn't
    /// known is passed over.
    pub fn noting(self, name: &str, wanted: u16) -> Accepted
        ensures { result ≡ noted self name.now wanted }
    {
        let wanted = Some(wanted);
        match name {
            "br" => Accepted {
                brotli: wanted,
                ..self
            },
            "gzip" | "x-gzip" => Accepted {
                gzip: wanted,
                ..self
            },
            "identity" => Accepted {
                identity: wanted,
                ..self
            },
            "*" => Accepted {
                others: wanted,
                ..self
            },
            _ => self,
        }
    }

    /// The coding that is wanted most, of those that a file is there in. Of two that are wanted as much `br` comes before `gzip`,
    /// and `gzip` before none. Where none is wanted, the file is sent as it is.
    pub fn chosen(self, has_brotli: bool, has_gzip: bool) -> Coding
        ensures { result ≡ chosen self has_brotli has_gzip }
    {
        let brotli = weight(has_brotli, self.brotli, self.others);
        let gzip = weight(has_gzip, self.gzip, self.others);
        let identity = weight(true, self.identity, self.others);
        if 0 < brotli && gzip <= brotli && identity <= brotli {
            Coding::Brotli
        } else if 0 < gzip && identity <= gzip {
            Coding::Gzip
        } else {
            Coding::Identity
        }
    }
}

// How much a coding is wanted that a file is there in or not: as much as it is named with, or else as much as `*`.
fn weight(is_there: bool, named: Option<u16>, others: Option<u16>) -> u16
    ensures { result ≡ weight is_there named others }
{
    match (named, others) {
        _ if !is_there => 0,
        (Some(wanted), _) => wanted,
        (None, Some(wanted)) => wanted,
        (None, None) => 0,
    }
}
