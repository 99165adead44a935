//! A request's head that is owned or shared.
ghost use Rattle.std.specs.Prelude.{◌≡◌, option_copied};

use crate::requests::RequestHead;
use crate::HeaderMap;
use std::rc::Rc;

/// A request's head to be sent: its own, or one that other requests share, with headers beside it.
#[derive(Debug, Drop)]
pub enum RequestHeadType {
    /// The head itself.
    Owned(RequestHead),
    /// A shared head, and headers that are sent with it.
    Rc(Rc<RequestHead>, Option<HeaderMap>),
}

impl RequestHeadType {
    ghost use Rattle.http_types.specs.RequestHeadType.{extra_headers_of};

    /// The headers beside a shared head.
    pub fn extra_headers(&self) -> Option<&HeaderMap>
        ensures { option_copied result ≡ extra_headers_of self.now }
    {
        match self {
            RequestHeadType::Owned(_) => None,
            RequestHeadType::Rc(_, headers) => headers.as_ref(),
        }
    }
}

impl AsRef<RequestHead> for RequestHeadType {
    ghost use Rattle.std.specs.Prelude.{◌≡◌};
    ghost use Rattle.http_types.specs.RequestHeadType.{shown_head};

    fn as_ref(&self) -> &RequestHead
        ensures { result.now ≡ shown_head self.now }
    {
        match self {
            RequestHeadType::Owned(head) => head,
            RequestHeadType::Rc(head, _) => head,
        }
    }
}

impl From<RequestHead> for RequestHeadType {
    ghost use Rattle.std.specs.Prelude.{◌≡◌};
    ghost use Rattle.http_types.specs.declared.requests.head_type.RequestHeadType.TheVariants.{Owned};

    ghost from_gives = { λ head owned. owned ≡ Owned head };

    fn from(head: RequestHead) -> Self {
        RequestHeadType::Owned(head)
    }
}
