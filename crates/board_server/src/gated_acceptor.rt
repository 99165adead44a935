//! An acceptor whose connections read nothing while their writes wait.
ghost use Rattle.std.specs.Prelude.{◌≡◌};

use http_config::Failed;
use http_transport::Acceptor;
use net_sockets::Gated;
use std::marker::Model;

/// An acceptor that gives each connection of another one behind a [`Gated`]: so a peer that doesn't read its answers isn't read
/// from, and can't make the server hold more.
///
/// A clause sees it as the other acceptor.
#[derive(Drop)]
pub struct GatedAcceptor<D> {
    acceptor: D,
}

impl<D> Model for GatedAcceptor<D> {
    ghost Value = { D };

    ghost view = { λ g. g.acceptor };
}

impl<D> GatedAcceptor<D> {
    /// An acceptor over this one.
    pub fn new(acceptor: D) -> GatedAcceptor<D>
        ensures { result ≡ acceptor }
    {
        GatedAcceptor { acceptor }
    }

    /// The other acceptor.
    pub fn into_inner(self) -> D
        ensures { result ≡ self }
    {
        self.acceptor
    }
}

impl<D: Acceptor> Acceptor for GatedAcceptor<D> {
    type Conn = Gated<D::Conn>;

    ghost opening = { D.opening };

    fn open(&mut self, port: u16) -> Result<(), Failed> {
        self.acceptor.open(port)
    }

    fn accept(&mut self) -> Result<Option<Gated<D::Conn>>, Failed> {
        match self.acceptor.accept()? {
            Some(transport) => Ok(Some(Gated::new(transport))),
            None => Ok(None),
        }
    }
}
