// What a connection keeps of a request, which never changes.
use h1_encoder::Asked;
use ws_session::HandshakeError;

/// What is kept of a request.
#[derive(Clone, Copy)]
pub struct Request {
    /// What its answer needs of it.
    pub asked: Asked,
    pub has_body: bool,

    /// Whether its client waits to be told to go on.
    pub expects: bool,

    /// Why it can't be upgraded to a WebSocket, where its body is raw: no other request may be upgraded.
    pub refusal: Option<HandshakeError>,

    /// The answer to its key, where its body is raw.
    pub accept_key: Option<[u8; 28]>,
}
