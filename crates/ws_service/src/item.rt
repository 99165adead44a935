//! What the service of an upgraded connection is called with.
use h1_connection::ReceivedFrame;
use http_types::Request;

/// What the service of an upgraded connection is called with.
#[derive(Drop)]
pub enum UpgradeItem {
    /// The request that asked for the upgrade. It comes first, and once.
    Open(Request<(), ()>),

    /// A frame that the peer sent.
    Frame(ReceivedFrame),
}
