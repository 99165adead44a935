//! What the steps of every run keep in order.
ghost use Rattle.ws_dispatcher.specs.View.{View};
ghost use Rattle.ws_dispatcher.specs.Steps.{Step, IsRun, Unwritten};
ghost use Rattle.ws_dispatcher.specs.Order.{IsClean, KeepsReading, ReadsAll, AsksInOrder, TakesInOrder, SendsInOrder, Tells};
ghost use Rattle.std.specs.Prelude.{List};

use http_framing::{Decoder, Encoder};
use ws_frames::ProtocolError;

/// Over every run the service is called with the items that were read, in order and once each; what is taken from the
/// queue was put there, in order, by answers or from outside; and the transport took what was written, in order.
pub fn runs_keep_order<U, I: Drop, E: Drop>()
where
    U: Decoder<Error = ProtocolError> + Encoder<I, Error = ProtocolError>,
    ensures asks { (v w : View U U.Item I E) (steps : List (Step U.Item I E))
        → IsRun U.reads U.given U.nothing U.breaks U.Decoder.lacks U.seen U.Decoder.leaves U.writes (Unwritten U.refuses U.Encoder.lacks U.Encoder.leaves) v steps w → AsksInOrder v steps w }
    ensures takes { (v w : View U U.Item I E) (steps : List (Step U.Item I E))
        → IsRun U.reads U.given U.nothing U.breaks U.Decoder.lacks U.seen U.Decoder.leaves U.writes (Unwritten U.refuses U.Encoder.lacks U.Encoder.leaves) v steps w → TakesInOrder v steps w }
    ensures sends { (v w : View U U.Item I E) (steps : List (Step U.Item I E))
        → IsRun U.reads U.given U.nothing U.breaks U.Decoder.lacks U.seen U.Decoder.leaves U.writes (Unwritten U.refuses U.Encoder.lacks U.Encoder.leaves) v steps w → SendsInOrder v steps w }
    ensures tells { (v w : View U U.Item I E) (steps : List (Step U.Item I E))
        → IsRun U.reads U.given U.nothing U.breaks U.Decoder.lacks U.seen U.Decoder.leaves U.writes (Unwritten U.refuses U.Encoder.lacks U.Encoder.leaves) v steps w → Tells v steps w }
{}

/// Over every run in which nothing was refused, the items that were read are those that the bytes say that stood there
/// and came, in whatever pieces, and nothing is lost: the codec stands before what is left of them. The premise is that
/// a codec which has written something reads as before.
pub fn items_are_those_of_the_bytes<U, I: Drop, E: Drop>()
where
    U: Decoder<Error = ProtocolError> + Encoder<I, Error = ProtocolError>,
    ensures { KeepsReading U.reads U.writes → (v w : View U U.Item I E) (steps : List (Step U.Item I E))
        → IsRun U.reads U.given U.nothing U.breaks U.Decoder.lacks U.seen U.Decoder.leaves U.writes (Unwritten U.refuses U.Encoder.lacks U.Encoder.leaves) v steps w → IsClean steps → ReadsAll U.reads U.given v steps w }
{}
