//! What a head that was read says of an upgrade.
ghost use Rattle.model_h1.specs.Request.{Head};
ghost use Rattle.h1_decoder.specs.HeadItem.{SaysHead};
ghost use Rattle.ws_session.specs.Upgrade.{SaysUpgrade};

use h1_decoder::HeadItem;

/// A request that was read says of an upgrade what its head says.
pub fn heads_say_their_upgrade()
    ensures { (item : HeadItem) (h : Head) → SaysHead item h → SaysUpgrade item.head h }
{}
