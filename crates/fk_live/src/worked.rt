//! Picks that were worked out by hand, evaluated by the definitions.

ghost use Rattle.fk_live.specs.Worked.{NewDeskOffersTurns};

/// Three workers of a new desk over two clients.
pub fn new_desk_offers_turns()
    ensures { NewDeskOffersTurns }
{}
