//! What the laws of a session and of delivery ask of a scenario, that of a sound leg has: limits, orders and
//! octets. There is no code here. What a walk asks is in `law_walk`: its `plan_law`. Begin at `read_law`.

ghost use Rattle.law_model.specs.Common.{Leg, IsSound, scenario_by, orders_of, offers_of};
ghost use Rattle.law_session.specs.LandingByStep.{AreOrdersInOrder, AreOffersInOrder};
ghost use Rattle.law_session.specs.LineInUse.{HasLimits};
ghost use Rattle.law_loss.specs.CarriedStream.{AreOctets};

/// A sound leg has a lag of at least one packet and at most 128 lines, and 16 or 32 return packets tell all
/// statuses; its commands land in their order, and so do its frames; and these are octets.
pub fn read_law()
    ensures limits { (leg : Leg) → IsSound leg → HasLimits (scenario_by leg) }
    ensures orders { (leg : Leg) → IsSound leg →
        AreOrdersInOrder (orders_of leg.items) }
    ensures offers { (leg : Leg) → IsSound leg →
        AreOffersInOrder (offers_of leg.items) }
    ensures octets { (leg : Leg) → IsSound leg → AreOctets (scenario_by leg) }
{}
