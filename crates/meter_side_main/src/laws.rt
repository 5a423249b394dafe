//! Laws of what a meter executes: each function's contract is a law.
ghost use Rattle.meter_side_main.specs.Genuine.{GenuineAreTold, ContentsArePayloads};
ghost use Rattle.meter_side_main.specs.Refusals.{RefusedExactly, PlacesAreJudged};
ghost use Rattle.meter_side_main.specs.Laws.{ExecutedExactly, ExecutedRise, OthersChangeNothing, RostersCommission};

/// What passes all but the comparison of its counter is a genuine downlink, and no other delivery is.
pub fn genuine_are_told()
    ensures { GenuineAreTold }
{}

/// Every content of a whole number of blocks less two bytes is itself a payload, whose downlink is the delivery.
pub fn contents_are_payloads()
    ensures { ContentsArePayloads }
{}

/// Of some deliveries those are executed that are genuine with a counter above the commissioned one and those of all earlier genuine ones,
/// and no others.
pub fn executed_exactly()
    ensures { ExecutedExactly }
{}

/// Whatever is delivered, the counters executed strictly rise from above the commissioned one.
pub fn executed_rise()
    ensures { ExecutedRise }
{}

/// Each refusal comes exactly where its cause is the first.
pub fn refused_exactly()
    ensures { RefusedExactly }
{}

/// Downlinks to other meters that are delivered between the others change nothing, wherever they come.
pub fn others_change_nothing()
    ensures { OthersChangeNothing }
{}

/// A layout is faulty in the link layer, in the authentication layer up to the counter, or in the transport header, never in the counter
/// or the MAC; at the place of L exactly where L isn't that of one to six blocks.
pub fn places_are_judged()
    ensures { PlacesAreJudged }
{}

/// A meter of a roster, which is a state (state_file `rosters_are_states`), begins as the roster commissions it.
pub fn rosters_commission()
    ensures { RostersCommission }
{}
