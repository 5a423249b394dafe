//! Laws of every report: a function's contract is a law.
ghost use Rattle.report_text.specs.OrdersLaw.{OrdersAreTold};
ghost use Rattle.report_text.specs.ReadingsLaw.{JsonListsTheReport};

/// The text of a report tells the order of each meter's steps, and that of the strangers' lines.
#[tactic(auto, using(crate::proofs::LineReport::report_orders))]
pub fn orders_are_told()
    ensures { OrdersAreTold }
{}

/// The records, the fault and the `more` that the JSON tells of a payload are those that the report lists.
#[tactic(auto, using(crate::proofs::SameListing::same_listing))]
pub fn json_lists_the_report()
    ensures { JsonListsTheReport }
{}
