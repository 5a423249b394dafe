//! Both ends of the downlinks: what a collector's slot sends to a meter, the meter executes once. These functions do nothing: each one's
//! contract is a law.
#![tactic(auto)]

ghost use Rattle.both_ends.specs.Laws.{SentAreExecuted, NoneTwice, NoneTwiceOverSessions};

/// The downlinks that one receiver's entries send in a slot's journal, delivered in their order, are all executed, and nothing else is,
/// whatever downlinks to other meters come between them.
pub fn sent_are_executed()
    ensures { SentAreExecuted }
{}

/// Whatever list of deliveries is made from the downlinks that a slot's journal sends, with losses, repeats and changes of order, only
/// these are executed, and none of them twice.
pub fn none_is_executed_twice()
    ensures { NoneTwice }
{}

/// Nor is one of many sessions, one after the other, each begun with what was known behind the one before it.
pub fn none_is_executed_twice_over_sessions()
    ensures { NoneTwiceOverSessions }
{}
