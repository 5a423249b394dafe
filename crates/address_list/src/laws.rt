//! Laws of the addresses of lines: each function's contract is a law.
ghost use Rattle.address_list.specs.Laws.{DashesAreNoEvents, EventsAreNamed};

/// Of a line that tells an event for a meter the meter's address is printed.
pub fn events_are_named()
    ensures { EventsAreNamed }
{}

/// A dash is printed exactly of the lines that tell no event: bytes that are no frame, and lines outside the grammar.
pub fn dashes_are_no_events()
    ensures { DashesAreNoEvents }
{}
