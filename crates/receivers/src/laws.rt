//! Laws of sessions: each function's contract is one.
ghost use Rattle.std.specs.Prelude.{◌≡◌, ◌↔◌, ℕ, List, [], ◌∷◌, ◌++◌, reverse, Some, option_map};
ghost use Rattle.meter_address.specs.declared.address.Address.{Address};
ghost use Rattle.meter_address.specs.declared.commission.Mode.TheVariants.{Seven};
ghost use Rattle.meter_slots.specs.declared.entry.Entry.{Entry};
ghost use Rattle.meter_slots.specs.Journal.{Start, SlotView, genuine, stored_counter};
ghost use Rattle.meter_slots.specs.Laws.{IsAbove, IsRising, last_stored, stored_counters, sent_counters};
ghost use Rattle.meter_slots.specs.World.{WorldView, world_of};
ghost use Rattle.lists.specs.Each.{Each};
ghost use Rattle.receivers.specs.declared.told.Told.{Told};
ghost use Rattle.receivers.specs.Alone.{steps_of};
ghost use Rattle.receivers.specs.Collected.{IsCollected};
ghost use Rattle.receivers.specs.Cuts.{CutSessionsAreOne};
ghost use Rattle.receivers.specs.Parts.{PartsAreOfTheWhole, PartsLeaveTheSame, PartsMakeTheWhole};
ghost use Rattle.receivers.specs.HeardLines.{IsKnown, IsHeardSession};
ghost use Rattle.receivers.specs.MacLaw.{LinesSayBytes, MacsDecideOverAllReceivers};
ghost use Rattle.receivers.specs.Orders.{order_of, IsOrderOf, IsOrderedSlot, IsOrderOfStrangers, AreOrderedStrangers};
ghost use Rattle.stranger_ring.specs.declared.strangers.Heard.{Heard};
ghost use Rattle.receivers.specs.Run.{ReceiverRun};
ghost use Rattle.receivers.specs.Session.{heard_by, lines_for, IsMetersSlot, IsSession};

/// The world of one receiver's lines is a session of that receiver.
pub fn one_receiver_makes_a_session()
    ensures { (own : Address) (commissions : List Start) (heard : List Told)
        → IsSession own commissions (heard ∷ []) (world_of own commissions (steps_of 1 heard)) }
{}

/// What `collect` says, where contracts know the bytes of all sources: one session of the lines that were taken from each receiver.
pub fn runs_are_a_session_of_their_lines()
    ensures { (own : Address) (commissions : List Start) (runs : List ReceiverRun) (world : WorldView)
        → Each IsKnown runs → IsCollected own commissions runs world → IsHeardSession own commissions runs world }
{}

/// A meter's slot is fixed by the meter's own lines and by the order in which its journal has them, whatever else the receivers heard.
pub fn own_lines_alone()
    ensures { (own : Address) (c : Start) (all others : List (List Told)) (slot again : SlotView)
        → IsMetersSlot own all c slot → IsMetersSlot own others c again
        → ((w : ℕ) → lines_for c.address (heard_by w all) ≡ lines_for c.address (heard_by w others))
        → order_of slot.journal ≡ order_of again.journal → slot ≡ again }
{}

/// The order of a journal has of each receiver just the meter's own lines, each once and in that receiver's order; and each such order
/// has a slot with a journal in that order. The same holds of the strangers' list. So the orders that a report prints fix its session.
pub fn orders_make_journals()
    ensures order { (own : Address) (c : Start) (all : List (List Told)) (slot : SlotView)
        → IsMetersSlot own all c slot → IsOrderOf c.address all (order_of slot.journal) }
    ensures journal { (own : Address) (c : Start) (all : List (List Told)) (order : List (ℕ × ℕ))
        → IsOrderOf c.address all order → (slot : SlotView) × IsOrderedSlot own all c order slot }
    ensures strangers { (commissions : List Start) (all : List (List Told)) (order : List (ℕ × ℕ))
        → IsOrderOfStrangers commissions all order → (heard : List Heard) × AreOrderedStrangers commissions all order heard }
    ensures one { (commissions : List Start) (all : List (List Told)) (order : List (ℕ × ℕ)) (heard again : List Heard)
        → AreOrderedStrangers commissions all order heard → AreOrderedStrangers commissions all order again → heard ≡ again }
{}

/// Whichever receivers hear a meter: in mode 7 the stored counters strictly rise from above the commission's, and a message is stored
/// exactly where it is genuine and its counter exceeds that of the message stored last; the counters of the downlinks, over all sinks
/// together, strictly rise.
pub fn counters_rise_over_all_receivers()
    ensures stored { (own : Address) (c : Start) (all : List (List Told)) (slot : SlotView)
        → IsMetersSlot own all c slot → c.mode ≡ Seven → IsRising c.last (stored_counters slot.journal) }
    ensures exactly { (own : Address) (c : Start) (all : List (List Told)) (slot : SlotView) (before : List Entry) (x : Entry)
        (after : List Entry) (n : ℕ) → IsMetersSlot own all c slot → c.mode ≡ Seven → slot.journal ≡ before ++ x ∷ after
        → (stored_counter x.outcome ≡ Some n)
        ↔ ((option_map (λ f. f.counter) (genuine c (reverse before) x.event) ≡ Some n) × IsAbove n (last_stored c before)) }
    ensures sent { (own : Address) (c : Start) (all : List (List Told)) (slot : SlotView)
        → IsMetersSlot own all c slot → IsRising (Some c.orders.down) (sent_counters slot.journal) }
{}

/// Every line tells bytes, and nothing else.
pub fn lines_say_bytes()
    ensures { LinesSayBytes }
{}

/// Whichever receivers hear a meter: in mode 7 a message is stored with a counter exactly where it is genuine by its MAC with that counter, under
/// the meter's keys as they are then, and the counter exceeds the one stored last, or the one known before where none was.
pub fn macs_decide_over_all_receivers()
    ensures { MacsDecideOverAllReceivers }
{}

/// For each cut of the receivers' lines into two sessions, of which the second begins with what is known of the meters behind the first:
/// both are one session of all lines. Each meter's journal is the first one's and then the second one's, its lines numbered on.
pub fn cut_sessions_are_one()
    ensures { CutSessionsAreOne }
{}

/// A session of some meters over the lines that are for them gives these meters what a session of all lines gives them, but for the numbers
/// of lines, which are those among all lines.
pub fn parts_are_of_the_whole()
    ensures { PartsAreOfTheWhole }
{}

/// What is known of its meters behind a part, with which its next session begins, is what is known of them behind the whole.
pub fn parts_leave_the_same()
    ensures { PartsLeaveTheSame }
{}

/// The sessions of a part and of all other meters, put together, give every meter what the whole session gives it.
pub fn parts_make_the_whole()
    ensures { PartsMakeTheWhole }
{}
