//! Laws of every journal: each function's contract is a law.
ghost use Rattle.std.specs.Prelude.{◌≡◌, ◌↔◌, ◌+◌, ◌≤◌, ℕ, List, ◌∷◌, ◌++◌, [], length, reverse};
ghost use Rattle.std.specs.Prelude.{map, filter, All, Some, None, Ok, option_to_list, option_map};
ghost use Rattle.meter_address.specs.declared.address.Address.{Address};
ghost use Rattle.meter_address.specs.declared.commission.Mode.TheVariants.{Seven};
ghost use Rattle.meter_slots.specs.declared.entry.Entry.{Entry};
ghost use Rattle.meter_slots.specs.declared.step.Step.{Step};
ghost use Rattle.frame_formats.specs.Crc.{IsBytes};
ghost use Rattle.afl_fragments.specs.Held.{Message};
ghost use Rattle.message_check.specs.Keys.{key_of};
ghost use Rattle.message_check.specs.Opening.{Found, Genuine7};
ghost use Rattle.tpl_headers.specs.declared.header.Tpl.{Tpl};
ghost use Rattle.frame_formats.specs.declared.format.Format.{Format};
ghost use Rattle.meter_slots.specs.declared.entry.Event.TheVariants.{Hear};
ghost use Rattle.meter_slots.specs.Hearing.{received, brought};
ghost use Rattle.meter_slots.specs.declared.entry.Event.{Event};
ghost use Rattle.meter_slots.specs.Resuming.{resumed, reserved, joined, resumed_behind, AreLegal, readings_through, Session, journals_of, AreReserved};
ghost use Rattle.meter_slots.specs.Journal.{Start, commission_of, SlotView, Legal, told, other_key, rekeyed, genuine, counters, outcome, readings, stored_counter};
ghost use Rattle.meter_slots.specs.World.{Call, journal_of, is_for, slot_of, world_of, after_step};
ghost use Rattle.meter_slots.specs.Laws.{stored_counters, moment_read, stored_moments, reading_added};
ghost use Rattle.meter_slots.specs.Laws.{sent_counters, downlinks_in, AreReady, PutsPayload, CarriesPayload, LeavesKeys};
ghost use Rattle.meter_slots.specs.MacLaw.{MacsDecide};
ghost use Rattle.meter_slots.specs.Laws.{IsAbove, last_stored, IsRising, AreBelow, IsRefused, IsLeft, IsLegal, call_in};

/// In mode 7 the stored counters strictly rise, from above the one that was known before.
#[tactic(auto, using(crate::proofs::JournalLaws::stored_counters_rise))]
pub fn counters_rise()
    ensures { (c : Start) (own : Address) (journal : List Entry) → c.mode ≡ Seven → Legal c own journal
        → IsRising c.last (stored_counters journal) }
{}

/// The counters of the downlinks that are sent strictly rise, from above the one that was known before.
#[tactic(auto, using(crate::proofs::DownlinkLaws::downlink_counters_rise))]
pub fn sent_counters_rise()
    ensures { (c : Start) (own : Address) (journal : List Entry) → Legal c own journal
        → IsRising (Some c.orders.down) (sent_counters journal) }
{}

/// Each downlink that is sent is that of a payload of 1 to 94 bytes under its counter and the commission's first key, where each command
/// that is put has such a payload. `SlotBook::journal` says that a slot's commands have.
#[tactic(auto, using(crate::proofs::PayloadLaws::downlinks_carry))]
pub fn downlinks_carry_payloads()
    ensures { (c : Start) (own : Address) (journal : List Entry) → AreReady c.orders → Legal c own journal
        → All (λ x. PutsPayload x.event) journal → All (CarriesPayload own (commission_of c)) (downlinks_in journal) }
{}

/// In mode 7 a message is stored exactly where it is genuine and its counter is above those of all earlier genuine messages and
/// the commission's.
pub fn stored_exactly()
    ensures { (c : Start) (own : Address) (before : List Entry) (x : Entry) (after : List Entry) (n : ℕ) → c.mode ≡ Seven
        → Legal c own (before ++ x ∷ after) → (stored_counter x.outcome ≡ Some n)
        ↔ ((option_map (λ f. f.counter) (genuine c (reverse before) x.event) ≡ Some n)
        × AreBelow n (counters c (reverse before) ++ option_to_list c.last)) }
{}

/// In mode 7 a message is stored exactly where it is genuine and its counter exceeds that of the message stored last, or the
/// commission's where none was stored.
pub fn stored_above_the_last()
    ensures { (c : Start) (own : Address) (before : List Entry) (x : Entry) (after : List Entry) (n : ℕ) → c.mode ≡ Seven
        → Legal c own (before ++ x ∷ after) → (stored_counter x.outcome ≡ Some n)
        ↔ ((option_map (λ f. f.counter) (genuine c (reverse before) x.event) ≡ Some n) × IsAbove n (last_stored c before)) }
{}

/// In mode 7 a message that a telegram brings is genuine exactly where it is so by itself: for this meter, whole, and with the MAC of
/// its bytes under the meter's keys as they are then.
pub fn genuine_by_its_mac()
    ensures { (c : Start) (earlier : List Entry) (format : Format) (at : ℕ) (t : List ℕ) (m : Message) (f : Found) → c.mode ≡ Seven
        → brought (told c earlier) t (received c.mode t) ≡ Ok (Some m) → IsBytes m.bytes
        → (genuine c earlier (Hear format at t) ≡ Some f) ↔ Genuine7 (rekeyed (commission_of c) (other_key c earlier)) m.auth m.bytes f }
{}

/// In mode 7 a message is stored with a counter exactly where it is genuine by its MAC with that counter, which exceeds the one stored last, or
/// the commission's where none was. What comes, and what was held before, are bytes; `Event` and `MeterStart` have no others.
pub fn macs_decide()
    ensures { MacsDecide }
{}

/// Without a rekeying each message is opened with the commission as it was made; and under its first key, whatever key id the message
/// names, where it has no second key. So a session without second keys is what it is where a meter has one key alone.
#[tactic(auto, using(crate::proofs::KeyLaws::commission_stays, crate::proofs::KeyLaws::first_key_of_message))]
pub fn first_key_stays()
    ensures commission { (c : Start) (earlier : List Entry) → All (λ x. LeavesKeys x.event) earlier
        → rekeyed (commission_of c) (other_key c earlier) ≡ commission_of c }
    ensures key { (c : Start) (earlier : List Entry) (h : Tpl) → All (λ x. LeavesKeys x.event) earlier → c.other ≡ None
        → key_of (rekeyed (commission_of c) (other_key c earlier)) h ≡ c.key }
{}

/// Each stored message has one reading, in the order of the journal, with the moment at which it was stored and its counter.
#[tactic(auto, using(crate::proofs::ReadingLaws::counters_read, crate::proofs::ReadingLaws::moments_read))]
pub fn readings_are_stored()
    ensures counters { (c : Start) (own : Address) (journal : List Entry) → Legal c own journal
        → map (λ r. r.counter) (readings c journal) ≡ stored_counters journal }
    ensures moments { (c : Start) (own : Address) (journal : List Entry) → Legal c own journal
        → map moment_read (readings c journal) ≡ stored_moments journal }
{}

/// Each stored message adds one reading, with the payload of the genuine message (checked, in mode 5) that was heard; nothing else
/// adds one.
#[tactic(auto, using(crate::proofs::ReadingLaws::added_read))]
pub fn readings_are_genuine()
    ensures { (c : Start) (own : Address) (journal : List Entry) (x : Entry) → Legal c own (journal ++ x ∷ [])
        → readings c (journal ++ x ∷ []) ≡ readings c journal ++ reading_added x.outcome x.event (genuine c (reverse journal) x.event) }
{}

/// A refusal leaves the second key, the last counter, the commands with their window, and the readings as they were.
#[tactic(auto, using(crate::proofs::JournalLaws::refused_left))]
pub fn refused_leaves()
    ensures { (c : Start) (own : Address) (journal : List Entry) (x : Entry) → Legal c own (journal ++ x ∷ []) → IsRefused x.outcome
        → IsLeft (record { own = own; start = c; journal = journal })
        (record { own = own; start = c; journal = journal ++ x ∷ [] }) }
{}

/// Each list of calls has one legal journal.
#[tactic(auto, using(crate::proofs::JournalLaws::journal_of_legal, crate::proofs::JournalLaws::journal_is))]
pub fn one_journal()
    ensures legal { (c : Start) (own : Address) (calls : List Call) → Legal c own (journal_of c own calls) }
    ensures one { (c : Start) (own : Address) (journal : List Entry) → Legal c own journal
        → journal ≡ journal_of c own (map call_in journal) }
{}

/// Two lists of steps that agree on one meter's steps give that meter one slot.
pub fn own_steps_alone()
    ensures { (c : Start) (own : Address) (xs ys : List Step) → filter (is_for c.address) xs ≡ filter (is_for c.address) ys
        → slot_of own xs c ≡ slot_of own ys c }
{}

/// Each slot of a world has a legal journal.
#[tactic(auto, using(crate::proofs::Worlds::world_legal))]
pub fn slots_are_legal()
    ensures { (own : Address) (commissions : List Start) (steps : List Step)
        → All IsLegal (world_of own commissions steps).slots }
{}

/// The world of some steps is made one step after the other.
#[tactic(auto, using(crate::proofs::Worlds::after_push))]
pub fn world_step_by_step()
    ensures { (own : Address) (commissions : List Start) (steps : List Step) (s : Step)
        → world_of own commissions (steps ++ s ∷ []) ≡ after_step (world_of own commissions steps) s }
{}

/// A session that is cut in two is one session: where the second slot begins with what is known behind the first one's journal, its
/// answers, its readings and what is known behind it are those of the one slot that made both journals.
#[tactic(auto, using(crate::proofs::Cuts::outcome_goes_on, crate::proofs::Cuts::readings_go_on, crate::proofs::Cuts::resumed_goes_on))]
pub fn a_cut_session_is_one()
    ensures outcome { (c : Start) (own : Address) (before after : List Entry) (event : Event)
        → outcome (resumed c before) own (reverse after) event ≡ outcome c own (reverse (before ++ after)) event }
    ensures legal { (c : Start) (own : Address) (before after : List Entry)
        → (Legal c own before × Legal (resumed c before) own after) ↔ Legal c own (before ++ after) }
    ensures readings { (c : Start) (before after : List Entry)
        → readings c (before ++ after) ≡ readings c before ++ readings (resumed c before) after }
    ensures behind { (c : Start) (before after : List Entry) → resumed (resumed c before) after ≡ resumed c (before ++ after) }
{}

/// However many sessions there are, one after the other, each begun with what was known behind the one before it: they are one session.
#[tactic(auto, using(crate::proofs::Cuts::readings_of_all, crate::proofs::Cuts::resumed_through))]
pub fn many_sessions_are_one()
    ensures legal { (c : Start) (own : Address) (first : List Entry) (later : List (List Entry))
        → AreLegal c own (first ∷ later) ↔ Legal c own (joined (first ∷ later)) }
    ensures readings { (c : Start) (first : List Entry) (later : List (List Entry))
        → readings_through c (first ∷ later) ≡ readings c (joined (first ∷ later)) }
    ensures behind { (c : Start) (first : List Entry) (later : List (List Entry))
        → resumed_behind c (first ∷ later) ≡ resumed c (joined (first ∷ later)) }
{}

/// The counters of the downlinks of all these sessions together strictly rise, so that none is used twice.
#[tactic(auto, using(crate::proofs::Cuts::legal_through, crate::proofs::DownlinkLaws::downlink_counters_rise))]
pub fn sent_counters_rise_over_sessions()
    ensures { (c : Start) (own : Address) (first : List Entry) (later : List (List Entry)) → AreLegal c own (first ∷ later)
        → IsRising (Some c.orders.down) (sent_counters (joined (first ∷ later))) }
{}

/// Sessions of which each begins with a downlink counter that isn't below the last one before it: the counters of all their downlinks
/// together strictly rise. A downlink takes the counter after the last one, so that a reserve lasts for as many downlinks. Where a session
/// of which nothing is known but that it sent at most so many downlinks is followed by one that begins with what was known before it and
/// with such a reserve, no counter is used twice.
#[tactic(auto, using(crate::proofs::DownlinkLaws::reserved_rise, crate::proofs::DownlinkLaws::downlinks_count))]
pub fn sent_counters_rise_over_reserves()
    ensures rises { (down : ℕ) (own : Address) (sessions : List Session) → AreReserved down own sessions
        → IsRising (Some down) (sent_counters (joined (journals_of sessions))) }
    ensures count { (c : Start) (own : Address) (journal : List Entry) → Legal c own journal
        → (resumed c journal).orders.down ≡ c.orders.down + length (sent_counters journal) }
    ensures lost { (c : Start) (own : Address) (lost later : List Entry) (most : ℕ) → Legal c own lost
        → length (sent_counters lost) ≤ most → Legal (reserved most c) own later
        → IsRising (Some c.orders.down) (sent_counters (lost ++ later)) }
{}
