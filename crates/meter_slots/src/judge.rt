//! What a meter's messages are judged by, and the verdict on a message.
ghost use Rattle.std.specs.Prelude.{◌≡◌, ◌≤◌, ℕ, length, Some, Ok, Err, IfOk, IfErr, OnOk, OnSome};
ghost use Rattle.std.specs.Option.{ForSome};
ghost use Rattle.meter_address.specs.Commission.{most_last};
ghost use Rattle.afl_fragments.specs.Held.{message_with};
ghost use Rattle.message_check.specs.Opened.{found_in};
ghost use Rattle.meter_slots.specs.Journal.{judged_in, key_answer, other_given, rekeyed};
ghost use Rattle.meter_slots.specs.Keeping.{last_after, verdict_as, judged_by, VerdictFits};

use crate::entry::Outcome;
use afl_layer::{Auth, Scratch};
use message_check::{MeterKeys, Opened, Reason, open5_with_keys, open7_with_keys};
use meter_address::{Commission, Mode};
use std::marker::Model;

/// What a telegram comes to: a message that is opened and to be stored, a fragment that is kept, or a refusal.
pub(crate) type Verdict = Result<Option<Opened>, Reason>;

/// A meter's commission with the second key that it has now, its keys made ready once for all messages, and the last number.
#[derive(Drop)]
pub(crate) struct Judge {
    last: Option<u32>,
    commission: Commission,
    keys: MeterKeys,
}

// A contract sees the commission and the last number alone.
impl Model for Judge {
    ghost use Rattle.std.specs.Prelude.{◌≡◌};
    ghost use Rattle.message_check.specs.Keys.{keys_of};
    ghost use Rattle.meter_slots.specs.Keeping.{Bar};

    ghost Value = { Bar };

    ghost view = { λ j. record { commission = j.commission; last = j.last } };

    ghost invariant = { λ j. j.keys ≡ keys_of j.commission };
}

// Checks a message and decrypts it in place, and compares its number with the last one.
#[tactic(auto, unfolding(message_check::specs::Opening::opened5_after, message_check::specs::Opening::opened7_after))]
fn open(mode: Mode, judge: &Judge, auth: &Auth, message: &mut Scratch) -> Result<Opened, Reason>
    requires { judge.now.commission.mode ≡ mode }
    ensures opened { IfOk result (λ o.
        judged_in mode judge.now.commission judge.now.last (record { auth = auth.now; bytes = message.old })
        ≡ Ok (found_in message.new o)) }
    ensures refused { IfErr result (λ r.
        judged_in mode judge.now.commission judge.now.last (record { auth = auth.now; bytes = message.old }) ≡ Err r) }
    ensures within { IfOk result (λ o. o.from ≤ length message.new) }
    ensures number { IfOk result (λ o. o.counter ≤ most_last mode) }
    ensures len { OnOk result (length message.new ≡ length message.old) }
{
    match mode {
        Mode::Five => open5_with_keys(&judge.keys, &judge.commission, judge.last, message),
        Mode::Seven => open7_with_keys(&judge.keys, &judge.commission, judge.last, auth, message),
    }
}

impl Judge {
    pub(crate) fn new(commission: Commission) -> Judge
        ensures bar { result ≡ record { commission = commission; last = commission.last } }
        ensures fits { ForSome commission.last (λ n. n ≤ most_last commission.mode) }
    {
        Judge {
            commission,
            keys: MeterKeys::new(&commission),
            last: commission.last,
        }
    }

    /// The commission, with the second key that the meter has now.
    pub(crate) fn commission(&self) -> &Commission
        ensures { result.now ≡ self.now.commission }
    {
        &self.commission
    }

    pub(crate) fn mode(&self) -> Mode
        ensures { result ≡ self.now.commission.mode }
    {
        self.commission.mode
    }

    /// The number with which that of the next message is compared.
    pub(crate) fn last(&self) -> Option<u32>
        ensures { result ≡ self.now.last }
    {
        self.last
    }

    /// The verdict on the message, where there is one.
    pub(crate) fn judge(&self, auth: Option<Auth>, message: &mut Scratch) -> Verdict
        ensures verdict { verdict_as message.new result ≡ judged_by self.now (Ok (message_with auth message.old)) }
        ensures fits { (room : ℕ) → OnSome auth (length message.old ≤ room) → VerdictFits self.now.commission.mode message.new room result }
    {
        let Some(auth) = auth else {
            return Ok(None);
        };
        match open(self.mode(), self, &auth, message) {
            Err(reason) => Err(reason),
            Ok(opened) => Ok(Some(opened)),
        }
    }

    /// Takes a stored message's number for the last one.
    pub(crate) fn count(&mut self, outcome: &Outcome)
        ensures { self.new ≡ record self.old { last = last_after self.old.last outcome.now } }
    {
        if let Outcome::Stored { counter, .. } = outcome {
            self.last = Some(*counter);
        }
    }

    /// Takes a second key, in mode 7. A meter of mode 5 has one key alone.
    pub(crate) fn rekey(&mut self, key: &[u8; 16]) -> Outcome
        ensures outcome { result ≡ key_answer self.old.commission.mode }
        ensures after { self.new ≡ record self.old {
          commission = rekeyed self.old.commission (other_given self.old.commission.mode key.now self.old.commission.other);
        } }
    {
        match self.commission.mode {
            Mode::Five => Outcome::Refused(Reason::KeyInMode5),
            Mode::Seven => {
                self.commission.other = Some(*key);
                self.keys.renew_other(key);
                Outcome::Rekeyed
            }
        }
    }
}
