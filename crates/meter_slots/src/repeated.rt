//! Telegrams that are heard again.
use crate::judge::Verdict;
use frame_formats::Telegram;
use message_check::{Layers, Reason};
use meter_address::Mode;
use std::marker::Model;

/// The last telegram that alone brought a message of mode 7 which was stored. Where another receiver heard it too, it is
/// known again by its bytes.
#[derive(Drop)]
pub(crate) struct LastWhole {
    // The counter of its message, none where no telegram is kept.
    counter: Option<u32>,
    telegram: Telegram,
}

impl Model for LastWhole {
    ghost use Rattle.std.specs.Prelude.{Option, option_map};
    ghost use Rattle.meter_slots.specs.Keeping.{Known};

    ghost Value = { Option Known };

    ghost view = { λ l. option_map (λ n. record { bytes = l.telegram; counter = n }) l.counter };
}

impl LastWhole {
    ghost use Rattle.std.specs.Prelude.{◌≡◌, None, Some, ℕ, List, IfSome};
    ghost use Rattle.std.specs.Option.{ForSome};
    ghost use Rattle.meter_slots.specs.Hearing.{received};
    ghost use Rattle.meter_slots.specs.Keeping.{Bar, Brings, IsOfWhole, verdict_as};

    /// None was heard yet.
    pub(crate) fn none() -> LastWhole
        ensures { result ≡ None }
    {
        LastWhole {
            telegram: Telegram::shortest(),
            counter: None,
        }
    }

    /// Forgets it.
    pub(crate) fn forget(&mut self)
        ensures { self.new ≡ None }
    {
        self.counter = None;
    }

    // Keeps this one.
    fn keep(&mut self, telegram: &Telegram, counter: u32)
        ensures { self.new ≡ Some (record { bytes = telegram.now; counter = counter }) }
    {
        self.telegram = telegram.copied();
        self.counter = Some(counter);
    }

    /// The counter of its message, where it is this telegram.
    pub(crate) fn counter_of(&self, telegram: &Telegram) -> Option<u32>
        ensures { IfSome result (λ n. self.now ≡ Some (record { bytes = telegram.now; counter = n })) }
    {
        if self.telegram.bytes() == telegram.bytes() {
            self.counter
        } else {
            None
        }
    }

    /// Keeps a telegram with these layers, where it alone brought a message of mode 7 that is to be stored.
    pub(crate) fn learn(
        &mut self,
        mode: Mode,
        telegram: &Telegram,
        layers: &Result<Layers, Reason>,
        verdict: &Verdict,
    )
        ensures { (b : Bar) (bytes : List ℕ) → b.commission.mode ≡ mode → layers.now ≡ received mode telegram.now
            → IsOfWhole b telegram.now layers.now (verdict_as bytes verdict.now)
            → ForSome self.old (Brings b.commission) → ForSome self.new (Brings b.commission) }
    {
        let (Mode::Seven, Ok(layers)) = (mode, layers) else {
            return;
        };
        let Ok(stored) = verdict else {
            return;
        };
        let Some(opened) = stored else {
            return;
        };
        if !layers.is_fragment() {
            self.keep(telegram, opened.counter);
        }
    }
}
