//! Hearing a telegram: its refusals, the message that it brings, and the verdict on that message.
ghost use Rattle.std.specs.Prelude.{◌≡◌, ◌+◌, ◌≤◌, ◌<◌, ◌++◌, ◌∷◌, ℕ, List, length, drop, Some, Ok, IfOk, OnOk};
ghost use Rattle.afl_fragments.specs.Held.{Told, Piece, Message, StandsFor, assembled, held, held_bytes};
ghost use Rattle.message_check.specs.Layers.{IsLayers, layers_of};
ghost use Rattle.message_check.specs.declared.headers.Layers.{Layers};
ghost use Rattle.meter_slots.specs.Hearing.{is_unasked, is_response, is_uplink, uplink_passed, layers_passed, number_passed};
ghost use Rattle.meter_slots.specs.Hearing.{fragment_passed, received, Whole, auth_in, content_of, message_in, brought};
ghost use Rattle.meter_slots.specs.Journal.{given_up, told_with, told_by_received, access_of};
ghost use Rattle.meter_slots.specs.Keeping.{held_by, HasPlace, Admits, PieceFits, stored_by, verdict_as};
ghost use Rattle.meter_slots.specs.Keeping.{judged_by, most_joined, most_brought, VerdictFits, IsOfWhole};

use crate::fragments::Fragments;
use crate::judge::{Judge, Verdict};
use afl_fragments::{PARTS_MAX, Part, Parts};
use afl_layer::{Afl, Auth, Scratch};
use ell_layer::{Access, Ell};
use frame_formats::Telegram;
use message_check::{Layers, Reason, layers};
use meter_address::Mode;

// C fields of what a meter sends unasked (EN 13757-4).
const SND_NR: u8 = 0x44;

const SND_IR: u8 = 0x46;

const ACC_NR: u8 = 0x47;

const ACC_DMD: u8 = 0x48;

// Whether the C field is that of something that a meter sends unasked.
fn has_unasked_control(control: u8) -> bool
    ensures { result ≡ is_unasked control }
{
    matches!(control, SND_NR | SND_IR | ACC_NR | ACC_DMD)
}

/// Whether the C field is that of a response: the four of RSP-UD.
pub(crate) fn has_response_control(control: u8) -> bool
    ensures { result ≡ is_response control }
{
    matches!(control, 0x08 | 0x18 | 0x28 | 0x38)
}

// Whether the C field is that of an uplink.
fn has_uplink_control(control: u8) -> bool
    ensures { result ≡ is_uplink control }
{
    has_unasked_control(control) || has_response_control(control)
}

fn check_uplink(control: u8) -> Result<(), Reason>
    ensures { result ≡ uplink_passed control }
{
    if has_uplink_control(control) {
        Ok(())
    } else {
        Err(Reason::NotUplink(control))
    }
}

// Whether a fragment's header may come to a meter of this mode.
fn check_number(mode: Mode, fid: u8) -> Result<(), Reason>
    ensures exact { result ≡ number_passed mode fid }
    ensures counted { OnOk result (fid ≤ PARTS_MAX) }
{
    match mode {
        Mode::Five => Err(Reason::PartInMode5),
        Mode::Seven => {
            if fid > PARTS_MAX {
                Err(Reason::TooManyParts(fid))
            } else {
                Ok(())
            }
        }
    }
}

fn check_fragment(mode: Mode, afl: Option<Afl>) -> Result<(), Reason>
    ensures exact { result ≡ fragment_passed mode afl }
    ensures counted { OnOk result (HasPlace afl) }
{
    match afl {
        Some(afl) if afl.is_fragment() => check_number(mode, afl.fid),
        _ => Ok(()),
    }
}

// The layers of a telegram.
fn read_layers(telegram: &Telegram) -> Result<Layers, Reason>
    ensures exact { result ≡ layers_passed (layers_of telegram.now) }
    ensures within { IfOk result (λ l. l.body ≤ length telegram.now) }
    ensures found { IfOk result (λ l. IsLayers telegram.now l) }
{
    match layers(telegram) {
        Ok(layers) => Ok(layers),
        Err(fault) => Err(Reason::BadLayers(fault)),
    }
}

/// The layers of a telegram to a meter of this mode, or the first refusal.
#[tactic(auto, unfolding(crate::specs::Hearing::received))]
pub(crate) fn receive(mode: Mode, telegram: &Telegram) -> Result<Layers, Reason>
    ensures exact { result ≡ received mode telegram.now }
    ensures within { IfOk result (λ l. l.body ≤ length telegram.now) }
    ensures found { IfOk result (λ l. IsLayers telegram.now l) }
    ensures counted { IfOk result (λ l. HasPlace l.afl) }
{
    check_uplink(telegram.control())?;
    let layers = read_layers(telegram)?;
    check_fragment(mode, layers.afl)?;
    Ok(layers)
}

// What stands behind the layers.
#[tactic(auto, using(crate::proofs::Pieces::piece_fits))]
fn bytes_behind<'a>(telegram: &'a Telegram, layers: &Layers) -> &'a [u8]
    requires found { IsLayers telegram.now layers.now }
    requires within { layers.now.body ≤ length telegram.now }
    ensures bytes { result.now ≡ drop layers.now.body telegram.now }
    ensures most { length result.now ≤ length telegram.now }
    ensures few { length telegram.now ≤ 256 }
    ensures piece { PieceFits layers.now.afl (drop layers.now.body telegram.now) }
{
    let (_, rest) = telegram.bytes().split_at(layers.body);
    rest
}

// The fields that authenticate a whole message.
fn auth_of(afl: Option<Afl>) -> Auth
    ensures { result ≡ auth_in afl }
{
    match afl {
        None => Auth {
            mcl: None,
            mcr: None,
            ml: None,
            mac: None,
        },
        Some(afl) => Auth {
            mcl: afl.mcl,
            mcr: afl.mcr,
            ml: afl.ml,
            mac: afl.mac,
        },
    }
}

// Gives the fragments up where their message is to be stored.
fn settle(parts: &mut Parts, verdict: &Verdict)
    ensures { (bytes : List ℕ) (told : List Told) → StandsFor parts.old told
        → StandsFor parts.new (given_up (stored_by (verdict_as bytes verdict.now)) ++ told) }
{
    if let Ok(Some(_)) = verdict {
        parts.clear();
    }
}

// Hears a fragment.
fn hear_part(judge: &Judge, parts: &mut Parts, part: Part, message: &mut Scratch) -> Verdict
    requires { part.afl.fid ≤ PARTS_MAX }
    ensures verdict { (told : List Told) → StandsFor parts.old told
        → verdict_as message.new result ≡ judged_by judge.now (Ok (assembled (held (Piece part ∷ told)))) }
    ensures parts { (told : List Told) → StandsFor parts.old told
        → StandsFor parts.new (given_up (stored_by (verdict_as message.new result)) ++ Piece part ∷ told) }
    ensures fits { VerdictFits judge.now.commission.mode message.new (held_bytes parts.old + length part.bytes) result }
{
    parts.hold(part);
    let auth = parts.whole(message);
    let verdict = judge.judge(auth, message);
    settle(parts, &verdict);
    verdict
}

// Hears a whole message.
fn hear_whole(judge: &Judge, auth: Auth, bytes: &[u8], message: &mut Scratch) -> Verdict
    requires { length bytes.now ≤ 256 }
    ensures verdict { verdict_as message.new result ≡ judged_by judge.now (Ok (Some (record { auth = auth; bytes = bytes.now }))) }
    ensures fits { VerdictFits judge.now.commission.mode message.new (length bytes.now) result }
{
    message.clear();
    message.extend(bytes);
    judge.judge(Some(auth), message)
}

// Hears what stands behind the layers.
fn hear_content(
    judge: &Judge,
    parts: &mut Fragments,
    afl: Option<Afl>,
    bytes: &[u8],
    message: &mut Scratch,
) -> Verdict
    requires few { length bytes.now ≤ 256 }
    requires piece { PieceFits afl bytes.now }
    requires counted { HasPlace afl }
    requires room { Admits afl parts.old }
    ensures verdict { (told : List Told) → StandsFor (held_by parts.old) told
        → verdict_as message.new result ≡ judged_by judge.now (Ok (message_in told (content_of afl bytes.now))) }
    ensures parts { (told : List Told) → StandsFor (held_by parts.old) told
        → StandsFor (held_by parts.new)
        (told_with (content_of afl bytes.now) (given_up (stored_by (verdict_as message.new result))) ++ told) }
    ensures fits { VerdictFits judge.now.commission.mode message.new (most_joined afl (held_by parts.old) bytes.now) result }
    ensures whole { (m : Message) → content_of afl bytes.now ≡ Whole m → verdict_as message.new result ≡ judged_by judge.now (Ok (Some m)) }
{
    match afl {
        Some(afl) if afl.is_fragment() => match parts {
            Some(parts) => hear_part(judge, parts, Part::new(afl, bytes), message),
            None => unreachable!(),
        },
        afl => hear_whole(judge, auth_of(afl), bytes, message),
    }
}

// When the meter listens after its message: as the extended link layer says, where there is one.
fn access_after(ell: Option<Ell>, verdict: &Verdict) -> Access
    ensures { (bytes : List ℕ) (l : Layers) → l.ell ≡ ell → result ≡ access_of (Ok l) (verdict_as bytes verdict.now) }
{
    match (verdict, ell) {
        (Ok(Some(opened)), None) => opened.access,
        (Ok(Some(_)), Some(ell)) => ell.access,
        _ => Access::None,
    }
}

/// What was heard: the verdict, and when the meter listens after a message that is to be stored.
#[derive(Clone, Copy)]
pub(crate) struct Judged {
    pub(crate) verdict: Verdict,
    pub(crate) access: Access,
}

/// Hears a telegram with these layers: the message that is to be stored stands in `message` then.
pub(crate) fn hear(
    judge: &Judge,
    parts: &mut Fragments,
    telegram: &Telegram,
    layers: Result<Layers, Reason>,
    message: &mut Scratch,
) -> Judged
    requires exact { layers ≡ received judge.now.commission.mode telegram.now }
    requires within { IfOk layers (λ l. l.body ≤ length telegram.now) }
    requires found { IfOk layers (λ l. IsLayers telegram.now l) }
    requires counted { IfOk layers (λ l. HasPlace l.afl) }
    requires room { IfOk layers (λ l. Admits l.afl parts.old) }
    ensures verdict { (told : List Told) → StandsFor (held_by parts.old) told → verdict_as message.new result.verdict
        ≡ judged_by judge.now (brought told telegram.now (received judge.now.commission.mode telegram.now)) }
    ensures access { result.access ≡ access_of (received judge.now.commission.mode telegram.now) (verdict_as message.new result.verdict) }
    ensures parts { (told : List Told) → StandsFor (held_by parts.old) told → StandsFor (held_by parts.new) (told_by_received telegram.now
        (received judge.now.commission.mode telegram.now) (given_up (stored_by (verdict_as message.new result.verdict))) ++ told) }
    ensures fits { VerdictFits judge.now.commission.mode message.new (most_brought layers (held_by parts.old) telegram.now) result.verdict }
    ensures whole { IsOfWhole judge.now telegram.now layers (verdict_as message.new result.verdict) }
{
    match layers {
        Err(reason) => Judged {
            verdict: Err(reason),
            access: Access::None,
        },
        Ok(layers) => {
            let bytes = bytes_behind(telegram, &layers);
            let verdict = hear_content(judge, parts, layers.afl, bytes, message);
            Judged {
                verdict,
                access: access_after(layers.ell, &verdict),
            }
        }
    }
}
