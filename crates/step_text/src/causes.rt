//! Why an event is refused, and why a line says nothing: words, and the values behind them.
ghost use Rattle.std.specs.Prelude.{◌≡◌, [], ◌∷◌};
ghost use Rattle.json.specs.Print.{escape};
ghost use Rattle.serde_json.specs.Written.{compact_text};
ghost use Rattle.paper.specs.Puts.{Puts};
ghost use Rattle.step_text.specs.Causes.{Bytes, layers_cause, message_cause, reason_cause, frame_cause, bad_cause};
ghost use Rattle.step_text.specs.Lines.{values_tree};
ghost use Rattle.step_text.specs.Numbers.{AreSmall, values_of};

use afl_layer::AflFault;
use ell_layer::EllFault;
use frame_formats::FrameFault;
use line_reader::BadLine;
use meter_address::Address;
use meter_slots::{LayerFault, Reason};
use paper::{Paper, put_number, put_text};
use report_text::put_digits;
use tpl_headers::TplFault;

/// The values behind a word.
#[derive(Clone, Copy)]
pub(crate) enum Values {
    /// None.
    Nothing,
    /// A number.
    One(u64),
    /// Two numbers.
    Two(u64, u64),
    /// A byte.
    Byte(u8),
    /// Two bytes.
    Pair([u8; 2]),
    /// The bytes of an address.
    Name(Address),
}

#[tactic(auto, unfolding(json::specs::Print::escape_byte))]
fn layers_cause(fault: LayerFault) -> (&'static str, Values)
    ensures word { result.0.now ≡ (layers_cause fault).word }
    ensures values { values_of result.1 ≡ (layers_cause fault).values }
    ensures plain { escape result.0.now ≡ result.0.now }
{
    match fault {
        LayerFault::Ell(EllFault::Truncated(have)) => (
            "layers ell truncated",
            Values::One(have as u64),
        ),
        LayerFault::Ell(EllFault::Kind(ci)) => ("layers ell kind", Values::Byte(ci)),
        LayerFault::Afl(AflFault::Truncated(have)) => (
            "layers afl truncated",
            Values::One(have as u64),
        ),
        LayerFault::Afl(AflFault::AflLength { said, fields }) => {
            (
                "layers afl length",
                Values::Two(u64::from(said), u64::from(fields)),
            )
        }
        LayerFault::Afl(AflFault::FieldPlace(fcl)) => (
            "layers afl place",
            Values::Pair(fcl.to_be_bytes()),
        ),
        LayerFault::Afl(AflFault::FidZero) => ("layers afl fidzero", Values::Nothing),
        LayerFault::Tpl(TplFault::Truncated(have)) => (
            "layers tpl truncated",
            Values::One(have as u64),
        ),
        LayerFault::Tpl(TplFault::Unbuilt(ci)) => ("layers tpl unbuilt", Values::Byte(ci)),
    }
}

#[tactic(auto, unfolding(json::specs::Print::escape_byte))]
fn message_cause(fault: TplFault) -> (&'static str, Values)
    ensures word { result.0.now ≡ (message_cause fault).word }
    ensures values { values_of result.1 ≡ (message_cause fault).values }
    ensures plain { escape result.0.now ≡ result.0.now }
{
    match fault {
        TplFault::Truncated(have) => ("message truncated", Values::One(have as u64)),
        TplFault::Unbuilt(ci) => ("message unbuilt", Values::Byte(ci)),
    }
}

/// Why an event is refused.
#[tactic(auto, unfolding(json::specs::Print::escape_byte))]
pub(crate) fn reason_cause(reason: Reason) -> (&'static str, Values)
    ensures word { result.0.now ≡ (reason_cause reason).word }
    ensures values { values_of result.1 ≡ (reason_cause reason).values }
    ensures plain { escape result.0.now ≡ result.0.now }
{
    match reason {
        Reason::NotUplink(control) => ("uplink", Values::Byte(control)),
        Reason::BadLayers(fault) => layers_cause(fault),
        Reason::PartInMode5 => ("part5", Values::Nothing),
        Reason::TooManyParts(fid) => ("parts", Values::One(u64::from(fid))),
        Reason::BadMessage(fault) => message_cause(fault),
        Reason::OtherAddress(address) => ("other", Values::Name(address)),
        Reason::Mode { found, wanted } => (
            "mode",
            Values::Two(u64::from(found), u64::from(wanted)),
        ),
        Reason::NoAuth => ("noauth", Values::Nothing),
        Reason::Kdf(found) => ("kdf", Values::One(u64::from(found))),
        Reason::ShortBlocks { want, have } => ("blocks", Values::Two(want as u64, have as u64)),
        Reason::Unchecked => ("unchecked", Values::Nothing),
        Reason::BadMac => ("mac", Values::Nothing),
        Reason::Stale { got, last } => ("stale", Values::Two(u64::from(got), u64::from(last))),
        Reason::CheckBytes(two) => ("check", Values::Pair(two)),
        Reason::SameAccess(number) => ("access", Values::One(u64::from(number))),
        Reason::QueueFull => ("queue", Values::Nothing),
        Reason::IdsSpent => ("ids", Values::Nothing),
        Reason::NoSuch(id) => ("nosuch", Values::One(u64::from(id))),
        Reason::KeyInMode5 => ("key5", Values::Nothing),
    }
}

/// Why bytes are no frame.
#[tactic(auto, unfolding(json::specs::Print::escape_byte))]
pub(crate) fn frame_cause(fault: FrameFault) -> (&'static str, Values)
    ensures word { result.0.now ≡ (frame_cause fault).word }
    ensures values { values_of result.1 ≡ (frame_cause fault).values }
    ensures plain { escape result.0.now ≡ result.0.now }
{
    match fault {
        FrameFault::Empty => ("empty", Values::Nothing),
        FrameFault::Short(l) => ("short", Values::One(u64::from(l))),
        FrameFault::Gap(l) => ("gap", Values::One(u64::from(l))),
        FrameFault::Length { want, have } => ("length", Values::Two(want as u64, have as u64)),
        FrameFault::Crc(block) => ("crc", Values::One(block as u64)),
    }
}

/// Why a line is outside the grammar.
#[tactic(auto, unfolding(json::specs::Print::escape_byte))]
pub(crate) fn bad_cause(bad: BadLine) -> (&'static str, Values)
    ensures word { result.0.now ≡ (bad_cause bad).word }
    ensures values { values_of result.1 ≡ (bad_cause bad).values }
    ensures plain { escape result.0.now ≡ result.0.now }
{
    match bad {
        BadLine::TooLong => ("long", Values::Nothing),
        BadLine::Word => ("word", Values::Nothing),
        BadLine::Fields => ("fields", Values::Nothing),
        BadLine::Number => ("number", Values::Nothing),
        BadLine::Address => ("address", Values::Nothing),
        BadLine::Hex => ("hex", Values::Nothing),
        BadLine::Payload(count) => ("payload", Values::One(count as u64)),
        BadLine::Key => ("key", Values::Nothing),
    }
}

/// That the numbers are of 64 bits. Nothing is done: their type says it.
pub(crate) fn show_values(values: Values)
    ensures { AreSmall (values_of values) }
{
    match values {
        Values::One(_n) => {}
        Values::Two(_n, _m) => {}
        _ => {}
    }
}

#[tactic(auto, using(paper::proofs::Calls::three_make))]
fn put_one<P: Paper>(paper: &mut P, n: u64)
    ensures { Puts P.takes paper.old (compact_text (values_tree (values_of (Values.One n)))) paper.new }
{
    put_text(paper, "[");
    put_number(paper, n);
    put_text(paper, "]");
}

fn put_two<P: Paper>(paper: &mut P, n: u64, m: u64)
    ensures { Puts P.takes paper.old (compact_text (values_tree (values_of (Values.Two n m)))) paper.new }
{
    put_text(paper, "[");
    put_number(paper, n);
    put_text(paper, ",");
    put_number(paper, m);
    put_text(paper, "]");
}

fn put_bytes<P: Paper>(paper: &mut P, bytes: &[u8])
    ensures { Puts P.takes paper.old (compact_text (values_tree (Bytes bytes.now ∷ []))) paper.new }
{
    put_text(paper, "[\"");
    put_digits(paper, bytes);
    put_text(paper, "\"]");
}

/// Puts the values as an array.
pub(crate) fn put_values<P: Paper>(paper: &mut P, values: Values)
    ensures { Puts P.takes paper.old (compact_text (values_tree (values_of values))) paper.new }
{
    match values {
        Values::Nothing => put_text(paper, "[]"),
        Values::One(n) => put_one(paper, n),
        Values::Two(n, m) => put_two(paper, n, m),
        Values::Byte(byte) => put_bytes(paper, &[byte]),
        Values::Pair(two) => put_bytes(paper, &two),
        Values::Name(address) => put_bytes(paper, &address.to_bytes()),
    }
}
