//! What every layer of a frame says.
ghost use Rattle.std.specs.Prelude.{◌≡◌, ◌≤◌, length, Ok, Err};
ghost use Rattle.paper.specs.Puts.{Puts};
ghost use Rattle.paper.specs.Pieces.{text_if};
ghost use Rattle.frame_formats.specs.Decoding.{decoded};
ghost use Rattle.message_check.specs.Layers.{layers_of};
ghost use Rattle.frame_inspect_main.specs.Layered.{access_word, extension_text, more_word, octet_text, fragmentation_text, long_text};
ghost use Rattle.frame_inspect_main.specs.Layered.{transport_text, content_text, layers_text, format_word, link_text, telegram_text};
ghost use Rattle.frame_inspect_main.specs.Layered.{frame_fault_text, frame_text, line_text, said_text, said_line};

use crate::item::Item;
use crate::look::Look;
use crate::room::Room;
use crate::shown::Shown;
use afl_layer::Afl;
use ell_layer::{Access, Ell};
use frame_formats::{Format, FrameFault, Telegram, decode};
use layer_text::{put_layer_fault, put_letters};
use line_reader::{BadLine, Line};
use message_check::{LayerFault, Layers, layers, link_address};
use meter_address::Address;
use outer_io::Memory;
use paper::{
    Paper, Printed, put_hex, put_labelled, put_labelled_bytes, put_labelled_two, put_number,
    put_optional, put_text,
};
use tpl_headers::Tpl;

fn word_of_access(access: Access) -> &'static str
    ensures { result.now ≡ access_word access }
{
    match access {
        Access::None => "none",
        Access::Soon => "soon",
        Access::Limited => "limited",
        Access::Unlimited => "unlimited",
    }
}

#[tactic(auto, unfolding(crate::specs::Layered::extension_text), using(paper::proofs::Calls::three_make))]
fn put_extension<P: Paper>(paper: &mut P, ell: Ell)
    ensures { Puts P.takes paper.old (extension_text ell) paper.new }
{
    put_text(paper, " ell ");
    put_text(paper, word_of_access(ell.access));
    put_labelled(paper, " ", u64::from(ell.acc));
}

#[tactic(auto, using(paper::proofs::Calls::none))]
fn put_extension_if<P: Paper>(paper: &mut P, ell: Option<Ell>)
    ensures { Puts P.takes paper.old (text_if extension_text ell) paper.new }
{
    match ell {
        None => {}
        Some(ell) => put_extension(paper, ell),
    }
}

fn word_of_more(more: bool) -> &'static str
    ensures { result.now ≡ more_word more }
{
    if more { " more " } else { " last " }
}

fn put_octet<P: Paper>(paper: &mut P, octet: Option<u8>)
    ensures { Puts P.takes paper.old (octet_text octet) paper.new }
{
    match octet {
        None => put_text(paper, "-"),
        Some(octet) => put_hex(paper, &[octet]),
    }
}

#[tactic(auto, unfolding(crate::specs::Layered::fragmentation_text), using(paper::proofs::Calls::five_make))]
fn put_fragmentation<P: Paper>(paper: &mut P, afl: Afl)
    ensures { Puts P.takes paper.old (fragmentation_text afl) paper.new }
{
    put_labelled(paper, " afl ", u64::from(afl.fid));
    put_text(paper, word_of_more(afl.more));
    put_octet(paper, afl.mcl);
    put_text(paper, " ");
    put_optional(paper, afl.mcr);
}

#[tactic(auto, using(paper::proofs::Calls::none))]
fn put_fragmentation_if<P: Paper>(paper: &mut P, afl: Option<Afl>)
    ensures { Puts P.takes paper.old (text_if fragmentation_text afl) paper.new }
{
    match afl {
        None => {}
        Some(afl) => put_fragmentation(paper, afl),
    }
}

#[tactic(auto, using(paper::proofs::Calls::none))]
fn put_long_if<P: Paper>(paper: &mut P, address: Option<Address>)
    ensures { Puts P.takes paper.old (text_if long_text address) paper.new }
{
    match address {
        None => {}
        Some(address) => put_labelled_bytes(paper, " of ", &address.to_bytes()),
    }
}

#[tactic(auto, unfolding(crate::specs::Layered::transport_text), using(paper::proofs::Calls::five_make))]
fn put_transport<P: Paper>(paper: &mut P, tpl: Tpl)
    ensures { Puts P.takes paper.old (transport_text tpl) paper.new }
{
    put_labelled_bytes(paper, " tpl ", &[tpl.ci]);
    put_labelled(paper, " ", u64::from(tpl.acc));
    put_labelled_bytes(paper, " ", &[tpl.status]);
    put_labelled_two(paper, " ", u64::from(tpl.mode()), u64::from(tpl.blocks()));
    put_long_if(paper, tpl.address);
}

fn put_content<P: Paper>(paper: &mut P, piece: usize, tpl: Option<Tpl>)
    ensures { Puts P.takes paper.old (content_text piece tpl) paper.new }
{
    match tpl {
        None => put_labelled(paper, " piece ", piece as u64),
        Some(tpl) => put_transport(paper, tpl),
    }
}

#[tactic(auto, unfolding(crate::specs::Layered::layers_text), using(paper::proofs::Calls::three_make))]
fn put_layers_read<P: Paper>(paper: &mut P, len: usize, layers: Layers)
    requires { layers.body ≤ len }
    ensures { Puts P.takes paper.old (layers_text len (Ok layers)) paper.new }
{
    put_extension_if(paper, layers.ell);
    put_fragmentation_if(paper, layers.afl);
    put_content(paper, len - layers.body, layers.tpl);
}

#[tactic(auto, unfolding(crate::specs::Layered::layers_text), using(paper::proofs::Calls::two_make))]
fn put_unread<P: Paper>(paper: &mut P, len: usize, fault: LayerFault)
    ensures { Puts P.takes paper.old (layers_text len (Err fault)) paper.new }
{
    put_text(paper, " fault ");
    put_layer_fault(paper, fault);
}

fn put_layers<P: Paper>(paper: &mut P, telegram: &Telegram)
    ensures { Puts P.takes paper.old (layers_text (length telegram.now) (layers_of telegram.now)) paper.new }
{
    let len = telegram.bytes().len();
    match layers(telegram) {
        Ok(layers) => put_layers_read(paper, len, layers),
        Err(fault) => put_unread(paper, len, fault),
    }
}

fn word_of_format(format: Format) -> &'static str
    ensures { result.now ≡ format_word format }
{
    match format {
        Format::A => " A ",
        Format::B => " B ",
    }
}

#[tactic(auto, unfolding(crate::specs::Layered::link_text), using(paper::proofs::Calls::four_make))]
fn put_link<P: Paper>(paper: &mut P, control: u8, address: Address)
    ensures { Puts P.takes paper.old (link_text control address) paper.new }
{
    put_labelled_bytes(paper, " ", &[control]);
    put_labelled_bytes(paper, " ", &address.to_bytes());
    put_text(paper, " ");
    put_letters(paper, address);
}

#[tactic(auto, unfolding(crate::specs::Layered::telegram_text), using(paper::proofs::Calls::three_make))]
fn put_telegram<P: Paper>(paper: &mut P, format: Format, telegram: &Telegram)
    ensures { Puts P.takes paper.old (telegram_text format telegram.now) paper.new }
{
    put_labelled(paper, word_of_format(format), telegram.bytes().len() as u64);
    put_link(paper, telegram.control(), link_address(telegram));
    put_layers(paper, telegram);
}

fn put_frame_fault<P: Paper>(paper: &mut P, fault: FrameFault)
    ensures { Puts P.takes paper.old (frame_fault_text fault) paper.new }
{
    match fault {
        FrameFault::Empty => put_text(paper, " unframed empty"),
        FrameFault::Short(l) => put_labelled(paper, " unframed short ", u64::from(l)),
        FrameFault::Gap(l) => put_labelled(paper, " unframed gap ", u64::from(l)),
        FrameFault::Length { want, have } => {
            put_labelled_two(paper, " unframed length ", want as u64, have as u64)
        }
        FrameFault::Crc(block) => put_labelled(paper, " unframed crc ", block as u64),
    }
}

fn put_frame<P: Paper>(paper: &mut P, format: Format, bytes: &[u8])
    ensures { Puts P.takes paper.old (frame_text format (decoded format bytes.now)) paper.new }
{
    let mut telegram = Telegram::shortest();
    match decode(format, bytes, &mut telegram) {
        Ok(()) => put_telegram(paper, format, &telegram),
        Err(fault) => put_frame_fault(paper, fault),
    }
}

// Puts what every layer of a line's frame says, behind a space.
fn put_line<P: Paper>(paper: &mut P, line: &Line)
    ensures { Puts P.takes paper.old (line_text line.now) paper.new }
{
    match line {
        Line::Frame { format, bytes, .. } => put_frame(paper, *format, bytes.bytes()),
        _ => put_text(paper, " other"),
    }
}

fn put_said<P: Paper>(paper: &mut P, said: &Result<Line, BadLine>)
    ensures { Puts P.takes paper.old (said_text said.now) paper.new }
{
    match said {
        Ok(line) => put_line(paper, line),
        Err(_) => put_text(paper, " bad"),
    }
}

/// Puts the line that is shown of what a line says, with its number.
#[tactic(auto, unfolding(crate::specs::Layered::said_line), using(paper::proofs::Calls::three_make))]
pub fn put_said_line<P: Paper>(paper: &mut P, number: u32, said: &Result<Line, BadLine>)
    ensures { Puts P.takes paper.old (said_line number said.now) paper.new }
{
    put_number(paper, u64::from(number));
    put_said(paper, said);
    put_text(paper, "\n");
}

// An item with its number.
#[derive(Drop)]
struct Numbered<'i> {
    number: u32,
    item: &'i Item,
}

impl Printed for Numbered<'_> {
    ghost use Rattle.frame_inspect_main.specs.Layered.{layered_text};

    ghost text = { λ n. layered_text n.number n.item.now };

    fn print<P: Paper>(&self, paper: &mut P) {
        put_said_line(paper, self.number, &self.item.said());
    }
}

/// The look that shows every layer of a frame in a line of text.
#[derive(Clone, Copy)]
pub struct Layered;

impl Look for Layered {
    ghost use Rattle.frame_inspect_main.specs.Layered.{layered_text};

    ghost meaning = { λ look number next. layered_text number next };

    fn look(&self, room: &mut Room, number: u32, next: &Item) -> Result<Shown, Memory> {
        Ok(room.shown(&Numbered { number, item: next })?)
    }
}
