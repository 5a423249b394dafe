//! Reading the layers of a telegram above the link.
ghost use Rattle.std.specs.Prelude.{◌≡◌, ◌≤◌, ◌↔◌, length, drop, Ok, Err, IfOk};
ghost use Rattle.message_check.specs.Layers.{IsLayers, IsLayerFault, extension_len, fragmentation_len};
ghost use Rattle.message_check.specs.Layers.{extension_in, fragmentation_in, header_in, layers_of};
ghost use Rattle.message_check.specs.declared.headers.Layers.{Layers};
ghost use Rattle.message_check.specs.declared.refusal.LayerFault.{LayerFault};

use crate::headers::{Layers, piece_follows};
use crate::refusal::LayerFault;
use afl_layer::{AFL_CI, Afl, read_afl};
use ell_layer::{Ell, read_ell};
use frame_formats::Telegram;
use tpl_headers::{Tpl, read_tpl};

// The CIs of an extended link layer, the first and the last; two of them are read.
const FIRST_ELL_CI: u8 = 0x8C;

const LAST_ELL_CI: u8 = 0x8F;

// How many bytes stand before the layers: L, C, M and A.
const LINK_LEN: usize = 10;

// What stands from a place on.
fn from_place(bytes: &[u8], place: usize) -> &[u8]
    requires { place ≤ length bytes.now }
    ensures { result.now ≡ drop place bytes.now }
{
    let (_, rest) = bytes.split_at(place);
    rest
}

// How many bytes the extension of the link layer has.
fn len_of_extension(ell: Option<Ell>) -> usize
    ensures { result ≡ extension_len ell }
{
    match ell {
        None => 0,
        Some(ell) => ell.len,
    }
}

// How many bytes the header of the authentication and fragmentation layer has.
fn len_of_fragmentation(afl: Option<Afl>) -> usize
    ensures { result ≡ fragmentation_len afl }
{
    match afl {
        None => 0,
        Some(afl) => afl.len,
    }
}

// The extension of the link layer, where the bytes begin with its CI.
fn read_extension(bytes: &[u8]) -> Result<Option<Ell>, LayerFault>
    ensures exact { result ≡ extension_in bytes.now }
    ensures within { IfOk result (λ ell. extension_len ell ≤ length bytes.now) }
{
    match bytes {
        [FIRST_ELL_CI..=LAST_ELL_CI, ..] => read_ell(bytes).map(Some).map_err(LayerFault::Ell),
        _ => Ok(None),
    }
}

// The header of the authentication and fragmentation layer, where the bytes begin with its CI.
fn read_fragmentation(bytes: &[u8]) -> Result<Option<Afl>, LayerFault>
    ensures exact { result ≡ fragmentation_in bytes.now }
    ensures within { IfOk result (λ afl. fragmentation_len afl ≤ length bytes.now) }
{
    match bytes {
        [AFL_CI, ..] => read_afl(bytes).map(Some).map_err(LayerFault::Afl),
        _ => Ok(None),
    }
}

// The transport header, where no piece of a message stands in its place.
fn read_header(afl: Option<Afl>, bytes: &[u8]) -> Result<Option<Tpl>, LayerFault>
    ensures { result ≡ header_in afl bytes.now }
{
    if piece_follows(afl) {
        return Ok(None);
    }
    read_tpl(bytes).map(Some).map_err(LayerFault::Tpl)
}

// The layers of a telegram's bytes, or the first fault.
#[tactic(auto, unfolding(crate::specs::Layers::layers_of))]
fn read_layers(bytes: &[u8]) -> Result<Layers, LayerFault>
    requires { 11 ≤ length bytes.now }
    ensures exact { result ≡ layers_of bytes.now }
    ensures within { IfOk result (λ l. l.body ≤ length bytes.now) }
{
    let ell = read_extension(from_place(bytes, LINK_LEN))?;
    let place = LINK_LEN + len_of_extension(ell);
    let afl = read_fragmentation(from_place(bytes, place))?;
    let place = place + len_of_fragmentation(afl);
    let tpl = read_header(afl, from_place(bytes, place))?;
    Ok(Layers {
        ell,
        afl,
        tpl,
        body: place,
    })
}

/// The layers of a telegram above the link, or the first of them that can't be read. From place 10 on, a CI from 8C to
/// 8F begins an extension of the link layer, then a CI of 90 begins an authentication and fragmentation layer; then
/// come a fragment's piece, or a transport header.
pub fn layers(telegram: &Telegram) -> Result<Layers, LayerFault>
    // What is read is a reading of the telegram, and its only reading is read.
    ensures found { IfOk result (λ l. IsLayers telegram.now l) }
    ensures only { (l : Layers) → IsLayers telegram.now l → result ≡ Ok l }
    ensures within { IfOk result (λ l. l.body ≤ length telegram.now) }

    // A fault is that of the first layer that has no spelling.
    ensures fault { (f : LayerFault) → (result ≡ Err f) ↔ IsLayerFault telegram.now f }
    ensures exact { result ≡ layers_of telegram.now }
{
    read_layers(telegram.bytes())
}
