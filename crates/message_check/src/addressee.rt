//! The meter that a telegram is for.
ghost use Rattle.std.specs.Prelude.{◌≡◌, None, Some};
ghost use Rattle.message_check.specs.Layers.{IsLayers};
ghost use Rattle.message_check.specs.Target.{link_address, long_address, address_read, target_of};
ghost use Rattle.message_check.specs.declared.headers.Layers.{Layers};
ghost use Rattle.message_check.specs.declared.refusal.LayerFault.{LayerFault};
ghost use Rattle.meter_address.specs.declared.address.Address.{Address};

use crate::reading::layers;
use frame_formats::Telegram;
use meter_address::Address;

/// The address of the link layer: that of the sender, M and A as they are sent.
pub fn link_address(telegram: &Telegram) -> Address
    ensures { result ≡ link_address telegram.now }
{
    Address::from_bytes(telegram.link_address_bytes())
}

/// The meter that a telegram is for: the one that a long transport header names, where the layers can be read and there
/// is such a header; in every other case the one with the link address.
#[tactic(auto, unfolding(crate::specs::Target::target_of))]
pub fn target(telegram: &Telegram) -> Address
    ensures exact { result ≡ target_of telegram.now }

    // The same in terms of the telegram's reading.
    ensures long { (l : Layers) (a : Address) → IsLayers telegram.now l → long_address l ≡ Some a → result ≡ a }
    ensures link { ((l : Layers) → IsLayers telegram.now l → long_address l ≡ None) → result ≡ link_address telegram.now }
{
    let link = link_address(telegram);
    match layers(telegram) {
        Ok(layers) => layers.long_address().unwrap_or(link),
        Err(_) => link,
    }
}
