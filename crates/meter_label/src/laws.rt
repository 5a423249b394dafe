//! Laws of labels, addresses and words.
ghost use Rattle.std.specs.Prelude.{◌≡◌, ◌<◌, ◌^◌, ◌↔◌, Some, Ok};
ghost use Rattle.hex.specs.Hex.{encode_lower};
ghost use Rattle.meter_address.specs.declared.address.Address.{Address};
ghost use Rattle.meter_label.specs.declared.label.Label.{Label};
ghost use Rattle.meter_label.specs.Label.{IsLabelOf, IsFit, label_of, address_of};

/// The label of an address and the address of a label are the two that say the same, so that each undoes the other.
pub fn labels_and_addresses_agree()
    ensures named { (address : Address) (label : Label) → IsLabelOf address label ↔ (label_of address ≡ Some label) }
    ensures addressed { (address : Address) (label : Label) → address.0 < 2 ^ 64 → IsFit label →
        (label_of address ≡ Some label) ↔ (address_of label ≡ Some address) }
{}
