//! Laws of addresses and their texts.
ghost use Rattle.std.specs.Prelude.{◌≡◌, ◌<◌, ◌^◌, ℕ, List};
ghost use Rattle.std.specs.Str.{str_to_ascii_lowercase};
ghost use Rattle.meter_address.specs.Address.{text_of, Spells};
ghost use Rattle.meter_address.specs.declared.address.Address.{Address};

/// A text spells at most one address, and the texts of an address differ in the case of their letters alone.
pub fn text_and_address_agree()
    ensures one_address { (text : List ℕ) (a b : Address) → a.0 < 2 ^ 64 → b.0 < 2 ^ 64
        → Spells text a → Spells text b → a ≡ b }
    ensures one_text { (text : List ℕ) (a : Address) → Spells text a → str_to_ascii_lowercase text ≡ text_of a }
{}
