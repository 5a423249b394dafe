//! The device types (EN 13757-3) in words.
ghost use Rattle.std.specs.Prelude.{◌≡◌, map, slice_get, slice_index_or, codes};
ghost use Rattle.meter_label.specs.DeviceTypes.{text_of, word_of};

/// The words of the device types from 0 on.
pub const DEVICE_TYPES: [&str; 56] = [
    "other",
    "oil",
    "electricity",
    "gas",
    "heat, at the outlet",
    "steam",
    "warm water",
    "water",
    "heat cost allocator",
    "compressed air",
    "cooling, at the outlet",
    "cooling, at the inlet",
    "heat, at the inlet",
    "heat and cooling",
    "bus or system component",
    "unknown",
    "irrigation water",
    "water data logger",
    "gas data logger",
    "gas converter",
    "calorific value",
    "hot water",
    "cold water",
    "hot and cold water",
    "pressure",
    "converter of analog values",
    "smoke detector",
    "room sensor",
    "gas detector",
    "reserved sensor",
    "reserved sensor",
    "reserved sensor",
    "electricity breaker",
    "valve",
    "reserved switch",
    "reserved switch",
    "reserved switch",
    "customer unit",
    "reserved customer unit",
    "reserved customer unit",
    "waste water",
    "garbage",
    "carbon dioxide",
    "reserved environment meter",
    "reserved environment meter",
    "reserved environment meter",
    "reserved environment meter",
    "reserved environment meter",
    "service tool",
    "gateway",
    "unidirectional repeater",
    "bidirectional repeater",
    "reserved system device",
    "reserved system device",
    "radio converter at the system",
    "radio converter at the meter",
];

// What a list has at a place.
fn get_word(words: &[&'static str], place: usize) -> &'static str
    ensures { result.now ≡ text_of (slice_get words.now place) (λ word. word.now) }
{
    match words.get(place) {
        Some(word) => *word,
        None => "reserved",
    }
}

// The word at a place.
fn word_at(words: &[&'static str], place: usize) -> &'static str
    ensures { result.now ≡ slice_index_or (map (λ word. word.now) words.now) place (codes "reserved") }
{
    get_word(words, place)
}

/// A device type in words.
pub fn device_type_word(kind: u8) -> &'static str
    ensures { result.now ≡ word_of kind }
{
    word_at(&DEVICE_TYPES, kind as usize)
}
