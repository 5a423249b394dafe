//! How a radio receiver prints what it hears.
ghost use Rattle.std.specs.Prelude.{◌≡◌};
ghost use Rattle.plain_text.specs.Parts.{is_word};

/// The format of a radio receiver's lines.
#[derive(Clone, Copy)]
pub enum Printing {
    /// Those of a stick with culfw: a frame with its CRCs behind the letter `b`.
    Cul,
    /// Those of rtl_wmbus: eight columns with a semicolon between two of them.
    RtlWmbus,
    /// Those of rtl_433: a JSON object in each line.
    Rtl433,
    /// A telegram in hexadecimal in each line.
    Hex,
}

// Whether a text is this word.
fn is_word(text: &[u8], word: &str) -> bool
    ensures { result ≡ is_word text.now word.now }
{
    text == word.as_bytes()
}

impl Printing {
    ghost use Rattle.std.specs.Prelude.{◌≡◌};
    ghost use Rattle.line_feed.specs.Printings.{printing_of};

    /// The format of this name.
    pub fn of_word(word: &[u8]) -> Option<Printing>
        ensures { result ≡ printing_of word.now }
    {
        if is_word(word, "cul") {
            return Some(Printing::Cul);
        }
        if is_word(word, "rtl_wmbus") {
            return Some(Printing::RtlWmbus);
        }
        if is_word(word, "rtl_433") {
            return Some(Printing::Rtl433);
        }
        if is_word(word, "hex") {
            return Some(Printing::Hex);
        }
        None
    }
}
