//! What the words ask for.
ghost use Rattle.std.specs.Prelude.{◌≡◌, map, codes, nat_eq, option_map};
ghost use Rattle.std.specs.Cmp.Lexicographic.{pointwise};
ghost use Rattle.std.specs.String.{string_bytes};
ghost use Rattle.usage_totals.specs.Words.{wanted_of, totals_asked};

/// A file of edits that is to be answered.
#[derive(Clone, Copy)]
pub struct Asked<'a> {
    /// Whether each answer has the address of its meter in it.
    pub addressed: bool,
    /// The name of the file.
    pub edits: &'a str,
}

// Whether a word asks for addresses.
fn is_addressed(word: &str) -> bool
    ensures { result ≡ pointwise nat_eq word.now (codes "--addressed") }
{
    word == "--addressed"
}

/// What the words behind the program's name ask for, if they ask for anything: one file, and `--addressed` in front of it for addresses.
pub fn totals_asked(words: &[String]) -> Option<Asked<'_>>
    ensures { option_map wanted_of result ≡ totals_asked (map string_bytes words.now) }
{
    match words {
        [edits] => Some(Asked {
            addressed: false,
            edits: edits.as_str(),
        }),
        [flag, edits] => {
            if is_addressed(flag.as_str()) {
                Some(Asked {
                    addressed: true,
                    edits: edits.as_str(),
                })
            } else {
                None
            }
        }
        _ => None,
    }
}
