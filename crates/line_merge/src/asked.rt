//! What the words ask for.
ghost use Rattle.std.specs.Prelude.{◌≡◌, ◌≤◌, length, map, codes, nat_eq, IfSome, option_map};
ghost use Rattle.std.specs.Cmp.Lexicographic.{pointwise};
ghost use Rattle.std.specs.String.{string_bytes};
ghost use Rattle.line_merge.specs.Words.{dashes, are_inputs, of_names, merge_of, merge_asked};

/// The name of the standard input.
pub(crate) const STANDARD_INPUT: &str = "-";

/// Inputs that are to be merged.
#[derive(Clone, Copy)]
pub(crate) struct Asked<'a> {
    /// Whether each line has its input's number in front of it.
    pub numbered: bool,
    /// The names of the inputs, in their order.
    pub names: &'a [String],
}

// How many of the names are that of the standard input.
fn dashes(names: &[String]) -> usize
    ensures count { result ≡ dashes (map string_bytes names.now) }
    ensures few { result ≤ length names.now }
{
    let [name, later @ ..] = names else {
        return 0;
    };
    let behind = dashes(later);
    if name.as_str() == STANDARD_INPUT {
        behind + 1
    } else {
        behind
    }
}

// Whether these are one to sixteen names, and at most one of them that of the standard input.
fn are_inputs(names: &[String]) -> bool
    ensures { result ≡ are_inputs (map string_bytes names.now) }
{
    1 <= names.len() && names.len() <= 16 && dashes(names) <= 1
}

// Whether a word asks for numbers.
fn is_numbered(word: &str) -> bool
    ensures { result ≡ pointwise nat_eq word.now (codes "--numbered") }
{
    word == "--numbered"
}

// The inputs of these names, where they can be merged.
fn of_names(numbered: bool, names: &[String]) -> Option<Asked<'_>>
    ensures asked { option_map merge_of result ≡ of_names numbered (map string_bytes names.now) }
    ensures few { IfSome result (λ a. length a.names.now ≤ 16) }
{
    if are_inputs(names) {
        Some(Asked { numbered, names })
    } else {
        None
    }
}

/// The inputs that the words ask for.
pub(crate) fn merge_asked(command: &[String]) -> Option<Asked<'_>>
    ensures asked { option_map merge_of result ≡ merge_asked (map string_bytes command.now) }
    ensures few { IfSome result (λ a. length a.names.now ≤ 16) }
{
    if let [flag, names @ ..] = command {
        if is_numbered(flag.as_str()) {
            return of_names(true, names);
        }
    }
    of_names(false, command)
}
