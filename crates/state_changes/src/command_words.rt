//! The words of the two programs.
ghost use Rattle.std.specs.Prelude.{◌≡◌, true, map, length, IfSome};
ghost use Rattle.std.specs.String.{string_bytes};
ghost use Rattle.state_changes.specs.CommandWords.{are_merge_words, raise_in};

use plain_text::read_number;

/// Whether the words are those of `state_merge`, `STATE ROSTER NEXT`, where NEXT is the name of neither of the others.
#[tactic(auto, unfolding(crate::specs::CommandWords::are_merge_words), using(crate::proofs::CommandWords::three_of))]
pub fn are_merge_words(words: &[String]) -> bool
    ensures right { result ≡ are_merge_words (map string_bytes words.now) }
    ensures three { result ≡ true → length words.now ≡ 3 }
{
    match words {
        [state, roster, next] => {
            next.as_bytes() != state.as_bytes() && next.as_bytes() != roster.as_bytes()
        }
        _ => false,
    }
}

/// The N of the words of `state_raise`, `STATE N NEXT`: a plain number below 2^32, where NEXT isn't the name of STATE.
#[tactic(auto, unfolding(crate::specs::CommandWords::raise_in), using(crate::proofs::CommandWords::three_for))]
pub fn read_raise(words: &[String]) -> Option<u32>
    ensures by { result ≡ raise_in (map string_bytes words.now) }
    ensures three { IfSome result (λ _. length words.now ≡ 3) }
{
    match words {
        [state, n, next] => {
            if next.as_bytes() == state.as_bytes() {
                return None;
            }
            let by = read_number(n.as_bytes(), u64::from(u32::MAX))?;
            Some(by as u32)
        }
        _ => None,
    }
}
