//! What the definitions and proofs of many crates say of lists: each member, one part read after another with the first fault, and what follows of choices
//! and places. Of code it has one step, by which one part is written behind another.
#![tactic(auto)]

ghost use Rattle.std.specs.Prelude.{◌≡◌, ◌+◌, ◌≤◌, ◌++◌, length, take, drop};

/// Writes bytes at this place, and answers the place behind them. What stands in front of them and behind them stays.
pub fn put(out: &mut [u8], at: usize, bytes: &[u8]) -> usize
    requires { at + length bytes.now ≤ length out.old }
    ensures end { result ≡ at + length bytes.now }
    ensures written { take result out.new ≡ take at out.old ++ bytes.now }
    ensures behind { drop result out.new ≡ drop result out.old }
{
    let end = at + bytes.len();
    out[at..end].copy_from_slice(bytes);
    end
}
