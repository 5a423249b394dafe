//! The search for the end of a line.
ghost use Rattle.std.specs.Prelude.{◌≡◌, ◌≤◌, ◌<◌, ◌+◌, ◌-◌, length, take, drop, IsTrue, MatchOption};
ghost use Rattle.outer_io.specs.Faults.{Rose};
ghost use Rattle.line_reader.specs.Newlines.{newlines};
ghost use Rattle.line_reader.specs.Reading.{BeginsWithLine};
ghost use Rattle.line_reader.specs.Search.{FitsIn, IsEndAt, Searches};

use crate::held::HeldBytes;
use outer_io::Source;
use plain_text::first_place;

/// What ends a line, or what stands in the way. The first bytes of a line that is too long aren't held any more.
#[derive(Clone, Copy)]
pub(crate) enum Ending {
    /// A line: so many held bytes behind those that were given up, with its newline, which the source's last line may lack.
    Line {
        given_up: usize,
        count: usize,
        last: bool,
    },
    /// The end of the source, with no byte in front of it.
    Source,
    /// More bytes than a source may have.
    Limit,
    /// A read that failed.
    Fault,
}

// How many bytes the line has that begins these bytes, its newline included, where they are at most `most`.
fn line_len(bytes: &[u8], searched: usize, most: usize) -> Option<usize>
    requires within { searched ≤ length bytes.now }
    requires alone { newlines (take searched bytes.now) ≡ 0 }
    ensures { MatchOption result
        (newlines (take most bytes.now) ≡ 0)
        (λ count. (count ≤ most) × BeginsWithLine bytes.now count) }
{
    let (_, rest) = bytes.split_at(searched);
    let place = first_place(rest, b'\n')?;
    if searched + place >= most {
        return None;
    }
    Some(searched + place + 1)
}

// Gives up the bytes of a line that has more than `longest`, whatever follows.
fn give_up(held: &mut HeldBytes, longest: usize) -> usize
    requires { longest ≤ 15_359 }
    ensures rest { held.new ≡ drop result held.old }
    ensures within { result ≤ length held.old }
    ensures long { 0 < result → longest + 1 < result }
    ensures few { length held.new ≤ longest + 1 }
{
    let count = held.len();
    if count <= longest + 1 {
        return 0;
    }
    held.advance(count);
    count
}

// What stands at a source's end, behind so many bytes of a line.
fn at_end(given_up: usize, count: usize, most: usize) -> Ending
    requires { given_up + count ≤ most }
    ensures { IsEndAt given_up count result }
{
    if given_up + count == 0 {
        return Ending::Source;
    }
    Ending::Line {
        given_up,
        count,
        last: true,
    }
}

/// Reads to the end of the line that begins with what is held, of which at most `most` bytes count, or to what stands in the way.
/// Of a line with more than `longest` bytes the first ones are given up.
pub(crate) fn find_end<S: Source>(
    source: &mut S,
    held: &mut HeldBytes,
    longest: usize,
    most: usize,
) -> Ending
    requires { longest ≤ 15_359 }
    ensures fits { FitsIn result held.new most }
    ensures searches { IsTrue S.tells → Searches result longest most held.old held.new
        (S.taken source.old) (S.left source.old) (S.taken source.new) (S.left source.new) }
    ensures later { S.faults source.old ≤ S.faults source.new }
    ensures cause { result ≡ Ending.Fault → Rose (S.faults source.old) (S.faults source.new) }
{
    let mut given_up = 0;
    let mut searched = 0;
    'reading: loop {
        if let Some(count) = line_len(held.bytes(), searched, most - given_up) {
            return Ending::Line {
                given_up,
                count,
                last: false,
            };
        }
        if held.len() > most - given_up {
            return Ending::Limit;
        }
        given_up += give_up(held, longest);
        searched = held.len();
        match held.fill(source) {
            Ok(0) => return at_end(given_up, held.len(), most),
            Ok(_) => {}
            Err(_) => return Ending::Fault,
        }
    }
}
