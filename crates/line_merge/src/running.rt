//! A merge, from the first line of each input to the last of all.
ghost use Rattle.std.specs.Prelude.{◌≡◌, ◌≤◌, ◌<◌, ◌+◌, length, map, IsTrue, OnOk, IfErr};
ghost use Rattle.lists.specs.Each.{Each, EachWith};
ghost use Rattle.outer_io.specs.Shown.{sink_change};
ghost use Rattle.line_merge.specs.Inputs.{input_lines};
ghost use Rattle.line_merge.specs.Least.{HasHead, IsLeast};
ghost use Rattle.line_merge.specs.Readers.{IsAtHead, GoesOn, IsTaken, rests_of, all_to_come};
ghost use Rattle.line_merge.specs.Run.{IsFresh, IsFaulty, IsWritten, IsRun, bytes_of, inputs_shown};
ghost use Rattle.line_merge.specs.Steps.{IsStep, IsStopped, IsEnded};

use crate::choice::least;
use crate::inputs::next_head;
use crate::lines::MergedLine;
use crate::status::{FaultyInput, MergeStatus};
use line_reader::TextReader;
use outer_io::{Sink, Source};
use paper::write;

// Takes the first line of each input, the first of which has this number: the moments at which they stand.
fn take_first<S: Source>(
    number: u64,
    inputs: &mut [TextReader<S>],
    heads: &mut [Option<u64>],
) -> Result<(), FaultyInput>
    requires few { number + length inputs.old ≤ 17 }
    requires as_many { length inputs.old ≡ length heads.old }
    requires fresh { Each IsFresh inputs.old }
    ensures at_heads { OnOk result (EachWith (IsAtHead S.Source) inputs.new heads.new) }
    ensures rests { OnOk result (IsTrue S.tells →
        rests_of S.Source inputs.new heads.new ≡ map (λ r. input_lines (bytes_of S.Source r)) inputs.old) }
    ensures faulty { IfErr result (λ faulty. IsFaulty S.tells number faulty (inputs_shown S.Source inputs.old inputs.new)) }
    ensures goes_on { EachWith (GoesOn S.Source) inputs.old inputs.new }
{
    let Some((input, later)) = inputs.split_first_mut() else {
        return Ok(());
    };
    let Some((head, later_heads)) = heads.split_first_mut() else {
        return Ok(());
    };
    match next_head(input, 0) {
        Ok(first) => *head = first,
        Err(fault) => return Err(FaultyInput { number, fault }),
    }
    take_first(number + 1, later, later_heads)?;
    Ok(())
}

// Takes the next line of the input at a place, whose last line stood at the moment `before`.
fn take_next<S: Source>(
    inputs: &mut [TextReader<S>],
    heads: &mut [Option<u64>],
    place: usize,
    before: u64,
) -> Result<(), FaultyInput>
    requires few { length inputs.old ≤ 16 }
    requires as_many { length inputs.old ≡ length heads.old }
    requires within { place < length inputs.old }
    requires at_heads { EachWith (IsAtHead S.Source) inputs.old heads.old }
    requires place { HasHead heads.old place before }
    ensures taken { OnOk result (IsTaken S.Source place before inputs.old heads.old inputs.new heads.new) }
    ensures faulty { IfErr result (λ faulty. IsFaulty S.tells 1 faulty (inputs_shown S.Source inputs.old inputs.new)) }
    ensures goes_on { EachWith (GoesOn S.Source) inputs.old inputs.new }
{
    let input = &mut inputs[place];
    match next_head(input, before) {
        Ok(head) => {
            heads[place] = head;
            Ok(())
        }
        Err(fault) => Err(FaultyInput {
            number: place as u64 + 1,
            fault,
        }),
    }
}

// Writes the line that the input at a place lends, which stands at the moment `at`, and takes its next one.
fn pass_on<S: Source, K: Sink>(
    numbered: bool,
    inputs: &mut [TextReader<S>],
    heads: &mut [Option<u64>],
    place: usize,
    at: u64,
    out: &mut K,
) -> Result<(), MergeStatus>
    requires few { length inputs.old ≤ 16 }
    requires as_many { length inputs.old ≡ length heads.old }
    requires within { place < length inputs.old }
    requires at_heads { EachWith (IsAtHead S.Source) inputs.old heads.old }
    requires place { HasHead heads.old place at }
    ensures at_heads { OnOk result (EachWith (IsAtHead S.Source) inputs.new heads.new) }
    ensures fewer { OnOk result (all_to_come inputs.new heads.new < all_to_come inputs.old heads.old) }
    ensures step { IsTrue S.tells → IsTrue K.tells → IsStep result numbered place (rests_of S.Source inputs.old heads.old)
        (rests_of S.Source inputs.new heads.new) (K.written out.old) (K.written out.new) }
    ensures stopped { IfErr result (IsStopped S.tells (inputs_shown S.Source inputs.old inputs.new) (sink_change K.Sink out.old out.new)) }
    ensures goes_on { EachWith (GoesOn S.Source) inputs.old inputs.new }
    ensures later { K.faults out.old ≤ K.faults out.new }
{
    let line = MergedLine {
        numbered,
        number: place as u64 + 1,
        bytes: inputs[place].text(),
    };
    let Ok(()) = write(out, &line) else {
        return Err(MergeStatus::Write);
    };
    match take_next(inputs, heads, place, at) {
        Ok(()) => Ok(()),
        Err(faulty) => Err(MergeStatus::Input(faulty)),
    }
}

// Writes the lines of inputs each of which lends its next one, the line of the least moment first.
fn merge_on<S: Source, K: Sink>(
    numbered: bool,
    inputs: &mut [TextReader<S>],
    heads: &mut [Option<u64>],
    out: &mut K,
) -> MergeStatus
    requires few { length inputs.old ≤ 16 }
    requires as_many { length inputs.old ≡ length heads.old }
    requires at_heads { EachWith (IsAtHead S.Source) inputs.old heads.old }
    ensures written { IsTrue S.tells → IsTrue K.tells → IsWritten result numbered (rests_of S.Source inputs.old heads.old)
        (K.written out.old) (K.written out.new) }
    ensures ended { IsEnded S.tells (inputs_shown S.Source inputs.old inputs.new) (sink_change K.Sink out.old out.new) result }
    ensures goes_on { EachWith (GoesOn S.Source) inputs.old inputs.new }
{
    'lines: loop {
        let Some((place, at)) = least(heads) else {
            return MergeStatus::Done;
        };
        if let Err(status) = pass_on(numbered, inputs, heads, place, at, out) {
            return status;
        }
    }
}

// Merges inputs with as much room for moments.
fn merge_all<S: Source, K: Sink>(
    numbered: bool,
    inputs: &mut [TextReader<S>],
    heads: &mut [Option<u64>],
    out: &mut K,
) -> MergeStatus
    requires few { length inputs.old ≤ 16 }
    requires as_many { length inputs.old ≡ length heads.old }
    requires fresh { Each IsFresh inputs.old }
    ensures { IsRun (record {
      inputs_tell = S.tells;
      out_tells = K.tells;
      numbered = numbered;
      inputs = inputs_shown S.Source inputs.old inputs.new;
      out = sink_change K.Sink out.old out.new;
      status = result;
    }) }
{
    if let Err(faulty) = take_first(1, inputs, heads) {
        return MergeStatus::Input(faulty);
    }
    merge_on(numbered, inputs, heads, out)
}

/// Writes the lines of inputs as one stream on `out`: as long as an input has a line, that of the least moment comes next, and of equal
/// ones that of the first input. A line that names no moment stands at that of the line before it in its input, and the first at 0. Each
/// line is written at once, with a newline at its end, and where inputs are numbered with its input's number, from 1, and a blank in front.
///
/// Of each input one line is held, and the next line of each is waited for. The readers are ones that were just made over their sources,
/// for lines of at most `LINE_LONGEST` bytes. No memory is taken.
pub fn merge_lines<S: Source, K: Sink>(
    numbered: bool,
    inputs: &mut [TextReader<S>],
    out: &mut K,
) -> MergeStatus
    requires few { length inputs.old ≤ 16 }
    requires fresh { Each IsFresh inputs.old }
    ensures { IsRun (record {
      inputs_tell = S.tells;
      out_tells = K.tells;
      numbered = numbered;
      inputs = inputs_shown S.Source inputs.old inputs.new;
      out = sink_change K.Sink out.old out.new;
      status = result;
    }) }
{
    let mut heads = [None; 16];
    let (heads, _) = heads.split_at_mut(inputs.len());
    merge_all(numbered, inputs, heads, out)
}
