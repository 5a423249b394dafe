//! The top call.
ghost use Rattle.std.specs.Prelude.{◌≡◌, [], map, true, false, length, None, Err, IsTrue, IfOk, IfErr, is_some};
ghost use Rattle.std.specs.String.{string_bytes};
ghost use Rattle.outer_io.specs.Shown.{LosesNothing, source_change, sink_change};
ghost use Rattle.meter_side_main.specs.Statuses.{was_heard, status_at, refused_at};
ghost use Rattle.meter_side_main.specs.Run.{address_in, meter_with, IsRun, Hears};
ghost use Rattle.meter_side_main.specs.Refused.{IsNamed, IsRefused, IsHeardFor};

use crate::session::{DeliveriesEnd, hear_source};
use crate::status::SideStatus;
use line_reader::TextReader;
use meter_address::{Address, Commission};
use meter_slots::MeterStart;
use outer_io::{Sink, Source};
use paper::SinkPaper;
use state_file::{StateLoadFault, load_state};
use std::alloc::Global;

// The address in the words.
#[tactic(auto, unfolding(crate::specs::Run::address_in))]
fn named_address(words: &[String]) -> Option<Address>
    ensures { result ≡ address_in (map string_bytes words.now) }
{
    match words {
        [_, address, _] => Address::read_text(address.as_bytes()).ok(),
        _ => None,
    }
}

/// Whether the words name a meter: they are three, and the second is an address.
pub fn names_meter(words: &[String]) -> bool
    ensures named { result ≡ is_some (address_in (map string_bytes words.now)) }
    ensures three { result ≡ true → length words.now ≡ 3 }
{
    named_address(words).is_some()
}

// What is commissioned now of the meter with this address.
fn meter_of(starts: &[MeterStart], address: Address) -> Option<Commission>
    ensures { result ≡ meter_with address starts.now }
{
    for start in starts {
        if start.address().0 == address.0 {
            return Some(start.known().commission());
        }
    }
    None
}

// The status of a state that can't be loaded.
fn unloaded(fault: StateLoadFault) -> SideStatus
    ensures { result ≡ refused_at fault }
{
    match fault {
        StateLoadFault::Read => SideStatus::ReadRoster,
        StateLoadFault::Roster(line, cause) => SideStatus::Roster(line, cause),
        StateLoadFault::Line(line, cause) => SideStatus::State(line, cause),
        StateLoadFault::Memory => SideStatus::Memory,
    }
}

// A meter of a state, and the collector's own address.
#[derive(Drop)]
pub(crate) struct Meter {
    own: Address,
    commission: Commission,
}

// The meter that the words name, of a state's source, or the status that says why there is none.
fn find_meter<S: Source>(
    alloc: Global,
    words: &[String],
    beginning: &mut S,
) -> Result<Meter, SideStatus>
    ensures found { IfOk result (λ meter. IsTrue S.tells →
        IsNamed (map string_bytes words.now) (source_change S.Source beginning.old beginning.new) meter) }
    ensures refused { IfErr result (λ status.
        IsRefused (map string_bytes words.now) S.tells (source_change S.Source beginning.old beginning.new) status) }
    ensures words { address_in (map string_bytes words.now) ≡ None → (result ≡ Err SideStatus.Words) × (beginning.new ≡ beginning.old) }
    ensures no_loss { IsTrue S.tells → LosesNothing (source_change S.Source beginning.old beginning.new) }
{
    let Some(address) = named_address(words) else {
        return Err(SideStatus::Words);
    };
    let state = match load_state(alloc, beginning) {
        Ok(state) => state,
        Err(fault) => return Err(unloaded(fault)),
    };
    let Some(commission) = meter_of(state.starts(), address) else {
        return Err(SideStatus::Uncommissioned);
    };
    let own = state.own();
    Ok(Meter { own, commission })
}

// The status where the source of deliveries ended so, and a write failed or none did: an end that is no `End` comes before the write.
fn status_at(ended: DeliveriesEnd, failed: bool) -> SideStatus
    ensures { result ≡ status_at ended failed }
{
    match (ended, failed) {
        (DeliveriesEnd::Cut, _) => SideStatus::Cut,
        (DeliveriesEnd::Fault, _) => SideStatus::Read,
        (DeliveriesEnd::End, true) => SideStatus::Write,
        (DeliveriesEnd::End, false) => SideStatus::Done,
    }
}

// Hears the deliveries for a meter, and puts what is answered on a paper over the output, until all of it is there or a write failed.
fn hear_on<S: Source, K: Sink>(
    meter: &Meter,
    tx: &mut TextReader<S>,
    paper: &mut SinkPaper<'_, K>,
) -> SideStatus
    requires fresh { tx.old.reader.line ≡ 0 }
    requires goes_on { tx.old.reader.done ≡ false }
    requires longest { tx.old.longest ≡ 582 }
    requires untaken { IsTrue S.tells → S.taken tx.old.reader.source ≡ [] }
    requires blank { paper.old.page ≡ [] }
    requires steady { paper.old.failed ≡ false }
    requires empty { IsTrue K.tells → K.written paper.old.sink.now ≡ [] }
    ensures same { paper.new.sink.ghost_name ≡ paper.old.sink.ghost_name }
    ensures heard { IsTrue S.tells → Hears meter.now.own meter.now.commission
        (source_change S.Source tx.old.reader.source tx.new.reader.source) K.tells
        (sink_change K.Sink paper.old.sink.now paper.new.sink.now) result }
    ensures cause { IsHeardFor S.tells (source_change S.Source tx.old.reader.source tx.new.reader.source)
        (sink_change K.Sink paper.old.sink.now paper.new.sink.now) result }
    ensures no_loss { IsTrue S.tells → LosesNothing (source_change S.Source tx.old.reader.source tx.new.reader.source) }
{
    let ended = hear_source(meter.own, meter.commission, tx, paper);
    let unwritten = paper.finish().is_err();
    status_at(ended, unwritten)
}

// Hears the deliveries for a meter, and writes what is answered.
fn hear<S: Source, K: Sink>(meter: &Meter, tx: &mut TextReader<S>, out: &mut K) -> SideStatus
    requires fresh { tx.old.reader.line ≡ 0 }
    requires goes_on { tx.old.reader.done ≡ false }
    requires longest { tx.old.longest ≡ 582 }
    requires untaken { IsTrue S.tells → S.taken tx.old.reader.source ≡ [] }
    requires empty { IsTrue K.tells → K.written out.old ≡ [] }
    ensures heard { IsTrue S.tells → Hears meter.now.own meter.now.commission
        (source_change S.Source tx.old.reader.source tx.new.reader.source) K.tells (sink_change K.Sink out.old out.new) result }
    ensures cause { IsHeardFor S.tells (source_change S.Source tx.old.reader.source tx.new.reader.source)
        (sink_change K.Sink out.old out.new) result }
    ensures no_loss { IsTrue S.tells → LosesNothing (source_change S.Source tx.old.reader.source tx.new.reader.source) }
{
    let mut paper = SinkPaper::new(out);
    hear_on(meter, tx, &mut paper)
}

/// Hears the deliveries of `tx` for the meter of the state that the words `STATE ADDRESS TX` name, and writes what is answered to each
/// as it is heard. A roster is a state, whose meters are just commissioned. The last counter is at first the one that the state
/// says of the meter. Memory is taken for the state alone, before the first delivery is read.
///
/// The reader is one that was just made over the deliveries, for lines of at most `LINE_MAX` bytes.
pub fn meter_run<S: Source, K: Sink>(
    alloc: Global,
    words: &[String],
    beginning: &mut S,
    tx: &mut TextReader<S>,
    out: &mut K,
) -> SideStatus
    requires fresh { tx.old.reader.line ≡ 0 }
    requires goes_on { tx.old.reader.done ≡ false }
    requires longest { tx.old.longest ≡ 582 }
    requires untaken { IsTrue S.tells → (S.taken beginning.old ≡ []) × (S.taken tx.old.reader.source ≡ []) }
    requires empty { IsTrue K.tells → K.written out.old ≡ [] }
    ensures run { IsRun (record {
      words = map string_bytes words.now;
      sources_tell = S.tells;
      sinks_tell = K.tells;
      beginning = source_change S.Source beginning.old beginning.new;
      tx = source_change S.Source tx.old.reader.source tx.new.reader.source;
      out = sink_change K.Sink out.old out.new;
      status = result;
    }) }

    // What stays as it was: the deliveries and the output where none was heard, and the state after faulty words.
    ensures tx { was_heard result ≡ false → tx.new ≡ tx.old }
    ensures out { was_heard result ≡ false → out.new ≡ out.old }
    ensures beginning { address_in (map string_bytes words.now) ≡ None → beginning.new ≡ beginning.old }
{
    match find_meter(alloc, words, beginning) {
        Ok(meter) => hear(&meter, tx, out),
        Err(status) => status,
    }
}
