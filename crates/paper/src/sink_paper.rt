//! A paper over a sink.
ghost use Rattle.std.specs.Prelude.{◌≡◌, ◌≤◌, ◌++◌, [], true, false, length, IsTrue, OnOk, OnErr};
ghost use Rattle.outer_io.specs.Bytes.{AppendsFront};
ghost use Rattle.outer_io.specs.Faults.{Rose};
ghost use Rattle.paper.specs.Filing.{IsFrontOf, Files, filed};

use crate::page::{PAGE_MAX, Page};
use crate::pieces::Paper;
use outer_io::{Failed, Sink, write_all};

// Gives bytes to a sink unless a write has failed before, and answers whether one has failed by now.
#[tactic(auto, using(crate::proofs::Filings::appended_grows, crate::proofs::Filings::appended_front, crate::proofs::Filings::whole_front))]
fn give<K: Sink>(sink: &mut K, bytes: &[u8], failed: bool) -> bool
    ensures later { K.faults sink.old ≤ K.faults sink.new }
    ensures grows { IsTrue K.tells → IsFrontOf (K.written sink.old) (K.written sink.new) }
    ensures whole { result ≡ false → (failed ≡ false) × (IsTrue K.tells → K.written sink.new ≡ K.written sink.old ++ bytes.now) }
    ensures front { failed ≡ false → IsTrue K.tells → IsFrontOf (K.written sink.new) (K.written sink.old ++ bytes.now) }
    ensures stuck { failed ≡ true → (result ≡ true) × (IsTrue K.tells → K.written sink.new ≡ K.written sink.old) }
    ensures cause { failed ≡ false → result ≡ true → Rose (K.faults sink.old) (K.faults sink.new) }
{
    if failed {
        return true;
    }
    match write_all(sink, bytes) {
        Ok(()) => false,
        Err(_) => true,
    }
}

/// A paper over a sink, to which it gives a text in large pieces. After a write that failed it gives nothing more. What is put on it
/// has reached the sink once `finish` is called.
#[derive(Drop)]
pub struct SinkPaper<'s, K: Sink> {
    sink: &'s mut K,
    page: Page,
    failed: bool,
}

impl<'s, K: Sink> SinkPaper<'s, K> {
    /// A paper with no text yet.
    pub fn new(sink: &'s mut K) -> SinkPaper<'s, K>
        ensures same { result.sink.ghost_name ≡ sink.entry.ghost_name }
        ensures empty { result.page ≡ [] }
        ensures fresh { result.failed ≡ false }
        ensures sink { result.sink.now ≡ sink.old }
    {
        SinkPaper {
            sink,
            page: Page::new(),
            failed: false,
        }
    }

    // Gives the page's bytes to the sink.
    fn turn(&mut self)
        ensures same { self.new.sink.ghost_name ≡ self.old.sink.ghost_name }
        ensures files { Files K.tells (filed K.written K.faults self.old) [] (filed K.written K.faults self.new) }
        ensures empty { self.new.page ≡ [] }
    {
        self.failed = give(self.sink, self.page.bytes(), self.failed);
        self.page.clear();
    }

    // Begins an empty page with these bytes, which go right to the sink where the page has no room for them.
    fn begin(&mut self, bytes: &[u8])
        requires { self.old.page ≡ [] }
        ensures same { self.new.sink.ghost_name ≡ self.old.sink.ghost_name }
        ensures files { Files K.tells (filed K.written K.faults self.old) bytes.now (filed K.written K.faults self.new) }
    {
        if bytes.len() <= PAGE_MAX {
            self.page.append(bytes);
        } else {
            self.failed = give(self.sink, bytes, self.failed);
        }
    }

    /// Gives the rest of the text to the sink. It fails where a write has failed since the paper was made: then the sink has some first
    /// bytes of the text.
    pub fn finish(&mut self) -> Result<(), Failed>
        ensures same { self.new.sink.ghost_name ≡ self.old.sink.ghost_name }
        ensures files { Files K.tells (filed K.written K.faults self.old) [] (filed K.written K.faults self.new) }
        ensures empty { self.new.page ≡ [] }
        ensures ok { OnOk result (self.new.failed ≡ false) }
        ensures err { OnErr result (self.new.failed ≡ true) }
    {
        self.turn();
        if self.failed { Err(Failed) } else { Ok(()) }
    }
}

impl<'s, K: Sink> Paper for SinkPaper<'s, K> {
    ghost takes = { λ p bytes q. (q.sink.ghost_name ≡ p.sink.ghost_name)
        × Files K.tells (filed K.written K.faults p) bytes (filed K.written K.faults q) };

    fn put(&mut self, bytes: &[u8]) {
        if bytes.len() <= self.page.room() {
            self.page.append(bytes);
        } else {
            self.turn();
            self.begin(bytes);
        }
    }
}
