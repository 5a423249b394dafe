//! Where bytes come from and where they go: sources and sinks whose faults are counted, in memory, where their bytes
//! and faults are known, and over std's readers and writers, where nothing but the count of faults is.
#![tactic(auto)]

mod all_bytes;
mod failures;
mod in_memory;
mod listed;
mod retrying;
mod sinks;
mod sources;
mod standard;

pub use all_bytes::{ReadError, read_all};
pub use failures::{Failed, Memory};
pub use in_memory::{MemorySink, MemorySource};
pub use sinks::{Sink, write_all};
pub use sources::Source;
pub use standard::{StdSink, StdSource};
