//! The clock of the machine.
use crate::clock::Clock;
use std::time::{SystemTime, UNIX_EPOCH};

/// The machine's clock. What it really says is trusted; where it can't be read, it says 0.
#[derive(Drop)]
pub(crate) struct HostClock<'r, R: std::time::Clock> {
    rt: &'r R,
}

impl<'r, R: std::time::Clock> HostClock<'r, R> {
    /// The clock that the runtime has.
    pub(crate) fn new(rt: &'r R) -> HostClock<'r, R> {
        HostClock { rt }
    }
}

impl<'r, R: std::time::Clock> Clock for HostClock<'r, R> {
    fn seconds(&self) -> u64 {
        let Ok(now) = SystemTime::now(self.rt) else {
            return 0;
        };
        match now.duration_since(UNIX_EPOCH) {
            Ok(passed) => passed.as_secs(),
            Err(_) => 0,
        }
    }
}
