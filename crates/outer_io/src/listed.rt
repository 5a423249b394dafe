//! Calls that fail where their numbers are listed.
ghost use Rattle.std.specs.Prelude.{◌≡◌, ◌≤◌, ◌↔◌, IsTrue};
ghost use Rattle.outer_io.specs.Faults.{next_count};
ghost use Rattle.outer_io.specs.InMemory.{IsNextListed};

use crate::Failed;

/// The calls of a source or a sink in memory: the numbers of those that fail, and how many were made and failed.
#[derive(Drop)]
pub(crate) struct Calls {
    pub(crate) listed: Vec<u64>,
    pub(crate) made: u64,
    pub(crate) faults: u64,
}

impl Calls {
    pub(crate) fn new(listed: Vec<u64>) -> Calls
        ensures { result ≡ record { listed = listed; made = 0; faults = 0 } }
    {
        Calls {
            listed,
            made: 0,
            faults: 0,
        }
    }

    // Counts a call, and whether it fails as a listed one. A call past the count's last number is not listed.
    pub(crate) fn next_fails(&mut self) -> bool
        ensures listed { IsTrue result ↔ IsNextListed self.old.listed.items self.old.made }
        ensures counted { self.new ≡ record self.old { made = next_count self.old.made } }
    {
        let Some(number) = self.made.checked_add(1) else {
            return false;
        };
        self.made = number;
        self.listed.contains(&number)
    }

    // Counts a fault, and answers it.
    pub(crate) fn fault(&mut self) -> Failed
        ensures counted { self.new ≡ record self.old { faults = next_count self.old.faults } }
        ensures later { self.old.faults ≤ self.new.faults }
    {
        self.faults = self.faults.saturating_add(1);
        Failed
    }
}
