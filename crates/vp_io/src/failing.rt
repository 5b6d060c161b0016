//! Which calls of an object in memory are to fail.

ghost use Rattle.std.specs.Prelude.{◌≡◌, ◌↔◌, ◌<◌, ◌≤◌, ◌^◌, IsTrue, Contains};
ghost use Rattle.vp_io.specs.Counts.{next_count};

use crate::answers::Failed;

/// The numbers of the calls that are to fail, counted from 0, and how many calls have failed.
#[derive(Drop)]
pub struct FailingCalls {
    numbers: Vec<u64>,
    calls: u64,
    pub faults: u64,
    ghost faults_fit: { faults < 2 ^ 64 },
}

impl FailingCalls {
    pub fn new(numbers: Vec<u64>) -> FailingCalls
        ensures { result.faults ≡ 0 }
    {
        FailingCalls {
            numbers,
            calls: 0,
            faults: 0,
        }
    }

    /// Counts a call, and tells whether it is to fail.
    pub fn is_next(&mut self) -> bool
        ensures fails { IsTrue result ↔ Contains self.old.numbers.items self.old.calls }
        ensures call { self.new.calls ≡ next_count self.old.calls }
        ensures numbers { self.new.numbers.items ≡ self.old.numbers.items }
        ensures faults { self.new.faults ≡ self.old.faults }
    {
        let call = self.calls;
        self.calls = call.saturating_add(1);
        self.numbers.contains(&call)
    }

    /// Counts a fault.
    pub fn fault(&mut self) -> Failed
        ensures one_more { self.new.faults ≡ next_count self.old.faults }
        ensures later { self.old.faults ≤ self.new.faults }
    {
        self.faults = self.faults.saturating_add(1);
        Failed
    }
}
