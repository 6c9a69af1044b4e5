// Reads a plan file in pieces.
ghost use Rattle.std.specs.Prelude.{◌≤◌, ℕ, List};
ghost use Rattle.sas_reader.specs.Limit.{most_bytes};
ghost use Rattle.sas_reader.specs.Reader as reading;
ghost use Rattle.sas_reader.specs.Reading.{Starts, Feeds, Finishes};
ghost use Rattle.sas_plan_file.specs.PlanMachine.{plan_behavior};

use crate::plan_machine::PlanMachine;
use sas_core::Plan;
use sas_reader::{Fault, LIMIT, Reader};
use std::alloc::Global;

/// Reads a plan file in pieces, which may be cut anywhere.
#[derive(Drop)]
pub struct PlanReader {
    reader: Reader<PlanMachine>,
    // It represents some bytes: those that it has read.
    ghost some: { ∥ ((bytes : List ℕ)
        × reading.Stands plan_behavior reader bytes) ∥₁ },
}

impl PlanReader {
    ghost use Rattle.sas_plan_file.specs.PlanReader.{plan_view};

    /// Returns a reader that has read nothing yet and refuses more than 4 GiB.
    pub fn new(alloc: Global) -> Self
        ensures { Starts plan_view most_bytes result }
    {
        PlanReader::within(alloc, LIMIT)
    }

    /// Returns a reader that has read nothing yet and refuses more than `limit` bytes. Only tests of the limit lower it.
    #[doc(hidden)]
    pub fn within(alloc: Global, limit: u64) -> Self
        requires { limit ≤ most_bytes }
        ensures { Starts plan_view limit result }
    {
        PlanReader {
            reader: Reader::new(alloc, PlanMachine::new(alloc), limit),
        }
    }

    /// Reads the next piece. Once there is a fault, this call and all later calls return the first fault and ignore all bytes after it.
    pub fn feed(&mut self, piece: &[u8]) -> Result<(), Fault>
        ensures { Feeds plan_view self.old piece.now self.new result }
    {
        self.reader.feed(piece)
    }

    /// Returns the plan if it is complete, or else the fault. It takes no memory: `Memory` is returned only if `feed` returned it.
    pub fn finish(self) -> Result<Plan, Fault>
        ensures { Finishes plan_view self result }
    {
        let PlanReader { reader } = self;
        match reader.finish() {
            Ok(machine) => Ok(machine.into_plan()),
            Err(refused) => Err(refused.into_fault()),
        }
    }
}
