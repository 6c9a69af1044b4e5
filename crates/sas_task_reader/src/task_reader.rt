// Reads a task file in pieces.
ghost use Rattle.std.specs.Prelude.{◌≤◌, ℕ, List};
ghost use Rattle.sas_reader.specs.Limit.{most_bytes};
ghost use Rattle.sas_reader.specs.Reader as reading;
ghost use Rattle.sas_reader.specs.Reading.{Starts, Feeds, Finishes};
ghost use Rattle.sas_task_reader.specs.TaskMachine.{reader_behavior};

use crate::TaskMachine;
use sas_core::Task;
use sas_reader::{Fault, LIMIT, Reader};
use sas_task_file::SoFar;
use std::alloc::Global;

/// Reads a task file in pieces, which may be cut anywhere.
#[derive(Drop)]
pub struct TaskReader {
    reader: Reader<TaskMachine<SoFar>>,
    // It represents some bytes: those that it has read.
    ghost some: { ∥ ((bytes : List ℕ)
        × reading.Stands reader_behavior reader bytes) ∥₁ },
}

impl TaskReader {
    ghost use Rattle.sas_task_reader.specs.TaskReader.{task_view};

    /// Returns a reader that has read nothing yet and refuses more than 4 GiB.
    pub fn new(alloc: Global) -> Self
        ensures { Starts task_view most_bytes result }
    {
        TaskReader::within(alloc, LIMIT)
    }

    /// Returns a reader that has read nothing yet and refuses more than `limit` bytes. Only tests of the limit lower it.
    #[doc(hidden)]
    pub fn within(alloc: Global, limit: u64) -> Self
        requires { limit ≤ most_bytes }
        ensures { Starts task_view limit result }
    {
        TaskReader {
            reader: Reader::new(alloc, TaskMachine::new(alloc, SoFar::new(alloc)), limit),
        }
    }

    /// Reads the next piece. Once there is a fault, this call and all later calls return the first fault and ignore all bytes after it.
    pub fn feed(&mut self, piece: &[u8]) -> Result<(), Fault>
        ensures { Feeds task_view self.old piece.now self.new result }
    {
        self.reader.feed(piece)
    }

    /// Returns the task if it is complete, or else the fault. It takes no memory: `Memory` is returned only if `feed` returned it.
    pub fn finish(self) -> Result<Task, Fault>
        ensures { Finishes task_view self result }
    {
        let TaskReader { reader } = self;
        match reader.finish() {
            Ok(machine) => Ok(Task::of_parts(machine.into_kept().into_parts())),
            Err(refused) => Err(refused.into_fault()),
        }
    }
}
