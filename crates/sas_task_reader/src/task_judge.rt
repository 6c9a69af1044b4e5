// Judges the lines of a task file, one after another, by the table of places.
ghost use Rattle.std.specs.Prelude.{◌≡◌, ◌↔◌, IsTrue, OnOk};
ghost use Rattle.sas_task_file.specs.Tracker.{tracker_start, counts_start};
ghost use Rattle.sas_task_reader.specs.TaskJudge.{JudgesLine, NotesLine, HasEnded};

mod ahead;
mod next_line;
mod sections;

use sas_reader::Kind;
use sas_task_file::{Counts, Event, LineValues, Place, Tracker};
pub use sections::Section;
use std::alloc::Global;

/// The place after the lines so far, and everything that decides which lines may follow. It stores nothing else of the task.
#[derive(Drop)]
pub struct TaskJudge {
    tracker: Tracker,
    /// The values of the last line of each kind.
    pub said: LineValues,
    /// The last numbers of items. That of a list may be older if no list has begun.
    counts: Counts,
}

impl TaskJudge {
    /// Returns a judge that has accepted no line.
    pub fn new(alloc: Global) -> Self
        ensures tracker { result.tracker ≡ tracker_start }
        ensures counts { result.counts ≡ counts_start }
    {
        TaskJudge {
            tracker: Tracker::new(alloc),
            said: LineValues::new(alloc),
            counts: Counts::new(),
        }
    }

    /// Returns whether all lines have been read.
    pub fn has_ended(&self) -> bool
        ensures { IsTrue result ↔ HasEnded self.now }
    {
        self.tracker.left == 0 && self.tracker.place == Place::Rules
    }

    /// Judges the next line. Returns what it adds, or the kind of its fault. `number` is that of the line, counted from 1.
    pub fn take(&mut self, line: &[u8], number: u64) -> Result<Event, Kind>
        requires { HasEnded self.old → ⊥ }
        ensures judges { JudgesLine self.old line.now self.new result }
        ensures notes { OnOk result (NotesLine self.old number self.new) }
    {
        let row = self.tracker.row();
        self.said.parse(&self.tracker.ranges, row.due, line)?;
        self.tracker.move_on(row.moves, self.said.number)?;
        self.counts.note(row.moves, number, self.said.number);
        Ok(row.adds)
    }
}
