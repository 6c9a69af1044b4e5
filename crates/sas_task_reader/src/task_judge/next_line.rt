// The location of the next line, and what is expected there. It is needed only if a line is refused.
ghost use Rattle.std.specs.Prelude.{◌≡◌, IfOk, IfSome, IfNone, ℕ, List};
ghost use Rattle.sas_task_file.specs.TaskReasons.{FirstWrong};
ghost use Rattle.sas_task_reader.specs.TaskJudge.{StandsAsBefore};
ghost use Rattle.sas_task_reader.specs.NextLine.{mark_of, due_slot, count_of, IsLastLine};

use super::TaskJudge;
use sas_task_file::{
    Due, ListCount, Mark, Place, WrongWord, wrong_in_effect, wrong_in_fact, wrong_in_head,
};
use std::alloc::AllocError;

impl TaskJudge {
    /// Returns the location of the next line, and what is expected there.
    #[cold]
    pub fn mark(&self) -> Mark
        ensures { result ≡ mark_of self.now }
    {
        let row = self.tracker.row();
        Mark {
            at: row.at,
            due: row.due,
        }
    }

    /// Returns the count of the list whose next item is expected, or whose last item is directly before, if any.
    #[cold]
    pub fn count(&self) -> Option<ListCount>
        ensures { result ≡ count_of self.now }
    {
        self.counts
            .at(self.tracker.place, self.tracker.ranges.len())
    }

    /// Returns the line after which all lines have been read, or `None` if no next line is the last one.
    #[cold]
    pub fn last_line(&self) -> Option<&'static [u8]>
        ensures some { IfSome result (λ line. IsLastLine self.now line.now) }
        ensures none { IfNone result ((line : List ℕ) → IsLastLine self.now line → ⊥) }
    {
        match self.tracker.place {
            Place::Operators if self.tracker.left == 0 => Some(b"0"),
            Place::RuleEnd if self.tracker.left == 0 => Some(b"end_rule"),
            _ => None,
        }
    }

    /// Parses a line again that was refused for a number. Returns its first wrong word, or `Err` if out of memory. Overwrites the effect in
    /// `said`.
    pub fn wrong_word(&mut self, line: &[u8]) -> Result<Option<WrongWord>, AllocError>
        ensures word { IfOk result
            (FirstWrong self.old.tracker.ranges (due_slot self.old) line.now) }
        ensures stands { StandsAsBefore self.old self.new }
    {
        match self.tracker.row().due {
            Due::Fact => Ok(wrong_in_fact(&self.tracker.ranges, line)),
            Due::Head => Ok(wrong_in_head(&self.tracker.ranges, line)),
            Due::Effect => wrong_in_effect(&mut self.said.effect, &self.tracker.ranges, line),
            _ => Ok(None),
        }
    }
}
