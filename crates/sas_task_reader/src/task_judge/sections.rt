// Whole sections: a variable, a mutex group, an operator or a rule. A keeper that stores a section at once also judges its lines.
ghost use Rattle.std.specs.Prelude.{◌≡◌, ◌<◌, IfSome, IfNone, OnOk, OnErr};
ghost use Rattle.sas_task_reader.specs.TaskJudge.{SectionDue, past_section};

use super::TaskJudge;
use sas_core::Items;
use sas_task_file::Place;
use std::alloc::AllocError;

/// A section that a keeper may store at once.
#[derive(Clone, Copy)]
pub enum Section {
    Variable,
    Group,
    Operator,
    Rule,
}

impl TaskJudge {
    /// Returns the section whose first line is expected, or `None` if no such line is.
    pub fn section_due(&self) -> Option<Section>
        ensures some { IfSome result (SectionDue self.now) }
        ensures none { IfNone result ((section : Section) → SectionDue self.now section → ⊥) }
    {
        match self.tracker.place {
            Place::Variables if self.tracker.left > 0 => Some(Section::Variable),
            Place::Groups if self.tracker.left > 0 => Some(Section::Group),
            Place::Operators if self.tracker.left > 0 => Some(Section::Operator),
            Place::Rules if self.tracker.left > 0 => Some(Section::Rule),
            _ => None,
        }
    }

    /// Returns the number of values of each variable.
    pub fn ranges(&self) -> &Items<u32>
        ensures { result.now ≡ self.now.tracker.ranges }
    {
        &self.tracker.ranges
    }

    /// Moves past the expected section. `range` is the number of values of a variable, and `None` for other sections. Returns `Err` and
    /// changes nothing if out of memory.
    pub fn pass_section(&mut self, range: Option<u32>) -> Result<(), AllocError>
        requires { 0 < self.old.tracker.left }
        ensures ok { OnOk result (self.new
            ≡ record self.old { tracker = past_section range self.old.tracker }) }
        ensures err { OnErr result (self.new ≡ self.old) }
    {
        if let Some(range) = range {
            self.tracker.ranges.push(range)?;
        }
        self.tracker.left -= 1;
        self.tracker.more = 0;
        Ok(())
    }
}
