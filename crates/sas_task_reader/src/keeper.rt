// Stores the content of the lines of a task file, as far as it is needed.
ghost use Rattle.std.specs.Prelude.{◌≡◌, ◌++◌, ◌∷◌, [], List, ℕ, None, OnOk, IfErr};

use crate::task_judge::Section;
use sas_core::Items;
use sas_reader::{Front, Kind, LineEnd};
use sas_task_file::{Event, LineValues, SoFar};

/// A whole section at the beginning of some bytes: its extent, and the number of its values if it is a variable.
#[derive(Clone, Copy)]
pub struct ParsedSection {
    pub front: Front,
    pub range: Option<u32>,
}

impl ParsedSection {
    /// Returns a section with this extent that isn't a variable.
    pub(crate) fn of(front: Front) -> Self
        ensures { result ≡ record { front = front; range = None } }
    {
        ParsedSection { front, range: None }
    }
}

/// Stores parts of a task while its lines are read.
pub trait Keeper: Drop {
    ghost use Rattle.sas_task_file.specs.declared.so_far.SoFar.{SoFar};
    ghost use Rattle.sas_task_file.specs.TaskEvents.{after};
    ghost use Rattle.sas_task_reader.specs.Sections.{KeepsSection};

    /// The keeper has stored what it needs of these lines, whose content is `SoFar`.
    ghost keeps: { List (List ℕ) → SoFar → Self → Type 0 };

    /// Stores what the next line adds. It may move the content out of `said`. Returns `Memory` if out of memory.
    fn keep(&mut self, line: &[u8], event: Event, said: &mut LineValues) -> Result<(), Kind>
        ensures kept { OnOk result ((lines : List (List ℕ)) (s : SoFar)
            → keeps lines s self.old
            → keeps (lines ++ line.now ∷ []) (after s event said.old line.now) self.new) }
        ensures err { IfErr result (λ k. k ≡ Kind.Memory) };

    /// Stores a whole section at the beginning of the bytes. Its facts must exist for variables with these ranges. It may also store nothing
    /// and return `None`, as the default does; then the section is read line by line. Returns `Memory` if out of memory.
    fn keep_section<E: LineEnd>(
        &mut self,
        section: Section,
        ranges: &Items<u32>,
        bytes: &[u8],
    ) -> Result<Option<ParsedSection>, Kind>
        ensures { KeepsSection keeps section ranges.now bytes.now self.old self.new result }
    {
        Ok(None)
    }
}

impl Keeper for SoFar {
    ghost use Rattle.std.specs.Prelude.{◌≡◌};

    ghost keeps = { λ lines s kept. kept ≡ s };

    fn keep(&mut self, line: &[u8], event: Event, said: &mut LineValues) -> Result<(), Kind> {
        self.add(line, event, said)?;
        Ok(())
    }
}
