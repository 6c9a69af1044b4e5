// Stores only the text of a task file.
ghost use Rattle.std.specs.Prelude.{◌≡◌, []};
ghost use Rattle.sas_lines.specs.Lines.{without_returns};

use crate::fronts::{SectionLists, section_front};
use crate::{Keeper, ParsedSection, Section};
use sas_core::Items;
use sas_lines::{drop_returns, push_line};
use sas_reader::{Front, Kind, LineEnd};
use sas_task_file::{Event, LineValues};
use std::alloc::Global;
use std::marker::Model;

/// The lines so far, each ended by LF or CR LF. In a contract its value is this text.
#[derive(Drop)]
pub struct TaskText {
    text: Vec<u8>,
    /// The lists of a section that is read at once.
    gathered: SectionLists,
}

impl Model for TaskText {
    ghost use Rattle.std.specs.Prelude.{List, ℕ};

    ghost Value = { List ℕ };

    ghost view = { λ t. t.text.items };
}

impl TaskText {
    /// Returns an empty text.
    pub fn new(alloc: Global) -> Self
        ensures { result ≡ [] }
    {
        TaskText {
            text: Vec::new(alloc),
            gathered: SectionLists::new(alloc),
        }
    }

    /// Returns the text so far without its CRs.
    pub fn into_text(self) -> Vec<u8>
        ensures { result.items ≡ without_returns self }
    {
        let TaskText { mut text, .. } = self;
        drop_returns(&mut text);
        text
    }
}

impl Keeper for TaskText {
    ghost use Rattle.std.specs.Prelude.{◌≡◌};
    ghost use Rattle.sas_lines.specs.Lines.{text, without_returns};

    ghost keeps = { λ lines _ kept. without_returns kept ≡ without_returns (text lines) };

    fn keep(&mut self, line: &[u8], _event: Event, _said: &mut LineValues) -> Result<(), Kind> {
        push_line(&mut self.text, line)?;
        Ok(())
    }

    #[inline(always)]
    fn keep_section<E: LineEnd>(
        &mut self,
        section: Section,
        ranges: &Items<u32>,
        bytes: &[u8],
    ) -> Result<Option<ParsedSection>, Kind> {
        let Some(kept) = section_front::<E>(section, ranges, bytes, &mut self.gathered)? else {
            return Ok(None);
        };
        self.text.extend_from_slice(&bytes[..kept.front.bytes])?;
        Ok(Some(kept))
    }
}
