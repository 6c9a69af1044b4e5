// Stores the outline of a task while it is read: groups, operators and rules are only counted.
ghost use Rattle.std.specs.Prelude.{◌≡◌, List};
ghost use Rattle.sas_core.specs.declared.parts.Fact.{Fact};
ghost use Rattle.sas_core.specs.declared.parts.Operator.{Operator};
ghost use Rattle.sas_core.specs.declared.parts.Effect.{Effect};
ghost use Rattle.sas_task_file.specs.declared.so_far.SoFar.{SoFar};
ghost use Rattle.sas_task_file.specs.TaskEvents.{nothing_yet};
ghost use Rattle.sas_task_file.specs.TaskEvents.{behind_group, behind_operator, behind_rule};
ghost use Rattle.sas_task_reader.specs.TaskOutline.{outline_in, kept_of};

use crate::flat_so_far::FlatSoFar;
use crate::fronts::{SectionLists, section_front};
use crate::{Keeper, ParsedSection, Section};
use sas_core::Items;
use sas_flat::Outline;
use sas_reader::{Front, Kind, LineEnd};
use sas_task_file::{Event, LineValues};
use std::alloc::Global;
use std::marker::Model;

/// The content read so far without groups, operators and rules, and the numbers of these.
#[derive(Drop)]
pub struct OutlineSoFar {
    rest: FlatSoFar,
    groups: u32,
    operators: u32,
    rules: u32,
}

/// The keeper of a `OutlineSoFar`. In a contract its value is this `OutlineSoFar`.
#[derive(Drop)]
pub struct TaskOutline {
    seen: OutlineSoFar,
    /// The lists of a section that is read at once.
    gathered: SectionLists,
}

impl Model for TaskOutline {
    ghost use Rattle.sas_task_reader.specs.declared.task_outline.OutlineSoFar.{OutlineSoFar};

    ghost Value = { OutlineSoFar };

    ghost view = { λ o. o.seen };
}

impl OutlineSoFar {
    /// Counts one more mutex group.
    fn group(&mut self)
        ensures { (s : SoFar) (facts : List Fact) → self.old ≡ kept_of s
            → self.new ≡ kept_of (behind_group s facts) }
    {
        self.groups = self.groups.saturating_add(1);
    }

    /// Counts one more operator, and clears its name.
    fn operator(&mut self)
        ensures { (s : SoFar) (o : Operator) → self.old ≡ kept_of s
            → self.new ≡ kept_of (behind_operator s o) }
    {
        self.rest.forget_name();
        self.operators = self.operators.saturating_add(1);
    }

    /// Counts one more rule.
    fn rule(&mut self)
        ensures { (s : SoFar) (r : Effect) → self.old ≡ kept_of s
            → self.new ≡ kept_of (behind_rule s r) }
    {
        self.rules = self.rules.saturating_add(1);
    }
}

impl TaskOutline {
    /// Returns an outline without content.
    pub fn new(alloc: Global) -> Self
        ensures { result ≡ kept_of (nothing_yet alloc) }
    {
        TaskOutline {
            seen: OutlineSoFar {
                rest: FlatSoFar::new(alloc),
                groups: 0,
                operators: 0,
                rules: 0,
            },
            gathered: SectionLists::new(alloc),
        }
    }

    /// Returns the outline of the content read so far.
    pub fn into_outline(self) -> Outline
        ensures { result ≡ outline_in self }
    {
        let TaskOutline { seen, .. } = self;
        let OutlineSoFar {
            rest,
            groups,
            operators,
            rules,
        } = seen;
        rest.into_outline(groups, operators, rules)
    }
}

impl Keeper for TaskOutline {
    ghost use Rattle.std.specs.Prelude.{◌≡◌};
    ghost use Rattle.sas_task_reader.specs.TaskOutline.{kept_of};

    ghost keeps = { λ _ s kept. kept ≡ kept_of s };

    fn keep(&mut self, line: &[u8], event: Event, said: &mut LineValues) -> Result<(), Kind> {
        match event {
            Event::Group => self.seen.group(),
            Event::Operator => self.seen.operator(),
            Event::Rule => self.seen.rule(),
            Event::Facts | Event::Fact | Event::Effects | Event::Effect => {}
            other => return self.seen.rest.keep(line, other, said),
        }
        Ok(())
    }

    #[inline(always)]
    fn keep_section<E: LineEnd>(
        &mut self,
        section: Section,
        ranges: &Items<u32>,
        bytes: &[u8],
    ) -> Result<Option<ParsedSection>, Kind> {
        if let Section::Variable = section {
            return self.seen.rest.keep_section::<E>(section, ranges, bytes);
        }
        let Some(kept) = section_front::<E>(section, ranges, bytes, &mut self.gathered)? else {
            return Ok(None);
        };
        match section {
            Section::Variable => {}
            Section::Group => self.seen.group(),
            Section::Operator => self.seen.operator(),
            Section::Rule => self.seen.rule(),
        }
        Ok(Some(kept))
    }
}
