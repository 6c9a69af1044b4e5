// Finds the extent of a section at the beginning of some bytes, for keepers that store nothing of it.
ghost use Rattle.std.specs.Prelude.{◌≡◌, IfOk, IfErr, IfSome};
ghost use Rattle.sas_task_reader.specs.Sections.{ContentOf, SectionAhead};

use crate::{ParsedSection, Section};
use sas_core::{Fact, Items};
use sas_flat::{Effects, Lists};
use sas_reader::{Front, Kind, LineEnd};
use sas_task_file::{read_group, read_operator, read_rule, read_variable};
use std::alloc::Global;

/// The lists of the section that was read last. Their memory is reused for the next section.
#[derive(Drop)]
pub struct SectionLists {
    /// The names of a variable's values.
    values: Lists<u8>,
    /// The facts of a mutex group, the prevail conditions of an operator, or the conditions of a rule.
    facts: Vec<Fact>,
    /// The effects of an operator.
    effects: Effects,
    /// The conditions of an effect.
    conditions: Vec<Fact>,
}

impl SectionLists {
    /// Returns empty lists.
    pub fn new(alloc: Global) -> Self {
        SectionLists {
            values: Lists::new(alloc),
            facts: Vec::new(alloc),
            effects: Effects::new(alloc),
            conditions: Vec::new(alloc),
        }
    }
}

/// Finds a whole section at the beginning of the bytes. Its facts must exist for variables with these ranges. Returns `None` if there is
/// none that can be read at once. The content of `gathered` is unspecified afterwards. Returns `Memory` if out of memory.
#[inline(always)]
pub fn section_front<E: LineEnd>(
    section: Section,
    ranges: &Items<u32>,
    bytes: &[u8],
    gathered: &mut SectionLists,
) -> Result<Option<ParsedSection>, Kind>
    ensures found { IfOk result (λ found. IfSome found (λ parsed.
        (a : ContentOf section) × SectionAhead section ranges.now bytes.now a parsed)) }
    ensures err { IfErr result (λ k. k ≡ Kind.Memory) }
{
    gathered.facts.clear();
    match section {
        Section::Variable => {
            gathered.values.clear();
            match read_variable::<E>(bytes, &mut gathered.values)? {
                Some(found) => Ok(Some(ParsedSection {
                    front: found.front,
                    range: Some(found.range),
                })),
                None => Ok(None),
            }
        }
        Section::Group => match read_group::<E>(ranges, bytes, &mut gathered.facts)? {
            Some(front) => Ok(Some(ParsedSection::of(front))),
            None => Ok(None),
        },
        Section::Operator => {
            gathered.effects.clear();
            match read_operator::<E>(
                ranges,
                bytes,
                &mut gathered.facts,
                &mut gathered.effects,
                &mut gathered.conditions,
            )? {
                Some(found) => Ok(Some(ParsedSection::of(found.front))),
                None => Ok(None),
            }
        }
        Section::Rule => match read_rule::<E>(ranges, bytes, &mut gathered.facts)? {
            Some(found) => Ok(Some(ParsedSection::of(found.front))),
            None => Ok(None),
        },
    }
}
