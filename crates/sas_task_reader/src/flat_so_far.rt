// Stores the content of a task file in a few blocks of memory while it is read.
ghost use Rattle.std.specs.Prelude.{◌≡◌, ℕ, List, [], OnOk};
ghost use Rattle.sas_core.specs.WellRanged.{WellRanged};
ghost use Rattle.sas_task_file.specs.declared.places.Event.TheVariants as event;
ghost use Rattle.sas_task_file.specs.declared.line_values.LineValues.{LineValues};
ghost use Rattle.sas_task_file.specs.TaskEvents.{nothing_yet, after};
ghost use Rattle.sas_task_reader.specs.Sections.{AddsSection};
ghost use Rattle.sas_task_reader.specs.TaskOutline.{outline_with};

use crate::{Keeper, ParsedSection, Section};
use sas_core::{Change, Fact, Items};
use sas_flat::{
    Effects, FlatTask, ListColumns, Lists, OperatorColumns, Operators, Outline, TaskColumns,
    VariableColumns, Variables,
};
use sas_reader::{Kind, LineEnd};
use sas_task_file::{Event, LineValues, read_group, read_operator, read_rule, read_variable};
use std::alloc::{AllocError, Global};
use std::marker::Model;

/// The parts read so far, and the content of the section that has begun. In a contract it represents the `SoFar` of the same lines.
#[derive(Drop)]
pub struct FlatSoFar {
    alloc: Global,
    metric: bool,
    variables: VariableColumns,
    groups: ListColumns<Fact>,
    init: Items<u32>,
    goal: Items<Fact>,
    operators: OperatorColumns,
    /// The conditions and the head of each rule.
    conditions: ListColumns<Fact>,
    heads: Vec<Change>,
    begun: SectionContent,
}

/// The content of the variable, group, operator or rule that has begun. Its memory is reused for the next one, so that no line needs an
/// allocation of its own.
#[derive(Drop)]
struct SectionContent {
    name: Items<u8>,
    layer: Option<u32>,
    values: Lists<u8>,
    /// The facts of a group, the prevail conditions of an operator, or the conditions of a rule.
    facts: Items<Fact>,
    effects: Effects,
    /// The conditions of an effect.
    conditions: Vec<Fact>,
}

impl Model for FlatSoFar {
    ghost use Rattle.std.specs.Prelude.{◌≡◌, length};
    ghost use Rattle.sas_flat.specs.Lists.{lists_in, AreEnds, ListColumnsAlign};
    ghost use Rattle.sas_flat.specs.Operators.{operators_in, OperatorColumnsAlign};
    ghost use Rattle.sas_flat.specs.Effects.{effects_of};
    ghost use Rattle.sas_flat.specs.Variables.{variables_in, VariableColumnsAlign};
    ghost use Rattle.sas_task_file.specs.declared.so_far.SoFar.{SoFar};

    ghost Value = { SoFar };

    ghost view = { λ s. record {
      alloc = s.alloc;
      parts = record {
        metric = s.metric;
        variables = variables_in s.variables;
        groups = lists_in s.groups;
        init = s.init;
        goal = s.goal;
        operators = operators_in s.operators;
        rules = effects_of s.heads.items (lists_in s.conditions);
      };
      name = s.begun.name;
      layer = s.begun.layer;
      values = s.begun.values;
      facts = s.begun.facts;
      effects = s.begun.effects;
    } };

    ghost invariant = { λ s. VariableColumnsAlign AreEnds s.variables
        × ListColumnsAlign AreEnds s.groups × OperatorColumnsAlign AreEnds s.operators
        × ListColumnsAlign AreEnds s.conditions
        × (length (lists_in s.conditions) ≡ length s.heads.items) };
}

impl FlatSoFar {
    /// Returns a store without content.
    #[tactic(auto, using(crate::proofs::StoredParts::no_rules))]
    pub fn new(alloc: Global) -> Self
        ensures { result ≡ nothing_yet alloc }
    {
        FlatSoFar {
            alloc,
            metric: false,
            variables: VariableColumns::new(alloc),
            groups: ListColumns::new(alloc),
            init: Items::new(alloc),
            goal: Items::new(alloc),
            operators: OperatorColumns::new(alloc),
            conditions: ListColumns::new(alloc),
            heads: Vec::new(alloc),
            begun: SectionContent {
                name: Items::new(alloc),
                layer: None,
                values: Lists::new(alloc),
                facts: Items::new(alloc),
                effects: Effects::new(alloc),
                conditions: Vec::new(alloc),
            },
        }
    }

    /// Returns the task with the parts read so far, which must be well ranged.
    pub fn into_task(self) -> FlatTask
        requires { WellRanged self.parts }
        ensures { result ≡ self.parts }
    {
        let FlatSoFar {
            metric,
            variables,
            groups,
            init,
            goal,
            operators,
            conditions,
            heads,
            begun,
            ..
        } = self;
        drop(begun);
        FlatTask::of_parts(TaskColumns {
            metric,
            variables: Variables::of_columns(variables),
            groups: Lists::of_columns(groups),
            init,
            goal,
            operators: Operators::of_columns(operators),
            rules: Effects::of_parts(heads, Lists::of_columns(conditions)),
        })
    }

    /// Returns the outline of the parts read so far, with these numbers of groups, operators and rules.
    pub fn into_outline(self, groups: u32, operators: u32, rules: u32) -> Outline
        ensures { result ≡ outline_with self.parts groups operators rules }
    {
        let FlatSoFar {
            metric,
            variables,
            groups: group_columns,
            init,
            goal,
            operators: operator_columns,
            conditions,
            heads,
            begun,
            ..
        } = self;
        drop(begun);
        drop(heads);
        drop(conditions);
        drop(operator_columns);
        drop(group_columns);
        Outline {
            metric,
            variables: Variables::of_columns(variables),
            groups,
            init,
            goal,
            operators,
            rules,
        }
    }

    /// Clears the current name, but keeps its memory.
    pub fn forget_name(&mut self)
        ensures { self.new ≡ record self.old { name = [] } }
    {
        self.begun.name.clear();
    }

    fn name(&mut self, line: &[u8]) -> Result<(), AllocError>
        ensures { (said : LineValues)
            → OnOk result (self.new ≡ after self.old event.Name said line.now) }
    {
        self.begun.name.clear();
        self.begun.name.extend_from_slice(line)
    }

    fn variable(&mut self) -> Result<(), AllocError>
        ensures { (said : LineValues)
            → OnOk result (self.new ≡ after self.old event.Variable said []) }
    {
        let added = self.variables.append(
            self.begun.name.as_slice(),
            self.begun.layer,
            &self.begun.values,
        );
        if let Err(error) = added {
            self.variables.cut();
            return Err(error);
        }
        self.begun.name.clear();
        self.begun.values.clear();
        Ok(())
    }

    fn group(&mut self) -> Result<(), AllocError>
        ensures { (said : LineValues)
            → OnOk result (self.new ≡ after self.old event.Group said []) }
    {
        self.groups.append(self.begun.facts.as_slice())?;
        self.begun.facts.clear();
        Ok(())
    }

    fn effect(&mut self, said: &LineValues) -> Result<(), AllocError>
        ensures { OnOk result (self.new ≡ after self.old event.Effect said.now []) }
    {
        let change = Change {
            var: said.effect.var,
            old: said.effect.old,
            new: said.effect.new,
        };
        self.begun
            .effects
            .push(said.effect.conditions.as_slice(), change)
    }

    fn operator(&mut self, said: &LineValues) -> Result<(), AllocError>
        ensures { OnOk result (self.new ≡ after self.old event.Operator said.now []) }
    {
        let added = self.operators.append(
            self.begun.name.as_slice(),
            self.begun.facts.as_slice(),
            &mut self.begun.effects,
            said.number,
        );
        if let Err(error) = added {
            self.operators.cut();
            return Err(error);
        }
        self.begun.name.clear();
        self.begun.facts.clear();
        self.begun.effects.clear();
        Ok(())
    }

    fn rule(&mut self, said: &LineValues) -> Result<(), AllocError>
        ensures { OnOk result (self.new ≡ after self.old event.Rule said.now []) }
    {
        self.heads.reserve(1)?;
        self.conditions.append(self.begun.facts.as_slice())?;
        self.heads.push(said.head)?;
        self.begun.facts.clear();
        Ok(())
    }

    /// Stores a whole variable at the beginning of the bytes, if `read_variable` finds one. After an `Err` the content is
    /// unspecified.
    #[inline(always)]
    fn variable_ahead<E: LineEnd>(&mut self, bytes: &[u8]) -> Result<Option<ParsedSection>, Kind>
        ensures { (ranges : List ℕ)
            → AddsSection Section.Variable ranges bytes.now self.old self.new result }
    {
        match read_variable::<E>(bytes, &mut self.variables.values) {
            Ok(Some(found)) => {
                if let Err(error) = self.variables.push(found.name, found.layer) {
                    self.variables.cut();
                    return Err(error.into());
                }
                self.begun.name.clear();
                self.begun.layer = found.layer;
                self.begun.values.clear();
                Ok(Some(ParsedSection {
                    front: found.front,
                    range: Some(found.range),
                }))
            }
            missed => {
                self.variables.cut();
                missed?;
                Ok(None)
            }
        }
    }

    /// Stores a whole mutex group at the beginning of the bytes, if `read_group` finds one. After an `Err` the content is
    /// unspecified.
    fn group_ahead<E: LineEnd>(
        &mut self,
        ranges: &Items<u32>,
        bytes: &[u8],
    ) -> Result<Option<ParsedSection>, Kind>
        ensures { AddsSection Section.Group ranges.now bytes.now self.old self.new result }
    {
        match read_group::<E>(ranges, bytes, &mut self.groups.items) {
            Ok(Some(front)) => {
                self.groups.close()?;
                self.begun.facts.clear();
                Ok(Some(ParsedSection::of(front)))
            }
            missed => {
                self.groups.cut();
                missed?;
                Ok(None)
            }
        }
    }

    /// Stores a whole operator at the beginning of the bytes, if `read_operator` finds one. After an `Err` the content is
    /// unspecified.
    fn operator_ahead<E: LineEnd>(
        &mut self,
        ranges: &Items<u32>,
        bytes: &[u8],
    ) -> Result<Option<ParsedSection>, Kind>
        ensures { AddsSection Section.Operator ranges.now bytes.now self.old self.new result }
    {
        match read_operator::<E>(
            ranges,
            bytes,
            &mut self.operators.prevail,
            &mut self.operators.effects,
            &mut self.begun.conditions,
        ) {
            Ok(Some(found)) => {
                if let Err(error) = self.operators.push(found.name, found.cost) {
                    self.operators.cut();
                    return Err(error.into());
                }
                self.begun.name.clear();
                self.begun.facts.clear();
                self.begun.effects.clear();
                Ok(Some(ParsedSection::of(found.front)))
            }
            missed => {
                self.operators.cut();
                missed?;
                Ok(None)
            }
        }
    }

    /// Stores a whole rule at the beginning of the bytes, if `read_rule` finds one. After an `Err` the content is unspecified.
    fn rule_ahead<E: LineEnd>(
        &mut self,
        ranges: &Items<u32>,
        bytes: &[u8],
    ) -> Result<Option<ParsedSection>, Kind>
        ensures { AddsSection Section.Rule ranges.now bytes.now self.old self.new result }
    {
        self.heads.reserve(1)?;
        match read_rule::<E>(ranges, bytes, &mut self.conditions.items) {
            Ok(Some(found)) => {
                self.conditions.close()?;
                if let Err(_) = self.heads.push(found.head) {
                    return Err(Kind::Memory);
                }
                self.begun.facts.clear();
                Ok(Some(ParsedSection::of(found.front)))
            }
            missed => {
                self.conditions.cut();
                missed?;
                Ok(None)
            }
        }
    }

    /// Adds the content of the line.
    fn add(&mut self, line: &[u8], event: Event, said: &LineValues) -> Result<(), AllocError>
        ensures { OnOk result (self.new ≡ after self.old event said.now line.now) }
    {
        match event {
            Event::Nothing => {}
            Event::Metric => self.metric = said.number == 1,
            Event::Name => return self.name(line),
            Event::Layer => self.begun.layer = said.layer,
            Event::Values => self.begun.values.clear(),
            Event::Value => return self.begun.values.push(line),
            Event::Variable => return self.variable(),
            Event::Facts => self.begun.facts.clear(),
            Event::Fact => return self.begun.facts.push(said.fact),
            Event::Group => return self.group(),
            Event::State => return self.init.push(said.number),
            Event::Goal => return self.goal.push(said.fact),
            Event::Effects => self.begun.effects.clear(),
            Event::Effect => return self.effect(said),
            Event::Operator => return self.operator(said),
            Event::Rule => return self.rule(said),
        }
        Ok(())
    }
}

impl Keeper for FlatSoFar {
    ghost use Rattle.std.specs.Prelude.{◌≡◌};

    ghost keeps = { λ lines s kept. kept ≡ s };

    fn keep(&mut self, line: &[u8], event: Event, said: &mut LineValues) -> Result<(), Kind> {
        self.add(line, event, said)?;
        Ok(())
    }

    #[inline(always)]
    fn keep_section<E: LineEnd>(
        &mut self,
        section: Section,
        ranges: &Items<u32>,
        bytes: &[u8],
    ) -> Result<Option<ParsedSection>, Kind> {
        match section {
            Section::Variable => self.variable_ahead::<E>(bytes),
            Section::Group => self.group_ahead::<E>(ranges, bytes),
            Section::Operator => self.operator_ahead::<E>(ranges, bytes),
            Section::Rule => self.rule_ahead::<E>(ranges, bytes),
        }
    }
}
