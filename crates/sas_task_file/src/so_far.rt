// Stores the content of a task file while it is read.
ghost use Rattle.std.specs.Prelude.{◌≡◌, [], OnOk};
ghost use Rattle.sas_task_file.specs.declared.places.Event.TheVariants as event;
ghost use Rattle.sas_task_file.specs.declared.line_values.LineValues.{LineValues};
ghost use Rattle.sas_task_file.specs.TaskEvents.{nothing_yet, after};

use crate::line_values::LineValues;
use crate::places::Event;
use sas_core::{Effect, Fact, Items, Operator, Parts, Rule, Variable};
use std::alloc::{AllocError, Global};
use std::mem;

/// The parts read so far, and the content of the section that has begun.
#[derive(Drop)]
pub struct SoFar {
    pub alloc: Global,
    pub parts: Parts,
    pub name: Items<u8>,
    pub layer: Option<u32>,
    pub values: Items<Items<u8>>,
    /// The facts of a group, the prevail conditions of an operator, or the conditions of a rule.
    pub facts: Items<Fact>,
    pub effects: Items<Effect>,
}

impl SoFar {
    /// Returns a store without content.
    pub fn new(alloc: Global) -> Self
        ensures { result ≡ nothing_yet alloc }
    {
        SoFar {
            alloc,
            parts: Parts {
                metric: false,
                variables: Items::new(alloc),
                groups: Items::new(alloc),
                init: Items::new(alloc),
                goal: Items::new(alloc),
                operators: Items::new(alloc),
                rules: Items::new(alloc),
            },
            name: Items::new(alloc),
            layer: None,
            values: Items::new(alloc),
            facts: Items::new(alloc),
            effects: Items::new(alloc),
        }
    }

    /// Returns the parts read so far.
    pub fn into_parts(self) -> Parts
        ensures { result ≡ self.parts }
    {
        let SoFar { parts, .. } = self;
        parts
    }

    fn name(&mut self, line: &[u8]) -> Result<(), AllocError>
        ensures { (said : LineValues)
            → OnOk result (self.new ≡ after self.old event.Name said line.now) }
    {
        // If the name before was not moved out, its memory is reused.
        self.name.clear();
        self.name.extend_from_slice(line)
    }

    fn value(&mut self, line: &[u8]) -> Result<(), AllocError>
        ensures { (said : LineValues)
            → OnOk result (self.new ≡ after self.old event.Value said line.now) }
    {
        let name = Vec::from_slice(self.alloc, line)?;
        self.values.push(Items::from_vec(name))
    }

    fn variable(&mut self) -> Result<(), AllocError>
        ensures { (said : LineValues)
            → OnOk result (self.new ≡ after self.old event.Variable said []) }
    {
        let variable = Variable {
            name: mem::replace(&mut self.name, Items::new(self.alloc)),
            layer: self.layer,
            values: mem::replace(&mut self.values, Items::new(self.alloc)),
        };
        self.parts.variables.push(variable)
    }

    fn group(&mut self) -> Result<(), AllocError>
        ensures { (said : LineValues)
            → OnOk result (self.new ≡ after self.old event.Group said []) }
    {
        let facts = mem::replace(&mut self.facts, Items::new(self.alloc));
        self.parts.groups.push(facts)
    }

    fn effect(&mut self, said: &mut LineValues) -> Result<(), AllocError>
        ensures { OnOk result (self.new ≡ after self.old event.Effect said.old []) }
    {
        let Effect { var, old, new, .. } = said.effect;
        let effect = Effect {
            conditions: mem::replace(&mut said.effect.conditions, Items::new(self.alloc)),
            var,
            old,
            new,
        };
        self.effects.push(effect)
    }

    fn operator(&mut self, said: &LineValues) -> Result<(), AllocError>
        ensures { OnOk result (self.new ≡ after self.old event.Operator said.now []) }
    {
        let operator = Operator {
            name: mem::replace(&mut self.name, Items::new(self.alloc)),
            prevail: mem::replace(&mut self.facts, Items::new(self.alloc)),
            effects: mem::replace(&mut self.effects, Items::new(self.alloc)),
            cost: said.number,
        };
        self.parts.operators.push(operator)
    }

    fn rule(&mut self, said: &LineValues) -> Result<(), AllocError>
        ensures { OnOk result (self.new ≡ after self.old event.Rule said.now []) }
    {
        let rule = Rule {
            conditions: mem::replace(&mut self.facts, Items::new(self.alloc)),
            var: said.head.var,
            old: said.head.old,
            new: said.head.new,
        };
        self.parts.rules.push(rule)
    }

    /// Adds the content of the line. A list that begins is empty already, but setting it here again means that no contract has to require
    /// it.
    pub fn add(
        &mut self,
        line: &[u8],
        event: Event,
        said: &mut LineValues,
    ) -> Result<(), AllocError>
        ensures { OnOk result (self.new ≡ after self.old event said.old line.now) }
    {
        match event {
            Event::Nothing => {}
            Event::Metric => self.parts.metric = said.number == 1,
            Event::Name => return self.name(line),
            Event::Layer => self.layer = said.layer,
            Event::Values => self.values = Items::new(self.alloc),
            Event::Value => return self.value(line),
            Event::Variable => return self.variable(),
            Event::Facts => self.facts = Items::new(self.alloc),
            Event::Fact => return self.facts.push(said.fact),
            Event::Group => return self.group(),
            Event::State => return self.parts.init.push(said.number),
            Event::Goal => return self.parts.goal.push(said.fact),
            Event::Effects => self.effects = Items::new(self.alloc),
            Event::Effect => return self.effect(said),
            Event::Operator => return self.operator(said),
            Event::Rule => return self.rule(said),
        }
        Ok(())
    }
}
