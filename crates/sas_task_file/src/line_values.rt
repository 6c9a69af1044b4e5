// The values on the lines of a task file.
ghost use Rattle.std.specs.Prelude.{◌≡◌};
ghost use Rattle.sas_core.specs.Changes.{plain_effect};

use crate::places::Event;
use sas_core::{Change, Effect, Fact, Items};
use std::alloc::Global;

/// The values of the last line of each kind. A field keeps its value until the next line of its kind.
#[derive(Drop)]
pub struct LineValues {
    /// The metric, a value in the initial state, or a cost.
    pub number: u32,
    pub layer: Option<u32>,
    pub fact: Fact,
    pub effect: Effect,
    /// The head of a rule.
    pub head: Change,
}

impl LineValues {
    /// Returns default values, before any line was read.
    pub fn new(alloc: Global) -> Self {
        LineValues {
            number: 0,
            layer: None,
            fact: Fact { var: 0, value: 0 },
            effect: Effect {
                conditions: Items::new(alloc),
                var: 0,
                old: None,
                new: 0,
            },
            head: Change {
                var: 0,
                old: None,
                new: 0,
            },
        }
    }

    /// Stores an effect without conditions.
    pub fn say_effect(&mut self, change: Change)
        ensures { self.new.effect ≡ plain_effect change }
    {
        self.effect.conditions.clear();
        self.effect.var = change.var;
        self.effect.old = change.old;
        self.effect.new = change.new;
    }
}
