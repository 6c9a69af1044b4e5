// Flat plans.
ghost use Rattle.std.specs.Prelude.{◌≡◌};
ghost use Rattle.std.specs.List.{AllByRecursion};
ghost use Rattle.sas_core.specs.Names.{IsName};

use crate::lists::Lists;
use sas_core::{CostKind, Stepwise};
use std::marker::Model;

/// A plan whose step names are stored in one block of memory. In a contract its value is the contents of the plan.
#[derive(Drop)]
pub struct FlatPlan {
    steps: Lists<u8>,
    cost: u64,
    kind: CostKind,
}

impl Model for FlatPlan {
    ghost use Rattle.sas_core.specs.PlanParts.{PlanParts};
    ghost use Rattle.sas_core.specs.WellNamed.{WellNamed};

    ghost Value = { PlanParts };

    ghost view = { λ p. record { steps = p.steps; cost = p.cost; kind = p.kind } };

    ghost invariant = { λ p. WellNamed (record { steps = p.steps; cost = p.cost; kind = p.kind }) };
}

impl FlatPlan {
    /// Returns the plan with these steps, which must all be names. Allocates no memory and checks no step.
    pub fn of_names(steps: Lists<u8>, cost: u64, kind: CostKind) -> FlatPlan
        requires { AllByRecursion IsName steps }
        ensures { result ≡ record { steps = steps; cost = cost; kind = kind } }
    {
        FlatPlan { steps, cost, kind }
    }
}

/// Each method takes constant time.
impl Stepwise for FlatPlan {
    ghost says = { λ p. p };

    fn steps(&self) -> usize {
        self.steps.len()
    }

    fn step(&self, index: usize) -> &[u8] {
        self.steps.get(index)
    }

    fn cost(&self) -> u64 {
        self.cost
    }
}
