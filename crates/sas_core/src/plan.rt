// Plans: the names of their steps and their cost.
ghost use Rattle.std.specs.Prelude.{◌≡◌, IfOk, IfErr, IfSome, IfNone, IsOk, ◌↔◌};
ghost use Rattle.std.specs.List.{AllByRecursion};
ghost use Rattle.sas_core.specs.Names.{IsName};
ghost use Rattle.sas_core.specs.PlanParts.{PlanParts};
ghost use Rattle.sas_core.specs.FirstBadName.{IsFirstBadName};
ghost use Rattle.sas_core.specs.WellNamed.{WellNamed};

use crate::items::Items;
use crate::names::is_name;
use std::marker::Model;

/// The text after the cost on the last line of a plan. It is preserved but has no effect on verdicts.
#[derive(Clone, Copy, Debug, PartialEq, Eq)]
pub enum CostKind {
    /// `(unit cost)`
    Unit,
    /// `(general cost)`
    General,
}

/// The first step of a plan that isn't a name. `step` counts from 1.
#[derive(Clone, Copy, Debug, PartialEq, Eq)]
pub struct BadName {
    pub step: usize,
}

/// A plan in which each step is a name. Two plans are equal if their steps, costs and cost kinds are equal.
#[derive(Debug, PartialEq, Eq, Drop)]
pub struct Plan {
    steps: Items<Items<u8>>,
    cost: u64,
    kind: CostKind,
}

impl Model for Plan {
    ghost use Rattle.sas_core.specs.PlanParts.{PlanParts};
    ghost use Rattle.sas_core.specs.WellNamed.{WellNamed};

    ghost Value = { PlanParts };

    ghost view = { λ p. record { steps = p.steps; cost = p.cost; kind = p.kind } };

    ghost invariant = { λ p. WellNamed (record { steps = p.steps; cost = p.cost; kind = p.kind }) };

    ghost inverse = { λ p. record { steps = p.steps; cost = p.cost; kind = p.kind } };
}

impl Plan {
    /// Returns the plan with these steps if each is a name. Otherwise returns the steps unchanged and the first step that isn't a name.
    pub fn new(
        steps: Items<Items<u8>>,
        cost: u64,
        kind: CostKind,
    ) -> Result<Plan, (Items<Items<u8>>, BadName)>
        ensures named { IsOk result ↔ AllByRecursion IsName steps }
        ensures plan { IfOk result (λ p. p ≡ record { steps = steps; cost = cost; kind = kind }) }
        ensures handed_back { IfErr result (λ e. e.0 ≡ steps) }
        ensures first { IfErr result (λ e. IsFirstBadName steps e.1.step) }
    {
        match first_bad_name(steps.as_slice()) {
            Some(step) => Err((steps, BadName { step })),
            None => Ok(Plan { steps, cost, kind }),
        }
    }

    /// Returns the plan with these steps, which must all be names. Allocates no memory and checks no step.
    pub fn of_names(steps: Items<Items<u8>>, cost: u64, kind: CostKind) -> Plan
        requires { AllByRecursion IsName steps }
        ensures { result ≡ record { steps = steps; cost = cost; kind = kind } }
    {
        Plan { steps, cost, kind }
    }

    /// Returns the names of the steps, in order.
    pub fn steps(&self) -> &Items<Items<u8>>
        ensures steps { result.now ≡ self.now.steps }
        ensures names { AllByRecursion IsName self.now.steps }
    {
        &self.steps
    }

    /// Returns the cost on the last line of the plan.
    pub fn cost(&self) -> u64
        ensures { result ≡ self.now.cost }
    {
        self.cost
    }

    /// Returns which text follows the cost on the last line.
    pub fn kind(&self) -> CostKind
        ensures { result ≡ self.now.kind }
    {
        self.kind
    }
}

/// Returns the first step that isn't a name, counted from 1.
fn first_bad_name(steps: &[Items<u8>]) -> Option<usize>
    ensures none { IfNone result (AllByRecursion IsName steps.now) }
    ensures first { IfSome result (IsFirstBadName steps.now) }
{
    for (i, step) in steps.iter().enumerate() {
        if !is_name(step.as_slice()) {
            return Some(i + 1);
        }
    }
    None
}
